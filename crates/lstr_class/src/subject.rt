// Tests of the subject's bytes: the one before a place, a zero byte standing before the first; equal parts; and balanced pairs.
ghost use Rattle.std.specs.Prelude.{◌≡◌, ◌+◌, ◌<◌, ◌≤◌, length, IfSome};
ghost use Rattle.lstr_class.specs.Subject.{byte_before, same_bytes, match_balance};

use luck_text::scan;

pub fn byte_before(subject: &[u8], at: usize) -> u8
    ensures { result ≡ byte_before subject.now at }
{
    if at == 0 {
        return 0;
    }
    scan::byte_at(subject, at - 1)
}

// Whether `count` bytes of the subject from one place and from another on are the same.
pub fn same_bytes(subject: &[u8], count: usize, from: usize, other: usize) -> bool
    requires { (from + count ≤ length subject.now) × (other + count ≤ length subject.now) }
    ensures { result ≡ same_bytes subject.now count from other }
{
    subject[from..from + count] == subject[other..other + count]
}

// matchbalance: the place after the `closing` that balances the `opening` at `place`.
pub fn match_balance(subject: &[u8], opening: u8, closing: u8, place: usize) -> Option<usize>
    ensures { (result ≡ match_balance subject.now opening closing place) × IfSome result (λ end. (place < end) × (end ≤ length subject.now)) }
{
    if subject.len() <= place {
        return None;
    }
    if subject[place] != opening {
        return None;
    }
    let mut depth: usize = 1;
    for at in place + 1..subject.len() {
        let byte = subject[at];
        if byte == closing {
            if depth == 1 {
                return Some(at + 1);
            }
            depth -= 1;
        } else if byte == opening {
            depth += 1;
        }
    }
    None
}
