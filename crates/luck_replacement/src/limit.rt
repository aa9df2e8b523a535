// The largest digit that may stand behind a `%` of a replacement, and how a byte there is judged by it.
ghost use Rattle.std.specs.Prelude.{◌≡◌, ℕ, ◌≤◌};
ghost use Rattle.luck_replacement.specs.Replacement.{allows_digit};
ghost use Rattle.luck_replacement.specs.Inner.{can_refuse, is_refused, rank};

// The rank, under strict rules, of a byte that is no digit: above every digit.
const NO_DIGIT: u8 = 10;

// What `%%` is allowed in addition: with it the limit is above every rank.
const ABOVE_ALL: u8 = 16;

#[derive(Clone, Copy)]
pub struct Limit {
    digit: u8,
    ghost at_least_1: { 1 ≤ digit },
    ghost at_most_9: { digit ≤ 9 },
}

impl Limit {
    ghost use Rattle.luck_replacement.specs.Limit.{as_count};

    // As a count of captures it allows the same digits; with no captures `%1` is the whole match, so it is at least 1.
    #[tactic(auto, using(crate::proofs::Replacements::limits))]
    pub fn of(captures: Option<usize>) -> Self
        ensures { (d : ℕ) → d ≤ 9 → allows_digit (as_count result) d ≡ allows_digit captures d }
    {
        Limit {
            digit: captures.map_or(9, |count| count.clamp(1, 9) as u8),
        }
    }

    // Whether the walk stops at this byte behind a `%`. One comparison decides: with a branch for each kind of byte, the
    // processor often foresees the wrong one.
    #[tactic(auto, using(crate::proofs::Replacements::compared))]
    pub fn is_refused(self, byte: u8, is_strict: bool) -> bool
        ensures { result ≡ is_refused is_strict (as_count self) byte }
    {
        let allowed = self.digit + ABOVE_ALL * (byte == b'%') as u8;
        allowed < rank(byte, is_strict)
    }

    // Whether there is a text that the walk refuses.
    #[tactic(auto, using(crate::proofs::Replacements::below_nine), unfolding(crate::specs::Inner::can_refuse))]
    pub fn can_refuse(self, is_strict: bool) -> bool
        ensures { result ≡ can_refuse is_strict (as_count self) }
    {
        is_strict || self.digit < 9
    }
}

// What a byte behind a `%` is judged by: a digit by its value, any other byte by whether the rules are strict.
#[tactic(auto, using(crate::proofs::Replacements::ranks))]
fn rank(byte: u8, is_strict: bool) -> u8
    ensures { result ≡ rank is_strict byte }
{
    match byte {
        b'0'..=b'9' => byte - b'0',
        _ => NO_DIGIT * is_strict as u8,
    }
}
