// UTF-8, as RFC 3629 has it.
ghost use Rattle.std.specs.Prelude.{◌≡◌, [], ◌∷◌, ℕ, ◌+◌, ◌*◌, ◌-◌, ◌<◌};
ghost use Rattle.std.specs.Prelude.{◌≤◌, length, leb};
ghost use Rattle.luck_text.specs.Bytes.{byte_at, between};
ghost use Rattle.luck_text.specs.Walk.{walk_from};
ghost use Rattle.luck_utf8.specs.Utf8.{◌to◌, tail, rfc3629, tails_of, in_range, sequence_at};
ghost use Rattle.luck_utf8.specs.Utf8.{none_ill_formed, ill_formed, place_of, char_at};
ghost use Rattle.luck_utf8.specs.Utf8.{sequence as sequence_of};

use luck_text::blocks::Sought;
use luck_text::scan::Class;
use luck_text::{blocks, scan};

// Where the first ill-formed sequence of a text stands.
#[derive(Clone, Copy, Debug, PartialEq, Eq)]
pub struct IllFormed {
    pub at: usize,
}

#[repr(C)]
#[derive(Clone, Copy)]
pub struct Char {
    pub code: u32,
    pub width: usize,
}

// The range of the second byte of a sequence. The bytes after it are 80 to BF. A `RangeInclusive` has a flag besides its
// ends, of which the contracts below would have to speak too.
#[derive(Clone, Copy)]
struct Second {
    low: u8,
    high: u8,
}

impl Class for Second {
    ghost holds = { λ r b. between r.low r.high b };

    fn has(&self, byte: u8) -> bool {
        scan::is_between(byte, self.low, self.high)
    }
}

// A byte below A0 behind E0 would be a longer form of a shorter sequence, and one above 9F behind ED a surrogate.
fn second_of_three(lead: u8) -> Second
    requires { (0xE0 ≤ lead) × (lead < 0xF0) }
    ensures { tails_of rfc3629 lead ≡ Some (◌to◌ result.low result.high ∷ tail ∷ []) }
{
    match lead {
        0xE0 => Second {
            low: 0xA0,
            high: 0xBF,
        },
        0xED => Second {
            low: 0x80,
            high: 0x9F,
        },
        _ => Second {
            low: 0x80,
            high: 0xBF,
        },
    }
}

// A byte below 90 behind F0 would be a longer form of a shorter sequence, and one above 8F behind F4 past 10FFFF.
fn second_of_four(lead: u8) -> Second
    requires { (0xF0 ≤ lead) × (lead < 0xF5) }
    ensures { tails_of rfc3629 lead ≡ Some (◌to◌ result.low result.high ∷ tail ∷ tail ∷ []) }
{
    match lead {
        0xF0 => Second {
            low: 0x90,
            high: 0xBF,
        },
        0xF4 => Second {
            low: 0x80,
            high: 0x8F,
        },
        _ => Second {
            low: 0x80,
            high: 0xBF,
        },
    }
}

fn is_tail(byte: u8) -> bool
    ensures { result ≡ in_range tail byte }
{
    scan::is_between(byte, 0x80, 0xBF)
}

// The sequence at `at`, whose first byte is 80 to DF. All its bytes are read before any is judged: the tests then become one branch.
fn two(text: &[u8], at: usize) -> usize
    requires { (at < length text.now) × (0x80 ≤ byte_at text.now at) × (byte_at text.now at < 0xE0) }
    ensures { result ≡ sequence_of text.now at }
{
    if text.len() - at < 2 {
        return 0;
    }
    let lead = text[at];
    let second = text[at + 1];
    if lead < 0xC2 || !is_tail(second) {
        return 0;
    }
    2
}

// The sequence at `at`, whose first byte is E0 to EF.
fn three(text: &[u8], at: usize) -> usize
    requires { (at < length text.now) × (0xE0 ≤ byte_at text.now at) × (byte_at text.now at < 0xF0) }
    ensures { result ≡ sequence_of text.now at }
{
    let range = second_of_three(text[at]);
    if text.len() - at < 3 {
        return 0;
    }
    let second = text[at + 1];
    let third = text[at + 2];
    if !range.has(second) || !is_tail(third) {
        return 0;
    }
    3
}

// The sequence at `at`, whose first byte is F0 to F4.
fn four(text: &[u8], at: usize) -> usize
    requires { (at < length text.now) × (0xF0 ≤ byte_at text.now at) × (byte_at text.now at < 0xF5) }
    ensures { result ≡ sequence_of text.now at }
{
    let range = second_of_four(text[at]);
    if text.len() - at < 4 {
        return 0;
    }
    let second = text[at + 1];
    let third = text[at + 2];
    let fourth = text[at + 3];
    if !range.has(second) || !is_tail(third) || !is_tail(fourth) {
        return 0;
    }
    4
}

// How many bytes the well-formed sequence at `at` has; 0 where it is ill-formed or the text ends there.
pub fn sequence(text: &[u8], at: usize) -> usize
    ensures { result ≡ sequence_of text.now at }
{
    if text.len() <= at {
        return 0;
    }
    match text[at] {
        ..0x80 => 1,
        ..0xE0 => two(text, at),
        ..0xF0 => three(text, at),
        ..0xF5 => four(text, at),
        _ => 0,
    }
}

// The highest byte of a block. A maximum is what the compiler makes vector instructions of: the library's `is_ascii`, which
// can stop early, was measured to take near three times as long over ASCII text.
fn highest(block: &[u8]) -> u8
    ensures { (k : ℕ) → k < length block.now → byte_at block.now k ≤ result }
{
    let mut high = 0;
    for &byte in block {
        high = high.max(byte);
    }
    high
}

// The bytes that are not ASCII.
struct NotAscii;

impl Class for NotAscii {
    ghost holds = { λ _ b. leb 0x80 b };

    fn has(&self, byte: u8) -> bool {
        0x80 <= byte
    }
}

impl Sought for NotAscii {
    fn is_in(&self, block: &[u8]) -> bool {
        0x80 <= highest(block)
    }
}

// The place of the first sequence from `from` on that is ill-formed or does not begin before `stop`.
fn sequences(text: &[u8], from: usize, stop: usize) -> usize
    requires { (from ≤ stop) × (stop ≤ length text.now) }
    ensures { (result ≤ length text.now)
        × (walk_from (sequence_at text.now) none_ill_formed (length text.now) result tt
        ≡ walk_from (sequence_at text.now) none_ill_formed (length text.now) from tt)
        × (result < stop → sequence_of text.now result ≡ 0) }
{
    let mut at = from;
    // The step is the width of a sequence.
    while at < stop {
        let width = sequence(text, at);
        if width == 0 {
            return at;
        }
        at += width;
    }
    at
}

// The place behind the blocks of ASCII bytes at `at`, which may be none: one of 32 and those of 128 behind it, or, near the
// end of the text, one of 8.
fn ascii_end(text: &[u8], at: usize) -> usize
    requires { at ≤ length text.now }
    ensures { (at ≤ result) × (result ≤ length text.now) × ((k : ℕ) → at ≤ k → k < result → byte_at text.now k < 0x80) }
{
    if 32 <= text.len() - at {
        if NotAscii.is_in(&text[at..at + 32]) {
            return at;
        }
        return blocks::blocks_without::<128, NotAscii>(text, at + 32, &NotAscii);
    }
    if 8 <= text.len() - at && !NotAscii.is_in(&text[at..at + 8]) {
        return at + 8;
    }
    at
}

// The end of the block of 32 bytes at `at`, or of the text.
fn block_end(text: &[u8], at: usize) -> usize
    requires { at < length text.now }
    ensures { (at < result) × (result ≤ length text.now) }
{
    text.len().min(at.saturating_add(32))
}

// Blocks of ASCII bytes are passed over whole. Where a block has another byte, its sequences are read one by one, and the
// next block is tried behind them, so that text with few ASCII bytes pays for one test in 32 bytes.
pub fn validate(text: &[u8]) -> Result<(), IllFormed>
    ensures { place_of result ≡ ill_formed text.now }
{
    let mut at = 0;
    // The step is what was passed over: blocks, or the sequences of one.
    while at < text.len() {
        let end = ascii_end(text, at);
        if at < end {
            at = end;
            continue;
        }
        let stop = block_end(text, at);
        at = sequences(text, at, stop);
        if at < stop {
            return Err(IllFormed { at });
        }
    }
    Ok(())
}

// Six more bits: those of the byte at `at`, behind `bits`.
fn with_tail(bits: u32, text: &[u8], at: usize) -> u32
    requires { (bits < 0x1000000) × (0x80 ≤ byte_at text.now at) }
    ensures { (result ≡ bits * 0x40 + (byte_at text.now at - 0x80)) × (result < bits * 0x40 + 0x80) }
{
    bits * 0x40 + (text[at] as u32 - 0x80)
}

// The character at a place. At the end and where no character is whole there, U+FFFD of width 1, as in luck.
pub fn char_at(text: &[u8], at: usize) -> Char
    ensures { result ≡ char_at text.now at }
{
    let width = sequence(text, at);
    if width == 0 {
        return Char {
            code: 0xFFFD,
            width: 1,
        };
    }
    let lead = text[at] as u32;
    if width == 1 {
        return Char { code: lead, width };
    }
    if width == 2 {
        let code = with_tail(lead - 0xC0, text, at + 1);
        return Char { code, width };
    }
    if width == 3 {
        let bits = with_tail(lead - 0xE0, text, at + 1);
        let code = with_tail(bits, text, at + 2);
        return Char { code, width };
    }
    let first = with_tail(lead - 0xF0, text, at + 1);
    let bits = with_tail(first, text, at + 2);
    let code = with_tail(bits, text, at + 3);
    Char { code, width }
}
