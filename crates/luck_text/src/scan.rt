// Bytes of a class or a set, the byte at a place, runs, and the number that digits spell.
ghost use Rattle.std.specs.Prelude.{◌≡◌, ℕ, ◌+◌, ◌≤◌, ◌<◌, Bool, eqb, min, true, take, drop};
ghost use Rattle.luck_text.specs.Bytes.{byte_at, between, part, among, is_digit, is_xdigit, is_lua_whitespace};
ghost use Rattle.luck_text.specs.Bytes.{run as run_of, digit_value, numeral as numeral_of};
ghost use Rattle.luck_text.specs.Scan.{most, grown};

// What a byte is tested for: a class or a set.
pub trait Class {
    ghost holds: { Self → ℕ → Bool };

    fn has(&self, byte: u8) -> bool
        ensures { result ≡ holds self.now byte };
}

// A class of digits, which spell numbers to a base.
trait Base: Class {
    ghost BASE: { ℕ };

    const BASE: u32;

    fn value(&self, digit: u8) -> u8
        requires { Self.holds self.now digit ≡ true }
        ensures { (result ≡ digit_value digit) × (result < 256) };
}

// `0` to `9`.
#[derive(Clone, Copy)]
pub struct Digit;

impl Class for Digit {
    ghost holds = { λ _ b. is_digit b };

    #[tactic(auto, unfolding(crate::specs::Bytes::is_digit))]
    fn has(&self, byte: u8) -> bool {
        byte.is_ascii_digit()
    }
}

impl Base for Digit {
    ghost BASE = { 10 };

    const BASE: u32 = 10;

    #[tactic(auto, using(crate::proofs::Bytes::digit_here))]
    fn value(&self, digit: u8) -> u8 {
        digit - b'0'
    }
}

// `0` to `9`, `a` to `f` and `A` to `F`.
#[derive(Clone, Copy)]
pub struct HexDigit;

impl Class for HexDigit {
    ghost holds = { λ _ b. is_xdigit b };

    // A sum instead of branches: which of the three a digit is can't be foreseen.
    fn has(&self, byte: u8) -> bool {
        let digit = is_between(byte, b'0', b'9') as u8;
        let small = is_between(byte, b'a', b'f') as u8;
        let capital = is_between(byte, b'A', b'F') as u8;
        0 < digit + small + capital
    }
}

impl Base for HexDigit {
    ghost BASE = { 16 };

    const BASE: u32 = 16;

    fn value(&self, digit: u8) -> u8 {
        hex_value(digit)
    }
}

// A space, and HT, LF, VT, FF and CR.
#[derive(Clone, Copy)]
pub struct Whitespace;

impl Class for Whitespace {
    ghost holds = { λ _ b. is_lua_whitespace b };

    #[tactic(auto, unfolding(crate::specs::Bytes::is_lua_whitespace))]
    fn has(&self, byte: u8) -> bool {
        matches!(byte, b' ' | b'\t'..=b'\r')
    }
}

// This byte alone.
#[derive(Clone, Copy)]
pub struct Byte(pub u8);

impl Class for Byte {
    ghost holds = { λ c b. eqb c.0 b };

    fn has(&self, byte: u8) -> bool {
        self.0 == byte
    }
}

// The bytes of a set.
#[derive(Clone, Copy)]
pub struct OneOf<'a>(pub &'a [u8]);

impl<'a> Class for OneOf<'a> {
    ghost holds = { λ s b. among b s.0.now };

    // A loop that is compiled in place, so that a set that is known there costs a few tests: the library's `contains` is a
    // call, and formats and dates of many flags or conversions took up to twice as long.
    #[inline(always)]
    fn has(&self, byte: u8) -> bool {
        for &one in self.0 {
            if one == byte {
                return true;
            }
        }
        false
    }
}

// The bytes from `from` on, none where the text ends before.
fn rest(text: &[u8], from: usize) -> &[u8]
    ensures { result.now ≡ drop from text.now }
{
    &text[from.min(text.len())..]
}

// The first `count` bytes, all where the text is shorter.
fn front(text: &[u8], count: usize) -> &[u8]
    ensures { result.now ≡ take count text.now }
{
    &text[..count.min(text.len())]
}

// How many bytes from `at` on are of the class, up to the first that is not. By places of the text: `take_while` and `count`
// over a slice keep registers that a caller's loop needs, and formats of `%d` took 1.4 times as long.
pub fn run<C: Class>(text: &[u8], at: usize, class: &C) -> usize
    ensures { result ≡ run_of (C.holds class.now) (drop at text.now) }
{
    let mut end = at;
    while end < text.len() && class.has(text[end]) {
        end += 1;
    }
    end - at
}

// Whether a byte is from `low` to `high`, both included.
pub fn is_between(byte: u8, low: u8, high: u8) -> bool
    ensures { result ≡ between low high byte }
{
    (low..=high).contains(&byte)
}

// `0` is 30, `A` 41 and `a` 61 (hexadecimal): a letter's low half is 9 below its value.
pub fn hex_value(digit: u8) -> u8
    requires { is_xdigit digit ≡ true }
    ensures { (result ≡ digit_value digit) × (result < 16) }
{
    digit % 16 + digit / 64 * 9
}

// The byte at a place, a zero byte past the end.
pub fn byte_at(text: &[u8], at: usize) -> u8
    ensures { result ≡ byte_at text.now at }
{
    text.get(at).copied().unwrap_or(0)
}

fn digit_value(byte: u8) -> u64
    ensures { (result ≡ digit_value byte) × (result < 256) }
{
    match byte {
        ..=b'9' => byte.saturating_sub(b'0') as u64,
        ..=b'F' => byte.saturating_sub(b'A') as u64 + 10,
        _ => byte.saturating_sub(b'a') as u64 + 10,
    }
}

// A number with one more digit, of this value. What is larger than every limit of a check or an escape is kept as
// 80000000 (hexadecimal).
#[tactic(auto, unfolding(crate::specs::Scan::grown))]
fn with_digit(value: u64, base: u32, digit: u64) -> u64
    requires { (value ≤ most) × (digit < 256) }
    ensures { result ≡ grown value base digit }
{
    (value * (base as u64) + digit).min(0x8000_0000)
}

// The number that the bytes from `from` to `to` spell to a base, or 80000000 (hexadecimal) where it is larger.
pub fn numeral(text: &[u8], from: usize, to: usize, base: u32) -> u32
    ensures { result ≡ min (numeral_of base (part text.now from to)) most }
{
    let mut value: u64 = 0;
    for &byte in front(rest(text, from), to.saturating_sub(from)) {
        value = with_digit(value, base, digit_value(byte));
    }
    value as u32
}

// Digits in a row: how many they are, and the number that they spell, or 80000000 (hexadecimal) where it is larger.
#[derive(Clone, Copy)]
pub struct Number {
    pub count: usize,
    pub value: u32,
}

// The digits from `at` on, `limit` of them at most, counted and read in one pass. By places of the text, so that a limit of
// three is unrolled: over a slice decimal escapes took 1.4 times as long.
fn read_digits<D: Base>(text: &[u8], at: usize, limit: usize, digits: &D) -> Number
    ensures count { result.count ≡ min limit (run_of (D.holds digits.now) (drop at text.now)) }
    ensures value { result.value ≡ min (numeral_of D.BASE (part text.now at (at + result.count))) most }
{
    let mut value: u64 = 0;
    let mut end = at;
    while end < text.len() && end - at < limit && digits.has(text[end]) {
        value = with_digit(value, D::BASE, digits.value(text[end]) as u64);
        end += 1;
    }
    Number {
        count: end - at,
        value: value as u32,
    }
}

// The hexadecimal digits from `at` on.
pub fn hex_digits(text: &[u8], at: usize) -> Number
    ensures count { result.count ≡ run_of is_xdigit (drop at text.now) }
    ensures value { result.value ≡ min (numeral_of 16 (part text.now at (at + result.count))) most }
{
    read_digits(text, at, usize::MAX, &HexDigit)
}

// The decimal digits from `at` on.
pub fn decimal_digits(text: &[u8], at: usize) -> Number
    ensures count { result.count ≡ run_of is_digit (drop at text.now) }
    ensures value { result.value ≡ min (numeral_of 10 (part text.now at (at + result.count))) most }
{
    read_digits(text, at, usize::MAX, &Digit)
}

// The decimal digits from `at` on, `limit` of them at most.
pub fn digits(text: &[u8], at: usize, limit: usize) -> Number
    ensures count { result.count ≡ min limit (run_of is_digit (drop at text.now)) }
    ensures value { result.value ≡ min (numeral_of 10 (part text.now at (at + result.count))) most }
{
    read_digits(text, at, limit, &Digit)
}
