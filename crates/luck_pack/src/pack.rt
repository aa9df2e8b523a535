// The check of a format of string.pack and string.packsize.
ghost use Rattle.std.specs.Prelude.{◌≡◌, true, ℕ, ◌+◌, ◌-◌, ◌<◌, ◌≤◌, length, IfOk};
ghost use Rattle.luck_text.specs.Bytes.{among, between};
ghost use Rattle.luck_utf8.specs.Utf8.{char_at};
ghost use Rattle.luck_answer.specs.Answer.{walked_of, answer_of};
ghost use Rattle.luck_pack.specs.Pack.{pack_option, limited_letters, getnumlimit, fixed_string, numbered_option, getoption};
ghost use Rattle.luck_pack.specs.Pack.{luck_size};
ghost use Rattle.luck_pack.specs.Pack.{pack_state, is_power_of_two, is_misaligned, aligned as aligned_of, align_to_next};
ghost use Rattle.luck_pack.specs.Pack.{pack_turn};
ghost use Rattle.luck_pack.specs.Pack.{pack_walk, check_pack};
ghost use Rattle.luck_pack.specs.Inner.{kept, kept_read, kept_plain, keeps, kept_alignment, kept_turn, size_read};
ghost use Rattle.luck_pack.specs.Inner.{option_read, with_value, pack_turn_of};

use luck_answer::format_pattern::{CheckError, PatternError};
use luck_text::scan;
use luck_text::scan::Digit;
use luck_token::text;
use luck_utf8::utf8;

#[derive(Clone, Copy, Debug, PartialEq, Eq)]
pub enum PackOption {
    // a number of this many bytes
    Sized(u32),
    // `s`, a string behind a length of this many bytes
    Counted(u32),
    // `z`, a string up to a zero byte
    ZeroTerminated,
    // `c` and a size, which is never aligned
    FixedString,
    // `x`, one byte of padding
    Padding,
    // `X`, padding to the alignment of the option after it
    AlignToNext,
    // `!`, setting the maximum alignment
    SetMaxAlignment(u32),
    // a space or an endianness
    Control,
}

// An option and its width in bytes.
#[derive(Clone, Copy, Debug, PartialEq, Eq)]
pub struct Read {
    pub option: PackOption,
    pub width: usize,
}

// The number behind an option, if one stands there, and the width of its option in bytes.
#[derive(Clone, Copy, Debug, PartialEq, Eq)]
pub struct Size {
    pub number: Option<u32>,
    pub width: usize,
}

// The sizes that getnumlimit takes.
fn is_size(number: u32) -> bool
    ensures { result ≡ between 1 16 number }
{
    (1..=16).contains(&number)
}

// getnumlimit: a number from 1 to 16 whose digits are due at `at`, or none where there are none.
#[tactic(auto, using(luck_text::proofs::Bytes::run_inside))]
fn scan_limited_size(text: &[u8], at: usize) -> Result<Size, PatternError>
    requires { at ≤ length text.now }
    ensures reads { (letter : ℕ) → size_read letter result ≡ getnumlimit letter text.now at }
    ensures inside { IfOk result (λ size. (0 < size.width) × (at + size.width ≤ length text.now + 1)) }
{
    let number = scan::decimal_digits(text, at);
    let digits = number.count;
    if digits == 0 {
        return Ok(Size {
            number: None,
            width: 1,
        });
    }
    let size = number.value;
    if !is_size(size) {
        return Err(PatternError::PackSizeOutOfLimits { offset: at });
    }
    Ok(Size {
        number: Some(size),
        width: 1 + digits,
    })
}

// Whether an option has a size that is limited.
#[tactic(auto, unfolding(luck_text::specs::Bytes::among))]
fn is_limited(letter: u8) -> bool
    ensures { result ≡ among letter limited_letters }
{
    matches!(letter, b'i' | b'I' | b's' | b'!')
}

// The option of a letter that takes a size from 1 to 16, with the number behind it or its default.
#[tactic(auto, unfolding(crate::specs::Computed::computed, crate::specs::Inner::kept, crate::specs::Inner::kept_as))]
fn limited_option(letter: u8, number: Option<u32>) -> PackOption
    requires { among letter limited_letters ≡ true }
    ensures { result ≡ kept (pack_option letter number) }
{
    match letter {
        b's' => PackOption::Counted(number.unwrap_or(4)),
        b'!' => PackOption::SetMaxAlignment(number.unwrap_or(8)),
        _ => PackOption::Sized(number.unwrap_or(4)),
    }
}

// `c` needs a size, however large, whose digits are due at `at`.
#[tactic(auto, using(luck_text::proofs::Bytes::run_inside))]
fn scan_fixed_string(text: &[u8], at: usize) -> Result<Read, PatternError>
    requires { (0 < at) × (at ≤ length text.now) }
    ensures reads { option_read result ≡ kept_read (fixed_string text.now at) }
    ensures inside { IfOk result (λ read. (0 < read.width) × (at - 1 + read.width ≤ length text.now)) }
{
    let digits = scan::run(text, at, &Digit);
    if digits == 0 {
        return Err(PatternError::TruncatedPackSize { offset: at });
    }
    Ok(Read {
        option: PackOption::FixedString,
        width: 1 + digits,
    })
}

// An option of one byte, if the byte is one.
#[tactic(auto, unfolding(crate::specs::Computed::computed, crate::specs::Inner::kept_plain, crate::specs::Inner::kept, crate::specs::Inner::kept_as))]
fn plain_option(byte: u8) -> Option<PackOption>
    ensures { result ≡ kept_plain byte }
{
    match byte {
        b'b' | b'B' => Some(PackOption::Sized(1)),
        b'h' | b'H' => Some(PackOption::Sized(2)),
        b'l' | b'L' | b'j' | b'J' | b'T' | b'f' => Some(PackOption::Sized(4)),
        b'd' | b'n' => Some(PackOption::Sized(8)),
        b'z' => Some(PackOption::ZeroTerminated),
        b'x' => Some(PackOption::Padding),
        b'X' => Some(PackOption::AlignToNext),
        b' ' | b'<' | b'>' | b'=' => Some(PackOption::Control),
        _ => None,
    }
}

// What stands at `at` is no option there.
fn invalid_option(text: &[u8], at: usize) -> PatternError
    ensures { result ≡ PatternError.InvalidPackOption at (char_at text.now at).code }
{
    PatternError::InvalidPackOption {
        offset: at,
        character: utf8::char_at(text, at).code,
    }
}

// An option whose size is due after its byte, at `at`.
fn scan_sized_option(text: &[u8], at: usize) -> Result<Read, PatternError>
    requires { at < length text.now }
    ensures reads { option_read result ≡ kept_read (numbered_option text.now at) }
    ensures inside { IfOk result (λ read. (0 < read.width) × (at + read.width ≤ length text.now)) }
{
    let byte = text[at];
    if is_limited(byte) {
        let size = scan_limited_size(text, at + 1)?;
        return Ok(Read {
            option: limited_option(byte, size.number),
            width: size.width,
        });
    }
    if byte == b'c' {
        return scan_fixed_string(text, at + 1);
    }
    Err(invalid_option(text, at))
}

// One option, as getoption reads it.
fn scan_pack_option(text: &[u8], at: usize) -> Result<Read, PatternError>
    ensures reads { option_read result ≡ kept_read (getoption text.now at) }
    ensures inside { IfOk result (λ read. (0 < read.width) × (at + read.width ≤ length text.now)) }
{
    if text.len() <= at {
        return Err(PatternError::TruncatedPackSize { offset: at });
    }
    match plain_option(text[at]) {
        Some(option) => Ok(Read { option, width: 1 }),
        None => scan_sized_option(text, at),
    }
}

// Whether a number up to 16 is a power of two. An arm for each, which the compiler makes one test of bits: by
// `matches!(number, 1 | 2 | 4 | 8 | 16)`, which it makes a chain of tests, a check took up to 1.5 times as long.
#[tactic(auto, unfolding(crate::specs::Pack::is_power_of_two, luck_text::specs::Bytes::among))]
fn is_power_of_two(number: u32) -> bool
    ensures { result ≡ is_power_of_two number }
{
    match number {
        1 => true,
        2 => true,
        4 => true,
        8 => true,
        16 => true,
        _ => false,
    }
}

#[tactic(auto, unfolding(crate::specs::Pack::is_misaligned))]
fn is_misaligned(size: u32, alignment: u32) -> bool
    ensures { result ≡ is_misaligned size alignment }
{
    1 < size && !is_power_of_two(size.min(alignment))
}

// A turn of the walk: the width of what was read, whether it takes a value, and the maximum alignment after it.
#[derive(Clone, Copy, Debug, PartialEq, Eq)]
pub struct Turn {
    pub width: usize,
    pub has_value: bool,
    pub alignment: u32,
}

// This turn, by an option of this size at `at`, which leaves the maximum alignment as it is.
fn aligned(at: usize, size: u32, turn: Turn) -> Result<Turn, PatternError>
    ensures turns { (values : ℕ) → pack_turn_of values result ≡ aligned_of at turn.width size (pack_state values turn.alignment) (with_value turn.has_value values turn.alignment) }
    ensures goes_by { IfOk result (λ after. after.width ≡ turn.width) }
{
    if is_misaligned(size, turn.alignment) {
        return Err(PatternError::BadPackAlignment { offset: at });
    }
    Ok(turn)
}

// What `X` may stand before, with its size.
fn alignment_of(option: PackOption) -> Option<u32>
    ensures { result ≡ kept_alignment option }
{
    match option {
        PackOption::Sized(size) | PackOption::Counted(size) => Some(size),
        PackOption::Padding => Some(1),
        PackOption::ZeroTerminated
        | PackOption::FixedString
        | PackOption::AlignToNext
        | PackOption::SetMaxAlignment(_)
        | PackOption::Control => None,
    }
}

// `X` at `at`, and the option that it aligns to, as getdetails takes it from getoption.
fn align_to_next(text: &[u8], at: usize, alignment: u32) -> Result<Turn, PatternError>
    requires { at < length text.now }
    ensures turns { (values : ℕ) → pack_turn_of values result ≡ align_to_next luck_size text.now at (pack_state values alignment) (getoption text.now (at + 1)) }
    ensures goes_in { IfOk result (λ turn. (0 < turn.width) × (at + turn.width ≤ length text.now)) }
{
    let next = scan_pack_option(text, at + 1)?;
    match alignment_of(next.option) {
        Some(size) => aligned(
            at,
            size,
            Turn {
                width: 1 + next.width,
                has_value: false,
                alignment,
            },
        ),
        None => Err(invalid_option(text, at + 1)),
    }
}

// An option of variable length, whose size packsize can't know.
fn variable_length(text: &[u8], at: usize) -> PatternError
    ensures { result ≡ PatternError.VariableLengthPackOption at (char_at text.now at).code }
{
    PatternError::VariableLengthPackOption {
        offset: at,
        character: utf8::char_at(text, at).code,
    }
}

// What an option of this width does.
#[tactic(auto, unfolding(crate::specs::Inner::kept_turn, crate::specs::Pack::variable))]
fn option_turn(
    text: &[u8],
    at: usize,
    read: Read,
    alignment: u32,
    is_packsize: bool,
) -> Result<Turn, PatternError>
    requires { (at < length text.now) × (0 < read.width) × (at + read.width ≤ length text.now) }
    ensures turns { (values : ℕ) → pack_turn_of values result ≡ kept_turn is_packsize text.now at (pack_state values alignment) (keeps read.option read.width) }
    ensures goes_in { IfOk result (λ turn. (0 < turn.width) × (at + turn.width ≤ length text.now)) }
{
    let with_value = Turn {
        width: read.width,
        has_value: true,
        alignment,
    };
    let without = Turn {
        has_value: false,
        ..with_value
    };
    match read.option {
        PackOption::Sized(size) => aligned(at, size, with_value),
        PackOption::Counted(_) if is_packsize => Err(variable_length(text, at)),
        PackOption::Counted(size) => aligned(at, size, with_value),
        PackOption::ZeroTerminated if is_packsize => Err(variable_length(text, at)),
        PackOption::ZeroTerminated | PackOption::FixedString => Ok(with_value),
        PackOption::Padding | PackOption::Control => Ok(without),
        PackOption::AlignToNext => align_to_next(text, at, alignment),
        PackOption::SetMaxAlignment(largest) => Ok(Turn {
            alignment: largest,
            ..without
        }),
    }
}

// The option at `at` and what it does.
fn scan_option(
    text: &[u8],
    at: usize,
    alignment: u32,
    is_packsize: bool,
) -> Result<Turn, PatternError>
    requires { at < length text.now }
    ensures turns { (values : ℕ) → pack_turn_of values result ≡ pack_turn luck_size is_packsize text.now at (pack_state values alignment) }
    ensures goes_in { IfOk result (λ turn. (0 < turn.width) × (at + turn.width ≤ length text.now)) }
{
    let read = scan_pack_option(text, at)?;
    option_turn(text, at, read, alignment, is_packsize)
}

// The walk over a text that is UTF-8. `initheader` starts the maximum alignment at 1.
pub fn scan_pack_format(text: &[u8], is_packsize: bool) -> Result<usize, PatternError>
    ensures { walked_of result ≡ pack_walk is_packsize text.now }
{
    let mut values = 0;
    let mut alignment: u32 = 1;
    let mut at = 0;
    // an option's width varies, so no counted loop
    while at < text.len() {
        let turn = scan_option(text, at, alignment, is_packsize)?;
        if turn.has_value {
            values += 1;
        }
        alignment = turn.alignment;
        at += turn.width;
    }
    Ok(values)
}

#[tactic(auto, using(luck_answer::proofs::Texts::checks), unfolding(crate::specs::Pack::check_pack))]
pub fn validate_pack_format(
    version: u32,
    is_packsize: bool,
    text: &[u8],
) -> Result<usize, CheckError>
    ensures { answer_of result ≡ check_pack version is_packsize text.now }
{
    text::read_text(version, text)?;
    Ok(scan_pack_format(text, is_packsize)?)
}
