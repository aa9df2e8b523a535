// The check of a format of string.format.
ghost use Rattle.std.specs.Prelude.{◌≡◌, ℕ, ◌+◌, ◌<◌, ◌≤◌, length, IfOk};
ghost use Rattle.luck_text.specs.Bytes.{byte_at};
ghost use Rattle.luck_answer.specs.Answer.{walked_of, answer_of};
ghost use Rattle.luck_format.specs.Format.{modifiers_at, get_format, scan_format, scan_width, is_conversion, flags_for};
ghost use Rattle.luck_format.specs.Format.{flags_run, takes_precision};
ghost use Rattle.luck_format.specs.Format.{after_two_digits, good_modifiers, conversion_turn, percent_turn, format_walk};
ghost use Rattle.luck_format.specs.Format.{check_format};
ghost use Rattle.luck_format.specs.Inner.{modifiers_of, two_digits, is_star, turn_of};

use luck_answer::format_pattern::{CheckError, PatternError};
use luck_text::scan;
use luck_text::scan::{Class, Digit, OneOf};
use luck_token::text;
use luck_token::version::Rules;
use luck_utf8::utf8;

// getformat: at most 20 bytes, whatever they are. The place after them.
#[tactic(auto, using(luck_text::proofs::Bytes::run_inside))]
fn get_format(text: &[u8], at: usize) -> Result<usize, PatternError>
    requires { at ≤ length text.now }
    ensures reads { modifiers_of result ≡ get_format text.now at }
    ensures inside { IfOk result (λ end. (at ≤ end) × (end ≤ length text.now)) }
{
    let count = scan::run(text, at, &OneOf(b"-+ #0123456789."));
    if 21 <= count {
        return Err(PatternError::LongSpecifier { offset: at });
    }
    Ok(at + count)
}

// The place after at most two digits. Where there are more, this is the fault.
#[tactic(auto, using(luck_text::proofs::Bytes::run_inside))]
fn two_digits(text: &[u8], at: usize, fault: PatternError) -> Result<usize, PatternError>
    requires { at ≤ length text.now }
    ensures reads { modifiers_of result ≡ two_digits text.now at fault }
    ensures inside { IfOk result (λ end. (at ≤ end) × (end ≤ length text.now)) }
{
    let count = scan::run(text, at, &Digit);
    if 2 < count {
        return Err(fault);
    }
    Ok(at + count)
}

// A width of at most two digits, and a precision behind its dot.
fn scan_width(text: &[u8], at: usize) -> Result<usize, PatternError>
    requires { at ≤ length text.now }
    ensures reads { modifiers_of result ≡ scan_width text.now at }
    ensures inside { IfOk result (λ end. (at ≤ end) × (end ≤ length text.now)) }
{
    let end = two_digits(text, at, PatternError::BadWidth { offset: at })?;
    if scan::byte_at(text, end) == b'.' {
        let precision = end + 1;
        return two_digits(
            text,
            precision,
            PatternError::BadPrecision { offset: precision },
        );
    }
    Ok(end)
}

// scanformat: at most five flags, a width and a precision.
#[tactic(auto, using(luck_text::proofs::Bytes::run_inside))]
fn scan_format(text: &[u8], at: usize) -> Result<usize, PatternError>
    requires { at ≤ length text.now }
    ensures reads { modifiers_of result ≡ scan_format text.now at }
    ensures inside { IfOk result (λ end. (at ≤ end) × (end ≤ length text.now)) }
{
    let count = scan::run(text, at, &OneOf(b"-+ #0"));
    if 6 <= count {
        let sixth = at + 5;
        return Err(PatternError::BadFlag {
            offset: sixth,
            character: u32::from(text[sixth]),
        });
    }
    scan_width(text, at + count)
}

// The text between a `%` and its conversion, as the target's getformat or scanformat reads it.
#[tactic(auto, unfolding(crate::specs::Format::modifiers_at))]
fn scan_format_modifiers(text: &[u8], at: usize, is_checked: bool) -> Result<usize, PatternError>
    requires { at ≤ length text.now }
    ensures reads { modifiers_of result ≡ modifiers_at is_checked text.now at }
    ensures inside { IfOk result (λ end. (at ≤ end) × (end ≤ length text.now)) }
{
    if is_checked {
        get_format(text, at)
    } else {
        scan_format(text, at)
    }
}

#[tactic(auto, unfolding(crate::specs::Computed::computed))]
fn is_conversion(conversion: u8, rules: Rules) -> bool
    ensures { result ≡ is_conversion rules conversion }
{
    match conversion {
        b'a' | b'A' => rules.hex_float_format,
        b'p' => rules.checked_format_modifiers,
        _ => OneOf(b"cdiouxXeEfgGqs").has(conversion),
    }
}

// The flags that a conversion takes.
#[tactic(auto, unfolding(crate::specs::Computed::computed))]
fn flags_for(conversion: u8) -> &'static [u8]
    ensures { result.now ≡ flags_for conversion }
{
    match conversion {
        b'd' | b'i' => b"-+0 ",
        b'u' => b"-0",
        b'o' | b'x' | b'X' => b"-#0",
        b'a' | b'A' | b'e' | b'E' | b'f' | b'g' | b'G' => b"-+#0 ",
        _ => b"-",
    }
}

// How many of the flags that a conversion takes stand at `at`.
fn flags_run(text: &[u8], at: usize, conversion: u8) -> usize
    ensures { result ≡ flags_run conversion text.now at }
{
    scan::run(text, at, &OneOf(flags_for(conversion)))
}

#[tactic(auto, unfolding(crate::specs::Format::takes_precision, luck_text::specs::Bytes::among))]
fn takes_precision(conversion: u8) -> bool
    ensures { result ≡ takes_precision conversion }
{
    !matches!(conversion, b'c' | b'p')
}

#[tactic(auto, using(luck_text::proofs::Bytes::run_inside), unfolding(crate::specs::Format::after_two_digits))]
fn after_two_digits(text: &[u8], at: usize) -> usize
    requires { at ≤ length text.now }
    ensures { result ≡ after_two_digits text.now at }
{
    at + scan::run(text, at, &Digit).min(2)
}

// The place after the modifiers at `at` that checkformat accepts before this conversion. A width can't start with 0.
// Compiled in place in the walk it takes registers from specifiers that are not checked: `%d` in 5.1 took 1.2 times as long.
#[inline(never)]
#[tactic(auto, using(crate::proofs::Formats::flags_inside))]
fn check_format(text: &[u8], at: usize, conversion: u8) -> usize
    requires { at ≤ length text.now }
    ensures { result ≡ good_modifiers conversion text.now at }
{
    if conversion == b'q' {
        return at;
    }
    let flags = at + flags_run(text, at, conversion);
    if scan::byte_at(text, flags) == b'0' {
        return flags;
    }
    let width = after_two_digits(text, flags);
    if !takes_precision(conversion) {
        return width;
    }
    if scan::byte_at(text, width) == b'.' {
        return after_two_digits(text, width + 1);
    }
    width
}

// The place after the specifier whose `%` stands at `at` and whose conversion is due at `end`.
fn scan_format_conversion(
    text: &[u8],
    at: usize,
    end: usize,
    rules: Rules,
) -> Result<usize, PatternError>
    requires { (at < end) × (end ≤ length text.now) }
    ensures turns { (count : ℕ) → turn_of at count result ≡ conversion_turn rules text.now at count end }
    ensures inside { IfOk result (λ after. (at < after) × (after ≤ length text.now)) }
{
    if text.len() <= end {
        return Err(PatternError::TruncatedSpecifier { offset: at });
    }
    let conversion = text[end];
    if !is_conversion(conversion, rules) {
        return Err(PatternError::UnknownSpecifier {
            offset: end,
            character: utf8::char_at(text, end).code,
        });
    }
    if rules.checked_format_modifiers {
        let good = check_format(text, at + 1, conversion);
        if good < end {
            return Err(PatternError::BadModifier {
                offset: good,
                modifier: u32::from(text[good]),
                conversion: u32::from(conversion),
            });
        }
    }
    Ok(end + 1)
}

// Whether a byte is Luau's `*`, which takes any value and no modifiers.
fn is_star(byte: u8, rules: Rules) -> bool
    ensures { result ≡ is_star rules byte }
{
    byte == b'*' && rules.star_format
}

// The place after the specifier whose `%` stands at `at` and is no `%%`.
fn scan_specifier(text: &[u8], at: usize, rules: Rules) -> Result<usize, PatternError>
    requires { (at < length text.now) × (byte_at text.now (at + 1) ≡ 37 → ⊥) }
    ensures turns { (count : ℕ) → turn_of at count result ≡ percent_turn rules text.now at count }
    ensures inside { IfOk result (λ after. (at < after) × (after ≤ length text.now)) }
{
    let next = at + 1;
    if text.len() <= next {
        return Err(PatternError::TruncatedSpecifier { offset: at });
    }
    if is_star(text[next], rules) {
        return Ok(at + 2);
    }
    let end = scan_format_modifiers(text, next, rules.checked_format_modifiers)?;
    scan_format_conversion(text, at, end, rules)
}

// The walk over a text that is UTF-8. Compiled in place in a caller it has too few registers: text without `%` took 1.7
// times as long.
#[inline(never)]
pub fn scan_format_string(text: &[u8], rules: Rules) -> Result<usize, PatternError>
    ensures { walked_of result ≡ format_walk rules text.now }
{
    let mut count = 0;
    let mut at = 0;
    // a specifier's width varies, so no counted loop
    while at < text.len() {
        if text[at] != b'%' {
            at += 1;
            continue;
        }
        // `%%` is a literal percent and takes no argument.
        if scan::byte_at(text, at + 1) == b'%' {
            at += 2;
        } else {
            at = scan_specifier(text, at, rules)?;
            count += 1;
        }
    }
    Ok(count)
}

#[tactic(auto, using(luck_answer::proofs::Texts::checks), unfolding(crate::specs::Format::check_format))]
pub fn validate_format(version: u32, text: &[u8]) -> Result<usize, CheckError>
    ensures { answer_of result ≡ check_format version text.now }
{
    let rules = text::read_text(version, text)?;
    Ok(scan_format_string(text, rules)?)
}
