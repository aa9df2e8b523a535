// The check of a format of os.date.
ghost use Rattle.std.specs.Prelude.{◌≡◌, ◌+◌, ◌<◌, ◌≤◌, ◌&&◌, ◌||◌, length, IfSome, unwrap_or};
ghost use Rattle.luck_text.specs.Bytes.{byte_at, among};
ghost use Rattle.luck_answer.specs.Answer.{walked_of, answer_of};
ghost use Rattle.luck_format.specs.Date.{everywhere, with_options, second_bytes, is_pair, conversion_width, is_table};
ghost use Rattle.luck_format.specs.Date.{conversions_walk, date_walk, check_date};

use luck_answer::format_pattern::{CheckError, PatternError};
use luck_text::scan;
use luck_text::scan::{Class, OneOf};
use luck_token::text;

// Whether this byte may follow the first of a conversion of two letters. Each set is known where it is searched: with the
// sets' choice apart from the search `%Ex` took 1.3 times as long.
#[tactic(auto, unfolding(crate::specs::Computed::computed))]
fn is_second(first: u8, second: u8) -> bool
    ensures { result ≡ among second (second_bytes first) }
{
    match first {
        b'E' => OneOf(b"cCxXyY").has(second),
        b'O' => OneOf(b"deHImMSuUVwWy").has(second),
        b'#' => OneOf(b"cxdHIjmMpSUwWyY").has(second),
        _ => false,
    }
}

// Whether a byte is the first of a conversion of two letters.
#[tactic(auto, unfolding(crate::specs::Date::is_pair))]
fn is_first(byte: u8, has_options: bool) -> bool
    ensures { result ≡ (has_options && is_pair byte) }
{
    has_options && OneOf(b"EO#").has(byte)
}

// Whether a byte is a conversion of one letter.
fn is_single(byte: u8, has_options: bool) -> bool
    ensures { result ≡ (among byte everywhere || (has_options && among byte with_options)) }
{
    OneOf(b"aAbBcdHIjmMpSUwWxXyYzZ%").has(byte) || has_options && OneOf(b"CDeFgGhnrRtTuV").has(byte)
}

// How many bytes the conversion has whose `%` stands at `at`, if it is one.
fn conversion_width(text: &[u8], at: usize, has_options: bool) -> Option<usize>
    requires { at + 1 < length text.now }
    ensures reads { unwrap_or result 0 ≡ conversion_width has_options text.now at }
    ensures inside { IfSome result (λ width. (0 < width) × (at + width ≤ length text.now)) }
{
    let byte = text[at + 1];
    if is_first(byte, has_options) {
        return is_second(byte, scan::byte_at(text, at + 2)).then_some(3);
    }
    is_single(byte, has_options).then_some(2)
}

// `*t` or `!*t`: a table.
#[tactic(auto, unfolding(crate::specs::Computed::computed))]
fn is_table(text: &[u8]) -> bool
    ensures { result ≡ is_table text.now }
{
    matches!(text, [b'*', b't'] | [b'!', b'*', b't'])
}

// The walk over the conversions.
fn scan_conversions(text: &[u8], has_options: bool) -> Result<usize, PatternError>
    ensures { walked_of result ≡ conversions_walk has_options text.now }
{
    let mut at = 0;
    // a conversion's width varies, so no counted loop
    while at < text.len() {
        if text[at] != b'%' {
            at += 1;
            continue;
        }
        if text.len() - at == 1 {
            if has_options {
                return Err(PatternError::LonePercent { offset: at });
            }
            return Ok(0);
        }
        match conversion_width(text, at, has_options) {
            Some(width) => at += width,
            None => return Err(PatternError::BadDateSpecifier { offset: at + 1 }),
        }
    }
    Ok(0)
}

// The check of a text that is UTF-8. 5.1 passes it to strftime as it is.
#[tactic(auto, unfolding(crate::specs::Date::date_walk, luck_text::specs::Computed::computed))]
pub fn scan_date(text: &[u8], is_checked: bool, has_options: bool) -> Result<usize, PatternError>
    ensures { walked_of result ≡ date_walk is_checked has_options text.now }
{
    if !is_checked || is_table(text) {
        return Ok(0);
    }
    scan_conversions(text, has_options)
}

#[tactic(auto, using(luck_answer::proofs::Texts::checks), unfolding(crate::specs::Date::check_date))]
pub fn validate_os_date(version: u32, text: &[u8]) -> Result<usize, CheckError>
    ensures { answer_of result ≡ check_date version text.now }
{
    let rules = text::read_text(version, text)?;
    Ok(scan_date(
        text,
        rules.strict_gsub_replacement,
        rules.date_format_options,
    )?)
}
