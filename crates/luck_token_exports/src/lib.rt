// What luck_token has in common with luck's Rust, and the UTF-8 test, as functions that `luck_token_exports_c` exports to C, so that the two can be
// compared in one process.
// The decoding is a function of the library for hosts.
#![tactic(auto)]

ghost use Rattle.std.specs.Prelude.{◌≡◌, length};
ghost use Rattle.luck_text.specs.Bytes.{is_lua_whitespace};
ghost use Rattle.luck_token.specs.Literal.{short_string_body};
ghost use Rattle.luck_token.specs.Span.{span_of, shifted_by};
ghost use Rattle.luck_utf8.specs.Utf8.{ill_formed, char_at};
ghost use Rattle.luck_token.specs.Version.{rules_of};
ghost use Rattle.luck_token.specs.Whitespace.{strip_line_break};
ghost use Rattle.luck_token_exports.specs.Answers.{place_or, body_struct};

use luck_token::span::Span;
use luck_token::version::Rules;
use luck_token::{string, version, whitespace};
use luck_utf8::utf8;
use luck_utf8::utf8::Char;

pub fn luck_token_rules(version: u32) -> Rules
    ensures { result ≡ rules_of version }
{
    version::rules_of(version)
}

// The place of the first ill-formed sequence, the length where there is none.
pub fn luck_token_utf8(text: &[u8]) -> usize
    ensures { result ≡ place_or (length text.now) (ill_formed text.now) }
{
    match utf8::validate(text) {
        Ok(()) => text.len(),
        Err(ill_formed) => ill_formed.at,
    }
}

pub fn luck_token_char_at(text: &[u8], at: usize) -> Char
    ensures { result ≡ char_at text.now at }
{
    utf8::char_at(text, at)
}

pub fn luck_token_is_lua_whitespace(byte: u8) -> bool
    ensures { result ≡ is_lua_whitespace byte }
{
    whitespace::is_lua_whitespace(byte)
}

// How many bytes are left of the text without the line break that it starts with.
pub fn luck_token_strip_line_break(version: u32, text: &[u8]) -> usize
    ensures { result ≡ length (strip_line_break (rules_of version).lfcr_line_break text.now) }
{
    let rest = whitespace::strip_line_break(text, version);
    rest.len()
}

// Where the text between a quoted literal's quotes stands; zeros where the text is no such literal.
#[repr(C)]
#[derive(Clone, Copy)]
pub struct Body {
    pub is_short: bool,
    pub start: usize,
    pub end: usize,
}

pub fn luck_token_short_string_body(text: &[u8]) -> Body
    ensures { result ≡ body_struct (short_string_body text.now) }
{
    match string::short_string_body(text) {
        Some(body) => Body {
            is_short: true,
            start: body.start,
            end: body.end,
        },
        None => Body {
            is_short: false,
            start: 0,
            end: 0,
        },
    }
}

// The span of two indices, moved `offset` bytes later.
pub fn luck_token_span(start: usize, end: usize, offset: u32) -> Span
    ensures { result ≡ shifted_by (span_of start end) offset }
{
    Span::from_indices(start, end).shifted(offset)
}
