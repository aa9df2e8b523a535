// The functions of `luck_token_exports`, with the same contracts, exported to C.
#![tactic(auto)]

ghost use Rattle.std.specs.Prelude.{◌≡◌, length};
ghost use Rattle.luck_text.specs.Bytes.{is_lua_whitespace};
ghost use Rattle.luck_token.specs.Literal.{short_string_body};
ghost use Rattle.luck_token.specs.Span.{span_of, shifted_by};
ghost use Rattle.luck_utf8.specs.Utf8.{ill_formed, char_at};
ghost use Rattle.luck_token.specs.Version.{rules_of};
ghost use Rattle.luck_token.specs.Whitespace.{strip_line_break};
ghost use Rattle.luck_token_exports.specs.Answers.{place_or, body_struct};

use luck_token::span::Span;
use luck_token::version::Rules;
use luck_token_exports::Body;
use luck_utf8::utf8::Char;

#[unsafe(no_mangle)]
pub extern "C" fn luck_token_rules(version: u32) -> Rules
    ensures { result ≡ rules_of version }
{
    luck_token_exports::luck_token_rules(version)
}

// The place of the first ill-formed sequence, the length where there is none.
#[unsafe(no_mangle)]
pub extern "C" fn luck_token_utf8(text: &[u8]) -> usize
    ensures { result ≡ place_or (length text.now) (ill_formed text.now) }
{
    luck_token_exports::luck_token_utf8(text)
}

#[unsafe(no_mangle)]
pub extern "C" fn luck_token_char_at(text: &[u8], at: usize) -> Char
    ensures { result ≡ char_at text.now at }
{
    luck_token_exports::luck_token_char_at(text, at)
}

#[unsafe(no_mangle)]
pub extern "C" fn luck_token_is_lua_whitespace(byte: u8) -> bool
    ensures { result ≡ is_lua_whitespace byte }
{
    luck_token_exports::luck_token_is_lua_whitespace(byte)
}

// How many bytes are left of the text without the line break that it starts with.
#[unsafe(no_mangle)]
pub extern "C" fn luck_token_strip_line_break(version: u32, text: &[u8]) -> usize
    ensures { result ≡ length (strip_line_break (rules_of version).lfcr_line_break text.now) }
{
    luck_token_exports::luck_token_strip_line_break(version, text)
}

#[unsafe(no_mangle)]
pub extern "C" fn luck_token_short_string_body(text: &[u8]) -> Body
    ensures { result ≡ body_struct (short_string_body text.now) }
{
    luck_token_exports::luck_token_short_string_body(text)
}

// The span of two indices, moved `offset` bytes later.
#[unsafe(no_mangle)]
pub extern "C" fn luck_token_span(start: usize, end: usize, offset: u32) -> Span
    ensures { result ≡ shifted_by (span_of start end) offset }
{
    luck_token_exports::luck_token_span(start, end, offset)
}
