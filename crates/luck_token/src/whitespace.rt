// Whitespace and line breaks.
ghost use Rattle.std.specs.Prelude.{◌≡◌};
ghost use Rattle.luck_text.specs.Bytes.{is_lua_whitespace};
ghost use Rattle.luck_token.specs.Version.{rules_of};
ghost use Rattle.luck_token.specs.Whitespace.{line_break, strip_line_break};

use crate::version;
use luck_text::scan;
use luck_text::scan::{Class, Whitespace};

pub fn is_lua_whitespace(byte: u8) -> bool
    ensures { result ≡ is_lua_whitespace byte }
{
    Whitespace.has(byte)
}

// How many bytes the line break at `at` has, 0 where there is none: callers pass over them, and so over none. Sums instead
// of branches: which of the breaks comes next can't be foreseen.
pub fn line_break(text: &[u8], at: usize, lfcr: bool) -> usize
    ensures { result ≡ line_break lfcr text.now at }
{
    if text.len() <= at {
        return 0;
    }
    let here = text[at];
    let next = scan::byte_at(text, at + 1);
    let cr = (here == b'\r') as usize;
    let lf = (here == b'\n') as usize;
    let cr_lf = cr * (next == b'\n') as usize;
    if lfcr {
        return cr + lf + cr_lf + lf * (next == b'\r') as usize;
    }
    lf + cr_lf + cr_lf
}

// The text without the line break that it starts with, and the whole text where it starts with none.
pub fn strip_line_break(text: &[u8], version: u32) -> &[u8]
    ensures { result.now ≡ strip_line_break (rules_of version).lfcr_line_break text.now }
{
    let rules = version::rules_of(version);
    let width = line_break(text, 0, rules.lfcr_line_break);
    &text[width..]
}
