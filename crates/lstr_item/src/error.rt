// The errors that Lua raises.
ghost use Rattle.std.specs.Prelude.{◌≡◌};
ghost use Rattle.lstr_item.specs.Errors.{kind_of};

// By lstrlib.c's messages, in the order of their numbers, from 1 to 10.
#[derive(Clone, Copy, Debug, PartialEq, Eq)]
pub enum LuaError {
    // malformed pattern (ends with '%')
    EndsWithPercent,
    // malformed pattern (missing ']')
    MissingBracket,
    // missing '[' after '%f' in pattern
    MissingSet,
    // malformed pattern (missing arguments to '%b')
    MissingArguments,
    // invalid pattern capture
    InvalidPatternCapture,
    // unfinished capture
    UnfinishedCapture,
    // invalid capture index in the pattern
    InvalidCaptureIndex,
    // too many captures
    TooManyCaptures,
    // invalid use of '%' in replacement string
    InvalidPercent,
    // invalid capture index in replacement string
    InvalidReplacementIndex,
}

impl LuaError {
    // The number that include/luck.h gives it.
    pub fn kind(self) -> u8
        ensures { result ≡ kind_of self }
    {
        self as u8 + 1
    }
}
