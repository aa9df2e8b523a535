// Why a check refuses a text. What is accepted has a count, of specifiers, captures or values.
ghost use Rattle.std.specs.Prelude.{◌≡◌};

use luck_token::text::TextError;

// luck's PatternError. Each `offset` is a byte index into the text, each character a code point.
#[derive(Clone, Copy, Debug, PartialEq, Eq)]
pub enum PatternError {
    TruncatedSpecifier {
        offset: usize,
    },
    UnknownSpecifier {
        offset: usize,
        character: u32,
    },
    // More flags in one specifier than Lua allows.
    BadFlag {
        offset: usize,
        character: u32,
    },
    // A width longer than two digits.
    BadWidth {
        offset: usize,
    },
    // A precision longer than two digits.
    BadPrecision {
        offset: usize,
    },
    // A flag, width or precision that a conversion of 5.4 rejects.
    BadModifier {
        offset: usize,
        modifier: u32,
        conversion: u32,
    },
    // A specifier of 5.4 longer than getformat allows.
    LongSpecifier {
        offset: usize,
    },
    UnterminatedSet {
        offset: usize,
    },
    // A `[]` or `[^]` that ends the text: its `]` is a member, so nothing closes the set.
    EmptySet {
        offset: usize,
    },
    // A `%f` with no set after it.
    BadEscape {
        offset: usize,
        character: u32,
    },
    // A `)` with no open capture, or a `(` that never closes.
    UnmatchedCapture {
        offset: usize,
    },
    TooManyCaptures {
        offset: usize,
    },
    // A `%0`, or a `%n` naming a capture that has not closed.
    BadBackReference {
        offset: usize,
    },
    // An unknown option, or one that `X` can't align to.
    InvalidPackOption {
        offset: usize,
        character: u32,
    },
    // A `c` with no size, or an `X` with no option after it.
    TruncatedPackSize {
        offset: usize,
    },
    // A size outside 1 to 16.
    PackSizeOutOfLimits {
        offset: usize,
    },
    // A size whose alignment isn't a power of two under the current `!`.
    BadPackAlignment {
        offset: usize,
    },
    // An `s` or `z` in a packsize format.
    VariableLengthPackOption {
        offset: usize,
        character: u32,
    },
    // A replacement or date that ends in a single `%`.
    LonePercent {
        offset: usize,
    },
    // A replacement's `%` before something other than a digit or `%`.
    BadReplacementEscape {
        offset: usize,
    },
    // A replacement's `%n` above the pattern's count of captures.
    CaptureIndexOutOfRange {
        offset: usize,
    },
    // A date's `%` before something other than a conversion or `%`.
    BadDateSpecifier {
        offset: usize,
    },
    // A range whose left byte is greater than its right, which luck accepts.
    ReversedRange {
        offset: usize,
    },
}

// Why a text is refused: its version, or that it is not UTF-8, or the walk's first fault.
#[derive(Clone, Copy, Debug, PartialEq, Eq)]
pub enum CheckError {
    Text(TextError),
    Pattern(PatternError),
}

impl From<TextError> for CheckError {
    ghost use Rattle.luck_answer.specs.declared.format_pattern.CheckError.TheVariants as error;

    ghost from_gives = { λ text e. e ≡ error.Text text };

    fn from(text: TextError) -> Self {
        CheckError::Text(text)
    }
}

impl From<PatternError> for CheckError {
    ghost use Rattle.luck_answer.specs.declared.format_pattern.CheckError.TheVariants as error;

    ghost from_gives = { λ fault e. e ≡ error.Pattern fault };

    fn from(fault: PatternError) -> Self {
        CheckError::Pattern(fault)
    }
}
