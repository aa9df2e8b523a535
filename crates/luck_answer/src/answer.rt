// What a check answers in the numbers of the table of refusals, which stands here alone.
ghost use Rattle.std.specs.Prelude.{◌≡◌};
ghost use Rattle.luck_answer.specs.Answer.{check_answer, accepted, refused, refused_with, refused_both, refusal, walked_of, answer_of, text_refused};

use crate::format_pattern::{CheckError, PatternError};
use luck_token::text::TextError;

// luck_answer of include/luck.h.
#[repr(C)]
#[derive(Clone, Copy, Debug, PartialEq, Eq)]
pub struct Answer {
    pub number: u32,
    pub first: u32,
    pub second: u32,
    pub offset: usize,
    pub count: usize,
}

impl Answer {
    pub fn accepted(count: usize) -> Self
        ensures { check_answer result ≡ accepted count }
    {
        Answer {
            number: 0,
            first: 0,
            second: 0,
            offset: 0,
            count,
        }
    }

    pub fn refused(number: u32, offset: usize) -> Self
        ensures { check_answer result ≡ refused number offset }
    {
        Answer::refused_both(number, offset, 0, 0)
    }

    fn refused_with(number: u32, offset: usize, character: u32) -> Self
        ensures { check_answer result ≡ refused_with number offset character }
    {
        Answer::refused_both(number, offset, character, 0)
    }

    fn refused_both(number: u32, offset: usize, first: u32, second: u32) -> Self
        ensures { check_answer result ≡ refused_both number offset first second }
    {
        Answer {
            number,
            first,
            second,
            offset,
            count: 0,
        }
    }
}

// The faults by their numbers.
impl From<PatternError> for Answer {
    ghost from_gives = { λ fault answer. check_answer answer ≡ refusal fault };

    fn from(fault: PatternError) -> Self {
        match fault {
            PatternError::TruncatedSpecifier { offset } => Answer::refused(1, offset),
            PatternError::UnknownSpecifier { offset, character } => Answer::refused_with(
                2, offset, character,
            ),
            PatternError::BadFlag { offset, character } => Answer::refused_with(
                3, offset, character,
            ),
            PatternError::BadWidth { offset } => Answer::refused(4, offset),
            PatternError::BadPrecision { offset } => Answer::refused(5, offset),
            PatternError::BadModifier {
                offset,
                modifier,
                conversion,
            } => Answer::refused_both(6, offset, modifier, conversion),
            PatternError::LongSpecifier { offset } => Answer::refused(7, offset),
            PatternError::UnterminatedSet { offset } => Answer::refused(8, offset),
            PatternError::EmptySet { offset } => Answer::refused(9, offset),
            PatternError::BadEscape { offset, character } => Answer::refused_with(
                10, offset, character,
            ),
            PatternError::UnmatchedCapture { offset } => Answer::refused(11, offset),
            PatternError::TooManyCaptures { offset } => Answer::refused(12, offset),
            PatternError::BadBackReference { offset } => Answer::refused(13, offset),
            PatternError::InvalidPackOption { offset, character } => {
                Answer::refused_with(14, offset, character)
            }
            PatternError::TruncatedPackSize { offset } => Answer::refused(15, offset),
            PatternError::PackSizeOutOfLimits { offset } => Answer::refused(16, offset),
            PatternError::BadPackAlignment { offset } => Answer::refused(17, offset),
            PatternError::VariableLengthPackOption { offset, character } => {
                Answer::refused_with(18, offset, character)
            }
            PatternError::LonePercent { offset } => Answer::refused(19, offset),
            PatternError::BadReplacementEscape { offset } => Answer::refused(20, offset),
            PatternError::CaptureIndexOutOfRange { offset } => Answer::refused(21, offset),
            PatternError::BadDateSpecifier { offset } => Answer::refused(22, offset),
            PatternError::ReversedRange { offset } => Answer::refused(39, offset),
        }
    }
}

impl From<TextError> for Answer {
    ghost from_gives = { λ error answer. check_answer answer ≡ text_refused error };

    fn from(error: TextError) -> Self {
        match error {
            TextError::NotUtf8(place) => Answer::refused(23, place),
            TextError::UnknownVersion => Answer::refused(25, 0),
        }
    }
}

// What the walk over a text finds.
impl From<Result<usize, PatternError>> for Answer {
    ghost from_gives = { λ walked answer. check_answer answer ≡ walked_of walked };

    fn from(walked: Result<usize, PatternError>) -> Self {
        match walked {
            Ok(found) => Answer::accepted(found),
            Err(fault) => Answer::from(fault),
        }
    }
}

// What a check answers.
impl From<Result<usize, CheckError>> for Answer {
    ghost from_gives = { λ checked answer. check_answer answer ≡ answer_of checked };

    fn from(checked: Result<usize, CheckError>) -> Self {
        match checked {
            Ok(count) => Answer::accepted(count),
            Err(CheckError::Text(error)) => Answer::from(error),
            Err(CheckError::Pattern(fault)) => Answer::from(fault),
        }
    }
}
