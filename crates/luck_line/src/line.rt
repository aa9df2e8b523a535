// One line: kind, version digit, two columns of captures, a space, the body.
ghost use Rattle.std.specs.Prelude.{◌≡◌};
ghost use Rattle.luck_answer.specs.Answer.{check_answer};
ghost use Rattle.luck_linter.specs.Checks.{check_named};
ghost use Rattle.luck_line.specs.Line.{decimal_digit as digit_of, two_digits, capture_columns, check_with, body_answer, line_answer};
ghost use Rattle.luck_line.specs.Inner.{line_refused};

use luck_answer::answer::Answer;
use luck_linter::checks;
use luck_linter::checks::{Check, UnknownKind};
use luck_text::scan::{Class, Digit};

// The most bytes of a line that is checked, and the bytes before its body.
pub const LONGEST: usize = 4005;

const HEAD: usize = 5;

// Why a line is refused before its body is read.
#[derive(Clone, Copy, Debug, PartialEq, Eq)]
pub enum LineError {
    // more bytes than `LONGEST`
    TooLong,
    // its head does not fit
    NoHead,
}

impl From<LineError> for Answer {
    ghost from_gives = { λ error answer. check_answer answer ≡ line_refused error };

    fn from(error: LineError) -> Self {
        match error {
            LineError::TooLong => Answer::refused(31, 0),
            LineError::NoHead => Answer::from(UnknownKind),
        }
    }
}

fn digit(byte: u8) -> u32
    ensures { result ≡ digit_of byte }
{
    byte.saturating_sub(b'0') as u32
}

// A count of 10 to 32.
fn two_digits(tens: u8, units: u8) -> Option<Option<usize>>
    ensures { result ≡ two_digits tens units }
{
    if Digit.has(tens) && Digit.has(units) {
        let count = digit(tens) * 10 + digit(units);
        if count < 10 {
            return None;
        }
        if 32 < count {
            return None;
        }
        return Some(Some(count as usize));
    }
    None
}

// The captures of a replacement in their two columns, where they fit: blanks, or a count.
fn read_columns(tens: u8, units: u8) -> Option<Option<usize>>
    ensures { result ≡ capture_columns tens units }
{
    if tens == b' ' {
        if units == b' ' {
            return Some(None);
        }
        if Digit.has(units) {
            return Some(Some(digit(units) as usize));
        }
        return None;
    }
    two_digits(tens, units)
}

// The check that a head names by its kind and its columns, which are blank but for G.
#[tactic(auto, using(crate::proofs::Heads::kinds), unfolding(crate::specs::Line::check_with))]
fn check_with(kind: u8, tens: u8, units: u8) -> Option<Check>
    ensures { check_named result ≡ check_with kind (capture_columns tens units) }
{
    let captures = read_columns(tens, units)?;
    match captures {
        Some(_) => {
            if kind == b'G' {
                return checks::check_of(kind, captures);
            }
            None
        }
        None => checks::check_of(kind, captures),
    }
}

#[tactic(auto, unfolding(crate::specs::Line::body_answer))]
fn check_body(named: Option<Check>, version: u32, body: &[u8]) -> Answer
    ensures { check_answer result ≡ body_answer (check_named named) version body.now }
{
    match named {
        Some(check) => Answer::from(checks::validate(check, version, body)),
        None => Answer::from(LineError::NoHead),
    }
}

// What is answered for a line, its newline not counted.
pub fn check_line(line: &[u8]) -> Answer
    ensures { check_answer result ≡ line_answer line.now }
{
    if LONGEST < line.len() {
        return Answer::from(LineError::TooLong);
    }
    if line.len() < HEAD {
        return Answer::from(LineError::NoHead);
    }
    if Digit.has(line[1]) && line[4] == b' ' {
        let named = check_with(line[0], line[2], line[3]);
        return check_body(named, digit(line[1]), &line[HEAD..]);
    }
    Answer::from(LineError::NoHead)
}
