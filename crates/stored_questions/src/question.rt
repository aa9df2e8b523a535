// Questions to the checks and what the library answers. A record begins with its question: the kind letter and the version in one byte each, whether the
// count of captures is known in one and the count in four, the text's length in two, and the text. The answer stands behind it.
ghost use Rattle.std.specs.Prelude.{◌≡◌, ℕ, ◌+◌, ◌<◌, ◌≤◌, length, IfOk};
ghost use Rattle.stored_questions.specs.Questions.{Asks};
ghost use Rattle.stored_records.specs.Records.{Passes};

use luck_answer::format_pattern::CheckError;
use luck_linter::checks;
use luck_linter::checks::Check;
use luck_linter::rules::format_string;
use luck_linter::rules::format_string::Literal;
use stored_records::bytes;
use stored_records::records::{BadRecord, Turn};

#[derive(Clone, Copy, Debug)]
pub struct Question<'a> {
    pub kind: u8,
    pub version: u32,
    pub captures: Option<usize>,
    pub text: &'a [u8],
    pub answer: &'a [u8],
    /// The place of the next record.
    pub next: usize,
}

/// What answers stand behind the questions of a file.
pub trait Answers {
    ghost WIDTH: { ℕ };

    /// How many bytes an answer has.
    const WIDTH: usize;

    /// Whether the library agrees with the answer.
    fn agrees(question: &Question) -> bool
        requires { length question.now.answer.now ≡ WIDTH };
}

/// Whether the library agrees with an answer behind which more bytes may stand; they are not handed on.
pub fn agrees_in_front<A: Answers>(question: &Question) -> bool
    requires { A.WIDTH ≤ length question.now.answer.now }
{
    A::agrees(&Question {
        answer: &question.answer[..A::WIDTH],
        ..*question
    })
}

/// Replays the question that stands at a place.
pub fn turn<A: Answers>(file: &[u8], at: usize) -> Result<Turn, BadRecord>
    requires { at ≤ length file.now }
    ensures { IfOk result (Passes at (length file.now)) }
{
    let question = question_at(file, at, A::WIDTH)?;
    Ok(Turn {
        agrees: A::agrees(&question),
        next: question.next,
    })
}

/// The question of a record whose answer has `width` bytes.
pub fn question_at(file: &[u8], at: usize, width: usize) -> Result<Question<'_>, BadRecord>
    requires { at ≤ length file.now }
    ensures { IfOk result (Asks at width (length file.now)) }
{
    if file.len() - at < 9 {
        return Err(BadRecord);
    }
    let text = at + 9;
    let answer = text + bytes::short_at(file, at + 7);
    if file.len() < answer {
        return Err(BadRecord);
    }
    if file.len() - answer < width {
        return Err(BadRecord);
    }
    let next = answer + width;
    Ok(Question {
        kind: file[at],
        version: bytes::byte_at(file, at + 1),
        captures: captures_at(file, at + 2),
        text: &file[text..answer],
        answer: &file[answer..next],
        next,
    })
}

fn captures_at(file: &[u8], at: usize) -> Option<usize>
    requires { at + 4 < length file.now }
{
    if file[at] == 0 {
        return None;
    }
    Some(bytes::word_at(file, at + 1) as usize)
}

impl Question<'_> {
    /// The library's answer by a check, in a version that need not be the question's.
    pub fn ask(&self, check: Check, version: u32) -> Result<usize, CheckError> {
        checks::validate(check, version, self.text)
    }

    /// The library's answer for a literal that starts at this place of its source.
    pub fn ask_literal(&self, start: u32) -> Literal {
        format_string::check_literal(self.kind, self.version, self.captures, start, self.text)
    }
}

#[cfg(test)]
mod tests {
    use super::*;

    // Agrees with an answer of one byte, a 7.
    struct Seven;

    impl Answers for Seven {
        ghost WIDTH = { 1 };

        const WIDTH: usize = 1;

        // the index is inside since the answer has one byte, and no more
        fn agrees(question: &Question) -> bool {
            [7][question.answer.len() - 1] == question.answer[0]
        }
    }

    fn question(answer: &[u8]) -> Question<'_>
        ensures { result.answer.now ≡ answer.now }
    {
        Question {
            kind: b'P',
            version: 4,
            captures: None,
            text: b"%d+",
            answer,
            next: 0,
        }
    }

    #[test]
    fn asks_with_the_front_of_an_answer(rt: HostRuntime) {
        assert!(rt; agrees_in_front::<Seven>(&question(&[7])));
        assert!(rt; agrees_in_front::<Seven>(&question(&[7, 9])));
        assert!(rt; !agrees_in_front::<Seven>(&question(&[9, 7])));
    }
}
