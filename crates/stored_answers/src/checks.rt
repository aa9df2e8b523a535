// Stored answers of the checks. A record: a question, and the answer: its number in one byte, the offset in two, the two characters in
// four each, and the count in two.
ghost use Rattle.std.specs.Prelude.{◌+◌, ◌≤◌, length};

use luck_answer::answer::Answer;
use luck_linter::checks;
use stored_questions::question;
use stored_questions::question::{Answers, Question};
use stored_records::bytes;
use stored_records::records::{BadRecord, Records, Turn};

/// Answers of the checks.
#[derive(Clone, Copy, Debug, PartialEq, Eq)]
pub struct Checks;

impl Records for Checks {
    fn turn(file: &[u8], at: usize) -> Result<Turn, BadRecord> {
        question::turn::<Checks>(file, at)
    }
}

impl Answers for Checks {
    ghost WIDTH = { 13 };

    const WIDTH: usize = 13;

    fn agrees(question: &Question) -> bool {
        let Some(check) = checks::check_of(question.kind, question.captures) else {
            return false;
        };
        let given = question.ask(check, question.version);
        Answer::from(given) == answer_at(question.answer, 0)
    }
}

pub fn answer_at(stored: &[u8], at: usize) -> Answer
    requires { at + 13 ≤ length stored.now }
{
    Answer {
        number: bytes::byte_at(stored, at),
        first: bytes::word_at(stored, at + 3),
        second: bytes::word_at(stored, at + 7),
        offset: bytes::short_at(stored, at + 1),
        count: bytes::short_at(stored, at + 11),
    }
}
