// Stored answers of the check of a literal. A record: a question, the literal's start in four bytes, whether it was skipped in one, an answer
// as the checks have it, whether there is a span in one, and its start and end in four each.
ghost use Rattle.std.specs.Prelude.{◌+◌, ◌≤◌, length};

use crate::checks;
use luck_linter::rules::format_string::Literal;
use stored_questions::question;
use stored_questions::question::{Answers, Question};
use stored_records::bytes;
use stored_records::records::{BadRecord, Records, Turn};

/// Answers of the check of a literal.
#[derive(Clone, Copy, Debug, PartialEq, Eq)]
pub struct LiteralChecks;

impl Records for LiteralChecks {
    fn turn(file: &[u8], at: usize) -> Result<Turn, BadRecord> {
        question::turn::<LiteralChecks>(file, at)
    }
}

impl Answers for LiteralChecks {
    ghost WIDTH = { 27 };

    const WIDTH: usize = 27;

    fn agrees(question: &Question) -> bool {
        let start = bytes::word_at(question.answer, 0);
        question.ask_literal(start) == answer_at(question.answer, 4)
    }
}

// A skipped literal has an answer of zeros, and one without a span a span of zeros.
fn answer_at(stored: &[u8], at: usize) -> Literal
    requires { at + 23 ≤ length stored.now }
{
    let answer = checks::answer_at(stored, at + 1);
    Literal {
        number: answer.number,
        first: answer.first,
        second: answer.second,
        skipped: stored[at] != 0,
        spanned: stored[at + 14] != 0,
        start: bytes::word_at(stored, at + 15),
        end: bytes::word_at(stored, at + 19),
        offset: answer.offset,
        count: answer.count,
    }
}
