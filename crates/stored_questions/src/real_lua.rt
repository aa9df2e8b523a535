// What Lua 5.1 to 5.4 do with a text. A record: a question whose version is 0, the versions that were asked in one byte, and those of them
// that take the text in another.
ghost use Rattle.std.specs.Prelude.{◌<◌};

use crate::question;
use crate::question::{Answers, Question};
use luck_linter::checks;
use stored_records::records::{BadRecord, Records, Turn};
use stored_records::versions::Versions;

/// What real Lua does.
#[derive(Clone, Copy, Debug, PartialEq, Eq)]
pub struct RealLua;

impl Records for RealLua {
    fn turn(file: &[u8], at: usize) -> Result<Turn, BadRecord> {
        question::turn::<RealLua>(file, at)
    }
}

impl Answers for RealLua {
    ghost WIDTH = { 2 };

    const WIDTH: usize = 2;

    // Whether the check of each version that was asked accepts the text where that Lua takes it, and only there.
    fn agrees(question: &Question) -> bool {
        let Some(check) = checks::check_of(question.kind, question.captures) else {
            return false;
        };
        let asked = Versions(question.answer[0]);
        let taken = Versions(question.answer[1]);
        for version in 1..5 {
            if has(asked, version) && question.ask(check, version).is_ok() != has(taken, version) {
                return false;
            }
        }
        true
    }
}

// Whether a set of versions has this one, of real Lua's 1 to 4.
fn has(versions: Versions, version: u32) -> bool
    requires { (0 < version) × (version < 5) }
{
    versions.contains(version)
}
