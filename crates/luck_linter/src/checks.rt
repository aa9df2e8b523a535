// The checks of a body, and the kind letters that name them.
ghost use Rattle.std.specs.Prelude.{◌≡◌};
ghost use Rattle.luck_answer.specs.Answer.{check_answer, refused, walked_of, answer_of};
ghost use Rattle.luck_linter.specs.Checks.{check_of, without_ranges, walk_of, answer, check_meant, check_named};

use luck_answer::answer::Answer;
use luck_answer::format_pattern::{CheckError, PatternError};
use luck_format::{date, format};
use luck_pack::pack;
use luck_pattern::pattern;
use luck_replacement::replacement;
use luck_token::text;
use luck_token::version::Rules;

#[derive(Clone, Copy, Debug, PartialEq, Eq)]
pub enum Check {
    Format,
    // whether its ranges are tested
    Pattern(bool),
    Date,
    Replacement(Option<usize>),
    Pack,
    Packsize,
}

// A byte that is no kind letter, or a line whose head does not fit.
#[derive(Clone, Copy, Debug, PartialEq, Eq)]
pub struct UnknownKind;

impl From<UnknownKind> for Answer {
    ghost from_gives = { λ _ answer. check_answer answer ≡ refused 30 0 };

    fn from(_unknown: UnknownKind) -> Self {
        Answer::refused(30, 0)
    }
}

// The check that a kind letter names.
pub fn check_of(kind: u8, captures: Option<usize>) -> Option<Check>
    ensures { check_named result ≡ check_of kind captures }
{
    match kind {
        b'F' => Some(Check::Format),
        b'P' => Some(Check::Pattern(true)),
        b'K' => Some(Check::Pack),
        b'S' => Some(Check::Packsize),
        b'G' => Some(Check::Replacement(captures)),
        b'D' => Some(Check::Date),
        _ => None,
    }
}

// The check of a pattern without its test of ranges; every other check as it is.
pub fn without_ranges(check: Check) -> Check
    ensures { check_meant result ≡ without_ranges (check_meant check) }
{
    match check {
        Check::Pattern(_) => Check::Pattern(false),
        _ => check,
    }
}

// The check of a body that is UTF-8.
#[tactic(auto, unfolding(crate::specs::Checks::walk_of))]
pub fn walk(check: Check, rules: Rules, body: &[u8]) -> Result<usize, PatternError>
    ensures { walked_of result ≡ walk_of (check_meant check) rules body.now }
{
    match check {
        Check::Format => format::scan_format_string(body, rules),
        Check::Pattern(ranges) => pattern::scan_pattern(body, ranges),
        Check::Date => date::scan_date(
            body,
            rules.strict_gsub_replacement,
            rules.date_format_options,
        ),
        Check::Replacement(captures) => {
            replacement::scan_replacement(body, captures, rules.strict_gsub_replacement)
        }
        Check::Pack => pack::scan_pack_format(body, false),
        Check::Packsize => pack::scan_pack_format(body, true),
    }
}

// The check of any body under any version.
#[tactic(auto, using(luck_answer::proofs::Texts::checks, crate::proofs::Checked::whole_check))]
pub fn validate(check: Check, version: u32, body: &[u8]) -> Result<usize, CheckError>
    ensures { answer_of result ≡ answer (check_meant check) version body.now }
{
    let rules = text::read_text(version, body)?;
    Ok(walk(check, rules, body)?)
}
