// The library for hosts, by the names and structs of include/luck.h. A function takes any bytes and any numbers, keeps no state, and
// writes nothing but the output that decoding and the trial are lent. `luck_c` exports the functions to C.
#![tactic(auto)]

ghost use Rattle.std.specs.Prelude.{◌≡◌, true, false, length};
ghost use Rattle.luck_token.specs.Decode.{decode_string, decoding_of, output_of};
ghost use Rattle.luck_answer.specs.Answer.{check_answer};
ghost use Rattle.luck_format.specs.Date.{check_date};
ghost use Rattle.luck_format.specs.Format.{check_format};
ghost use Rattle.luck_pack.specs.Pack.{check_pack};
ghost use Rattle.luck_pattern.specs.Pattern.{check_pattern};
ghost use Rattle.luck_replacement.specs.Replacement.{check_replacement};
ghost use Rattle.luck_linter.specs.StringLiteral.{literal_answer, check_literal};
ghost use Rattle.lstr_gsub.specs.Gsub.{report, report_of, output_after, gsub};
ghost use Rattle.luck_structs.specs.Answers.{decoded_answer, count_if};

use lstr_gsub::gsub;
use lstr_gsub::gsub::Trial;
use luck_answer::answer::Answer;
use luck_format::{date, format};
use luck_linter::rules::format_string;
use luck_linter::rules::format_string::Literal;
use luck_pack::pack;
use luck_pattern::pattern;
use luck_replacement::replacement;
use luck_structs::decoded::Decoded;
use luck_token::string;

// Accepted with how many arguments the specifiers take.
pub fn luck_check_format(version: u32, body: &[u8]) -> Answer
    ensures { check_answer result ≡ check_format version body.now }
{
    Answer::from(format::validate_format(version, body))
}

// Accepted with how many captures the pattern has.
pub fn luck_check_pattern(version: u32, body: &[u8]) -> Answer
    ensures { check_answer result ≡ check_pattern version body.now }
{
    Answer::from(pattern::validate_lua_pattern(version, body))
}

// Accepted with how many values the format packs.
pub fn luck_check_pack(version: u32, body: &[u8]) -> Answer
    ensures { check_answer result ≡ check_pack version false body.now }
{
    Answer::from(pack::validate_pack_format(version, false, body))
}

// The same, without the options whose size is not known beforehand.
pub fn luck_check_packsize(version: u32, body: &[u8]) -> Answer
    ensures { check_answer result ≡ check_pack version true body.now }
{
    Answer::from(pack::validate_pack_format(version, true, body))
}

// Accepted with 0.
pub fn luck_check_date(version: u32, body: &[u8]) -> Answer
    ensures { check_answer result ≡ check_date version body.now }
{
    Answer::from(date::validate_os_date(version, body))
}

// The pattern's count of captures, where it is known.
fn count_if(known: bool, captures: usize) -> Option<usize>
    ensures { result ≡ count_if known captures }
{
    known.then_some(captures)
}

// Accepted with 0. Without a known count of captures no digit is too large.
pub fn luck_check_replacement(version: u32, known: bool, captures: usize, body: &[u8]) -> Answer
    ensures { check_answer result ≡ check_replacement version (count_if known captures) body.now }
{
    let count = count_if(known, captures);
    Answer::from(replacement::validate_gsub_replacement(version, count, body))
}

// A literal with its quotes, checked as a text of the kind F, P, K, S, G or D, with the place where it starts in its source.
pub fn luck_check_literal(
    kind: u8,
    version: u32,
    known: bool,
    captures: usize,
    start: u32,
    text: &[u8],
) -> Literal
    ensures { literal_answer result ≡ check_literal kind version (count_if known captures) start text.now }
{
    let count = count_if(known, captures);
    format_string::check_literal(kind, version, count, start, text)
}

// What a literal stands for, written to the front of the output; a refusal leaves the output as it was.
pub fn luck_decode_string(version: u32, text: &[u8], output: &mut [u8]) -> Decoded
    ensures answer { decoded_answer result ≡ decoding_of (decode_string version text.now (length output.old)) }
    ensures output { output.new ≡ output_of (decode_string version text.now (length output.old)) output.old }
{
    Decoded::from(string::decode_string(version, text, output))
}

// gsub of a pattern and a replacement on a subject, within a budget of steps.
pub fn luck_gsub_trial(
    version: u32,
    pattern: &[u8],
    replacement: &[u8],
    subject: &[u8],
    budget: u32,
    output: &mut [u8],
) -> Trial
    ensures answer { report_of result ≡ report (gsub version pattern.now replacement.now subject.now budget (length output.old)) }
    ensures output { output.new ≡ output_after output.old (gsub version pattern.now replacement.now subject.now budget (length output.old)) }
{
    gsub::gsub(version, pattern, replacement, subject, budget, output)
}
