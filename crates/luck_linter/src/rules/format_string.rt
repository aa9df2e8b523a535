// The check of a literal in a source, by the kind of its text.
ghost use Rattle.std.specs.Prelude.{◌≡◌, true};
ghost use Rattle.luck_answer.specs.Answer.{check_answer};
ghost use Rattle.luck_linter.specs.Checks.{walk_of, check_meant};
ghost use Rattle.luck_linter.specs.StringLiteral.{
  is_numeric_escape,
  has_numeric_escape,
  has_backslash,
  literal_answer,
  skipped_answer,
  unspanned,
  spanned_answer,
  span_at,
  with_span,
  check_body,
  check_short,
  check_named_literal,
  check_literal,
};
ghost use Rattle.luck_linter.specs.Inner.{is_some, is_numeric};

use crate::checks;
use crate::checks::{Check, UnknownKind};
use luck_answer::answer::Answer;
use luck_text::blocks;
use luck_text::scan::{Class, Digit};
use luck_token::span::Span;
use luck_token::version::Rules;
use luck_token::{string, text};
use luck_utf8::utf8;

// luck_literal of include/luck.h, which has flags where Rust would have an Option.
#[repr(C)]
#[derive(Clone, Copy, Debug, PartialEq, Eq)]
pub struct Literal {
    pub number: u32,
    pub first: u32,
    pub second: u32,
    // no short string, or one with an escape that could spell a byte that the check reads
    pub skipped: bool,
    pub spanned: bool,
    pub start: u32,
    pub end: u32,
    pub offset: usize,
    pub count: usize,
}

impl Literal {
    fn skipped() -> Self
        ensures { literal_answer result ≡ skipped_answer }
    {
        Literal {
            skipped: true,
            ..Literal::unspanned(Answer::accepted(0))
        }
    }

    fn unspanned(answer: Answer) -> Self
        ensures { literal_answer result ≡ unspanned (check_answer answer) }
    {
        Literal {
            number: answer.number,
            first: answer.first,
            second: answer.second,
            skipped: false,
            spanned: false,
            start: 0,
            end: 0,
            offset: answer.offset,
            count: answer.count,
        }
    }

    fn spanned(answer: Answer, span: Span) -> Self
        ensures { literal_answer result ≡ spanned_answer (check_answer answer) span }
    {
        Literal {
            spanned: true,
            start: span.start,
            end: span.end,
            ..Literal::unspanned(answer)
        }
    }
}

// Whether a backslash before this byte begins an escape that spells a byte by its number.
#[tactic(auto, unfolding(crate::specs::StringLiteral::is_numeric_escape))]
fn is_numeric_escape(byte: u8) -> bool
    ensures { result ≡ is_numeric_escape byte }
{
    Digit.has(byte) || byte == b'x' || byte == b'u'
}

// A body's backslashes: none; some, but no escape that spells a byte by its number; such an escape.
#[derive(Clone, Copy, Debug, PartialEq, Eq)]
pub enum Escapes {
    Nothing,
    Plain,
    Numeric,
}

// Escapes are rare: what stands between them is passed over by blocks, so that the steps of the loop vary.
fn escapes_in(body: &[u8]) -> Escapes
    ensures { (is_numeric result ≡ has_numeric_escape body.now) × (is_some result ≡ has_backslash body.now) }
{
    let mut found = Escapes::Nothing;
    let mut at = blocks::blocks_end(body, 0, b'\\');
    while at < body.len() {
        if body[at] != b'\\' {
            at += 1;
            continue;
        }
        found = Escapes::Plain;
        if body.len() - at == 1 {
            return found;
        }
        if is_numeric_escape(body[at + 1]) {
            return Escapes::Numeric;
        }
        at = blocks::blocks_end(body, at + 2, b'\\');
    }
    found
}

// The span of the character at an offset of the body, whose literal starts at `start`.
fn span_at(start: u32, body: &[u8], offset: usize) -> Span
    ensures { result ≡ span_at start body.now offset }
{
    let character = utf8::char_at(body, offset);
    let end = offset.saturating_add(character.width);
    Span::from_indices(offset, end).shifted(start.saturating_add(1))
}

fn walk_body(check: Check, rules: Rules, start: u32, body: &[u8]) -> Literal
    ensures { literal_answer result ≡ with_span start body.now (walk_of (check_meant check) rules body.now) }
{
    match checks::walk(check, rules, body) {
        Ok(count) => Literal::unspanned(Answer::accepted(count)),
        Err(fault) => {
            let answer = Answer::from(fault);
            Literal::spanned(answer, span_at(start, body, answer.offset))
        }
    }
}

// An escape may stand for an end of a range: where a backslash stands, ranges are not tested.
fn check_body(check: Check, rules: Rules, start: u32, body: &[u8]) -> Literal
    ensures { literal_answer result ≡ check_body (check_meant check) rules start body.now }
{
    match escapes_in(body) {
        Escapes::Nothing => walk_body(check, rules, start, body),
        Escapes::Plain => walk_body(checks::without_ranges(check), rules, start, body),
        Escapes::Numeric => Literal::skipped(),
    }
}

fn check_short(check: Check, rules: Rules, start: u32, text: &[u8]) -> Literal
    ensures { literal_answer result ≡ check_short (check_meant check) rules start text.now }
{
    match string::short_string_body(text) {
        Some(body) => check_body(check, rules, start, &text[body.start..body.end]),
        None => Literal::skipped(),
    }
}

// By the check that the kind letter names.
#[tactic(auto, using(crate::proofs::StringLiterals::named))]
fn check_named(check: Check, version: u32, start: u32, text: &[u8]) -> Literal
    ensures { literal_answer result ≡ check_named_literal (Some (check_meant check)) version start text.now }
{
    match text::read_text(version, text) {
        Ok(rules) => check_short(check, rules, start, text),
        Err(error) => Literal::unspanned(Answer::from(error)),
    }
}

// The check of a literal's text: a kind letter, for G with a count of captures, a version, and the literal's start in its source.
pub fn check_literal(
    kind: u8,
    version: u32,
    captures: Option<usize>,
    start: u32,
    text: &[u8],
) -> Literal
    ensures { literal_answer result ≡ check_literal kind version captures start text.now }
{
    match checks::check_of(kind, captures) {
        Some(check) => check_named(check, version, start, text),
        None => Literal::unspanned(Answer::from(UnknownKind)),
    }
}
