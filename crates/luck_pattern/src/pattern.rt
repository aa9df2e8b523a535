// The check of a pattern.
ghost use Rattle.std.specs.Prelude.{◌≡◌, ◌<◌, ◌≤◌, length};
ghost use Rattle.luck_answer.specs.Answer.{walked_of, answer_of};
ghost use Rattle.luck_pattern.specs.Reading.{first_member};
ghost use Rattle.luck_pattern.specs.Elements.{first_reversed};
ghost use Rattle.luck_pattern.specs.Pattern.{closed_as, set_read, escape_read, pattern_walk, check_pattern};
ghost use Rattle.luck_pattern.specs.Inner.{read_of, ScanWithin, flags};

use crate::captures::Captures;
use luck_answer::format_pattern::{CheckError, PatternError};
use luck_token::text;

// The place of a set's first member, after `[` or `[^`.
#[tactic(auto, using(crate::proofs::Patterns::firsts))]
fn first_member(text: &[u8], start: usize) -> usize
    requires { start < length text.now }
    ensures { (result ≡ first_member text.now start) × (start < result) × (result ≤ length text.now) }
{
    let next = start + 1;
    if next < text.len() && text[next] == b'^' {
        return next + 1;
    }
    next
}

// A set from its first member to its closing `]` at `end`: it is passed over, or its first reversed range is its fault. The elements are
// read as `matchbracketclass` reads them, so that a range may end in a `%`, and the byte after it begins the next element.
#[tactic(auto, using(crate::proofs::Elements::elements_read), unfolding(crate::specs::Pattern::closed_as))]
fn scan_ranges(text: &[u8], first: usize, end: usize) -> Result<usize, PatternError>
    requires { (first ≤ end) × (end < length text.now) }
    ensures { (read_of result ≡ closed_as end (first_reversed text.now end first)) × ScanWithin result first (length text.now) }
{
    let mut at = first;
    // An element has one to three bytes, a range three.
    while 2 < end - at {
        let left = text[at];
        if left == b'%' {
            at += 2;
        } else if text[at + 1] != b'-' {
            at += 1;
        } else if text[at + 2] < left {
            return Err(PatternError::ReversedRange { offset: at });
        } else {
            at += 3;
        }
    }
    Ok(end + 1)
}

// The set whose `[` stands at `start`, with or without the test of its ranges. `classEnd` takes the first member before it looks
// for a `]`.
#[tactic(auto, using(crate::proofs::Patterns::members_read))]
fn scan_set(text: &[u8], start: usize, ranges: bool) -> Result<usize, PatternError>
    requires { start < length text.now }
    ensures { (read_of result ≡ set_read ranges text.now start) × ScanWithin result start (length text.now) }
{
    let first = first_member(text, start);
    if text.len() - first == 1 && text[first] == b']' {
        return Err(PatternError::EmptySet { offset: start });
    }
    let mut at = first;
    // Without a hyphen there is no range.
    let mut hyphen = false;
    // A member has one or two bytes.
    let after = 'members: loop {
        if text.len() <= at {
            return Err(PatternError::UnterminatedSet { offset: start });
        }
        match text[at] {
            b']' if first < at => break 'members at + 1,
            b'%' if text.len() - at == 1 => {
                return Err(PatternError::TruncatedSpecifier { offset: at });
            }
            b'%' => at += 2,
            b'-' => {
                hyphen = true;
                at += 1;
            }
            _ => at += 1,
        }
    };
    if ranges && hyphen {
        return scan_ranges(text, first, after - 1);
    }
    Ok(after)
}

// The escape whose `%` stands at `start`, after these captures.
#[tactic(auto, using(crate::proofs::Patterns::escapes))]
fn scan_escape(
    text: &[u8],
    start: usize,
    captures: Captures,
    ranges: bool,
) -> Result<usize, PatternError>
    requires { start < length text.now }
    ensures { (read_of result ≡ escape_read ranges text.now start (flags captures)) × ScanWithin result start (length text.now) }
{
    if text.len() - start == 1 {
        return Err(PatternError::TruncatedSpecifier { offset: start });
    }
    let escape_at = start + 1;
    let escape = text[escape_at];
    let next = start + 2;
    match escape {
        // `check_capture` rejects `%0`, an unseen capture, and one still open.
        b'0'..=b'9' => {
            if captures.is_closed((escape - b'0') as u32) {
                Ok(next)
            } else {
                Err(PatternError::BadBackReference { offset: escape_at })
            }
        }
        // `%bxy` matches a run balanced between `x` and `y`.
        b'b' => {
            if text.len() - next < 2 {
                Err(PatternError::TruncatedSpecifier { offset: start })
            } else {
                Ok(next + 2)
            }
        }
        // A `%f` frontier needs a set after it.
        b'f' => {
            if next < text.len() && text[next] == b'[' {
                return scan_set(text, next, ranges);
            }
            Err(PatternError::BadEscape {
                offset: start,
                character: b'f' as u32,
            })
        }
        // A class or a literal.
        _ => Ok(next),
    }
}

// The walk over a text that is UTF-8, with or without the test of ranges.
#[tactic(auto, using(crate::proofs::Patterns::turns), unfolding(crate::specs::Pattern::pattern_walk))]
pub fn scan_pattern(text: &[u8], ranges: bool) -> Result<usize, PatternError>
    ensures { walked_of result ≡ pattern_walk ranges text.now }
{
    let mut captures = Captures::none();
    // An item may be wider than a byte.
    let mut at = 0;
    while at < text.len() {
        match text[at] {
            b'%' => at = scan_escape(text, at, captures, ranges)?,
            b'[' => at = scan_set(text, at, ranges)?,
            b'(' => {
                captures = captures
                    .opened()
                    .ok_or(PatternError::TooManyCaptures { offset: at })?;
                at += 1;
            }
            b')' => {
                captures = captures
                    .latest_closed()
                    .ok_or(PatternError::UnmatchedCapture { offset: at })?;
                at += 1;
            }
            // Anything else is a single, so a `*` with nothing to repeat is a literal `*`.
            _ => at += 1,
        }
    }
    if captures.none_open() {
        return Ok(captures.count());
    }
    Err(PatternError::UnmatchedCapture { offset: text.len() })
}

#[tactic(auto, using(luck_answer::proofs::Texts::checks), unfolding(crate::specs::Pattern::check_pattern, crate::specs::Pattern::check_pattern_as))]
pub fn validate_lua_pattern(version: u32, text: &[u8]) -> Result<usize, CheckError>
    ensures { answer_of result ≡ check_pattern version text.now }
{
    text::read_text(version, text)?;
    Ok(scan_pattern(text, true)?)
}
