// What one byte of the subject is tested for: a byte, any byte, a class or a set.
ghost use Rattle.std.specs.Prelude.{◌≡◌, ℕ, Bool, ◌-◌, ◌<◌, ◌≤◌, length};
ghost use Rattle.luck_pattern.specs.Elements.{elements_of};
ghost use Rattle.luck_pattern.specs.Items.{Single, set_of};
ghost use Rattle.lstr_item.specs.Single.{is_any_of, in_set, fits};
ghost use Rattle.lstr_item.specs.Match.{is_frontier, fits_at, reach};
ghost use Rattle.lstr_class.specs.Inner.{class_in};
ghost use Rattle.lstr_item.specs.Inner.{SingleIn, single_of, reach_of, ReachIn};

use crate::state::MatchState;
use lstr_class::{class, subject};
use luck_text::scan;

// Whether the byte is among the elements from `from` up to the closing `]` at `closing`.
fn is_any_of(state: &MatchState, from: usize, closing: usize, byte: u8) -> bool
    requires { closing < length state.now.pattern.now }
    ensures { result ≡ is_any_of (class_in state.now.classes.now) (elements_of state.now.pattern.now closing from) byte }
{
    let pattern = state.pattern;
    let classes = state.classes;
    let mut at = from;
    // an element has one byte, two from `%` on, or three: no counted index
    while at < closing {
        let element = pattern[at];
        let next = at + 1;
        if element == b'%' {
            if class::match_class(classes, pattern[next], byte) {
                return true;
            }
            at += 2;
        } else if 2 < closing - at && pattern[next] == b'-' {
            if element <= byte && byte <= pattern[at + 2] {
                return true;
            }
            at += 3;
        } else {
            if element == byte {
                return true;
            }
            at = next;
        }
    }
    false
}

// matchbracketclass: whether the byte is in the set from its `[` at `opening` to its `]` at `closing`.
pub fn in_set(state: &MatchState, opening: usize, closing: usize, byte: u8) -> bool
    requires { (opening < closing) × (closing < length state.now.pattern.now) }
    ensures { result ≡ in_set (class_in state.now.classes.now) (set_of state.now.pattern.now opening closing) byte }
{
    let next = opening + 1;
    if state.pattern[next] == b'^' {
        return !is_any_of(state, opening + 2, closing, byte);
    }
    is_any_of(state, next, closing, byte)
}

// singlematch: whether the single from `at` up to `suffix` fits the subject's byte at `place`.
pub fn fits(state: &MatchState, at: usize, suffix: usize, place: usize) -> bool
    requires { SingleIn state.now.pattern.now at suffix }
    ensures { result ≡ fits_at (class_in state.now.classes.now) state.now.subject.now (single_of state.now.pattern.now at suffix) place }
{
    if place < state.subject.len() {
        let byte = state.subject[place];
        let first = state.pattern[at];
        return match first {
            b'.' => true,
            b'%' => class::match_class(state.classes, state.pattern[at + 1], byte),
            b'[' => in_set(state, at, suffix - 1, byte),
            _ => first == byte,
        };
    }
    false
}

// Whether the set from its `[` at `opening` to its `]` at `closing` begins at `place`.
pub fn is_frontier(state: &MatchState, opening: usize, closing: usize, place: usize) -> bool
    requires { (opening < closing) × (closing < length state.now.pattern.now) }
    ensures { result ≡ is_frontier (class_in state.now.classes.now) state.now.subject.now (set_of state.now.pattern.now opening closing) place }
{
    !in_set(
        state,
        opening,
        closing,
        subject::byte_before(state.subject, place),
    ) && in_set(state, opening, closing, scan::byte_at(state.subject, place))
}

// Where a repeat's tests end, and the steps used then.
#[derive(Clone, Copy, Debug, PartialEq, Eq)]
pub struct Reached {
    pub end: usize,
    pub steps: u32,
}

// No step was left where one was due: the steps used.
#[derive(Clone, Copy, Debug, PartialEq, Eq)]
pub struct Spent {
    pub steps: u32,
}

// max_expand's first loop: a byte after another is tested from `place` on, with a step for each test, until one fails; none fits at the subject's end.
fn reach_by<F: Fn(u8) -> bool>(
    state: &MatchState,
    place: usize,
    steps: u32,
    test: F,
) -> Result<Reached, Spent>
    requires callable { F.IsAlwaysCallable test }
    requires inside { place ≤ length state.now.subject.now }
    ensures reaches { (x : Single) → ((byte : ℕ) (r : Bool) → byte < 256 → F.post test byte r → r ≡ fits (class_in state.now.classes.now) x byte)
        → reach_of result ≡ reach (class_in state.now.classes.now) state.now.subject.now state.now.budget x (length state.now.subject.now - place) place steps }
    ensures within { ReachIn result place (length state.now.subject.now) }
{
    // read once: behind a reference they would be read at each byte
    let subject = state.subject;
    let budget = state.budget;
    let mut steps = steps;
    for tested in place..subject.len() {
        if budget <= steps {
            return Err(Spent { steps });
        }
        steps += 1;
        if !test(subject[tested]) {
            return Ok(Reached { end: tested, steps });
        }
    }
    if budget <= steps {
        return Err(Spent { steps });
    }
    Ok(Reached {
        end: subject.len(),
        steps: steps + 1,
    })
}

// How far the single from `at` up to `suffix` fits. What it is, and the bits of a class, are looked up once and not at each byte.
pub fn reach(
    state: &MatchState,
    at: usize,
    suffix: usize,
    place: usize,
    steps: u32,
) -> Result<Reached, Spent>
    requires { SingleIn state.now.pattern.now at suffix × (place ≤ length state.now.subject.now) }
    ensures { (reach_of result ≡ reach (class_in state.now.classes.now) state.now.subject.now state.now.budget (single_of state.now.pattern.now at suffix) (length state.now.subject.now - place) place steps)
        × ReachIn result place (length state.now.subject.now) }
{
    let first = state.pattern[at];
    match first {
        b'.' => reach_by(state, place, steps, |_| true),
        b'%' => {
            let classes = state.classes;
            let letter = state.pattern[at + 1];
            let bits = class::class_bits(classes, letter);
            reach_by(
                state,
                place,
                steps,
                |byte| class::match_bits(classes, letter, bits, byte),
            )
        }
        b'[' => {
            let closing = suffix - 1;
            let next = at + 1;
            if state.pattern[next] == b'^' {
                let from = at + 2;
                return reach_by(
                    state,
                    place,
                    steps,
                    |byte| !is_any_of(state, from, closing, byte),
                );
            }
            reach_by(
                state,
                place,
                steps,
                |byte| is_any_of(state, next, closing, byte),
            )
        }
        _ => reach_by(state, place, steps, |byte| first == byte),
    }
}
