// What the rest of a pattern surely tests first, so that a place where it fails is passed without opening a level there, or making an attempt. The contracts
// say that what is told is true: telling nothing would meet them too, and be slower.
ghost use Rattle.std.specs.Prelude.{true, ◌≡◌, ℕ, ◌<◌, IfSome};
ghost use Rattle.lstr_class.specs.Inner.{class_in};
ghost use Rattle.lstr_item.specs.Inner.{SingleIn};
ghost use Rattle.lstr_item.specs.Ahead.{SingleAhead, Sure, KnownFailsHere};

use crate::item::Item;
use crate::state::MatchState;
use crate::{item, single};

// The level above which two more can't be opened: MAXCCALLS of lstrlib.c is 200.
const LAST_BUT_ONE: u32 = 199;

// The single from `at` up to its suffix fails the rest of a pattern where it does not fit, after so many steps; with no steps nothing is known. Neighbours are of
// different widths, as in Attempt.
#[derive(Clone, Copy, Debug, PartialEq, Eq)]
pub struct Ahead {
    pub at: usize,
    pub steps: u32,
    pub suffix: usize,
}

// The single at `at`, where one stands there and has to fit; its failure is the last of so many steps.
pub fn single_at(pattern: &[u8], at: usize, steps: u32) -> Option<Ahead>
    ensures { IfSome result (SingleAhead pattern.now at steps) }
{
    match item::read(pattern, at) {
        Item::Single(suffix, repeat) if repeat.has_to_fit() => Some(Ahead { at, steps, suffix }),
        _ => None,
    }
}

// The rest from `next` on, at a new level above `level`: a single that has to fit, at once or, where a capture is open, behind a `)`. The `)` is looked for by
// its byte: a second reading of an item makes `(%w+)=(%w+)` a fifth slower.
pub fn first_test(pattern: &[u8], next: usize, level: u32, is_open: bool) -> Option<Ahead>
    ensures { IfSome result (λ first. (count : ℕ) → Sure pattern.now next level count is_open first) }
{
    // one level for the rest, and one more for a `)` before its single
    if LAST_BUT_ONE <= level {
        return None;
    }
    if is_open && next < pattern.len() && pattern[next] == b')' {
        return single_at(pattern, next + 1, 2);
    }
    single_at(pattern, next, 1)
}

impl Ahead {
    // Whether the rest surely fails at `place`, with its steps within the budget.
    pub fn fails_at(self, state: &MatchState, place: usize, steps: u32) -> bool
        requires { 0 < self.steps → SingleIn state.now.pattern.now self.at self.suffix }
        ensures { result ≡ true → KnownFailsHere (class_in state.now.classes.now) state.now.subject.now state.now.pattern.now self place state.now.budget steps }
    {
        0 < self.steps
            && steps < state.budget
            && self.steps <= state.budget - steps
            && !single::fits(state, self.at, self.suffix, place)
    }
}
