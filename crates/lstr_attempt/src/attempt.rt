// An attempt at a place of the subject. The rule is do_match, from the pattern's start at the first level; everything here is a shortcut to its answer, by
// the same steps: what needs no captures is decided without a copy of them, and what every attempt of a pattern tests first is read once.
ghost use Rattle.std.specs.Prelude.{◌≡◌, true, List, [], ◌∷◌, ℕ, ◌+◌, ◌-◌, ◌<◌, ◌≤◌, length, IfSome};
ghost use Rattle.luck_pattern.specs.Items.{items};
ghost use Rattle.lstr_item.specs.Match.{do_start_capture, max_expand, fits_at, reach, match};
ghost use Rattle.lstr_class.specs.Inner.{class_in};
ghost use Rattle.lstr_item.specs.Inner.{SingleIn, single_of, capture_of, captures_of, positional, Sound};
ghost use Rattle.lstr_item.specs.declared.capture.Pair.{Pair};
ghost use Rattle.lstr_match.specs.Inner.{outcome_of, AttemptIn};
ghost use Rattle.lstr_attempt.specs.Inner.{LeadIn};

use crate::lead::{Fitted, Lead, Unfit};
use lstr_item::ahead::Ahead;
use lstr_item::capture::{Captures, Pair};
use lstr_item::item::Item;
use lstr_item::state::MatchState;
use lstr_item::{capture, item, single};
use lstr_match::matcher;
use lstr_match::outcome::Attempt;

// do_match at the first level, with no captures yet.
fn first_level(
    state: &MatchState,
    at: usize,
    place: usize,
    steps: u32,
    kept: &mut [Pair; 32],
) -> Attempt
    requires { (at ≤ length state.now.pattern.now) × (place ≤ length state.now.subject.now) }
    ensures { (outcome_of result kept.new ≡ match (class_in state.now.classes.now) state.now.subject.now state.now.budget (items state.now.pattern.now at) place 1 [] steps)
        × AttemptIn result kept.new (length state.now.subject.now) }
{
    matcher::do_match(state, at, place, 0, steps, &Captures::new(), kept).answer()
}

// start_capture of the first capture, at the first level.
fn first_capture(
    state: &MatchState,
    next: usize,
    place: usize,
    steps: u32,
    len: usize,
    kept: &mut [Pair; 32],
) -> Attempt
    requires { (next ≤ length state.now.pattern.now) × (place ≤ length state.now.subject.now) × (positional ≤ len) }
    ensures { (outcome_of result kept.new ≡
        do_start_capture (capture_of place len) (match (class_in state.now.classes.now) state.now.subject.now state.now.budget (items state.now.pattern.now next)) place 1 [] steps)
        × AttemptIn result kept.new (length state.now.subject.now) }
{
    matcher::do_match(
        state,
        next,
        place,
        1,
        steps,
        &Captures::one(place, len),
        kept,
    )
    .answer()
}

// A repeat that ends the pattern, once its single has fitted at `place`: it goes as far as it can, and the pattern's end, which takes the last step,
// does not fail there. So the shortest repeat that would do has no say.
fn last_repeat(state: &MatchState, at: usize, suffix: usize, place: usize, steps: u32) -> Attempt
    requires { SingleIn state.now.pattern.now at suffix × (place < length state.now.subject.now) }
    ensures { (kept : List Pair) (shortest : ℕ)
        → shortest ≤ place + 1
        → (outcome_of result kept ≡ max_expand (reach (class_in state.now.classes.now) state.now.subject.now state.now.budget (single_of state.now.pattern.now at suffix) (length state.now.subject.now - (place + 1)) (place + 1) steps) (match (class_in state.now.classes.now) state.now.subject.now state.now.budget []) shortest 1 [])
        × AttemptIn result kept (length state.now.subject.now) }
{
    match single::reach(state, at, suffix, place + 1, steps) {
        Ok(reached) => {
            if state.budget <= reached.steps {
                return Attempt::spent(reached.steps);
            }
            Attempt::matched(reached.end, 0, reached.steps + 1)
        }
        Err(spent) => Attempt::spent(spent.steps),
    }
}

// An attempt: a loop over the items, as do_match's, up to the first capture, or to an item that is left to do_match: `)`, `%b`, `%f`, a back-reference, an
// error, a repeat whose rest can fail. Such an item is begun again there, with the steps from before it.
pub fn attempt(
    state: &MatchState,
    at: usize,
    place: usize,
    steps: u32,
    kept: &mut [Pair; 32],
) -> Attempt
    requires { (at ≤ length state.now.pattern.now) × (place ≤ length state.now.subject.now) }
    ensures { (outcome_of result kept.new ≡ match (class_in state.now.classes.now) state.now.subject.now state.now.budget (items state.now.pattern.now at) place 1 [] steps)
        × AttemptIn result kept.new (length state.now.subject.now) }
{
    let mut at = at;
    let mut place = place;
    let mut steps = steps;
    'items: loop {
        if state.budget <= steps {
            return Attempt::spent(steps);
        }
        // once this item is begun
        let begun = steps + 1;
        match item::read(state.pattern, at) {
            Item::End => return Attempt::matched(place, 0, begun),
            Item::EndAnchor => {
                if place == state.subject.len() {
                    return Attempt::matched(place, 0, begun);
                }
                return Attempt::failed(begun);
            }
            Item::Single(suffix, repeat) => {
                if !single::fits(state, at, suffix, place) {
                    if repeat.has_to_fit() {
                        return Attempt::failed(begun);
                    }
                    steps = begun;
                    at = suffix + 1;
                    continue 'items;
                }
                if repeat.is_once() {
                    steps = begun;
                    place += 1;
                    at = suffix;
                    continue 'items;
                }
                if suffix + 1 < state.pattern.len() || !repeat.is_greedy() {
                    break 'items;
                }
                return last_repeat(state, at, suffix, place, begun).answer();
            }
            // an arm each for `(` and `()`: joined, the item would be asked again which of them it is
            Item::StartCapture(next) => {
                return first_capture(state, next, place, begun, capture::UNFINISHED, kept).answer();
            }
            Item::PositionCapture(next) => {
                return first_capture(state, next, place, begun, capture::POSITION, kept).answer();
            }
            _ => break 'items,
        }
    }
    first_level(state, at, place, steps, kept).answer()
}

// An attempt from a place of the pattern on: at the pattern's end it is a match, without a call.
fn attempt_from(
    state: &MatchState,
    at: usize,
    place: usize,
    steps: u32,
    kept: &mut [Pair; 32],
) -> Attempt
    requires { (at ≤ length state.now.pattern.now) × (place ≤ length state.now.subject.now) }
    ensures { (outcome_of result kept.new ≡ match (class_in state.now.classes.now) state.now.subject.now state.now.budget (items state.now.pattern.now at) place 1 [] steps)
        × AttemptIn result kept.new (length state.now.subject.now) }
{
    if state.pattern.len() <= at && steps < state.budget {
        return Attempt::matched(place, 0, steps + 1);
    }
    attempt(state, at, place, steps, kept).answer()
}

// An attempt whose first single fits at its place, with a step left for it.
fn attempt_fitting(
    state: &MatchState,
    lead: Lead,
    place: usize,
    steps: u32,
    kept: &mut [Pair; 32],
) -> Attempt
    requires { LeadIn state.now.pattern.now lead × (steps < state.now.budget)
        × (fits_at (class_in state.now.classes.now) state.now.subject.now (single_of state.now.pattern.now lead.first.at lead.first.suffix) place ≡ true) }
    ensures { (outcome_of result kept.new ≡ match (class_in state.now.classes.now) state.now.subject.now state.now.budget (items state.now.pattern.now 0) place 1 [] steps)
        × AttemptIn result kept.new (length state.now.subject.now) }
{
    // read for the proof: the steps are fewer than the budget, which fits 32 bits
    let _budget = state.budget;
    let begun = steps + 1;
    let Ahead { at, suffix, .. } = lead.first;
    match lead.fitted {
        Fitted::GoesOn => attempt_from(state, suffix, place + 1, begun, kept).answer(),
        Fitted::IsLast => last_repeat(state, at, suffix, place, begun).answer(),
        Fitted::IsCaptured => {
            first_capture(state, at, place, begun, capture::UNFINISHED, kept).answer()
        }
        Fitted::StartsOver => attempt(state, 0, place, steps, kept).answer(),
    }
}

// An attempt at a place of the subject: most fail by the first test, whose steps are counted at once.
pub fn attempt_at(
    state: &MatchState,
    lead: Option<Lead>,
    place: usize,
    steps: u32,
    kept: &mut [Pair; 32],
) -> Attempt
    requires { IfSome lead (LeadIn state.now.pattern.now) × (place ≤ length state.now.subject.now) × (steps ≤ state.now.budget) }
    ensures { (outcome_of result kept.new ≡ match (class_in state.now.classes.now) state.now.subject.now state.now.budget (items state.now.pattern.now 0) place 1 [] steps)
        × AttemptIn result kept.new (length state.now.subject.now) }
{
    match lead {
        Some(lead) if lead.first.steps <= state.budget - steps => {
            if single::fits(state, lead.first.at, lead.first.suffix, place) {
                return attempt_fitting(state, lead, place, steps, kept).answer();
            }
            match lead.unfit {
                Unfit::Fails => Attempt::failed(steps + lead.first.steps),
                Unfit::IsSkipped => {
                    attempt_from(state, lead.first.suffix + 1, place, steps + 1, kept).answer()
                }
            }
        }
        _ => attempt_from(state, 0, place, steps, kept).answer(),
    }
}
