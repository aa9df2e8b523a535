// The matching of an attempt, in the shape of its definition (Match.antt of lstr_item): items, repeats and captures that call each other.
ghost use Rattle.std.specs.Prelude.{◌≡◌, ◌+◌, ◌-◌, ◌<◌, ◌≤◌, length, IfSome, IsSomeAnd};
ghost use Rattle.luck_pattern.specs.Items.{items, minus};
ghost use Rattle.lstr_item.specs.Match.{new_level, do_start_capture, do_end_capture, capture_to_close, reach, max_expand, expand, match};
ghost use Rattle.lstr_class.specs.Inner.{class_in};
ghost use Rattle.lstr_item.specs.Inner.{SingleIn, single_of, capture_of, captures_of, positional, Sound};
ghost use Rattle.lstr_item.specs.Ahead.{KnownFailsHere};
ghost use Rattle.lstr_match.specs.Inner.{outcome_of, AttemptIn};

use crate::outcome::{Attempt, Ending};
use lstr_class::subject;
use lstr_item::ahead::Ahead;
use lstr_item::capture::{Captures, Pair};
use lstr_item::item::{Item, Repeat};
use lstr_item::state::MatchState;
use lstr_item::{ahead, capture, item, single};

pub const MAXCCALLS: u32 = 200;

// Place, level and steps go by themselves: as one struct by value they made `.*=%d+$` 1.31 times as slow.
// do_match, at a new level: the 201st is 28. The items that go on at this level are turns of a loop, as lstrlib.c's `goto init`, so that the
// pattern's length does not deepen the stack. The captures of a match are kept once, at its end.
#[cycle(circle)]
pub fn do_match(
    state: &MatchState,
    at: usize,
    place: usize,
    level: u32,
    steps: u32,
    captures: &Captures,
    kept: &mut [Pair; 32],
) -> Attempt
    requires { (at ≤ length state.now.pattern.now) × (place ≤ length state.now.subject.now) × Sound place captures.now }
    ensures { (outcome_of result kept.new ≡
        new_level level steps (λ m. match (class_in state.now.classes.now) state.now.subject.now state.now.budget (items state.now.pattern.now at) place m (captures_of captures.now) steps))
        × AttemptIn result kept.new (length state.now.subject.now) }
{
    if MAXCCALLS <= level {
        return Attempt::too_deep(steps);
    }
    let deeper = level + 1;
    let mut at = at;
    let mut place = place;
    let mut steps = steps;
    'items: loop {
        if state.budget <= steps {
            return Attempt::spent(steps);
        }
        steps += 1;
        match item::read(state.pattern, at) {
            Item::End => {
                captures.keep(kept);
                return Attempt::matched(place, captures.count as u16, steps);
            }
            Item::EndAnchor => {
                if place == state.subject.len() {
                    captures.keep(kept);
                    return Attempt::matched(place, captures.count as u16, steps);
                }
                return Attempt::failed(steps);
            }
            Item::Raises(error) => return Attempt::raised(error, steps),
            // an arm each for `(` and `()`: joined, the item would be asked again which of them it is
            Item::StartCapture(next) => {
                return start_capture(
                    state,
                    next,
                    place,
                    deeper,
                    steps,
                    captures,
                    capture::UNFINISHED,
                    kept,
                )
                .answer();
            }
            Item::PositionCapture(next) => {
                return start_capture(
                    state,
                    next,
                    place,
                    deeper,
                    steps,
                    captures,
                    capture::POSITION,
                    kept,
                )
                .answer();
            }
            Item::EndCapture(next) => {
                return end_capture(state, next, place, deeper, steps, captures, kept).answer();
            }
            Item::BackReference(digit, next) => {
                match captures.match_capture(state.subject, digit, place) {
                    Ok(Some(len)) => {
                        place += len;
                        at = next;
                    }
                    Ok(None) => return Attempt::failed(steps),
                    Err(error) => return Attempt::raised(error, steps),
                }
            }
            Item::Balance(opening, closing, next) => {
                match subject::match_balance(state.subject, opening, closing, place) {
                    Some(after) => {
                        place = after;
                        at = next;
                    }
                    None => return Attempt::failed(steps),
                }
            }
            Item::Frontier(opening, next) => {
                if !single::is_frontier(state, opening, next - 1, place) {
                    return Attempt::failed(steps);
                }
                at = next;
            }
            Item::Single(suffix, repeat) => {
                if !single::fits(state, at, suffix, place) {
                    if repeat.has_to_fit() {
                        return Attempt::failed(steps);
                    }
                    at = suffix + 1;
                    continue 'items;
                }
                let shortest = match repeat {
                    Repeat::Once => {
                        place += 1;
                        at = suffix;
                        continue 'items;
                    }
                    Repeat::Optional => {
                        let next = suffix + 1;
                        let r = do_match(state, next, place + 1, deeper, steps, captures, kept);
                        match r.ending {
                            Ending::Failed => {
                                steps = r.steps;
                                at = next;
                                continue 'items;
                            }
                            _ => return r.answer(),
                        }
                    }
                    Repeat::Star => place,
                    Repeat::Plus => place + 1,
                    Repeat::Minus => {
                        return min_expand(
                            state, at, suffix, place, deeper, steps, captures, kept,
                        ).answer();
                    }
                };
                return max_expand(
                    state, at, suffix, place, shortest, deeper, steps, captures, kept,
                )
                .answer();
            }
        }
    }
}

// The steps once the rest has failed at `place` by what it tests first, where it surely does.
fn steps_failed(state: &MatchState, first: Option<Ahead>, place: usize, steps: u32) -> Option<u32>
    requires { IfSome first (λ a. SingleIn state.now.pattern.now a.at a.suffix) }
    ensures { IfSome result (λ after. IsSomeAnd first (λ a. (after ≡ steps + a.steps)
        × KnownFailsHere (class_in state.now.classes.now) state.now.subject.now state.now.pattern.now a place state.now.budget steps)) }
{
    let first = first?;
    // the budget is read here too, which bounds the sum
    if steps < state.budget && first.fails_at(state, place, steps) {
        return Some(steps + first.steps);
    }
    None
}

// max_expand: the single that fitted at `place` is tested further, and the rest of the pattern tried at new levels, from the last byte that fitted down to
// `shortest`, which is `place` or the place after it. No level is opened where what the rest tests first fails.
#[cycle(circle)]
fn max_expand(
    state: &MatchState,
    at: usize,
    suffix: usize,
    place: usize,
    shortest: usize,
    level: u32,
    steps: u32,
    captures: &Captures,
    kept: &mut [Pair; 32],
) -> Attempt
    requires { SingleIn state.now.pattern.now at suffix × (suffix < length state.now.pattern.now) × (place < length state.now.subject.now)
        × (place ≤ shortest) × (shortest ≤ place + 1) × Sound place captures.now }
    ensures { (outcome_of result kept.new ≡
        max_expand (reach (class_in state.now.classes.now) state.now.subject.now state.now.budget (single_of state.now.pattern.now at suffix) (length state.now.subject.now - (place + 1)) (place + 1) steps) (match (class_in state.now.classes.now) state.now.subject.now state.now.budget (items state.now.pattern.now (suffix + 1))) shortest level (captures_of captures.now))
        × AttemptIn result kept.new (length state.now.subject.now) }
{
    let next = suffix + 1;
    let first = ahead::first_test(state.pattern, next, level, captures.is_open());
    let reached = match single::reach(state, at, suffix, place + 1, steps) {
        Ok(reached) => reached,
        Err(spent) => return Attempt::spent(spent.steps),
    };
    let mut steps = reached.steps;
    for tried in (shortest..reached.end + 1).rev() {
        match steps_failed(state, first, tried, steps) {
            Some(after) => steps = after,
            None => {
                let r = do_match(state, next, tried, level, steps, captures, kept);
                match r.ending {
                    Ending::Failed => steps = r.steps,
                    _ => return r.answer(),
                }
            }
        }
    }
    Attempt::failed(steps)
}

// min_expand: the rest of the pattern at new levels, after no byte, after the byte that fitted, and after each further one that fits; no level is opened
// where what it tests first fails.
#[cycle(circle)]
fn min_expand(
    state: &MatchState,
    at: usize,
    suffix: usize,
    place: usize,
    level: u32,
    steps: u32,
    captures: &Captures,
    kept: &mut [Pair; 32],
) -> Attempt
    requires { SingleIn state.now.pattern.now at suffix × (suffix < length state.now.pattern.now) × (place < length state.now.subject.now) × Sound place captures.now }
    ensures { (outcome_of result kept.new ≡
        expand (class_in state.now.classes.now) state.now.subject.now state.now.budget (single_of state.now.pattern.now at suffix) minus (match (class_in state.now.classes.now) state.now.subject.now state.now.budget (items state.now.pattern.now (suffix + 1))) place level (captures_of captures.now) steps)
        × AttemptIn result kept.new (length state.now.subject.now) }
{
    let next = suffix + 1;
    let first = ahead::first_test(state.pattern, next, level, captures.is_open());
    let mut tried = place;
    let mut steps = steps;
    // it ends where the single does not fit, at the subject's end at the latest: no counted range
    loop {
        match steps_failed(state, first, tried, steps) {
            Some(after) => steps = after,
            None => {
                let r = do_match(state, next, tried, level, steps, captures, kept);
                match r.ending {
                    Ending::Failed => steps = r.steps,
                    _ => return r.answer(),
                }
            }
        }
        // the byte at `place` has fitted before
        if place < tried {
            if state.budget <= steps {
                return Attempt::spent(steps);
            }
            steps += 1;
            if !single::fits(state, at, suffix, tried) {
                return Attempt::failed(steps);
            }
        }
        tried += 1;
    }
}

// start_capture: one more capture, open or a position by its length, and the rest of the pattern at a new level.
#[cycle(circle)]
fn start_capture(
    state: &MatchState,
    next: usize,
    place: usize,
    level: u32,
    steps: u32,
    captures: &Captures,
    len: usize,
    kept: &mut [Pair; 32],
) -> Attempt
    requires { (next ≤ length state.now.pattern.now) × (place ≤ length state.now.subject.now) × (positional ≤ len) × Sound place captures.now }
    ensures { (outcome_of result kept.new ≡
        do_start_capture (capture_of place len) (match (class_in state.now.classes.now) state.now.subject.now state.now.budget (items state.now.pattern.now next)) place level (captures_of captures.now) steps)
        × AttemptIn result kept.new (length state.now.subject.now) }
{
    // a copy in a function of its own, so that it does not lie on the stack of every level
    let mut opened = *captures;
    match opened.push(place, len) {
        Ok(()) => do_match(state, next, place, level, steps, &opened, kept).answer(),
        Err(error) => Attempt::raised(error, steps),
    }
}

// end_capture: the latest open capture is closed, and the rest of the pattern goes on at a new level.
#[cycle(circle)]
fn end_capture(
    state: &MatchState,
    next: usize,
    place: usize,
    level: u32,
    steps: u32,
    captures: &Captures,
    kept: &mut [Pair; 32],
) -> Attempt
    requires { (next ≤ length state.now.pattern.now) × (place ≤ length state.now.subject.now) × Sound place captures.now }
    ensures { (outcome_of result kept.new ≡
        do_end_capture (capture_to_close (captures_of captures.now)) (match (class_in state.now.classes.now) state.now.subject.now state.now.budget (items state.now.pattern.now next)) place level (captures_of captures.now) steps)
        × AttemptIn result kept.new (length state.now.subject.now) }
{
    let mut closed = *captures;
    match closed.close(place) {
        Ok(()) => do_match(state, next, place, level, steps, &closed, kept).answer(),
        Err(error) => Attempt::raised(error, steps),
    }
}
