// The lead of a pattern: what every attempt tests first, so that a place where it fails is passed at once. A shortcut, as all of this crate: a pattern without a
// lead is tried by the rule.
ghost use Rattle.std.specs.Prelude.{◌≡◌, IfSome};
ghost use Rattle.lstr_item.specs.Ahead.{SingleAhead};
ghost use Rattle.lstr_attempt.specs.declared.lead.Unfit.TheVariants as unfit;
ghost use Rattle.lstr_attempt.specs.Inner.{LeadIn};

use lstr_item::ahead::Ahead;
use lstr_item::item::Item;
use lstr_item::{ahead, item};

// How an attempt goes on where the first single fits.
#[derive(Clone, Copy, Debug, PartialEq, Eq)]
pub enum Fitted {
    // behind it, which has no repeat
    GoesOn,
    // its repeat is the pattern's last item
    IsLast,
    // a capture starts before it
    IsCaptured,
    // the attempt starts over, by the rule
    StartsOver,
}

// And where it does not fit.
#[derive(Clone, Copy, Debug, PartialEq, Eq)]
pub enum Unfit {
    // it has to fit: the attempt has failed
    Fails,
    // it is passed over with its repeat, and the attempt goes on behind both
    IsSkipped,
}

// What every attempt of a pattern tests first, and how an attempt goes on from that test.
#[derive(Clone, Copy, Debug, PartialEq, Eq)]
pub struct Lead {
    // the single that is tested first, and the steps until it has failed, which ends the attempt unless it is skipped
    pub first: Ahead,
    pub fitted: Fitted,
    pub unfit: Unfit,
}

// The lead of a pattern, read once for all its attempts.
pub fn lead_of(pattern: &[u8]) -> Option<Lead>
    ensures { IfSome result (LeadIn pattern.now) }
{
    match item::read(pattern, 0) {
        Item::Single(suffix, repeat) => Some(Lead {
            first: Ahead {
                at: 0,
                steps: 1,
                suffix,
            },
            fitted: if repeat.is_once() {
                Fitted::GoesOn
            } else if repeat.is_greedy() && pattern.len() <= suffix + 1 {
                Fitted::IsLast
            } else {
                Fitted::StartsOver
            },
            unfit: if repeat.has_to_fit() {
                Unfit::Fails
            } else {
                Unfit::IsSkipped
            },
        }),
        Item::StartCapture(next) => opening(pattern, next, Fitted::IsCaptured),
        Item::PositionCapture(next) => opening(pattern, next, Fitted::StartsOver),
        _ => None,
    }
}

// The lead of a pattern that begins with a capture or a position, and goes on at `next`.
fn opening(pattern: &[u8], next: usize, fitted: Fitted) -> Option<Lead>
    ensures { IfSome result (λ lead. SingleAhead pattern.now next 2 lead.first × (lead.fitted ≡ fitted) × (lead.unfit ≡ unfit.Fails)) }
{
    let first = ahead::single_at(pattern, next, 2)?;
    Some(Lead {
        first,
        fitted,
        unfit: Unfit::Fails,
    })
}
