// A match, as what is written for it reads it.
ghost use Rattle.std.specs.Prelude.{◌≤◌, length};
ghost use Rattle.lstr_item.specs.Inner.{KeptIn};

use lstr_item::capture::Pair;

// A match of the subject from `place` to `end`, with its captures.
#[derive(Clone, Copy)]
pub struct Match<'a> {
    pub subject: &'a [u8],
    pub place: usize,
    pub end: usize,
    pub captures: &'a [Pair],
    pub ghost inside: { (place ≤ end) × (end ≤ length subject.now) },
    pub ghost kept: { KeptIn (length subject.now) (length captures.now) captures.now },
}
