// The captures of an attempt, in the order of their `(`: pairs of start and length.
ghost use Rattle.std.specs.Prelude.{◌≤◌, ◌≡◌, length};

use crate::error::LuaError;
use lstr_class::subject;

pub const LUA_MAXCAPTURES: usize = 32;

// lstrlib.c's CAP_UNFINISHED and CAP_POSITION stand in the place of a length: with an enum there each of the 32 pairs, which a `(` and a `)` copy,
// would be 8 bytes larger.
pub const UNFINISHED: usize = 0xFFFF_FFFF_FFFF_FFFF;

pub const POSITION: usize = 0xFFFF_FFFF_FFFF_FFFE;

#[derive(Clone, Copy, Debug, PartialEq, Eq)]
pub struct Pair {
    pub start: usize,
    pub len: usize,
}

// The first `count` pairs are captures; the others are not looked at.
#[derive(Clone, Copy)]
pub struct Captures {
    pub count: usize,
    pub pairs: [Pair; 32],
    pub ghost few: { count ≤ 32 },
    pub ghost whole: { length pairs ≡ 32 },
}

impl Captures {
    ghost use Rattle.std.specs.Prelude.{[], ◌∷◌, ◌≡◌, ◌↔◌, ◌-◌, ◌<◌, ℕ, length};
    ghost use Rattle.std.specs.Prelude.{OnOk, IsTrue, IfSome};
    ghost use Rattle.lstr_item.specs.Match.{Rest, capture_to_close, do_start_capture, do_end_capture, do_back_reference};
    ghost use Rattle.lstr_item.specs.Inner.{capture_of, captures_of, pairs_of, Sound, KeptIn, positional};
    ghost use Rattle.lstr_item.specs.Inner.{goes_on_as, held_as, HeldIn};

    pub fn new() -> Captures
        ensures { (captures_of result ≡ []) × ((place : ℕ) → Sound place result) }
    {
        Captures {
            count: 0,
            pairs: [Pair { start: 0, len: 0 }; 32],
        }
    }

    // One capture, open or a position by its length.
    pub fn one(place: usize, len: usize) -> Captures
        requires { positional ≤ len }
        ensures { (captures_of result ≡ capture_of place len ∷ []) × Sound place result }
    {
        Captures {
            count: 1,
            pairs: [Pair { start: place, len }; 32],
        }
    }

    // start_capture: one more capture, open or a position by its length.
    pub fn push(&mut self, place: usize, len: usize) -> Result<(), LuaError>
        requires { (positional ≤ len) × Sound place self.old }
        ensures goes_on { (rest : Rest) (l u : ℕ) → goes_on_as result rest place l (captures_of self.new) u ≡ do_start_capture (capture_of place len) rest place l (captures_of self.old) u }
        ensures sound { OnOk result (Sound place self.new) }
    {
        if LUA_MAXCAPTURES <= self.count {
            return Err(LuaError::TooManyCaptures);
        }
        self.pairs[self.count] = Pair { start: place, len };
        self.count += 1;
        Ok(())
    }

    // capture_to_close: the latest open capture.
    fn capture_to_close(&self) -> Option<usize>
        ensures { (result ≡ capture_to_close (captures_of self.now)) × IfSome result (λ i. i < self.now.count) }
    {
        for last in (0..self.count).rev() {
            if self.pairs[last].len == UNFINISHED {
                return Some(last);
            }
        }
        None
    }

    // end_capture: the latest open capture is closed.
    pub fn close(&mut self, place: usize) -> Result<(), LuaError>
        requires { (place < positional) × Sound place self.old }
        ensures goes_on { (rest : Rest) (l u : ℕ) → goes_on_as result rest place l (captures_of self.new) u ≡ do_end_capture (capture_to_close (captures_of self.old)) rest place l (captures_of self.old) u }
        ensures sound { OnOk result (Sound place self.new) }
    {
        match self.capture_to_close() {
            Some(index) => {
                let start = self.pairs[index].start;
                self.pairs[index] = Pair {
                    start,
                    len: place - start,
                };
                Ok(())
            }
            None => Err(LuaError::InvalidPatternCapture),
        }
    }

    // Whether the latest capture is open.
    pub fn is_open(&self) -> bool
        ensures { IsTrue result ↔ (capture_to_close (captures_of self.now) ≡ Some (self.now.count - 1)) }
    {
        0 < self.count && self.pairs[self.count - 1].len == UNFINISHED
    }

    // match_capture: how many bytes at a place of the subject are those of a capture; none where they differ.
    pub fn match_capture(
        &self,
        subject: &[u8],
        digit: u8,
        place: usize,
    ) -> Result<Option<usize>, LuaError>
        requires { (place ≤ length subject.now) × Sound place self.now }
        ensures { ((rest : Rest) (l u : ℕ) → held_as result rest place l (captures_of self.now) u ≡ do_back_reference subject.now digit rest place l (captures_of self.now) u)
            × HeldIn result place (length subject.now) }
    {
        if digit == 0 {
            return Err(LuaError::InvalidCaptureIndex);
        }
        let index = (digit - 1) as usize;
        if self.count <= index {
            return Err(LuaError::InvalidCaptureIndex);
        }
        let Pair { start, len } = self.pairs[index];
        if len == UNFINISHED {
            return Err(LuaError::InvalidCaptureIndex);
        }
        if len == POSITION {
            return Ok(None);
        }
        if subject.len() - place < len {
            return Ok(None);
        }
        if subject::same_bytes(subject, len, start, place) {
            return Ok(Some(len));
        }
        Ok(None)
    }

    // The captures of a match are handed out once, at its end. What stands behind them is not said.
    pub fn keep(&self, kept: &mut [Pair; 32])
        ensures same { pairs_of self.now.count kept.new ≡ captures_of self.now }
        ensures sound { (s : ℕ) → Sound s self.now → KeptIn s self.now.count kept.new }
    {
        // one by one: a copy of the whole calls memmove, which a host need not have
        for i in 0..self.count {
            kept[i] = self.pairs[i];
        }
    }
}
