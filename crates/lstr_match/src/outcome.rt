// How an attempt ends.
ghost use Rattle.std.specs.Prelude.{◌≡◌};
ghost use Rattle.lstr_item.specs.Match.{raised};
ghost use Rattle.lstr_match.specs.Inner.{number_of, kind_of_stop, EndsAs};

use lstr_item::error::LuaError;

// What stops the trial in an attempt.
#[derive(Clone, Copy, Debug, PartialEq, Eq)]
pub enum Stop {
    // no step was left where one was due
    Spent,
    // a level too many was to be opened
    TooDeep,
    Raised(LuaError),
    // an error by its kind, which need not be one of lstrlib.c's
    RaisedAs(u8),
}

impl Stop {
    // The numbers that include/luck.h gives it.
    pub fn number(self) -> u8
        ensures { result ≡ number_of self }
    {
        match self {
            Stop::Spent => 27,
            Stop::TooDeep => 28,
            Stop::Raised(_) => 29,
            Stop::RaisedAs(_) => 29,
        }
    }

    // 0 where Lua raised no error.
    pub fn kind(self) -> u8
        ensures { result ≡ kind_of_stop self }
    {
        match self {
            Stop::Spent | Stop::TooDeep => 0,
            Stop::Raised(error) => error.kind(),
            Stop::RaisedAs(kind) => kind,
        }
    }
}

// A match has its end and the count of its captures. The end stands between what is narrower: neighbours of one width are copied as one, which waits for both
// to be written.
#[derive(Clone, Copy, Debug, PartialEq, Eq)]
pub enum Ending {
    Matched { end: usize, count: u16 },
    Failed,
    Stopped(Stop),
}

// With the steps used by then.
#[derive(Clone, Copy, Debug, PartialEq, Eq)]
pub struct Attempt {
    pub ending: Ending,
    pub steps: u32,
}

impl Attempt {
    ghost use Rattle.lstr_item.specs.Errors.{kind_of};
    ghost use Rattle.lstr_item.specs.Match.{failed, stopped, raised};
    ghost use Rattle.lstr_match.specs.Inner.{EndsAs, MatchesAs};

    pub fn matched(end: usize, count: u16, steps: u32) -> Attempt
        ensures { MatchesAs result end count steps }
    {
        Attempt {
            ending: Ending::Matched { end, count },
            steps,
        }
    }

    pub fn failed(steps: u32) -> Attempt
        ensures { EndsAs result (failed steps) }
    {
        Attempt {
            ending: Ending::Failed,
            steps,
        }
    }

    pub fn spent(steps: u32) -> Attempt
        ensures { EndsAs result (stopped 27 0 steps) }
    {
        Attempt {
            ending: Ending::Stopped(Stop::Spent),
            steps,
        }
    }

    pub fn too_deep(steps: u32) -> Attempt
        ensures { EndsAs result (stopped 28 0 steps) }
    {
        Attempt {
            ending: Ending::Stopped(Stop::TooDeep),
            steps,
        }
    }

    pub fn raised(error: LuaError, steps: u32) -> Attempt
        ensures { EndsAs result (raised (kind_of error) steps) }
    {
        Attempt {
            ending: Ending::Stopped(Stop::Raised(error)),
            steps,
        }
    }

    // The same attempt, built anew from its fields: handed on whole, what a call has just written is read back as one piece, and that waits (8 ns).
    pub fn answer(self) -> Attempt
        ensures { result ≡ self }
    {
        Attempt {
            ending: self.ending,
            steps: self.steps,
        }
    }
}

// An attempt in which an error of this kind was raised.
pub fn raised(kind: u8, steps: u32) -> Attempt
    ensures { EndsAs result (raised kind steps) }
{
    Attempt {
        ending: Ending::Stopped(Stop::RaisedAs(kind)),
        steps,
    }
}
