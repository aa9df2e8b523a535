// How the writing for a match ends before all is written.
ghost use Rattle.std.specs.Prelude.{◌≡◌};
ghost use Rattle.lstr_write.specs.Stops.{number_of, kind_of_stop};

use lstr_item::error::LuaError;

// What ended it.
#[derive(Clone, Copy, Debug, PartialEq, Eq)]
pub enum Stop {
    OutputFull,
    Raised(LuaError),
}

impl Stop {
    // The numbers that include/luck.h gives it.
    pub fn number(self) -> u8
        ensures { result ≡ number_of self }
    {
        match self {
            Stop::OutputFull => 26,
            Stop::Raised(_) => 29,
        }
    }

    // 0 where Lua raised no error.
    pub fn kind(self) -> u8
        ensures { result ≡ kind_of_stop self }
    {
        match self {
            Stop::OutputFull => 0,
            Stop::Raised(error) => error.kind(),
        }
    }
}

// What ended it, and up to where the output is written.
#[derive(Clone, Copy, Debug, PartialEq, Eq)]
pub struct Stopped {
    pub at: usize,
    pub stop: Stop,
}
