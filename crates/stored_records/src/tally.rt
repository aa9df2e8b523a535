// How many records of a file ran, and how many of them differ.
ghost use Rattle.std.specs.Prelude.{◌≡◌, ◌+◌, ◌<◌, ◌≤◌};
ghost use Rattle.stored_records.specs.Tally.{differing, first_after};

use std::fmt;

#[derive(Clone, Copy, Debug, Default, PartialEq, Eq)]
pub struct Tally {
    pub ran: usize,
    pub differ: usize,
    /// The first record that differs, counted from 0.
    pub first: Option<usize>,
}

impl Tally {
    /// Counts one more record, by whether it agrees with what is stored.
    pub fn count(&mut self, agrees: bool)
        requires { (self.old.differ ≤ self.old.ran) × (self.old.ran < 0x8000_0000_0000_0000) }
        ensures ran { self.new.ran ≡ self.old.ran + 1 }
        ensures within { self.new.differ ≤ self.new.ran }
        ensures differ { self.new.differ ≡ self.old.differ + differing agrees }
        ensures first { self.new.first ≡ first_after agrees self.old }
    {
        if !agrees {
            // while none is counted, no record has set it
            if self.differ == 0 {
                self.first = None;
            }
            self.first = self.first.or(Some(self.ran));
            self.differ += 1;
        }
        self.ran += 1;
    }
}

impl fmt::Display for Tally {
    fn fmt<W: fmt::Write>(&self, f: &mut fmt::Formatter<W>) -> fmt::Result {
        write!(f, "{} ran, {} differ", self.ran, self.differ)?;
        match self.first {
            Some(first) => write!(f, ", first record {first}"),
            None => Ok(()),
        }
    }
}
