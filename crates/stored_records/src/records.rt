// A stored file, record by record.
ghost use Rattle.std.specs.Prelude.{◌≤◌, length, IfOk};
ghost use Rattle.stored_records.specs.Records.{Passes};

use std::error::Error;
use std::fmt;

/// A record that was replayed, and the place of the next one.
#[derive(Clone, Copy, Debug, PartialEq, Eq)]
pub struct Turn {
    pub agrees: bool,
    pub next: usize,
}

/// A record that is cut off, or in contradiction to itself.
#[derive(Clone, Copy, Debug, PartialEq, Eq)]
pub struct BadRecord;

impl fmt::Display for BadRecord {
    fn fmt<W: fmt::Write>(&self, f: &mut fmt::Formatter<W>) -> fmt::Result {
        f.write_str("bad file")
    }
}

impl Error for BadRecord {}

/// What the records of a file are.
pub trait Records {
    /// Replays the record that stands at a place: asks the library, and compares its answer with the stored one.
    fn turn(file: &[u8], at: usize) -> Result<Turn, BadRecord>
        requires { at ≤ length file.now }
        ensures { IfOk result (Passes at (length file.now)) };
}
