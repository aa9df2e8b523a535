// The replay of a stored file, record by record.
use std::error::Error;
use std::fmt;
use std::io::Print;
use std::rt::Files;
use stored_files::reader;
use stored_files::reader::LoadError;
use stored_records::records::{BadRecord, Records};
use stored_records::tally::Tally;

/// Why a file was not replayed.
#[derive(Clone, Copy, Debug, PartialEq, Eq)]
pub enum ReplayError {
    Load(LoadError),
    Record(BadRecord),
}

impl fmt::Display for ReplayError {
    fn fmt<W: fmt::Write>(&self, f: &mut fmt::Formatter<W>) -> fmt::Result {
        match self {
            ReplayError::Load(error) => write!(f, "{error}"),
            ReplayError::Record(error) => write!(f, "{error}"),
        }
    }
}

impl Error for ReplayError {}

impl From<LoadError> for ReplayError {
    fn from(error: LoadError) -> Self {
        ReplayError::Load(error)
    }
}

impl From<BadRecord> for ReplayError {
    fn from(error: BadRecord) -> Self {
        ReplayError::Record(error)
    }
}

/// Replays a file, and prints its name and what was found.
pub fn run<R: Records>(rt: &(impl Files + Print), name: &[u8], path: &[u8]) {
    let mut buffer = [0u8; 262144];
    let found = replay_file::<R>(rt, path, &mut buffer);
    let _ = rt.write_all(name);
    match found {
        Ok(tally) => print_tally(rt, tally),
        Err(ReplayError::Record(error)) => {
            part(rt, ": ");
            part(rt, error);
            part(rt, "\n");
        }
        Err(ReplayError::Load(error)) => {
            let _ = println!(rt; ": {error}");
        }
    }
}

// A part of a line. One that can't be written is missed in what the program prints, and nothing else can be said of it; the
// parts behind it are written all the same.
fn part(out: &impl Print, text: impl fmt::Display + Drop) {
    let _ = out.print(text);
}

fn print_tally(out: &impl Print, tally: Tally) {
    part(out, ": ");
    part(out, tally.ran);
    part(out, " ran, ");
    part(out, tally.differ);
    part(out, " differ");
    if let Some(first) = tally.first {
        part(out, ", first record ");
        part(out, first);
    }
    part(out, "\n");
}

// With a buffer that has to be larger than the file.
fn replay_file<R: Records>(
    files: &impl Files,
    path: &[u8],
    buffer: &mut [u8],
) -> Result<Tally, ReplayError> {
    let length = reader::load(files, path, buffer)?;
    Ok(replay::<R>(&buffer[..length])?)
}

fn replay<R: Records>(file: &[u8]) -> Result<Tally, BadRecord> {
    let mut tally = Tally::default();
    let mut at = 0;
    // How far a turn goes is known only when its record is read.
    while at < file.len() {
        let turn = R::turn(file, at)?;
        tally.count(turn.agrees);
        at = turn.next;
    }
    Ok(tally)
}
