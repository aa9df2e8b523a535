// Reading a stored file into a lent buffer.
ghost use Rattle.std.specs.Prelude.{◌<◌, length, IfOk};

use std::error::Error;
use std::fs::File;
use std::io::Read;
use std::rt::Files;
use std::{fmt, str};

/// Why a file was not read whole.
#[derive(Clone, Copy, Debug, PartialEq, Eq)]
pub enum LoadError {
    Missing,
    Unreadable,
    /// As large as the buffer, so its end was not seen.
    TooLarge,
}

impl fmt::Display for LoadError {
    fn fmt<W: fmt::Write>(&self, f: &mut fmt::Formatter<W>) -> fmt::Result {
        f.write_str(match self {
            LoadError::Missing => "no file",
            LoadError::Unreadable => "cannot be read",
            LoadError::TooLarge => "too large",
        })
    }
}

impl Error for LoadError {}

/// Reads a file whole, and returns how many bytes it has. A path is text: bytes that are no UTF-8 name no file.
pub fn load(files: &impl Files, path: &[u8], buffer: &mut [u8]) -> Result<usize, LoadError>
    ensures { IfOk result (λ n. n < length buffer.old) }
{
    let path = str::from_utf8(path).map_err(|_| LoadError::Missing)?;
    let mut file = File::open(files, path).map_err(|_| LoadError::Missing)?;
    read_all(&mut file, buffer)
}

// A read may give less than what is left, so this goes on to one that gives nothing: how far a turn goes is known only then.
fn read_all(file: &mut impl Read, buffer: &mut [u8]) -> Result<usize, LoadError>
    ensures { IfOk result (λ n. n < length buffer.old) }
{
    let mut done = 0;
    while done < buffer.len() {
        let more = file
            .read(&mut buffer[done..])
            .map_err(|_| LoadError::Unreadable)?;
        if more == 0 {
            return Ok(done);
        }
        done += more;
    }
    Err(LoadError::TooLarge)
}
