// Stored answers of decode_string. A record: the version in one byte, the output's length and the text's in two, the text,
// the answer's number in one byte, its offset and the value's length in two, and the value.
ghost use Rattle.std.specs.Prelude.{◌≡◌, ◌+◌, ◌<◌, ◌≤◌, length, IfOk};

use luck_structs::decoded::Decoded;
use luck_token::string;
use stored_records::records::{BadRecord, Records, Turn};
use stored_records::{bytes, output};

/// Stored answers of decode_string.
#[derive(Clone, Copy, Debug, PartialEq, Eq)]
pub struct Literals;

#[derive(Clone, Copy, Debug)]
struct Record<'a> {
    version: u32,
    room: usize,
    text: &'a [u8],
    answer: Decoded,
    value: &'a [u8],
    next: usize,
    ghost fits: { length value.now ≤ room },
    ghost short: { room < 65536 },
}

impl Records for Literals {
    fn turn(file: &[u8], at: usize) -> Result<Turn, BadRecord> {
        let read = record_at(file, at)?;
        Ok(Turn {
            agrees: agrees(&read),
            next: read.next,
        })
    }
}

fn record_at(file: &[u8], at: usize) -> Result<Record<'_>, BadRecord>
    requires { at ≤ length file.now }
    ensures within { IfOk result (λ r. (at < r.next) × (r.next ≤ length file.now)) }
    ensures value { IfOk result (λ r. length r.value.now ≡ r.answer.written) }
    ensures next { IfOk result (λ r. at + 5 + length r.text.now + 5 + length r.value.now ≡ r.next) }
{
    if file.len() - at < 5 {
        return Err(BadRecord);
    }
    let room = bytes::short_at(file, at + 1);
    let text = at + 5;
    let answer = text + bytes::short_at(file, at + 3);
    let value = answer + 5;
    if file.len() < value {
        return Err(BadRecord);
    }
    let stored = answer_at(file, answer);
    let next = value + stored.written;
    if file.len() < next {
        return Err(BadRecord);
    }
    if room < stored.written {
        return Err(BadRecord);
    }
    Ok(Record {
        version: bytes::byte_at(file, at),
        room,
        text: &file[text..answer],
        answer: stored,
        value: &file[value..next],
        next,
    })
}

fn answer_at(file: &[u8], at: usize) -> Decoded
    requires { at + 5 ≤ length file.now }
    ensures { result.written < 65536 }
{
    Decoded {
        number: bytes::byte_at(file, at),
        offset: bytes::short_at(file, at + 1),
        written: bytes::short_at(file, at + 3),
    }
}

// Whether the library's answer and value are the stored ones, and no other byte of the output or behind it was written.
fn agrees(stored: &Record) -> bool {
    let room = stored.room;
    let mut output = [0u8; 65552];
    output::clear(&mut output, room);
    let decoded = string::decode_string(stored.version, stored.text, &mut output[..room]);
    Decoded::from(decoded) == stored.answer && output::holds(&output, room, stored.value)
}
