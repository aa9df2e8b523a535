// Stored trials of gsub. A record: the versions that were asked in one byte; what is known of the answer in another; the budget in four bytes; the
// output's length and those of pattern, replacement and subject in two each; the three texts; the answer's number and kind in one byte each, its
// replacements in two, its steps in four, the length of what was written in two; and what was written.
ghost use Rattle.std.specs.Prelude.{◌≡◌, ◌+◌, ◌*◌, ◌<◌, ◌≤◌, length, IfOk};

use lstr_gsub::gsub;
use lstr_gsub::gsub::Trial;
use stored_records::records::{BadRecord, Records, Turn};
use stored_records::versions::Versions;
use stored_records::{bytes, output};

/// Stored trials of gsub.
#[derive(Clone, Copy, Debug, PartialEq, Eq)]
pub struct Trials;

const MOST_ROOM: usize = 4096;

#[derive(Clone, Copy)]
struct Record<'a> {
    versions: Versions,
    known: Known,
    budget: u32,
    room: usize,
    pattern: &'a [u8],
    replacement: &'a [u8],
    subject: &'a [u8],
    answer: Trial,
    written: &'a [u8],
    next: usize,
    ghost fits: { length written.now ≤ room },
    ghost short: { room ≤ 4096 },
}

impl Records for Trials {
    fn turn(file: &[u8], at: usize) -> Result<Turn, BadRecord> {
        let read = record_at(file, at)?;
        Ok(Turn {
            agrees: agrees(&read),
            next: read.next,
        })
    }
}

fn record_at(file: &[u8], at: usize) -> Result<Record<'_>, BadRecord>
    requires { at ≤ length file.now }
    ensures within { IfOk result (λ r. (at < r.next) × (r.next ≤ length file.now)) }
    ensures texts { IfOk result (λ r. length r.pattern.now + length r.replacement.now + length r.subject.now < 3 * 65536) }
    ensures written { IfOk result (λ r. length r.written.now ≡ r.answer.written) }
    ensures next { IfOk result (λ r.
        at + 14 + (length r.pattern.now + length r.replacement.now + length r.subject.now) + 10 + length r.written.now ≡ r.next) }
{
    if file.len() - at < 14 {
        return Err(BadRecord);
    }
    let room = bytes::short_at(file, at + 6);
    let pattern = at + 14;
    let replacement = pattern + bytes::short_at(file, at + 8);
    let subject = replacement + bytes::short_at(file, at + 10);
    let answer = subject + bytes::short_at(file, at + 12);
    let value = answer + 10;
    if file.len() < value {
        return Err(BadRecord);
    }
    let stored = answer_at(file, answer);
    let next = value + stored.written;
    if file.len() < next {
        return Err(BadRecord);
    }
    if room < stored.written {
        return Err(BadRecord);
    }
    if MOST_ROOM < room {
        return Err(BadRecord);
    }
    Ok(Record {
        versions: Versions(file[at]),
        known: Known::from(file[at + 1]),
        budget: bytes::word_at(file, at + 2),
        room,
        pattern: &file[pattern..replacement],
        replacement: &file[replacement..subject],
        subject: &file[subject..answer],
        answer: stored,
        written: &file[value..next],
        next,
    })
}

fn answer_at(file: &[u8], at: usize) -> Trial
    requires { at + 10 ≤ length file.now }
    ensures { result.written < 65536 }
{
    Trial {
        number: bytes::byte_at(file, at),
        kind: bytes::byte_at(file, at + 1),
        replacements: bytes::short_at(file, at + 2),
        steps: bytes::word_at(file, at + 4),
        written: bytes::short_at(file, at + 8),
    }
}

// Whether the trial under each version that was asked gives the stored answer.
fn agrees(stored: &Record) -> bool {
    // once for all versions: setting its bytes takes longer than most trials
    let mut output = [0u8; 4112];
    for version in 1..9 {
        if stored.versions.contains(version) && !agrees_under(stored, version, &mut output) {
            return false;
        }
    }
    true
}

// Whether as much of the answer as is known is the stored one, and what was written is what was stored.
fn agrees_under(stored: &Record, version: u32, output: &mut [u8]) -> bool
    requires { 4111 < length output.old }
{
    let room = stored.room;
    output::clear(output, room);
    let given = gsub::gsub(
        version,
        stored.pattern,
        stored.replacement,
        stored.subject,
        stored.budget,
        &mut output[..room],
    );
    let known = stored.known;
    known.agrees(given, stored.answer)
        && (!known.work || output::holds(output, room, stored.written))
}

// What is known of a stored answer.
#[derive(Clone, Copy, Debug, PartialEq, Eq)]
struct Known {
    steps: bool,
    // Kind 10 is stored as 7: real Lua has one message for both, but for 5.2.
    tens_as_sevens: bool,
    // More than number and kind: the replacements and what was written.
    work: bool,
}

// Bit 0: the steps are known; bit 1: kinds 7 and 10 were not told apart; bit 2: only number and kind are known.
impl From<u8> for Known {
    fn from(bits: u8) -> Self {
        Known {
            steps: bits & 1 != 0,
            tens_as_sevens: bits & 2 != 0,
            work: bits & 4 == 0,
        }
    }
}

impl Known {
    // field by field, since what is not known is not compared
    fn agrees(self, given: Trial, stored: Trial) -> bool {
        given.number == stored.number
            && self.told(given.kind) == stored.kind
            && (!self.work || self.agrees_in_work(given, stored))
    }

    fn agrees_in_work(self, given: Trial, stored: Trial) -> bool {
        given.replacements == stored.replacements
            && given.written == stored.written
            && (!self.steps || given.steps == stored.steps)
    }

    fn told(self, kind: u32) -> u32 {
        if self.tens_as_sevens && kind == 10 {
            7
        } else {
            kind
        }
    }
}
