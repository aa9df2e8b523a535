// Reads lines from standard input and writes a row for each, what the checks answer for its body, and then the totals. The work is luck_lines';
// this is the reading and the writing, with two buffers and a `State` and nothing else kept, so that the input may be of any length.
#![tactic(auto)]

ghost use Rattle.std.specs.Prelude.{◌≡◌, ◌+◌, ◌≤◌, ◌<◌, length, drop, IfOk, IfSome};
ghost use Rattle.luck_text.specs.Bytes.{part};
ghost use Rattle.luck_line.specs.Line.{longest};
ghost use Rattle.luck_lines.specs.Stream.{row_length, totals_length, line_length, start, feed};
ghost use Rattle.bodies.specs.Held.{HeldWithin, Unended, held_in, HeldGoesOn};

use luck_lines::stream::State;
use luck_lines::{buffer, stream};
use std::env::{Env, FillError};
use std::io::{Eprint, Error, Print, Read, Stdin, Stdout};

// Where the lines come from, and where the rows go.
#[derive(Clone, Copy)]
struct Streams {
    input: Stdin,
    output: Stdout,
}

// What failed, and why. No totals are written then, by which a loader tells that the listing is not whole.
#[derive(Clone, Copy)]
enum Failure {
    Input(Error),
    Output(Error),
}

impl Failure {
    // In two writes, as they find room: of an error stream that takes the first alone, what failed is read.
    fn say(&self, errors: &impl Eprint) {
        let (what, why) = match self {
            Failure::Input(why) => ("bodies: standard input: ", why),
            Failure::Output(why) => ("bodies: standard output: ", why),
        };
        // where even that can't be said, nothing is left to do
        let _ = errors.eprint(what);
        let _ = errors.eprintln(why);
    }
}

// The bytes of the input buffer that are not taken yet, from `at` to `end`; and what the next call is handed.
#[derive(Clone, Copy)]
struct Held {
    // two numbers, since a `Range` is not `Copy`
    at: usize,
    end: usize,
    state: State,
}

// Before the first read.
fn first() -> Held
    ensures within { HeldWithin result 0 }
    ensures state { result.state ≡ start }
{
    Held {
        at: 0,
        end: 0,
        state: stream::start(),
    }
}

fn write_out(streams: Streams, rows: &[u8]) -> Result<(), Failure> {
    streams.output.write_all(rows).map_err(Failure::Output)
}

// The input has ended, with a last line that lacks its newline, or with nothing: what is left to write ends with the totals.
fn finish(streams: Streams, left: &[u8], output: &mut [u8], state: State) -> Result<(), Failure>
    requires last_line { line_length left.now ≡ length left.now }
    requires room { row_length + totals_length ≤ length output.old }
{
    let wrote = stream::finish(left, output, state);
    write_out(streams, &output[0..wrote])
}

// No whole line is left: what there is moves to the front, and more is read after it. None: the input has ended.
fn read_more(
    streams: Streams,
    input: &mut [u8],
    output: &mut [u8],
    left: Held,
) -> Result<Option<Held>, Failure>
    requires unended { Unended (held_in left input.old) (length input.old) }
    requires room { row_length + totals_length ≤ length output.old }
    ensures within { IfOk result (λ next. IfSome next (λ held. HeldWithin held (length input.new))) }
    ensures goes_on { IfOk result (λ next. IfSome next (λ held. HeldGoesOn (held_in left input.old) left.state held input.new)) }
{
    let kept = buffer::keep(input, left.at, left.end);
    let mut lines = streams.input;
    match lines.read(&mut input[kept..]) {
        Err(why) => Err(Failure::Input(why)),
        Ok(0) => {
            finish(streams, &input[0..kept], output, left.state)?;
            Ok(None)
        }
        Ok(more) => Ok(Some(Held {
            at: 0,
            end: kept + more,
            ..left
        })),
    }
}

// Takes what the output has room for, and reads more where nothing can be taken.
fn list_some(
    streams: Streams,
    input: &mut [u8],
    output: &mut [u8],
    held: Held,
) -> Result<Option<Held>, Failure>
    requires held { HeldWithin held (length input.old) }
    requires longest { longest < length input.old }
    requires room { row_length + totals_length ≤ length output.old }
    ensures within { IfOk result (λ next. IfSome next (λ left. HeldWithin left (length input.new))) }
    ensures goes_on { IfOk result (λ next. IfSome next (λ left.
        HeldGoesOn (drop (feed (held_in held input.old) (length output.old) held.state).used (held_in held input.old))
        (feed (held_in held input.old) (length output.old) held.state).state left input.new)) }
{
    let fed = stream::feed(&input[held.at..held.end], output, held.state);
    let left = Held {
        at: held.at + fed.used,
        end: held.end,
        state: fed.state,
    };
    let wrote = fed.wrote;
    if 0 < wrote {
        write_out(streams, &output[0..wrote])?;
        return Ok(Some(left));
    }
    read_more(streams, input, output, left)
}

// A proved loop has to end, and nothing says that an input does: it has more turns than a run uses up.
fn list(streams: Streams, input: &mut [u8], output: &mut [u8]) -> Result<(), Failure>
    requires longest { longest < length input.old }
    requires room { row_length + totals_length ≤ length output.old }
{
    let mut held = first();
    'turns: for _ in 0..u64::MAX {
        match list_some(streams, input, output, held)? {
            Some(left) => held = left,
            None => break,
        }
    }
    Ok(())
}

// A word after the program's name is a slip, mostly a file's name without its `<`: a listing of standard input would be that
// of another input, and at a terminal the program would wait for one.
fn main(rt: HostRuntime) {
    if has_argument(&rt) {
        let _ = rt.eprintln(
            "bodies: takes no arguments, and has read nothing; it lists standard input: bodies < FILE",
        );
        return;
    }
    let streams = Streams {
        input: rt.stdin(),
        output: rt.stdout(),
    };
    let mut input = [0u8; 65536];
    let mut output = [0u8; 65536];
    if let Err(failure) = list(streams, &mut input, &mut output) {
        failure.say(&rt);
    }
}

// Whether a word follows the program's name.
fn has_argument(words: &impl Env) -> bool {
    let mut first = [0u8; 1];
    !matches!(words.arg(1, &mut first), Err(FillError::NotPresent))
}
