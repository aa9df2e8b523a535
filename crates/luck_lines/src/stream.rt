// The listing of a stream of lines, made piece by piece: `feed` takes whole lines of what is there, and `finish` the last line, if it lacks
// its newline, and writes the totals. What a call leaves, the next one gets again, with more bytes after it.
ghost use Rattle.std.specs.Prelude.{◌≡◌, ◌++◌, ◌+◌, ◌≤◌, eqb, position, min, length, drop};
ghost use Rattle.luck_text.specs.Bytes.{in_front};
ghost use Rattle.luck_answer.specs.Answer.{check_answer};
ghost use Rattle.luck_line.specs.Row.{newline, answer_row, most_shown};
ghost use Rattle.luck_lines.specs.Stream.{row_length, totals_length, line_length, start, answer_after, counted, totals_of, last_row_and_totals, too_long, feed, finish, fed_of};
ghost use Rattle.luck_lines.specs.Inner.{unended_at};

use luck_answer::answer::Answer;
use luck_line::line::{LONGEST, LineError};
use luck_line::row::{MOST_SHOWN, ROW, TOTALS};
use luck_line::{line, row};
use luck_text::blocks;

// What a call hands on to the next one. `long`: the line that goes on is too long already. How many lines were read and refused so far,
// up to the most that the totals show.
#[derive(Clone, Copy, Debug, Default, PartialEq, Eq)]
pub struct State {
    pub long: bool,
    pub read: u32,
    pub refused: u32,
}

// `used` bytes of the input were taken and `wrote` bytes of the output written.
#[derive(Clone, Copy, Debug, PartialEq, Eq)]
pub struct Fed {
    pub used: usize,
    pub wrote: usize,
    pub state: State,
}

// Before the first byte of an input.
pub fn start() -> State
    ensures { result ≡ start }
{
    State::default()
}

fn first_newline(text: &[u8]) -> Option<usize>
    ensures { result ≡ position (λ b. eqb b newline) text.now }
{
    text.iter().position(|&byte| byte == b'\n')
}

// The place of the next newline, or the input's end.
fn line_end(input: &[u8], at: usize) -> usize
    requires { at ≤ length input.now }
    ensures { result ≡ at + line_length (drop at input.now) }
{
    let from = blocks::blocks_end(input, at, b'\n');
    match first_newline(&input[from..]) {
        Some(place) => from + place,
        None => input.len(),
    }
}

fn answer_after(line: &[u8], long: bool) -> Answer
    ensures { check_answer result ≡ answer_after long line.now }
{
    if long {
        return Answer::from(LineError::TooLong);
    }
    line::check_line(line)
}

fn one_more(total: u32) -> u32
    ensures { result ≡ min (total + 1) most_shown }
{
    total.saturating_add(1).min(MOST_SHOWN)
}

// After a line whose answer has this number.
fn counted(state: State, number: u32) -> State
    ensures { result ≡ counted state number }
{
    let counted = State {
        long: false,
        read: one_more(state.read),
        ..state
    };
    if number == 0 {
        return counted;
    }
    State {
        refused: one_more(state.refused),
        ..counted
    }
}

// Writes the row of a line to the front of the output, and answers the number in it.
fn put_row(line: &[u8], output: &mut [u8], long: bool) -> u32
    requires { row_length ≤ length output.old }
    ensures number { result ≡ (answer_after long line.now).number }
    ensures output { output.new ≡ answer_row (answer_after long line.now) ++ drop row_length output.old }
{
    let answer = answer_after(line, long);
    let bytes = row::of_answer(answer);
    output[0..ROW].copy_from_slice(&bytes);
    answer.number
}

// Takes whole lines from the front of the input, while the output has room for a row, and passes over a line that is too long already.
pub fn feed(input: &[u8], output: &mut [u8], state: State) -> Fed
    ensures answer { result ≡ fed_of (feed input.now (length output.old) state) }
    ensures output { output.new ≡ in_front (feed input.now (length output.old) state).written output.old }
    ensures within { (result.used ≤ length input.now) × (result.wrote ≤ length output.old) }
{
    let mut used = 0;
    let mut wrote = 0;
    let mut so_far = state;
    // a turn takes a line, of any length: there is nothing to count
    while used < input.len() {
        let end = line_end(input, used);
        if end == input.len() {
            return unended(input.len(), used, wrote, so_far);
        }
        if output.len() - wrote < ROW {
            return Fed {
                used,
                wrote,
                state: so_far,
            };
        }
        let number = put_row(&input[used..end], &mut output[wrote..], so_far.long);
        so_far = counted(so_far, number);
        used = end + 1;
        wrote += ROW;
    }
    unended(input.len(), used, wrote, so_far)
}

// All of the input was taken, and the line that goes on after it is too long.
fn passed_over(length: usize, wrote: usize, state: State) -> Fed
    ensures { result ≡ record { used = length; wrote = wrote; state = too_long state } }
{
    Fed {
        used: length,
        wrote,
        state: State {
            long: true,
            ..state
        },
    }
}

// No newline is left after `used`: the bytes stay for the next call, unless their line is too long already.
fn unended(length: usize, used: usize, wrote: usize, state: State) -> Fed
    requires { used ≤ length }
    ensures { result ≡ unended_at length used wrote state }
{
    if state.long || LONGEST < length - used {
        return passed_over(length, wrote, state);
    }
    Fed { used, wrote, state }
}

fn put_totals(output: &mut [u8], state: State)
    requires { totals_length ≤ length output.old }
    ensures { output.new ≡ totals_of state ++ drop totals_length output.old }
{
    let bytes = row::of_totals(state.read, state.refused);
    output[0..TOTALS].copy_from_slice(&bytes);
}

// The last line, which lacks its newline, and the totals.
fn put_last(left: &[u8], output: &mut [u8], state: State) -> usize
    requires { row_length + totals_length ≤ length output.old }
    ensures wrote { result ≡ row_length + totals_length }
    ensures output { output.new ≡ in_front (last_row_and_totals state left.now) output.old }
{
    let number = put_row(left, output, state.long);
    put_totals(&mut output[ROW..], counted(state, number));
    ROW + TOTALS
}

// The end of the input, with what is left of it: there must be no newline in it, as after a `feed` with room for a row that wrote none. Writes the
// row of a last line that lacks its newline, and the totals. Answers how many bytes it wrote: none where the output has no room for both.
pub fn finish(left: &[u8], output: &mut [u8], state: State) -> usize
    ensures wrote { result ≡ length (finish state left.now (length output.old)) }
    ensures output { output.new ≡ in_front (finish state left.now (length output.old)) output.old }
    ensures within { result ≤ length output.old }
{
    if output.len() < ROW + TOTALS {
        return 0;
    }
    if state.long {
        return put_last(left, output, state);
    }
    if left.len() == 0 {
        put_totals(output, state);
        return TOTALS;
    }
    put_last(left, output, state)
}
