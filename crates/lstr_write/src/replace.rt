// What is written for a match, into the output from `at` on.
ghost use Rattle.std.specs.Prelude.{[], ◌∷◌, ◌+◌, ◌<◌, ◌≤◌, ◌≡◌, length, take};
ghost use Rattle.luck_replacement.specs.Replacement.{escaped, pieces};
ghost use Rattle.lstr_write.specs.Replace.{append, decimal, add_capture, add_digit, add_piece, add_pieces};
ghost use Rattle.lstr_item.specs.Inner.{capture_of, PairIn, captures_in};
ghost use Rattle.lstr_write.specs.Inner.{WroteAs};

use crate::matched::Match;
use crate::stop::{Stop, Stopped};
use lstr_item::capture;
use lstr_item::capture::Pair;
use lstr_item::error::LuaError;

// Bytes in order.
pub fn append(output: &mut [u8], at: usize, bytes: &[u8]) -> Result<usize, Stopped>
    requires { at ≤ length output.old }
    ensures { WroteAs result at output.old output.new (append (length output.old) bytes.now (take at output.old)) }
{
    let mut next = at;
    for &byte in bytes {
        next = append_byte(output, next, byte)?;
    }
    Ok(next)
}

// One byte.
pub fn append_byte(output: &mut [u8], at: usize, byte: u8) -> Result<usize, Stopped>
    requires { at ≤ length output.old }
    ensures { WroteAs result at output.old output.new (append (length output.old) (byte ∷ []) (take at output.old)) }
{
    if at < output.len() {
        output[at] = byte;
        return Ok(at + 1);
    }
    Err(Stopped {
        at,
        stop: Stop::OutputFull,
    })
}

// A number in decimal.
fn append_decimal(output: &mut [u8], at: usize, number: usize) -> Result<usize, Stopped>
    requires { at ≤ length output.old }
    ensures { WroteAs result at output.old output.new (append (length output.old) (decimal number) (take at output.old)) }
{
    let mut digits = [0u8; 20];
    let mut first: usize = 20;
    let mut left = number;
    // the digits come from the last one on, and only their end tells how many there are: no counted index
    loop {
        first -= 1;
        digits[first] = b'0' + (left % 10) as u8;
        left = left / 10;
        if left == 0 {
            break;
        }
    }
    append(output, at, &digits[first..20])
}

// A capture: a position counts from 1, and an open one raises an error.
fn add_capture(subject: &[u8], pair: Pair, output: &mut [u8], at: usize) -> Result<usize, Stopped>
    requires { (at ≤ length output.old) × PairIn (length subject.now) pair }
    ensures { WroteAs result at output.old output.new (add_capture subject.now (length output.old) (capture_of pair.start pair.len) (take at output.old)) }
{
    match pair.len {
        capture::UNFINISHED => Err(Stopped {
            at,
            stop: Stop::Raised(LuaError::UnfinishedCapture),
        }),
        capture::POSITION => append_decimal(output, at, pair.start + 1),
        _ => append(output, at, &subject[pair.start..pair.start + pair.len]),
    }
}

// get_onecapture: `%` and a digit.
fn add_digit(found: &Match, digit: u8, output: &mut [u8], at: usize) -> Result<usize, Stopped>
    requires { (at ≤ length output.old) × (digit < 10) }
    ensures { WroteAs result at output.old output.new
        (add_digit found.now.subject.now (length output.old) found.now.place found.now.end (captures_in found.now.captures.now) digit (take at output.old)) }
{
    if digit == 0 {
        return append(output, at, &found.subject[found.place..found.end]);
    }
    let index = (digit - 1) as usize;
    if index < found.captures.len() {
        return add_capture(found.subject, found.captures[index], output, at);
    }
    if index == 0 {
        return append(output, at, &found.subject[found.place..found.end]);
    }
    Err(Stopped {
        at,
        stop: Stop::Raised(LuaError::InvalidReplacementIndex),
    })
}

// add_s: the whole replacement. 5.1 writes the byte behind a `%`, and a zero byte for a final `%`; the other versions raise an error.
pub fn add_pieces(
    found: &Match,
    replacement: &[u8],
    is_strict: bool,
    output: &mut [u8],
    at: usize,
) -> Result<usize, Stopped>
    requires { at ≤ length output.old }
    ensures { WroteAs result at output.old output.new
        (add_pieces found.now.subject.now (length output.old) found.now.place found.now.end (captures_in found.now.captures.now) is_strict (pieces replacement.now) (take at output.old)) }
{
    let mut read = 0;
    let mut next = at;
    // a piece has one byte, or two from `%` on: no counted index
    while read < replacement.len() {
        let byte = replacement[read];
        read += 1;
        if byte != b'%' {
            next = append_byte(output, next, byte)?;
        } else if read < replacement.len() {
            next = add_escape(found, replacement[read], is_strict, output, next)?;
            read += 1;
        } else if is_strict {
            return Err(Stopped {
                at: next,
                stop: Stop::Raised(LuaError::InvalidPercent),
            });
        } else {
            return append_byte(output, next, 0);
        }
    }
    Ok(next)
}

// `%` and the byte behind it.
fn add_escape(
    found: &Match,
    behind: u8,
    is_strict: bool,
    output: &mut [u8],
    at: usize,
) -> Result<usize, Stopped>
    requires { at ≤ length output.old }
    ensures { WroteAs result at output.old output.new
        (add_piece found.now.subject.now (length output.old) found.now.place found.now.end (captures_in found.now.captures.now) is_strict (escaped behind) (take at output.old)) }
{
    match behind {
        b'%' => append_byte(output, at, b'%'),
        b'0'..=b'9' => add_digit(found, behind - b'0', output, at),
        _ if is_strict => Err(Stopped {
            at,
            stop: Stop::Raised(LuaError::InvalidPercent),
        }),
        _ => append_byte(output, at, behind),
    }
}
