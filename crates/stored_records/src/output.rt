// The output of a stored record, and the bytes behind it, which are watched.
ghost use Rattle.std.specs.Prelude.{◌≡◌, ◌↔◌, ◌++◌, ◌+◌, ◌≤◌, IsTrue, length, drop, replicate};
ghost use Rattle.stored_records.specs.Output.{Holds};

use crate::bytes;

// What an output holds before it is written to. Well-formed text has no such byte: only `\249` and `\xF9` put it into a value.
const UNTOUCHED: u8 = 0xF9;

// How many bytes behind the output are watched.
const BEHIND: usize = 16;

/// Makes an output of this length ready, and the bytes behind it.
pub fn clear(output: &mut [u8], room: usize)
    requires { room + 16 ≤ length output.old }
    ensures { output.new ≡ replicate (room + 16) 0xF9 ++ drop (room + 16) output.old }
{
    output[..room + BEHIND].fill(UNTOUCHED);
}

/// Whether these bytes were written to an output of this length, and no other byte of it or behind it.
pub fn holds(output: &[u8], room: usize, stored: &[u8]) -> bool
    requires { (length stored.now ≤ room) × (room + 16 ≤ length output.now) }
    ensures { IsTrue result ↔ Holds output.now room stored.now }
{
    output.starts_with(stored) && bytes::is_filled(output, stored.len(), room + BEHIND, UNTOUCHED)
}
