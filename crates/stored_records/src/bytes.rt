// Numbers and runs of bytes of a stored file.
ghost use Rattle.std.specs.Prelude.{◌≡◌, ◌+◌, ◌-◌, ◌<◌, ◌≤◌, eqb, leb, length, drop};
ghost use Rattle.luck_text.specs.Bytes.{byte_at, run};
ghost use Rattle.stored_records.specs.Numbers.{short_at, word_at};

use luck_text::scan;
use luck_text::scan::Byte;

pub fn byte_at(stored: &[u8], at: usize) -> u32
    requires { at < length stored.now }
    ensures { result ≡ byte_at stored.now at }
{
    u32::from(stored[at])
}

pub fn short_at(stored: &[u8], at: usize) -> usize
    requires { at + 1 < length stored.now }
    ensures value { result ≡ short_at stored.now at }
    ensures below { result < 65536 }
{
    usize::from(u16::from_le_bytes([stored[at], stored[at + 1]]))
}

pub fn word_at(stored: &[u8], at: usize) -> u32
    requires { at + 3 < length stored.now }
    ensures { result ≡ word_at stored.now at }
{
    u32::from_le_bytes([stored[at], stored[at + 1], stored[at + 2], stored[at + 3]])
}

/// Whether the bytes from a place to another are all this one.
pub fn is_filled(output: &[u8], from: usize, to: usize, byte: u8) -> bool
    requires { from ≤ to }
    ensures { result ≡ leb (to - from) (run (eqb byte) (drop from output.now)) }
{
    to - from <= scan::run(output, from, &Byte(byte))
}
