// Bytes, code points and parts of a text, written to a lent output.
ghost use Rattle.std.specs.Prelude.{◌≡◌, [], ◌∷◌, ◌+◌, ◌≤◌, length, leb};
ghost use Rattle.std.proofs.lemmas.List.Edits.{sets};
ghost use Rattle.luck_utf8.specs.Utf8.{last_code, utf8_bytes};
ghost use Rattle.luck_output.specs.Output.{stores};

use crate::character;

// Writes the bytes at `at`. The compiler makes memcpy of the loop: the library's `copy_from_slice` calls memmove, which a
// host need not have.
pub fn copy(bytes: &[u8], output: &mut [u8], at: usize)
    requires { at + length bytes.now ≤ length output.old }
    ensures { output.new ≡ sets output.old at bytes.now }
{
    for (i, &byte) in bytes.iter().enumerate() {
        output[at + i] = byte;
    }
}

// Whether so many bytes fit at `at`.
fn fits(output: &[u8], at: usize, count: usize) -> bool
    ensures { result ≡ leb (at + count) (length output.now) }
{
    at <= output.len() && count <= output.len() - at
}

// This and the two below write their bytes at `at`, where they fit.
pub fn put(bytes: &[u8], output: &mut [u8], at: usize)
    ensures { output.new ≡ stores output.old at bytes.now }
{
    if fits(output, at, bytes.len()) {
        copy(bytes, output, at);
    }
}

pub fn put_byte(output: &mut [u8], at: usize, value: u8)
    ensures { output.new ≡ stores output.old at (value ∷ []) }
{
    put(&[value], output, at);
}

pub fn put_char(output: &mut [u8], at: usize, code: u32) -> usize
    requires { code ≤ last_code }
    ensures { (result ≡ length (utf8_bytes code)) × (output.new ≡ stores output.old at (utf8_bytes code)) }
{
    let width = character::char_width(code);
    if fits(output, at, width) {
        return character::write_char(output, at, code);
    }
    width
}
