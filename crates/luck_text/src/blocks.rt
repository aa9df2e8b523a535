// Long runs without a given byte, as between two line breaks or escapes: they are passed over by blocks. The contracts
// say what callers go by: that this byte is not passed over. How much is passed over is a matter of speed alone.
ghost use Rattle.std.specs.Prelude.{◌≡◌, false, ℕ, ◌<◌, ◌≤◌, length};
ghost use Rattle.luck_text.specs.Bytes.{byte_at};

use crate::scan::{Byte, Class};

// A class whose bytes are sought in a whole block, many at once.
pub trait Sought: Class {
    fn is_in(&self, block: &[u8]) -> bool
        ensures { result ≡ false → (k : ℕ) → k < length block.now → Self.holds self.now (byte_at block.now k) ≡ false };
}

impl Sought for Byte {
    // Every byte is looked at, with no way out of the loop, so that the compiler can test many at once: the library's
    // `contains`, which can stop early, was measured to take near four times as long over blocks of 16.
    fn is_in(&self, block: &[u8]) -> bool {
        let mut found = false;
        for &byte in block {
            if byte == self.0 {
                found = true;
            }
        }
        found
    }
}

// Whether a block has the byte.
pub fn has_byte(block: &[u8], byte: u8) -> bool
    ensures { result ≡ false → (k : ℕ) → k < length block.now → byte_at block.now k ≡ byte → ⊥ }
{
    block.contains(&byte)
}

// The place behind the blocks of `SIZE` bytes that follow `at` and have no byte of the class.
pub fn blocks_without<const SIZE: usize, C: Sought>(text: &[u8], at: usize, class: &C) -> usize
    requires size { 0 < SIZE }
    requires place { at ≤ length text.now }
    ensures after { at ≤ result }
    ensures within { result ≤ length text.now }
    ensures without { (k : ℕ) → at ≤ k → k < result → C.holds class.now (byte_at text.now k) ≡ false }
{
    let mut end = at;
    for block in text[at..].chunks_exact(SIZE) {
        if class.is_in(block) {
            break;
        }
        end += SIZE;
    }
    end
}

// The place behind the blocks of 16 bytes that follow `at` and do not have the byte.
pub fn blocks_end(text: &[u8], at: usize, byte: u8) -> usize
    requires { at ≤ length text.now }
    ensures { (at ≤ result) × (result ≤ length text.now) × ((k : ℕ) → at ≤ k → k < result → byte_at text.now k ≡ byte → ⊥) }
{
    blocks_without::<16, Byte>(text, at, &Byte(byte))
}
