// A buffer that is read into again: what is not taken yet moves to its front.
ghost use Rattle.std.specs.Prelude.{◌≡◌, ◌≤◌, length};
ghost use Rattle.luck_text.specs.Bytes.{part, in_front};

// Moves the bytes from `at` to `end` to the front, and answers how many there are.
pub fn keep(buffer: &mut [u8], at: usize, end: usize) -> usize
    ensures count { result ≡ length (part buffer.old at end) }
    ensures buffer { buffer.new ≡ in_front (part buffer.old at end) buffer.old }
    ensures within { result ≤ length buffer.new }
{
    let stop = end.min(buffer.len());
    if stop <= at {
        return 0;
    }
    buffer.copy_within(at..stop, 0);
    stop - at
}
