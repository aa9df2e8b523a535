// Code points: which of them have a character, as RFC 3629 says, and their bytes, as RFC 2279 has them.
ghost use Rattle.std.specs.Prelude.{◌≡◌, [], ◌+◌, ◌/◌, ◌%◌, ◌<◌, ◌≤◌, length};
ghost use Rattle.std.proofs.lemmas.List.Edits.{sets};
ghost use Rattle.luck_utf8.specs.Utf8.{is_char, last_code, six_bits, utf8_bytes};

// How many bytes a code point has: 7F is the last of one byte, 7FF of two, and so on up to 3FFFFFF, the last of five.
pub fn char_width(code: u32) -> usize
    requires { code ≤ last_code }
    ensures { result ≡ length (utf8_bytes code) }
{
    if code <= 0x7F {
        return 1;
    }
    if code <= 0x7FF {
        return 2;
    }
    if code <= 0xFFFF {
        return 3;
    }
    if code <= 0x1F_FFFF {
        return 4;
    }
    if code <= 0x3FF_FFFF {
        return 5;
    }
    6
}

// Whether a character has this code point: no surrogate, and at most 10FFFF.
pub fn is_char(code: u32) -> bool
    ensures { result ≡ is_char code }
{
    if code < 0xD800 {
        return true;
    }
    if code < 0xE000 {
        return false;
    }
    code <= 0x10_FFFF
}

// A byte after the first, of the lowest six bits.
fn tail_byte(bits: u32) -> u8
    ensures { result ≡ 0x80 + bits % 0x40 }
{
    (0x80 + bits % 0x40) as u8
}

// Writes the bits to four bytes at `at`: the first is marked and has the highest, and each other has six.
fn write_four(output: &mut [u8], at: usize, mark: u32, bits: u32)
    requires { (mark + bits / 0x40000 < 0x100) × (at + 4 ≤ length output.old) }
    ensures { output.new ≡ sets output.old at (six_bits mark 3 bits []) }
{
    output[at] = (mark + bits / 0x40000) as u8;
    output[at + 1] = tail_byte(bits / 0x1000);
    output[at + 2] = tail_byte(bits / 0x40);
    output[at + 3] = tail_byte(bits);
}

// Writes the five or six bytes of a code point above 1FFFFF at `at`, and says how many they are.
fn write_five_or_six(output: &mut [u8], at: usize, code: u32) -> usize
    requires { (0x20_0000 ≤ code) × (code ≤ last_code) × (at + length (utf8_bytes code) ≤ length output.old) }
    ensures { (result ≡ length (utf8_bytes code)) × (output.new ≡ sets output.old at (utf8_bytes code)) }
{
    if code < 0x400_0000 {
        write_four(output, at, 0xF8, code / 0x40);
        output[at + 4] = tail_byte(code);
        return 5;
    }
    write_four(output, at, 0xFC, code / 0x1000);
    output[at + 4] = tail_byte(code / 0x40);
    output[at + 5] = tail_byte(code);
    6
}

// Writes the bytes of a code point at `at`, and says how many they are.
pub fn write_char(output: &mut [u8], at: usize, code: u32) -> usize
    requires { (code ≤ last_code) × (at + length (utf8_bytes code) ≤ length output.old) }
    ensures { (result ≡ length (utf8_bytes code)) × (output.new ≡ sets output.old at (utf8_bytes code)) }
{
    if code < 0x80 {
        output[at] = code as u8;
        return 1;
    }
    if code < 0x800 {
        output[at] = (0xC0 + code / 0x40) as u8;
        output[at + 1] = tail_byte(code);
        return 2;
    }
    if code < 0x10000 {
        output[at] = (0xE0 + code / 0x1000) as u8;
        output[at + 1] = tail_byte(code / 0x40);
        output[at + 2] = tail_byte(code);
        return 3;
    }
    if code < 0x20_0000 {
        write_four(output, at, 0xF0, code);
        return 4;
    }
    write_five_or_six(output, at, code)
}
