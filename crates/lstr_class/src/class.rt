// The classes of a pattern, by a table: a mask for each byte, and the bits of the class that each byte names behind a `%`.
ghost use Rattle.std.specs.Prelude.{◌≡◌};
ghost use Rattle.lstr_class.specs.Class.{class_of};
ghost use Rattle.lstr_class.specs.Inner.{bits_in, class_in};

// A bit for each class from which the others are made: control 1, digit 2, lower 4, punctuation 8, space 16, upper 32, hexadecimal digit 64,
// the zero byte 128. The masks of the 256 bytes come first; then, for each of the 256 bytes, the bits of the class that it names, small or
// capital, 0 where it names none.
const CLASSES: [u8; 512] = [
    129, 1, 1, 1, 1, 1, 1, 1, 1, 17, 17, 17, 17, 17, 1, 1, 1, 1, 1, 1, 1, 1, 1, 1, 1, 1, 1, 1, 1,
    1, 1, 1, 16, 8, 8, 8, 8, 8, 8, 8, 8, 8, 8, 8, 8, 8, 8, 8, 66, 66, 66, 66, 66, 66, 66, 66, 66,
    66, 8, 8, 8, 8, 8, 8, 8, 96, 96, 96, 96, 96, 96, 32, 32, 32, 32, 32, 32, 32, 32, 32, 32, 32,
    32, 32, 32, 32, 32, 32, 32, 32, 32, 8, 8, 8, 8, 8, 8, 68, 68, 68, 68, 68, 68, 4, 4, 4, 4, 4, 4,
    4, 4, 4, 4, 4, 4, 4, 4, 4, 4, 4, 4, 4, 4, 8, 8, 8, 8, 1, 0, 0, 0, 0, 0, 0, 0, 0, 0, 0, 0, 0, 0,
    0, 0, 0, 0, 0, 0, 0, 0, 0, 0, 0, 0, 0, 0, 0, 0, 0, 0, 0, 0, 0, 0, 0, 0, 0, 0, 0, 0, 0, 0, 0, 0,
    0, 0, 0, 0, 0, 0, 0, 0, 0, 0, 0, 0, 0, 0, 0, 0, 0, 0, 0, 0, 0, 0, 0, 0, 0, 0, 0, 0, 0, 0, 0, 0,
    0, 0, 0, 0, 0, 0, 0, 0, 0, 0, 0, 0, 0, 0, 0, 0, 0, 0, 0, 0, 0, 0, 0, 0, 0, 0, 0, 0, 0, 0, 0, 0,
    0, 0, 0, 0, 0, 0, 0, 0, 0, 0, 0, 0, 0, 0, 0, 0, 0, 0, 0, 0, 0, 0, 0, 0, 0, 0, 0, 0, 0, 0, 0, 0,
    0, 0, 0, 0, 0, 0, 0, 0, 0, 0, 0, 0, 0, 0, 0, 0, 0, 0, 0, 0, 0, 0, 0, 0, 0, 0, 0, 0, 0, 0, 0, 0,
    0, 0, 0, 0, 0, 0, 0, 0, 0, 0, 0, 0, 0, 0, 0, 0, 0, 0, 0, 0, 36, 0, 1, 2, 0, 0, 46, 0, 0, 0, 0,
    4, 0, 0, 0, 8, 0, 0, 16, 0, 32, 0, 38, 64, 0, 128, 0, 0, 0, 0, 0, 0, 36, 0, 1, 2, 0, 0, 46, 0,
    0, 0, 0, 4, 0, 0, 0, 8, 0, 0, 16, 0, 32, 0, 38, 64, 0, 128, 0, 0, 0, 0, 0, 0, 0, 0, 0, 0, 0, 0,
    0, 0, 0, 0, 0, 0, 0, 0, 0, 0, 0, 0, 0, 0, 0, 0, 0, 0, 0, 0, 0, 0, 0, 0, 0, 0, 0, 0, 0, 0, 0, 0,
    0, 0, 0, 0, 0, 0, 0, 0, 0, 0, 0, 0, 0, 0, 0, 0, 0, 0, 0, 0, 0, 0, 0, 0, 0, 0, 0, 0, 0, 0, 0, 0,
    0, 0, 0, 0, 0, 0, 0, 0, 0, 0, 0, 0, 0, 0, 0, 0, 0, 0, 0, 0, 0, 0, 0, 0, 0, 0, 0, 0, 0, 0, 0, 0,
    0, 0, 0, 0, 0, 0, 0, 0, 0, 0, 0, 0, 0, 0, 0, 0, 0, 0, 0, 0, 0, 0, 0, 0, 0,
];

// The table of a version's classes, to be copied once and lent: a constant is built anew at each read.
pub fn classes(version: u32) -> [u8; 512]
    ensures { class_in result ≡ class_of version }
{
    CLASSES
}

// The bits of the class that a byte names.
pub fn class_bits(classes: &[u8; 512], class: u8) -> u8
    ensures { result ≡ bits_in classes.now class }
{
    classes[256 + class as usize]
}

// Whether a byte fits `%` and the byte `class`, whose bits were found before. A capital is the complement.
pub fn match_bits(classes: &[u8; 512], class: u8, bits: u8, byte: u8) -> bool
    requires { bits ≡ bits_in classes.now class }
    ensures { result ≡ class_in classes.now class byte }
{
    if bits == 0 {
        return class == byte;
    }
    let mask = classes[byte as usize];
    if class < b'a' {
        return mask & bits == 0;
    }
    mask & bits != 0
}

// match_class: whether a byte fits `%` and the byte `class`.
pub fn match_class(classes: &[u8; 512], class: u8, byte: u8) -> bool
    ensures { result ≡ class_in classes.now class byte }
{
    let bits = class_bits(classes, class);
    match_bits(classes, class, bits, byte)
}
