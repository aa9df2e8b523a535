// String literals: the text between the quotes, and the value.
ghost use Rattle.std.specs.Prelude.{◌≡◌, true, false, [], ◌∷◌, ℕ, ◌+◌, ◌-◌, ◌<◌, ◌≤◌, length};
ghost use Rattle.std.specs.Prelude.{Some, MatchOption};
ghost use Rattle.luck_text.specs.Bytes.{part};
ghost use Rattle.luck_output.specs.Output.{stores};
ghost use Rattle.luck_token.specs.Whitespace.{strip_line_break};
ghost use Rattle.luck_token.specs.Literal.{is_short, short_string_body, places_of, bracket_at, bracket_width, other_escape};
ghost use Rattle.luck_token.specs.Literal.{escape_kind, simple_escape, line_break_escape, hex_escape, decimal_escape};
ghost use Rattle.luck_token.specs.Literal.{allows_digits, allows_value, allows_code_point, unicode_escape, escape_piece_at};
ghost use Rattle.luck_token.specs.Literal.{long_piece, piece_at, value_of, literal_value};
ghost use Rattle.luck_token.specs.Decode.{with_room, decode_string, decoding_of, numbered, output_of};
ghost use Rattle.luck_token.specs.Inner.{IsPiece, size_of, plain, SizeWithin, Written};

use crate::text::TextError;
use crate::version::Rules;
use crate::{text, whitespace};
use luck_output::{character, output};
use luck_text::scan::{Byte, Class, HexDigit, Whitespace};
use luck_text::{blocks, scan};

// Where a part of a text starts and ends: as a `Range`, which is not `Copy`.
#[derive(Clone, Copy, Debug, PartialEq, Eq)]
pub struct Places {
    pub start: usize,
    pub end: usize,
}

#[tactic(auto, unfolding(crate::specs::Literal::is_short))]
fn is_short(raw: &[u8]) -> bool
    ensures { result ≡ is_short raw.now }
{
    if raw.len() < 2 {
        return false;
    }
    let first = raw[0];
    matches!(first, b'"' | b'\'') && raw[raw.len() - 1] == first
}

// Where the text between a quoted literal's quotes stands. Any other text has none.
pub fn short_string_body(raw: &[u8]) -> Option<Places>
    ensures { places_of result ≡ short_string_body raw.now }
{
    if is_short(raw) {
        return Some(Places {
            start: 1,
            end: raw.len() - 1,
        });
    }
    None
}

// What a backslash and the byte behind it begin.
#[derive(Clone, Copy, Debug, PartialEq, Eq)]
pub enum Escape {
    // one byte behind the backslash, for one byte: `\n`, `\"`
    Simple,
    LineBreak,
    // `\xXX`
    Hex,
    // `\z`
    Whitespace,
    // `\ddd`
    Decimal,
    // `\u{XXX}`
    Unicode,
    // 5.1 and Luau read any other escaped character as itself
    Itself,
}

// A piece of the text, its width, and what it stands for.
#[derive(Clone, Copy, Debug, PartialEq, Eq)]
pub enum Piece {
    // the byte behind the backslash: what it stands for is looked up where it is written, so that a reading that only
    // measures does not branch on it
    Simple(u8),
    Byte { value: u8, width: usize },
    // a code point that the version allows; in 5.4 and 5.5 it need not be that of a character
    Character { code: u32, width: usize },
    Nothing { width: usize },
}

// An escape that the version does not define.
fn other_escape(rules: Rules) -> Option<Escape>
    ensures { result ≡ other_escape rules }
{
    if rules.strict_escapes {
        return None;
    }
    Some(Escape::Itself)
}

// What the byte after a backslash begins, if the version defines it.
fn escape_of(byte: u8, rules: Rules) -> Option<Escape>
    ensures { result ≡ escape_kind rules byte }
{
    match byte {
        b'a' | b'b' | b'f' | b'n' | b'r' | b't' | b'v' | b'\\' | b'"' | b'\'' => Some(
            Escape::Simple,
        ),
        b'\n' | b'\r' => Some(Escape::LineBreak),
        b'0'..=b'9' => Some(Escape::Decimal),
        b'x' if rules.hex_escape => Some(Escape::Hex),
        b'z' if rules.hex_escape => Some(Escape::Whitespace),
        b'u' if rules.unicode_escape => Some(Escape::Unicode),
        _ => other_escape(rules),
    }
}

// What a simple escape stands for, by the byte behind the backslash. A backslash or a quote is itself.
fn simple_escape(byte: u8) -> u8
    ensures { result ≡ simple_escape byte }
{
    match byte {
        b'a' => 0x07,
        b'b' => 0x08,
        b'f' => 0x0C,
        b'n' => b'\n',
        b'r' => b'\r',
        b't' => b'\t',
        b'v' => 0x0B,
        _ => byte,
    }
}

// Whether the version allows that many digits.
#[tactic(auto, unfolding(crate::specs::Literal::allows_digits))]
fn allows_digits(rules: Rules, count: usize) -> bool
    ensures { result ≡ allows_digits rules count }
{
    1 <= count && (!rules.unicode_escape_digit_limit || count <= 16)
}

// Whether `\u{}` has this value in the version: 5.4 and 5.5 take each code point of the original UTF-8, the others
// characters only.
fn allows_value(rules: Rules, value: u32) -> bool
    ensures { result ≡ allows_value rules value }
{
    if rules.extended_unicode_escape {
        return value <= 0x7FFF_FFFF;
    }
    character::is_char(value)
}

#[tactic(auto, unfolding(crate::specs::Literal::allows_code_point))]
fn allows_code_point(rules: Rules, count: usize, value: u32) -> bool
    ensures { result ≡ allows_code_point rules count value }
{
    allows_digits(rules, count) && allows_value(rules, value)
}

// Writes what a simple escape stands for at `at`, where it fits.
fn put_simple(output: &mut [u8], at: usize, byte: u8)
    ensures { output.new ≡ stores output.old at (simple_escape byte ∷ []) }
{
    if at < output.len() {
        output[at] = simple_escape(byte);
    }
}

// Why a literal was not decoded. The output is then untouched.
#[derive(Clone, Copy, Debug, PartialEq, Eq)]
pub enum DecodeError {
    Text(TextError),
    Undecodable,
    OutputTooShort,
}

impl From<TextError> for DecodeError {
    ghost use Rattle.luck_token.specs.declared.string.DecodeError.TheVariants as error;

    ghost from_gives = { λ text e. e ≡ error.Text text };

    fn from(text: TextError) -> Self {
        DecodeError::Text(text)
    }
}

// The text between a literal's quotes or brackets, and how it is read.
#[derive(Clone, Copy)]
struct Body<'a> {
    text: &'a [u8],
    // between brackets
    long: bool,
    rules: Rules,
}

impl<'a> Body<'a> {
    // `\` and a line break. A lone CR counts here in Luau too.
    fn line_break_escape(&self, at: usize) -> Piece
        requires { at + 1 < length self.now.text.now }
        ensures { IsPiece (line_break_escape self.now.rules.lfcr_line_break self.now.text.now at) self.now.text.now at (Some result) }
    {
        let width = whitespace::line_break(self.text, at + 1, self.rules.lfcr_line_break);
        Piece::Byte {
            value: b'\n',
            width: 1 + width.max(1),
        }
    }

    // Exactly two hexadecimal digits.
    fn hex_escape(&self, at: usize) -> Option<Piece>
        requires { at + 1 < length self.now.text.now }
        ensures { IsPiece (hex_escape self.now.text.now at) self.now.text.now at result }
    {
        if self.text.len() - at < 4 {
            return None;
        }
        let high = self.text[at + 2];
        let low = self.text[at + 3];
        if !HexDigit.has(high) {
            return None;
        }
        if !HexDigit.has(low) {
            return None;
        }
        Some(Piece::Byte {
            value: scan::hex_value(high) * 16 + scan::hex_value(low),
            width: 4,
        })
    }

    // One to three decimal digits, at most 255.
    fn decimal_escape(&self, at: usize) -> Option<Piece>
        requires { at + 1 < length self.now.text.now }
        ensures { IsPiece (decimal_escape self.now.text.now at) self.now.text.now at result }
    {
        let digits = scan::digits(self.text, at + 1, 3);
        let Ok(value) = u8::try_from(digits.value) else {
            return None;
        };
        Some(Piece::Byte {
            value,
            width: 1 + digits.count,
        })
    }

    // Hexadecimal digits in braces, as many and of such a value as the version allows.
    fn unicode_escape(&self, at: usize) -> Option<Piece>
        requires { at + 1 < length self.now.text.now }
        ensures { IsPiece (unicode_escape self.now.rules self.now.text.now at) self.now.text.now at result }
    {
        if scan::byte_at(self.text, at + 2) != b'{' {
            return None;
        }
        let digits = scan::hex_digits(self.text, at + 3);
        if scan::byte_at(self.text, at + 3 + digits.count) != b'}' {
            return None;
        }
        if !allows_code_point(self.rules, digits.count, digits.value) {
            return None;
        }
        Some(Piece::Character {
            code: digits.value,
            width: digits.count + 4,
        })
    }

    // The escape whose backslash stands at `at`.
    fn escape_at(&self, at: usize) -> Option<Piece>
        requires { at < length self.now.text.now }
        ensures { IsPiece (escape_piece_at self.now.rules self.now.text.now at) self.now.text.now at result }
    {
        let next = at + 1;
        if self.text.len() <= next {
            return None;
        }
        let byte = self.text[next];
        let escape = escape_of(byte, self.rules)?;
        match escape {
            Escape::Simple => Some(Piece::Simple(byte)),
            Escape::LineBreak => Some(self.line_break_escape(at)),
            Escape::Hex => self.hex_escape(at),
            Escape::Whitespace => {
                let skipped = scan::run(self.text, at + 2, &Whitespace);
                Some(Piece::Nothing { width: 2 + skipped })
            }
            Escape::Decimal => self.decimal_escape(at),
            Escape::Unicode => self.unicode_escape(at),
            Escape::Itself => Some(Piece::Byte {
                value: byte,
                width: 2,
            }),
        }
    }

    // A line break of a long string is a newline, and any other byte itself.
    fn long_piece(&self, at: usize) -> Piece
        requires { at < length self.now.text.now }
        ensures { IsPiece (long_piece self.now.rules.lfcr_line_break self.now.text.now at) self.now.text.now at (Some result) }
    {
        let width = whitespace::line_break(self.text, at, self.rules.lfcr_line_break);
        if width == 0 {
            return Piece::Byte {
                value: self.text[at],
                width: 1,
            };
        }
        Piece::Byte {
            value: b'\n',
            width,
        }
    }

    // None where the escape at `at` is malformed.
    fn piece_at(&self, at: usize) -> Option<Piece>
        requires { at < length self.now.text.now }
        ensures { IsPiece (piece_at self.now.long self.now.rules self.now.text.now at) self.now.text.now at result }
    {
        if self.long {
            return Some(self.long_piece(at));
        }
        let value = self.text[at];
        if value == b'\\' {
            return self.escape_at(at);
        }
        Some(Piece::Byte { value, width: 1 })
    }

    // Whether the byte at `at` is a piece by itself in every version.
    fn is_plain(&self, at: usize) -> bool
        requires { at < length self.now.text.now }
        ensures { result ≡ plain self.now.long self.now.text.now at }
    {
        let byte = self.text[at];
        if !self.long {
            return byte != b'\\';
        }
        if byte == b'\n' {
            return scan::byte_at(self.text, at + 1) != b'\r';
        }
        byte != b'\r'
    }

    // The place behind the blocks that follow `at` and whose bytes are each a piece by itself. An LF at the end of the last
    // is left out, since it may be a break with a CR behind it.
    fn plain_blocks(&self, at: usize) -> usize
        requires { at ≤ length self.now.text.now }
        ensures { (at ≤ result) × (result ≤ length self.now.text.now) × ((k : ℕ) → at ≤ k → k < result → plain self.now.long self.now.text.now k ≡ true) }
    {
        if !self.long {
            return blocks::blocks_end(self.text, at, b'\\');
        }
        let end = blocks::blocks_end(self.text, at, b'\r');
        if at < end {
            if self.text[end - 1] == b'\n' {
                return end - 1;
            }
        }
        end
    }

    // Whether the text may have a byte that is no piece by itself. Each line break but a lone LF has a CR.
    fn has_special(&self) -> bool
        ensures { result ≡ false → (k : ℕ) → k < length self.now.text.now → plain self.now.long self.now.text.now k ≡ true }
    {
        if self.long {
            return blocks::has_byte(self.text, b'\r');
        }
        blocks::has_byte(self.text, b'\\')
    }

    // Answers how many bytes the value has, and writes it to the front of an output that has room for it. Blocks of plain
    // bytes are tried for behind every 16 pieces, and in a long string behind each CR, or LF before a CR, too: a line follows
    // it. A turn of the loop goes on by the width of a piece or of blocks, so `at` is no counted index.
    fn write(&self, output: &mut [u8]) -> Option<usize>
        ensures size { result ≡ size_of (value_of self.now.long self.now.rules self.now.text.now) }
        ensures within { SizeWithin result (length self.now.text.now) }
        ensures output { Written (value_of self.now.long self.now.rules self.now.text.now) output.old output.new }
    {
        // A copy, which no write to the output can change: through the reference its fields would be read again each turn.
        let body = *self;
        let mut at = 0;
        let mut size = 0;
        let mut singles: u32 = 0;
        while at < body.text.len() {
            if singles == 0 {
                singles = 16;
                let end = body.plain_blocks(at);
                output::put(&body.text[at..end], output, size);
                size += end - at;
                at = end;
                continue;
            }
            singles -= 1;
            if body.is_plain(at) {
                output::put_byte(output, size, body.text[at]);
                size += 1;
                at += 1;
                continue;
            }
            let piece = body.piece_at(at)?;
            if body.long {
                singles = 0;
            }
            match piece {
                Piece::Simple(byte) => {
                    put_simple(output, size, byte);
                    size += 1;
                    at += 2;
                }
                Piece::Byte { value, width } => {
                    output::put_byte(output, size, value);
                    size += 1;
                    at += width;
                }
                Piece::Character { code, width } => {
                    size += output::put_char(output, size, code);
                    at += width;
                }
                Piece::Nothing { width } => {
                    at += width;
                }
            }
        }
        Some(size)
    }

    // A text that has no other than plain bytes is its value.
    fn decode_plain(&self, output: &mut [u8]) -> Result<usize, DecodeError>
        ensures answer { numbered result ≡ decoding_of (with_room (length output.old) (Some self.now.text.now)) }
        ensures output { output.new ≡ output_of (with_room (length output.old) (Some self.now.text.now)) output.old }
    {
        if output.len() < self.text.len() {
            return Err(DecodeError::OutputTooShort);
        }
        output::copy(self.text, output, 0);
        Ok(self.text.len())
    }

    // A long string is never malformed: where the output has room for its text, it is read once.
    fn decode_long(&self, output: &mut [u8]) -> Result<usize, DecodeError>
        requires { (self.now.long ≡ true) × (length self.now.text.now ≤ length output.old) }
        ensures answer { numbered result ≡ decoding_of (with_room (length output.old) (value_of self.now.long self.now.rules self.now.text.now)) }
        ensures output { output.new ≡ output_of (with_room (length output.old) (value_of self.now.long self.now.rules self.now.text.now)) output.old }
    {
        let Some(n) = self.write(output) else {
            return Err(DecodeError::Undecodable);
        };
        Ok(n)
    }

    // A value of up to 64 bytes is read once, into a buffer. Any other is measured first: a refusal leaves the output
    // untouched.
    fn decode_pieces(&self, output: &mut [u8]) -> Result<usize, DecodeError>
        ensures answer { numbered result ≡ decoding_of (with_room (length output.old) (value_of self.now.long self.now.rules self.now.text.now)) }
        ensures output { output.new ≡ output_of (with_room (length output.old) (value_of self.now.long self.now.rules self.now.text.now)) output.old }
    {
        let mut buffer: [u8; 64] = [0; 64];
        let Some(n) = self.write(&mut buffer) else {
            return Err(DecodeError::Undecodable);
        };
        if output.len() < n {
            return Err(DecodeError::OutputTooShort);
        }
        if n <= 64 {
            output::copy(&buffer[..n], output, 0);
            return Ok(n);
        }
        self.write(output);
        Ok(n)
    }

    fn decode(&self, output: &mut [u8]) -> Result<usize, DecodeError>
        ensures answer { numbered result ≡ decoding_of (with_room (length output.old) (value_of self.now.long self.now.rules self.now.text.now)) }
        ensures output { output.new ≡ output_of (with_room (length output.old) (value_of self.now.long self.now.rules self.now.text.now)) output.old }
    {
        if !self.has_special() {
            return self.decode_plain(output);
        }
        if self.long {
            if self.text.len() <= output.len() {
                return self.decode_long(output);
            }
        }
        self.decode_pieces(output)
    }
}

// A long bracket of this level at `at`: the bracket byte, as many `=`, and the bracket byte again.
fn is_bracket(raw: &[u8], at: usize, level: usize, bracket: u8) -> bool
    requires { at + 1 + level < length raw.now }
    ensures { result ≡ bracket_at bracket level raw.now at }
{
    if raw[at] != bracket {
        return false;
    }
    if scan::run(raw, at + 1, &Byte(b'=')) != level {
        return false;
    }
    raw[at + 1 + level] == bracket
}

// How many bytes a long string's opening bracket has. Any other text has none.
fn bracket_width(raw: &[u8]) -> Option<usize>
    ensures { MatchOption result (bracket_width raw.now ≡ 0) (λ width. (width ≡ bracket_width raw.now) × (0 < width)) }
{
    let level = scan::run(raw, 1, &Byte(b'='));
    let len = raw.len();
    let width = level + 2;
    if len / 2 < width {
        return None;
    }
    if is_bracket(raw, 0, level, b'[') {
        if is_bracket(raw, len - width, level, b']') {
            return Some(width);
        }
    }
    None
}

// The text between a long string's brackets, of this width each, without the line break right after the opening one.
fn long_string_body(raw: &[u8], width: usize, lfcr: bool) -> &[u8]
    requires { width + width ≤ length raw.now }
    ensures { result.now ≡ strip_line_break lfcr (part raw.now width (length raw.now - width)) }
{
    let end = raw.len() - width;
    let content = &raw[width..end];
    let first = whitespace::line_break(content, 0, lfcr);
    &content[first..]
}

fn decode_literal(raw: &[u8], rules: Rules, output: &mut [u8]) -> Result<usize, DecodeError>
    ensures answer { numbered result ≡ decoding_of (with_room (length output.old) (literal_value rules raw.now)) }
    ensures output { output.new ≡ output_of (with_room (length output.old) (literal_value rules raw.now)) output.old }
{
    if is_short(raw) {
        let body = Body {
            text: &raw[1..raw.len() - 1],
            long: false,
            rules,
        };
        return body.decode(output);
    }
    let Some(width) = bracket_width(raw) else {
        return Err(DecodeError::Undecodable);
    };
    let body = Body {
        text: long_string_body(raw, width, rules.lfcr_line_break),
        long: true,
        rules,
    };
    body.decode(output)
}

// The value's length, with its bytes at the front of the output, or a refusal, with the output untouched.
pub fn decode_string(version: u32, raw: &[u8], output: &mut [u8]) -> Result<usize, DecodeError>
    ensures answer { numbered result ≡ decoding_of (decode_string version raw.now (length output.old)) }
    ensures output { output.new ≡ output_of (decode_string version raw.now (length output.old)) output.old }
{
    let rules = text::read_text(version, raw)?;
    decode_literal(raw, rules, output)
}
