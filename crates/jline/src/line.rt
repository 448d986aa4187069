//! One line of what the program prints, in a buffer of fixed size that takes no memory.

ghost use Rattle.std.specs.Prelude.{◌≡◌, ◌+◌, ◌*◌, ◌^◌, ◌<◌, ◌≤◌, ◌++◌, ◌∷◌, [], length, decimal};
ghost use Rattle.jline.specs.Words.{hex, hex_digit, hex_escape, octal, escaped, escaped_byte, in_line_byte, spelled, spelled_byte, word_byte};

use crate::spelling::Spelling;
use arrayvec::ArrayVec;
use itoa::Buffer;
use jnode::Part;
use std::marker::Model;

/// The most bytes of a line: an entry's with a name of 255 bytes, each of them escaped, takes
/// 1,168.
pub const MAX_LINE: usize = 1200;

/// A line as far as it is written. Contracts see its bytes.
#[derive(Drop)]
pub struct LineBuffer {
    bytes: ArrayVec<u8, MAX_LINE>,
}

impl Model for LineBuffer {
    ghost use Rattle.std.specs.Prelude.{List, ℕ};

    ghost Value = { List ℕ };

    ghost view = { λ line. line.bytes.items };
}

/// A lower-case hexadecimal digit.
fn digit(value: u8) -> u8
    requires { value < 16 }
    ensures { result ≡ hex_digit value }
{
    if value < 10 {
        b'0' + value
    } else {
        b'a' - 10 + value
    }
}

impl LineBuffer {
    pub fn new() -> LineBuffer
        ensures { result ≡ [] }
    {
        LineBuffer {
            bytes: ArrayVec::new(),
        }
    }

    pub fn clear(&mut self)
        ensures { self.new ≡ [] }
    {
        self.bytes.clear();
    }

    pub fn as_slice(&self) -> &[u8]
        ensures { result.now ≡ self.now }
    {
        self.bytes.as_slice()
    }

    pub fn push(&mut self, byte: u8)
        requires { length self.old < MAX_LINE }
        ensures { self.new ≡ self.old ++ byte ∷ [] }
    {
        self.bytes.push(byte);
    }

    pub fn push_text(&mut self, text: &[u8])
        requires { length self.old + length text.now ≤ MAX_LINE }
        ensures { self.new ≡ self.old ++ text.now }
    {
        self.bytes.try_extend_from_slice(text).unwrap();
    }

    /// A number in decimal digits.
    pub fn push_decimal(&mut self, n: u64)
        requires { length self.old + 20 ≤ MAX_LINE }
        ensures text { self.new ≡ self.old ++ decimal n }
        ensures grows { length self.new ≤ length self.old + 20 }
    {
        let mut buffer = Buffer::new();
        self.push_text(buffer.format(n).as_bytes());
    }

    /// The last `digits` hexadecimal digits of a number.
    #[tactic(auto, using(crate::proofs::WordLemmas::hex_more, crate::proofs::WordLemmas::hex_none, std::proofs::Common::append_assoc))]
    pub fn push_hex(&mut self, digits: usize, n: u64)
        requires { length self.old + digits ≤ MAX_LINE }
        ensures text { self.new ≡ self.old ++ hex digits n }
        ensures grows { length self.new ≡ length self.old + digits }
    {
        if digits > 0 {
            self.push_hex(digits - 1, n / 16);
            self.push(digit((n % 16) as u8));
        }
    }

    /// The octal digits of a number, the highest first.
    #[tactic(auto, using(crate::proofs::WordLemmas::octal_one_digit, crate::proofs::WordLemmas::octal_more, crate::proofs::WordLemmas::length_octal_more, std::proofs::Common::append_assoc))]
    fn push_octal_digits(&mut self, n: u32)
        requires { length self.old + length (octal n) ≤ MAX_LINE }
        ensures { self.new ≡ self.old ++ octal n }
    {
        if n >= 8 {
            self.push_octal_digits(n / 8);
        }
        self.push(digit((n % 8) as u8));
    }

    /// A number in octal digits, with no zero in front.
    #[tactic(auto, using(crate::proofs::WordLemmas::octal_is_short))]
    pub fn push_octal(&mut self, n: u32)
        requires { length self.old + 11 ≤ MAX_LINE }
        ensures text { self.new ≡ self.old ++ octal n }
        ensures grows { length self.new ≤ length self.old + 11 }
    {
        self.push_octal_digits(n);
    }

    /// `\x` and the two hexadecimal digits of a byte.
    fn push_hex_escape(&mut self, byte: u8)
        requires { length self.old + 4 ≤ MAX_LINE }
        ensures text { self.new ≡ self.old ++ hex_escape byte }
        ensures grows { length self.new ≡ length self.old + 4 }
    {
        self.push_text(&[b'\\', b'x', digit(byte / 16), digit(byte % 16)]);
    }

    fn push_escaped_byte(&mut self, byte: u8)
        requires { length self.old + 4 ≤ MAX_LINE }
        ensures text { self.new ≡ self.old ++ escaped_byte byte }
        ensures grows { length self.new ≤ length self.old + 4 }
    {
        if byte >= 0x21 && byte <= 0x7E && byte != b'\\' && byte != b'/' {
            self.push(byte);
        } else {
            self.push_hex_escape(byte);
        }
    }

    fn push_in_line_byte(&mut self, byte: u8)
        requires { length self.old + 4 ≤ MAX_LINE }
        ensures text { self.new ≡ self.old ++ in_line_byte byte }
        ensures grows { length self.new ≤ length self.old + 4 }
    {
        if byte < 0x20 || byte == 0x7F {
            self.push_hex_escape(byte);
        } else {
            self.push(byte);
        }
    }

    /// A byte of a path or a target.
    fn push_word_byte(&mut self, byte: u8)
        requires { length self.old + 4 ≤ MAX_LINE }
        ensures text { self.new ≡ self.old ++ word_byte byte }
        ensures grows { length self.new ≤ length self.old + 4 }
    {
        if byte == b'/' {
            self.push(byte);
        } else {
            self.push_escaped_byte(byte);
        }
    }

    fn push_spelled_byte(&mut self, spelling: Spelling, byte: u8)
        requires { length self.old + 4 ≤ MAX_LINE }
        ensures text { self.new ≡ self.old ++ spelled_byte spelling byte }
        ensures grows { length self.new ≤ length self.old + 4 }
    {
        match spelling {
            Spelling::Escaped => self.push_escaped_byte(byte),
            Spelling::InLine => self.push_in_line_byte(byte),
            Spelling::Word => self.push_word_byte(byte),
        }
    }

    /// A text in a spelling.
    pub(crate) fn push_spelled(&mut self, spelling: Spelling, text: &Part<'_>)
        requires { length self.old + 4 * length text.now ≤ MAX_LINE }
        ensures text { self.new ≡ self.old ++ spelled spelling text.now }
        ensures grows { length self.new ≤ length self.old + 4 * length text.now }
    {
        for byte in text.iter() {
            self.push_spelled_byte(spelling, byte);
        }
    }

    /// A name, each byte that is not plain as `\x` and two hexadecimal digits.
    pub fn push_escaped(&mut self, name: &Part<'_>)
        requires { length self.old + 4 * length name.now ≤ MAX_LINE }
        ensures text { self.new ≡ self.old ++ escaped name.now }
        ensures grows { length self.new ≤ length self.old + 4 * length name.now }
    {
        self.push_spelled(Spelling::Escaped, name);
    }
}
