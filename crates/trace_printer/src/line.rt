//! A line that is being built, in a buffer of fixed size.
ghost use Rattle.std.specs.Prelude.{◌≡◌, ℕ, ◌+◌, ◌*◌, ◌≤◌, ◌<◌, ◌∷◌, [], ◌++◌, List, length};
ghost use Rattle.std.specs.Fmt.{decimal};
ghost use Rattle.trace_text.specs.Image.{image, image_room, cell, next_cell, hex_digit, hex_byte, hex};

use arrayvec::ArrayVec;
use std::marker::Model;

/// How many bytes a line may have.
pub const LINE_ROOM: usize = 65536;

/// The bytes of a line so far, at most `LINE_ROOM`. No call takes memory.
#[derive(Drop)]
pub struct Line {
    bytes: ArrayVec<u8, LINE_ROOM>,
}

impl Model for Line {
    ghost Value = { List ℕ };

    ghost view = { λ line. line.bytes.items };
}

/// The upper-case digit.
fn hex_digit_of(digit: u8) -> u8
    requires { digit < 16 }
    ensures { result ≡ hex_digit digit }
{
    if digit < 10 {
        b'0' + digit
    } else {
        b'A' - 10 + digit
    }
}

impl Line {
    /// An empty line.
    pub fn new() -> Line
        ensures { result ≡ [] }
    {
        Line {
            bytes: ArrayVec::new(),
        }
    }

    /// Empties the line for the next one.
    pub fn clear(&mut self)
        ensures { self.new ≡ [] }
    {
        self.bytes.clear();
    }

    /// The bytes so far.
    pub fn as_slice(&self) -> &[u8]
        ensures { result.now ≡ self.now }
    {
        self.bytes.as_slice()
    }

    /// Adds one byte.
    pub fn push(&mut self, byte: u8)
        requires { length self.old < LINE_ROOM }
        ensures text { self.new ≡ self.old ++ byte ∷ [] }
        ensures length { length self.new ≡ length self.old + 1 }
    {
        self.bytes.push(byte);
    }

    /// Adds a text.
    pub fn push_text(&mut self, text: &[u8])
        requires { length self.old + length text.now ≤ LINE_ROOM }
        ensures text { self.new ≡ self.old ++ text.now }
        ensures length { length self.new ≡ length self.old + length text.now }
    {
        let Ok(()) = self.bytes.try_extend_from_slice(text) else {
            unreachable!();
        };
    }

    /// Begins the line anew with a text.
    pub fn put_text(&mut self, text: &[u8])
        requires { length text.now ≤ LINE_ROOM }
        ensures text { self.new ≡ text.now }
        ensures length { length self.new ≡ length text.now }
    {
        self.clear();
        self.push_text(text);
    }

    /// Adds a number, without leading zeros.
    #[tactic(auto, using(crate::proofs::Digits::one_digit, crate::proofs::Digits::more_digits, crate::proofs::Digits::count_more, std::proofs::Common::append_assoc))]
    pub fn push_decimal(&mut self, n: u64)
        requires { length self.old + length (decimal n) ≤ LINE_ROOM }
        ensures text { self.new ≡ self.old ++ decimal n }
        ensures length { length self.new ≡ length self.old + length (decimal n) }
    {
        if n < 10 {
            self.push(b'0' + n as u8);
            return;
        }
        self.push_decimal(n / 10);
        self.push(b'0' + (n % 10) as u8);
    }

    /// Adds a byte as two hexadecimal digits.
    pub fn push_hex_byte(&mut self, byte: u8)
        requires { length self.old + 2 ≤ LINE_ROOM }
        ensures text { self.new ≡ self.old ++ hex_byte byte }
        ensures length { length self.new ≡ length self.old + 2 }
    {
        self.push(hex_digit_of(byte / 16));
        self.push(hex_digit_of(byte % 16));
    }

    /// Adds a value of so many bytes, as two hexadecimal digits a byte.
    #[tactic(auto, using(crate::proofs::Digits::no_byte, crate::proofs::Digits::more_bytes, std::proofs::Common::append_assoc))]
    pub fn push_hex(&mut self, width: u8, value: u32)
        requires { length self.old + 2 * width ≤ LINE_ROOM }
        ensures text { self.new ≡ self.old ++ hex width value }
        ensures length { length self.new ≡ length self.old + 2 * width }
    {
        if width == 0 {
            return;
        }
        self.push_hex(width - 1, value / 256);
        self.push_hex_byte((value % 256) as u8);
    }

    /// Adds an address and the byte there. An address has at most four digits.
    #[tactic(auto, using(crate::proofs::Digits::four_digits, crate::proofs::Digits::three_digits))]
    fn push_first_cell(&mut self, at: usize, byte: u8)
        requires address { at < 10000 }
        requires room { length self.old + 7 ≤ LINE_ROOM }
        ensures text { self.new ≡ self.old ++ cell at byte }
        ensures length { length self.new ≤ length self.old + 7 }
        ensures short { at < 1000 → length self.new ≤ length self.old + 6 }
    {
        self.push_decimal(at as u64);
        self.push(b':');
        self.push_hex_byte(byte);
    }

    /// Adds the next cell of an image, behind a comma where it is not the first. An address has at most four
    /// digits.
    pub fn push_cell(&mut self, is_first: bool, at: usize, byte: u8)
        requires address { at < 10000 }
        requires room { length self.old + 8 ≤ LINE_ROOM }
        ensures text { self.new ≡ self.old ++ next_cell is_first at byte }
        ensures length { length self.new ≤ length self.old + 8 }
        ensures short { at < 1000 → length self.new ≤ length self.old + 7 }
    {
        if is_first {
            self.push_first_cell(at, byte);
            return;
        }
        self.push(b',');
        self.push_first_cell(at, byte);
    }

    /// Adds an image whose addresses have at most four digits.
    pub fn push_image(&mut self, bytes: &[u8])
        requires few { length bytes.now < 10000 }
        requires room { length self.old + image_room (length bytes.now) ≤ LINE_ROOM }
        ensures text { self.new ≡ self.old ++ image bytes.now }
        ensures length { length self.new ≤ length self.old + image_room (length bytes.now) }
    {
        let mut is_first = true;
        for (at, byte) in bytes.iter().enumerate() {
            if *byte != 0 {
                self.push_cell(is_first, at, *byte);
                is_first = false;
            }
        }
        if is_first {
            self.push(b'-');
        }
    }
}
