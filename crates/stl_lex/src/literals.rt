//! What a run with `#` inside says: its prefix, by a table, and the value behind it.
ghost use Rattle.std.specs.Prelude.{◌≡◌, ◌<◌, ◌≤◌};
ghost use Rattle.stl_lex.specs.Literals.{ranged, numeral_form, duration_form, unsigned, farthest, value_form, literal_of, literal_form};

use crate::bytes::{after, begins, byte_at, is_plus_or_minus, letters_of};
use crate::durations::{TimeUnit, is_duration, milliseconds, time_units, timer_units};
use crate::fault::TokenFault;
use crate::numerals::{CEILING, digit_count, is_numeral, value_of};
use crate::piece::{Form, TokenKind};

/// What may stand behind a literal's prefix.
#[derive(Clone, Copy, Debug, PartialEq, Eq)]
pub enum LiteralValue {
    /// A decimal number of 32 bits, with or without a sign.
    Integer,
    /// A hexadecimal number up to this one.
    Hexadecimal(u32),
    /// A decimal number up to 999.
    Counter,
    /// 1 to 32 binary digits.
    Bits,
    /// A duration whose milliseconds fit 32 bits, with or without a sign.
    Time,
    /// A duration without days, up to 9,990 seconds.
    TimerStart,
    /// Anything.
    Pointer,
}

/// A literal's prefix, filled up with zeros, and what stands behind it.
#[derive(Clone, Copy, Debug, PartialEq, Eq)]
pub struct Literal {
    pub prefix: [u8; 9],
    pub value: LiteralValue,
}

const LITERALS: [Literal; 14] = [
    Literal {
        prefix: *b"L#\0\0\0\0\0\0\0",
        value: LiteralValue::Integer,
    },
    Literal {
        prefix: *b"B#16#\0\0\0\0",
        value: LiteralValue::Hexadecimal(0xFF),
    },
    Literal {
        prefix: *b"BYTE#16#\0",
        value: LiteralValue::Hexadecimal(0xFF),
    },
    Literal {
        prefix: *b"W#16#\0\0\0\0",
        value: LiteralValue::Hexadecimal(0xFFFF),
    },
    Literal {
        prefix: *b"WORD#16#\0",
        value: LiteralValue::Hexadecimal(0xFFFF),
    },
    Literal {
        prefix: *b"DW#16#\0\0\0",
        value: LiteralValue::Hexadecimal(0xFFFF_FFFF),
    },
    Literal {
        prefix: *b"DWORD#16#",
        value: LiteralValue::Hexadecimal(0xFFFF_FFFF),
    },
    Literal {
        prefix: *b"2#\0\0\0\0\0\0\0",
        value: LiteralValue::Bits,
    },
    Literal {
        prefix: *b"C#\0\0\0\0\0\0\0",
        value: LiteralValue::Counter,
    },
    Literal {
        prefix: *b"S5T#\0\0\0\0\0",
        value: LiteralValue::TimerStart,
    },
    Literal {
        prefix: *b"S5TIME#\0\0",
        value: LiteralValue::TimerStart,
    },
    Literal {
        prefix: *b"T#\0\0\0\0\0\0\0",
        value: LiteralValue::Time,
    },
    Literal {
        prefix: *b"TIME#\0\0\0\0",
        value: LiteralValue::Time,
    },
    Literal {
        prefix: *b"P#\0\0\0\0\0\0\0",
        value: LiteralValue::Pointer,
    },
];

/// A token, where the value is within its type.
fn ranged(kind: TokenKind, most: u64, value: u64) -> Form
    ensures { result ≡ ranged kind most value }
{
    if value <= most {
        Form::Lexeme(kind)
    } else {
        Form::Bad(TokenFault::OutOfRange)
    }
}

/// A number in digits of the base, up to a greatest one.
#[tactic(auto, using(crate::proofs::Ceiling::cut_range))]
pub fn numeral_form(kind: TokenKind, base: u8, most: u64, digits: &[u8]) -> Form
    requires base { 0 < base }
    requires most { most < CEILING }
    ensures { result ≡ numeral_form kind base most digits.now }
{
    if is_numeral(base, digits) {
        ranged(kind, most, value_of(base, digits))
    } else {
        Form::Bad(TokenFault::BadNumber)
    }
}

/// A duration in these units, up to a greatest number of milliseconds.
#[tactic(auto, using(crate::proofs::Ceiling::cut_range), unfolding(crate::specs::Literals::duration_form))]
fn duration_form(units: &[TimeUnit], most: u64, bytes: &[u8]) -> Form
    requires { most < CEILING }
    ensures { result ≡ duration_form units.now most bytes.now }
{
    if is_duration(units, bytes) {
        ranged(TokenKind::Literal, most, milliseconds(units, bytes))
    } else {
        Form::Bad(TokenFault::BadNumber)
    }
}

/// The bytes without the sign, where one stands there.
pub fn unsigned(bytes: &[u8]) -> &[u8]
    ensures { result.now ≡ unsigned bytes.now }
{
    if is_plus_or_minus(byte_at(bytes, 0)) {
        after(1, bytes)
    } else {
        bytes
    }
}

/// How far from 0 a number of 32 bits may be with this sign.
fn farthest(bytes: &[u8]) -> u64
    ensures exact { result ≡ farthest bytes.now }
    ensures within { result < CEILING }
{
    if byte_at(bytes, 0) == b'-' {
        2_147_483_648
    } else {
        2_147_483_647
    }
}

fn bits_form(digits: &[u8]) -> Form
    ensures { result ≡ value_form LiteralValue.Bits digits.now }
{
    if is_numeral(2, digits) && digit_count(digits) <= 32 {
        Form::Lexeme(TokenKind::Literal)
    } else {
        Form::Bad(TokenFault::BadNumber)
    }
}

/// What stands behind a prefix.
fn value_form(value: LiteralValue, bytes: &[u8]) -> Form
    ensures { result ≡ value_form value bytes.now }
{
    match value {
        LiteralValue::Integer => {
            numeral_form(TokenKind::Literal, 10, farthest(bytes), unsigned(bytes))
        }
        LiteralValue::Hexadecimal(most) => {
            numeral_form(TokenKind::Literal, 16, most as u64, bytes)
        }
        LiteralValue::Counter => numeral_form(TokenKind::Literal, 10, 999, bytes),
        LiteralValue::Bits => bits_form(bytes),
        LiteralValue::Time => { duration_form(time_units(), farthest(bytes), unsigned(bytes)) }
        LiteralValue::TimerStart => duration_form(timer_units(), 9_990_000, bytes),
        LiteralValue::Pointer => Form::Lexeme(TokenKind::Literal),
    }
}

/// The row of the table with whose prefix a run begins.
#[tactic(auto, unfolding(crate::specs::Literals::literal_of))]
pub fn literal_of(run: &[u8]) -> Option<Literal>
    ensures { result ≡ literal_of run.now }
{
    LITERALS
        .iter()
        .copied()
        .find(|row| begins(letters_of(row.prefix.as_slice()), run))
}

/// What a run with `#` inside is.
pub fn literal_form(run: &[u8]) -> Form
    ensures { result ≡ literal_form run.now }
{
    match literal_of(run) {
        Some(row) => value_form(
            row.value,
            after(letters_of(row.prefix.as_slice()).len(), run),
        ),
        None => Form::Bad(TokenFault::BadNumber),
    }
}
