//! Digits of a base, between which one `_` at a time may stand.
ghost use Rattle.std.specs.Prelude.{◌≡◌, ◌<◌, ◌≤◌, ◌^◌, min, length};
ghost use Rattle.stl_lex.specs.Numerals.{number_length, digit, is_digit, goes_on, is_numeral, and_byte, value_of, digit_count};

use crate::bytes::{ByteClass, front_length};

/// Values are told apart up to here: above each number that a literal may have.
pub const CEILING: u64 = 1 << 32;

/// How many digits and `_` stand at the front.
pub fn number_length(bytes: &[u8]) -> usize
    ensures exact { result ≡ number_length bytes.now }
    ensures within { result ≤ length bytes.now }
{
    front_length(ByteClass::Number, bytes)
}

/// What a byte is worth as a digit, or 36.
fn digit(byte: u8) -> u8
    ensures exact { result ≡ digit byte }
    ensures within { result ≤ 36 }
{
    if byte.is_ascii_digit() {
        byte - b'0'
    } else if byte.is_ascii_alphabetic() {
        byte.to_ascii_uppercase() - 55
    } else {
        36
    }
}

/// Whether these are digits of the base, between which one `_` at a time stands.
pub fn is_numeral(base: u8, digits: &[u8]) -> bool
    ensures { result ≡ is_numeral base digits.now }
{
    let mut behind_digit = false;
    for byte in digits {
        if *byte == b'_' {
            if !behind_digit {
                return false;
            }
            behind_digit = false;
        } else {
            if digit(*byte) >= base {
                return false;
            }
            behind_digit = true;
        }
    }
    behind_digit
}

/// The value with one more byte, or the ceiling where it is above that.
fn and_byte(base: u8, value: u64, byte: u8) -> u64
    requires { value ≤ CEILING }
    ensures { result ≡ min (and_byte base value byte) CEILING }
{
    if byte == b'_' {
        value
    } else {
        (value * base as u64 + digit(byte) as u64).min(CEILING)
    }
}

/// The value of the digits, or the ceiling where it is above that.
pub fn value_of(base: u8, digits: &[u8]) -> u64
    requires { 0 < base }
    ensures { result ≡ min (value_of base digits.now) CEILING }
{
    let mut value: u64 = 0;
    for byte in digits {
        value = and_byte(base, value, *byte);
    }
    value
}

/// How many digits there are, `_` not counted.
pub fn digit_count(digits: &[u8]) -> usize
    ensures { result ≡ digit_count digits.now }
{
    digits.iter().filter(|byte| **byte != b'_').count()
}
