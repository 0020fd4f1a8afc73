//! The fields of a line, each at the front of a text.
ghost use Rattle.std.specs.Prelude.{◌≡◌, ℕ, ◌<◌, ◌≤◌, ◌^◌, ◌++◌, List, Some, IfSome, IsTrue, ◌↔◌};
ghost use Rattle.std.specs.Option.{option_map};
ghost use Rattle.std.specs.Fmt.{decimal};
ghost use Rattle.trace_reader.specs.Fields.{after, digits_at, StartsAsNumber, number_of, number_at, digit_value, byte_at, word_value_at, double_at, hex_byte, hex_word, hex_double};

use std::str;

/// Returns the text after a word that it begins with.
pub fn after<'a>(word: &[u8], text: &'a [u8]) -> Option<&'a [u8]>
    ensures exact { option_map (λ rest. rest.now) result ≡ after word.now text.now }
    ensures written { IfSome result (λ rest. text.now ≡ word.now ++ rest.now) }
{
    text.strip_prefix(word)
}

/// Returns the digits that the text begins with, and the text after them.
fn digits_at(text: &[u8]) -> (&[u8], &[u8])
    ensures exact { (result.0.now, result.1.now) ≡ digits_at text.now }
    ensures written { text.now ≡ result.0.now ++ result.1.now }
{
    for (i, byte) in text.iter().enumerate() {
        if !byte.is_ascii_digit() {
            return (&text[..i], &text[i..]);
        }
    }
    (text, b"")
}

/// Returns whether there is a first byte, and it is no plus sign and no leading zero.
fn starts_as_number(digits: &[u8]) -> bool
    ensures { IsTrue result ↔ StartsAsNumber digits.now }
{
    !digits.is_empty() && digits[0] != b'+' && (digits[0] != b'0' || digits.len() == 1)
}

/// Returns the number whose decimal digits these are, without leading zeros.
fn number_from(digits: &[u8]) -> Option<u32>
    ensures found { IfSome result (λ n. (n < 2 ^ 32) × (digits.now ≡ decimal n)) }
    ensures only { (n : ℕ) → n < 2 ^ 32 → digits.now ≡ decimal n → result ≡ Some n }
    ensures exact { result ≡ number_of digits.now }
{
    if !starts_as_number(digits) {
        return None;
    }
    let Ok(text) = str::from_utf8(digits) else {
        return None;
    };
    text.parse::<u32>().ok()
}

/// Returns a number that is at most `most`, and the text after it.
#[tactic(auto, unfolding(crate::specs::Fields::number_at))]
pub fn number_at(text: &[u8], most: u32) -> Option<(u32, &[u8])>
    ensures exact { option_map (λ p. (p.0, p.1.now)) result ≡ number_at most text.now }
    ensures written { IfSome result (λ p. text.now ≡ decimal p.0 ++ p.1.now) }
    ensures within { IfSome result (λ p. p.0 ≤ most) }
{
    let (digits, rest) = digits_at(text);
    let number = number_from(digits)?;
    if number > most {
        return None;
    }
    Some((number, rest))
}

/// Returns the value of an upper-case hexadecimal digit.
fn digit_value(digit: u8) -> Option<u8>
    ensures exact { result ≡ digit_value digit }
    ensures small { IfSome result (λ value. value < 16) }
{
    match digit {
        b'0'..=b'9' => Some(digit - b'0'),
        b'A'..=b'F' => Some(digit - b'A' + 10),
        _ => None,
    }
}

/// Returns the byte of two hexadecimal digits, and the text after them.
#[tactic(auto, unfolding(crate::specs::Fields::byte_at))]
pub fn byte_at(text: &[u8]) -> Option<(u8, &[u8])>
    ensures exact { option_map (λ p. (p.0, p.1.now)) result ≡ byte_at text.now }
    ensures written { IfSome result (λ p. text.now ≡ hex_byte p.0 ++ p.1.now) }
    ensures within { IfSome result (λ p. p.0 < 256) }
{
    match text {
        [high, low, rest @ ..] => {
            let high = digit_value(*high)?;
            let low = digit_value(*low)?;
            Some((high * 16 + low, rest))
        }
        _ => None,
    }
}

/// Returns the value of four hexadecimal digits, and the text after them.
#[tactic(auto, unfolding(crate::specs::Fields::word_value_at), using(std::proofs::Common::append_assoc))]
pub fn word_value_at(text: &[u8]) -> Option<(u16, &[u8])>
    ensures exact { option_map (λ p. (p.0, p.1.now)) result ≡ word_value_at text.now }
    ensures written { IfSome result (λ p. text.now ≡ hex_word p.0 ++ p.1.now) }
    ensures within { IfSome result (λ p. p.0 < 65536) }
{
    let (high, rest) = byte_at(text)?;
    let (low, rest) = byte_at(rest)?;
    Some((u16::from(high) * 256 + u16::from(low), rest))
}

/// Returns the value of eight hexadecimal digits, and the text after them.
#[tactic(auto, unfolding(crate::specs::Fields::double_at), using(std::proofs::Common::append_assoc))]
pub fn double_at(text: &[u8]) -> Option<(u32, &[u8])>
    ensures exact { option_map (λ p. (p.0, p.1.now)) result ≡ double_at text.now }
    ensures written { IfSome result (λ p. text.now ≡ hex_double p.0 ++ p.1.now) }
    ensures within { IfSome result (λ p. p.0 < 4294967296) }
{
    let (high, rest) = word_value_at(text)?;
    let (low, rest) = word_value_at(rest)?;
    Some((u32::from(high) * 65536 + u32::from(low), rest))
}
