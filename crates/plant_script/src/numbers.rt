//! Numbers as a script writes them.
ghost use Rattle.std.specs.Prelude.{◌≡◌, ◌<◌, ◌≤◌, ◌^◌, min, length, nat_lt, IsTrue, IfSome};
ghost use Rattle.std.specs.Str.{all_ascii_digits};
ghost use Rattle.plant_script.specs.Numbers.{value_of, is_number, number_within, hex_digit, hex_of, significant, comes_before};

/// Values are told apart up to here: above each number that a script may have.
pub const CEILING: u32 = 200_001;

/// Returns whether all bytes are decimal digits.
fn are_digits(word: &[u8]) -> bool
    ensures { result ≡ all_ascii_digits word.now }
{
    for byte in word {
        if !byte.is_ascii_digit() {
            return false;
        }
    }
    true
}

/// Returns whether the word is a decimal number: one digit or more.
#[tactic(auto, unfolding(crate::specs::Numbers::is_number))]
pub fn is_number(word: &[u8]) -> bool
    ensures exact { result ≡ is_number word.now }
    ensures digits { IsTrue result → IsTrue (all_ascii_digits word.now) }
{
    !word.is_empty() && are_digits(word)
}

/// Returns the value of decimal digits, or the ceiling where it is above that.
#[tactic(auto, unfolding(crate::specs::Numbers::value_of))]
pub fn value_of(digits: &[u8]) -> u32
    ensures { result ≡ min (value_of digits.now) CEILING }
{
    let mut value: u32 = 0;
    for digit in digits {
        value = (value * 10 + u32::from(digit.saturating_sub(b'0'))).min(CEILING);
    }
    value
}

/// Returns the value of a decimal number that is at most `most`, or None where the word is no such number.
#[tactic(auto, unfolding(crate::specs::Numbers::number_within))]
pub fn number_within(word: &[u8], most: u32) -> Option<u32>
    requires { most < CEILING }
    ensures exact { result ≡ number_within most word.now }
    ensures within { IfSome result (λ n. n ≤ most) }
{
    if !is_number(word) {
        return None;
    }
    let value = value_of(word);
    if value > most {
        return None;
    }
    Some(value)
}

/// Returns the value of a hexadecimal digit.
fn hex_digit(digit: u8) -> Option<u8>
    ensures exact { result ≡ hex_digit digit }
    ensures small { IfSome result (λ value. value < 16) }
{
    match digit {
        b'0'..=b'9' => Some(digit - b'0'),
        b'A'..=b'F' => Some(digit - b'A' + 10),
        b'a'..=b'f' => Some(digit - b'a' + 10),
        _ => None,
    }
}

/// Returns the value of exactly `count` hexadecimal digits, of which there are at most eight.
#[tactic(auto, unfolding(crate::specs::Numbers::hex_of))]
pub fn hex_of(word: &[u8], count: usize) -> Option<u32>
    requires { count ≤ 8 }
    ensures exact { result ≡ hex_of count word.now }
    ensures within { IfSome result (λ n. n < 16 ^ count) }
{
    if word.len() != count {
        return None;
    }
    let mut value: u32 = 0;
    for digit in word {
        let low = hex_digit(*digit)?;
        value = value * 16 + u32::from(low);
    }
    Some(value)
}

/// Returns whether the value of these decimal digits is below that of the others, however many they are.
pub fn is_below(digits: &[u8], others: &[u8]) -> bool
    requires digits { IsTrue (all_ascii_digits digits.now) }
    requires others { IsTrue (all_ascii_digits others.now) }
    ensures { result ≡ nat_lt (value_of digits.now) (value_of others.now) }
{
    let digits = significant(digits);
    let others = significant(others);
    if digits.len() != others.len() {
        return digits.len() < others.len();
    }
    comes_before(digits, others)
}

/// Returns the digits without the zeros at their front.
fn significant(digits: &[u8]) -> &[u8]
    ensures { result.now ≡ significant digits.now }
{
    for (i, digit) in digits.iter().enumerate() {
        if *digit != b'0' {
            return &digits[i..];
        }
    }
    b""
}

/// Returns whether the first digit in which both differ is the lower one.
fn comes_before(digits: &[u8], others: &[u8]) -> bool
    requires { length digits.now ≡ length others.now }
    ensures { result ≡ comes_before digits.now others.now }
{
    for i in 0..digits.len() {
        if digits[i] != others[i] {
            return digits[i] < others[i];
        }
    }
    false
}
