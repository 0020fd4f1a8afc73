//! Numbers of three decimal digits in bits 0 to 11 of a word.
ghost use Rattle.std.specs.Prelude.{◌≡◌, ◌<◌, ◌≤◌, ◌*◌, ◌/◌, ◌%◌, IfOk, IsTrue, is_ok};
ghost use Rattle.s5_time.specs.Bcd.{bcd_of, bcd_value, is_bcd};

/// A digit of bits 0 to 11 is above 9.
#[derive(Clone, Copy, Debug, PartialEq, Eq)]
pub struct BadS5;

/// The three decimal digits of a number, from 0 to 999, in bits 0 to 11.
pub fn bcd3(units: u16) -> u16
    requires { units ≤ 999 }
    ensures word { result ≡ bcd_of units }
    ensures below { result < 4096 }
    // read again it is the number
    ensures digits { IsTrue (is_bcd result) }
    ensures value { bcd_value result ≡ units }
{
    units / 100 * 256 + units / 10 % 10 * 16 + units % 10
}

/// The number that bits 0 to 11 spell, from 0 to 999. Bits 12 to 15 are not read.
///
/// # Errors
/// `BadS5` where one of the three digits is above 9.
pub fn read_bcd3(word: u16) -> Result<u16, BadS5>
    ensures read { is_ok result ≡ is_bcd word }
    ensures value { IfOk result (λ units. units ≡ bcd_value word) }
    ensures bound { IfOk result (λ units. units ≤ 999) }
{
    let hundreds = word / 256 % 16;
    let tens = word / 16 % 16;
    let ones = word % 16;
    if hundreds > 9 || tens > 9 || ones > 9 {
        return Err(BadS5);
    }
    Ok(hundreds * 100 + tens * 10 + ones)
}
