//! Numbers in BCD: four bits for each decimal digit.
ghost use Rattle.std.specs.Prelude.{◌≡◌, ◌≤◌, ◌<◌, ◌^◌, is_ok, OnOk, OnErr};
ghost use Rattle.accumulators.specs.Bcd.{read_bcd, bcd, places, are_decimal, bcd_digits, from_bcd_of, to_bcd_of, to_bcd_status};

use crate::accus::Accus;
use crate::parts::Part;
use status_word::StatusWord;

/// The greatest decimal digit.
const GREATEST_DIGIT: u32 = 9;

/// A digit above 9.
#[derive(Clone, Copy, PartialEq, Eq, Debug)]
pub struct BadBcd;

/// How many digits a word or a double word has.
fn places(wide: bool) -> u32
    ensures { result ≡ places wide }
{
    if wide { 7 } else { 3 }
}

/// The number that the low digits write. None where one of them is above 9.
fn read_bcd(word: u32, places: u32) -> Option<u32>
    requires { places ≤ 7 }
    ensures { result ≡ read_bcd places word }
{
    let mut rest = word;
    let mut weight = 1;
    let mut number = 0;
    for _done in 0..places {
        let digit = rest % 16;
        if digit > GREATEST_DIGIT {
            return None;
        }
        number += weight * digit;
        weight *= 10;
        rest /= 16;
    }
    Some(number)
}

/// The low decimal digits of a number in BCD.
fn bcd(number: u32, places: u32) -> u32
    requires { places ≤ 7 }
    ensures value { result ≡ bcd places number }
    ensures range { result < 16 ^ places }
{
    let mut rest = number;
    let mut weight = 1;
    let mut word = 0;
    for _done in 0..places {
        word += weight * (rest % 10);
        weight *= 16;
        rest /= 10;
    }
    word
}

impl Accus {
    /// BTI, or BTD where `wide`: three or seven digits of ACCU1, negative where the uppermost bit
    /// is 1, become a number in the low word or in the whole.
    pub fn from_bcd(&mut self, wide: bool) -> Result<(), BadBcd>
        ensures answer { is_ok result ≡ are_decimal (bcd_digits wide self.old) }
        ensures ok { OnOk result (self.new ≡ from_bcd_of wide self.old) }
        ensures err { OnErr result (self.new ≡ self.old) }
    {
        let Some(size) = read_bcd(self.accu1, places(wide)) else {
            return Err(BadBcd);
        };
        let part = Part::of(wide);
        let negative = part.is_top_set(self.accu1);
        let number = if negative {
            -i64::from(size)
        } else {
            i64::from(size)
        };
        self.accu1 = part.store(self.accu1, number);
        Ok(())
    }

    /// ITB, or DTB where `wide`. Past 999 or 9,999,999 nothing is written, and OV and OS are 1;
    /// else OV is 0.
    pub fn to_bcd(&mut self, status: &mut StatusWord, wide: bool)
        ensures accus { self.new ≡ to_bcd_of wide self.old }
        ensures status { status.new ≡ to_bcd_status wide self.old status.old }
    {
        let part = Part::of(wide);
        let number = part.number(self.accu1);
        let size = number.unsigned_abs();
        let greatest = if wide { 9_999_999 } else { 999 };
        status.ov = size > greatest;
        if size > greatest {
            status.os = true;
            return;
        }
        let sign = if number < 0 {
            15 * 16u32.pow(places(wide))
        } else {
            0
        };
        let digits = bcd(size as u32, places(wide));
        self.accu1 = part.with_low(self.accu1, digits + sign);
    }
}
