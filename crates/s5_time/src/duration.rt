//! A duration of S5TIME.
ghost use Rattle.std.specs.Prelude.{◌≡◌, ℕ, ◌<◌, ◌≤◌, ◌*◌, ◌/◌, ◌%◌, ◌^◌, ◌↔◌, IfOk, IfSome, IsNone, IsTrue, is_ok};
ghost use Rattle.s5_time.specs.Bcd.{is_bcd};
ghost use Rattle.s5_time.specs.Duration.{duration_of, millis_of, unit_millis, word_of};

use crate::bcd::{BadS5, bcd3, read_bcd3};
use std::marker::Model;

/// The longest duration in milliseconds: 999 units of 10 s.
const LONGEST_MILLIS: u32 = 9_990_000;

/// A duration: a number of units, from 0 to 999, of a base from 0 to 3 (10 ms, 100 ms, 1 s, 10 s).
#[derive(Clone, Copy, Debug, PartialEq, Eq)]
pub struct S5 {
    pub base: u8,
    pub units: u16,
}

impl Model for S5 {
    ghost use Rattle.std.specs.Prelude.{◌≤◌};
    ghost use Rattle.s5_time.specs.Duration.{Duration};

    ghost Value = { Duration };

    ghost view = { λ s. record { base = s.base; units = s.units } };

    ghost invariant = { λ s. (s.base ≤ 3) × (s.units ≤ 999) };

    ghost inverse = { λ d. record { base = d.base; units = d.units } };
}

/// The duration that a word stands for: bits 12 and 13 are the base, bits 0 to 11 the units in BCD.
/// Bits 14 and 15 are not read.
///
/// # Errors
/// `BadS5` where one of the three digits is above 9.
pub fn read(word: u16) -> Result<S5, BadS5>
    ensures read { is_ok result ≡ is_bcd word }
    ensures value { IfOk result (λ s. s ≡ duration_of word) }
    // written again it is the word without bits 14 and 15
    ensures word { IfOk result (λ s. word_of s ≡ word % 2 ^ 14) }
{
    let units = read_bcd3(word)?;
    let base = (word / 4096 % 4) as u8;
    Ok(S5 { base, units })
}

/// The word of a duration, with bits 14 and 15 zero.
pub fn write(s: S5) -> u16
    ensures word { result ≡ word_of s }
    // read again it is the duration
    ensures digits { IsTrue (is_bcd result) }
    ensures value { duration_of result ≡ s }
{
    (s.base as u16) * 4096 + bcd3(s.units)
}

/// A duration in milliseconds.
pub fn millis(s: S5) -> u32
    ensures value { result ≡ millis_of s }
    ensures bound { result ≤ 9990000 }
{
    (s.units as u32) * millis_per_unit(s.base)
}

/// The duration of so many milliseconds in the smallest base that has at most 999 units of them. What is left
/// over is dropped. None above 9,990,000 ms.
pub fn from_millis(ms: u32) -> Option<S5>
    ensures too_long { IsNone result ↔ (9990000 < ms) }
    ensures units { IfSome result (λ s. s.units ≡ ms / unit_millis s.base) }
    ensures fits { IfSome result (λ s. s.units ≤ 999) }
    ensures smallest { IfSome result (λ s. (base : ℕ) → base < s.base → 999 < ms / unit_millis base) }
    ensures known { IfSome result (λ s. s.base ≤ 3) }
{
    if ms > LONGEST_MILLIS {
        return None;
    }
    let base = smallest_base(ms);
    let units = (ms / millis_per_unit(base)) as u16;
    Some(S5 { base, units })
}

/// The smallest base that has at most 999 units of a duration.
fn smallest_base(ms: u32) -> u8
    requires { ms ≤ 9990000 }
    ensures known { result ≤ 3 }
    ensures fits { ms / unit_millis result ≤ 999 }
    ensures smallest { (base : ℕ) → base < result → 999 < ms / unit_millis base }
{
    if ms / 10 <= 999 {
        0
    } else if ms / 100 <= 999 {
        1
    } else if ms / 1000 <= 999 {
        2
    } else {
        3
    }
}

/// One unit of a base in milliseconds.
fn millis_per_unit(base: u8) -> u32
    requires { base ≤ 3 }
    ensures value { result ≡ unit_millis base }
    ensures positive { 0 < result }
    ensures bound { result ≤ 10000 }
{
    match base {
        0 => 10,
        1 => 100,
        2 => 1000,
        _ => 10000,
    }
}
