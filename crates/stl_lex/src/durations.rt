//! Durations: parts of a number and a unit, from days down to milliseconds.
ghost use Rattle.std.specs.Prelude.{◌≡◌, ◌≤◌, ◌+◌, length, min};
ghost use Rattle.stl_lex.specs.Numerals.{number_length};
ghost use Rattle.stl_lex.specs.LiteralTable.{time_units, timer_units};
ghost use Rattle.stl_lex.specs.Durations.{unit_length, is_part, part_length, part_value, left_over, is_duration, milliseconds};

use crate::bytes::{ByteClass, after, front_length, letters_of, spells};
use crate::numerals::{CEILING, is_numeral, number_length, value_of};

/// A unit of time: its letters, filled up with zeros, and its length.
#[derive(Clone, Copy, Debug, PartialEq, Eq)]
pub struct TimeUnit {
    pub letters: [u8; 2],
    pub milliseconds: u32,
}

const TIME_UNITS: [TimeUnit; 5] = [
    TimeUnit {
        letters: *b"D\0",
        milliseconds: 86_400_000,
    },
    TimeUnit {
        letters: *b"H\0",
        milliseconds: 3_600_000,
    },
    TimeUnit {
        letters: *b"M\0",
        milliseconds: 60_000,
    },
    TimeUnit {
        letters: *b"S\0",
        milliseconds: 1_000,
    },
    TimeUnit {
        letters: *b"MS",
        milliseconds: 1,
    },
];

/// The units of time, in the order in which their parts stand.
pub fn time_units() -> &'static [TimeUnit]
    ensures { result.now ≡ time_units }
{
    &TIME_UNITS
}

/// The units of a timer's start, which has no days.
pub fn timer_units() -> &'static [TimeUnit]
    ensures { result.now ≡ timer_units }
{
    &TIME_UNITS[1..]
}

/// How many bytes stand between the number at the front and the next digit.
fn unit_length(bytes: &[u8]) -> usize
    ensures exact { result ≡ unit_length bytes.now }
    ensures within { number_length bytes.now + result ≤ length bytes.now }
{
    front_length(ByteClass::Undigit, after(number_length(bytes), bytes))
}

/// Whether a number and these letters stand at the front.
fn is_part(letters: &[u8], bytes: &[u8]) -> bool
    ensures { result ≡ is_part letters.now bytes.now }
{
    let (number, rest) = bytes.split_at(number_length(bytes));
    is_numeral(10, number) && spells(letters, &rest[..unit_length(bytes)])
}

/// How long the part of this unit at the front is; 0 where none stands there.
fn part_length(unit: TimeUnit, bytes: &[u8]) -> usize
    ensures exact { result ≡ part_length unit bytes.now }
    ensures within { result ≤ length bytes.now }
{
    if is_part(letters_of(unit.letters.as_slice()), bytes) {
        number_length(bytes) + unit_length(bytes)
    } else {
        0
    }
}

/// Its milliseconds, or the ceiling where they are above that.
#[tactic(auto, using(crate::proofs::Ceiling::cut_product))]
fn part_value(unit: TimeUnit, bytes: &[u8]) -> u64
    ensures { result ≡ min (part_value unit bytes.now) CEILING }
{
    if is_part(letters_of(unit.letters.as_slice()), bytes) {
        let number = value_of(10, &bytes[..number_length(bytes)]);
        (number * unit.milliseconds as u64).min(CEILING)
    } else {
        0
    }
}

/// What stands behind the parts of these units.
fn left_over<'a>(units: &[TimeUnit], bytes: &'a [u8]) -> &'a [u8]
    ensures { result.now ≡ left_over units.now bytes.now }
{
    let mut rest = bytes;
    for unit in units {
        rest = after(part_length(*unit, rest), rest);
    }
    rest
}

/// Whether the bytes are one part or more and nothing else.
pub fn is_duration(units: &[TimeUnit], bytes: &[u8]) -> bool
    ensures { result ≡ is_duration units.now bytes.now }
{
    !bytes.is_empty() && left_over(units, bytes).is_empty()
}

/// The milliseconds of a duration, or the ceiling where they are above that.
pub fn milliseconds(units: &[TimeUnit], bytes: &[u8]) -> u64
    ensures { result ≡ min (milliseconds units.now bytes.now) CEILING }
{
    let mut time: u64 = 0;
    let mut rest = bytes;
    for unit in units {
        time = (time + part_value(*unit, rest)).min(CEILING);
        rest = after(part_length(*unit, rest), rest);
    }
    time
}
