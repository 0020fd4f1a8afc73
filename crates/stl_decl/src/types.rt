//! The types of declared names, and where values of them lie.
ghost use Rattle.std.specs.Prelude.{◌≡◌, ◌≤◌, ◌<◌, ◌+◌, ◌^◌, true};
ghost use Rattle.stl_decl.specs.Types.{bits_of, round_up, first_bit, end_bit, type_row, rank, is_int, int_value, element_bit};

use crate::fault::FaultKind;
use crate::steps::SignedNumber;
use std::marker::Model;
use stl_lex::{letters_of, spells};

/// The types that are no arrays.
#[derive(Clone, Copy, Debug, PartialEq, Eq)]
pub enum SimpleType {
    Bool,
    Byte,
    Char,
    Word,
    Int,
    S5Time,
    Date,
    DWord,
    DInt,
    Time,
    TimeOfDay,
    DateAndTime,
}

/// A type: of a single value, or of an array of them. A single value counts as one element.
#[derive(Clone, Copy, Debug, PartialEq, Eq)]
pub struct Shape {
    pub simple: SimpleType,
    pub is_array: bool,
    /// The index of the first element.
    pub low: i16,
    /// How many elements there are, at most 8,192.
    pub count: u32,
}

/// What a declared name stands for: its type, and the bit of its section that it begins at. It has at most 8,192
/// elements and begins below bit 2 ^ 61.
#[derive(Clone, Copy, Debug, PartialEq, Eq)]
pub struct Variable {
    pub first_bit: u64,
    pub shape: Shape,
}

impl Model for Variable {
    ghost use Rattle.std.specs.Prelude.{◌≤◌, ◌<◌, ◌^◌};
    ghost use Rattle.stl_decl.specs.Places.{Place};

    ghost Value = { Place };

    ghost view = { λ v. record { first_bit = v.first_bit; shape = v.shape } };

    ghost invariant = { λ v. (v.first_bit < 2 ^ 61) × (v.shape.count ≤ 8192) };

    ghost inverse = { λ p. record { first_bit = p.first_bit; shape = p.shape } };
}

/// What a word in a type's place means.
#[derive(Clone, Copy, Debug, PartialEq, Eq)]
pub enum Meaning {
    /// This type.
    Known(SimpleType),
    /// It is refused so.
    Refused(FaultKind),
}

/// A word, filled up with zeros, and its meaning in a type's place.
#[derive(Clone, Copy, Debug, PartialEq, Eq)]
pub struct TypeRow {
    pub spelling: [u8; 13],
    pub meaning: Meaning,
}

macro_rules! rows {
    ($($spelling:literal $meaning:expr;)*) => {
        [$(TypeRow { spelling: *$spelling, meaning: $meaning }),*]
    };
}

const TYPES: [TypeRow; 17] = rows! {
    b"BOOL\0\0\0\0\0\0\0\0\0" Meaning::Known(SimpleType::Bool);
    b"BYTE\0\0\0\0\0\0\0\0\0" Meaning::Known(SimpleType::Byte);
    b"CHAR\0\0\0\0\0\0\0\0\0" Meaning::Known(SimpleType::Char);
    b"WORD\0\0\0\0\0\0\0\0\0" Meaning::Known(SimpleType::Word);
    b"INT\0\0\0\0\0\0\0\0\0\0" Meaning::Known(SimpleType::Int);
    b"S5TIME\0\0\0\0\0\0\0" Meaning::Known(SimpleType::S5Time);
    b"DATE\0\0\0\0\0\0\0\0\0" Meaning::Known(SimpleType::Date);
    b"DWORD\0\0\0\0\0\0\0\0" Meaning::Known(SimpleType::DWord);
    b"DINT\0\0\0\0\0\0\0\0\0" Meaning::Known(SimpleType::DInt);
    b"TIME\0\0\0\0\0\0\0\0\0" Meaning::Known(SimpleType::Time);
    b"TIME_OF_DAY\0\0" Meaning::Known(SimpleType::TimeOfDay);
    b"DATE_AND_TIME" Meaning::Known(SimpleType::DateAndTime);
    b"ARRAY\0\0\0\0\0\0\0\0" Meaning::Refused(FaultKind::BadOperand);
    b"REAL\0\0\0\0\0\0\0\0\0" Meaning::Refused(FaultKind::RealType);
    b"STRING\0\0\0\0\0\0\0" Meaning::Refused(FaultKind::OutOfScope);
    b"STRUCT\0\0\0\0\0\0\0" Meaning::Refused(FaultKind::OutOfScope);
    b"UDT\0\0\0\0\0\0\0\0\0\0" Meaning::Refused(FaultKind::OutOfScope);
};

impl SimpleType {
    /// How many bits a value of the type takes.
    pub fn bits(self) -> u64
        ensures exact { result ≡ bits_of self }
        ensures within { result ≤ 64 }
    {
        match self {
            SimpleType::Bool => 1,
            SimpleType::Byte | SimpleType::Char => 8,
            SimpleType::Word | SimpleType::Int | SimpleType::S5Time | SimpleType::Date => 16,
            SimpleType::DWord | SimpleType::DInt | SimpleType::Time | SimpleType::TimeOfDay => 32,
            SimpleType::DateAndTime => 64,
        }
    }
}

/// The row of the table that a word has.
#[tactic(auto, unfolding(crate::specs::Types::type_row))]
pub fn type_row(word: &[u8]) -> Option<TypeRow>
    ensures { result ≡ type_row word.now }
{
    TYPES
        .iter()
        .copied()
        .find(|row| spells(letters_of(row.spelling.as_slice()), word))
}

/// The next multiple of so many bits.
pub fn round_up(unit: u64, bit: u64) -> u64
    requires unit { 0 < unit }
    requires small { unit ≤ 16 }
    requires bit { bit < 2 ^ 62 }
    ensures exact { result ≡ round_up unit bit }
    ensures within { result ≤ bit + 15 }
{
    (bit + unit - 1) / unit * unit
}

/// Where a value of this type begins, where the bits below `end` are taken.
pub fn first_bit(shape: Shape, end: u64) -> u64
    requires { end < 2 ^ 62 }
    ensures exact { result ≡ first_bit shape end }
    ensures within { result ≤ end + 15 }
{
    if shape.is_array {
        return round_up(16, end);
    }
    match shape.simple {
        SimpleType::Bool => end,
        SimpleType::Byte | SimpleType::Char => round_up(8, end),
        _ => round_up(16, end),
    }
}

/// The bit behind a value of this type; behind an array an even byte.
pub fn end_bit(shape: Shape, first: u64) -> u64
    requires first { first < 2 ^ 61 }
    requires count { shape.count ≤ 8192 }
    ensures exact { result ≡ end_bit shape first }
    ensures within { result ≤ first + 524303 }
{
    let last = first + shape.count as u64 * shape.simple.bits();
    if shape.is_array {
        round_up(16, last)
    } else {
        last
    }
}

/// The bit that element k begins at.
pub fn element_bit(variable: Variable, k: u32) -> u64
    ensures exact { result ≡ element_bit variable k }
    ensures within { result < 2 ^ 62 }
{
    variable.first_bit + k as u64 * variable.shape.simple.bits()
}

/// Whether the number is an INT, from -32,768 to 32,767.
pub fn is_int(number: SignedNumber) -> bool
    ensures { result ≡ is_int number }
{
    if number.negative {
        number.magnitude <= 32_768
    } else {
        number.magnitude <= 32_767
    }
}

/// The INT that the number is.
pub fn int_value(number: SignedNumber) -> i16
    requires { is_int number ≡ true }
    ensures { result ≡ int_value number }
{
    if number.negative {
        (0 - number.magnitude as i32) as i16
    } else {
        number.magnitude as i16
    }
}

/// How many INT stand below this one.
pub fn rank(int: i16) -> u32
    ensures exact { result ≡ rank int }
    ensures within { result ≤ 65535 }
{
    (int as i32 + 32_768) as u32
}
