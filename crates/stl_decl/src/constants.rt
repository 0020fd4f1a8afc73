//! Constants: numbers, literals, characters, TRUE and FALSE.
ghost use Rattle.std.specs.Prelude.{◌≡◌, ◌≤◌, ◌<◌, ◌^◌, ◌*◌, length, true, min, IfSome};
ghost use Rattle.stl_decl.specs.Steps.{Gives, at_rest, spelling};
ghost use Rattle.stl_decl.specs.Types.{is_int};
ghost use Rattle.stl_decl.specs.Constants.{stored, timer_start, is_negative, characters_value, inside_quotes, characters, hexadecimal, unsigned_value, time_value, literal_by, literal_constant, word_constant, constant_of, begins_integer, integer_constant, integer_value_at, single_value, value_at, suits};

use crate::fault::{Fault, FaultKind};
use crate::steps::{SignedNumber, end_fault, fault_at, integer_at, is_sign, next, spelling, unfit};
use crate::types::{SimpleType, is_int};
use s5_time::{bcd3, from_millis, write};
use stl_lex::{
    CEILING, Literal, LiteralValue, TimeUnit, Token, TokenKind, after, digit_count, letters_of,
    literal_of, milliseconds, spells, time_units, timer_units, unsigned, value_of,
};

/// How a constant is written.
#[derive(Clone, Copy, Debug, PartialEq, Eq)]
pub enum ConstantForm {
    /// TRUE or FALSE.
    Boolean,
    /// A decimal number.
    Integer,
    /// `L#`.
    LongInteger,
    /// `B#16#`.
    Byte,
    /// `W#16#`.
    Word,
    /// `DW#16#`.
    DoubleWord,
    /// `2#` and so many digits.
    Bits(u8),
    /// `C#`.
    Counter,
    /// `S5T#`.
    TimerStart,
    /// `T#`.
    Time,
    /// So many characters.
    Characters(u8),
}

/// A constant, and the number that is stored for it: of a number with its sign the low 16 or 32 bits, of a counter
/// three digits in BCD, of a timer's start the word of its base and units, of characters their bytes, the first one
/// the highest.
#[derive(Clone, Copy, Debug, PartialEq, Eq)]
pub struct Constant {
    pub form: ConstantForm,
    pub value: u32,
}

/// A constant, and its tokens: the first, which is the sign where one stands there, and the last.
#[derive(Clone, Copy, Debug, PartialEq, Eq)]
pub struct Value {
    pub constant: Constant,
    pub first: Token,
    pub last: Token,
}

/// What is stored for a number: its value, or what is missing of the modulus below 0.
fn stored(negative: bool, modulus: u64, magnitude: u64) -> u32
    requires positive { 0 < modulus }
    requires small { modulus ≤ 2 ^ 32 }
    ensures exact { result ≡ stored negative modulus magnitude }
{
    let rest = magnitude % modulus;
    if negative {
        ((modulus - rest) % modulus) as u32
    } else {
        rest as u32
    }
}

/// The word of a timer's start.
fn timer_start(ms: u64) -> u32
    ensures { result ≡ timer_start ms }
{
    match from_millis(ms.min(9_990_000) as u32) {
        Some(duration) => write(duration) as u32,
        None => 0,
    }
}

/// Whether the bytes begin with a minus sign.
fn is_negative(bytes: &[u8]) -> bool
    ensures { result ≡ is_negative bytes.now }
{
    !bytes.is_empty() && bytes[0] == b'-'
}

/// The bytes as digits of base 256; at most four are read.
fn characters_value(bytes: &[u8]) -> u32
    ensures { result ≡ characters_value bytes.now }
{
    match bytes {
        [a] => *a as u32,
        [a, b] => *a as u32 * 256 + *b as u32,
        [a, b, c] => (*a as u32 * 256 + *b as u32) * 256 + *c as u32,
        [a, b, c, d] => ((*a as u32 * 256 + *b as u32) * 256 + *c as u32) * 256 + *d as u32,
        _ => 0,
    }
}

/// What stands between quotes.
fn inside_quotes(bytes: &[u8]) -> &[u8]
    ensures { result.now ≡ inside_quotes bytes.now }
{
    let inside = after(1, bytes);
    &inside[..inside.len().saturating_sub(1)]
}

fn characters(bytes: &[u8]) -> Constant
    ensures { result ≡ characters bytes.now }
{
    let inside = inside_quotes(bytes);
    Constant {
        form: ConstantForm::Characters(inside.len().min(255) as u8),
        value: characters_value(inside),
    }
}

/// The form of a hexadecimal literal that is at most this.
fn hexadecimal(most: u32) -> ConstantForm
    ensures { result ≡ hexadecimal most }
{
    if most <= 0xFF {
        ConstantForm::Byte
    } else if most <= 0xFFFF {
        ConstantForm::Word
    } else {
        ConstantForm::DoubleWord
    }
}

/// The value of digits of the base, of which 32 bits are kept.
fn unsigned_value(base: u8, digits: &[u8]) -> u32
    requires { 0 < base }
    ensures { result ≡ unsigned_value base digits.now }
{
    stored(false, CEILING, value_of(base, digits))
}

/// Milliseconds in these units with their sign, of which 32 bits are kept.
#[tactic(auto, unfolding(crate::specs::Constants::time_value))]
fn time_value(units: &[TimeUnit], bytes: &[u8]) -> u32
    ensures { result ≡ time_value units.now bytes.now }
{
    let magnitude = milliseconds(units, unsigned(bytes));
    stored(is_negative(bytes), CEILING, magnitude)
}

/// What is written behind a literal's prefix.
fn literal_by(value: LiteralValue, bytes: &[u8]) -> Option<Constant>
    ensures { result ≡ literal_by value bytes.now }
{
    match value {
        LiteralValue::Integer => Some(Constant {
            form: ConstantForm::LongInteger,
            value: stored(is_negative(bytes), CEILING, value_of(10, unsigned(bytes))),
        }),
        LiteralValue::Hexadecimal(most) => Some(Constant {
            form: hexadecimal(most),
            value: unsigned_value(16, bytes),
        }),
        LiteralValue::Counter => Some(Constant {
            form: ConstantForm::Counter,
            value: bcd3(value_of(10, bytes).min(999) as u16) as u32,
        }),
        LiteralValue::Bits => Some(Constant {
            form: ConstantForm::Bits(digit_count(bytes).min(255) as u8),
            value: unsigned_value(2, bytes),
        }),
        LiteralValue::Time => Some(Constant {
            form: ConstantForm::Time,
            value: time_value(time_units(), bytes),
        }),
        LiteralValue::TimerStart => Some(Constant {
            form: ConstantForm::TimerStart,
            value: timer_start(milliseconds(timer_units(), bytes)),
        }),
        LiteralValue::Pointer => None,
    }
}

/// The constant that a literal is. None of a pointer.
fn literal_constant(run: &[u8]) -> Option<Constant>
    ensures { result ≡ literal_constant run.now }
{
    match literal_of(run) {
        Some(row) => literal_by(
            row.value,
            after(letters_of(row.prefix.as_slice()).len(), run),
        ),
        None => None,
    }
}

/// TRUE and FALSE.
fn word_constant(word: &[u8]) -> Option<Constant>
    ensures { result ≡ word_constant word.now }
{
    if spells(b"TRUE", word) {
        Some(Constant {
            form: ConstantForm::Boolean,
            value: 1,
        })
    } else if spells(b"FALSE", word) {
        Some(Constant {
            form: ConstantForm::Boolean,
            value: 0,
        })
    } else {
        None
    }
}

/// The constant that a single token is, but for numbers.
#[tactic(auto, unfolding(crate::specs::Constants::constant_of))]
pub fn constant_of(text: &[u8], token: Token) -> Option<Constant>
    ensures { result ≡ constant_of text.now token }
{
    match token.kind {
        TokenKind::Literal => literal_constant(spelling(text, token)),
        TokenKind::Characters => Some(characters(spelling(text, token))),
        TokenKind::Word => word_constant(spelling(text, token)),
        _ => None,
    }
}

/// Whether a number begins with the token.
pub fn begins_integer(text: &[u8], token: Token) -> bool
    ensures { result ≡ begins_integer text.now token }
{
    matches!(token.kind, TokenKind::Number)
        || is_sign(text, token, b"-")
        || is_sign(text, token, b"+")
}

/// The constant of an INT.
fn integer_constant(number: SignedNumber) -> Constant
    ensures { result ≡ integer_constant number }
{
    Constant {
        form: ConstantForm::Integer,
        value: stored(number.negative, 65_536, number.magnitude),
    }
}

/// A number from -32,768 to 32,767.
#[tactic(auto, unfolding(crate::specs::Constants::integer_value_at))]
fn integer_value_at<'a>(text: &[u8], tokens: &'a [Token]) -> Result<(Value, &'a [Token]), Fault>
    requires { length text.now ≤ 1048576 }
    ensures { Gives at_rest result (integer_value_at text.now tokens.now) }
{
    let (number, rest) = integer_at(text, tokens)?;
    if !is_int(number) {
        return Err(fault_at(FaultKind::BadOperand, number.first));
    }
    Ok((
        Value {
            constant: integer_constant(number),
            first: number.first,
            last: number.last,
        },
        rest,
    ))
}

fn single_value<'a>(
    text: &[u8],
    token: Token,
    rest: &'a [Token],
) -> Result<(Value, &'a [Token]), Fault>
    ensures { Gives at_rest result (single_value (constant_of text.now token) text.now token rest.now) }
{
    match constant_of(text, token) {
        Some(constant) => Ok((
            Value {
                constant,
                first: token,
                last: token,
            },
            rest,
        )),
        None => Err(unfit(text, token)),
    }
}

/// A constant: a number with a sign or without one, a literal, characters, TRUE or FALSE. A number past INT is
/// refused at its first token.
pub fn value_at<'a>(text: &[u8], tokens: &'a [Token]) -> Result<(Value, &'a [Token]), Fault>
    requires { length text.now ≤ 1048576 }
    ensures { Gives at_rest result (value_at text.now tokens.now) }
{
    let Some((first, rest)) = next(tokens) else {
        return Err(end_fault(text));
    };
    if begins_integer(text, first) {
        integer_value_at(text, tokens)
    } else {
        single_value(text, first, rest)
    }
}

/// Whether a constant of this form is a value of the type.
pub fn suits(simple: SimpleType, form: ConstantForm) -> bool
    ensures { result ≡ suits simple form }
{
    match simple {
        SimpleType::Bool => matches!(form, ConstantForm::Boolean),
        SimpleType::Byte => match form {
            ConstantForm::Byte => true,
            ConstantForm::Bits(digits) => digits <= 8,
            _ => false,
        },
        SimpleType::Char => match form {
            ConstantForm::Characters(count) => count == 1,
            _ => false,
        },
        SimpleType::Word => match form {
            ConstantForm::Word | ConstantForm::Counter => true,
            ConstantForm::Bits(digits) => digits <= 16,
            _ => false,
        },
        SimpleType::Int => matches!(form, ConstantForm::Integer),
        SimpleType::S5Time => matches!(form, ConstantForm::TimerStart),
        SimpleType::DWord => matches!(form, ConstantForm::DoubleWord | ConstantForm::Bits(_)),
        SimpleType::DInt => matches!(form, ConstantForm::LongInteger),
        SimpleType::Time => matches!(form, ConstantForm::Time),
        SimpleType::Date | SimpleType::TimeOfDay | SimpleType::DateAndTime => false,
    }
}
