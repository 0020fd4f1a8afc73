//! First values of declared names.
ghost use Rattle.std.specs.Prelude.{◌≡◌, ◌≤◌, ◌+◌, ◌^◌, length, IfOk};
ghost use Rattle.stl_decl.specs.Places.{Place};
ghost use Rattle.stl_decl.specs.Steps.{Gives, GivesOr, seen, at_rest, number_of};
ghost use Rattle.stl_decl.specs.Initials.{is_repetition, has_room, suited, value_of_type_at, fill, repetition_at, single_initial_at, initial_by, initial_at, initials_at, initials_view};

use crate::constants::{Constant, Value, suits, value_at};
use crate::fault::{Fault, FaultKind, StepError};
use crate::layout::FirstValue;
use crate::steps::{end_fault, fault_at, is_sign, maybe_sign_at, next, number_of, sign_at, unfit};
use crate::types::{SimpleType, Variable, element_bit};
use std::alloc::Global;
use stl_lex::{Token, TokenKind};

/// A first value, and how many elements have one behind it.
#[derive(Clone, Copy, Debug, PartialEq, Eq)]
pub struct Filling {
    pub value: FirstValue,
    pub filled: u32,
}

/// Whether the tokens begin with a number and `(`.
fn is_repetition(text: &[u8], tokens: &[Token]) -> bool
    ensures { result ≡ is_repetition text.now tokens.now }
{
    match tokens {
        [number, opening, ..] => {
            matches!(number.kind, TokenKind::Number) && is_sign(text, *opening, b"(")
        }
        _ => false,
    }
}

/// Nothing, or a bad operand where so many elements more are too many.
fn has_room(variable: Variable, filled: u32, more: u64, token: Token) -> Result<(), Fault>
    requires filled { filled ≤ 8192 }
    requires more { more ≤ 2 ^ 32 }
    ensures { result ≡ has_room variable filled more token }
{
    if filled as u64 + more <= variable.shape.count as u64 {
        Ok(())
    } else {
        Err(fault_at(FaultKind::BadOperand, token))
    }
}

/// Nothing, or a bad operand where the constant isn't of the type.
fn suited(simple: SimpleType, value: Value) -> Result<(), Fault>
    ensures { result ≡ suited simple value }
{
    if suits(simple, value.constant.form) {
        Ok(())
    } else {
        Err(fault_at(FaultKind::BadOperand, value.first))
    }
}

/// A constant of the type.
#[tactic(auto, unfolding(crate::specs::Initials::value_of_type_at))]
pub fn value_of_type_at<'a>(
    text: &[u8],
    simple: SimpleType,
    tokens: &'a [Token],
) -> Result<(Value, &'a [Token]), Fault>
    requires { length text.now ≤ 1048576 }
    ensures { Gives at_rest result (value_of_type_at text.now simple tokens.now) }
{
    let (value, rest) = value_at(text, tokens)?;
    suited(simple, value)?;
    Ok((value, rest))
}

/// So many elements behind the filled ones have the value.
fn fill(variable: Variable, filled: u32, count: u32, constant: Constant) -> Filling
    requires { filled + count ≤ 8192 }
    ensures { result ≡ fill variable filled count constant }
{
    Filling {
        value: FirstValue {
            first_bit: element_bit(variable, filled),
            bits: variable.shape.simple.bits(),
            count,
            value: constant.value,
        },
        filled: filled + count,
    }
}

/// "(" value ")" behind a number of repetitions.
#[tactic(auto, unfolding(crate::specs::Initials::repetition_at))]
fn repetition_at<'a>(
    text: &[u8],
    variable: Variable,
    filled: u32,
    number: Token,
    tokens: &'a [Token],
) -> Result<(Filling, Token, &'a [Token]), Fault>
    requires text { length text.now ≤ 1048576 }
    requires filled { filled ≤ 8192 }
    ensures exact { Gives seen result (repetition_at text.now variable filled number tokens.now) }
    ensures within { IfOk result (λ x. x.0.filled ≤ 8192) }
{
    let count = number_of(text, number);
    has_room(variable, filled, count, number)?;
    let (_, rest) = sign_at(text, b"(", tokens)?;
    let (value, rest) = value_of_type_at(text, variable.shape.simple, rest)?;
    let (last, rest) = sign_at(text, b")", rest)?;
    Ok((
        fill(variable, filled, count as u32, value.constant),
        last,
        rest,
    ))
}

/// A single value. One too many can't stand there.
fn single_initial_at<'a>(
    text: &[u8],
    variable: Variable,
    filled: u32,
    token: Token,
    tokens: &'a [Token],
) -> Result<(Filling, Token, &'a [Token]), Fault>
    requires text { length text.now ≤ 1048576 }
    requires filled { filled ≤ 8192 }
    ensures exact { Gives seen result (single_initial_at text.now variable filled token tokens.now) }
    ensures within { IfOk result (λ x. x.0.filled ≤ 8192) }
{
    if filled >= variable.shape.count {
        return Err(unfit(text, token));
    }
    let (value, rest) = value_of_type_at(text, variable.shape.simple, tokens)?;
    Ok((fill(variable, filled, 1, value.constant), value.last, rest))
}

/// init = value | n "(" value ")"
#[tactic(auto, unfolding(crate::specs::Initials::initial_at))]
fn initial_at<'a>(
    text: &[u8],
    variable: Variable,
    filled: u32,
    tokens: &'a [Token],
) -> Result<(Filling, Token, &'a [Token]), Fault>
    requires text { length text.now ≤ 1048576 }
    requires filled { filled ≤ 8192 }
    ensures exact { Gives seen result (initial_at text.now variable filled tokens.now) }
    ensures within { IfOk result (λ x. x.0.filled ≤ 8192) }
{
    let Some((first, rest)) = next(tokens) else {
        return Err(end_fault(text));
    };
    if is_repetition(text, tokens) {
        repetition_at(text, variable, filled, first, rest)
    } else {
        single_initial_at(text, variable, filled, first, tokens)
    }
}

/// init { "," init }
pub fn initials_at<'a>(
    alloc: Global,
    text: &[u8],
    turns: usize,
    variable: Variable,
    tokens: &'a [Token],
) -> Result<(Vec<FirstValue>, Token, &'a [Token]), StepError>
    requires { length text.now ≤ 1048576 }
    ensures { GivesOr initials_view result (initials_at turns text.now variable tokens.now) }
{
    let mut values = Vec::new(alloc);
    let mut filled = 0;
    let mut rest = tokens;
    for _turn in 0..turns {
        let (filling, last, after) = initial_at(text, variable, filled, rest)?;
        values.push(filling.value)?;
        match maybe_sign_at(text, b",", after) {
            Some((_, others)) => {
                filled = filling.filled;
                rest = others;
            }
            None => return Ok((values, last, after)),
        }
    }
    Err(StepError::Fault(end_fault(text)))
}
