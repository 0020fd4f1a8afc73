//! Elements of declared names.
ghost use Rattle.std.specs.Prelude.{◌≡◌, ◌≤◌, length, IfOk};
ghost use Rattle.stl_decl.specs.Steps.{Gives, seen};
ghost use Rattle.stl_decl.specs.Types.{is_int};
ghost use Rattle.stl_decl.specs.Elements.{index_of, indexed_at, no_index, single_at, element_at};

use crate::fault::{Fault, FaultKind};
use crate::steps::{SignedNumber, end_fault, fault_at, integer_at, maybe_sign_at, sign_at};
use crate::types::{Shape, int_value, is_int, rank};
use stl_lex::Token;

/// The number of the element that has this index, or a bad operand at the index.
fn index_of(shape: Shape, index: SignedNumber) -> Result<u32, Fault>
    ensures { result ≡ index_of shape index }
{
    if !shape.is_array || !is_int(index) {
        return Err(fault_at(FaultKind::BadOperand, index.first));
    }
    let low = rank(shape.low);
    let here = rank(int_value(index));
    if here < low || here - low >= shape.count {
        return Err(fault_at(FaultKind::BadOperand, index.first));
    }
    Ok(here - low)
}

/// int "]"
#[tactic(auto, unfolding(crate::specs::Elements::indexed_at))]
fn indexed_at<'a>(
    text: &[u8],
    shape: Shape,
    tokens: &'a [Token],
) -> Result<(u32, Token, &'a [Token]), Fault>
    requires { length text.now ≤ 1048576 }
    ensures { Gives seen result (indexed_at text.now shape tokens.now) }
{
    let (index, rest) = integer_at(text, tokens)?;
    let k = index_of(shape, index)?;
    let (last, rest) = sign_at(text, b"]", rest)?;
    Ok((k, last, rest))
}

/// The fault of an array without an index: where nothing follows, the text ends before its `[`.
fn no_index(text: &[u8], name: Token, tokens: &[Token]) -> Fault
    requires { length text.now ≤ 1048576 }
    ensures { result ≡ no_index text.now name tokens.now }
{
    if tokens.is_empty() {
        end_fault(text)
    } else {
        fault_at(FaultKind::BadOperand, name)
    }
}

/// A name without an index: it is no array.
fn single_at<'a>(
    text: &[u8],
    shape: Shape,
    name: Token,
    tokens: &'a [Token],
) -> Result<(u32, Token, &'a [Token]), Fault>
    requires { length text.now ≤ 1048576 }
    ensures { Gives seen result (single_at text.now shape name tokens.now) }
{
    if shape.is_array {
        Err(no_index(text, name, tokens))
    } else {
        Ok((0, name, tokens))
    }
}

/// [ "[" int "]" ] behind a declared name of this type: the number of the element, from 0. A bad operand stands at
/// the index where the name is no array or the index is outside the bounds, and at the name where an array has no
/// index and something else follows it.
pub fn element_at<'a>(
    text: &[u8],
    shape: Shape,
    name: Token,
    tokens: &'a [Token],
) -> Result<(u32, Token, &'a [Token]), Fault>
    requires { length text.now ≤ 1048576 }
    ensures { Gives seen result (element_at text.now shape name tokens.now) }
{
    match maybe_sign_at(text, b"[", tokens) {
        Some((_, rest)) => indexed_at(text, shape, rest),
        None => single_at(text, shape, name, tokens),
    }
}
