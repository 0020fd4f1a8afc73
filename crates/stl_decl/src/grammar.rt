//! Declarations: names with their types, and the sections that they stand in.
ghost use Rattle.std.specs.Prelude.{◌≡◌, ◌≤◌, ◌<◌, ◌+◌, ◌^◌, length, IfOk, None, true};
ghost use Rattle.stl_decl.specs.Steps.{Gives, GivesOr, seen, at_rest};
ghost use Rattle.stl_decl.specs.Types.{is_int, first_bit};
ghost use Rattle.stl_decl.specs.Layout.{variable_of};
ghost use Rattle.stl_decl.specs.Initials.{initials_view};
ghost use Rattle.stl_decl.specs.Declarations.{simple_at, bound_at, count_between, closing_at, array_at, plain_at, shape_at, refusal, skip_attribute, fresh_name, given_at, initial_values_at, declaration_at, declaration_view};

use crate::fault::{Fault, FaultKind, StepError};
use crate::initials::initials_at;
use crate::layout::{Declaration, FirstValue, Layout};
use crate::steps::{
    SignedNumber, end_fault, fault_at, integer_at, is_sign, is_word, maybe_sign_at, maybe_word_at,
    name_at, next, semicolon_at, sign_at, spelling, unfit, upper, word_at,
};
use crate::types::{
    Meaning, Shape, SimpleType, Variable, first_bit, int_value, is_int, rank, type_row,
};
use std::alloc::Global;
use stl_lex::{Token, TokenKind};

/// The kinds of sections.
#[derive(Clone, Copy, Debug, PartialEq, Eq)]
pub enum SectionKind {
    /// VAR_TEMP to END_VAR, without first values.
    Temporary,
    /// STRUCT to END_STRUCT.
    Structure,
}

/// A type that is no array.
#[tactic(auto, unfolding(crate::specs::Declarations::simple_at))]
fn simple_at<'a>(
    text: &[u8],
    tokens: &'a [Token],
) -> Result<(SimpleType, Token, &'a [Token]), Fault>
    requires { length text.now ≤ 1048576 }
    ensures { Gives seen result (simple_at text.now tokens.now) }
{
    let (name, rest) = name_at(text, tokens)?;
    let Some(row) = type_row(spelling(text, name)) else {
        return Err(fault_at(FaultKind::UnknownType, name));
    };
    match row.meaning {
        Meaning::Known(simple) => Ok((simple, name, rest)),
        Meaning::Refused(kind) => Err(fault_at(kind, name)),
    }
}

/// A bound of an array: an INT.
#[tactic(auto, unfolding(crate::specs::Declarations::bound_at))]
fn bound_at<'a>(text: &[u8], tokens: &'a [Token]) -> Result<(SignedNumber, &'a [Token]), Fault>
    requires { length text.now ≤ 1048576 }
    ensures exact { Gives at_rest result (bound_at text.now tokens.now) }
    ensures within { IfOk result (λ x. is_int x.0 ≡ true) }
{
    let (bound, rest) = integer_at(text, tokens)?;
    if !is_int(bound) {
        return Err(fault_at(FaultKind::BadArray, bound.first));
    }
    Ok((bound, rest))
}

/// How many elements there are between the bounds: 1 to 8,192.
fn count_between(low: SignedNumber, high: SignedNumber) -> Result<u32, Fault>
    requires low { is_int low ≡ true }
    requires high { is_int high ≡ true }
    ensures exact { result ≡ count_between low high }
    ensures within { IfOk result (λ n. n ≤ 8192) }
{
    let from = rank(int_value(low));
    let to = rank(int_value(high));
    if to < from || to - from > 8191 {
        return Err(fault_at(FaultKind::BadArray, high.first));
    }
    Ok(to - from + 1)
}

/// The `]` behind the bounds; a comma there begins a second pair of them.
fn closing_at<'a>(text: &[u8], tokens: &'a [Token]) -> Result<(Token, &'a [Token]), Fault>
    requires { length text.now ≤ 1048576 }
    ensures { Gives at_rest result (closing_at text.now tokens.now) }
{
    let Some((first, rest)) = next(tokens) else {
        return Err(end_fault(text));
    };
    if is_sign(text, first, b"]") {
        Ok((first, rest))
    } else if is_sign(text, first, b",") {
        Err(fault_at(FaultKind::OutOfScope, first))
    } else {
        Err(unfit(text, first))
    }
}

/// What stands behind ARRAY.
#[tactic(auto, unfolding(crate::specs::Declarations::array_at))]
fn array_at<'a>(text: &[u8], tokens: &'a [Token]) -> Result<(Shape, Token, &'a [Token]), Fault>
    requires { length text.now ≤ 1048576 }
    ensures exact { Gives seen result (array_at text.now tokens.now) }
    ensures within { IfOk result (λ x. x.0.count ≤ 8192) }
{
    let (_, rest) = sign_at(text, b"[", tokens)?;
    let (low, rest) = bound_at(text, rest)?;
    let (_, rest) = sign_at(text, b"..", rest)?;
    let (high, rest) = bound_at(text, rest)?;
    let count = count_between(low, high)?;
    let (_, rest) = closing_at(text, rest)?;
    let (_, rest) = word_at(text, b"OF", rest)?;
    let (simple, last, rest) = simple_at(text, rest)?;
    Ok((
        Shape {
            simple,
            is_array: true,
            low: int_value(low),
            count,
        },
        last,
        rest,
    ))
}

/// A type that is no array, as one element.
#[tactic(auto, unfolding(crate::specs::Declarations::plain_at))]
fn plain_at<'a>(text: &[u8], tokens: &'a [Token]) -> Result<(Shape, Token, &'a [Token]), Fault>
    requires { length text.now ≤ 1048576 }
    ensures exact { Gives seen result (plain_at text.now tokens.now) }
    ensures within { IfOk result (λ x. x.0.count ≤ 8192) }
{
    let (simple, last, rest) = simple_at(text, tokens)?;
    Ok((
        Shape {
            simple,
            is_array: false,
            low: 0,
            count: 1,
        },
        last,
        rest,
    ))
}

/// type = simple | "ARRAY" "[" int ".." int "]" "OF" simple
#[tactic(auto, unfolding(crate::specs::Declarations::shape_at))]
fn shape_at<'a>(text: &[u8], tokens: &'a [Token]) -> Result<(Shape, Token, &'a [Token]), Fault>
    requires { length text.now ≤ 1048576 }
    ensures exact { Gives seen result (shape_at text.now tokens.now) }
    ensures within { IfOk result (λ x. x.0.count ≤ 8192) }
{
    match maybe_word_at(text, b"ARRAY", tokens) {
        Some((_, rest)) => array_at(text, rest),
        None => plain_at(text, tokens),
    }
}

/// The fault of what stands here, whatever it is.
fn refusal(text: &[u8], tokens: &[Token]) -> Fault
    requires { length text.now ≤ 1048576 }
    ensures { result ≡ refusal text.now tokens.now }
{
    match next(tokens) {
        Some((first, _)) => unfit(text, first),
        None => end_fault(text),
    }
}

/// [ Attribute ]
fn skip_attribute(tokens: &[Token]) -> &[Token]
    ensures { result.now ≡ skip_attribute tokens.now }
{
    match next(tokens) {
        Some((first, rest)) if matches!(first.kind, TokenKind::Attribute) => rest,
        _ => tokens,
    }
}

/// The name in upper case, where it isn't declared yet.
fn fresh_name(
    alloc: Global,
    text: &[u8],
    layout: &Layout,
    token: Token,
) -> Result<Vec<u8>, StepError>
    ensures exact { GivesOr (λ v. v.items) result (fresh_name text.now layout.now token) }
    ensures fresh { IfOk result (λ v. variable_of layout.now v.items ≡ None) }
{
    let name = upper(alloc, spelling(text, token))?;
    match layout.variable(name.as_slice()) {
        Some(_) => Err(StepError::Fault(fault_at(FaultKind::DoubleName, token))),
        None => Ok(name),
    }
}

/// The first values behind `:=`; in VAR_TEMP there are none.
fn given_at<'a>(
    alloc: Global,
    text: &[u8],
    turns: usize,
    kind: SectionKind,
    variable: Variable,
    tokens: &'a [Token],
) -> Result<(Vec<FirstValue>, Token, &'a [Token]), StepError>
    requires { length text.now ≤ 1048576 }
    ensures { GivesOr initials_view result (given_at turns text.now kind variable tokens.now) }
{
    match kind {
        SectionKind::Temporary => Err(StepError::Fault(refusal(text, tokens))),
        SectionKind::Structure => initials_at(alloc, text, turns, variable, tokens),
    }
}

/// [ ":=" init { "," init } ] behind a type, whose last token is `last`.
fn initial_values_at<'a>(
    alloc: Global,
    text: &[u8],
    turns: usize,
    kind: SectionKind,
    variable: Variable,
    last: Token,
    tokens: &'a [Token],
) -> Result<(Vec<FirstValue>, Token, &'a [Token]), StepError>
    requires { length text.now ≤ 1048576 }
    ensures { GivesOr initials_view result (initial_values_at turns text.now kind variable last tokens.now) }
{
    match maybe_sign_at(text, b":=", tokens) {
        Some((_, rest)) => given_at(alloc, text, turns, kind, variable, rest),
        None => Ok((Vec::new(alloc), last, tokens)),
    }
}

/// decl = name [ Attribute ] ":" type [ ":=" init { "," init } ] ";"
#[tactic(auto, unfolding(crate::specs::Declarations::declaration_at))]
pub fn declaration_at<'a>(
    alloc: Global,
    text: &[u8],
    turns: usize,
    kind: SectionKind,
    layout: &Layout,
    tokens: &'a [Token],
) -> Result<(Declaration, &'a [Token]), StepError>
    requires text { length text.now ≤ 1048576 }
    requires end { layout.now.end < 2 ^ 60 }
    ensures exact { GivesOr declaration_view result (declaration_at turns text.now kind layout.now tokens.now) }
    ensures fresh { IfOk result (λ x. variable_of layout.now x.0.name.items ≡ None) }
    ensures first { IfOk result (λ x. x.0.variable.first_bit ≤ layout.now.end + 15) }
    ensures placed { IfOk result (λ x. x.0.variable.first_bit ≡ first_bit x.0.variable.shape layout.now.end) }
{
    let (first, rest) = name_at(text, tokens)?;
    let name = fresh_name(alloc, text, layout, first)?;
    let (_, rest) = sign_at(text, b":", skip_attribute(rest))?;
    let (shape, last, rest) = shape_at(text, rest)?;
    let variable = Variable {
        first_bit: first_bit(shape, layout.end()),
        shape,
    };
    let (values, last, rest) = initial_values_at(alloc, text, turns, kind, variable, last, rest)?;
    let rest = semicolon_at(text, last, rest)?;
    Ok((
        Declaration {
            name,
            variable,
            values,
        },
        rest,
    ))
}
