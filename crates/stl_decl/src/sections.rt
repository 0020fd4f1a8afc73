//! Sections of declarations, and the assignments of a data block.
ghost use Rattle.std.specs.Prelude.{◌≡◌, ◌≤◌, ◌<◌, ◌+◌, ◌^◌, length, IfOk};
ghost use Rattle.stl_decl.specs.Steps.{Gives, GivesOr, at_rest};
ghost use Rattle.stl_decl.specs.Faults.{told_of};
ghost use Rattle.stl_decl.specs.Sections.{end_word, section_at, layout_view, is_other_section, is_left_out, no_section_at, temporaries_at, opening_at, skip_semicolon, structure_at, declared_name, assignment_at, assignments_at, begins_structure, layout_at, declarations_of, Tells};

use crate::elements::element_at;
use crate::fault::{DeclError, Fault, FaultKind, StepError};
use crate::grammar::{SectionKind, declaration_at};
use crate::initials::value_of_type_at;
use crate::layout::{FirstValue, Layout};
use crate::steps::{
    end_fault, fault_at, is_sign, is_word, maybe_word_at, name_at, next, semicolon_at, sign_at,
    spelling, unfit, upper,
};
use crate::types::{Variable, element_bit};
use std::alloc::Global;
use stl_lex::{Token, Tokens};

fn end_word(kind: SectionKind) -> &'static [u8]
    ensures { result.now ≡ end_word kind }
{
    match kind {
        SectionKind::Temporary => b"END_VAR",
        SectionKind::Structure => b"END_STRUCT",
    }
}

/// { decl } and the section's end word, behind the names that the layout has.
fn section_at<'a>(
    alloc: Global,
    text: &[u8],
    turns: usize,
    kind: SectionKind,
    layout: Layout,
    tokens: &'a [Token],
) -> Result<(Layout, &'a [Token]), StepError>
    requires text { length text.now ≤ 1048576 }
    requires turns { turns ≤ 1048577 }
    requires end { layout.end < 2 ^ 59 + 2 ^ 58 }
    ensures exact { GivesOr layout_view result (section_at turns text.now kind layout tokens.now) }
    ensures small { IfOk result (λ x. x.0.end ≤ layout.end + 2 ^ 39 + 2 ^ 27) }
{
    let mut layout = layout;
    let mut rest = tokens;
    for _turn in 0..turns {
        if let Some((_, after)) = maybe_word_at(text, end_word(kind), rest) {
            return Ok((layout, after));
        }
        let (declaration, after) = declaration_at(alloc, text, turns, kind, &layout, rest)?;
        layout.declare(declaration)?;
        rest = after;
    }
    Err(StepError::Fault(end_fault(text)))
}

/// Whether the token begins a section that is left out of the language.
#[tactic(auto, unfolding(crate::specs::Sections::is_other_section))]
fn is_other_section(text: &[u8], token: Token) -> bool
    ensures { result ≡ is_other_section text.now token }
{
    is_word(text, token, b"VAR")
        || is_word(text, token, b"VAR_INPUT")
        || is_word(text, token, b"VAR_OUTPUT")
        || is_word(text, token, b"VAR_IN_OUT")
}

/// Nothing, or the fault of a section that is left out of the language.
fn no_section_at(text: &[u8], tokens: &[Token]) -> Result<(), Fault>
    ensures { result ≡ no_section_at text.now tokens.now }
{
    match next(tokens) {
        Some((first, _)) if is_other_section(text, first) => {
            Err(fault_at(FaultKind::OutOfScope, first))
        }
        _ => Ok(()),
    }
}

/// { "VAR_TEMP" { decl } "END_VAR" }, as one section.
pub fn temporaries_at<'a>(
    alloc: Global,
    text: &[u8],
    turns: usize,
    tokens: &'a [Token],
) -> Result<(Layout, &'a [Token]), StepError>
    requires text { length text.now ≤ 1048576 }
    requires turns { turns ≤ 1048577 }
    ensures { GivesOr layout_view result (temporaries_at turns text.now tokens.now) }
{
    let mut layout = Layout::new(alloc);
    let mut rest = tokens;
    for _turn in 0..turns {
        let Some((_, inside)) = maybe_word_at(text, b"VAR_TEMP", rest) else {
            no_section_at(text, rest)?;
            return Ok((layout, rest));
        };
        let (more, after) = section_at(alloc, text, turns, SectionKind::Temporary, layout, inside)?;
        layout = more;
        rest = after;
    }
    Err(StepError::Fault(end_fault(text)))
}

/// Whether the token begins what is left out of the language in the place of STRUCT.
#[tactic(auto, unfolding(crate::specs::Sections::is_left_out))]
fn is_left_out(text: &[u8], token: Token) -> bool
    ensures { result ≡ is_left_out text.now token }
{
    is_other_section(text, token) || is_word(text, token, b"FB") || is_word(text, token, b"UDT")
}

/// "STRUCT". A data block of another kind is left out of the language.
fn opening_at<'a>(text: &[u8], tokens: &'a [Token]) -> Result<(Token, &'a [Token]), Fault>
    requires { length text.now ≤ 1048576 }
    ensures { Gives at_rest result (opening_at text.now tokens.now) }
{
    let Some((first, rest)) = next(tokens) else {
        return Err(end_fault(text));
    };
    if is_word(text, first, b"STRUCT") {
        Ok((first, rest))
    } else if is_left_out(text, first) {
        Err(fault_at(FaultKind::OutOfScope, first))
    } else {
        Err(unfit(text, first))
    }
}

/// [ ";" ]
fn skip_semicolon<'a>(text: &[u8], tokens: &'a [Token]) -> &'a [Token]
    ensures { result.now ≡ skip_semicolon text.now tokens.now }
{
    match next(tokens) {
        Some((first, rest)) if is_sign(text, first, b";") => rest,
        _ => tokens,
    }
}

/// "STRUCT" { decl } "END_STRUCT" [ ";" ]
#[tactic(auto, unfolding(crate::specs::Sections::structure_at))]
pub fn structure_at<'a>(
    alloc: Global,
    text: &[u8],
    turns: usize,
    tokens: &'a [Token],
) -> Result<(Layout, &'a [Token]), StepError>
    requires text { length text.now ≤ 1048576 }
    requires turns { turns ≤ 1048577 }
    ensures { GivesOr layout_view result (structure_at turns text.now tokens.now) }
{
    let (_, rest) = opening_at(text, tokens)?;
    let empty = Layout::new(alloc);
    let (layout, rest) = section_at(alloc, text, turns, SectionKind::Structure, empty, rest)?;
    Ok((layout, skip_semicolon(text, rest)))
}

/// What a declared name stands for.
fn declared_name(
    alloc: Global,
    text: &[u8],
    layout: &Layout,
    token: Token,
) -> Result<Variable, StepError>
    ensures { GivesOr (λ v. v) result (declared_name text.now layout.now token) }
{
    let name = upper(alloc, spelling(text, token))?;
    match layout.variable(name.as_slice()) {
        Some(variable) => Ok(variable),
        None => Err(StepError::Fault(fault_at(FaultKind::UnknownName, token))),
    }
}

/// name [ "[" int "]" ] ":=" value ";"
#[tactic(auto, unfolding(crate::specs::Sections::assignment_at))]
fn assignment_at<'a>(
    alloc: Global,
    text: &[u8],
    layout: &Layout,
    tokens: &'a [Token],
) -> Result<(FirstValue, &'a [Token]), StepError>
    requires { length text.now ≤ 1048576 }
    ensures { GivesOr at_rest result (assignment_at text.now layout.now tokens.now) }
{
    let (name, rest) = name_at(text, tokens)?;
    let variable = declared_name(alloc, text, layout, name)?;
    let (k, _, rest) = element_at(text, variable.shape, name, rest)?;
    let (_, rest) = sign_at(text, b":=", rest)?;
    let (value, rest) = value_of_type_at(text, variable.shape.simple, rest)?;
    let rest = semicolon_at(text, value.last, rest)?;
    Ok((
        FirstValue {
            first_bit: element_bit(variable, k),
            bits: variable.shape.simple.bits(),
            count: 1,
            value: value.constant.value,
        },
        rest,
    ))
}

/// { name [ "[" int "]" ] ":=" value ";" } "END_DATA_BLOCK": the layout with these values behind its first ones.
pub fn assignments_at<'a>(
    alloc: Global,
    text: &[u8],
    turns: usize,
    layout: Layout,
    tokens: &'a [Token],
) -> Result<(Layout, &'a [Token]), StepError>
    requires { length text.now ≤ 1048576 }
    ensures { GivesOr layout_view result (assignments_at turns text.now layout tokens.now) }
{
    let mut layout = layout;
    let mut rest = tokens;
    for _turn in 0..turns {
        if let Some((_, after)) = maybe_word_at(text, b"END_DATA_BLOCK", rest) {
            return Ok((layout, after));
        }
        let (value, after) = assignment_at(alloc, text, &layout, rest)?;
        layout.assign(value)?;
        rest = after;
    }
    Err(StepError::Fault(end_fault(text)))
}

/// Whether STRUCT stands there.
fn begins_structure(text: &[u8], tokens: &[Token]) -> bool
    ensures { result ≡ begins_structure text.now tokens.now }
{
    match next(tokens) {
        Some((first, _)) => is_word(text, first, b"STRUCT"),
        None => false,
    }
}

/// The section that begins here.
#[tactic(auto, unfolding(crate::specs::Sections::layout_at))]
fn layout_at<'a>(
    alloc: Global,
    text: &[u8],
    tokens: &'a [Token],
) -> Result<(Layout, &'a [Token]), StepError>
    requires text { length text.now ≤ 1048576 }
    requires tokens { length tokens.now ≤ 1048576 }
    ensures { GivesOr layout_view result (layout_at text.now tokens.now) }
{
    if begins_structure(text, tokens) {
        structure_at(alloc, text, tokens.len() + 1, tokens)
    } else {
        temporaries_at(alloc, text, tokens.len() + 1, tokens)
    }
}

/// The section that begins at a token, and the number of the token behind it.
#[tactic(auto, unfolding(crate::specs::Sections::declarations_of))]
fn from_here<'a>(
    alloc: Global,
    text: &[u8],
    tokens: &'a [Token],
    from: u32,
) -> Result<(Layout, u32), StepError>
    requires text { length text.now ≤ 1048576 }
    requires tokens { length tokens.now ≤ 1048576 }
    requires from { from ≤ length tokens.now }
    ensures exact { GivesOr (λ x. x) result (declarations_of text.now tokens.now from) }
    ensures within { IfOk result (λ x. x.1 ≤ length tokens.now) }
{
    let (layout, rest) = layout_at(alloc, text, &tokens[from as usize..])?;
    Ok((layout, (tokens.len().saturating_sub(rest.len())) as u32))
}

/// The declarations that begin at a token: the STRUCT section that stands there, or all VAR_TEMP sections that
/// follow one another there, which may be none, as one layout. The number of the token behind them stands beside it.
/// The text has at most 1,048,576 bytes, and no more tokens; `from` is at most their number.
///
/// # Errors
///
/// `Fault` where a rule of declarations isn't met: kind 5, 6, 7, 8, 11, 13 or 21, that of the first rule, reading
/// from left to right; `NoMemory` where memory runs out.
pub fn declarations(
    alloc: Global,
    text: &[u8],
    tokens: &Tokens,
    from: u32,
) -> Result<(Layout, u32), DeclError>
    requires text { length text.now ≤ 1048576 }
    requires tokens { length tokens.now ≤ 1048576 }
    requires from { from ≤ length tokens.now }
    ensures exact { Tells result (told_of (declarations_of text.now tokens.now from)) }
    ensures within { IfOk result (λ x. x.1 ≤ length tokens.now) }
{
    match from_here(alloc, text, tokens.as_slice(), from) {
        Ok(found) => Ok(found),
        Err(StepError::Fault(fault)) => Err(DeclError::Fault(fault.told())),
        Err(StepError::NoMemory) => Err(DeclError::NoMemory),
    }
}
