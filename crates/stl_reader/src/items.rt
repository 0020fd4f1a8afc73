//! What a body consists of: labels, statements, and headings of networks.
ghost use Rattle.std.specs.Prelude.{◌≡◌, ◌≤◌, length};
ghost use Rattle.std.specs.Option.{option_map};
ghost use Rattle.stl_decl.specs.Steps.{GivesOr, at_rest};
ghost use Rattle.stl_reader.specs.Items.{end_word, block_locals, label_at, bare, labelled_item, labelled_at, second_label, behind_label, is_heading, item_at, part_at};

use crate::operands::label_name;
use crate::statements::statement_at;
use s7_base::{CodeKind, Statement};
use std::alloc::Global;
use stl_decl::{
    Fault, FaultKind, Layout, StepError, end_fault, fault_at, is_sign, is_word, next, spelling,
};
use stl_lex::{Token, TokenKind};

/// A statement, and the line and the column of its mnemonic.
#[derive(Clone, Copy, Debug, PartialEq, Eq)]
pub struct BodyStatement {
    pub statement: Statement,
    pub line: u32,
    pub column: u32,
}

/// The name of a label, in upper case and filled up with zeros, and its line and column.
#[derive(Clone, Copy, Debug, PartialEq, Eq)]
pub struct LabelName {
    pub name: [u8; 4],
    pub line: u32,
    pub column: u32,
}

/// A label, a statement and the label that it jumps to, as far as they are there.
#[derive(Clone, Copy, Debug, PartialEq, Eq)]
pub struct Item {
    pub label: Option<LabelName>,
    pub statement: Option<BodyStatement>,
    pub target: Option<[u8; 4]>,
}

/// The word that ends a block of the kind.
fn end_word(kind: CodeKind) -> &'static [u8]
    ensures { result.now ≡ end_word kind }
{
    match kind {
        CodeKind::Ob => b"END_ORGANIZATION_BLOCK",
        CodeKind::Fb => b"END_FUNCTION_BLOCK",
        CodeKind::Fc => b"END_FUNCTION",
    }
}

/// The bytes of local data that the statements of the block see: an organisation block has its 20 bytes of start
/// information in any case.
fn block_locals(kind: CodeKind, temps: &Layout) -> u32
    ensures { result ≡ block_locals kind temps.now }
{
    match kind {
        CodeKind::Ob => temps.size().max(20),
        CodeKind::Fb | CodeKind::Fc => temps.size(),
    }
}

/// A word of at most four letters and a colon.
fn label_at<'a>(text: &[u8], tokens: &'a [Token]) -> Option<(LabelName, &'a [Token])>
    ensures { option_map at_rest result ≡ label_at text.now tokens.now }
{
    let (first, rest) = next(tokens)?;
    let (second, after) = next(rest)?;
    if !matches!(first.kind, TokenKind::Word) || !is_sign(text, second, b":") {
        return None;
    }
    let name = label_name(spelling(text, first))?;
    Some((
        LabelName {
            name,
            line: first.line,
            column: first.column,
        },
        after,
    ))
}

/// A label alone, or nothing.
fn bare(label: Option<LabelName>) -> Item
    ensures { result ≡ bare label }
{
    Item {
        label,
        statement: None,
        target: None,
    }
}

/// A statement behind a label, or without one.
#[tactic(auto, unfolding(crate::specs::Items::labelled_item))]
fn labelled_item<'a>(
    alloc: Global,
    text: &[u8],
    kind: CodeKind,
    temps: &Layout,
    label: Option<LabelName>,
    first: Token,
    tokens: &'a [Token],
) -> Result<(Item, &'a [Token]), StepError>
    requires { length text.now ≤ 1048576 }
    ensures { GivesOr at_rest result (labelled_item text.now kind temps.now label first tokens.now) }
{
    let locals = block_locals(kind, temps);
    let (statement, target, rest) = statement_at(alloc, text, locals, temps, tokens)?;
    Ok((
        Item {
            label,
            statement: Some(BodyStatement {
                statement,
                line: first.line,
                column: first.column,
            }),
            target,
        },
        rest,
    ))
}

/// [ mnemonic [ operand ] ] ";" behind a label, or without one. Before the end word a label stands alone.
fn labelled_at<'a>(
    alloc: Global,
    text: &[u8],
    kind: CodeKind,
    temps: &Layout,
    label: Option<LabelName>,
    tokens: &'a [Token],
) -> Result<(Item, &'a [Token]), StepError>
    requires { length text.now ≤ 1048576 }
    ensures { GivesOr at_rest result (labelled_at text.now kind temps.now label tokens.now) }
{
    let Some((first, rest)) = next(tokens) else {
        return Err(StepError::Fault(end_fault(text)));
    };
    if is_word(text, first, end_word(kind)) {
        return Ok((bare(label), tokens));
    }
    if is_sign(text, first, b";") {
        return Ok((bare(label), rest));
    }
    labelled_item(alloc, text, kind, temps, label, first, tokens)
}

/// The fault of a second label before one statement.
fn second_label(text: &[u8], tokens: &[Token]) -> Option<Fault>
    ensures { result ≡ second_label text.now tokens.now }
{
    let (first, _) = next(tokens)?;
    if label_at(text, tokens).is_some() {
        Some(fault_at(FaultKind::UnknownInstruction, first))
    } else {
        None
    }
}

/// What stands behind a label.
fn behind_label<'a>(
    alloc: Global,
    text: &[u8],
    kind: CodeKind,
    temps: &Layout,
    label: LabelName,
    tokens: &'a [Token],
) -> Result<(Item, &'a [Token]), StepError>
    requires { length text.now ≤ 1048576 }
    ensures { GivesOr at_rest result (behind_label (second_label text.now tokens.now) text.now kind temps.now label tokens.now) }
{
    match second_label(text, tokens) {
        Some(fault) => Err(StepError::Fault(fault)),
        None => labelled_at(alloc, text, kind, temps, Some(label), tokens),
    }
}

/// [ label ":" ] [ mnemonic [ operand ] ] ";"
#[tactic(auto, unfolding(crate::specs::Items::item_at))]
fn item_at<'a>(
    alloc: Global,
    text: &[u8],
    kind: CodeKind,
    temps: &Layout,
    tokens: &'a [Token],
) -> Result<(Item, &'a [Token]), StepError>
    requires { length text.now ≤ 1048576 }
    ensures { GivesOr at_rest result (item_at text.now kind temps.now tokens.now) }
{
    match label_at(text, tokens) {
        Some((label, rest)) => behind_label(alloc, text, kind, temps, label, rest),
        None => labelled_at(alloc, text, kind, temps, None, tokens),
    }
}

/// Whether the token is a heading: NETWORK, or a title.
fn is_heading(text: &[u8], token: Token) -> bool
    ensures { result ≡ is_heading text.now token }
{
    matches!(token.kind, TokenKind::Title) || is_word(text, token, b"NETWORK")
}

/// A statement behind its label, a heading, or None at the end word of the block.
#[tactic(auto, unfolding(crate::specs::Items::part_at))]
pub fn part_at<'a>(
    alloc: Global,
    text: &[u8],
    kind: CodeKind,
    temps: &Layout,
    tokens: &'a [Token],
) -> Result<(Option<Item>, &'a [Token]), StepError>
    requires { length text.now ≤ 1048576 }
    ensures exact { GivesOr at_rest result (part_at text.now kind temps.now tokens.now) }
{
    let Some((first, rest)) = next(tokens) else {
        return Err(StepError::Fault(end_fault(text)));
    };
    if is_word(text, first, end_word(kind)) {
        return Ok((None, rest));
    }
    if is_heading(text, first) {
        return Ok((Some(bare(None)), rest));
    }
    let (item, rest) = item_at(alloc, text, kind, temps, tokens)?;
    Ok((Some(item), rest))
}
