//! The blocks of a source, as they are read.
ghost use Rattle.std.specs.Prelude.{◌≤◌, length, All, IfOk};
ghost use Rattle.stl_decl.specs.Steps.{GivesOr, at_rest};
ghost use Rattle.block_loader.specs.Told.{Gives};
ghost use Rattle.block_loader.specs.Fronts.{code_front_at, data_at, front_by, front_at};
ghost use Rattle.block_loader.specs.Blocks.{block_by, block_from, items_of, blocks_of};
ghost use Rattle.block_loader.specs.Sound.{IsSoundFront, IsSoundBlock};

use crate::error::LoadError;
use crate::heads::{BlockKind, Heading, heading_at, heads_at};
use s7_base::CodeKind;
use std::alloc::Global;
use stl_decl::{
    Layout, StepError, assignments_at, end_fault, structure_at, temporaries_at, word_at,
};
use stl_lex::{Token, Tokens};
use stl_reader::{Body, body};

/// What stands before the statements of a code block: its kind and number, the line and the column of its head and its temporary
/// names.
#[derive(Drop)]
pub struct CodeFront {
    pub kind: CodeKind,
    pub number: u8,
    pub line: u32,
    pub column: u32,
    pub temps: Layout,
}

/// A code block: its kind and number, the line and the column of its head, the bytes of its temporary data, and its body.
#[derive(Drop)]
pub struct SourceCode {
    pub kind: CodeKind,
    pub number: u8,
    pub line: u32,
    pub column: u32,
    pub temp: u32,
    pub body: Body,
}

/// A data block: its number, the line and the column of its head, and its names with their first values.
#[derive(Drop)]
pub struct SourceData {
    pub number: u8,
    pub line: u32,
    pub column: u32,
    pub layout: Layout,
}

/// What is read before the statements of a block: a data block has none.
#[derive(Drop)]
pub enum Front {
    Code(CodeFront),
    Data(SourceData),
}

/// A block of a source.
#[derive(Drop)]
pub enum SourceBlock {
    Code(SourceCode),
    Data(SourceData),
}

/// { head } { "VAR_TEMP" { decl } "END_VAR" } "BEGIN"
#[tactic(auto, unfolding(crate::specs::Fronts::code_front_at))]
fn code_front_at<'a>(
    alloc: Global,
    text: &[u8],
    turns: usize,
    heading: Heading,
    kind: CodeKind,
    tokens: &'a [Token],
) -> Result<(CodeFront, &'a [Token]), StepError>
    requires text { length text.now ≤ 1048576 }
    requires turns { turns ≤ 1048577 }
    ensures { GivesOr at_rest result (code_front_at turns text.now heading kind tokens.now) }
{
    let rest = heads_at(text, turns, tokens)?;
    let (temps, rest) = temporaries_at(alloc, text, turns, rest)?;
    let (_, rest) = word_at(text, b"BEGIN", rest)?;
    Ok((
        CodeFront {
            kind,
            number: heading.number,
            line: heading.line,
            column: heading.column,
            temps,
        },
        rest,
    ))
}

/// { head } "STRUCT" { decl } "END_STRUCT" [ ";" ] "BEGIN" { assignment } "END_DATA_BLOCK"
#[tactic(auto, unfolding(crate::specs::Fronts::data_at))]
fn data_at<'a>(
    alloc: Global,
    text: &[u8],
    turns: usize,
    heading: Heading,
    tokens: &'a [Token],
) -> Result<(SourceData, &'a [Token]), StepError>
    requires text { length text.now ≤ 1048576 }
    requires turns { turns ≤ 1048577 }
    ensures { GivesOr at_rest result (data_at turns text.now heading tokens.now) }
{
    let rest = heads_at(text, turns, tokens)?;
    let (layout, rest) = structure_at(alloc, text, turns, rest)?;
    let (_, rest) = word_at(text, b"BEGIN", rest)?;
    let (layout, rest) = assignments_at(alloc, text, turns, layout, rest)?;
    Ok((
        SourceData {
            number: heading.number,
            line: heading.line,
            column: heading.column,
            layout,
        },
        rest,
    ))
}

/// A block behind its first line, up to its statements.
fn front_by<'a>(
    alloc: Global,
    text: &[u8],
    turns: usize,
    heading: Heading,
    tokens: &'a [Token],
) -> Result<(Front, &'a [Token]), StepError>
    requires text { length text.now ≤ 1048576 }
    requires turns { turns ≤ 1048577 }
    ensures { GivesOr at_rest result (front_by heading.kind turns text.now heading tokens.now) }
{
    match heading.kind {
        BlockKind::Code(kind) => {
            let (front, rest) = code_front_at(alloc, text, turns, heading, kind, tokens)?;
            Ok((Front::Code(front), rest))
        }
        BlockKind::Data => {
            let (data, rest) = data_at(alloc, text, turns, heading, tokens)?;
            Ok((Front::Data(data), rest))
        }
    }
}

/// A block up to its statements.
#[tactic(auto, unfolding(crate::specs::Fronts::front_at))]
fn front_at<'a>(
    alloc: Global,
    text: &[u8],
    turns: usize,
    tokens: &'a [Token],
) -> Result<(Front, &'a [Token]), StepError>
    requires text { length text.now ≤ 1048576 }
    requires turns { turns ≤ 1048577 }
    ensures { GivesOr at_rest result (front_at turns text.now tokens.now) }
{
    let (heading, rest) = heading_at(text, tokens)?;
    front_by(alloc, text, turns, heading, rest)
}

/// The statements of a code block behind its front, from token number `from` on.
#[tactic(auto, unfolding(crate::specs::Blocks::block_by))]
fn block_by(
    alloc: Global,
    text: &[u8],
    tokens: &Tokens,
    front: Front,
    from: u32,
) -> Result<(SourceBlock, u32), LoadError>
    requires text { length text.now ≤ 1048576 }
    requires tokens { length tokens.now ≤ 1048576 }
    requires from { from ≤ length tokens.now }
    ensures exact { Gives (λ x. x) result (block_by front text.now tokens.now from) }
    ensures sound { IfOk result (λ x. IsSoundFront front → IsSoundBlock x.0) }
    ensures within { IfOk result (λ x. x.1 ≤ length tokens.now) }
{
    match front {
        Front::Data(data) => Ok((SourceBlock::Data(data), from)),
        Front::Code(front) => {
            let (body, next) = body(alloc, text, tokens, from, front.kind, &front.temps)?;
            let code = SourceCode {
                kind: front.kind,
                number: front.number,
                line: front.line,
                column: front.column,
                temp: front.temps.size(),
                body,
            };
            Ok((SourceBlock::Code(code), next))
        }
    }
}

/// The block that begins with token number `from`, and the number of the token behind it.
#[tactic(auto, unfolding(crate::specs::Blocks::block_from))]
fn block_from(
    alloc: Global,
    text: &[u8],
    tokens: &Tokens,
    from: u32,
) -> Result<(SourceBlock, u32), LoadError>
    requires text { length text.now ≤ 1048576 }
    requires tokens { length tokens.now ≤ 1048576 }
    requires from { from ≤ length tokens.now }
    ensures exact { Gives (λ x. x) result (block_from text.now tokens.now from) }
    ensures sound { IfOk result (λ x. IsSoundBlock x.0) }
    ensures within { IfOk result (λ x. x.1 ≤ length tokens.now) }
{
    let list = tokens.as_slice();
    let (front, rest) = front_at(alloc, text, list.len() + 1, &list[from as usize..])?;
    let behind = list.len().saturating_sub(rest.len()) as u32;
    block_by(alloc, text, tokens, front, behind)
}

/// { block }
pub fn blocks_of(alloc: Global, text: &[u8], tokens: &Tokens) -> Result<Vec<SourceBlock>, LoadError>
    requires text { length text.now ≤ 1048576 }
    requires tokens { length tokens.now ≤ 1048576 }
    ensures exact { Gives items_of result (blocks_of text.now tokens.now) }
    ensures sound { IfOk result (λ v. All IsSoundBlock v.items) }
{
    let mut blocks = Vec::new(alloc);
    let mut at = 0;
    for _turn in 0..tokens.as_slice().len() + 1 {
        if at as usize >= tokens.as_slice().len() {
            return Ok(blocks);
        }
        let (block, next) = block_from(alloc, text, tokens, at)?;
        blocks.push(block)?;
        at = next;
    }
    Err(LoadError::Fault(end_fault(text).told()))
}
