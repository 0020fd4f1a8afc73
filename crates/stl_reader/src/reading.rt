//! The body of a code block.
ghost use Rattle.std.specs.Prelude.{◌≡◌, ◌≤◌, ◌<◌, ◌+◌, ◌^◌, ◌++◌, length, IfOk, OnOk};
ghost use Rattle.std.specs.Option.{option_to_list};
ghost use Rattle.stl_decl.specs.Steps.{GivesOr, IsNoFault};
ghost use Rattle.stl_reader.specs.Contents.{contents_of};
ghost use Rattle.stl_reader.specs.Items.{block_locals};
ghost use Rattle.stl_reader.specs.Sound.{IsSound};
ghost use Rattle.stl_reader.specs.Reading.{labels_of, jumps_of, adds, parts_at, contents_view, body_of, Gives};

use crate::contents::{Body, Jump, Label, Lists};
use crate::items::{BodyStatement, Item, LabelName, part_at};
use s7_base::CodeKind;
use std::alloc::Global;
use stl_decl::{Layout, StepError, end_fault};
use stl_lex::{LoadFault, Token, Tokens};
use thiserror::Error;

/// Why a body wasn't read.
#[derive(Clone, Copy, Debug, PartialEq, Eq, Error)]
pub enum ReadError {
    /// The body has a fault: of the kinds 9 to 13 and 21.
    #[error("line {}: fault {}", .0.line, .0.kind)]
    Fault(LoadFault),
    /// Memory ran out.
    #[error("out of memory")]
    NoMemory,
}

impl From<StepError> for ReadError {
    ghost use Rattle.stl_reader.specs.Reading.{denied};

    ghost from_gives = { λ e d. d ≡ denied e };

    fn from(error: StepError) -> Self {
        match error {
            StepError::Fault(fault) => ReadError::Fault(fault.told()),
            StepError::NoMemory => ReadError::NoMemory,
        }
    }
}

fn keep_statement(
    statements: &mut Vec<BodyStatement>,
    statement: Option<BodyStatement>,
) -> Result<(), StepError>
    ensures ok { OnOk result (statements.new.items ≡ statements.old.items ++ option_to_list statement) }
    ensures err { IsNoFault result }
{
    if let Some(statement) = statement {
        statements.push(statement)?;
    }
    Ok(())
}

fn keep_label(
    labels: &mut Vec<Label>,
    label: Option<LabelName>,
    statement: u32,
) -> Result<(), StepError>
    ensures ok { OnOk result (labels.new.items ≡ labels.old.items ++ labels_of label statement) }
    ensures err { IsNoFault result }
{
    if let Some(label) = label {
        let name = label.name;
        labels.push(Label {
            name,
            statement,
            line: label.line,
            column: label.column,
        })?;
    }
    Ok(())
}

fn keep_jump(
    jumps: &mut Vec<Jump>,
    target: Option<[u8; 4]>,
    statement: u32,
) -> Result<(), StepError>
    ensures ok { OnOk result (jumps.new.items ≡ jumps.old.items ++ jumps_of target statement) }
    ensures err { IsNoFault result }
{
    if let Some(name) = target {
        jumps.push(Jump { statement, name })?;
    }
    Ok(())
}

fn keep_item(lists: &mut Lists, item: Item) -> Result<(), StepError>
    requires { length lists.old.statements.items < 2 ^ 31 }
    ensures ok { OnOk result (contents_of lists.new ≡ adds (contents_of lists.old) item) }
    ensures count { OnOk result (length lists.new.statements.items ≤ length lists.old.statements.items + 1) }
    ensures err { IsNoFault result }
{
    let number = lists.statements.len() as u32;
    keep_label(&mut lists.labels, item.label, number)?;
    keep_jump(&mut lists.jumps, item.target, number)?;
    keep_statement(&mut lists.statements, item.statement)?;
    Ok(())
}

/// The parts of a body up to its end word, and the rest.
fn parts_at<'a>(
    alloc: Global,
    text: &[u8],
    kind: CodeKind,
    temps: &Layout,
    tokens: &'a [Token],
) -> Result<(Lists, &'a [Token]), StepError>
    requires text { length text.now ≤ 1048576 }
    requires tokens { length tokens.now ≤ 1048576 }
    ensures exact { GivesOr contents_view result (parts_at text.now kind temps.now tokens.now) }
{
    let mut lists = Lists {
        statements: Vec::new(alloc),
        labels: Vec::new(alloc),
        jumps: Vec::new(alloc),
    };
    let mut rest = tokens;
    for _turn in 0..tokens.len() {
        let (item, after) = part_at(alloc, text, kind, temps, rest)?;
        let Some(item) = item else {
            return Ok((lists, after));
        };
        keep_item(&mut lists, item)?;
        rest = after;
    }
    Err(StepError::Fault(end_fault(text)))
}

/// The body of a code block of this kind, whose temporary names are `temps`, from token number `from` on, which
/// follows BEGIN, and the number of the token behind its end word; or its first fault.
///
/// # Errors
///
/// `Fault` of kind 9 (a statement begins with no mnemonic), 10 (an instruction or a constant of real numbers), 11
/// (an operand or a token that doesn't fit), 12 (a name that isn't declared), 13 (no `;`, or the text ends) or 21
/// (what is left out of the language); `NoMemory` where memory runs out.
pub fn body(
    alloc: Global,
    text: &[u8],
    tokens: &Tokens,
    from: u32,
    kind: CodeKind,
    temps: &Layout,
) -> Result<(Body, u32), ReadError>
    requires text { length text.now ≤ 1048576 }
    requires tokens { length tokens.now ≤ 1048576 }
    requires from { from ≤ length tokens.now }
    ensures exact { Gives result (body_of text.now tokens.now from kind temps.now) }
    // Its statements are of the language, its labels and jumps are in their places.
    ensures sound { IfOk result (λ x. IsSound (block_locals kind temps.now) x.0) }
    ensures within { IfOk result (λ x. x.1 ≤ length tokens.now) }
{
    let tokens = tokens.as_slice();
    let (lists, rest) = parts_at(alloc, text, kind, temps, &tokens[from as usize..])?;
    let behind = tokens.len().saturating_sub(rest.len()) as u32;
    Ok((Body::new(lists), behind))
}
