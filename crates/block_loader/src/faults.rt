//! The faults of a whole source whose blocks have been read.
ghost use Rattle.std.specs.Prelude.{◌≡◌, ◌<◌, ◌≤◌, ◌+◌, ◌^◌, [], ℕ, List, drop, IfOk, OnOk, None, Some};
ghost use Rattle.std.specs.Cmp.Lexicographic.{slice_cmp};
ghost use Rattle.std.specs.Ordering.{nat_cmp};
ghost use Rattle.std.specs.List.{flat_map, list_all};
ghost use Rattle.std.specs.BTreeMap.{get};
ghost use Rattle.s7_base.specs.Statements.{is_ju};
ghost use Rattle.stl_decl.specs.declared.fault.Fault.{Fault};
ghost use Rattle.block_loader.specs.Least.{IsLeast};
ghost use Rattle.block_loader.specs.Faults.{is_before, lesser, least_of, target, with_label, double_label, double_labels, is_far, has_list, fault_at, landing_fault, label_fault, jump_fault, code_faults, inner_faults, kind_byte, name_of, line_of, column_of, total, counted, is_too_large, at_head, head_faults, missing, first_fault};

use crate::blocks::{SourceBlock, SourceCode};
use indexmap::IndexSet;
use s7_base::CodeKind;
use std::alloc::{AllocError, AllocFailed, Global};
use std::collections::BTreeMap;
use stl_decl::{Fault, FaultKind};
use stl_reader::{BodyStatement, Jump, Label};

/// What the blocks so far have together, up to a million each.
#[derive(Clone, Copy, Debug, PartialEq, Eq)]
pub struct Totals {
    pub statements: u64,
    pub bytes: u64,
    pub pages: u64,
}

/// Whether a fault stands before the other: in an earlier line, else in an earlier column, else by a lower kind.
fn is_before(fault: Fault, other: Fault) -> bool
    ensures { result ≡ is_before fault other }
{
    fault.line < other.line
        || (fault.line == other.line
            && (fault.column < other.column
                || (fault.column == other.column && fault.kind.number() < other.kind.number())))
}

/// The lesser of what was found and this.
fn lesser(found: Option<Fault>, fault: Fault) -> Option<Fault>
    ensures { result ≡ lesser found fault }
{
    match found {
        None => Some(fault),
        Some(other) => {
            if is_before(fault, other) {
                Some(fault)
            } else {
                Some(other)
            }
        }
    }
}

/// Takes a label into the names, unless one of its name is there.
#[tactic(auto, unfolding(crate::specs::Faults::least_of))]
fn take_label(
    names: &mut BTreeMap<[u8; 4], u32>,
    label: Label,
    found: Option<Fault>,
) -> Result<Option<Fault>, AllocFailed<([u8; 4], u32)>>
    ensures found { IfOk result (λ f. f ≡ least_of found (double_label (get (slice_cmp nat_cmp) names.old label.name) label)) }
    ensures names { OnOk result ((k : List ℕ) → get (slice_cmp nat_cmp) names.new k ≡ with_label (get (slice_cmp nat_cmp) names.old k) k label) }
{
    let name = label.name;
    if names.contains_key(&name) {
        Ok(lesser(
            found,
            Fault {
                kind: FaultKind::DoubleLabel,
                line: label.line,
                column: label.column,
            },
        ))
    } else {
        names.insert(name, label.statement)?;
        Ok(found)
    }
}

/// The statements that the names stand before, and the least fault with those of double labels.
pub(crate) fn labels_of(
    alloc: Global,
    labels: &[Label],
    found: Option<Fault>,
) -> Result<(BTreeMap<[u8; 4], u32>, Option<Fault>), AllocError>
    ensures names { IfOk result (λ x. (k : List ℕ) → get (slice_cmp nat_cmp) x.0 k ≡ target labels.now k) }
    ensures found { IfOk result (λ x. x.1 ≡ least_of found (double_labels [] labels.now)) }
{
    let mut names = BTreeMap::new(alloc);
    let mut least = found;
    for label in labels {
        least = take_label(&mut names, *label, least)?;
    }
    Ok((names, least))
}

/// Whether more than 2,000 statements lie between these.
fn is_far(target: u32, jump: u32) -> bool
    ensures { result ≡ is_far target jump }
{
    target as u64 + 2000 < jump as u64 || jump as u64 + 2000 < target as u64
}

fn are_ju(statements: &[BodyStatement]) -> bool
    ensures { result ≡ list_all (λ s. is_ju s.statement) statements.now }
{
    statements.iter().all(|s| s.statement.is_ju())
}

/// Whether between a JL and its target stand 1 to 255 JU and nothing else.
fn has_list(at: u32, target: u32, after: &[BodyStatement]) -> bool
    ensures { result ≡ has_list at target after.now }
{
    let first = at as usize + 1;
    let target = target as usize;
    first < target
        && target <= first + 255
        && target - first <= after.len()
        && are_ju(&after[..target - first])
}

/// A fault at a statement.
fn fault_at(kind: FaultKind, statement: BodyStatement) -> Fault
    ensures { result ≡ fault_at kind statement }
{
    Fault {
        kind,
        line: statement.line,
        column: statement.column,
    }
}

/// The fault of a jump whose label is there, if it is one.
#[tactic(auto, unfolding(crate::specs::Faults::least_of))]
fn take_landing(
    jump: Jump,
    target: u32,
    statement: BodyStatement,
    after: &[BodyStatement],
    found: Option<Fault>,
) -> Option<Fault>
    ensures { result ≡ least_of found (landing_fault jump target statement after.now) }
{
    if statement.statement.is_jl() && !has_list(jump.statement, target, after) {
        return lesser(found, fault_at(FaultKind::NoLabel, statement));
    }
    if is_far(target, jump.statement) {
        return lesser(found, fault_at(FaultKind::JumpTooFar, statement));
    }
    found
}

#[tactic(auto, unfolding(crate::specs::Faults::least_of))]
fn take_label_of(
    jump: Jump,
    target: Option<u32>,
    statement: BodyStatement,
    after: &[BodyStatement],
    found: Option<Fault>,
) -> Option<Fault>
    ensures { result ≡ least_of found (label_fault jump target statement after.now) }
{
    match target {
        None => lesser(found, fault_at(FaultKind::NoLabel, statement)),
        Some(target) => take_landing(jump, target, statement, after, found),
    }
}

/// The statements behind this one.
fn behind(statements: &[BodyStatement], n: u32) -> &[BodyStatement]
    ensures { result.now ≡ drop (n + 1) statements.now }
{
    let first = (n as usize + 1).min(statements.len());
    &statements[first..]
}

#[tactic(auto, unfolding(crate::specs::Faults::jump_fault, crate::specs::Faults::least_of))]
fn take_jump(
    statements: &[BodyStatement],
    target: Option<u32>,
    jump: Jump,
    found: Option<Fault>,
) -> Option<Fault>
    ensures { result ≡ least_of found (jump_fault statements.now target jump) }
{
    match statements.get(jump.statement as usize) {
        Some(statement) => take_label_of(
            jump,
            target,
            *statement,
            behind(statements, jump.statement),
            found,
        ),
        None => found,
    }
}

/// The least fault with those of the jumps.
fn take_jumps(
    names: &BTreeMap<[u8; 4], u32>,
    statements: &[BodyStatement],
    jumps: &[Jump],
    found: Option<Fault>,
) -> Option<Fault>
    ensures { result ≡ least_of found (flat_map (λ j. jump_fault statements.now (get (slice_cmp nat_cmp) names.now j.name) j) jumps.now) }
{
    let mut least = found;
    for jump in jumps {
        let name = jump.name;
        let target = names.get(&name).copied();
        least = take_jump(statements, target, *jump, least);
    }
    least
}

/// The least fault with those inside a code block.
fn take_code(
    alloc: Global,
    code: &SourceCode,
    found: Option<Fault>,
) -> Result<Option<Fault>, AllocError>
    ensures { IfOk result (λ f. f ≡ least_of found (code_faults code.now)) }
{
    let (names, least) = labels_of(alloc, code.body.labels(), found)?;
    Ok(take_jumps(&names, code.body.statements(), code.body.jumps(), least))
}

/// The least fault with those inside a block.
#[tactic(auto, unfolding(crate::specs::Faults::least_of))]
fn take_inner(
    alloc: Global,
    source: &SourceBlock,
    found: Option<Fault>,
) -> Result<Option<Fault>, AllocError>
    ensures { IfOk result (λ f. f ≡ least_of found (inner_faults source.now)) }
{
    match source {
        SourceBlock::Code(code) => take_code(alloc, code, found),
        SourceBlock::Data(_) => Ok(found),
    }
}

impl SourceBlock {
    /// Kind and number.
    fn name(&self) -> [u8; 2]
        ensures { result ≡ name_of self.now }
    {
        match self {
            SourceBlock::Code(code) => [kind_byte(code.kind), code.number],
            SourceBlock::Data(data) => [3, data.number],
        }
    }

    /// The line of its head.
    fn line(&self) -> u32
        ensures { result ≡ line_of self.now }
    {
        match self {
            SourceBlock::Code(code) => code.line,
            SourceBlock::Data(data) => data.line,
        }
    }

    /// The column of its head.
    fn column(&self) -> u32
        ensures { result ≡ column_of self.now }
    {
        match self {
            SourceBlock::Code(code) => code.column,
            SourceBlock::Data(data) => data.column,
        }
    }
}

pub(crate) fn kind_byte(kind: CodeKind) -> u8
    ensures { result ≡ kind_byte kind }
{
    match kind {
        CodeKind::Ob => 0,
        CodeKind::Fb => 1,
        CodeKind::Fc => 2,
    }
}

/// A total with so many more, up to a million.
fn total(so_far: u64, more: u64) -> u64
    requires so_far { so_far ≤ 1000000 }
    requires more { more < 2 ^ 63 }
    ensures exact { result ≡ total so_far more }
    ensures within { result ≤ 1000000 }
{
    (so_far + more).min(1_000_000)
}

/// The totals with one block more.
fn counted(totals: Totals, block: &SourceBlock) -> Totals
    requires statements { totals.statements ≤ 1000000 }
    requires bytes { totals.bytes ≤ 1000000 }
    requires pages { totals.pages ≤ 1000000 }
    ensures exact { result ≡ counted totals block.now }
    ensures statements { result.statements ≤ 1000000 }
    ensures bytes { result.bytes ≤ 1000000 }
    ensures pages { result.pages ≤ 1000000 }
{
    match block {
        SourceBlock::Code(code) => Totals {
            statements: total(totals.statements, code.body.statements().len() as u64),
            bytes: totals.bytes,
            pages: totals.pages,
        },
        SourceBlock::Data(data) => {
            let size = data.layout.size() as u64;
            Totals {
                statements: totals.statements,
                bytes: total(totals.bytes, size),
                pages: total(totals.pages, (size + 255) / 256),
            }
        }
    }
}

/// Whether a limit is passed with this block: its own or that of the whole.
fn is_too_large(totals: Totals, block: &SourceBlock) -> bool
    ensures { result ≡ is_too_large totals block.now }
{
    match block {
        SourceBlock::Code(code) => {
            code.body.statements().len() > 4000 || totals.statements > 12_000 || code.temp > 256
        }
        SourceBlock::Data(data) => {
            data.layout.size() > 8192 || totals.bytes > 32_768 || totals.pages > 256
        }
    }
}

/// The least fault with this one at a block's head, where it is there.
#[tactic(auto, unfolding(crate::specs::Faults::least_of))]
fn take_at_head(
    there: bool,
    kind: FaultKind,
    block: &SourceBlock,
    found: Option<Fault>,
) -> Option<Fault>
    ensures { result ≡ least_of found (at_head there kind block.now) }
{
    if there {
        lesser(
            found,
            Fault {
                kind,
                line: block.line(),
                column: block.column(),
            },
        )
    } else {
        found
    }
}

/// The least fault with those at a block's head.
fn take_head(
    taken: bool,
    number: usize,
    totals: Totals,
    block: &SourceBlock,
    found: Option<Fault>,
) -> Option<Fault>
    ensures { result ≡ least_of found (head_faults taken number totals block.now) }
{
    let double = take_at_head(taken, FaultKind::DoubleBlock, block, found);
    let many = take_at_head(number == 257, FaultKind::TooManyBlocks, block, double);
    let too_large = is_too_large(totals, block);
    take_at_head(too_large, FaultKind::TooLarge, block, many)
}

/// The least fault with that of OB1 where it isn't there.
#[tactic(auto, unfolding(crate::specs::Faults::least_of))]
fn take_missing(has_ob1: bool, found: Option<Fault>) -> Option<Fault>
    ensures { result ≡ least_of found (missing has_ob1) }
{
    if has_ob1 {
        found
    } else {
        lesser(
            found,
            Fault {
                kind: FaultKind::NoOb1,
                line: 0,
                column: 0,
            },
        )
    }
}

/// The first fault of the whole source.
pub fn first_fault(alloc: Global, blocks: &[SourceBlock]) -> Result<Option<Fault>, AllocError>
    ensures { IfOk result (λ f. f ≡ first_fault blocks.now) }
{
    let mut names: IndexSet<[u8; 2]> = IndexSet::new(alloc);
    let mut number: usize = 0;
    let mut totals = Totals {
        statements: 0,
        bytes: 0,
        pages: 0,
    };
    let mut least = None;
    for block in blocks {
        let taken = !names.insert(block.name())?;
        number += 1;
        totals = counted(totals, block);
        least = take_head(taken, number, totals, block, least);
        least = take_inner(alloc, block, least)?;
    }
    Ok(take_missing(names.contains(&[0, 1]), least))
}

/// The fault that is found is one of all faults, and none of them stands before it. None is found only where there
/// is none.
pub fn least_fault_law()
    ensures some { (fs : List Fault) (f : Fault) → least_of None fs ≡ Some f → IsLeast f fs }
    ensures none { (fs : List Fault) → least_of None fs ≡ None → fs ≡ [] }
{}
