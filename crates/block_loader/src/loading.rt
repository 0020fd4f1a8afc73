//! Loads a source: the blocks of its program, or its first fault.
ghost use Rattle.std.specs.Prelude.{◌≡◌, ◌≤◌, length, map, All, None, IfOk, IfErr, OnOk};
ghost use Rattle.std.specs.List.{fold, filter};
ghost use Rattle.std.specs.Cmp.Lexicographic.{slice_cmp};
ghost use Rattle.std.specs.Ordering.{nat_cmp};
ghost use Rattle.std.specs.BTreeMap.{get};
ghost use Rattle.s7_base.specs.Limits.{IsWellFormed};
ghost use Rattle.block_loader.specs.Told.{Gives};
ghost use Rattle.block_loader.specs.Blocks.{items_of};
ghost use Rattle.block_loader.specs.declared.error.LoadError.TheVariants.{NoMemory};
ghost use Rattle.block_loader.specs.Faults.{kind_byte, first_fault};
ghost use Rattle.block_loader.specs.Load.{with_target, jumping, landed_one, landed, loaded_code, bytes_of, loaded_data, is_code_before, is_data_before, with_code, with_data, added, program_of, sources_of, Loads};
ghost use Rattle.block_loader.specs.Sound.{IsSoundBlock};

use crate::blocks::{SourceBlock, SourceCode, SourceData, blocks_of};
use crate::error::LoadError;
use crate::faults::{first_fault, kind_byte, labels_of};
use s7_base::{Blocks, CodeBlock, DataBlock, Statement};
use std::alloc::{AllocFailed, Global};
use std::collections::BTreeMap;
use std::marker::Model;
use stl_decl::{Layout, first_bytes};
use stl_lex::tokens;
use stl_reader::{Body, BodyStatement, Jump};

/// The lists of a program so far.
#[derive(Drop)]
struct Parts {
    codes: Vec<CodeBlock>,
    data_blocks: Vec<DataBlock>,
}

impl Model for Parts {
    ghost use Rattle.s7_base.specs.Blocks.{Program};

    ghost Value = { Program };

    ghost view = { λ p. record { codes = p.codes.items; data_blocks = p.data_blocks.items } };
}

/// The statement with the number of the one that it jumps to.
fn with_target(statement: Statement, target: u32) -> Statement
    ensures { result ≡ with_target target statement }
{
    Statement {
        op: statement.op,
        area: statement.area,
        bit: statement.bit,
        db: statement.db,
        value: target,
    }
}

/// Gives one jump its target.
fn set_target(statements: &mut Vec<Statement>, jump: Jump, target: Option<u32>)
    ensures { statements.new.items ≡ jumping statements.old.items jump.statement target }
{
    if let Some(target) = target {
        let place = jump.statement as usize;
        if let Some(statement) = statements.get(place).copied() {
            statements[place] = with_target(statement, target);
        }
    }
}

/// Gives all jumps their targets.
fn set_targets(statements: &mut Vec<Statement>, names: &BTreeMap<[u8; 4], u32>, jumps: &[Jump])
    ensures { statements.new.items ≡ fold (landed_one (get (slice_cmp nat_cmp) names.now)) statements.old.items jumps.now }
{
    for jump in jumps {
        let target = names.get(&jump.name).copied();
        set_target(statements, *jump, target);
    }
}

/// The statements without their lines.
fn plain(
    alloc: Global,
    statements: &[BodyStatement],
) -> Result<Vec<Statement>, AllocFailed<Statement>>
    ensures { IfOk result (λ v. v.items ≡ map (λ s. s.statement) statements.now) }
{
    let mut all = Vec::new(alloc);
    for line in statements {
        all.push(line.statement)?;
    }
    Ok(all)
}

/// The statements of a body, each jump with its target.
fn landed(alloc: Global, body: &Body) -> Result<Vec<Statement>, LoadError>
    ensures exact { IfOk result (λ v. v.items ≡ landed body.now) }
    ensures memory { IfErr result (λ e. e ≡ NoMemory) }
{
    let (names, _) = labels_of(alloc, body.labels(), None)?;
    let mut statements = plain(alloc, body.statements())?;
    set_targets(&mut statements, &names, body.jumps());
    Ok(statements)
}

fn loaded_code(alloc: Global, code: &SourceCode) -> Result<CodeBlock, LoadError>
    ensures exact { IfOk result (λ b. b ≡ loaded_code code.now) }
    ensures memory { IfErr result (λ e. e ≡ NoMemory) }
{
    let statements = landed(alloc, &code.body)?;
    let temp = code.temp.min(65535) as u16;
    Ok(CodeBlock::new(code.kind, code.number, temp, statements))
}

/// The first bytes of a data block that isn't too large.
fn bytes_of(alloc: Global, layout: &Layout) -> Result<Vec<u8>, LoadError>
    ensures exact { IfOk result (λ v. v.items ≡ bytes_of layout.now) }
    ensures memory { IfErr result (λ e. e ≡ NoMemory) }
{
    if layout.size() <= 65536 {
        Ok(first_bytes(alloc, layout)?)
    } else {
        Ok(Vec::new(alloc))
    }
}

fn loaded_data(alloc: Global, block: &SourceData) -> Result<DataBlock, LoadError>
    ensures exact { IfOk result (λ b. b ≡ loaded_data block.now) }
    ensures memory { IfErr result (λ e. e ≡ NoMemory) }
{
    let bytes = bytes_of(alloc, &block.layout)?;
    Ok(DataBlock::new(block.number, bytes))
}

fn is_code_before(a: &CodeBlock, b: &CodeBlock) -> bool
    ensures { result ≡ is_code_before a.now b.now }
{
    kind_byte(a.kind()) < kind_byte(b.kind())
        || (kind_byte(a.kind()) == kind_byte(b.kind()) && a.number() < b.number())
}

/// How many of these stand before it.
fn codes_before(codes: &[CodeBlock], code: &CodeBlock) -> usize
    ensures exact { result ≡ length (filter (λ c. is_code_before c code.now) codes.now) }
    ensures within { result ≤ length codes.now }
{
    codes.iter().filter(|c| is_code_before(c, code)).count()
}

fn data_before(blocks: &[DataBlock], block: &DataBlock) -> usize
    ensures exact { result ≡ length (filter (λ b. is_data_before b block.now) blocks.now) }
    ensures within { result ≤ length blocks.now }
{
    blocks
        .iter()
        .filter(|b| b.number() < block.number())
        .count()
}

/// Puts a code block behind those that stand before it.
fn add_code(codes: &mut Vec<CodeBlock>, code: CodeBlock) -> Result<(), AllocFailed<CodeBlock>>
    ensures { OnOk result (codes.new.items ≡ with_code codes.old.items code) }
{
    let place = codes_before(codes.as_slice(), &code);
    codes.insert(place, code)
}

/// Puts a data block behind those that stand before it.
fn add_data(blocks: &mut Vec<DataBlock>, block: DataBlock) -> Result<(), AllocFailed<DataBlock>>
    ensures { OnOk result (blocks.new.items ≡ with_data blocks.old.items block) }
{
    let place = data_before(blocks.as_slice(), &block);
    blocks.insert(place, block)
}

/// Adds a block of the source.
fn add(alloc: Global, parts: &mut Parts, block: &SourceBlock) -> Result<(), LoadError>
    ensures exact { OnOk result (parts.new ≡ added parts.old block.now) }
    ensures memory { IfErr result (λ e. e ≡ NoMemory) }
{
    match block {
        SourceBlock::Code(code) => add_code(&mut parts.codes, loaded_code(alloc, code)?)?,
        SourceBlock::Data(data) => add_data(&mut parts.data_blocks, loaded_data(alloc, data)?)?,
    }
    Ok(())
}

/// The program of these blocks.
fn parts_of(alloc: Global, blocks: &[SourceBlock]) -> Result<Parts, LoadError>
    ensures exact { IfOk result (λ p. p ≡ program_of blocks.now) }
    ensures memory { IfErr result (λ e. e ≡ NoMemory) }
{
    let mut parts = Parts {
        codes: Vec::new(alloc),
        data_blocks: Vec::new(alloc),
    };
    for block in blocks {
        add(alloc, &mut parts, block)?;
    }
    Ok(parts)
}

/// The blocks of a source in their order, or its first fault.
#[tactic(auto, unfolding(crate::specs::Load::sources_of))]
fn sources_of(alloc: Global, text: &[u8]) -> Result<Vec<SourceBlock>, LoadError>
    requires text { length text.now ≤ 1048576 }
    ensures exact { Gives items_of result (sources_of text.now) }
    ensures sound { IfOk result (λ v. All IsSoundBlock v.items) }
    ensures faultless { IfOk result (λ v. first_fault v.items ≡ None) }
{
    let list = tokens(alloc, text)?;
    let blocks = blocks_of(alloc, text, &list)?;
    match first_fault(alloc, blocks.as_slice())? {
        Some(fault) => Err(LoadError::Fault(fault.told())),
        None => Ok(blocks),
    }
}

/// The blocks of the program that a source has.
///
/// # Errors
///
/// `Fault` with the kind and line of its first fault; `NoMemory` where memory runs out.
#[tactic(auto, unfolding(crate::specs::Load::meaning_of))]
pub fn load(alloc: Global, text: &[u8]) -> Result<Blocks, LoadError>
    requires text { length text.now ≤ 1048576 }
    // What it gives is the program of the source, or the first fault.
    ensures exact { Loads text.now result }
    ensures well_formed { IfOk result IsWellFormed }
{
    let sources = sources_of(alloc, text)?;
    let parts = parts_of(alloc, sources.as_slice())?;
    let Some(blocks) = Blocks::of(parts.codes, parts.data_blocks) else {
        unreachable!();
    };
    Ok(blocks)
}
