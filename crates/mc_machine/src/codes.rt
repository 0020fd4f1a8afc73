//! Where the code blocks of a program stand.
ghost use Rattle.std.specs.Prelude.{◌≡◌, ◌==◌, ◌&&◌, ◌+◌, ◌<◌, ◌^◌, slice_get, length, OnSome, IfOk};
ghost use Rattle.std.specs.Option.{option_copied};
ghost use Rattle.s7_base.specs.Blocks.{same_kind, code_named};
ghost use Rattle.mc_machine.specs.Meaning.{statements_of, instruction_at};
ghost use Rattle.mc_machine.specs.EngineView.{decoded_codes, decoded_in, IsCode};

use crate::places::BlockSpot;
use s7_base::{BlockRef, Blocks, CodeBlock, NoMemory, Statement};
use statement_effects::{Decoded, DecodedBlock, Instruction, instruction_of};
use std::alloc::Global;

/// Whether a code block has this name.
fn is_named(code: &CodeBlock, block: BlockRef) -> bool
    ensures { result ≡ (same_kind code.now.kind block.kind && code.now.number == block.number) }
{
    code.kind() == block.kind && code.number() == block.number
}

/// The index of a block in a list of code blocks; past the last of them where it is not there.
pub fn index_in(codes: &[CodeBlock], block: BlockRef) -> usize
    ensures { slice_get codes.now result ≡ code_named codes.now block.kind block.number }
{
    for (index, code) in codes.iter().enumerate() {
        if is_named(code, block) {
            return index;
        }
    }
    codes.len()
}

/// The code blocks of a program, decoded.
pub fn decoded_codes(alloc: Global, codes: &[CodeBlock]) -> Result<Vec<DecodedBlock>, NoMemory>
    ensures { IfOk result (λ decoded. decoded.items ≡ decoded_codes codes.now) }
{
    let mut decoded = Vec::new(alloc);
    for code in codes {
        let block = DecodedBlock::of(alloc, code.statements())?;
        if decoded.push(block).is_err() {
            return Err(NoMemory);
        }
    }
    Ok(decoded)
}

/// The decoded statement at a place of a block. None exactly at the end of the block.
pub fn decoded_at(decoded: &[DecodedBlock], spot: BlockSpot) -> Option<&Decoded>
    ensures found { option_copied result ≡ decoded_in decoded.now spot.code spot.at }
    ensures within { OnSome result (spot.at + 1 < 2 ^ 64) }
{
    decoded.get(spot.code)?.get(spot.at)
}

/// The statement at a place of a block.
fn statement_at(program: &Blocks, spot: BlockSpot) -> Option<Statement>
    requires { IsCode program.now spot.code spot.block }
    ensures found { result ≡ slice_get (statements_of program.now spot.block) spot.at }
    ensures within { OnSome result (spot.at + 1 < 2 ^ 64) }
{
    let code = program.codes().get(spot.code)?;
    code.statements().get(spot.at).copied()
}

/// The instruction at a place of a block.
pub fn instruction_in(program: &Blocks, spot: BlockSpot) -> Option<Instruction>
    requires { IsCode program.now spot.code spot.block }
    ensures found { result ≡ instruction_at program.now spot.block spot.at }
    ensures within { OnSome result (spot.at + 1 < 2 ^ 64) }
{
    let statement = statement_at(program, spot)?;
    instruction_of(&statement)
}

/// The number of statements of a block, the place of its end.
pub fn end_of(program: &Blocks, spot: BlockSpot) -> usize
    requires { IsCode program.now spot.code spot.block }
    ensures { result ≡ length (statements_of program.now spot.block) }
{
    match program.codes().get(spot.code) {
        Some(code) => code.statements().len(),
        None => 0,
    }
}
