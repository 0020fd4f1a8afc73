//! Statements decoded once, when a program is loaded, so that a CPU finds at each turn what a statement means.
ghost use Rattle.std.specs.Prelude.{◌≡◌, ◌+◌, ◌<◌, ◌^◌, map, slice_get, IfOk, IfSome, OnSome};
ghost use Rattle.std.specs.Option.{option_copied};
ghost use Rattle.statement_effects.specs.Placed.{HasOperand};
ghost use Rattle.statement_effects.specs.Reading.{instruction_of};

use crate::instruction::Instruction;
use crate::reading::instruction_of;
use s7_base::{NoMemory, Statement};
use std::alloc::Global;
use std::marker::Model;

/// A stored statement, decoded: what it means, or nothing where it is no statement, or one that is not supported.
#[derive(Clone, Copy, Debug)]
pub struct Decoded {
    instruction: Option<Instruction>,
}

impl Model for Decoded {
    ghost use Rattle.std.specs.Prelude.{Option, IfSome};
    ghost use Rattle.statement_effects.specs.declared.instruction.Instruction.{Instruction};
    ghost use Rattle.statement_effects.specs.Placed.{HasOperand};

    ghost Value = { Option Instruction };

    ghost view = { λ d. d.instruction };

    ghost inverse = { λ i. record { instruction = i } };

    ghost invariant = { λ d. IfSome d.instruction HasOperand };
}

impl Decoded {
    fn of(statement: &Statement) -> Decoded
        ensures { result ≡ instruction_of statement.now }
    {
        Decoded {
            instruction: instruction_of(statement),
        }
    }

    /// What it means, if anything; its operand lies in its area.
    pub(crate) fn instruction(&self) -> Option<Instruction>
        ensures means { result ≡ self.now }
        ensures placed { IfSome result HasOperand }
    {
        self.instruction
    }
}

/// The statements of a block, decoded.
#[derive(Debug, Drop)]
pub struct DecodedBlock {
    statements: Vec<Decoded>,
}

impl Model for DecodedBlock {
    ghost use Rattle.std.specs.Prelude.{List, Option};
    ghost use Rattle.statement_effects.specs.declared.instruction.Instruction.{Instruction};

    ghost Value = { List (Option Instruction) };

    ghost view = { λ b. b.statements.items };
}

impl DecodedBlock {
    /// Decodes the statements of a block.
    ///
    /// # Errors
    /// Memory ran out.
    pub fn of(alloc: Global, statements: &[Statement]) -> Result<DecodedBlock, NoMemory>
        ensures { IfOk result (λ block. block ≡ map instruction_of statements.now) }
    {
        let decoded = statements.iter().map(|statement| Decoded::of(statement));
        let Ok(statements) = decoded.collect(alloc) else {
            return Err(NoMemory);
        };
        Ok(DecodedBlock { statements })
    }

    /// Returns the statement at a place. None exactly where there is none.
    pub fn get(&self, at: usize) -> Option<&Decoded>
        ensures found { option_copied result ≡ slice_get self.now at }
        ensures within { OnSome result (at + 1 < 2 ^ 64) }
    {
        self.statements.get(at)
    }
}
