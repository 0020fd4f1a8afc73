//! The blocks of a program.
ghost use Rattle.std.specs.Prelude.{◌≡◌, ◌↔◌, IsTrue, IsSome, IfSome, IfOk};
ghost use Rattle.std.specs.Option.{option_copied};
ghost use Rattle.s7_base.specs.Blocks.{Code, Data, Program, same_kind, code_named, code_of, data_of};
ghost use Rattle.s7_base.specs.Limits.{IsWellFormed};

use crate::limits::are_well_formed;
use crate::{NoMemory, Statement};
use std::alloc::Global;
use std::marker::Model;

/// The kinds of code blocks.
#[derive(Clone, Copy, Debug, PartialEq, Eq)]
pub enum CodeKind {
    /// Organisation block.
    Ob,
    /// Function block.
    Fb,
    /// Function.
    Fc,
}

/// The name of a code block.
#[derive(Clone, Copy, Debug, PartialEq, Eq)]
pub struct BlockRef {
    pub kind: CodeKind,
    pub number: u8,
}

/// A code block: its kind and number, the bytes of its temporary data, and its statements.
#[derive(Debug, Drop)]
pub struct CodeBlock {
    kind: CodeKind,
    number: u8,
    temp: u16,
    statements: Vec<Statement>,
}

impl Model for CodeBlock {
    ghost use Rattle.s7_base.specs.Blocks.{Code};

    ghost Value = { Code };

    ghost view = { λ b. record { kind = b.kind; number = b.number; temp = b.temp; statements = b.statements.items } };
}

impl CodeBlock {
    /// A code block of these parts. Takes no memory.
    pub fn new(kind: CodeKind, number: u8, temp: u16, statements: Vec<Statement>) -> CodeBlock
        ensures { result ≡ record { kind = kind; number = number; temp = temp; statements = statements.items } }
    {
        CodeBlock {
            kind,
            number,
            temp,
            statements,
        }
    }

    pub fn kind(&self) -> CodeKind
        ensures { result ≡ self.now.kind }
    {
        self.kind
    }

    pub fn number(&self) -> u8
        ensures { result ≡ self.now.number }
    {
        self.number
    }

    /// The bytes of its temporary data.
    pub fn temp(&self) -> u16
        ensures { result ≡ self.now.temp }
    {
        self.temp
    }

    pub fn statements(&self) -> &[Statement]
        ensures { result.now ≡ self.now.statements }
    {
        &self.statements
    }

    fn copy(&self, alloc: Global) -> Result<CodeBlock, NoMemory>
        ensures { IfOk result (λ b. b ≡ self.now) }
    {
        let Ok(statements) = self.statements.to_vec(alloc) else {
            return Err(NoMemory);
        };
        Ok(CodeBlock::new(self.kind, self.number, self.temp, statements))
    }
}

/// A data block: its number and its first bytes.
#[derive(Debug, Drop)]
pub struct DataBlock {
    number: u8,
    bytes: Vec<u8>,
}

impl Model for DataBlock {
    ghost use Rattle.s7_base.specs.Blocks.{Data};

    ghost Value = { Data };

    ghost view = { λ b. record { number = b.number; bytes = b.bytes.items } };
}

impl DataBlock {
    /// A data block of these parts. Takes no memory.
    pub fn new(number: u8, bytes: Vec<u8>) -> DataBlock
        ensures { result ≡ record { number = number; bytes = bytes.items } }
    {
        DataBlock { number, bytes }
    }

    pub fn number(&self) -> u8
        ensures { result ≡ self.now.number }
    {
        self.number
    }

    pub fn bytes(&self) -> &[u8]
        ensures { result.now ≡ self.now.bytes }
    {
        &self.bytes
    }

    fn copy(&self, alloc: Global) -> Result<DataBlock, NoMemory>
        ensures { IfOk result (λ b. b ≡ self.now) }
    {
        let Ok(bytes) = self.bytes.to_vec(alloc) else {
            return Err(NoMemory);
        };
        Ok(DataBlock::new(self.number, bytes))
    }
}

/// The blocks of a program, always well formed: OB1 is there, the blocks stand in order, they keep the limits of
/// number and size, and each statement is one of the language, whose jump, if it is one, lands.
#[derive(Debug, Drop)]
pub struct Blocks {
    codes: Vec<CodeBlock>,
    data_blocks: Vec<DataBlock>,
}

impl Model for Blocks {
    ghost use Rattle.s7_base.specs.Blocks.{Program};
    ghost use Rattle.s7_base.specs.Limits.{IsWellFormed};

    ghost Value = { Program };

    ghost view = { λ b. record { codes = b.codes.items; data_blocks = b.data_blocks.items } };

    ghost invariant = { λ b. IsWellFormed (record { codes = b.codes.items; data_blocks = b.data_blocks.items }) };
}

/// The code block of a name in a list.
pub fn code_in(codes: &[CodeBlock], kind: CodeKind, number: u8) -> Option<&CodeBlock>
    ensures { option_copied result ≡ code_named codes.now kind number }
{
    codes
        .iter()
        .find(|code| code.kind == kind && code.number == number)
}

impl Blocks {
    /// The blocks of these lists. None exactly where the lists aren't well formed. Takes no memory.
    pub fn of(codes: Vec<CodeBlock>, data_blocks: Vec<DataBlock>) -> Option<Blocks>
        ensures well_formed { IsSome result ↔ IsWellFormed (record { codes = codes.items; data_blocks = data_blocks.items }) }
        ensures lists { IfSome result (λ b. b ≡ record { codes = codes.items; data_blocks = data_blocks.items }) }
    {
        if !are_well_formed(&codes, &data_blocks) {
            return None;
        }
        Some(Blocks { codes, data_blocks })
    }

    /// The code blocks, in the order of kind and number.
    pub fn codes(&self) -> &[CodeBlock]
        ensures list { result.now ≡ self.now.codes }
        ensures well_formed { IsWellFormed self.now }
    {
        &self.codes
    }

    /// The data blocks, by number.
    pub fn data_blocks(&self) -> &[DataBlock]
        ensures list { result.now ≡ self.now.data_blocks }
        ensures well_formed { IsWellFormed self.now }
    {
        &self.data_blocks
    }

    /// An equal value.
    pub fn copy(&self, alloc: Global) -> Result<Blocks, NoMemory>
        ensures { IfOk result (λ b. b ≡ self.now) }
    {
        let codes = copies_of_codes(alloc, &self.codes)?;
        let data_blocks = copies_of_data(alloc, &self.data_blocks)?;
        Ok(Blocks { codes, data_blocks })
    }

    /// A code block. None exactly where it isn't loaded. Takes no memory.
    pub fn code(&self, kind: CodeKind, number: u8) -> Option<&CodeBlock>
        ensures { option_copied result ≡ code_of self.now kind number }
    {
        code_in(&self.codes, kind, number)
    }

    /// A data block. None exactly where it isn't loaded. Takes no memory.
    pub fn data_block(&self, number: u8) -> Option<&DataBlock>
        ensures { option_copied result ≡ data_of self.now number }
    {
        self.data_blocks.iter().find(|block| block.number == number)
    }
}

fn copies_of_codes(alloc: Global, blocks: &[CodeBlock]) -> Result<Vec<CodeBlock>, NoMemory>
    ensures { IfOk result (λ copies. copies.items ≡ blocks.now) }
{
    let mut copies = Vec::new(alloc);
    for block in blocks {
        let copied = block.copy(alloc)?;
        if copies.push(copied).is_err() {
            return Err(NoMemory);
        }
    }
    Ok(copies)
}

fn copies_of_data(alloc: Global, blocks: &[DataBlock]) -> Result<Vec<DataBlock>, NoMemory>
    ensures { IfOk result (λ copies. copies.items ≡ blocks.now) }
{
    let mut copies = Vec::new(alloc);
    for block in blocks {
        let copied = block.copy(alloc)?;
        if copies.push(copied).is_err() {
            return Err(NoMemory);
        }
    }
    Ok(copies)
}
