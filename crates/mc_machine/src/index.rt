//! Where each code block of a program stands in its list.
ghost use Rattle.std.specs.Prelude.{◌≡◌, ℕ, ◌<◌, List, slice_get, slice_index};
ghost use Rattle.std.specs.Option.{option_copied};
ghost use Rattle.s7_base.specs.Blocks.{Code, code_named, code_of};
ghost use Rattle.mc_machine.specs.EngineView.{AreFound, IsCode};

use crate::codes::index_in;
use s7_base::{BlockRef, Blocks, CodeBlock, CodeKind};

/// Where each code block stands in the list of a program, by kind and number; past the last of them where it is not loaded. So
/// a call takes as long in a program of many blocks as in one of few.
#[derive(Debug, Drop)]
pub struct CodeIndex {
    pub organisation_blocks: [usize; 256],
    pub function_blocks: [usize; 256],
    pub functions: [usize; 256],
}

/// Where the code blocks of a kind stand, by number.
fn indices_of(codes: &[CodeBlock], kind: CodeKind) -> [usize; 256]
    ensures { (n : ℕ) → n < 256 → slice_get codes.now (slice_index result n) ≡ code_named codes.now kind n }
{
    let mut indices = [0; 256];
    for number in 0..256 {
        let block = BlockRef {
            kind,
            number: number as u8,
        };
        indices[number] = index_in(codes, block);
    }
    indices
}

impl CodeIndex {
    /// Finds each code block of a program once.
    pub fn of(codes: &[CodeBlock]) -> CodeIndex
        ensures { AreFound codes.now result }
    {
        CodeIndex {
            organisation_blocks: indices_of(codes, CodeKind::Ob),
            function_blocks: indices_of(codes, CodeKind::Fb),
            functions: indices_of(codes, CodeKind::Fc),
        }
    }

    /// Returns where a block stands; past the last where it is not loaded.
    pub fn find(&self, block: BlockRef) -> usize
        ensures { (codes : List Code) → AreFound codes self.now → slice_get codes result ≡ code_named codes block.kind block.number }
    {
        let number = usize::from(block.number);
        match block.kind {
            CodeKind::Ob => self.organisation_blocks[number],
            CodeKind::Fb => self.function_blocks[number],
            CodeKind::Fc => self.functions[number],
        }
    }

    /// Returns the code block of a name. None exactly where it is not loaded.
    pub fn code<'a>(&self, program: &'a Blocks, block: BlockRef) -> Option<&'a CodeBlock>
        requires { AreFound program.now.codes self.now }
        ensures { option_copied result ≡ code_of program.now block.kind block.number }
    {
        program.codes().get(self.find(block))
    }
}
