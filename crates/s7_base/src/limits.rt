//! Whether blocks are well formed.
ghost use Rattle.std.specs.Prelude.{◌≡◌, ◌+◌, ◌≤◌, ◌↔◌, length, IsTrue, IsSome, All};
ghost use Rattle.s7_base.specs.Statements.{is_statement};
ghost use Rattle.s7_base.specs.Blocks.{Program};
ghost use Rattle.s7_events.specs.Priorities.{is_ob};
ghost use Rattle.s7_base.specs.Limits.{has_number, locals_of, IsCode, IsData, AreCodes, AreData, kind_place, is_before, is_before_first, codes_rise, is_below_first, data_rise, pages, all_statements, all_bytes, all_pages, IsWellFormed};

use crate::Statement;
use crate::blocks::{CodeBlock, CodeKind, DataBlock, code_in};
use crate::jumps::all_land;
use s7_events::is_ob;

impl CodeKind {
    fn has_number(self, number: u8) -> bool
        ensures { result ≡ has_number self number }
    {
        match self {
            CodeKind::Ob => is_ob(number),
            CodeKind::Fb | CodeKind::Fc => true,
        }
    }

    /// The bytes of local data that statements see in a block with this temporary data.
    fn locals(self, temp: u16) -> u16
        ensures { result ≡ locals_of self temp }
    {
        match self {
            CodeKind::Ob => temp.max(20),
            CodeKind::Fb | CodeKind::Fc => temp,
        }
    }

    fn place(self) -> u8
        ensures { result ≡ kind_place self }
    {
        match self {
            CodeKind::Ob => 0,
            CodeKind::Fb => 1,
            CodeKind::Fc => 2,
        }
    }
}

/// Whether each statement is one of the language.
fn are_of_language(statements: &[Statement], locals: u16) -> bool
    ensures { IsTrue result ↔ All (λ s. IsTrue (is_statement locals s)) statements.now }
{
    statements.iter().all(|s| s.is_of_language(locals))
}

/// Whether a code block keeps the limits by itself.
fn is_code(code: &CodeBlock) -> bool
    ensures { IsTrue result ↔ IsCode code.now }
{
    code.kind().has_number(code.number())
        && code.temp() % 2 == 0
        && code.temp() <= 256
        && code.statements().len() <= 4000
        && are_of_language(code.statements(), code.kind().locals(code.temp()))
        && all_land(code.statements())
}

/// Whether a data block keeps the limits by itself.
fn is_data(block: &DataBlock) -> bool
    ensures { IsTrue result ↔ IsData block.now }
{
    block.number() >= 1 && block.bytes().len() % 2 == 0 && block.bytes().len() <= 8192
}

fn are_each_code(codes: &[CodeBlock]) -> bool
    ensures { IsTrue result ↔ All IsCode codes.now }
{
    codes.iter().all(|code| is_code(code))
}

fn are_each_data(blocks: &[DataBlock]) -> bool
    ensures { IsTrue result ↔ All IsData blocks.now }
{
    blocks.iter().all(|block| is_data(block))
}

fn is_before(a: &CodeBlock, b: &CodeBlock) -> bool
    ensures { result ≡ is_before a.now b.now }
{
    a.kind().place() < b.kind().place() || a.kind() == b.kind() && a.number() < b.number()
}

fn is_before_first(code: &CodeBlock, after: &[CodeBlock]) -> bool
    ensures { result ≡ is_before_first code.now after.now }
{
    match after {
        [next, ..] => is_before(code, next),
        [] => true,
    }
}

fn is_below_first(block: &DataBlock, after: &[DataBlock]) -> bool
    ensures { result ≡ is_below_first block.now after.now }
{
    match after {
        [next, ..] => block.number() < next.number(),
        [] => true,
    }
}

/// Whether the kinds rise, and the numbers in a kind.
fn do_codes_rise(codes: &[CodeBlock]) -> bool
    ensures { result ≡ codes_rise codes.now }
{
    let mut rest = codes;
    while let [code, after @ ..] = rest {
        if !is_before_first(code, after) {
            return false;
        }
        rest = after;
    }
    true
}

/// Whether the numbers rise.
fn do_data_rise(blocks: &[DataBlock]) -> bool
    ensures { result ≡ data_rise blocks.now }
{
    let mut rest = blocks;
    while let [block, after @ ..] = rest {
        if !is_below_first(block, after) {
            return false;
        }
        rest = after;
    }
    true
}

/// Whether all blocks together have at most 12,000 statements.
fn has_few_statements(codes: &[CodeBlock]) -> bool
    ensures { IsTrue result ↔ (all_statements codes.now ≤ 12000) }
{
    let mut left = 12000usize;
    for code in codes {
        let taken = code.statements().len();
        if taken > left {
            return false;
        }
        left -= taken;
    }
    true
}

/// Whether all data blocks together have at most 32,768 bytes.
fn has_few_bytes(blocks: &[DataBlock]) -> bool
    ensures { IsTrue result ↔ (all_bytes blocks.now ≤ 32768) }
{
    let mut left = 32768usize;
    for block in blocks {
        let taken = block.bytes().len();
        if taken > left {
            return false;
        }
        left -= taken;
    }
    true
}

/// How many pages of 256 bytes a data block takes.
fn pages(block: &DataBlock) -> usize
    ensures { result ≡ pages block.now }
{
    block.bytes().len().div_ceil(256)
}

/// Whether all data blocks together take at most 256 pages.
fn has_few_pages(blocks: &[DataBlock]) -> bool
    ensures { IsTrue result ↔ (all_pages blocks.now ≤ 256) }
{
    let mut left = 256usize;
    for block in blocks {
        let taken = pages(block);
        if taken > left {
            return false;
        }
        left -= taken;
    }
    true
}

fn has_few_blocks(codes: &[CodeBlock], data_blocks: &[DataBlock]) -> bool
    ensures { IsTrue result ↔ (length codes.now + length data_blocks.now ≤ 256) }
{
    codes.len() <= 256 && data_blocks.len() <= 256 - codes.len()
}

fn are_codes(codes: &[CodeBlock]) -> bool
    ensures { IsTrue result ↔ AreCodes codes.now }
{
    do_codes_rise(codes) && are_each_code(codes) && has_few_statements(codes)
}

fn are_data(blocks: &[DataBlock]) -> bool
    ensures { IsTrue result ↔ AreData blocks.now }
{
    do_data_rise(blocks) && are_each_data(blocks) && has_few_bytes(blocks) && has_few_pages(blocks)
}

/// Whether the lists of blocks are well formed.
pub fn are_well_formed(codes: &[CodeBlock], data_blocks: &[DataBlock]) -> bool
    ensures { IsTrue result ↔ IsWellFormed (record { codes = codes.now; data_blocks = data_blocks.now }) }
{
    code_in(codes, CodeKind::Ob, 1).is_some()
        && has_few_blocks(codes, data_blocks)
        && are_codes(codes)
        && are_data(data_blocks)
}
