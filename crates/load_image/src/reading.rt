//! From bytes to blocks.
ghost use Rattle.std.specs.Prelude.{◌≡◌, ◌↔◌, ◌+◌, ◌*◌, ◌/◌, ◌^◌, ◌<◌, ◌≤◌, ◌++◌, length, take, drop, slice_index_or, List, ℕ, OnOk, IfOk, IfSome, IfNone, IsTrue, Option, Some, None};
ghost use Rattle.s7_base.specs.declared.statement.Statement.{Statement};
ghost use Rattle.s7_base.specs.Blocks.{Code, Program};
ghost use Rattle.s7_base.specs.Limits.{IsWellFormed};
ghost use Rattle.load_image.specs.Image.{statement_bytes, IsStoredStatement, IsImage};
ghost use Rattle.load_image.specs.Places.{statement_place};
ghost use Rattle.load_image.specs.Reading.{word_at, double_word_at, first_statement, statements_in, code_kind, body_length, code_here, data_here, codes_in, data_in};

use crate::writing::encode;
use s7_base::{Blocks, CodeBlock, CodeKind, DataBlock, NoMemory, Statement};
use std::alloc::{AllocError, Global};

fn u16_at(bytes: &[u8], at: usize) -> u16
    requires { at + 2 ≤ length bytes.now }
    ensures { result ≡ word_at bytes.now at }
{
    u16::from_be_bytes([bytes[at], bytes[at + 1]])
}

fn u32_at(bytes: &[u8], at: usize) -> u32
    requires { at + 4 ≤ length bytes.now }
    ensures { result ≡ double_word_at bytes.now at }
{
    u32::from_be_bytes([bytes[at], bytes[at + 1], bytes[at + 2], bytes[at + 3]])
}

/// The statement with which the bytes begin.
#[tactic(auto, unfolding(crate::specs::Reading::first_statement))]
fn first_statement_of(bytes: &[u8]) -> Statement
    requires { 12 ≤ length bytes.now }
    ensures { result ≡ first_statement bytes.now }
{
    Statement {
        op: u16_at(bytes, 0),
        area: bytes[2],
        bit: bytes[3],
        db: u16_at(bytes, 4),
        value: u32_at(bytes, 8),
    }
}

/// Returns the statement whose 12 bytes begin at a place of an image, in bytes from 0. Takes no memory.
pub fn statement_at(bytes: &[u8], at_byte: u32) -> Statement
    requires { at_byte + 12 ≤ length bytes.now }
    ensures there { (s : Statement) → IsStoredStatement s → take 12 (drop at_byte bytes.now) ≡ statement_bytes s → result ≡ s }
    ensures fields { result ≡ first_statement (drop at_byte bytes.now) }
{
    let (_, after) = bytes.split_at(at_byte as usize);
    first_statement_of(after)
}

fn statements_of(alloc: Global, count: usize, body: &[u8]) -> Result<Vec<Statement>, AllocError>
    requires { 12 * count ≤ length body.now }
    ensures { IfOk result (λ v. v.items ≡ statements_in count body.now) }
{
    let mut statements = Vec::new(alloc);
    let mut rest = body;
    for _ in 0..count {
        let s = first_statement_of(rest);
        statements.push(s)?;
        let (_, after) = rest.split_at(12);
        rest = after;
    }
    Ok(statements)
}

fn kind_of(number: u8) -> Option<CodeKind>
    ensures { result ≡ code_kind number }
{
    if number == 0 {
        Some(CodeKind::Ob)
    } else if number == 1 {
        Some(CodeKind::Fb)
    } else if number == 2 {
        Some(CodeKind::Fc)
    } else {
        None
    }
}

#[tactic(auto, unfolding(crate::specs::Reading::body_length))]
fn body_length(directory: &[u8]) -> usize
    requires { 16 ≤ length directory.now }
    ensures { result ≡ body_length directory.now }
{
    let count = u32_at(directory, 4) as usize;
    if directory[0] < 3 { 12 * count } else { count }
}

/// Adds the code block of the directory's first entry, if it is one.
#[tactic(auto, unfolding(crate::specs::Reading::code_here))]
fn push_code(
    alloc: Global,
    codes: &mut Vec<CodeBlock>,
    directory: &[u8],
    body: &[u8],
) -> Result<(), AllocError>
    requires { 16 ≤ length directory.now }
    ensures { OnOk result (codes.new.items ≡ codes.old.items ++ code_here directory.now body.now) }
{
    let Some(kind) = kind_of(directory[0]) else {
        return Ok(());
    };
    let statements = statements_of(alloc, body.len() / 12, body)?;
    let code = CodeBlock::new(kind, directory[3], u16_at(directory, 8), statements);
    codes.push(code)?;
    Ok(())
}

/// Adds the data block of the directory's first entry, if it is one.
#[tactic(auto, unfolding(crate::specs::Reading::data_here))]
fn push_data(
    alloc: Global,
    data_blocks: &mut Vec<DataBlock>,
    directory: &[u8],
    body: &[u8],
) -> Result<(), AllocError>
    requires { 16 ≤ length directory.now }
    ensures { OnOk result (data_blocks.new.items ≡ data_blocks.old.items ++ data_here directory.now body.now) }
{
    if directory[0] < 3 {
        return Ok(());
    }
    let bytes = Vec::from_slice(alloc, body)?;
    data_blocks.push(DataBlock::new(directory[3], bytes))?;
    Ok(())
}

/// The first n bytes, or all of them, and the rest.
fn split(bytes: &[u8], n: usize) -> (&[u8], &[u8])
    ensures first { result.0.now ≡ take n bytes.now }
    ensures rest { result.1.now ≡ drop n bytes.now }
{
    if bytes.len() < n {
        return (bytes, &[]);
    }
    bytes.split_at(n)
}

fn codes_of(
    alloc: Global,
    count: usize,
    directory: &[u8],
    bodies: &[u8],
) -> Result<Vec<CodeBlock>, AllocError>
    requires { 16 * count ≤ length directory.now }
    ensures { IfOk result (λ v. v.items ≡ codes_in count directory.now bodies.now) }
{
    let mut codes = Vec::new(alloc);
    let mut rest = directory;
    let mut left = bodies;
    for _ in 0..count {
        let (body, beyond) = split(left, body_length(rest));
        push_code(alloc, &mut codes, rest, body)?;
        let (_, after) = rest.split_at(16);
        rest = after;
        left = beyond;
    }
    Ok(codes)
}

fn data_of(
    alloc: Global,
    count: usize,
    directory: &[u8],
    bodies: &[u8],
) -> Result<Vec<DataBlock>, AllocError>
    requires { 16 * count ≤ length directory.now }
    ensures { IfOk result (λ v. v.items ≡ data_in count directory.now bodies.now) }
{
    let mut data_blocks = Vec::new(alloc);
    let mut rest = directory;
    let mut left = bodies;
    for _ in 0..count {
        let (body, beyond) = split(left, body_length(rest));
        push_data(alloc, &mut data_blocks, rest, body)?;
        let (_, after) = rest.split_at(16);
        rest = after;
        left = beyond;
    }
    Ok(data_blocks)
}

/// The blocks of which an image would speak whose directory and bodies these are.
fn blocks_of(
    alloc: Global,
    count: usize,
    directory: &[u8],
    bodies: &[u8],
) -> Result<Option<Blocks>, AllocError>
    requires { 16 * count ≤ length directory.now }
    ensures { IfOk result (λ found. (p : Program) → IsWellFormed p → codes_in count directory.now bodies.now ≡ p.codes → data_in count directory.now bodies.now ≡ p.data_blocks → found ≡ Some p) }
{
    let codes = codes_of(alloc, count, directory, bodies)?;
    let data_blocks = data_of(alloc, count, directory, bodies)?;
    Ok(Blocks::of(codes, data_blocks))
}

/// The blocks whose image the bytes are, if they are one: where they are none, perhaps others.
fn candidate(alloc: Global, bytes: &[u8]) -> Result<Option<Blocks>, AllocError>
    ensures { IfOk result (λ found. (p : Program) → IsImage p bytes.now → found ≡ Some p) }
{
    if bytes.len() < 16 {
        return Ok(None);
    }
    let count = u16_at(bytes, 4) as usize;
    let (_, after) = bytes.split_at(16);
    if after.len() < 16 * count {
        return Ok(None);
    }
    let (directory, bodies) = after.split_at(16 * count);
    blocks_of(alloc, count, directory, bodies)
}

fn is_equal(a: &[u8], b: &[u8]) -> bool
    ensures { IsTrue result ↔ (a.now ≡ b.now) }
{
    a == b
}

/// Returns the blocks whose load image the bytes are. None exactly where they are the image of no well-formed
/// blocks. Time and memory are linear in the length of the bytes.
pub fn decode(alloc: Global, bytes: &[u8]) -> Result<Option<Blocks>, NoMemory>
    ensures found { IfOk result (λ found. IfSome found (λ blocks. IsImage blocks bytes.now)) }
    ensures none { IfOk result (λ found. IfNone found ((p : Program) → IsImage p bytes.now → ⊥)) }
{
    let Ok(found) = candidate(alloc, bytes) else {
        return Err(NoMemory);
    };
    let Some(blocks) = found else {
        return Ok(None);
    };
    let image = encode(alloc, &blocks)?;
    if !is_equal(&image, bytes) {
        return Ok(None);
    }
    Ok(Some(blocks))
}

/// Bytes are the image of one program only: so what is encoded is decoded again.
pub fn an_image_has_one_program()
    ensures { (p q : Program) (bytes : List ℕ) → IsImage p bytes → IsImage q bytes → p ≡ q }
{}

/// In an image the statement of a block lies at its place, where `statement_at` reads it.
pub fn a_statement_lies_at_its_place()
    ensures { (p : Program) (bytes : List ℕ) (index number : ℕ) (code : Code) (s : Statement) → IsImage p bytes → index < length p.codes → slice_index_or p.codes index code ≡ code → number < length code.statements → slice_index_or code.statements number s ≡ s → take 12 (drop (statement_place p index number) bytes) ≡ statement_bytes s }
{}
