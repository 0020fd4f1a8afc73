//! From blocks to bytes.
ghost use Rattle.std.specs.Prelude.{◌≡◌, ◌+◌, ◌*◌, ◌^◌, ◌<◌, ◌≤◌, ◌++◌, length, OnOk, IfOk, All};
ghost use Rattle.std.specs.List.{flat_map};
ghost use Rattle.s7_base.specs.Blocks.{Program};
ghost use Rattle.s7_base.specs.Limits.{kind_place};
ghost use Rattle.load_image.specs.Image.{statement_bytes, code_body, data_body, entry, code_entry, data_entry, code_entries, data_entries, code_bodies, data_bodies, header, image_of, IsImage, IsStored, IsStoredStatement, IsStoredCode, IsStoredData};

use s7_base::{Blocks, CodeBlock, CodeKind, DataBlock, NoMemory, Statement};
use std::alloc::{AllocError, Global};

/// Adds the fields of a statement.
fn put_fields(
    out: &mut Vec<u8>,
    op: u16,
    area: u8,
    bit: u8,
    db: u16,
    value: u32,
) -> Result<(), AllocError>
    ensures { OnOk result (out.new.items ≡ out.old.items ++ statement_bytes (record { op = op; area = area; bit = bit; db = db; value = value })) }
{
    out.extend_from_slice(&op.to_be_bytes())?;
    out.extend_from_slice(&[area, bit])?;
    out.extend_from_slice(&db.to_be_bytes())?;
    out.extend_from_slice(&[0, 0])?;
    out.extend_from_slice(&value.to_be_bytes())?;
    Ok(())
}

/// Fields of these types fit theirs in an image. This is for proofs: it does nothing.
fn fields_fit(op: u16, area: u8, bit: u8, db: u16, value: u32)
    ensures { IsStoredStatement (record { op = op; area = area; bit = bit; db = db; value = value }) }
{}

fn put_statement(out: &mut Vec<u8>, s: &Statement) -> Result<(), AllocError>
    ensures bytes { OnOk result (out.new.items ≡ out.old.items ++ statement_bytes s.now) }
    ensures fits { IsStoredStatement s.now }
{
    fields_fit(s.op, s.area, s.bit, s.db, s.value);
    put_fields(out, s.op, s.area, s.bit, s.db, s.value)
}

fn put_statements(out: &mut Vec<u8>, statements: &[Statement]) -> Result<(), AllocError>
    ensures bytes { OnOk result (out.new.items ≡ out.old.items ++ flat_map statement_bytes statements.now) }
    ensures fits { OnOk result (All IsStoredStatement statements.now) }
{
    for s in statements {
        put_statement(out, s)?;
    }
    Ok(())
}

#[tactic(auto, unfolding(crate::specs::Image::entry))]
fn put_entry(
    out: &mut Vec<u8>,
    kind: u8,
    number: u8,
    count: u32,
    temp: u16,
    offset: u32,
) -> Result<(), AllocError>
    ensures { OnOk result (out.new.items ≡ out.old.items ++ entry kind number count temp offset) }
{
    out.extend_from_slice(&[kind, 0])?;
    out.extend_from_slice(&u16::from(number).to_be_bytes())?;
    out.extend_from_slice(&count.to_be_bytes())?;
    out.extend_from_slice(&temp.to_be_bytes())?;
    out.extend_from_slice(&[0, 0])?;
    out.extend_from_slice(&offset.to_be_bytes())
}

#[tactic(auto, unfolding(crate::specs::Image::header))]
fn put_header(out: &mut Vec<u8>, blocks: u16, whole: u32) -> Result<(), AllocError>
    ensures { OnOk result (out.new.items ≡ out.old.items ++ header blocks whole) }
{
    out.extend_from_slice(b"S7H1")?;
    out.extend_from_slice(&blocks.to_be_bytes())?;
    out.extend_from_slice(&[0, 0])?;
    out.extend_from_slice(&whole.to_be_bytes())?;
    out.extend_from_slice(&[0, 0, 0, 0])
}

/// The number of a kind in the image.
fn kind_number(kind: CodeKind) -> u8
    ensures { result ≡ kind_place kind }
{
    match kind {
        CodeKind::Ob => 0,
        CodeKind::Fb => 1,
        CodeKind::Fc => 2,
    }
}

/// Adds the entry and the body of a code block. Bodies begin at the place `first` of the image.
#[tactic(auto, using(crate::proofs::Fields::statements_length))]
fn put_code(
    directory: &mut Vec<u8>,
    bodies: &mut Vec<u8>,
    first: usize,
    code: &CodeBlock,
) -> Result<(), AllocError>
    requires { first + length bodies.old.items + length (code_body code.now) < 2 ^ 32 }
    ensures entry { OnOk result (directory.new.items ≡ directory.old.items ++ code_entry (first + length bodies.old.items) code.now) }
    ensures body { OnOk result (bodies.new.items ≡ bodies.old.items ++ code_body code.now) }
    ensures fits { OnOk result (IsStoredCode code.now) }
{
    let offset = (first + bodies.len()) as u32;
    let count = code.statements().len() as u32;
    put_entry(
        directory,
        kind_number(code.kind()),
        code.number(),
        count,
        code.temp(),
        offset,
    )?;
    put_statements(bodies, code.statements())
}

/// Adds the entry and the body of a data block.
fn put_block(
    directory: &mut Vec<u8>,
    bodies: &mut Vec<u8>,
    first: usize,
    block: &DataBlock,
) -> Result<(), AllocError>
    requires { first + length bodies.old.items + length (data_body block.now) < 2 ^ 32 }
    ensures entry { OnOk result (directory.new.items ≡ directory.old.items ++ data_entry (first + length bodies.old.items) block.now) }
    ensures body { OnOk result (bodies.new.items ≡ bodies.old.items ++ data_body block.now) }
    ensures fits { OnOk result (IsStoredData block.now) }
{
    let offset = (first + bodies.len()) as u32;
    let bytes = block.bytes();
    put_entry(directory, 3, block.number(), bytes.len() as u32, 0, offset)?;
    bodies.extend_from_slice(bytes)
}

fn put_codes(
    directory: &mut Vec<u8>,
    bodies: &mut Vec<u8>,
    first: usize,
    codes: &[CodeBlock],
) -> Result<(), AllocError>
    requires { first + length bodies.old.items + length (code_bodies codes.now) < 2 ^ 32 }
    ensures entries { OnOk result (directory.new.items ≡ directory.old.items ++ code_entries (first + length bodies.old.items) codes.now) }
    ensures bodies { OnOk result (bodies.new.items ≡ bodies.old.items ++ code_bodies codes.now) }
    ensures fits { OnOk result (All IsStoredCode codes.now) }
{
    for code in codes {
        put_code(directory, bodies, first, code)?;
    }
    Ok(())
}

fn put_data(
    directory: &mut Vec<u8>,
    bodies: &mut Vec<u8>,
    first: usize,
    blocks: &[DataBlock],
) -> Result<(), AllocError>
    requires { first + length bodies.old.items + length (data_bodies blocks.now) < 2 ^ 32 }
    ensures entries { OnOk result (directory.new.items ≡ directory.old.items ++ data_entries (first + length bodies.old.items) blocks.now) }
    ensures bodies { OnOk result (bodies.new.items ≡ bodies.old.items ++ data_bodies blocks.now) }
    ensures fits { OnOk result (All IsStoredData blocks.now) }
{
    for block in blocks {
        put_block(directory, bodies, first, block)?;
    }
    Ok(())
}

/// The image of lists of blocks that are short enough for its fields.
fn image(alloc: Global, codes: &[CodeBlock], blocks: &[DataBlock]) -> Result<Vec<u8>, AllocError>
    requires count { length codes.now + length blocks.now < 2 ^ 16 }
    requires room { 16 + 16 * (length codes.now + length blocks.now) + length (code_bodies codes.now) + length (data_bodies blocks.now) < 2 ^ 32 }
    ensures image { IfOk result (λ v. image_of (record { codes = codes.now; data_blocks = blocks.now }) ≡ v.items) }
    ensures fits { IfOk result (λ v. IsStored (record { codes = codes.now; data_blocks = blocks.now })) }
{
    let count = codes.len() + blocks.len();
    let first = 16 + 16 * count;
    let mut directory = Vec::new(alloc);
    let mut bodies = Vec::new(alloc);
    put_codes(&mut directory, &mut bodies, first, codes)?;
    put_data(&mut directory, &mut bodies, first, blocks)?;
    let mut image = Vec::new(alloc);
    put_header(&mut image, count as u16, (first + bodies.len()) as u32)?;
    image.extend_from_slice(&directory)?;
    image.extend_from_slice(&bodies)?;
    Ok(image)
}

/// Returns the load image of the blocks (docs/image.md). Time and memory are linear in its length.
pub fn encode(alloc: Global, blocks: &Blocks) -> Result<Vec<u8>, NoMemory>
    ensures { IfOk result (λ bytes. IsImage blocks.now bytes.items) }
{
    match image(alloc, blocks.codes(), blocks.data_blocks()) {
        Ok(bytes) => Ok(bytes),
        Err(_) => Err(NoMemory),
    }
}
