use load_image::*;
use s7_base::{Blocks, CodeBlock, CodeKind, DataBlock, NoMemory, Statement};
use std::alloc::Global;
use std::test::*;

/// OB1 with `A I 0.1` and `T QW 2`, and DB7 of the bytes 171 and 205.
fn small_blocks(alloc: Global) -> Result<Option<Blocks>, Fail> {
    let check = Statement {
        op: 0,
        area: 1,
        bit: 1,
        db: 0,
        value: 0,
    };
    let transfer = Statement {
        op: 28,
        area: 2,
        bit: 9,
        db: 0,
        value: 2,
    };
    let statements = Vec::from_array(alloc, [check, transfer])?;
    let codes = Vec::from_array(alloc, [CodeBlock::new(CodeKind::Ob, 1, 22, statements)])?;
    let bytes = Vec::from_array(alloc, [171, 205])?;
    let data_blocks = Vec::from_array(alloc, [DataBlock::new(7, bytes)])?;
    Ok(Blocks::of(codes, data_blocks))
}

/// Its image: 16 bytes of header, two entries of 16 bytes, 24 bytes of statements from place 48 on, and 2 bytes of
/// data from place 72 on.
const SMALL_IMAGE: [u8; 74] = [
    b'S', b'7', b'H', b'1', 0, 2, 0, 0, 0, 0, 0, 74, 0, 0, 0, 0, //
    0, 0, 0, 1, 0, 0, 0, 2, 0, 22, 0, 0, 0, 0, 0, 48, //
    3, 0, 0, 7, 0, 0, 0, 2, 0, 0, 0, 0, 0, 0, 0, 72, //
    0, 0, 1, 1, 0, 0, 0, 0, 0, 0, 0, 0, //
    0, 28, 2, 9, 0, 0, 0, 0, 0, 0, 0, 2, //
    171, 205,
];

#[test]
fn blocks_have_their_image(rt: HostRuntime) -> Result<(), Fail> {
    let blocks = small_blocks(rt.alloc())?.ok_or("the blocks are well formed")?;
    let image = encode(rt.alloc(), &blocks)?;
    assert_eq!(rt; image.as_slice(), SMALL_IMAGE.as_slice());
    Ok(())
}

#[test]
fn a_statement_is_read_at_its_place(rt: HostRuntime) {
    let transfer = statement_at(&SMALL_IMAGE, 60);
    assert!(rt; transfer.op == 28 && transfer.area == 2 && transfer.bit == 9);
    assert!(rt; transfer.db == 0 && transfer.value == 2);
}

/// Whether the bytes are decoded to nothing, or to blocks whose image they are.
fn are_read_exactly(alloc: Global, bytes: &[u8]) -> Result<bool, NoMemory> {
    match decode(alloc, bytes)? {
        Some(blocks) => Ok(encode(alloc, &blocks)?.as_slice() == bytes),
        None => Ok(true),
    }
}

#[test]
fn each_byte_changed_is_read_exactly(rt: HostRuntime) -> Result<(), Fail> {
    let found = decode(rt.alloc(), &SMALL_IMAGE)?.ok_or("the bytes are an image")?;
    assert!(rt; found.codes().len() == 1 && found.data_blocks().len() == 1);
    let mut bytes = SMALL_IMAGE;
    for i in 0..74 {
        for change in [1, 2, 128, 255] {
            bytes[i] = SMALL_IMAGE[i] ^ change;
            assert!(rt; are_read_exactly(rt.alloc(), &bytes)?, "byte {i}");
        }
        bytes[i] = SMALL_IMAGE[i];
    }
    Ok(())
}
