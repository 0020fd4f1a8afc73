use cpu_image::{ByteArea, CpuImage, ImageFault};
use s7_base::{Blocks, CodeBlock, CodeKind, DataBlock};
use std::alloc::Global;
use std::test::Fail;

/// OB1, and the data blocks 3 with 10, 20, 30, 40, and 7 with 258 bytes of 7.
fn blocks(alloc: Global) -> Result<Blocks, Fail> {
    let codes = vec![in alloc; CodeBlock::new(CodeKind::Ob, 1, 0, Vec::new(alloc))]?;
    let third = DataBlock::new(3, vec![in alloc; 10u8, 20, 30, 40]?);
    let seventh = DataBlock::new(7, vec![in alloc; 7u8; 258]?);
    let data_blocks = vec![in alloc; third, seventh]?;
    let Some(blocks) = Blocks::of(codes, data_blocks) else {
        return Err("not well formed".into());
    };
    Ok(blocks)
}

fn image(alloc: Global) -> Result<CpuImage, Fail> {
    let blocks = blocks(alloc)?;
    let Ok(image) = CpuImage::lay(alloc, &blocks) else {
        return Err("no memory".into());
    };
    Ok(image)
}

/// Data blocks begin with their first bytes, the other areas with 0; values have the highest byte first.
#[test]
fn areas_begin_with_their_bytes(rt: HostRuntime) -> Result<(), Fail> {
    let image = image(rt.alloc())?;
    assert_eq!(rt; image.pages(), 45);
    assert_eq!(rt; image.read(ByteArea::Db(3), 0, 4), Ok(0x0a14_1e28));
    assert_eq!(rt; image.read(ByteArea::Db(3), 1, 2), Ok(0x141e));
    assert_eq!(rt; image.read(ByteArea::Db(7), 257, 1), Ok(7));
    assert_eq!(rt; image.read_bit(ByteArea::Db(3), 0, 1), Ok(true));
    assert_eq!(rt; image.read_bit(ByteArea::Db(3), 0, 0), Ok(false));
    let cases = [
        (ByteArea::I, 60, 63),
        (ByteArea::Q, 60, 63),
        (ByteArea::M, 1020, 1023),
    ];
    for (area, at_byte, last) in cases {
        assert_eq!(rt; image.read(area, at_byte, 4), Ok(0));
        assert_eq!(rt; image.read(area, last, 2), Err(ImageFault::NoSuchAddress));
    }
    Ok(())
}

/// A write of two bytes that lie on two pages marks both, and changes these bytes alone.
#[test]
fn a_write_over_two_pages(rt: HostRuntime) -> Result<(), Fail> {
    let mut image = image(rt.alloc())?;
    assert_eq!(rt; image.write(ByteArea::Db(7), 255, 2, 0x1234), Ok(()));
    assert_eq!(rt; image.read(ByteArea::Db(7), 254, 4), Ok(0x0712_3407));
    assert_eq!(rt; image.read(ByteArea::Db(3), 0, 4), Ok(0x0a14_1e28));
    for page in 0..45 {
        assert_eq!(rt; image.is_marked(page), page == 42 || page == 43);
    }
    image.clear_mark(42);
    assert!(rt; !image.is_marked(42) && image.is_marked(43));
    assert_eq!(rt; image.write_bit(ByteArea::Q, 63, 7, true), Ok(()));
    assert_eq!(rt; image.read(ByteArea::Q, 63, 1), Ok(0x80));
    assert!(rt; image.is_marked(0) && !image.is_marked(41) && !image.is_marked(44));
    Ok(())
}

/// What is refused changes nothing, and a block that is missing comes before an address that is past the end.
#[test]
fn what_is_refused_changes_nothing(rt: HostRuntime) -> Result<(), Fail> {
    let mut image = image(rt.alloc())?;
    assert_eq!(rt;
        image.write(ByteArea::Db(3), 2, 4, 1),
        Err(ImageFault::NoSuchAddress)
    );
    assert_eq!(rt;
        image.write(ByteArea::Db(4), 65_535, 4, 1),
        Err(ImageFault::NoSuchBlock)
    );
    assert_eq!(rt;
        image.write_bit(ByteArea::Db(3), 4, 0, true),
        Err(ImageFault::NoSuchAddress)
    );
    assert_eq!(rt;
        image.read_bit(ByteArea::Db(0), 0, 0),
        Err(ImageFault::NoSuchBlock)
    );
    assert_eq!(rt; image.read(ByteArea::Db(3), 0, 4), Ok(0x0a14_1e28));
    for page in 0..45 {
        assert!(rt; !image.is_marked(page));
    }
    Ok(())
}
