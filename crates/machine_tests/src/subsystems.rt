use s7_base::{Answer, Area, Ask, Blocks, CodeBlock, CodeKind, DiagCode, Request};
use std::alloc::Global;
use std::test::Fail;
use subsystem::*;

fn empty_program(alloc: Global) -> Result<Option<Blocks>, Fail> {
    let mut codes = Vec::new(alloc);
    codes.push(CodeBlock::new(CodeKind::Ob, 1, 0, Vec::new(alloc)))?;
    Ok(Blocks::of(codes, Vec::new(alloc)))
}

#[test]
fn a_life_begins_asks_and_ends(rt: HostRuntime) -> Result<(), Fail> {
    let Some(blocks) = empty_program(rt.alloc())? else {
        return Err("not well formed".into());
    };
    let Ok(mut side) = Subsystem::new(rt.alloc()) else {
        return Err("no memory".into());
    };
    assert!(rt; !side.can_ask() && side.lives().is_empty());
    if side.load(rt.alloc(), &blocks).is_err() {
        return Err("no memory".into());
    }
    let first = Life {
        how: How::Loaded,
        first: 0,
        next: 0,
    };
    assert!(rt; side.can_ask() && side.lives().first() == Some(&first));
    let outputs = Request {
        prio: 1,
        ask: Ask::Outputs([0; 64]),
    };
    assert!(rt; side.ask() == outputs && side.ask() == outputs);
    side.take(&Answer::Done, 0);
    assert!(rt; side.lives().first() == Some(&Life { next: 1, ..first }));
    assert!(rt; side.image_byte(Area::I, 63) == Some(0) && side.image_byte(Area::I, 64).is_none());
    assert!(rt; side.note_count() == 1 && side.note_at(0) == Some((0, DiagCode::Start)));
    assert!(rt; side.counter_value(0) == 0 && side.block_length(1).is_none());
    side.cut();
    assert!(rt; !side.can_ask() && side.lives().len() == 1);
    Ok(())
}
