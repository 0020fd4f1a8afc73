use level_stack::*;
use s7_base::{BlockRef, CodeKind};

const OB1: BlockRef = BlockRef {
    kind: CodeKind::Ob,
    number: 1,
};

const FC7: BlockRef = BlockRef {
    kind: CodeKind::Fc,
    number: 7,
};

/// The local bytes of caller and callee are apart, and begin as 0.
#[test]
fn local_bytes_belong_to_their_block(rt: HostRuntime) {
    let mut levels = Levels::new();
    levels.push_level(1);
    assert_eq!(rt; levels.top_prio(), 1);
    assert_eq!(rt; levels.enter(OB1, 4), Ok(()));
    levels.write_local(0, 4, 0x0102_0304);
    assert_eq!(rt; levels.enter(FC7, 8), Ok(()));
    assert_eq!(rt; levels.read_local(0, 4), 0);
    levels.write_local(0, 2, 0xffff);
    levels.leave();
    let cases = [(0, 4, 0x0102_0304), (1, 2, 0x0203), (3, 1, 4)];
    for (at_byte, width, value) in cases {
        assert_eq!(rt; levels.read_local(at_byte, width), value);
    }
    levels.leave();
    levels.pop_level();
}

/// Twenty-four blocks begin on a level, and a level has 256 local bytes; the level below has its own.
#[test]
fn depth_and_local_bytes_have_limits(rt: HostRuntime) {
    let mut levels = Levels::new();
    levels.push_level(1);
    assert_eq!(rt; levels.enter(OB1, 257), Err(LevelFault::LocalFull));
    assert_eq!(rt; levels.enter(OB1, 256), Ok(()));
    assert_eq!(rt; levels.enter(FC7, 2), Err(LevelFault::LocalFull));
    for _ in 1..24 {
        assert_eq!(rt; levels.enter(FC7, 0), Ok(()));
    }
    assert_eq!(rt; levels.enter(FC7, 0), Err(LevelFault::DepthReached));
    assert_eq!(rt; levels.enter(FC7, 2), Err(LevelFault::DepthReached));
    levels.push_level(26);
    assert_eq!(rt; levels.enter(FC7, 256), Ok(()));
    assert_eq!(rt; levels.top_prio(), 26);
}

/// The start information of OB85 in place of OB40, at moment 66,051.
#[test]
fn start_information_byte_by_byte(rt: HostRuntime) {
    let bytes = start_info(0, 26, 85, 40, 66_051);
    assert_eq!(rt;
        bytes,
        [
            17, 0, 26, 85, 0, 0, 0, 40, 0, 1, 2, 3, 0, 0, 0, 0, 0, 0, 0, 0
        ]
    );
}
