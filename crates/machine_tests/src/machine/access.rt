use super::alarms::{STORE, long_block};
use super::plays::assert_notes;
use super::{Step, assert_bit_memory, block_of, machine_of_blocks, machine_with_blocks, play};
use s7_base::{Answer, Area, Ask, DiagCode, Loss, Side, StopCode};
use std::test::Fail;

/// What is asked up to the first statement of OB1.
const OPENING: [Step; 2] = [
    (1, Ask::Outputs([0; 64]), Answer::Done),
    (1, Ask::Inputs, Answer::Image([0; 64])),
];

/// What is asked where the cycle ends.
const END: Step = (1, Ask::Cycle, Answer::Go);

const ALARM: Answer = Answer::Alarm { ob: 40, info: 0 };

const LOST: Answer = Answer::Lost {
    side: Side::B,
    why: Loss::Failed,
};

fn read(addr: u16, width: u8) -> Ask {
    Ask::ReadP { addr, width }
}

fn write(addr: u16, width: u8, value: u32) -> Ask {
    Ask::WriteP { addr, width, value }
}

/// An output image whose bytes are 0 but for these.
fn image_of(bytes: &[(u16, u8)]) -> [u8; 64] {
    let mut image = [0; 64];
    for (at_byte, byte) in bytes {
        if let Some(place) = image.get_mut(*at_byte as usize) {
            *place = *byte;
        }
    }
    image
}

/// OB1 reads a value, and stores ACCU1 and ACCU2: the operand, its address and width, the value, and the bytes of ACCU1.
const READS: [(&str, u16, u8, u32, [u8; 4]); 4] = [
    ("L 77;L PIB0;T MD4;TAK;T MB8", 0, 1, 0xA5, [0, 0, 0, 0xA5]),
    ("L 77;L PIB1023;T MD4;TAK;T MB8", 1023, 1, 7, [0, 0, 0, 7]),
    (
        "L 77;L PIW1022;T MD4;TAK;T MB8",
        1022,
        2,
        0x1234,
        [0, 0, 0x12, 0x34],
    ),
    (
        "L 77;L PID62;T MD4;TAK;T MB8",
        62,
        4,
        0x89AB_CDEF,
        [0x89, 0xAB, 0xCD, 0xEF],
    ),
];

#[test]
fn a_value_is_read(rt: HostRuntime) -> Result<(), Fail> {
    for (text, addr, width, value, [first, second, third, last]) in READS {
        let mut machine = machine_of_blocks(rt.alloc(), &[(1, text)])?;
        play(&rt, &mut machine, 0, &OPENING);
        let steps = [(1, read(addr, width), Answer::Value(value)), END];
        play(&rt, &mut machine, 2, &steps);
        let bytes = [(4, first), (5, second), (6, third), (7, last), (8, 77)];
        assert_bit_memory(&rt, &machine, &bytes);
    }
    Ok(())
}

/// What OB1 writes: its text, the access with its value, and the bytes of the output image after it.
const WRITES: [(&str, u16, u8, u32, &[(u16, u8)]); 7] = [
    (
        "L D#01020304;T PQD62",
        62,
        4,
        0x0102_0304,
        &[(62, 1), (63, 2)],
    ),
    (
        "L D#01020304;T PQD61",
        61,
        4,
        0x0102_0304,
        &[(61, 1), (62, 2), (63, 3)],
    ),
    ("L W#12AB;T PQW63", 63, 2, 0x12AB, &[(63, 0x12)]),
    ("L W#12AB;T PQW10", 10, 2, 0x12AB, &[(10, 0x12), (11, 0xAB)]),
    ("L W#12AB;T PQB0", 0, 1, 0xAB, &[(0, 0xAB)]),
    ("L W#12AB;T PQB64", 64, 1, 0xAB, &[]),
    // in a zone that is off
    (
        "L 7;T QB0;T QB1;CLR;MCRA;MCR(;T PQB0;)MCR;MCRD",
        0,
        1,
        0,
        &[(1, 7)],
    ),
];

#[test]
fn a_value_is_written(rt: HostRuntime) -> Result<(), Fail> {
    for (text, addr, width, value, bytes) in WRITES {
        let mut machine = machine_of_blocks(rt.alloc(), &[(1, text)])?;
        play(&rt, &mut machine, 0, &OPENING);
        let steps = [
            (1, write(addr, width, value), Answer::Done),
            END,
            (1, Ask::Outputs(image_of(bytes)), Answer::Done),
        ];
        play(&rt, &mut machine, 2, &steps);
    }
    Ok(())
}

#[test]
fn an_access_without_a_module_fails(rt: HostRuntime) -> Result<(), Fail> {
    for (text, ask) in [
        ("L 5;L PIW62;T MB1", read(62, 2)),
        ("L 5;T PQD62;T MB1", write(62, 4, 5)),
    ] {
        let blocks = [(1, text), (121, "L 3;T MB3"), (122, "L LB1;T MB2")];
        let mut machine = machine_of_blocks(rt.alloc(), &blocks)?;
        play(&rt, &mut machine, 0, &OPENING);
        let steps = [
            (1, ask, Answer::NoModule),
            END,
            (1, Ask::Outputs([0; 64]), Answer::Done),
        ];
        play(&rt, &mut machine, 2, &steps);
        // OB122 finds the error in byte 1 of its start information, and OB1 its ACCU1
        assert_bit_memory(&rt, &machine, &[(1, 5), (2, 9), (3, 0)]);
        assert_notes(
            &rt,
            &machine,
            &[(0, DiagCode::Start), (2, DiagCode::Error(9))],
        );
        let mut machine = machine_of_blocks(rt.alloc(), &[(1, text), (121, "L 3;T MB3")])?;
        play(&rt, &mut machine, 0, &OPENING);
        let steps = [
            (1, ask, Answer::NoModule),
            (30, Ask::Stop(StopCode::NoOb122), Answer::Done),
        ];
        play(&rt, &mut machine, 2, &steps);
        assert!(rt; machine.stopped());
        assert_eq!(rt; machine.image_byte(Area::Q, 62), Some(0));
        assert_eq!(rt; machine.image_byte(Area::Q, 63), Some(0));
    }
    Ok(())
}

#[test]
fn an_access_is_asked_again(rt: HostRuntime) -> Result<(), Fail> {
    let alloc = rt.alloc();
    for (text, ask, answer) in [
        ("L 7;L PIB3;T MB1", read(3, 1), Answer::Value(7)),
        ("L 7;T PQB3;T MB1", write(3, 1, 7), Answer::Done),
    ] {
        // the block of the alarm completes 256 statements, and no Tick comes before the access
        let codes = vec![in alloc;
            block_of(alloc, 1, text)?,
            long_block(alloc, 40, 254, STORE)?,
        ]?;
        let mut machine = machine_with_blocks(alloc, codes, Vec::new(alloc))?;
        play(&rt, &mut machine, 0, &OPENING);
        let steps = [(1, ask, LOST), (1, ask, ALARM), (1, ask, answer), END];
        play(&rt, &mut machine, 2, &steps);
        assert_bit_memory(&rt, &machine, &[(1, 7)]);
    }
    Ok(())
}

#[test]
fn a_tick_comes_before_an_access(rt: HostRuntime) -> Result<(), Fail> {
    let alloc = rt.alloc();
    let codes = vec![in alloc; long_block(alloc, 1, 256, "L PIB3;T MB1")?]?;
    let mut machine = machine_with_blocks(alloc, codes, Vec::new(alloc))?;
    play(&rt, &mut machine, 0, &OPENING);
    let steps = [
        (1, Ask::Tick, Answer::Done),
        (1, read(3, 1), Answer::Value(7)),
        END,
    ];
    play(&rt, &mut machine, 2, &steps);
    assert_bit_memory(&rt, &machine, &[(1, 7)]);
    Ok(())
}
