ghost use Rattle.std.specs.Prelude.{IfOk};
ghost use Rattle.mc_machine.specs.Stands.{IsRunning};

use super::plays::assert_notes;
use super::{
    Step, assert_bit_memory, block_of, machine_of_blocks, machine_with_blocks, play, push_all,
    statement_of,
};
use mc_machine::Machine;
use s7_base::{Answer, Ask, CodeBlock, CodeKind, DiagCode, StopCode};
use std::alloc::Global;
use std::test::Fail;

/// The alarm of an OB, without a value.
fn alarm(ob: u8) -> Answer {
    Answer::Alarm { ob, info: 0 }
}

/// What is asked up to the first statement of OB1.
fn opening() -> [Step; 2] {
    [
        (1, Ask::Outputs([0; 64]), Answer::Done),
        (1, Ask::Inputs, Answer::Image([0; 64])),
    ]
}

/// The blocks that alarms start, by their priorities, 7 to 15, 16 to 23, 25, 26 and 28.
const BY_PRIORITY: [(u8, u8); 20] = [
    (30, 7),
    (31, 8),
    (32, 9),
    (33, 10),
    (34, 11),
    (35, 12),
    (36, 13),
    (37, 14),
    (38, 15),
    (40, 16),
    (41, 17),
    (42, 18),
    (43, 19),
    (44, 20),
    (45, 21),
    (46, 22),
    (47, 23),
    (70, 25),
    (80, 26),
    (72, 28),
];

/// OB1 and a block for each alarm: each loads its own number, asks for the moment, and stores what it loaded.
fn machine_of_21_levels(alloc: Global) -> Result<Machine, Fail>
    ensures { IfOk result IsRunning }
{
    let mut codes = vec![in alloc; block_of(alloc, 1, "L 1;A T0;T MB1")?]?;
    for number in [
        30, 31, 32, 33, 34, 35, 36, 37, 38, 40, 41, 42, 43, 44, 45, 46, 47, 70, 72, 80,
    ] {
        let text = format!(in alloc; "L {number};A T0;T MB{number}")?;
        codes.push(block_of(alloc, number, &text)?)?;
    }
    machine_with_blocks(alloc, codes, Vec::new(alloc))
}

#[test]
fn alarms_lie_on_alarms_on_21_levels(rt: HostRuntime) -> Result<(), Fail> {
    let mut machine = machine_of_21_levels(rt.alloc())?;
    play(&rt, &mut machine, 0, &opening());
    let mut under = 1;
    for (ob, priority) in BY_PRIORITY {
        play(&rt, &mut machine, 2, &[(under, Ask::Now, alarm(ob))]);
        under = priority;
    }
    for (ob, priority) in BY_PRIORITY.iter().rev() {
        play(
            &rt,
            &mut machine,
            22,
            &[(*priority, Ask::Now, Answer::Now(22))],
        );
        assert_bit_memory(&rt, &machine, &[(u16::from(*ob), 0)]);
    }
    let last = [(1, Ask::Now, Answer::Now(42)), (1, Ask::Cycle, Answer::Go)];
    play(&rt, &mut machine, 42, &last);
    for (ob, _) in BY_PRIORITY {
        assert_bit_memory(&rt, &machine, &[(u16::from(ob), ob), (1, 1)]);
    }
    Ok(())
}

/// How the block of an alarm ends: OB40 and OB121, what is asked after the alarm, with its priority, and the byte that OB40 and
/// that OB121 stored.
const ENDS: [(&str, &str, u8, Ask, u8, u8); 5] = [
    ("L 4;T MB1", "NOP 0", 1, Ask::Now, 4, 0),
    ("SET;BEC;L 4;T MB1", "NOP 0", 1, Ask::Now, 0, 0),
    ("CLR;BEC;L 4;T MB1", "NOP 0", 1, Ask::Now, 4, 0),
    (");L 4;T MB1", "L 5;T MB2", 1, Ask::Now, 4, 5),
    (
        "CALL SFC 46;L 4;T MB1",
        "NOP 0",
        30,
        Ask::Stop(StopCode::Sfc46),
        0,
        0,
    ),
];

#[test]
fn the_block_of_an_alarm_ends(rt: HostRuntime) -> Result<(), Fail> {
    for (block, error_block, prio, ask, stored, by_error) in ENDS {
        let blocks = [(1, "A T0"), (40, block), (121, error_block)];
        let mut machine = machine_of_blocks(rt.alloc(), &blocks)?;
        play(&rt, &mut machine, 0, &opening());
        let answer = match ask {
            Ask::Now => Answer::Now(3),
            _ => Answer::Done,
        };
        let steps = [(1, Ask::Now, alarm(40)), (prio, ask, answer)];
        play(&rt, &mut machine, 2, &steps);
        assert_bit_memory(&rt, &machine, &[(1, stored), (2, by_error)]);
    }
    let mut machine = machine_of_blocks(rt.alloc(), &[(1, "A T0"), (40, ")")])?;
    play(&rt, &mut machine, 0, &opening());
    let steps = [
        (1, Ask::Now, alarm(40)),
        (30, Ask::Stop(StopCode::NoOb121), Answer::Done),
    ];
    play(&rt, &mut machine, 2, &steps);
    assert!(rt; machine.stopped());
    Ok(())
}

/// A group and a zone are open, a data block is opened, an accumulator and a local byte have values, and an alarm comes.
const INTERRUPTED: &str =
    "OPN DB5;L 77;T LB12;L W#1234;SET;MCRA;MCR(;A(;AN T0;);= M0.0;T MW2;L DBB0;T MB1;L LB12;T MB4;)MCR;MCRD";

/// Each of these is otherwise in the block of the alarm, which leaves a group and a zone that is off open.
const INTERRUPTING: &str = "L MB10;INC 1;T MB10;L 66;T LB12;CLR;MCRA;MCR(;OPN DB6;A(;L 9;L 8";

#[test]
fn what_an_alarm_interrupts_comes_back(rt: HostRuntime) -> Result<(), Fail> {
    let blocks = [(1, INTERRUPTED), (40, INTERRUPTING)];
    let mut machine = machine_of_blocks(rt.alloc(), &blocks)?;
    play(&rt, &mut machine, 0, &opening());
    let steps = [
        (1, Ask::Now, alarm(40)),
        (1, Ask::Now, alarm(40)),
        (1, Ask::Now, Answer::Now(4)),
        (1, Ask::Cycle, Answer::Go),
    ];
    play(&rt, &mut machine, 2, &steps);
    let bytes = [(0, 1), (1, 0x55), (2, 0x12), (3, 0x34), (4, 77), (10, 2)];
    assert_bit_memory(&rt, &machine, &bytes);
    Ok(())
}

#[test]
fn each_request_is_made_again_after_an_alarm(rt: HostRuntime) -> Result<(), Fail> {
    let blocks = [
        (1, "CALL SFC 43;A T0"),
        (40, "SET;= Q0.0;L MB9;INC 1;T MB9"),
    ];
    let mut machine = machine_of_blocks(rt.alloc(), &blocks)?;
    let mut lit = [0; 64];
    lit[0] = 1;
    let steps = [
        (1, Ask::Outputs([0; 64]), alarm(40)),
        // with the image as it is then
        (1, Ask::Outputs(lit), Answer::Done),
        (1, Ask::Inputs, alarm(40)),
        (1, Ask::Inputs, Answer::Image([0; 64])),
        (1, Ask::Retrigger, alarm(40)),
        (1, Ask::Retrigger, Answer::Done),
        (1, Ask::Now, alarm(40)),
        (1, Ask::Now, Answer::Now(7)),
        (1, Ask::Cycle, alarm(40)),
        (1, Ask::Cycle, Answer::Go),
        (1, Ask::Outputs(lit), Answer::Done),
    ];
    play(&rt, &mut machine, 0, &steps);
    assert_bit_memory(&rt, &machine, &[(9, 5)]);
    Ok(())
}

/// Stores 1 in MB1.
pub(super) const STORE: &str = "L 1;T MB1";

/// So many statements without effect, and then those of a text.
pub(super) fn long_block(
    alloc: Global,
    number: u8,
    fillers: u32,
    after: &str,
) -> Result<CodeBlock, Fail> {
    let mut statements = Vec::new(alloc);
    let Some(filler) = statement_of("NOP 0") else {
        return Err("no statement".into());
    };
    for _ in 0..fillers {
        statements.push(filler)?;
    }
    push_all(&mut statements, after)?;
    Ok(CodeBlock::new(CodeKind::Ob, number, 20, statements))
}

#[test]
fn a_tick_is_asked_again_after_an_alarm(rt: HostRuntime) -> Result<(), Fail> {
    let alloc = rt.alloc();
    let codes = vec![in alloc;
        long_block(alloc, 1, 256, STORE)?,
        long_block(alloc, 40, 254, STORE)?,
        long_block(alloc, 41, 256, STORE)?,
    ]?;
    let mut machine = machine_with_blocks(alloc, codes, Vec::new(alloc))?;
    play(&rt, &mut machine, 0, &opening());
    let steps = [
        // OB40 has 256 statements, and the Tick is asked at once
        (1, Ask::Tick, alarm(40)),
        // of OB41 256 statements are completed, and two are left
        (1, Ask::Tick, alarm(41)),
        (17, Ask::Tick, Answer::Done),
        (1, Ask::Tick, Answer::Done),
        (1, Ask::Cycle, Answer::Go),
    ];
    play(&rt, &mut machine, 2, &steps);
    Ok(())
}

/// Stores the start information: byte 1, the priority, the number, the value and the moment.
const STORES: &str = "L LB1;T MB0;L LB2;T MB1;L LB3;T MB2;L LD4;T MD4;L LD8;T MD8";

#[test]
fn a_block_has_start_information(rt: HostRuntime) -> Result<(), Fail> {
    let mut machine = machine_of_blocks(rt.alloc(), &[(1, "A T0"), (41, STORES)])?;
    play(&rt, &mut machine, 0, &opening());
    let info = 0x0A0B_0C0D;
    let steps = [
        (1, Ask::Now, Answer::Alarm { ob: 41, info }),
        (1, Ask::Now, Answer::Now(259)),
    ];
    play(&rt, &mut machine, 258, &steps);
    let bytes = [
        (0, 0),
        (1, 17),
        (2, 41),
        (4, 0x0A),
        (5, 0x0B),
        (6, 0x0C),
        (7, 0x0D),
        // 258 is hexadecimal 102
        (10, 1),
        (11, 2),
    ];
    assert_bit_memory(&rt, &machine, &bytes);
    Ok(())
}

#[test]
fn a_missing_block_has_a_substitute_or_none(rt: HostRuntime) -> Result<(), Fail> {
    let mut machine = machine_of_blocks(rt.alloc(), &[(1, "A T0"), (85, STORES)])?;
    play(&rt, &mut machine, 0, &opening());
    let steps = [
        (1, Ask::Now, alarm(35)),
        (1, Ask::Now, alarm(72)),
        (1, Ask::Now, alarm(70)),
        (1, Ask::Now, alarm(47)),
        (1, Ask::Now, Answer::Now(6)),
    ];
    play(&rt, &mut machine, 2, &steps);
    let notes = [
        (0, DiagCode::Start),
        (4, DiagCode::Discrep(0)),
        (5, DiagCode::Ob85(47)),
    ];
    assert_notes(&rt, &machine, &notes);
    let bytes = [(0, 0), (1, 26), (2, 85), (4, 0), (7, 47), (11, 5)];
    assert_bit_memory(&rt, &machine, &bytes);
    let mut machine = machine_of_blocks(rt.alloc(), &[(1, "A T0")])?;
    play(&rt, &mut machine, 0, &opening());
    let steps = [
        (1, Ask::Now, alarm(82)),
        (30, Ask::Stop(StopCode::NoOb85), Answer::Done),
    ];
    play(&rt, &mut machine, 2, &steps);
    assert!(rt; machine.stopped());
    let notes = [
        (0, DiagCode::Start),
        (2, DiagCode::Ob85(82)),
        (3, DiagCode::Stop(StopCode::NoOb85)),
    ];
    assert_notes(&rt, &machine, &notes);
    Ok(())
}
