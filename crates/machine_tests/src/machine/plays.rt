ghost use Rattle.std.specs.Prelude.{◌<◌, IfOk};
ghost use Rattle.mc_machine.specs.Stands.{IsRunning};

use super::{begin, give, machine_of, machine_with, push_all, statement_of};
use mc_machine::Machine;
use s7_base::{Answer, Area, Ask, DiagCode, Loss, Request, Side, StopCode};
use std::alloc::Global;
use std::process::Abort;
use std::test::Fail;

const LOST: Answer = Answer::Lost {
    side: Side::B,
    why: Loss::Suspect,
};

const STOP: Request = Request {
    prio: 30,
    ask: Ask::Stop(StopCode::NoOb121),
};

pub(super) fn assert_notes(rt: &impl Abort, machine: &Machine, notes: &[(u64, DiagCode)])
    requires { IsRunning machine.now }
{
    assert_eq!(rt; machine.note_count() as usize, notes.len());
    for (k, note) in notes.iter().enumerate() {
        assert_eq!(rt; machine.note_at(k as u32), Some(*note));
    }
}

#[test]
fn a_request_is_made_again_until_the_cpu_stops(rt: HostRuntime) -> Result<(), Fail> {
    let mut machine = machine_of(rt.alloc(), "NOP 0", "NOP 0")?;
    assert_eq!(rt;
        give(&rt, &mut machine, Answer::Done, 0).ask,
        Ask::Outputs([0; 64])
    );
    assert_eq!(rt; give(&rt, &mut machine, LOST, 1).ask, Ask::Inputs);
    give(&rt, &mut machine, Answer::Image([7; 64]), 2);
    assert_eq!(rt; give(&rt, &mut machine, Answer::Hold, 3).ask, Ask::Cycle);
    give(&rt, &mut machine, Answer::Back { side: Side::B }, 4);
    let stop = Answer::CpuStop(StopCode::Cycle);
    assert_eq!(rt; give(&rt, &mut machine, stop, 5).ask, Ask::Cycle);
    assert!(rt; machine.stopped());
    let notes = [
        (0, DiagCode::Start),
        (1, DiagCode::LostSuspect(Side::B)),
        (4, DiagCode::Back(Side::B)),
        (5, DiagCode::Stop(StopCode::Cycle)),
    ];
    assert_notes(&rt, &machine, &notes);
    assert_eq!(rt; machine.image_byte(Area::I, 63), Some(7));
    assert_eq!(rt;
        (machine.counter_value(0), machine.block_length(1)),
        (0, None)
    );
    Ok(())
}

/// Statements that fail, and the number of their error.
const FAULTS: &str = "\
A(;A(;A(;A(;A(;A(;A(;A( | 3
) | 4
MCR(;MCR(;MCR(;MCR(;MCR(;MCR(;MCR(;MCR(;MCR( | 5
)MCR | 6
L W#A;BTI | 1
L W#A;BTD | 1
L W#A;SET;S C0 | 1";

#[test]
fn errors_stop_the_cpu(rt: HostRuntime) -> Result<(), Fail> {
    for row in FAULTS.split('\n') {
        let Some((text, number)) = row.split_once(" | ") else {
            return Err("no row".into());
        };
        let error = number.parse::<u8>()?;
        let mut machine = machine_of(rt.alloc(), text, "SET;= M0.0")?;
        begin(&rt, &mut machine, [0; 64]);
        assert_eq!(rt; give(&rt, &mut machine, LOST, 2), STOP, "{text}");
        assert_eq!(rt; give(&rt, &mut machine, Answer::Done, 3), STOP);
        assert!(rt; machine.stopped());
        let notes = [
            (0, DiagCode::Start),
            (1, DiagCode::Error(error)),
            (2, DiagCode::LostSuspect(Side::B)),
            (3, DiagCode::Stop(StopCode::NoOb121)),
        ];
        assert_notes(&rt, &machine, &notes);
        assert_eq!(rt; machine.image_byte(Area::M, 0), Some(0));
    }
    Ok(())
}

/// A timer's check and so many statements without effect.
fn long_program(alloc: Global, fillers: u32) -> Result<Machine, Fail>
    ensures { IfOk result IsRunning }
{
    let mut statements = Vec::new(alloc);
    push_all(&mut statements, "A T0")?;
    let Some(filler) = statement_of("NOP 0") else {
        return Err("no statement".into());
    };
    for _ in 0..fillers {
        statements.push(filler)?;
    }
    machine_with(alloc, statements)
}

#[test]
fn a_tick_comes_after_256_statements(rt: HostRuntime) -> Result<(), Fail> {
    let mut machine = long_program(rt.alloc(), 255)?;
    begin(&rt, &mut machine, [0; 64]);
    assert_eq!(rt; give(&rt, &mut machine, Answer::Now(2), 2).ask, Ask::Now);
    assert_eq!(rt; give(&rt, &mut machine, Answer::Go, 3).ask, Ask::Cycle);
    let mut machine = long_program(rt.alloc(), 256)?;
    begin(&rt, &mut machine, [0; 64]);
    assert_eq!(rt; give(&rt, &mut machine, LOST, 2).ask, Ask::Now);
    assert_eq!(rt; give(&rt, &mut machine, Answer::Now(3), 3).ask, Ask::Now);
    assert_eq!(rt; give(&rt, &mut machine, LOST, 4).ask, Ask::Tick);
    assert_eq!(rt; give(&rt, &mut machine, Answer::Done, 5).ask, Ask::Tick);
    assert_eq!(rt; give(&rt, &mut machine, Answer::Go, 6).ask, Ask::Cycle);
    let mut machine = machine_of(rt.alloc(), "JU @0", "NOP 0")?;
    begin(&rt, &mut machine, [0; 64]);
    assert_eq!(rt; give(&rt, &mut machine, Answer::Done, 2).ask, Ask::Tick);
    assert_eq!(rt; give(&rt, &mut machine, Answer::Done, 3).ask, Ask::Tick);
    let stop = Answer::CpuStop(StopCode::Cycle);
    assert_eq!(rt; give(&rt, &mut machine, stop, 4).ask, Ask::Tick);
    assert!(rt; machine.stopped());
    Ok(())
}

const TIMER: &str = "L W#0005;A I0.0;SD T255;A T255;= Q0.0;L T255;T MB0;LC T255;T MW2";

/// Plays a cycle from moment k on, in which the timer is started, checked and loaded twice, and tells Q 0.0 and MB 0.
fn timed(rt: &impl Abort, machine: &mut Machine, input: u8, k: u64) -> (Option<u8>, Option<u8>)
    requires running { IsRunning machine.old }
    requires small { k < 1000 }
    ensures { IsRunning machine.new }
{
    let mut image = [0; 64];
    image[0] = input;
    begin(rt, machine, image);
    give(rt, machine, Answer::Now(k), k);
    give(rt, machine, Answer::Now(k + 1), k + 1);
    give(rt, machine, Answer::Now(k + 2), k + 2);
    give(rt, machine, Answer::Now(k + 3), k + 3);
    give(rt, machine, Answer::Go, k + 4);
    (
        machine.image_byte(Area::Q, 0),
        machine.image_byte(Area::M, 0),
    )
}

#[test]
fn a_timer_goes_by_the_moments_answered(rt: HostRuntime) -> Result<(), Fail> {
    let mut machine = machine_of(rt.alloc(), TIMER, "NOP 0")?;
    // started at 100 for 5 units of 10 ms, checked at k + 1 and loaded at k + 2
    assert_eq!(rt; timed(&rt, &mut machine, 1, 100), (Some(0), Some(5)));
    assert_eq!(rt; timed(&rt, &mut machine, 1, 107), (Some(0), Some(5)));
    assert_eq!(rt; timed(&rt, &mut machine, 1, 108), (Some(0), Some(4)));
    assert_eq!(rt; timed(&rt, &mut machine, 1, 147), (Some(0), Some(1)));
    assert_eq!(rt; timed(&rt, &mut machine, 1, 148), (Some(0), Some(0)));
    assert_eq!(rt; timed(&rt, &mut machine, 1, 149), (Some(1), Some(0)));
    assert_eq!(rt; timed(&rt, &mut machine, 0, 160), (Some(0), Some(0)));
    assert_eq!(rt; machine.image_byte(Area::M, 3), Some(0));
    // T 255 is an SD, started at 100
    let bytes = [(6120, Some(2)), (6129, Some(100)), (6144, None)];
    for (at_byte, byte) in bytes {
        assert_eq!(rt; machine.image_byte(Area::Timers, at_byte), byte);
    }
    assert_eq!(rt; machine.image_byte(Area::Counters, 1023), Some(0));
    assert_eq!(rt; machine.image_byte(Area::Counters, 1024), None);
    Ok(())
}

#[test]
fn a_start_may_fail_after_its_answer(rt: HostRuntime) -> Result<(), Fail> {
    let mut machine = machine_of(rt.alloc(), "L W#A;SET;SE T1", "NOP 0")?;
    begin(&rt, &mut machine, [0; 64]);
    assert_eq!(rt; give(&rt, &mut machine, Answer::Now(2), 2).ask, Ask::Now);
    assert_eq!(rt; give(&rt, &mut machine, Answer::Done, 3), STOP);
    let notes = [
        (0, DiagCode::Start),
        (2, DiagCode::Error(1)),
        (3, DiagCode::Stop(StopCode::NoOb121)),
    ];
    assert_notes(&rt, &machine, &notes);
    Ok(())
}

#[test]
fn system_functions_ask(rt: HostRuntime) -> Result<(), Fail> {
    let mut machine = machine_of(
        rt.alloc(),
        "SET;CALL SFC 43;= M0.0;L STW;T MW2",
        "CALL SFC 46",
    )?;
    begin(&rt, &mut machine, [0; 64]);
    let retrigger = Request {
        prio: 1,
        ask: Ask::Retrigger,
    };
    let stop = Request {
        prio: 30,
        ask: Ask::Stop(StopCode::Sfc46),
    };
    assert_eq!(rt; give(&rt, &mut machine, LOST, 2), retrigger);
    assert_eq!(rt; give(&rt, &mut machine, Answer::Done, 3), retrigger);
    assert_eq!(rt; give(&rt, &mut machine, LOST, 4), stop);
    assert_eq!(rt; machine.image_byte(Area::Registers, 11), Some(0));
    assert_eq!(rt; give(&rt, &mut machine, Answer::Done, 5), stop);
    assert!(rt; machine.stopped());
    assert_eq!(rt; machine.image_byte(Area::M, 0), Some(1));
    let notes = [
        (0, DiagCode::Start),
        (2, DiagCode::LostSuspect(Side::B)),
        (4, DiagCode::LostSuspect(Side::B)),
        (5, DiagCode::Stop(StopCode::Sfc46)),
    ];
    assert_notes(&rt, &machine, &notes);
    Ok(())
}
