ghost use Rattle.std.specs.Prelude.{IfOk};
ghost use Rattle.dynamic_pages.specs.Pages.{HoldTimers, HoldCounters};

use counters::Counter;
use diag_buffer::{Diag, Note};
use dynamic_pages::*;
use s5_time::S5;
use s7_events::{DiagCode, Side, StopCode};
use std::alloc::Global;
use std::test::Fail;
use timers::{Timer, TimerKind};

/// Entries, and what of their bytes isn't 0, from the highest byte of the moment on.
const ENTRIES: [(u64, DiagCode, [u8; 16]); 9] = [
    (
        0,
        DiagCode::Start,
        [0, 0, 0, 0, 0, 0, 0, 0, 0, 1, 0, 0, 0, 0, 0, 0],
    ),
    (
        256,
        DiagCode::LostFailed(Side::A),
        [0, 0, 0, 0, 0, 0, 1, 0, 0, 2, 0, 0, 0, 0, 0, 0],
    ),
    (
        7,
        DiagCode::LostSuspect(Side::B),
        [0, 0, 0, 0, 0, 0, 0, 7, 0, 3, 0, 0, 0, 1, 0, 0],
    ),
    (
        7,
        DiagCode::Back(Side::B),
        [0, 0, 0, 0, 0, 0, 0, 7, 0, 4, 0, 0, 0, 1, 0, 0],
    ),
    (
        7,
        DiagCode::Error(9),
        [0, 0, 0, 0, 0, 0, 0, 7, 0, 5, 0, 0, 0, 9, 0, 0],
    ),
    (
        7,
        DiagCode::Cycle,
        [0, 0, 0, 0, 0, 0, 0, 7, 0, 6, 0, 0, 0, 0, 0, 0],
    ),
    (
        7,
        DiagCode::Ob85(40),
        [0, 0, 0, 0, 0, 0, 0, 7, 0, 7, 0, 0, 0, 40, 0, 0],
    ),
    (
        7,
        DiagCode::Discrep(1023),
        [0, 0, 0, 0, 0, 0, 0, 7, 0, 8, 0, 0, 3, 255, 0, 0],
    ),
    (
        7,
        DiagCode::Stop(StopCode::InError),
        [0, 0, 0, 0, 0, 0, 0, 7, 0, 9, 0, 0, 0, 7, 0, 0],
    ),
];

#[test]
fn entries_are_written_and_read(rt: HostRuntime) {
    for (moment, code, bytes) in ENTRIES {
        let note = Note { moment, code };
        assert_eq!(rt; note_bytes(&note), bytes, "{code:?}");
        assert_eq!(rt; note_of(&bytes), note);
    }
}

#[test]
fn registers_are_written_and_read(rt: HostRuntime) {
    let registers = CycleRegisters {
        at: 258,
        since: 3,
        began_at: 250,
        last_length: 4,
        first_over: true,
        notes: 2,
    };
    let page = registers.page();
    let there = [
        page[6], page[7], page[11], page[19], page[21], page[22], page[23], page[24],
    ];
    assert_eq!(rt; there, [1, 2, 3, 250, 4, 1, 2, 0]);
    assert_eq!(rt; CycleRegisters::of_page(&page), registers);
}

/// Timers of which one, of number 21, was started.
fn timers_with_one() -> [Timer; 256] {
    let mut timers = [Timer::new(); 256];
    let preset = S5 {
        base: 1,
        units: 300,
    };
    timers[21].start(TimerKind::Sd, true, preset, 70000);
    timers
}

/// Timer 21 has the bytes 504 to 527: the first 8 of them end page 1, the others begin page 2.
#[test]
fn a_timer_lies_on_two_pages(rt: HostRuntime) {
    let timers = timers_with_one();
    let page = timer_page(&timers, 1);
    assert_eq!(rt; &page[247..256], [0, 2, 1, 0, 0, 0, 0, 0, 1].as_slice());
    let page = timer_page(&timers, 2);
    assert_eq!(rt; &page[..10], [17, 112, 1, 1, 44, 1, 1, 0, 0, 0].as_slice());
}

/// The bytes of the timers, page by page.
fn bytes_of_timers(alloc: Global, timers: &[Timer; 256]) -> Result<Vec<u8>, Fail>
    ensures { IfOk result (λ bytes. HoldTimers bytes.items timers.now) }
{
    timers_fit(timers);
    let mut bytes = Vec::new(alloc);
    for k in 0..24 {
        bytes.extend_from_slice(&timer_page(timers, k))?;
    }
    Ok(bytes)
}

#[test]
fn timers_are_written_and_read(rt: HostRuntime) -> Result<(), Fail> {
    let timers = timers_with_one();
    let bytes = bytes_of_timers(rt.alloc(), &timers)?;
    let read = timers_of(&bytes);
    let (timer, again) = (timers[21], read[21]);
    assert_eq!(rt; again, timer);
    Ok(())
}

/// The bytes of the counters, page by page.
fn bytes_of_counters(alloc: Global, counters: &[Counter; 256]) -> Result<Vec<u8>, Fail>
    ensures { IfOk result (λ bytes. HoldCounters bytes.items counters.now) }
{
    counters_fit(counters);
    let mut bytes = Vec::new(alloc);
    for k in 0..4 {
        bytes.extend_from_slice(&counter_page(counters, k))?;
    }
    Ok(bytes)
}

/// Counter 65 has the bytes 4 to 7 of page 1: 258 counts, and CU and S came last with RLO 1.
#[test]
fn counters_are_written_and_read(rt: HostRuntime) -> Result<(), Fail> {
    let mut counters = [Counter::new(); 256];
    counters[65].set(true, 257);
    counters[65].up(true);
    let page = counter_page(&counters, 1);
    assert_eq!(rt; &page[3..9], [0, 1, 2, 5, 0, 0].as_slice());
    let bytes = bytes_of_counters(rt.alloc(), &counters)?;
    let read = counters_of(&bytes);
    let (counter, again) = (counters[65], read[65]);
    assert_eq!(rt; again, counter);
    Ok(())
}

/// Entry 16 begins page 1.
#[test]
fn entries_lie_one_after_another(rt: HostRuntime) -> Result<(), Fail> {
    let Ok(mut diag) = Diag::new(rt.alloc()) else {
        return Err("no memory".into());
    };
    for moment in 0..17u64 {
        diag.note(moment, DiagCode::Error(9));
    }
    let page = note_page(&diag, 1);
    assert_eq!(rt;
        &page[..17],
        [0, 0, 0, 0, 0, 0, 0, 16, 0, 5, 0, 0, 0, 9, 0, 0, 0].as_slice()
    );
    assert_eq!(rt; note_page(&diag, 2), [0; 256]);
    Ok(())
}
