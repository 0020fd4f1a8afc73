//! The text of a run. Its CPU is played to the stop at which its tail is shown.
ghost use Rattle.std.specs.Prelude.{◌≡◌, ◌∷◌, [], Some, None, IfOk, codes};
ghost use Rattle.s7_events.specs.declared.diagnostics.DiagCode.TheVariants as diag;
ghost use Rattle.subsystem.specs.Part.{IsOpen};
ghost use Rattle.trace_text.specs.Tail.{note_lines, block_lines};

use event_record::Record;
use pair_core::{Ended, Shown};
use pair_io::MemSink;
use s7_base::{
    Answer, Ask, Blocks, CodeBlock, CodeKind, DataBlock, Entry, Job, JobArea, Loss, Request, Side,
    Statement, StopCode, fits,
};
use std::alloc::Global;
use std::process::Abort;
use std::test::Fail;
use subsystem::Subsystem;
use trace_printer::{SinkFault, print, print_load};
use trace_text::Mode;

/// Lines of a tail: three kinds of diagnostic entries, which no CPU has yet, and data blocks.
fn the_definitions_write_what_no_cpu_has_yet()
    ensures notes { note_lines ((150, diag.Cycle) ∷ (151, diag.Ob85 40) ∷ (152, diag.Discrep 1022) ∷ [])
        ≡ codes "150 CYCLE\n151 OB85 40\n152 DISCREP 1022\n" }
    ensures blocks { block_lines 0 (None ∷ Some (0 ∷ 1 ∷ 0 ∷ 5 ∷ []) ∷ None ∷ Some (0 ∷ 0 ∷ 0 ∷ 0 ∷ []) ∷ [])
        ≡ codes "DB 1 1:01,3:05\nDB 3 -\n" }
{}

/// `L` of a constant.
fn load(value: u32) -> Statement {
    Statement {
        op: 27,
        area: 11,
        bit: 0,
        db: 0,
        value,
    }
}

/// `L IB 0`.
fn load_input() -> Statement {
    Statement {
        op: 27,
        area: 1,
        bit: 8,
        db: 0,
        value: 0,
    }
}

/// `T QB n` with area 2, `T MB n` with area 3.
fn transfer(area: u8, value: u32) -> Statement {
    Statement {
        op: 28,
        area,
        bit: 8,
        db: 0,
        value,
    }
}

/// `S C n`.
fn set_counter(value: u32) -> Statement {
    Statement {
        op: 15,
        area: 10,
        bit: 0,
        db: 0,
        value,
    }
}

/// A statement without an operand.
fn alone(op: u16) -> Statement {
    Statement {
        op,
        area: 0,
        bit: 0,
        db: 0,
        value: 0,
    }
}

/// OB1: bytes of outputs and flags, C 0 and C 11; and then `BTI` of IB 0, which is error 1 where its digit is above 9.
fn main_program(alloc: Global) -> Result<Blocks, Fail> {
    let statements = [
        load(0x01),
        transfer(2, 0),
        load(0xAF),
        transfer(2, 63),
        load(0x03),
        transfer(3, 21),
        load(0xF0),
        transfer(3, 1023),
        alone(18),
        load(0x0007),
        set_counter(0),
        load(0x0999),
        set_counter(11),
        load_input(),
        alone(53),
    ];
    let main = CodeBlock::new(CodeKind::Ob, 1, 0, Vec::from_array(alloc, statements)?);
    match Blocks::of(vec![in alloc; main]?, Vec::new(alloc)) {
        Some(blocks) => Ok(blocks),
        None => Err("not well formed".into()),
    }
}

/// Gives a side in its first life an answer that fits.
fn give(rt: &impl Abort, side: &mut Subsystem, answer: Answer, moment: u64) -> Result<(), Fail>
    requires open { IsOpen side.old }
    ensures { IfOk result (λ _. IsOpen side.new) }
{
    assert!(rt; side.can_ask());
    let request = side.ask();
    assert!(rt; fits(&request, &answer));
    match side.lives() {
        [life] if life.next < 1000 => {}
        _ => return Err("more than one life".into()),
    }
    side.take(&answer, moment);
    Ok(())
}

/// A side that was loaded.
fn loaded(alloc: Global, blocks: &Blocks) -> Result<Subsystem, Fail>
    ensures { IfOk result IsOpen }
{
    let Ok(mut side) = Subsystem::new(alloc) else {
        return Err("no memory".into());
    };
    if side.load(alloc, blocks).is_err() {
        return Err("no memory".into());
    }
    Ok(side)
}

/// A side that asked to stop at moment 51, and was stopped at moment 300.
fn stopped(rt: &impl Abort, alloc: Global) -> Result<Subsystem, Fail>
    ensures { IfOk result IsOpen }
{
    let mut side = loaded(alloc, &main_program(alloc)?)?;
    give(rt, &mut side, Answer::Done, 0)?;
    give(rt, &mut side, Answer::Image([0; 64]), 1)?;
    let failed = Answer::Lost {
        side: Side::A,
        why: Loss::Failed,
    };
    give(rt, &mut side, failed, 4)?;
    let suspect = Answer::Lost {
        side: Side::B,
        why: Loss::Suspect,
    };
    give(rt, &mut side, suspect, 5)?;
    give(rt, &mut side, Answer::Back { side: Side::B }, 48)?;
    give(rt, &mut side, Answer::Go, 49)?;
    give(rt, &mut side, Answer::Done, 50)?;
    let mut image = [0; 64];
    image[0] = 0x0A;
    give(rt, &mut side, Answer::Image(image), 51)?;
    give(rt, &mut side, Answer::CpuStop(StopCode::Cycle), 300)?;
    Ok(side)
}

/// A record of these entries.
fn record_of(alloc: Global, entries: &[Entry]) -> Result<Record, Fail> {
    let Ok(mut record) = Record::with_room(alloc, 30) else {
        return Err("no memory".into());
    };
    for entry in entries {
        if record.len() < record.room() {
            record.append(*entry);
        }
    }
    Ok(record)
}

fn entry(prio: u8, ask: Ask, answer: Answer) -> Entry {
    Entry {
        request: Request { prio, ask },
        answer,
    }
}

fn job(write: bool, area: JobArea, at_byte: u16, width: u8, value: u32) -> Answer {
    Answer::Job(Job {
        write,
        area,
        at_byte,
        width,
        value,
    })
}

const TEXT: &[u8] = b"TRACE 1 PAIR\n\
0 1 OUT - = DONE\nSHOW A\nAGAIN B\n\
1 1 IN = IMG 0:01,10:AF\n\
2 1 CYCLE = GO\n\
3 1 CYCLE = HOLD\n\
4 1 CYCLE = BACK B\n\
5 1 OUT 0:01,10:AF = LOST B SUSPECT\n\
6 1 IN = LOST A FAILED\n\
7 1 RP 0 1 = ALARM 40 0000000A\n\
8 16 RP 1020 4 = VAL 89ABCDEF\n\
9 1 RP 500 1 = NOMODULE\n\
10 1 WP 0 1 05 = DONE\nSHOW B\n\
11 1 WP 2 2 00FF = NOMODULE\n\
12 1 WP 4 4 0000C0DE = DONE\n\
13 1 NOW = NOW 13\n\
14 1 TICK = DONE\n\
15 1 TRIG = DONE\n\
16 1 CYCLE = JOB WRITE MW 10 0005\n\
17 1 REPLY OK 00000005 = DONE\n\
18 1 CYCLE = JOB READ DB 9 B 0\n\
19 1 REPLY BAD = DONE\n\
20 1 CYCLE = JOB WRITE DB 65535 D 4 0000000A\n\
21 1 CYCLE = JOB READ MD 0\n\
22 30 STOP SFC46 = DONE\n\
23 30 STOP NOOB121 = DONE\n\
24 30 STOP NOOB122 = DONE\n\
25 30 STOP NOOB85 = DONE\n\
26 30 STOP DEPTH = DONE\n\
27 30 STOP LOCAL = DONE\n\
28 30 STOP INERROR = DONE\n\
29 1 TICK = CPUSTOP CYCLE\n\
DIAG 6\n0 START\n4 LOST A FAILED\n5 LOST B SUSPECT\n48 BACK B\n51 ERROR 1\n300 STOP CYCLE\n\
I 0:0A\nQ 0:01,63:AF\nM 21:03,1023:F0\nC 0 7\nC 11 999\n\
STOP 30 CYCLE\n";

#[test]
fn every_form_of_line_is_printed(rt: HostRuntime) -> Result<(), Fail> {
    let alloc = rt.alloc();
    let dark = [0; 64];
    let mut lit = dark;
    lit[0] = 1;
    lit[10] = 0xAF;
    let read = |addr, width| Ask::ReadP { addr, width };
    let write = |addr, width, value| Ask::WriteP { addr, width, value };
    let entries = [
        entry(1, Ask::Outputs(dark), Answer::Done),
        entry(1, Ask::Inputs, Answer::Image(lit)),
        entry(1, Ask::Cycle, Answer::Go),
        entry(1, Ask::Cycle, Answer::Hold),
        entry(1, Ask::Cycle, Answer::Back { side: Side::B }),
        entry(
            1,
            Ask::Outputs(lit),
            Answer::Lost {
                side: Side::B,
                why: Loss::Suspect,
            },
        ),
        entry(
            1,
            Ask::Inputs,
            Answer::Lost {
                side: Side::A,
                why: Loss::Failed,
            },
        ),
        entry(1, read(0, 1), Answer::Alarm { ob: 40, info: 10 }),
        entry(16, read(1020, 4), Answer::Value(0x89AB_CDEF)),
        entry(1, read(500, 1), Answer::NoModule),
        entry(1, write(0, 1, 5), Answer::Done),
        entry(1, write(2, 2, 0xFF), Answer::NoModule),
        entry(1, write(4, 4, 0xC0DE), Answer::Done),
        entry(1, Ask::Now, Answer::Now(13)),
        entry(1, Ask::Tick, Answer::Done),
        entry(1, Ask::Retrigger, Answer::Done),
        entry(1, Ask::Cycle, job(true, JobArea::M, 10, 2, 5)),
        entry(1, Ask::Reply(Some(5)), Answer::Done),
        entry(1, Ask::Cycle, job(false, JobArea::Db(9), 0, 1, 0)),
        entry(1, Ask::Reply(None), Answer::Done),
        entry(1, Ask::Cycle, job(true, JobArea::Db(65535), 4, 4, 10)),
        entry(1, Ask::Cycle, job(false, JobArea::M, 0, 4, 0)),
        entry(30, Ask::Stop(StopCode::Sfc46), Answer::Done),
        entry(30, Ask::Stop(StopCode::NoOb121), Answer::Done),
        entry(30, Ask::Stop(StopCode::NoOb122), Answer::Done),
        entry(30, Ask::Stop(StopCode::NoOb85), Answer::Done),
        entry(30, Ask::Stop(StopCode::Depth), Answer::Done),
        entry(30, Ask::Stop(StopCode::Local), Answer::Done),
        entry(30, Ask::Stop(StopCode::InError), Answer::Done),
        entry(1, Ask::Tick, Answer::CpuStop(StopCode::Cycle)),
    ];
    let record = record_of(alloc, &entries)?;
    let Ok(mut shown) = Shown::with_room(alloc, 3) else {
        return Err("no memory".into());
    };
    shown.add(0, Side::A);
    shown.add(0, Side::B);
    shown.add(10, Side::B);
    let ended = Ended::Stop(StopCode::Cycle);
    let side = stopped(&rt, alloc)?;
    let mut sink = MemSink::new(alloc, 4000, Vec::new(alloc))?;
    let printed = print(&mut sink, Mode::Pair, &record, &shown, &ended, Some(&side));
    assert_eq!(rt; printed, Ok(()));
    assert_eq!(rt; sink.written(), TEXT);
    Ok(())
}

const TAIL: &[u8] =
    b"DIAG 6\n0 START\n4 LOST A FAILED\n5 LOST B SUSPECT\n48 BACK B\n51 ERROR 1\n300 STOP CYCLE\n\
I 0:0A\nQ 0:01,63:AF\nM 21:03,1023:F0\nC 0 7\nC 11 999\nEND 1\n";

#[test]
fn runs_end_as_they_ended(rt: HostRuntime) -> Result<(), Fail> {
    let alloc = rt.alloc();
    let entries = [entry(1, Ask::Outputs([0; 64]), Answer::Done)];
    let record = record_of(alloc, &entries)?;
    let Ok(mut shown) = Shown::with_room(alloc, 1) else {
        return Err("no memory".into());
    };
    shown.add(0, Side::A);
    let side = stopped(&rt, alloc)?;
    let cases: [(Mode, Ended, Option<u64>, Result<(), SinkFault>, &[u8]); 4] = [
        (Mode::TailOnly, Ended::End, None, Ok(()), TAIL),
        (
            Mode::Pair,
            Ended::Spent,
            None,
            Ok(()),
            b"TRACE 1 PAIR\n0 1 OUT - = DONE\nSHOW A\nSPENT 1\n",
        ),
        (
            Mode::Pair,
            Ended::NoneLeft,
            None,
            Ok(()),
            b"TRACE 1 PAIR\n0 1 OUT - = DONE\nSHOW A\nNONE 1\n",
        ),
        (
            Mode::Solo,
            Ended::End,
            Some(1),
            Err(SinkFault),
            b"TRACE 1 SOLO\n",
        ),
    ];
    for (mode, ended, fails, answer, text) in cases {
        let mut failing = Vec::new(alloc);
        if let Some(number) = fails {
            failing.push(number)?;
        }
        let mut sink = MemSink::new(alloc, 4000, failing)?;
        let printed = print(&mut sink, mode, &record, &shown, &ended, Some(&side));
        assert_eq!(rt; printed, answer);
        assert_eq!(rt; sink.written(), text);
    }
    Ok(())
}

const WHOLE: &[u8] =
    b"TRACE 1 SOLO\n0 1 OUT - = DONE\nSHOW A\nDIAG 1\n0 START\nI -\nQ -\nM -\nEND 1\n";

#[test]
fn blocks_are_told_by_kind(rt: HostRuntime) -> Result<(), Fail> {
    let alloc = rt.alloc();
    let main = CodeBlock::new(CodeKind::Ob, 1, 0, Vec::new(alloc));
    let other = CodeBlock::new(CodeKind::Fc, 255, 0, Vec::new(alloc));
    let data = DataBlock::new(9, vec![in alloc; 0; 12]?);
    let Some(blocks) = Blocks::of(vec![in alloc; main, other]?, vec![in alloc; data]?) else {
        return Err("not well formed".into());
    };
    let mut sink = MemSink::new(alloc, 100, Vec::new(alloc))?;
    assert!(rt; print_load(&mut sink, &blocks).is_ok());
    assert_eq!(rt;
        sink.written(),
        b"OB 1 0\nFC 255 0\nDB 9 12\nOK 3\n".as_slice()
    );
    Ok(())
}

#[test]
fn a_side_shows_its_tail(rt: HostRuntime) -> Result<(), Fail> {
    let alloc = rt.alloc();
    let main = CodeBlock::new(CodeKind::Ob, 1, 0, Vec::new(alloc));
    let Some(blocks) = Blocks::of(vec![in alloc; main]?, Vec::new(alloc)) else {
        return Err("not well formed".into());
    };
    let side = loaded(alloc, &blocks)?;
    let entries = [entry(1, Ask::Outputs([0; 64]), Answer::Done)];
    let record = record_of(alloc, &entries)?;
    let Ok(mut shown) = Shown::with_room(alloc, 1) else {
        return Err("no memory".into());
    };
    shown.add(0, Side::A);
    let mut sink = MemSink::new(alloc, 200, Vec::new(alloc))?;
    let printed = print(
        &mut sink,
        Mode::Solo,
        &record,
        &shown,
        &Ended::End,
        Some(&side),
    );
    assert_eq!(rt; printed, Ok(()));
    assert_eq!(rt; sink.written(), WHOLE);
    Ok(())
}
