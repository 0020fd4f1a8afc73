use std::test::Fail;
use trace_reader::{
    Answer, Counter, Ending, Event, JobArea, Loss, Mode, Place, Request, Showings, Side, StopCode,
    TraceFault, Width, read,
};

/// Every form of line, as trace_printer writes it.
const TEXT: &[u8] = b"TRACE 1 PAIR\n\
0 1 OUT - = DONE\nSHOW A\nAGAIN B\n\
1 1 IN = IMG 0:01,10:AF\n\
2 1 CYCLE = GO\n\
3 1 CYCLE = HOLD\n\
4 1 CYCLE = BACK B\n\
5 1 OUT 0:01,10:AF = LOST B SUSPECT\n\
6 1 IN = LOST A FAILED\n\
7 1 RP 0 1 = ALARM 40 0000000A\n\
8 16 RP 1020 4 = VAL 89ABCDEF\n\
9 1 RP 500 1 = NOMODULE\n\
10 1 WP 0 1 05 = DONE\nSHOW B\n\
11 1 WP 2 2 00FF = NOMODULE\n\
12 1 WP 4 4 0000C0DE = DONE\n\
13 1 NOW = NOW 13\n\
14 1 TICK = DONE\n\
15 1 TRIG = DONE\n\
16 1 CYCLE = JOB WRITE MW 10 0005\n\
17 1 REPLY OK 00000005 = DONE\n\
18 1 CYCLE = JOB READ DB 9 B 0\n\
19 1 REPLY BAD = DONE\n\
20 1 CYCLE = JOB WRITE DB 65535 D 4 0000000A\n\
21 1 CYCLE = JOB READ MD 0\n\
22 30 STOP SFC46 = DONE\n\
23 30 STOP NOOB121 = DONE\n\
24 30 STOP NOOB122 = DONE\n\
25 30 STOP NOOB85 = DONE\n\
26 30 STOP DEPTH = DONE\n\
27 30 STOP LOCAL = DONE\n\
28 30 STOP INERROR = DONE\n\
29 1 TICK = CPUSTOP CYCLE\n\
DIAG 9\n0 START\n4 LOST A FAILED\n5 LOST B SUSPECT\n48 BACK B\n50 ERROR 9\n150 CYCLE\n151 OB85 40\n\
152 DISCREP 1022\n300 STOP CYCLE\n\
I -\nQ 0:01,63:AF\nM 21:03,1023:F0\nDB 1 1:01,3:05\nDB 3 -\nC 0 7\nC 11 999\n\
STOP 30 CYCLE\n";

#[test]
fn every_form_of_line_is_read(rt: HostRuntime) -> Result<(), Fail> {
    let trace = read(rt.alloc(), TEXT)?;
    assert_eq!(rt; trace.mode, Mode::Pair);
    assert_eq!(rt; trace.ending, Ending::Stop(StopCode::Cycle));
    let entries = trace.entries.as_slice();
    assert_eq!(rt; entries.len(), 30);
    let shown = [entries[0].shown, entries[1].shown, entries[10].shown];
    let wanted = [
        Showings::Twice(Side::A, Side::B),
        Showings::None,
        Showings::Once(Side::B),
    ];
    assert_eq!(rt; shown, wanted);
    let mut lit = [0; 64];
    lit[0] = 1;
    lit[10] = 0xAF;
    assert_eq!(rt; entries[1].answer, Answer::Image(lit));
    let lost = Answer::Lost {
        side: Side::B,
        why: Loss::Suspect,
    };
    assert_eq!(rt; entries[5].request, Request::Outputs(lit));
    assert_eq!(rt; entries[5].answer, lost);
    assert_eq!(rt; entries[8].priority, 16);
    let job = Answer::WriteJob {
        place: Place {
            area: JobArea::DataBlock(65535),
            width: Width::Double,
            at: 4,
        },
        value: 10,
    };
    assert_eq!(rt; entries[20].answer, job);
    Ok(())
}

#[test]
fn the_tail_is_read(rt: HostRuntime) -> Result<(), Fail> {
    let trace = read(rt.alloc(), TEXT)?;
    let Some(tail) = &trace.tail else {
        return Err("no tail".into());
    };
    assert_eq!(rt; tail.notes.len(), 9);
    assert_eq!(rt; tail.notes[7].moment, 152);
    assert_eq!(rt; tail.notes[7].event, Event::Discrepancy(1022));
    assert_eq!(rt; tail.areas.memory[1023], 0xF0);
    assert_eq!(rt; tail.blocks.len(), 2);
    assert_eq!(rt; tail.blocks[0].number(), 1);
    assert!(rt; tail.blocks[0].bytes().starts_with(&[0, 1, 0, 5, 0]));
    let last = Counter {
        number: 11,
        value: 999,
    };
    assert_eq!(rt; tail.counters.len(), 2);
    assert_eq!(rt; tail.counters[1], last);
    Ok(())
}

#[test]
fn refusals_name_their_line(rt: HostRuntime) -> Result<(), Fail> {
    let cases: [(&[u8], usize); 22] = [
        (b"", 1),
        (b"TRACE 1 TRIO\n", 1),
        (b"TRACE 1 SOLO\n", 2),
        (b"TRACE 1 SOLO\n1 1 IN = IMG -\nSPENT 1\n", 2),
        (b"TRACE 1 SOLO\n00 1 IN = IMG -\nSPENT 1\n", 2),
        (b"TRACE 1 SOLO\n0 256 IN = IMG -\nSPENT 1\n", 2),
        (b"TRACE 1 SOLO\n0 1 IN = IMG 0:00\nSPENT 1\n", 2),
        (b"TRACE 1 SOLO\n0 1 IN = IMG 0:0a\nSPENT 1\n", 2),
        (b"TRACE 1 SOLO\n0 1 IN = IMG 1:01,0:01\nSPENT 1\n", 2),
        (b"TRACE 1 SOLO\n0 1 IN = IMG 64:01\nSPENT 1\n", 2),
        (b"TRACE 1 SOLO\n0 1 IN  = IMG -\nSPENT 1\n", 2),
        (b"TRACE 1 SOLO\n0 1 IN = IMG -\nSHOW A\nSPENT 1\n", 3),
        (b"TRACE 1 SOLO\n0 1 OUT - = DONE\nAGAIN A\nSPENT 1\n", 3),
        (
            b"TRACE 1 SOLO\n0 1 OUT - = DONE\nSHOW A\nSHOW B\nSPENT 1\n",
            4,
        ),
        (b"TRACE 1 SOLO\n0 1 IN = IMG -\nSPENT 2\n", 3),
        (b"TRACE 1 SOLO\n0 1 IN = IMG -\nSPENT 1", 3),
        (b"TRACE 1 SOLO\n0 1 IN = IMG -\nSPENT 1\n\n", 4),
        (b"TRACE 1 SOLO\n0 1 IN = IMG -\nEND 1\n", 3),
        (b"TRACE 1 SOLO\nDIAG 2\n0 START\nI -\nQ -\nM -\nEND 0\n", 4),
        (b"TRACE 1 SOLO\nDIAG 0\nI -\nQ 64:01\nM -\nEND 0\n", 4),
        (
            b"TRACE 1 SOLO\nDIAG 0\nI -\nQ -\nM -\nC 1 7\nDB 1 -\nEND 0\n",
            7,
        ),
        (b"TRACE 1 SOLO\nDIAG 0\nI -\nQ -\nM -\nSPENT 0\n", 6),
    ];
    for (text, line) in cases {
        let found = read(rt.alloc(), text);
        assert!(rt; matches!(found, Err(TraceFault::Line { line: number }) if number == line));
    }
    Ok(())
}
