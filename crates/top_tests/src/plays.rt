ghost use Rattle.std.specs.Prelude.{◌≡◌, length, IfOk};

use pair_core::Ended;
use pair_io::{MemFiles, MemSink};
use pair_top::*;
use plant_script::ScriptFault;
use std::alloc::{AllocError, Global};
use std::test::Fail;
use subsystem::{How, Life, Subsystem};

const SOURCE: &[u8] =
    b"ORGANIZATION_BLOCK OB 1\nBEGIN\nA I 0.0;\n= Q 0.0;\nEND_ORGANIZATION_BLOCK\n";

const SCRIPT: &[u8] = b"MODULE IN 0 1 SWITCHED\nAT 3 INPUT 0 01\nEND 12\n";

const TEXT: &[u8] = b"TRACE 1 SOLO\n\
0 1 OUT - = DONE\nSHOW A\n1 1 IN = IMG -\n2 1 CYCLE = GO\n\
3 1 OUT - = DONE\nSHOW A\n4 1 IN = IMG 0:01\n5 1 CYCLE = GO\n\
6 1 OUT 0:01 = DONE\nSHOW A\n7 1 IN = IMG 0:01\n8 1 CYCLE = GO\n\
9 1 OUT 0:01 = DONE\nSHOW A\n10 1 IN = IMG 0:01\n11 1 CYCLE = GO\n\
DIAG 1\n0 START\nI 0:01\nQ 0:01\nM -\nEND 12\n";

fn two(alloc: Global, first: &[u8], second: &[u8]) -> Result<Vec<Vec<u8>>, AllocError>
    ensures { IfOk result (λ all. length all.items ≡ 2) }
{
    Ok(vec![in alloc; first.to_vec(alloc)?, second.to_vec(alloc)?]?)
}

/// The source as `s` and the script as `p`.
fn files_of(
    alloc: Global,
    source: &[u8],
    script: &[u8],
    failing: Option<u64>,
) -> Result<MemFiles, Fail> {
    let names = two(alloc, b"s", b"p")?;
    let contents = two(alloc, source, script)?;
    Ok(MemFiles::new(alloc, names, contents, list_of(alloc, failing)?)?)
}

fn list_of(alloc: Global, number: Option<u64>) -> Result<Vec<u64>, Fail> {
    let mut list = Vec::new(alloc);
    if let Some(number) = number {
        list.push(number)?;
    }
    Ok(list)
}

fn words_of(alloc: Global, words: &[&[u8]]) -> Result<Vec<Vec<u8>>, Fail> {
    let mut list = Vec::new(alloc);
    for word in words {
        list.push(word.to_vec(alloc)?)?;
    }
    Ok(list)
}

/// What a call left.
#[derive(Drop)]
struct Left {
    outcome: Outcome,
    a: Subsystem,
    b: Subsystem,
}

fn served(
    alloc: Global,
    words: &[&[u8]],
    files: &mut MemFiles,
    sink: &mut MemSink,
) -> Result<Left, Fail> {
    let list = words_of(alloc, words)?;
    let mut a = Subsystem::new(alloc)?;
    let mut b = Subsystem::new(alloc)?;
    let outcome = serve_alone(alloc, &list, files, sink, &mut a, &mut b);
    Ok(Left { outcome, a, b })
}

/// The play of the source and a script.
fn played(alloc: Global, script: &[u8], sink: &mut MemSink) -> Result<Left, Fail> {
    let mut files = files_of(alloc, SOURCE, script, None)?;
    served(alloc, &[b"solo", b"s", b"p"], &mut files, sink)
}

const PLAYS: [(&[u8], &[u8]); 12] = [
    (
        b"END 1\n",
        b"TRACE 1 SOLO\n0 1 OUT - = DONE\nSHOW A\nDIAG 1\n0 START\nI -\nQ -\nM -\nEND 1\n",
    ),
    (
        b"MODULE IN 0 64 SWITCHED\nEND 2\n",
        b"TRACE 1 SOLO\n0 1 OUT - = DONE\nSHOW A\n1 1 IN = IMG -\nDIAG 1\n0 START\nI -\nQ -\nM -\nEND 2\n",
    ),
    // OB1 runs before the CPU asks again.
    (
        b"MODULE IN 0 1 SWITCHED\nAT 1 INPUT 0 01\nEND 2\n",
        b"TRACE 1 SOLO\n0 1 OUT - = DONE\nSHOW A\n1 1 IN = IMG 0:01\n\
DIAG 1\n0 START\nI 0:01\nQ 0:01\nM -\nEND 2\n",
    ),
    // An input at the last moment comes after the last IN.
    (
        b"MODULE IN 0 1 SWITCHED\nAT 2 INPUT 0 01\nEND 3\n",
        b"TRACE 1 SOLO\n0 1 OUT - = DONE\nSHOW A\n1 1 IN = IMG -\n2 1 CYCLE = GO\n\
DIAG 1\n0 START\nI -\nQ -\nM -\nEND 3\n",
    ),
    (
        b"MODULE IN 0 64 SWITCHED\nAT 1 INPUT 63 a0\nEND 3\n",
        b"TRACE 1 SOLO\n0 1 OUT - = DONE\nSHOW A\n1 1 IN = IMG 63:A0\n2 1 CYCLE = GO\n\
DIAG 1\n0 START\nI 63:A0\nQ -\nM -\nEND 3\n",
    ),
    (
        b"MODULE IN 0 1 SWITCHED\nAT 0 INPUT 0 01\nEND 4\n",
        b"TRACE 1 SOLO\n0 1 OUT - = DONE\nSHOW A\n1 1 IN = IMG 0:01\n2 1 CYCLE = GO\n\
3 1 OUT 0:01 = DONE\nSHOW A\nDIAG 1\n0 START\nI 0:01\nQ 0:01\nM -\nEND 4\n",
    ),
    (
        b"MODULE IN 0 1 SWITCHED\nAT 3 INPUT 0 01\nEND 4\n",
        b"TRACE 1 SOLO\n0 1 OUT - = DONE\nSHOW A\n1 1 IN = IMG -\n2 1 CYCLE = GO\n\
3 1 OUT - = DONE\nSHOW A\nDIAG 1\n0 START\nI -\nQ -\nM -\nEND 4\n",
    ),
    // Of two lines at one moment the last counts.
    (
        b"MODULE IN 0 1 SWITCHED\nAT 1 INPUT 0 01\nAT 1 INPUT 0 FE\nEND 4\n",
        b"TRACE 1 SOLO\n0 1 OUT - = DONE\nSHOW A\n1 1 IN = IMG 0:FE\n2 1 CYCLE = GO\n\
3 1 OUT - = DONE\nSHOW A\nDIAG 1\n0 START\nI 0:FE\nQ -\nM -\nEND 4\n",
    ),
    (
        b"MODULE IN 0 64 SWITCHED\nAT 1 INPUT 0 00\nAT 1 INPUT 10 0f\nAT 1 INPUT 0 fF\nEND 4\n",
        b"TRACE 1 SOLO\n0 1 OUT - = DONE\nSHOW A\n1 1 IN = IMG 0:FF,10:0F\n2 1 CYCLE = GO\n\
3 1 OUT 0:01 = DONE\nSHOW A\nDIAG 1\n0 START\nI 0:FF,10:0F\nQ 0:01\nM -\nEND 4\n",
    ),
    (
        b"END 12\n",
        b"TRACE 1 SOLO\n\
0 1 OUT - = DONE\nSHOW A\n1 1 IN = IMG -\n2 1 CYCLE = GO\n\
3 1 OUT - = DONE\nSHOW A\n4 1 IN = IMG -\n5 1 CYCLE = GO\n\
6 1 OUT - = DONE\nSHOW A\n7 1 IN = IMG -\n8 1 CYCLE = GO\n\
9 1 OUT - = DONE\nSHOW A\n10 1 IN = IMG -\n11 1 CYCLE = GO\n\
DIAG 1\n0 START\nI -\nQ -\nM -\nEND 12\n",
    ),
    // On, off, and on again in the last cycle, whose outputs stand in the tail alone.
    (
        b"MODULE IN 0 2 SWITCHED\nAT 0 INPUT 1 80\nAT 2 INPUT 0 01\nAT 5 INPUT 0 02\nAT 10 INPUT 0 03\nAT 11 INPUT 0 00\nEND 12\n",
        b"TRACE 1 SOLO\n\
0 1 OUT - = DONE\nSHOW A\n1 1 IN = IMG 1:80\n2 1 CYCLE = GO\n\
3 1 OUT - = DONE\nSHOW A\n4 1 IN = IMG 0:01,1:80\n5 1 CYCLE = GO\n\
6 1 OUT 0:01 = DONE\nSHOW A\n7 1 IN = IMG 0:02,1:80\n8 1 CYCLE = GO\n\
9 1 OUT - = DONE\nSHOW A\n10 1 IN = IMG 0:03,1:80\n11 1 CYCLE = GO\n\
DIAG 1\n0 START\nI 0:03,1:80\nQ 0:01\nM -\nEND 12\n",
    ),
    (SCRIPT, TEXT),
];

#[test]
fn plays_are_written(rt: HostRuntime) -> Result<(), Fail> {
    let alloc = rt.alloc();
    for (script, text) in PLAYS {
        let mut sink = MemSink::new(alloc, 1000, Vec::new(alloc))?;
        let left = played(alloc, script, &mut sink)?;
        assert_eq!(rt; left.outcome.fault, None);
        assert_eq!(rt; left.outcome.status, 0);
        assert_eq!(rt; left.outcome.ended, Ended::End);
        assert_eq!(rt; sink.written(), text);
    }
    Ok(())
}

/// Scripts that stop side A, the texts, and how many outputs were shown.
const FAILURES: [(&[u8], &[u8], usize); 4] = [
    (b"AT 0 FAIL A\nEND 12\n", b"TRACE 1 SOLO\nNONE 0\n", 0),
    (
        b"AT 4 FAIL A\nEND 12\n",
        b"TRACE 1 SOLO\n0 1 OUT - = DONE\nSHOW A\n1 1 IN = IMG -\n2 1 CYCLE = GO\n\
3 1 OUT - = DONE\nNONE 4\n",
        1,
    ),
    (
        b"AT 4 FAIL A LATE\nEND 12\n",
        b"TRACE 1 SOLO\n0 1 OUT - = DONE\nSHOW A\n1 1 IN = IMG -\n2 1 CYCLE = GO\n\
3 1 OUT - = DONE\nSHOW A\nNONE 4\n",
        2,
    ),
    (
        b"MODULE IN 0 1 SWITCHED\nAT 1 INPUT 0 01\nAT 2 FAIL A\nEND 12\n",
        b"TRACE 1 SOLO\n0 1 OUT - = DONE\nSHOW A\n1 1 IN = IMG 0:01\nNONE 2\n",
        1,
    ),
];

#[test]
fn a_side_that_stops_leaves_none(rt: HostRuntime) -> Result<(), Fail> {
    let alloc = rt.alloc();
    for (script, text, shown) in FAILURES {
        let mut sink = MemSink::new(alloc, 1000, Vec::new(alloc))?;
        let left = played(alloc, script, &mut sink)?;
        assert_eq!(rt; left.outcome.fault, None);
        assert_eq!(rt; left.outcome.ended, Ended::NoneLeft);
        assert_eq!(rt; left.outcome.shown.as_slice().len(), shown);
        assert_eq!(rt; sink.written(), text);
    }
    let mut sink = MemSink::new(alloc, 1000, Vec::new(alloc))?;
    let script = b"MODULE IN 0 1 SWITCHED\nAT 3 INPUT 0 01\nAT 4 FAIL B\nEND 12\n";
    let left = played(alloc, script, &mut sink)?;
    assert_eq!(rt; left.outcome.ended, Ended::End);
    assert_eq!(rt; sink.written(), TEXT);
    Ok(())
}

/// The play of the source and a script by a pattern.
fn played_by(
    alloc: Global,
    script: &[u8],
    pattern: &[u8],
    sink: &mut MemSink,
) -> Result<Left, Fail> {
    let mut files = files_of(alloc, SOURCE, script, None)?;
    served(alloc, &[b"turns", b"s", b"p", pattern], &mut files, sink)
}

/// Scripts, patterns, the texts, and how the run ended. Each side has one life from the first entry; how many entries
/// it took stands last.
const TURNS: [(&[u8], &[u8], &[u8], Ended, (u32, u32)); 6] = [
    // The mark alone tells a run that is spent from one that is at its end.
    (
        b"END 1\n",
        b"aba",
        b"TRACE 1 PAIR\n0 1 OUT - = DONE\nSHOW A\nSPENT 1\n",
        Ended::Spent,
        (1, 1),
    ),
    (
        b"END 1\n",
        b"abaa",
        b"TRACE 1 PAIR\n0 1 OUT - = DONE\nSHOW A\nDIAG 1\n0 START\nI -\nQ -\nM -\nEND 1\n",
        Ended::End,
        (1, 1),
    ),
    // The master shows before the other side takes, and marks before it goes on.
    (
        b"END 12\n",
        b"2*a,3*b,2*a",
        b"TRACE 1 PAIR\n0 1 OUT - = DONE\nSHOW A\n1 1 IN = IMG -\nSPENT 2\n",
        Ended::Spent,
        (2, 1),
    ),
    (
        b"AT 1 FAIL A\nAT 1 FAIL B\nEND 12\n",
        b"100*ab",
        b"TRACE 1 PAIR\n0 1 OUT - = DONE\nNONE 1\n",
        Ended::NoneLeft,
        (1, 0),
    ),
    // Side B is lost before it took the last entry, and side A goes on alone.
    (
        b"AT 1 FAIL B\nEND 3\n",
        b"100*ab",
        b"TRACE 1 PAIR\n0 1 OUT - = DONE\nSHOW A\n1 1 IN = LOST B FAILED\n2 1 IN = IMG -\n\
DIAG 2\n0 START\n1 LOST B FAILED\nI -\nQ -\nM -\nEND 3\n",
        Ended::End,
        (3, 0),
    ),
    // The late master shows, and is lost before the mark: side B shows again.
    (
        b"MODULE IN 0 1 SWITCHED\nAT 4 FAIL A LATE\nEND 8\n",
        b"7*ab,93*ab",
        b"TRACE 1 PAIR\n\
0 1 OUT - = DONE\nSHOW A\n1 1 IN = IMG -\n2 1 CYCLE = GO\n\
3 1 OUT - = DONE\nSHOW A\nAGAIN B\n4 1 IN = LOST A FAILED\n5 1 IN = IMG -\n6 1 CYCLE = GO\n\
7 1 OUT - = DONE\nSHOW B\nDIAG 2\n0 START\n4 LOST A FAILED\nI -\nQ -\nM -\nEND 8\n",
        Ended::End,
        (4, 8),
    ),
];

/// The life of a side from the first entry.
fn life_up_to(next: u32) -> Life {
    Life {
        how: How::Loaded,
        first: 0,
        next,
    }
}

#[test]
fn turns_are_written(rt: HostRuntime) -> Result<(), Fail> {
    let alloc = rt.alloc();
    for (script, pattern, text, ended, taken) in TURNS {
        let mut sink = MemSink::new(alloc, 1000, Vec::new(alloc))?;
        let left = played_by(alloc, script, pattern, &mut sink)?;
        assert_eq!(rt; left.outcome.fault, None);
        assert_eq!(rt; left.outcome.ended, ended);
        assert_eq!(rt; sink.written(), text);
        assert_eq!(rt; left.a.lives(), [life_up_to(taken.0)].as_slice());
        assert_eq!(rt; left.b.lives(), [life_up_to(taken.1)].as_slice());
    }
    Ok(())
}

/// Patterns, and arguments that are none.
const PATTERNS: [(&[u8], bool); 21] = [
    (b"a", true),
    (b"b,a", true),
    (b"1000000*a", true),
    (b"0001*ab,2*b", true),
    (b"1000000*abab", true),
    (&[b'b'; 64], true),
    (b"", false),
    (b"a,", false),
    (b",a", false),
    (b"a,,b", false),
    (b"5*ac", false),
    (b"A", false),
    (b"a b", false),
    (b"0*a", false),
    (b"+1*a", false),
    (b"1000001*a", false),
    (b"4*", false),
    (b"*a", false),
    (b"2*2*a", false),
    (b"1000000*abab,a", false),
    (&[b'b'; 65], false),
];

#[test]
fn patterns_are_read(rt: HostRuntime) -> Result<(), Fail> {
    let alloc = rt.alloc();
    let mut files = files_of(alloc, SOURCE, SCRIPT, None)?;
    for (word, is_one) in PATTERNS {
        let mut sink = MemSink::new(alloc, 0, Vec::new(alloc))?;
        // no file has the name: where the arguments are a command, that is what is found
        let left = served(
            alloc,
            &[b"turns", b"no", b"no", word],
            &mut files,
            &mut sink,
        )?;
        let fault = if is_one {
            Fault::FileFault { which: 0 }
        } else {
            Fault::Usage
        };
        assert_eq!(rt; left.outcome.fault, Some(fault));
    }
    Ok(())
}

/// Numbers of moments of `make`, and arguments that are none.
const MOMENTS: [(&[u8], bool); 14] = [
    (b"1000", true),
    (b"1001", true),
    (b"100000", true),
    (b"0001000", true),
    (b"00000000000000000000000000000001000", true),
    (b"", false),
    (b"0", false),
    (b"999", false),
    (b"100001", false),
    (b"4294968296", false),
    (b"+1000", false),
    (b"1000 ", false),
    (b"1,000", false),
    (b"0x1000", false),
];

#[test]
fn numbers_of_moments_are_read(rt: HostRuntime) -> Result<(), Fail> {
    let alloc = rt.alloc();
    let mut files = files_of(alloc, SOURCE, SCRIPT, None)?;
    for (word, is_one) in MOMENTS {
        let mut sink = MemSink::new(alloc, 1000, Vec::new(alloc))?;
        let left = served(alloc, &[b"make", word], &mut files, &mut sink)?;
        assert_eq!(rt; left.outcome.fault == Some(Fault::Usage), !is_one);
    }
    Ok(())
}

/// 333 cycles, no alarm, and the loss of side B half way.
#[test]
fn a_made_play_writes_its_tail(rt: HostRuntime) -> Result<(), Fail> {
    let alloc = rt.alloc();
    let mut files = files_of(alloc, SOURCE, SCRIPT, None)?;
    let mut sink = MemSink::new(alloc, 1000, Vec::new(alloc))?;
    let left = served(alloc, &[b"make", b"1000"], &mut files, &mut sink)?;
    assert_eq!(rt; left.outcome.fault, None);
    assert_eq!(rt; left.outcome.ended, Ended::End);
    assert_eq!(rt; left.outcome.entries.len(), 1000);
    let text: &[u8] =
        b"DIAG 2\n0 START\n500 LOST B FAILED\nI 0:09\nQ 0:09\nM 0:01,1:4D\nEND 1000\n";
    assert_eq!(rt; sink.written(), text);
    Ok(())
}

/// Sources, scripts and texts of plays in which side A is lost in OB1: side B asks again for what A was denied.
const FAILOVERS: [(&[u8], &[u8], &[u8]); 2] = [
    // The timer is started at 2, and runs out at 12. Both sides know it.
    (
        b"ORGANIZATION_BLOCK OB 1\nBEGIN\nAN M 0.0; L S5T#10MS; SD T 1; A T 1; = Q 0.0;\nEND_ORGANIZATION_BLOCK\n",
        b"AT 7 FAIL A\nEND 18\n",
        b"TRACE 1 PAIR\n\
0 1 OUT - = DONE\nSHOW A\n1 1 IN = IMG -\n2 1 NOW = NOW 2\n3 1 NOW = NOW 3\n4 1 CYCLE = GO\n\
5 1 OUT - = DONE\nSHOW A\n6 1 IN = IMG -\n7 1 NOW = LOST A FAILED\n8 1 NOW = NOW 8\n9 1 NOW = NOW 9\n10 1 CYCLE = GO\n\
11 1 OUT - = DONE\nSHOW B\n12 1 IN = IMG -\n13 1 NOW = NOW 13\n14 1 NOW = NOW 14\n15 1 CYCLE = GO\n\
16 1 OUT 0:01 = DONE\nSHOW B\n17 1 IN = IMG -\n\
DIAG 2\n0 START\n7 LOST A FAILED\nI -\nQ 0:01\nM -\nEND 18\n",
    ),
    // A loop without end asks after each 256 statements.
    (
        b"ORGANIZATION_BLOCK OB 1\nBEGIN\nM001: NOP 0;\nJU M001;\nEND_ORGANIZATION_BLOCK\n",
        b"AT 3 FAIL A\nEND 6\n",
        b"TRACE 1 PAIR\n0 1 OUT - = DONE\nSHOW A\n1 1 IN = IMG -\n2 1 TICK = DONE\n\
3 1 TICK = LOST A FAILED\n4 1 TICK = DONE\n5 1 TICK = DONE\n\
DIAG 2\n0 START\n3 LOST A FAILED\nI -\nQ -\nM -\nEND 6\n",
    ),
];

#[test]
fn programs_go_on_at_a_failover(rt: HostRuntime) -> Result<(), Fail> {
    let alloc = rt.alloc();
    for (source, script, text) in FAILOVERS {
        let mut files = files_of(alloc, source, script, None)?;
        let mut sink = MemSink::new(alloc, 2000, Vec::new(alloc))?;
        let words: &[&[u8]] = &[b"turns", b"s", b"p", b"100*ab"];
        let left = served(alloc, words, &mut files, &mut sink)?;
        assert_eq!(rt; left.outcome.fault, None);
        assert_eq!(rt; sink.written(), text);
    }
    Ok(())
}

/// A data block, a function and OB1, in an order that is not that of the text.
const BLOCKS: &[u8] =
    b"DATA_BLOCK DB 7\nSTRUCT\na : INT;\nb : BOOL;\nEND_STRUCT\nBEGIN\nEND_DATA_BLOCK\n\
FUNCTION FC 3 : VOID\nBEGIN\nEND_FUNCTION\n\
ORGANIZATION_BLOCK OB 40\nBEGIN\nEND_ORGANIZATION_BLOCK\n\
ORGANIZATION_BLOCK OB 1\nBEGIN\nA I 0.0;\n= Q 0.0;\nEND_ORGANIZATION_BLOCK\n";

#[test]
fn blocks_are_told(rt: HostRuntime) -> Result<(), Fail> {
    let alloc = rt.alloc();
    // The room of the sink, the status, and what is written.
    let cases: [(u32, u8, &[u8]); 2] = [
        (1000, 0, b"OB 1 2\nOB 40 0\nFC 3 0\nDB 7 4\nOK 4\n"),
        (10, 7, b"OB 1 2\nOB "),
    ];
    for (room, status, text) in cases {
        let mut files = files_of(alloc, BLOCKS, b"", None)?;
        let mut sink = MemSink::new(alloc, room, Vec::new(alloc))?;
        let left = served(alloc, &[b"load", b"s"], &mut files, &mut sink)?;
        assert_eq!(rt; left.outcome.status, status);
        assert!(rt; left.outcome.entries.is_empty());
        assert_eq!(rt; left.outcome.ended, Ended::NotPlayed);
        assert_eq!(rt; sink.written(), text);
    }
    Ok(())
}

#[test]
fn each_refusal_has_its_cause(rt: HostRuntime) -> Result<(), Fail> {
    let alloc = rt.alloc();
    let long = vec![in alloc; b' '; 1_048_577]?;
    let whole = vec![in alloc; b' '; 1_048_576]?;
    let solo: &[&[u8]] = &[b"solo", b"s", b"p"];
    let load: &[&[u8]] = &[b"load", b"s"];
    let no_main = Fault::SourceFault(LoadFault { kind: 18, line: 0 });
    let misplaced = Fault::SourceFault(LoadFault { kind: 11, line: 2 });
    let no_end = Fault::ScriptFault(ScriptFault { kind: 6, line: 2 });
    let second_end = Fault::ScriptFault(ScriptFault { kind: 1, line: 2 });
    let missing = Fault::FileFault { which: 0 };
    let cases: [(&[&[u8]], &[u8], &[u8], Option<u64>, Fault, u8); 23] = [
        (&[], SOURCE, SCRIPT, None, Fault::Usage, 2),
        (&[b"solo", b"s"], SOURCE, SCRIPT, None, Fault::Usage, 2),
        (
            &[b"solo", b"s", b"p", b"p"],
            SOURCE,
            SCRIPT,
            None,
            Fault::Usage,
            2,
        ),
        (
            &[b"Solo", b"s", b"p"],
            SOURCE,
            SCRIPT,
            None,
            Fault::Usage,
            2,
        ),
        (
            &[b"turns", b"s", b"p", b"5*ac"],
            SOURCE,
            SCRIPT,
            None,
            Fault::Usage,
            2,
        ),
        (&[b"solo", b"x", b"p"], SOURCE, SCRIPT, None, missing, 3),
        (
            &[b"solo", b"s", b"x"],
            SOURCE,
            SCRIPT,
            None,
            Fault::FileFault { which: 1 },
            3,
        ),
        (solo, SOURCE, SCRIPT, Some(0), missing, 3),
        (
            solo,
            SOURCE,
            SCRIPT,
            Some(1),
            Fault::FileFault { which: 1 },
            3,
        ),
        (solo, &long, SCRIPT, None, Fault::TooLong { which: 0 }, 4),
        (solo, SOURCE, &long, None, Fault::TooLong { which: 1 }, 4),
        (solo, &whole, &long, None, no_main, 5),
        (solo, b"\nBEGIN\n", b"", None, misplaced, 5),
        (&[b"load"], SOURCE, SCRIPT, None, Fault::Usage, 2),
        (&[b"make"], SOURCE, SCRIPT, None, Fault::Usage, 2),
        (&[b"make", b"s"], SOURCE, SCRIPT, None, Fault::Usage, 2),
        (
            &[b"make", b"1000", b"x"],
            SOURCE,
            SCRIPT,
            None,
            Fault::Usage,
            2,
        ),
        (&[b"load", b"x"], SOURCE, SCRIPT, None, missing, 3),
        (load, &long, SCRIPT, None, Fault::TooLong { which: 0 }, 4),
        (load, b"", SCRIPT, None, no_main, 5),
        (load, b"\nBEGIN\n", b"", None, misplaced, 5),
        (solo, SOURCE, &whole, None, no_end, 6),
        (solo, SOURCE, b"END 9\nEND 9", None, second_end, 6),
    ];
    for (words, source, script, failing, fault, status) in cases {
        let mut files = files_of(alloc, source, script, failing)?;
        let mut sink = MemSink::new(alloc, 1000, Vec::new(alloc))?;
        let left = served(alloc, words, &mut files, &mut sink)?;
        assert_eq!(rt; left.outcome.fault, Some(fault));
        assert_eq!(rt; left.outcome.status, status);
        assert!(rt; left.outcome.entries.is_empty());
        assert!(rt; left.outcome.shown.as_slice().is_empty());
        assert_eq!(rt; left.outcome.ended, Ended::NotPlayed);
        assert!(rt; sink.written().is_empty());
    }
    Ok(())
}

#[test]
fn a_failing_sink_keeps_the_play(rt: HostRuntime) -> Result<(), Fail> {
    let alloc = rt.alloc();
    let cases: [(u32, Option<u64>, &[u8]); 4] = [
        (1000, Some(0), b""),
        (1000, Some(1), b"TRACE 1 SOLO\n"),
        (20, None, b"TRACE 1 SOLO\n0 1 OUT"),
        (37, None, b"TRACE 1 SOLO\n0 1 OUT - = DONE\nSHOW A\n"),
    ];
    for (room, failing, text) in cases {
        let mut sink = MemSink::new(alloc, room, list_of(alloc, failing)?)?;
        let left = played(alloc, SCRIPT, &mut sink)?;
        assert_eq!(rt; left.outcome.fault, Some(Fault::SinkFault));
        assert_eq!(rt; left.outcome.status, 7);
        assert_eq!(rt; left.outcome.entries.len(), 12);
        assert_eq!(rt; left.outcome.shown.as_slice().len(), 4);
        assert_eq!(rt; left.outcome.ended, Ended::End);
        assert_eq!(rt; left.a.lives(), [life_up_to(12)].as_slice());
        assert!(rt; left.b.lives().is_empty());
        assert_eq!(rt; sink.written(), text);
    }
    Ok(())
}

/// To be run with each allocation failing in turn: the play is whole, or nothing was played and nothing written. Where
/// memory runs out before the call the test ends in an error.
#[test]
fn a_play_over_little_memory(rt: HostRuntime) -> Result<(), Fail> {
    let alloc = rt.alloc();
    let mut sink = MemSink::new(alloc, 1000, Vec::new(alloc))?;
    let left = played(alloc, SCRIPT, &mut sink)?;
    if left.outcome.fault.is_none() {
        assert_eq!(rt; left.outcome.entries.len(), 12);
        assert_eq!(rt; sink.written(), TEXT);
        return Ok(());
    }
    assert_eq!(rt; left.outcome.fault, Some(Fault::NoMemory));
    assert_eq!(rt; left.outcome.status, 8);
    assert!(rt; left.outcome.entries.is_empty());
    assert!(rt; left.outcome.shown.as_slice().is_empty());
    assert_eq!(rt; left.outcome.ended, Ended::NotPlayed);
    assert!(rt; sink.written().is_empty());
    Ok(())
}
