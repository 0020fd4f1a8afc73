ghost use Rattle.std.specs.Prelude.{true, [], IfOk};
ghost use Rattle.pair_core.specs.World.{part};
ghost use Rattle.pair_core.specs.OwnParts.{first_part};
ghost use Rattle.pair_core.specs.Places.{IsAt};

use event_record::Record;
use pair_core::*;
use plant_script::read_script;
use s7_base::{Answer, Ask, Blocks, CodeBlock, CodeKind, Entry, Loss, Request, Side};
use std::alloc::Global;
use std::test::Fail;
use subsystem::Subsystem;

/// The number of entries of each run.
const END: u32 = 9;

/// A visit by a letter.
fn visit_by(pair: &mut Pair, side: Side, a: &mut Subsystem, b: &mut Subsystem) -> Turn
    requires a { IsAt pair.old.setup.program (part pair.old.world Side.A) pair.old.world.log.entries a.old }
    requires b { IsAt pair.old.setup.program (part pair.old.world Side.B) pair.old.world.log.entries b.old }
    ensures a { IsAt pair.new.setup.program (part pair.new.world Side.A) pair.new.world.log.entries a.new }
    ensures b { IsAt pair.new.setup.program (part pair.new.world Side.B) pair.new.world.log.entries b.new }
{
    match side {
        Side::A => pair.visit(Side::A, a),
        Side::B => pair.visit(Side::B, b),
    }
}

/// Visits by the letters of a pattern, many times over, up to the first that is answered Over.
fn play_pattern(pair: &mut Pair, pattern: &[Side], a: &mut Subsystem, b: &mut Subsystem)
    requires a { IsAt pair.old.setup.program (part pair.old.world Side.A) pair.old.world.log.entries a.old }
    requires b { IsAt pair.old.setup.program (part pair.old.world Side.B) pair.old.world.log.entries b.old }
{
    for _ in 0..200 {
        for side in pattern {
            if visit_by(pair, *side, a, b).is_over() {
                return;
            }
        }
    }
}

#[tactic(auto, using(pair_core::proofs::Stands::loaded_stands))]
fn loaded(alloc: Global, blocks: &Blocks) -> Result<Subsystem, Fail>
    ensures { IfOk result (λ s. IsAt blocks.now (first_part true) [] s) }
{
    let Ok(mut side) = Subsystem::new(alloc) else {
        return Err("no memory".into());
    };
    if side.load(alloc, blocks).is_err() {
        return Err("no memory".into());
    }
    Ok(side)
}

/// A run of two sides over an empty program.
fn run(alloc: Global, script: &[u8], pattern: &[Side]) -> Result<(Record, Shown, Ended), Fail> {
    let main = CodeBlock::new(CodeKind::Ob, 1, 0, Vec::new(alloc));
    let Some(blocks) = Blocks::of(vec![in alloc; main]?, Vec::new(alloc)) else {
        return Err("not well formed".into());
    };
    if script.len() > 1_048_576 {
        return Err("too long".into());
    }
    let Ok(script) = read_script(alloc, script) else {
        return Err("not a script".into());
    };
    let Ok(mut pair) = Pair::new(alloc, &blocks, script, false) else {
        return Err("no memory".into());
    };
    let mut a = loaded(alloc, &blocks)?;
    let mut b = loaded(alloc, &blocks)?;
    play_pattern(&mut pair, pattern, &mut a, &mut b);
    Ok(pair.finish(true))
}

/// Whether entry e puts out, where a side is lost by entry k: the CPU asks for outputs, inputs and the next cycle
/// in turn, and asks again after the loss.
fn puts_out(e: u32, k: u32) -> bool {
    let asked = if e <= k { e } else { e - 1 };
    e != k && asked % 3 == 0
}

/// Who shows what where this side stops at moment k, worked out entry by entry.
fn expected(alloc: Global, stops: Side, k: u32, late: bool) -> Result<Vec<(u32, Side)>, Fail> {
    let mut shown = Vec::new(alloc);
    let is_master = stops == Side::A;
    for e in 0..END {
        if !puts_out(e, k) {
            continue;
        }
        let cut_now = e < k && k - e == 1;
        if is_master && cut_now && late {
            shown.push((e, Side::A))?;
        }
        let second = is_master && (cut_now || e > k);
        shown.push((e, if second { Side::B } else { Side::A }))?;
    }
    Ok(shown)
}

fn script_text(alloc: Global, stops: Side, k: u32, late: bool) -> Result<String, Fail> {
    let side = if stops == Side::A { "A" } else { "B" };
    let word = if late { " LATE" } else { "" };
    Ok(format!(in alloc; "AT {k} FAIL {side}{word}\nEND 9\n")?)
}

/// Entry e, where this side is lost by entry k.
fn expected_entry(e: u32, stops: Side, k: u32) -> Entry {
    let asked = if e <= k { e } else { e - 1 };
    let (ask, answer) = match asked % 3 {
        0 => (Ask::Outputs([0; 64]), Answer::Done),
        1 => (Ask::Inputs, Answer::Image([0; 64])),
        _ => (Ask::Cycle, Answer::Go),
    };
    let lost = Answer::Lost {
        side: stops,
        why: Loss::Failed,
    };
    Entry {
        request: Request { prio: 1, ask },
        answer: if e == k { lost } else { answer },
    }
}

fn is_expected(record: &Record, stops: Side, k: u32) -> bool {
    for e in 0..record.len() {
        if *record.entry(e) != expected_entry(e, stops, k) {
            return false;
        }
    }
    true
}

const A: Side = Side::A;

const B: Side = Side::B;

#[test]
fn failures_at_every_moment_show_each_output_once_or_twice(rt: HostRuntime) -> Result<(), Fail> {
    let patterns: [&[Side]; 10] = [
        &[A, B],
        &[B, A],
        &[A, B, B],
        &[A, A, B],
        &[B, B, A],
        &[A, A, A, B],
        &[A, B, B, A],
        &[B, B, B, A, A, A],
        &[A, A, A, A, A, A, A, A, B],
        &[B, B, B, B, B, B, B, B, A],
    ];
    for (stops, late) in [(A, false), (A, true), (B, false), (B, true)] {
        for k in 0..END {
            let text = script_text(rt.alloc(), stops, k, late)?;
            let shown = expected(rt.alloc(), stops, k, late)?;
            for pattern in patterns {
                let (record, list, ended) = run(rt.alloc(), text.as_bytes(), pattern)?;
                assert_eq!(rt; record.len(), END);
                assert!(rt; is_expected(&record, stops, k));
                assert!(rt; list.as_slice() == shown.as_slice());
                assert!(rt; ended == Ended::End);
            }
        }
    }
    Ok(())
}

#[test]
fn one_letter_alone_is_spent(rt: HostRuntime) -> Result<(), Fail> {
    let (record, list, ended) = run(rt.alloc(), b"END 9\n", &[A])?;
    assert_eq!(rt; record.len(), 1);
    assert!(rt; list.as_slice() == [(0, A)].as_slice());
    assert!(rt; ended == Ended::Spent);
    let (record, list, ended) = run(rt.alloc(), b"END 9\n", &[B])?;
    assert_eq!(rt; record.len(), 1);
    assert!(rt; list.as_slice().is_empty());
    assert!(rt; ended == Ended::Spent);
    Ok(())
}
