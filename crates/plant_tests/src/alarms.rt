ghost use Rattle.std.specs.Prelude.{◌≡◌, ◌≤◌};

use alarm_queue::*;
use plant_script::{Script, read_script};
use s7_base::{Answer, Blocks, CodeBlock, CodeKind, Loss, Side};
use std::alloc::Global;
use std::test::Fail;

/// OB1 and these organisation blocks, without statements.
fn program(alloc: Global, obs: &[u8]) -> Result<Blocks, Fail> {
    let mut codes = Vec::new(alloc);
    codes.push(CodeBlock::new(CodeKind::Ob, 1, 0, Vec::new(alloc)))?;
    for ob in obs {
        codes.push(CodeBlock::new(CodeKind::Ob, *ob, 0, Vec::new(alloc)))?;
    }
    match Blocks::of(codes, Vec::new(alloc)) {
        Some(blocks) => Ok(blocks),
        None => Err("not well formed".into()),
    }
}

/// Two modules, in lines 1 and 2, and these lines.
fn script_of(alloc: Global, lines: &[u8]) -> Result<Script, Fail> {
    let mut text = b"MODULE IN 8 1 SWITCHED\nMODULE IN 16 1 SWITCHED\n".to_vec(alloc)?;
    text.extend_from_slice(lines)?;
    if text.len() > 1_048_576 {
        return Err("too long".into());
    }
    Ok(read_script(alloc, &text)?)
}

/// Lets the moments from one up to another go by.
fn pass(waiting: &mut Waiting, from: u64, to: u64)
    requires { (waiting.old.moment ≡ from) × (from ≤ to) }
    ensures { waiting.new.moment ≡ to }
{
    for k in from..to {
        waiting.due(k);
    }
}

/// Answers the first alarm, whatever its priority: its OB and its start information, (0, 0) where none waits.
fn answered(waiting: &mut Waiting) -> (u8, u32)
    ensures { waiting.new.moment ≡ waiting.old.moment }
{
    match waiting.next_above(0) {
        Some(_) => waiting.take(),
        None => (0, 0),
    }
}

/// Answers nine alarms: their OBs.
fn nine_answered(waiting: &mut Waiting) -> [u8; 9]
    ensures { waiting.new.moment ≡ waiting.old.moment }
{
    let mut obs = [0; 9];
    for place in 0..9 {
        obs[place] = answered(waiting).0;
    }
    obs
}

#[test]
fn cyclic_alarms_are_due_at_the_ends_of_their_periods(rt: HostRuntime) -> Result<(), Fail> {
    let alloc = rt.alloc();
    let blocks = program(alloc, &[30, 31, 32, 33, 34, 35, 36, 37, 38])?;
    let script = read_script(alloc, b"END 1\n")?;
    let Ok(mut waiting) = Waiting::new(alloc, &script, &blocks) else {
        return Err("no memory".into());
    };
    let expected: [(u64, [u8; 9]); 14] = [
        (0, [0; 9]),
        (9, [0; 9]),
        (10, [38, 0, 0, 0, 0, 0, 0, 0, 0]),
        (20, [38, 37, 0, 0, 0, 0, 0, 0, 0]),
        (25, [0; 9]),
        (50, [38, 36, 0, 0, 0, 0, 0, 0, 0]),
        (100, [38, 37, 36, 35, 0, 0, 0, 0, 0]),
        (200, [38, 37, 36, 35, 34, 0, 0, 0, 0]),
        (500, [38, 37, 36, 35, 33, 0, 0, 0, 0]),
        (1000, [38, 37, 36, 35, 34, 33, 32, 0, 0]),
        (2000, [38, 37, 36, 35, 34, 33, 32, 31, 0]),
        (5000, [38, 37, 36, 35, 34, 33, 32, 30, 0]),
        (9999, [0; 9]),
        (10_000, [38, 37, 36, 35, 34, 33, 32, 31, 30]),
    ];
    for k in 0..10_001 {
        waiting.due(k);
        let obs = nine_answered(&mut waiting);
        for (moment, wanted) in expected {
            assert!(rt; moment != k || obs == wanted);
        }
    }
    Ok(())
}

#[test]
fn the_higher_priority_goes_first_then_the_earlier_moment_then_the_line(
    rt: HostRuntime,
) -> Result<(), Fail> {
    let alloc = rt.alloc();
    let blocks = program(alloc, &[38])?;
    let lines = b"\nAT 3 ALARM 40 0000000A\nAT 3 ALARM 41 0000000B\nAT 3 ALARM 82 0000000C\n\
AT 3 ALARM 41 0000000D\nAT 21 ALARM 41 0000000E\nEND 40\n";
    let script = script_of(alloc, lines)?;
    let Ok(mut waiting) = Waiting::new(alloc, &script, &blocks) else {
        return Err("no memory".into());
    };
    pass(&mut waiting, 0, 4);
    assert!(rt; waiting.next_above(25) == Some((82, 12)) && waiting.next_above(26) == None);
    pass(&mut waiting, 4, 22);
    let expected = [
        (82, 12),
        (41, 11),
        (41, 13),
        (41, 14),
        (40, 10),
        (38, 0),
        (0, 0),
    ];
    for wanted in expected {
        assert_eq!(rt; answered(&mut waiting), wanted);
    }
    Ok(())
}

#[test]
fn the_pair_adds_alarms(rt: HostRuntime) -> Result<(), Fail> {
    let alloc = rt.alloc();
    let blocks = program(alloc, &[])?;
    let script = script_of(alloc, b"AT 0 ALARM 82 00000007\nEND 40\n")?;
    let [first, second] = script.modules() else {
        return Err("two modules".into());
    };
    if first.line != 1 || second.line != 2 || script.end() != 40 {
        return Err("another script".into());
    }
    let Ok(mut waiting) = Waiting::new(alloc, &script, &blocks) else {
        return Err("no memory".into());
    };
    waiting.due(0);
    waiting.add(70, 16, 0, 2);
    waiting.add(70, 8, 0, 1);
    waiting.add(70, 16, 1, 2);
    waiting.add(80, 0, 0, 0);
    waiting.add(80, 0, 1, 0);
    waiting.add(72, 1, 1, 0);
    waiting.add(72, 4, 2, 0);
    let expected = [
        (72, 1),
        (72, 4),
        (80, 0),
        (82, 7),
        (70, 8),
        (70, 16),
        (0, 0),
    ];
    for wanted in expected {
        assert_eq!(rt; answered(&mut waiting), wanted);
    }
    Ok(())
}

#[test]
fn the_lines_of_a_script_make_alarms_due(rt: HostRuntime) -> Result<(), Fail> {
    let alloc = rt.alloc();
    let blocks = program(alloc, &[])?;
    let script = read_script(alloc, b"AT 0 ALARM 40 0000000A\nEND 1\n")?;
    let Ok(mut waiting) = Waiting::new(alloc, &script, &blocks) else {
        return Err("no memory".into());
    };
    waiting.due(0);
    assert_eq!(rt; answered(&mut waiting), (40, 10));
    Ok(())
}

#[test]
fn the_start_information_of_ob72_names_the_side(rt: HostRuntime) -> Result<(), Fail> {
    let failed = |side| Answer::Lost {
        side,
        why: Loss::Failed,
    };
    let suspected = Answer::Lost {
        side: Side::A,
        why: Loss::Suspect,
    };
    let expected = [
        (failed(Side::A), Some(1)),
        (suspected, Some(1)),
        (failed(Side::B), Some(2)),
        (Answer::Back { side: Side::A }, Some(3)),
        (Answer::Back { side: Side::B }, Some(4)),
        (Answer::Hold, None),
        (Answer::Go, None),
    ];
    for (answer, info) in expected {
        assert_eq!(rt; redundancy_info(&answer), info);
    }
    Ok(())
}

/// A script of 19,999 alarms at moment 0, the most that one has.
fn full_script(alloc: Global) -> Result<Script, Fail> {
    let mut text = Vec::new(alloc);
    for info in 0..19_999u32 {
        text.extend_from_slice(format!(in alloc; "AT 0 ALARM 40 {info:08X}\n")?.as_bytes())?;
    }
    text.extend_from_slice(b"END 1\n")?;
    if text.len() > 1_048_576 {
        return Err("too long".into());
    }
    Ok(read_script(alloc, &text)?)
}

#[test]
fn as_many_alarms_as_lines_wait_at_one_moment(rt: HostRuntime) -> Result<(), Fail> {
    let alloc = rt.alloc();
    let blocks = program(alloc, &[])?;
    let script = full_script(alloc)?;
    let Ok(mut waiting) = Waiting::new(alloc, &script, &blocks) else {
        return Err("no memory".into());
    };
    waiting.due(0);
    for info in 0..19_999 {
        assert_eq!(rt; answered(&mut waiting), (40, info));
    }
    assert!(rt; waiting.next_above(0) == None);
    Ok(())
}
