use plant_script::*;
use s7_events::{Job, JobArea, Side};
use std::alloc::Global;
use std::test::Fail;

/// The event of a script of one AT line before END 9.
fn only_event(alloc: Global, line: &[u8]) -> Result<Option<Event>, Fail> {
    let mut text = b"MODULE IN 1020 4 SWITCHED\nAT 3 ".to_vec(alloc)?;
    text.extend_from_slice(line)?;
    text.extend_from_slice(b"\nEND 9")?;
    if text.len() > 1_048_576 {
        return Err("too long".into());
    }
    match read_script(alloc, &text) {
        Ok(script) => Ok(script.events().first().copied()),
        Err(ScriptError::Fault(_)) => Ok(None),
        Err(ScriptError::NoMemory) => Err("no memory".into()),
    }
}

fn job(write: bool, area: JobArea, at_byte: u16, width: u8, value: u32) -> What {
    What::Job(Job {
        write,
        area,
        at_byte,
        width,
        value,
    })
}

#[test]
fn each_line_is_read(rt: HostRuntime) -> Result<(), Fail> {
    let input = |at_byte, value| What::Input {
        at_byte,
        side: None,
        value,
    };
    let fail = |side, late| What::Fail { side, late };
    let lines: [(&[u8], What); 18] = [
        (b"INPUT 1020 00", input(1020, 0)),
        (b"INPUT 01023 fA", input(1023, 0xfa)),
        (b"  INPUT   1021  0b  ", input(1021, 0x0b)),
        (b"INPUT 1021 FF\r", input(1021, 0xff)),
        (b"ALARM 40 00000000", What::Alarm { ob: 40, info: 0 }),
        (
            b"ALARM 047 89abCDEF",
            What::Alarm {
                ob: 47,
                info: 0x89ab_cdef,
            },
        ),
        (
            b"ALARM 82 ffffffff",
            What::Alarm {
                ob: 82,
                info: 0xffff_ffff,
            },
        ),
        (b"JOB READ MB 0", job(false, JobArea::M, 0, 1, 0)),
        (b"JOB READ MW 65535", job(false, JobArea::M, 65_535, 2, 0)),
        (b"JOB READ MD 007", job(false, JobArea::M, 7, 4, 0)),
        (
            b"JOB READ DB 65535 B 1",
            job(false, JobArea::Db(65_535), 1, 1, 0),
        ),
        (
            b"JOB READ DB 1 D 65535",
            job(false, JobArea::Db(1), 65_535, 4, 0),
        ),
        (b"JOB WRITE MB 9 fE", job(true, JobArea::M, 9, 1, 0xfe)),
        (b"JOB WRITE MW 10 0005", job(true, JobArea::M, 10, 2, 5)),
        (
            b"JOB WRITE DB 2 W 4 a1B2",
            job(true, JobArea::Db(2), 4, 2, 0xa1b2),
        ),
        (
            b"JOB WRITE DB 0 D 0 01020304",
            job(true, JobArea::Db(0), 0, 4, 0x0102_0304),
        ),
        (b"FAIL A", fail(Side::A, false)),
        (b"FAIL B LATE", fail(Side::B, true)),
    ];
    for (text, what) in lines {
        let expected = Event {
            moment: 3,
            line: 2,
            what,
        };
        assert_eq!(rt; only_event(rt.alloc(), text)?, Some(expected));
    }
    Ok(())
}

#[test]
fn each_fault_has_its_line(rt: HostRuntime) -> Result<(), Fail> {
    let alloc = rt.alloc();
    let texts: [(&[u8], u8, u32); 79] = [
        // No form.
        (b"AT 1\nEND 9", 1, 1),
        (b"End 9", 1, 1),
        (b"AT 1 fail A\nEND 9", 1, 1),
        (b"AT 1\tFAIL A\nEND 9", 1, 1),
        (b"\tEND 9", 1, 1),
        (b"END 9\n\r", 1, 2),
        (b"END 9\r\r\n", 2, 1),
        (b"AT 1 FAIL\r A\nEND 9", 1, 1),
        (b"AT 1 FAIL A LATER\nEND 9", 1, 1),
        (b"AT 1 FAIL A LATE A\nEND 9", 1, 1),
        (b"AT 1 FAIL C\nEND 9", 1, 1),
        (b"AT 1 RETURN A NEW\nEND 9", 1, 1),
        (b"AT 1 SUSPECT A\nEND 9", 1, 1),
        (b"AT 1 SUSPECT A MAYBE\nEND 9", 1, 1),
        (b"END", 1, 1),
        (b"END 9 9", 1, 1),
        // Numbers outside their ranges.
        (b"MODULE IN 0 0 SWITCHED\nEND 9", 1, 1),
        (b"MODULE IN 0 65 SWITCHED\nEND 9", 1, 1),
        (b"MODULE IN 1024 1 SWITCHED\nEND 9", 1, 1),
        (b"MODULE OUT 1000 25 SWITCHED\nEND 9", 1, 1),
        (b"MODULE INOUT 0 1 SWITCHED\nEND 9", 1, 1),
        (b"MODULE IN 0 1 switched\nEND 9", 1, 1),
        (b"MODULE IN 0 1 ONESIDED\nEND 9", 1, 1),
        (b"MODULE IN 0 1 ONESIDED C\nEND 9", 1, 1),
        (b"MODULE IN 0 1 REDUNDANT\nEND 9", 1, 1),
        (b"MODULE OUT 0 1 REDUNDANT 0\nEND 9", 1, 1),
        (b"MODULE OUT 0 1 REDUNDANT 1001\nEND 9", 1, 1),
        (b"MODULE IN +1 1 SWITCHED\nEND 9", 1, 1),
        (b"AT 1 ALARM 39 00000000\nEND 9", 1, 1),
        (b"AT 1 ALARM 48 00000000\nEND 9", 1, 1),
        (b"AT 1 ALARM 83 00000000\nEND 9", 1, 1),
        (b"AT 1 ALARM 40 0000000\nEND 9", 1, 1),
        (b"AT 1 ALARM 40 000000000\nEND 9", 1, 1),
        (b"AT 1 JOB READ MB 65536\nEND 9", 1, 1),
        (b"AT 1 JOB READ DB 65536 B 0\nEND 9", 1, 1),
        (b"AT 1 JOB READ DB 0 X 0\nEND 9", 1, 1),
        (b"AT 1 JOB READ MB 0 00\nEND 9", 1, 1),
        (b"AT 1 JOB WRITE MB 0\nEND 9", 1, 1),
        (b"AT 1 JOB WRITE MB 0 000\nEND 9", 1, 1),
        (b"AT 1 JOB WRITE MW 0 00\nEND 9", 1, 1),
        (b"AT 1 JOB WRITE MD 0 000G0000\nEND 9", 1, 1),
        // The order.
        (b"AT 1 FAIL A\nMODULE IN 0 1 SWITCHED\nEND 9", 1, 2),
        (b"END 9\nAT 1 FAIL A", 1, 2),
        (b"END 9\nMODULE IN 0 1 SWITCHED", 1, 2),
        (b"END 9\n\n# more\nEND 9", 1, 4),
        // A side where the module has none, or none where it needs one.
        (b"MODULE IN 0 1 SWITCHED\nAT 1 INPUT 0 A 00\nEND 9", 1, 2),
        (b"MODULE IN 0 1 ONESIDED A\nAT 1 INPUT 0 B 00\nEND 9", 1, 2),
        (b"MODULE IN 0 1 REDUNDANT 5\nAT 1 INPUT 0 00\nEND 9", 1, 2),
        (b"MODULE IN 0 1 SWITCHED\nAT x INPUT 0 A 00\nEND 9", 1, 2),
        (b"MODULE IN 0 1 SWITCHED\nAT 1 INPUT 0 A\nEND 9", 1, 2),
        // Moments and ends.
        (b"AT x FAIL A\nEND 9", 2, 1),
        (b"AT -1 FAIL A\nEND 9", 2, 1),
        (b"AT x INPUT 0 01\nEND 9", 2, 1),
        (b"END 0", 2, 1),
        (b"END 200001", 2, 1),
        (b"END 99999999999999999999", 2, 1),
        (b"END x", 2, 1),
        (b"AT 9 FAIL A\nEND 9", 2, 1),
        (b"AT 99999999999999999999 FAIL A\nEND 9", 2, 1),
        (b"AT 8 RETURN A\nAT 9 FAIL A\nEND 9", 8, 1),
        (b"AT 8 FAIL A\nAT 9 RETURN A\nAT 9 RETURN A\nEND 9", 2, 2),
        // A first-pass fault goes before a second-pass fault of an earlier line.
        (b"AT 1 RETURN A\nAT 0 FAIL A\nEND 9", 3, 2),
        (b"AT 9 FAIL A\nAT 09 ALARM 40 0\nEND 9", 1, 2),
        (b"AT 5 FAIL A\nAT 04 ALARM 40 00000000\nEND 9", 3, 2),
        (
            b"AT 99999999999999999999 FAIL A\nAT 99999999999999999998 FAIL B\nEND 9",
            3,
            2,
        ),
        (
            b"MODULE IN 0 4 SWITCHED\nMODULE IN 3 1 SWITCHED\nEND 5",
            4,
            2,
        ),
        (
            b"MODULE OUT 8 8 SWITCHED\nMODULE OUT 0 9 ONESIDED A\nEND 5",
            4,
            2,
        ),
        (b"MODULE IN 0 4 SWITCHED\nAT 1 INPUT 4 00\nEND 9", 5, 2),
        (b"MODULE OUT 0 4 SWITCHED\nAT 1 INPUT 0 00\nEND 9", 5, 2),
        (b"AT 1 INPUT 99999999999999999999 00\nEND 9", 5, 1),
        (b"AT 1 INPUT 0 A 00\nEND 9", 5, 1),
        (b"", 6, 1),
        (b"# \xff\n\n   ", 6, 4),
        (b"AT 1 FAIL A\nAT 2 RETURN A\n", 6, 3),
        // FAIL and RETURN.
        (b"AT 5 RETURN A\nEND 9", 8, 1),
        (b"AT 1 FAIL A\nAT 2 FAIL B\nAT 3 FAIL A LATE\nEND 9", 8, 3),
        (b"AT 1 FAIL A\nAT 1 RETURN A\nEND 9", 8, 2),
        (
            b"AT 1 FAIL A\nAT 2 RETURN A\nAT 2 FAIL A\nAT 3 FAIL A\nEND 9",
            8,
            4,
        ),
        // What is not supported yet.
        (
            b"AT 1 FAIL A\nAT 2 ALARM 40 00000000\nAT 3 RETURN A\nAT 3 SUSPECT B PASS\nEND 9",
            99,
            3,
        ),
    ];
    for (text, kind, line) in texts {
        assert!(rt; text.len() < 200);
        let expected = ScriptError::Fault(ScriptFault { kind, line });
        assert_eq!(rt; read_script(alloc, text).err(), Some(expected));
    }
    Ok(())
}

/// A text of `count` times this line, and then another.
fn repeated(alloc: Global, line: &[u8], count: usize, last: &[u8]) -> Result<Vec<u8>, Fail> {
    let mut text = Vec::new(alloc);
    for _ in 0..count {
        text.extend_from_slice(line)?;
    }
    text.extend_from_slice(last)?;
    Ok(text)
}

#[test]
fn long_scripts_are_refused(rt: HostRuntime) -> Result<(), Fail> {
    let alloc = rt.alloc();
    let module = b"MODULE IN 0 1 SWITCHED\n".as_slice();
    let texts: [(&[u8], usize, &[u8], Option<(u8, u32)>); 6] = [
        (b"#\n", 19_999, b"END 9", None),
        (b"#\n", 20_000, b"END 9", Some((7, 20_001))),
        (b"\n", 20_001, b"", Some((7, 20_001))),
        (b"AT 1 SUSPECT A FAIL\n", 64, b"END 5", Some((99, 1))),
        (b"AT 1 SUSPECT A FAIL\n", 65, b"END 5", Some((7, 65))),
        (
            b"AT 1 SUSPECT A FAIL\n",
            64,
            b"AT 1 RETURN A\nEND 5",
            Some((7, 65)),
        ),
    ];
    for (line, count, last, fault) in texts {
        let text = repeated(alloc, line, count, last)?;
        assert!(rt; text.len() <= 1_048_576);
        let expected = match fault {
            Some((kind, line)) => Some(ScriptError::Fault(ScriptFault { kind, line })),
            None => None,
        };
        assert_eq!(rt; read_script(alloc, &text).err(), expected);
    }
    let mut text = module.to_vec(alloc)?;
    text.extend_from_slice(&repeated(alloc, b"AT 5 INPUT 0 7F\n", 19_998, b"END 9")?)?;
    assert!(rt; text.len() <= 1_048_576);
    let script = read_script(alloc, &text)?;
    assert_eq!(rt; script.events().len(), 19_998);
    assert_eq!(rt; script.input(0, None, 4), None);
    assert_eq!(rt; script.input(0, None, 5), Some(0x7f));
    Ok(())
}

#[test]
fn modules_may_touch(rt: HostRuntime) -> Result<(), Fail> {
    let text =
        b"# a plant\r\nMODULE IN 4 4 SWITCHED\nMODULE IN 0 4 SWITCHED\r\nMODULE OUT 0 64 SWITCHED\n\nMODULE IN 1023 1 SWITCHED\nEND 200000\n \n#\n";
    let script = read_script(rt.alloc(), text)?;
    let lines: [(u32, bool, u16, u16); 4] = [
        (2, true, 4, 4),
        (3, true, 0, 4),
        (4, false, 0, 64),
        (6, true, 1023, 1),
    ];
    assert_eq!(rt; script.modules().len(), 4);
    for (i, (line, input, at_byte, len)) in lines.iter().copied().enumerate() {
        let kind = ModuleKind::Switched;
        let module = Module {
            line,
            input,
            at_byte,
            len,
            kind,
        };
        assert_eq!(rt; script.modules().get(i).copied(), Some(module));
    }
    assert_eq!(rt; script.end(), 200_000);
    assert_eq!(rt; script.first_alarm_or_job(), None);
    Ok(())
}

#[test]
fn values_follow_the_lines(rt: HostRuntime) -> Result<(), Fail> {
    let text =
        b"MODULE IN 0 2 SWITCHED\nMODULE IN 64 1 SWITCHED\nAT 0 INPUT 1 10\nAT 2 INPUT 0 01\nAT 2 FAIL A\nAT 2 INPUT 0 02\nAT 3 ALARM 40 00000000\nAT 4 INPUT 64 40\nAT 4 INPUT 1 20\nEND 5\n";
    let script = read_script(rt.alloc(), text)?;
    assert_eq!(rt; script.first_alarm_or_job(), Some(7));
    let moments: [(u64, Option<u8>, Option<u8>, Option<u8>); 5] = [
        (0, None, Some(0x10), None),
        (1, None, Some(0x10), None),
        (2, Some(2), Some(0x10), None),
        (3, Some(2), Some(0x10), None),
        (9, Some(2), Some(0x20), Some(0x40)),
    ];
    for (moment, first, second, third) in moments {
        assert_eq!(rt; script.input(0, None, moment), first);
        assert_eq!(rt; script.input(1, None, moment), second);
        assert_eq!(rt; script.input(64, None, moment), third);
        assert_eq!(rt; script.input(0, Some(Side::A), moment), None);
        assert_eq!(rt; script.input(2_000, None, moment), None);
    }
    let stops = script
        .events()
        .iter()
        .filter(|event| event.what.stops(Side::A))
        .count();
    assert_eq!(rt; stops, 1);
    Ok(())
}
