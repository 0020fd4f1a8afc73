use s5_time::*;

#[test]
fn words_and_milliseconds(rt: HostRuntime) {
    // word, base, units, milliseconds
    let rows = [
        (0x0000, 0, 0, 0),
        (0x0005, 0, 5, 50),
        (0x0999, 0, 999, 9_990),
        (0x1100, 1, 100, 10_000),
        (0x2127, 2, 127, 127_000),
        (0x3999, 3, 999, 9_990_000),
    ];
    for (word, base, units, ms) in rows {
        let s = S5 { base, units };
        assert_eq!(rt; read(word), Ok(s), "at {word}");
        assert_eq!(rt; write(s), word, "at {word}");
        assert_eq!(rt; millis(s), ms, "at {word}");
    }
    // bits 14 and 15 are not read, a digit above 9 is refused
    assert_eq!(rt;
        read(0xD365),
        Ok(S5 {
            base: 1,
            units: 365
        })
    );
    assert_eq!(rt; read_bcd3(0xF365), Ok(365));
    assert_eq!(rt; bcd3(365), 0x0365);
    for word in [0x000A, 0x30B9, 0x0C00, 0xFFFF] {
        assert_eq!(rt; read(word), Err(BadS5), "at {word}");
        assert_eq!(rt; read_bcd3(word), Err(BadS5), "at {word}");
    }
}

#[test]
fn the_smallest_base_is_taken(rt: HostRuntime) {
    // milliseconds, base, units
    let rows = [
        (0, 0, 0),
        (9, 0, 0),
        (9_999, 0, 999),
        (10_000, 1, 100),
        (99_999, 1, 999),
        (100_000, 2, 100),
        (999_999, 2, 999),
        (1_000_000, 3, 100),
        (9_990_000, 3, 999),
    ];
    for (ms, base, units) in rows {
        assert_eq!(rt; from_millis(ms), Some(S5 { base, units }), "at {ms}");
    }
    for ms in [9_990_001, 9_999_999, u32::MAX] {
        assert_eq!(rt; from_millis(ms), None, "at {ms}");
    }
}
