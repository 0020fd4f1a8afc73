use counters::*;
use s5_time::{bcd3, read_bcd3};

/// An instruction and its RLO; S has a word of three BCD digits.
enum Event {
    Up(bool),
    Down(bool),
    Set(bool, u16),
    Reset(bool),
    Enable(bool),
}

use Event::*;

/// The instruction S, which changes nothing where it would read a bad digit.
fn set(counter: &mut Counter, rlo: bool, word: u16) {
    let units = if counter.sets(rlo) {
        read_bcd3(word)
    } else {
        Ok(0)
    };
    if let Ok(units) = units {
        counter.set(rlo, units);
    }
}

/// A new counter after these instructions.
fn after(events: &[Event]) -> Counter {
    let mut counter = Counter::new();
    for event in events {
        match *event {
            Up(rlo) => counter.up(rlo),
            Down(rlo) => counter.down(rlo),
            Set(rlo, word) => set(&mut counter, rlo, word),
            Reset(rlo) => counter.reset(rlo),
            Enable(rlo) => counter.enable(rlo),
        }
    }
    counter
}

#[test]
fn values_after_instructions(rt: HostRuntime) {
    // instructions; the value in BCD
    let rows: [(&[Event], u16); 20] = [
        (&[], 0x0000),
        (&[Up(false)], 0x0000),
        (&[Up(true), Up(true)], 0x0001),
        (&[Up(true), Up(false), Up(true)], 0x0002),
        (&[Down(true)], 0x0000),
        (&[Set(true, 0x0999), Up(true)], 0x0999),
        (&[Set(true, 0x0998), Up(true), Up(false), Up(true)], 0x0999),
        (&[Set(true, 0x0100), Down(true), Down(true)], 0x0099),
        (
            &[Set(true, 0x0001), Down(true), Down(false), Down(true)],
            0x0000,
        ),
        (&[Set(true, 0x0007), Set(true, 0x0009)], 0x0007),
        (
            &[Set(true, 0x0007), Set(false, 0x0008), Set(true, 0x0009)],
            0x0009,
        ),
        // bits 12 to 15 are not read; a bad digit leaves the counter and its edge
        (&[Set(true, 0xF365)], 0x0365),
        (&[Set(true, 0x00A0), Set(true, 0x0005)], 0x0005),
        (&[Set(true, 0x0007), Reset(false)], 0x0007),
        (&[Set(true, 0x0007), Reset(true)], 0x0000),
        // FR lets each edge act again, at an edge of its own
        (&[Up(true), Enable(true), Up(true)], 0x0002),
        (
            &[Set(true, 0x0007), Down(true), Enable(true), Down(true)],
            0x0005,
        ),
        (
            &[Set(true, 0x0007), Enable(true), Set(true, 0x0009)],
            0x0009,
        ),
        (&[Up(true), Enable(false), Up(true)], 0x0001),
        (&[Enable(true), Up(true), Enable(true), Up(true)], 0x0001),
    ];
    for (events, word) in rows {
        assert_eq!(rt; bcd3(after(events).value()), word, "for {word}");
    }
}

#[test]
fn the_bytes_of_a_counter(rt: HostRuntime) {
    let rows: [(&[Event], [u8; 4]); 3] = [
        (&[], [0, 0, 0, 0]),
        (&[Set(true, 0x0999), Up(true)], [3, 0xE7, 5, 0]),
        (
            &[Set(true, 0x0999), Up(true), Enable(true), Down(true)],
            [3, 0xE6, 10, 0],
        ),
    ];
    for (events, bytes) in rows {
        assert_eq!(rt; after(events).to_bytes(), bytes, "for {bytes:?}");
    }
    assert_eq!(rt; Counter::of_bytes(&[3, 0xE6, 10, 0]), after(rows[2].0));
}
