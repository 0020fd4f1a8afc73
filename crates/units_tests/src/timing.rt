use s5_time::S5;
use timers::TimerKind::*;
use timers::*;

/// An instruction, its RLO and for a start its moment.
enum Event {
    Start(TimerKind, bool, u64),
    Reset(bool),
    Enable(bool),
}

use Event::*;

/// A new timer after these instructions; each start has the preset 16#0005, that is 50 ms.
fn after(events: &[Event]) -> Timer {
    let preset = S5 { base: 0, units: 5 };
    let mut timer = Timer::new();
    for event in events {
        match *event {
            Start(kind, rlo, now) => timer.start(kind, rlo, preset, now),
            Reset(rlo) => timer.reset(rlo),
            Enable(rlo) => timer.enable(rlo),
        }
    }
    timer
}

#[test]
fn output_and_rest_by_the_moment(rt: HostRuntime) {
    // instructions; moment, output, units of the rest
    let rows: [(&[Event], &[(u64, bool, u16)]); 16] = [
        (&[], &[(0, false, 0), (100, false, 0)]),
        (
            &[Start(Sp, true, 100)],
            &[
                (99, true, 5),
                (109, true, 5),
                (110, true, 4),
                (149, true, 1),
                (150, false, 0),
            ],
        ),
        (
            &[Start(Sp, true, 100), Start(Sp, false, 120)],
            &[(120, false, 0), (149, false, 0)],
        ),
        (
            &[Start(Se, true, 100), Start(Se, false, 120)],
            &[(120, true, 3), (149, true, 1), (150, false, 0)],
        ),
        (
            &[
                Start(Se, true, 100),
                Start(Se, false, 120),
                Start(Se, true, 130),
            ],
            &[(179, true, 1), (180, false, 0)],
        ),
        (
            &[Start(Sd, true, 100)],
            &[
                (99, false, 5),
                (100, false, 5),
                (149, false, 1),
                (150, true, 0),
                (900, true, 0),
            ],
        ),
        (
            &[Start(Sd, true, 100), Start(Sd, false, 160)],
            &[(160, false, 0)],
        ),
        (
            &[Start(Ss, true, 100), Start(Ss, false, 120)],
            &[(149, false, 1), (150, true, 0), (900, true, 0)],
        ),
        // a new edge of an SS timer that is going, and of one that is up
        (
            &[
                Start(Ss, true, 100),
                Start(Ss, false, 110),
                Start(Ss, true, 120),
            ],
            &[(169, false, 1), (170, true, 0)],
        ),
        (
            &[
                Start(Ss, true, 100),
                Start(Ss, false, 155),
                Start(Ss, true, 160),
            ],
            &[(160, true, 0), (900, true, 0)],
        ),
        // it starts anew after R, and with another kind
        (
            &[
                Start(Ss, true, 100),
                Start(Ss, false, 155),
                Reset(true),
                Start(Ss, true, 160),
            ],
            &[(160, false, 5), (209, false, 1), (210, true, 0)],
        ),
        (
            &[
                Start(Ss, true, 100),
                Start(Ss, false, 155),
                Start(Sd, true, 160),
            ],
            &[(209, false, 1), (210, true, 0)],
        ),
        // SF is 1 with its RLO and for the preset after it
        (&[Start(Sf, true, 80)], &[(80, true, 0), (900, true, 0)]),
        (
            &[Start(Sf, true, 80), Start(Sf, false, 100)],
            &[(100, true, 5), (149, true, 1), (150, false, 0)],
        ),
        (
            &[
                Start(Sf, true, 80),
                Start(Sf, false, 100),
                Start(Sf, true, 120),
            ],
            &[(120, true, 0), (900, true, 0)],
        ),
        (
            &[Start(Sf, true, 80), Reset(false), Reset(true)],
            &[(80, false, 0)],
        ),
    ];
    for (events, checks) in rows {
        let timer = after(events);
        for &(now, output, units) in checks {
            assert_eq!(rt; timer.output(now), output, "at {now}");
            let rest = timer.rest(now);
            assert_eq!(rt; (rest.base, rest.units), (0, units), "at {now}");
        }
    }
}

#[test]
fn fr_gives_the_next_start_its_edge(rt: HostRuntime) {
    // instructions; moment, output
    let rows: [(&[Event], u64, bool); 6] = [
        (&[Start(Sp, true, 100), Start(Sp, true, 130)], 150, false),
        (
            &[Start(Sp, true, 100), Enable(false), Start(Sp, true, 130)],
            150,
            false,
        ),
        (
            &[Start(Sp, true, 100), Enable(true), Start(Sp, true, 130)],
            179,
            true,
        ),
        (
            &[Start(Sp, true, 100), Enable(true), Start(Sp, true, 130)],
            180,
            false,
        ),
        (
            &[
                Enable(true),
                Start(Sp, true, 100),
                Enable(true),
                Start(Sp, true, 130),
            ],
            150,
            false,
        ),
        // an SS timer that is up stays so
        (
            &[Start(Ss, true, 100), Enable(true), Start(Ss, true, 160)],
            160,
            true,
        ),
    ];
    for (events, now, output) in rows {
        assert_eq!(rt; after(events).output(now), output, "at {now}");
    }
}

#[test]
fn the_bytes_have_the_high_byte_first(rt: HostRuntime) {
    let mut timer = Timer::new();
    assert!(rt; timer.starts(Sd, true, 0x0102_0304_0506_0708));
    timer.start(
        Sd,
        true,
        S5 {
            base: 2,
            units: 999,
        },
        0x0102_0304_0506_0708,
    );
    timer.enable(true);
    let bytes = [
        2, 1, 1, 2, 3, 4, 5, 6, 7, 8, 2, 3, 0xE7, 0, 1, 1, 0, 0, 0, 0, 0, 0, 0, 0,
    ];
    assert_eq!(rt; timer.to_bytes(), bytes);
    assert_eq!(rt; Timer::of_bytes(&bytes), timer);
}
