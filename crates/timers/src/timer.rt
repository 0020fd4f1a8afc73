//! A timer.
ghost use Rattle.std.specs.Prelude.{◌≡◌, ◌<◌, ◌≤◌, ◌↔◌, IsTrue};
ghost use Rattle.timers.specs.Bytes.{IsTimer, bytes_of, timer_of};
ghost use Rattle.timers.specs.Rule.{enabled, going, output, reset, rest, started, starts, up};
ghost use Rattle.timers.specs.State.{fresh};

use crate::kind::{is_edge, is_run_over, number, numbered};
use instruction_set::TimerKind;
use s5_time::{S5, millis};
use std::marker::Model;

/// A timer. It never counts down: what it answers follows from the moment of its start and the moment asked.
#[derive(Clone, Copy, Debug, PartialEq, Eq)]
pub struct Timer {
    kind: TimerKind,
    running: bool,
    start: u64,
    preset: S5,
    mem: bool,
    input: bool,
    fr_mem: bool,
}

impl Model for Timer {
    ghost use Rattle.timers.specs.State.{TimerState};

    ghost Value = { TimerState };

    ghost view = { λ t. record { kind = t.kind; running = t.running; start = t.start; preset = t.preset; mem = t.mem; input = t.input; fr_mem = t.fr_mem } };

    ghost inverse = { λ t. record { kind = t.kind; running = t.running; start = t.start; preset = t.preset; mem = t.mem; input = t.input; fr_mem = t.fr_mem } };
}

impl Timer {
    /// A timer that was never started: all fields are 0.
    pub fn new() -> Timer
        ensures { result ≡ fresh }
    {
        Timer {
            kind: TimerKind::Sp,
            running: false,
            start: 0,
            preset: S5 { base: 0, units: 0 },
            mem: false,
            input: false,
            fr_mem: false,
        }
    }

    /// Whether a start of this kind, with this RLO, begins a new run at `now`. Only then does `start` use its
    /// preset.
    pub fn starts(&self, kind: TimerKind, rlo: bool, now: u64) -> bool
        ensures { result ≡ starts self.now kind rlo now }
    {
        let stays_up = kind == TimerKind::Ss && self.kind == TimerKind::Ss && self.is_up(now);
        is_edge(kind, self.mem, rlo) && !stays_up
    }

    /// The instruction SP, SE, SD, SS or SF with this RLO at `now`, in milliseconds.
    pub fn start(&mut self, kind: TimerKind, rlo: bool, preset: S5, now: u64)
        ensures { self.new ≡ started self.old kind rlo preset now }
    {
        if self.starts(kind, rlo, now) {
            self.running = true;
            self.start = now;
            self.preset = preset;
        }
        if is_run_over(kind, rlo) {
            self.running = false;
        }
        self.kind = kind;
        self.input = rlo;
        self.mem = rlo;
    }

    /// The instruction R with this RLO.
    pub fn reset(&mut self, rlo: bool)
        ensures { self.new ≡ reset self.old rlo }
    {
        if rlo {
            self.running = false;
            self.input = false;
        }
    }

    /// The instruction FR with this RLO: as the RLO rises, the next start may have its edge again.
    pub fn enable(&mut self, rlo: bool)
        ensures { self.new ≡ enabled self.old rlo }
    {
        if rlo && !self.fr_mem {
            self.mem = false;
        }
        self.fr_mem = rlo;
    }

    /// The output at `now`, in milliseconds.
    pub fn output(&self, now: u64) -> bool
        ensures { result ≡ output self.now now }
    {
        match self.kind {
            TimerKind::Sp | TimerKind::Se => self.is_going(now),
            TimerKind::Sd | TimerKind::Ss => self.is_up(now),
            TimerKind::Sf => self.input || self.is_going(now),
        }
    }

    /// What is left of the preset at `now`, in the preset's base; no units where the timer isn't going.
    pub fn rest(&self, now: u64) -> S5
        ensures value { result ≡ rest self.now now }
        // a part of the preset, and more than nothing exactly while the timer is going
        ensures left { IsTrue (going self.now now) ↔ (0 < result.units) }
        ensures bound { result.units ≤ self.now.preset.units }
    {
        let preset = self.preset;
        let base = preset.base;
        if !self.is_going(now) {
            return S5 { base, units: 0 };
        }
        let unit = millis(S5 { base, units: 1 });
        let passed = now.saturating_sub(self.start) / u64::from(unit);
        let units = preset.units - passed as u16;
        S5 { base, units }
    }

    /// The 24 bytes of the timer.
    pub fn to_bytes(&self) -> [u8; 24]
        ensures bytes { result ≡ bytes_of self.now }
        ensures fields { IsTimer result }
        // read again they are the timer
        ensures value { timer_of result ≡ self.now }
    {
        let preset = self.preset;
        let base = preset.base;
        let [high, low] = preset.units.to_be_bytes();
        let kind = number(self.kind);
        let running = u8::from(self.running);
        let [a, b, c, d, e, f, g, h] = self.start.to_be_bytes();
        let mem = u8::from(self.mem);
        let input = u8::from(self.input);
        let fr_mem = u8::from(self.fr_mem);
        [
            kind, running, a, b, c, d, e, f, g, h, base, high, low, mem, input, fr_mem, 0, 0, 0, 0,
            0, 0, 0, 0,
        ]
    }

    /// The timer whose bytes these are.
    pub fn of_bytes(bytes: &[u8; 24]) -> Timer
        requires { IsTimer bytes.now }
        ensures value { result ≡ timer_of bytes.now }
        // written again it gives the bytes
        ensures bytes { bytes_of result ≡ bytes.now }
    {
        let [
            kind,
            running,
            a,
            b,
            c,
            d,
            e,
            f,
            g,
            h,
            base,
            high,
            low,
            mem,
            input,
            fr_mem,
            ..
        ] = *bytes;
        let units = u16::from_be_bytes([high, low]);
        Timer {
            kind: numbered(kind),
            running: running == 1,
            start: u64::from_be_bytes([a, b, c, d, e, f, g, h]),
            preset: S5 { base, units },
            mem: mem == 1,
            input: input == 1,
            fr_mem: fr_mem == 1,
        }
    }

    /// Whether the timer runs and its preset has not passed.
    fn is_going(&self, now: u64) -> bool
        ensures { result ≡ going self.now now }
    {
        self.running && now.saturating_sub(self.start) < u64::from(millis(self.preset))
    }

    /// Whether the timer runs and its preset has passed.
    fn is_up(&self, now: u64) -> bool
        ensures { result ≡ up self.now now }
    {
        self.running && !self.is_going(now)
    }
}
