//! A counter.
ghost use Rattle.std.specs.Prelude.{◌≡◌, ◌≤◌};
ghost use Rattle.counters.specs.Bytes.{IsCounter, bytes_of, counter_of};
ghost use Rattle.counters.specs.Rule.{counted_down, counted_up, enabled, reset, set_to, sets};
ghost use Rattle.counters.specs.State.{fresh};

use std::marker::Model;

/// The highest value of a counter.
const HIGHEST: u16 = 999;

/// A counter: a value from 0 to 999, and the RLO of the last CU, CD, S and FR.
#[derive(Clone, Copy, Debug, PartialEq, Eq)]
pub struct Counter {
    value: u16,
    cu_mem: bool,
    cd_mem: bool,
    s_mem: bool,
    fr_mem: bool,
}

impl Model for Counter {
    ghost use Rattle.std.specs.Prelude.{◌≤◌};
    ghost use Rattle.counters.specs.State.{CounterState};

    ghost Value = { CounterState };

    ghost view = { λ c. record { value = c.value; cu_mem = c.cu_mem; cd_mem = c.cd_mem; s_mem = c.s_mem; fr_mem = c.fr_mem } };

    ghost invariant = { λ c. c.value ≤ 999 };

    ghost inverse = { λ c. record { value = c.value; cu_mem = c.cu_mem; cd_mem = c.cd_mem; s_mem = c.s_mem; fr_mem = c.fr_mem } };
}

impl Counter {
    /// A counter that was never used: all fields are 0.
    pub fn new() -> Counter
        ensures { result ≡ fresh }
    {
        Counter {
            value: 0,
            cu_mem: false,
            cd_mem: false,
            s_mem: false,
            fr_mem: false,
        }
    }

    /// The instruction CU with this RLO: as it rises the value grows by 1, up to 999.
    pub fn up(&mut self, rlo: bool)
        ensures { self.new ≡ counted_up self.old rlo }
    {
        if !self.cu_mem && rlo && self.value < HIGHEST {
            self.value += 1;
        }
        self.cu_mem = rlo;
    }

    /// The instruction CD with this RLO: as it rises the value falls by 1, down to 0.
    pub fn down(&mut self, rlo: bool)
        ensures { self.new ≡ counted_down self.old rlo }
    {
        if !self.cd_mem && rlo && self.value > 0 {
            self.value -= 1;
        }
        self.cd_mem = rlo;
    }

    /// Whether the instruction S with this RLO sets the counter. Only then does `set` use its units.
    pub fn sets(&self, rlo: bool) -> bool
        ensures { result ≡ sets self.now rlo }
    {
        !self.s_mem && rlo
    }

    /// The instruction S with this RLO: as it rises the value becomes `units`, which is at most 999.
    pub fn set(&mut self, rlo: bool, units: u16)
        requires { units ≤ 999 }
        ensures { self.new ≡ set_to self.old rlo units }
    {
        if self.sets(rlo) {
            self.value = units;
        }
        self.s_mem = rlo;
    }

    /// The instruction R with this RLO: at 1 the value becomes 0.
    pub fn reset(&mut self, rlo: bool)
        ensures { self.new ≡ reset self.old rlo }
    {
        if rlo {
            self.value = 0;
        }
    }

    /// The instruction FR with this RLO: as it rises, the next CU, CD and S may act again.
    pub fn enable(&mut self, rlo: bool)
        ensures { self.new ≡ enabled self.old rlo }
    {
        if !self.fr_mem && rlo {
            self.cu_mem = false;
            self.cd_mem = false;
            self.s_mem = false;
        }
        self.fr_mem = rlo;
    }

    /// The value, from 0 to 999.
    pub fn value(&self) -> u16
        ensures value { result ≡ self.now.value }
        ensures bound { result ≤ 999 }
    {
        self.value
    }

    /// The four bytes of the counter.
    pub fn to_bytes(&self) -> [u8; 4]
        ensures bytes { result ≡ bytes_of self.now }
        ensures fields { IsCounter result }
        // read again they are the counter
        ensures value { counter_of result ≡ self.now }
    {
        let [high, low] = self.value.to_be_bytes();
        let cu = u8::from(self.cu_mem);
        let cd = u8::from(self.cd_mem);
        let s = u8::from(self.s_mem);
        let fr = u8::from(self.fr_mem);
        [high, low, cu + 2 * cd + 4 * s + 8 * fr, 0]
    }

    /// The counter whose bytes these are.
    pub fn of_bytes(bytes: &[u8; 4]) -> Counter
        requires { IsCounter bytes.now }
        ensures value { result ≡ counter_of bytes.now }
        // written again it gives the bytes
        ensures bytes { bytes_of result ≡ bytes.now }
    {
        let [high, low, edges, _] = *bytes;
        Counter {
            value: u16::from_be_bytes([high, low]),
            cu_mem: edges % 2 == 1,
            cd_mem: edges / 2 % 2 == 1,
            s_mem: edges / 4 % 2 == 1,
            fr_mem: edges / 8 % 2 == 1,
        }
    }
}
