//! Statements on counters.
ghost use Rattle.std.specs.Prelude.{◌≡◌, length, OnOk, OnErr, IfErr, Ok, Err};
ghost use Rattle.statement_effects.specs.CounterEffect.{counter_at, with_counter, effect_set, effect_counter};

use crate::Memory;
use crate::instruction::{BAD_DIGIT, CounterOperation};
use counters::Counter;
use s5_time::{bcd3, read_bcd3};

impl Memory {
    /// Returns the counter of a number.
    pub fn counter(&self, n: u8) -> Counter
        ensures value { result ≡ counter_at self.now n }
        ensures count { length self.now.counters ≡ 256 }
    {
        self.counters[n as usize]
    }

    fn put_counter(&mut self, n: u8, counter: Counter)
        ensures { self.new ≡ with_counter self.old n counter }
    {
        self.counters[n as usize] = counter;
        self.registers.status.after_timer();
    }

    /// `S` of a counter.
    ///
    /// # Errors
    /// The number of the error of a digit above 9, where the counter is set. Nothing changes.
    fn execute_set(&mut self, n: u8) -> Result<(), u8>
        ensures ok { OnOk result (effect_set n self.old ≡ Ok self.new) }
        ensures err { IfErr result (λ error. effect_set n self.old ≡ Err error) }
        ensures same { OnErr result (self.new ≡ self.old) }
    {
        let mut counter = self.counter(n);
        let rlo = self.registers.status.rlo;
        let units = match read_bcd3(self.low_word()) {
            Ok(units) => units,
            Err(_) => {
                if counter.sets(rlo) {
                    return Err(BAD_DIGIT);
                }
                0
            }
        };
        counter.set(rlo, units);
        self.put_counter(n, counter);
        Ok(())
    }

    /// A statement on a counter.
    ///
    /// # Errors
    /// The number of the error of a digit above 9, where the counter is set. Nothing changes.
    pub(crate) fn execute_counter(&mut self, op: CounterOperation, n: u8) -> Result<(), u8>
        ensures ok { OnOk result (effect_counter op n self.old ≡ Ok self.new) }
        ensures err { IfErr result (λ error. effect_counter op n self.old ≡ Err error) }
        ensures same { OnErr result (self.new ≡ self.old) }
    {
        let mut counter = self.counter(n);
        let rlo = self.registers.status.rlo;
        match op {
            CounterOperation::Up => {
                counter.up(rlo);
                self.put_counter(n, counter);
            }
            CounterOperation::Down => {
                counter.down(rlo);
                self.put_counter(n, counter);
            }
            CounterOperation::Set => self.execute_set(n)?,
            CounterOperation::Reset => {
                counter.reset(rlo);
                self.put_counter(n, counter);
            }
            CounterOperation::Enable => {
                counter.enable(rlo);
                self.put_counter(n, counter);
            }
            CounterOperation::Check(how) => {
                self.registers.status.check(how, counter.value() != 0);
            }
            CounterOperation::Load => self.load(u32::from(counter.value())),
            CounterOperation::LoadCoded => self.load(u32::from(bcd3(counter.value()))),
        }
        Ok(())
    }
}
