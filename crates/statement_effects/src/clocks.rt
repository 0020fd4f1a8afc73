//! Statements on timers.
ghost use Rattle.std.specs.Prelude.{◌≡◌, OnOk, OnErr, IfErr, Ok, Err, ◌%◌};
ghost use Rattle.level_stack.specs.Levels.{block_counts};
ghost use Rattle.statement_effects.specs.TimerEffect.{timer_at, with_timer, timer_after, effect_timer, effect_start, effect_timed};

use crate::Memory;
use crate::instruction::{BAD_DIGIT, TimedOperation, TimerOperation};
use s5_time::{S5, read, write};
use timers::{Timer, TimerKind};

impl Memory {
    fn timer(&self, n: u8) -> Timer
        ensures { result ≡ timer_at self.now n }
    {
        self.timers[n as usize]
    }

    fn put_timer(&mut self, n: u8, timer: Timer)
        ensures { self.new ≡ with_timer self.old n timer }
    {
        self.timers[n as usize] = timer;
    }

    /// The low word of ACCU1.
    pub(crate) fn low_word(&self) -> u16
        ensures { result ≡ self.now.registers.accus.accu1 % 65536 }
    {
        (self.registers.accus.accu1 % 65536) as u16
    }

    /// `R` and `FR` of a timer.
    pub(crate) fn execute_timer(&mut self, op: TimerOperation, n: u8)
        ensures { self.new ≡ effect_timer op n self.old }
    {
        let mut timer = self.timer(n);
        let rlo = self.registers.status.rlo;
        match op {
            TimerOperation::Reset => timer.reset(rlo),
            TimerOperation::Enable => timer.enable(rlo),
        }
        self.put_timer(n, timer);
        self.registers.status.after_timer();
    }

    /// A start of a timer at a moment.
    ///
    /// # Errors
    /// The number of the error of a digit above 9, where a run begins. Nothing changes.
    fn execute_start(&mut self, kind: TimerKind, n: u8, moment: u64) -> Result<(), u8>
        ensures ok { OnOk result (effect_start kind n moment self.old ≡ Ok self.new) }
        ensures err { IfErr result (λ error. effect_start kind n moment self.old ≡ Err error) }
        ensures same { OnErr result (self.new ≡ self.old) }
    {
        let mut timer = self.timer(n);
        let rlo = self.registers.status.rlo;
        let preset = match read(self.low_word()) {
            Ok(preset) => preset,
            Err(_) => {
                if timer.starts(kind, rlo, moment) {
                    return Err(BAD_DIGIT);
                }
                S5 { base: 0, units: 0 }
            }
        };
        timer.start(kind, rlo, preset, moment);
        self.put_timer(n, timer);
        self.registers.status.after_timer();
        Ok(())
    }

    /// Completes a statement on the timer of a number at a moment in milliseconds, once the CPU has asked for it.
    ///
    /// # Errors
    /// Error 1 is a digit above 9, where a run begins. Nothing changes.
    pub fn execute_timed(&mut self, op: TimedOperation, n: u8, moment: u64) -> Result<(), u8>
        ensures ok { OnOk result (effect_timed op n moment self.old ≡ Ok self.new) }
        // it begins and ends no block
        ensures blocks { block_counts self.new.levels ≡ block_counts self.old.levels }
        ensures err { IfErr result (λ error. effect_timed op n moment self.old ≡ Err error) }
        ensures same { OnErr result (self.new ≡ self.old) }
    {
        match op {
            TimedOperation::Start(kind) => self.execute_start(kind, n, moment)?,
            TimedOperation::Check(how) => {
                let operand = self.timer(n).output(moment);
                self.registers.status.check(how, operand);
            }
            TimedOperation::Load => {
                let rest = self.timer(n).rest(moment);
                self.load(u32::from(rest.units));
            }
            TimedOperation::LoadCoded => {
                let rest = self.timer(n).rest(moment);
                self.load(u32::from(write(rest)));
            }
        }
        Ok(())
    }
}
