//! Statements on numbers, words and shifts.
ghost use Rattle.std.specs.Prelude.{◌≡◌, OnOk, OnErr, IfErr};
ghost use Rattle.accumulators.specs.Parts.{part, number};
ghost use Rattle.statement_effects.specs.NumberEffect.{effect_number, count_of, effect_word};

use crate::Registers;
use crate::instruction::{BAD_DIGIT, NumberInstruction, WordInstruction};
use accumulators::Accus;

/// The number in an accumulator, or where it is not wide in its low word.
fn number_in(accu: u32, wide: bool) -> i32
    ensures { result ≡ number (part wide) accu }
{
    if wide {
        accu.cast_signed()
    } else {
        let word = (accu % 65536) as u16;
        i32::from(word.cast_signed())
    }
}

/// The count of a shift.
fn count_of(count: Option<u8>, accus: &Accus) -> u8
    ensures { result ≡ count_of count accus.now }
{
    match count {
        Some(count) => count,
        None => (accus.accu2 % 256) as u8,
    }
}

impl Registers {
    /// A statement on numbers.
    ///
    /// # Errors
    /// The number of the error of a digit above 9. The registers are as before.
    pub(crate) fn execute_number(&mut self, i: NumberInstruction) -> Result<(), u8>
        ensures ok { OnOk result (effect_number i self.old ≡ Ok self.new) }
        ensures err { IfErr result (λ error. effect_number i self.old ≡ Err error) }
        ensures same { OnErr result (self.new ≡ self.old) }
    {
        match i {
            NumberInstruction::Work(op) => self.accus.num(&mut self.status, op),
            NumberInstruction::FromBcd(wide) => {
                if self.accus.from_bcd(wide).is_err() {
                    return Err(BAD_DIGIT);
                }
            }
            NumberInstruction::ToBcd(wide) => self.accus.to_bcd(&mut self.status, wide),
            NumberInstruction::Compare(how, wide) => {
                let left = number_in(self.accus.accu2, wide);
                let right = number_in(self.accus.accu1, wide);
                self.status.compare(left, right, how);
            }
        }
        Ok(())
    }

    /// A statement on words.
    pub(crate) fn execute_word(&mut self, i: WordInstruction)
        ensures { self.new ≡ effect_word i self.old }
    {
        match i {
            WordInstruction::Logic { op, wide, constant } => {
                self.accus.word(&mut self.status, op, wide, constant);
            }
            WordInstruction::Shift(op, count) => {
                let count = count_of(count, &self.accus);
                self.accus.shift(&mut self.status, op, count);
            }
        }
    }
}
