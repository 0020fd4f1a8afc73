//! Statements on the data blocks that are opened.
ghost use Rattle.std.specs.Prelude.{◌≡◌, OnOk, OnErr, IfErr, Ok, Err};
ghost use Rattle.statement_effects.specs.DataEffect.{opened, opened_length, opened_number, number_of, effect_data};

use crate::Memory;
use crate::areas::DataRegisters;
use crate::instruction::{DataInstruction, DataNumber, NO_DATA_BLOCK};

/// The number of the data block that is opened, 0 where none is.
fn opened_number(number: Option<u8>) -> u32
    ensures { result ≡ opened_number number }
{
    u32::from(number.unwrap_or(0))
}

impl Memory {
    /// The length of the data block that is opened, 0 where none is.
    fn opened_length(&self, number: Option<u8>) -> u32
        ensures { result ≡ opened_length self.now number }
    {
        let Some(number) = number else {
            return 0;
        };
        match self.data_length(number) {
            Some(length) => u32::from(length),
            None => 0,
        }
    }

    /// A length or a number of the data blocks that are opened.
    fn number_of(&self, what: DataNumber) -> u32
        ensures { result ≡ number_of what self.now }
    {
        let data = self.registers.data;
        match what {
            DataNumber::Length => self.opened_length(data.block),
            DataNumber::Number => opened_number(data.block),
            DataNumber::InstanceLength => self.opened_length(data.instance),
            DataNumber::InstanceNumber => opened_number(data.instance),
        }
    }

    /// Opens data blocks, where that of a number, which is one of them, is loaded.
    ///
    /// # Errors
    /// The number of the error where it is not loaded. Nothing changes.
    fn open_data(&mut self, number: u8, registers: DataRegisters) -> Result<(), u8>
        ensures ok { OnOk result (opened number registers self.old ≡ Ok self.new) }
        ensures err { IfErr result (λ error. opened number registers self.old ≡ Err error) }
        ensures same { OnErr result (self.new ≡ self.old) }
    {
        if self.data_length(number).is_none() {
            return Err(NO_DATA_BLOCK);
        }
        self.registers.data = registers;
        Ok(())
    }

    /// `OPN`, `CDB`, and `L` of a length or a number.
    ///
    /// # Errors
    /// The number of the error of a data block that is not loaded. Nothing changes.
    pub(crate) fn execute_data(&mut self, i: DataInstruction) -> Result<(), u8>
        ensures ok { OnOk result (effect_data i self.old ≡ Ok self.new) }
        ensures err { IfErr result (λ error. effect_data i self.old ≡ Err error) }
        ensures same { OnErr result (self.new ≡ self.old) }
    {
        let data = self.registers.data;
        match i {
            DataInstruction::Open(number) => {
                let block = Some(number);
                return self.open_data(number, DataRegisters { block, ..data });
            }
            DataInstruction::OpenInstance(number) => {
                let instance = Some(number);
                return self.open_data(number, DataRegisters { instance, ..data });
            }
            DataInstruction::Exchange => {
                self.registers.data = DataRegisters {
                    block: data.instance,
                    instance: data.block,
                };
            }
            DataInstruction::Load(what) => {
                let value = self.number_of(what);
                self.load(value);
            }
        }
        Ok(())
    }
}
