//! Where the operands of statements lie.
ghost use Rattle.std.specs.Prelude.{◌≡◌, ◌↔◌, ℕ, ◌<◌, ◌≤◌, length, IsTrue, OnErr, IfOk, IfErr, Ok, Err};
ghost use Rattle.cpu_image.specs.declared.area.ByteArea.TheVariants.{Db};
ghost use Rattle.cpu_image.specs.Image.{area_bytes};
ghost use Rattle.level_stack.specs.Levels.{running_locals};
ghost use Rattle.statement_effects.specs.Placed.{IsBitOperand, IsBitThere, IsValueOperand, IsValueThere};
ghost use Rattle.statement_effects.specs.Resolving.{data_number, with_named, in_data, resolve_bit, resolve_value};

use crate::Memory;
use crate::instruction::{
    BitOperand, BitPlace, DataBlockName, NO_DATA_BLOCK, PAST_THE_END, ValueOperand, ValuePlace,
};
use cpu_image::ByteArea;

impl Memory {
    /// Whether the local data of the block that runs has so many bytes.
    fn has_locals(&self, end: u16) -> bool
        ensures { IsTrue result ↔ end ≤ length (running_locals self.now.levels) }
    {
        usize::from(end) <= self.levels.local_count()
    }

    /// The number of the data block that an operand names. None where none is opened.
    fn data_number(&self, name: DataBlockName) -> Option<u8>
        ensures { result ≡ data_number name self.now.registers.«data» }
    {
        match name {
            DataBlockName::Opened => self.registers.data.block,
            DataBlockName::Instance => self.registers.data.instance,
            DataBlockName::Numbered(number) => Some(number),
        }
    }

    /// Opens the data block that an operand names by its number.
    fn open_named(&mut self, name: DataBlockName)
        ensures opened { self.new ≡ with_named name self.old }
        ensures image { self.new.image ≡ self.old.image }
    {
        if let DataBlockName::Numbered(number) = name {
            self.registers.data.block = Some(number);
        }
    }

    /// Finds the data block that an operand names, of which it needs the bytes before `end`.
    ///
    /// # Errors
    /// The number of the error where none is opened, or it isn't loaded, or it has fewer bytes; nothing changes.
    fn find_data(&mut self, name: DataBlockName, end: u32) -> Result<u8, u8>
        requires { 0 < end }
        ensures ok { IfOk result (λ number. in_data name end self.old ≡ Ok (self.new, number)) }
        ensures there { IfOk result (λ number. end ≤ length (area_bytes self.new.image (Db number))) }
        ensures err { IfErr result (λ error. in_data name end self.old ≡ Err error) }
        ensures same { OnErr result (self.new ≡ self.old) }
    {
        let Some(number) = self.data_number(name) else {
            return Err(NO_DATA_BLOCK);
        };
        let Some(length) = self.data_length(number) else {
            return Err(NO_DATA_BLOCK);
        };
        if u32::from(length) < end {
            return Err(PAST_THE_END);
        }
        self.open_named(name);
        Ok(number)
    }

    /// Finds the place of a bit.
    ///
    /// # Errors
    /// The number of the error of a bit that is nowhere; nothing changes. A bit of the inputs, the outputs or the bit
    /// memory is always there.
    #[tactic(auto, using(crate::proofs::Places::always_there))]
    pub(crate) fn resolve_bit(&mut self, operand: BitOperand) -> Result<BitOperand, u8>
        requires { IsBitOperand operand }
        ensures ok { IfOk result (λ place. resolve_bit operand self.old ≡ Ok (self.new, place)) }
        ensures placed { IfOk result (IsBitThere self.new) }
        ensures err { IfErr result (λ error. resolve_bit operand self.old ≡ Err error) }
        ensures same { OnErr result (self.new ≡ self.old) }
    {
        match operand {
            BitOperand::Area(_) => {
                self.image.show_sizes();
                Ok(operand)
            }
            BitOperand::Local(place) => {
                if !self.has_locals(u16::from(place.at_byte) + 1) {
                    return Err(PAST_THE_END);
                }
                Ok(operand)
            }
            BitOperand::Data(place) => {
                let number = self.find_data(place.block, u32::from(place.at_byte) + 1)?;
                Ok(BitOperand::Area(BitPlace {
                    area: ByteArea::Db(number),
                    at_byte: place.at_byte,
                    bit: place.bit,
                }))
            }
        }
    }

    /// Finds the place of a value.
    ///
    /// # Errors
    /// The number of the error of a value that is nowhere; nothing changes. A value of the inputs, the outputs or the bit
    /// memory is always there.
    #[tactic(auto, using(crate::proofs::Places::always_there))]
    pub(crate) fn resolve_value(&mut self, operand: ValueOperand) -> Result<ValueOperand, u8>
        requires { IsValueOperand operand }
        ensures ok { IfOk result (λ place. resolve_value operand self.old ≡ Ok (self.new, place)) }
        ensures placed { IfOk result (IsValueThere self.new) }
        ensures err { IfErr result (λ error. resolve_value operand self.old ≡ Err error) }
        ensures same { OnErr result (self.new ≡ self.old) }
    {
        match operand {
            ValueOperand::Area(_) => {
                self.image.show_sizes();
                Ok(operand)
            }
            ValueOperand::Local(place) => {
                if !self.has_locals(u16::from(place.at_byte) + u16::from(place.width.bytes())) {
                    return Err(PAST_THE_END);
                }
                Ok(operand)
            }
            ValueOperand::Data(place) => {
                let end = u32::from(place.at_byte) + u32::from(place.width.bytes());
                let number = self.find_data(place.block, end)?;
                Ok(ValueOperand::Area(ValuePlace {
                    area: ByteArea::Db(number),
                    at_byte: place.at_byte,
                    width: place.width,
                }))
            }
        }
    }
}
