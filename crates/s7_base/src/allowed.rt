//! Which operands a statement may have.
ghost use Rattle.std.specs.Prelude.{◌≡◌};
ghost use Rattle.s7_base.specs.Operands.{is_in, is_data_number, ends_by, is_within, is_of_cpu, is_of_data, is_memory, is_bit, unit_bytes, is_value, is_peripheral, is_number, is_up_to, is_exactly, is_nothing, is_timer_or_counter, is_constant, is_about_data, allows};

use crate::Statement;
use instruction_set::{OperandArea, OperandKind};

/// Whether a data block may have the number: 1 to 255.
pub fn is_data_number(number: u32) -> bool
    ensures { result ≡ is_data_number number }
{
    (1..=255).contains(&number)
}

impl Statement {
    pub(crate) fn is_in(&self, area: OperandArea) -> bool
        ensures { result ≡ is_in area self.now }
    {
        self.area == area.number()
    }

    fn ends_by(&self, size: u32, bytes: u8) -> bool
        ensures { result ≡ ends_by size bytes self.now }
    {
        u64::from(self.value) + u64::from(bytes) <= u64::from(size)
    }

    fn is_within(&self, area: OperandArea, size: u32, bytes: u8) -> bool
        ensures { result ≡ is_within area size bytes self.now }
    {
        self.is_in(area) && self.ends_by(size, bytes)
    }

    fn is_of_cpu(&self, locals: u32, bytes: u8) -> bool
        ensures { result ≡ is_of_cpu locals bytes self.now }
    {
        self.is_within(OperandArea::Inputs, 64, bytes)
            || self.is_within(OperandArea::Outputs, 64, bytes)
            || self.is_within(OperandArea::Memory, 1024, bytes)
            || self.is_within(OperandArea::Local, locals, bytes)
    }

    fn is_of_data(&self, bytes: u8) -> bool
        ensures { result ≡ is_of_data bytes self.now }
    {
        self.is_within(OperandArea::Data, 65536, bytes)
            && (self.db == 0 || is_data_number(u32::from(self.db)))
            || self.is_within(OperandArea::Instance, 65536, bytes) && self.db == 0
    }

    fn is_memory(&self, locals: u32, bytes: u8) -> bool
        ensures { result ≡ is_memory locals bytes self.now }
    {
        self.is_of_cpu(locals, bytes) && self.db == 0 || self.is_of_data(bytes)
    }

    fn is_bit(&self, locals: u32) -> bool
        ensures { result ≡ is_bit locals self.now }
    {
        self.bit <= 7 && self.is_memory(locals, 1)
    }

    fn unit_bytes(&self) -> u8
        ensures { result ≡ unit_bytes self.now.bit }
    {
        match self.bit {
            8 => 1,
            9 => 2,
            10 => 4,
            _ => 0,
        }
    }

    fn is_value(&self, locals: u32) -> bool
        ensures { result ≡ is_value locals self.now }
    {
        self.unit_bytes() > 0 && self.is_memory(locals, self.unit_bytes())
    }

    fn is_peripheral(&self, area: OperandArea) -> bool
        ensures { result ≡ is_peripheral area self.now }
    {
        self.unit_bytes() > 0 && self.is_within(area, 1024, self.unit_bytes()) && self.db == 0
    }

    fn is_number(&self, area: OperandArea) -> bool
        ensures { result ≡ is_number area self.now }
    {
        self.is_in(area) && self.bit == 0 && self.db == 0
    }

    fn is_up_to(&self, area: OperandArea, most: u16) -> bool
        ensures { result ≡ is_up_to area most self.now }
    {
        self.is_number(area) && self.value <= u32::from(most)
    }

    fn is_exactly(&self, area: OperandArea, number: u16) -> bool
        ensures { result ≡ is_exactly area number self.now }
    {
        self.is_number(area) && self.value == u32::from(number)
    }

    fn is_nothing(&self) -> bool
        ensures { result ≡ is_nothing self.now }
    {
        self.is_exactly(OperandArea::Nothing, 0)
    }

    fn is_timer_or_counter(&self) -> bool
        ensures { result ≡ is_timer_or_counter self.now }
    {
        self.is_up_to(OperandArea::Timer, 255) || self.is_up_to(OperandArea::Counter, 255)
    }

    fn is_constant(&self) -> bool
        ensures { result ≡ is_constant self.now }
    {
        self.is_up_to(OperandArea::Word, 65535) || self.is_number(OperandArea::DoubleWord)
    }

    fn is_about_data(&self) -> bool
        ensures { result ≡ is_about_data self.now }
    {
        self.is_exactly(OperandArea::DataLength, 0)
            || self.is_exactly(OperandArea::DataNumber, 0)
            || self.is_exactly(OperandArea::InstanceLength, 0)
            || self.is_exactly(OperandArea::InstanceNumber, 0)
    }

    fn is_loaded(&self, locals: u32) -> bool
        ensures { result ≡ allows OperandKind.Loaded locals self.now }
    {
        self.is_value(locals)
            || self.is_peripheral(OperandArea::PeripheralIn)
            || self.is_constant()
            || self.is_timer_or_counter()
            || self.is_exactly(OperandArea::StatusWord, 0)
            || self.is_about_data()
    }

    fn is_stored(&self, locals: u32) -> bool
        ensures { result ≡ allows OperandKind.Stored locals self.now }
    {
        self.is_value(locals)
            || self.is_peripheral(OperandArea::PeripheralOut)
            || self.is_exactly(OperandArea::StatusWord, 0)
    }

    fn is_block_with_data(&self) -> bool
        ensures { result ≡ allows OperandKind.FunctionBlockWithData 0 self.now }
    {
        self.is_in(OperandArea::FunctionBlock)
            && self.bit == 0
            && self.value <= 255
            && is_data_number(u32::from(self.db))
    }

    /// Whether the operand, as it is stored, is of the kind, in a block with so many bytes of local data.
    pub fn has_operand(&self, kind: OperandKind, locals: u32) -> bool
        ensures { result ≡ allows kind locals self.now }
    {
        match kind {
            OperandKind::Nothing => self.is_nothing(),
            OperandKind::CheckedBit => {
                self.is_bit(locals)
                    || self.is_timer_or_counter()
                    || self.is_up_to(OperandArea::Status, 9)
            }
            OperandKind::WrittenBit => self.is_bit(locals),
            OperandKind::SetBit => self.is_bit(locals) || self.is_up_to(OperandArea::Counter, 255),
            OperandKind::ResetBit => self.is_bit(locals) || self.is_timer_or_counter(),
            OperandKind::Loaded => self.is_loaded(locals),
            OperandKind::Stored => self.is_stored(locals),
            OperandKind::Coded => self.is_timer_or_counter(),
            OperandKind::Addend => self.is_constant(),
            OperandKind::UpTo(most) => self.is_up_to(OperandArea::Word, most),
            OperandKind::Exactly(number) => self.is_exactly(OperandArea::Word, number),
            OperandKind::AtMost(most) => {
                self.is_nothing() || self.is_up_to(OperandArea::Word, most)
            }
            OperandKind::Mask => self.is_nothing() || self.is_number(OperandArea::DoubleWord),
            OperandKind::Target => self.is_number(OperandArea::Target),
            OperandKind::Timer => self.is_up_to(OperandArea::Timer, 255),
            OperandKind::Counter => self.is_up_to(OperandArea::Counter, 255),
            OperandKind::DataBlock => {
                self.is_number(OperandArea::Data) && is_data_number(self.value)
            }
            OperandKind::InstanceBlock => {
                self.is_number(OperandArea::Instance) && is_data_number(self.value)
            }
            OperandKind::Function => self.is_up_to(OperandArea::Function, 255),
            OperandKind::FunctionBlock => self.is_up_to(OperandArea::FunctionBlock, 255),
            OperandKind::FunctionBlockWithData => self.is_block_with_data(),
            OperandKind::SystemFunction(number) => {
                self.is_exactly(OperandArea::SystemFunction, number)
            }
        }
    }
}
