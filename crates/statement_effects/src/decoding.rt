//! The operands of stored statements.
ghost use Rattle.std.specs.Prelude.{◌≡◌, ◌≤◌, IfSome};
ghost use Rattle.s7_base.specs.Operands.{is_in};
ghost use Rattle.instruction_set.specs.declared.operands.OperandArea.TheVariants as areas;
ghost use Rattle.level_stack.specs.Values.{IsWidth};
ghost use Rattle.statement_effects.specs.Areas.{size_of, bytes_in};
ghost use Rattle.statement_effects.specs.Decoding.{width_of, bit_operand, value_operand, byte_operand, local_operand, up_to, data_block_of, data_operand, named_data_operand, access_of, block_operand, data_number_of, other_operand, operand_of, opened_operand, block_with_data, operand_for};
ghost use Rattle.statement_effects.specs.Placed.{IsOperand};
ghost use Rattle.statement_effects.specs.declared.instruction.Operand.TheVariants as operands;

use crate::instruction::{
    Access, BitOperand, BitPlace, DataBit, DataBlockName, DataNumber, DataValue, LocalBit,
    LocalValue, Operand, ValueOperand, ValuePlace, Width,
};
use cpu_image::ByteArea;
use instruction_set::{OperandArea, OperandKind};
use s7_base::{BlockRef, CodeKind, Statement};

/// How many bytes an area always has.
fn size_of(area: ByteArea) -> u16
    ensures { result ≡ size_of area }
{
    match area {
        ByteArea::I | ByteArea::Q => 64,
        ByteArea::M => 1024,
        ByteArea::Db(_) => 0,
    }
}

impl Width {
    /// How many bytes a value has: 1, 2 or 4.
    pub fn bytes(self) -> u8
        ensures bytes { result ≡ bytes_in self }
        ensures width { IsWidth result }
    {
        match self {
            Width::Byte => 1,
            Width::Word => 2,
            Width::Double => 4,
        }
    }
}

pub(crate) fn is_in(s: &Statement, area: OperandArea) -> bool
    ensures { result ≡ is_in area s.now }
{
    s.area == area.number()
}

fn width_of(unit: u8) -> Option<Width>
    ensures { result ≡ width_of unit }
{
    match unit {
        8 => Some(Width::Byte),
        9 => Some(Width::Word),
        10 => Some(Width::Double),
        _ => None,
    }
}

fn bit_operand(area: ByteArea, s: &Statement) -> Option<Operand>
    requires { s.now.bit ≤ 7 }
    ensures operand { result ≡ bit_operand area s.now }
    ensures placed { IfSome result IsOperand }
{
    if s.value >= u32::from(size_of(area)) {
        return None;
    }
    Some(Operand::Bit(BitOperand::Area(BitPlace {
        area,
        at_byte: s.value as u16,
        bit: s.bit,
    })))
}

fn value_operand(area: ByteArea, s: &Statement) -> Option<Operand>
    ensures operand { result ≡ value_operand area s.now }
    ensures placed { IfSome result IsOperand }
{
    let width = width_of(s.bit)?;
    if u64::from(s.value) + u64::from(width.bytes()) > u64::from(size_of(area)) {
        return None;
    }
    Some(Operand::Value(ValueOperand::Area(ValuePlace {
        area,
        at_byte: s.value as u16,
        width,
    })))
}

/// A bit or a value of an area of bytes.
fn byte_operand(area: ByteArea, s: &Statement) -> Option<Operand>
    ensures operand { result ≡ byte_operand area s.now }
    ensures placed { IfSome result IsOperand }
{
    if s.bit <= 7 {
        bit_operand(area, s)
    } else {
        value_operand(area, s)
    }
}

/// A bit or a value of the local data.
fn local_operand(s: &Statement) -> Option<Operand>
    ensures operand { result ≡ local_operand s.now }
    ensures placed { IfSome result IsOperand }
{
    let at_byte = u8::try_from(s.value).ok()?;
    if s.bit > 7 {
        let width = width_of(s.bit)?;
        let place = LocalValue { at_byte, width };
        return Some(Operand::Value(ValueOperand::Local(place)));
    }
    let place = LocalBit {
        at_byte,
        bit: s.bit,
    };
    Some(Operand::Bit(BitOperand::Local(place)))
}

/// The data block that an operand of area DB names.
fn data_block_of(s: &Statement) -> Option<DataBlockName>
    ensures { result ≡ data_block_of s.now }
{
    if s.db == 0 {
        return Some(DataBlockName::Opened);
    }
    let number = u8::try_from(s.db).ok()?;
    Some(DataBlockName::Numbered(number))
}

/// A bit or a value of a data block.
fn data_operand(s: &Statement, block: DataBlockName) -> Option<Operand>
    ensures operand { result ≡ data_operand s.now block }
    ensures placed { IfSome result IsOperand }
{
    let at_byte = u16::try_from(s.value).ok()?;
    if s.bit > 7 {
        let width = width_of(s.bit)?;
        let place = DataValue {
            block,
            at_byte,
            width,
        };
        return Some(Operand::Value(ValueOperand::Data(place)));
    }
    let place = DataBit {
        block,
        at_byte,
        bit: s.bit,
    };
    Some(Operand::Bit(BitOperand::Data(place)))
}

/// A bit or a value of the data block that is opened as DB, or that the operand names.
fn named_data_operand(s: &Statement) -> Option<Operand>
    ensures operand { result ≡ named_data_operand s.now }
    ensures placed { IfSome result IsOperand }
{
    let block = data_block_of(s)?;
    data_operand(s, block)
}

/// A value of the peripherals.
fn access_of(s: &Statement) -> Option<Access>
    ensures { result ≡ access_of s.now }
{
    let addr = u16::try_from(s.value).ok()?;
    let width = width_of(s.bit)?;
    Some(Access { addr, width })
}

fn timer_operand(s: &Statement) -> Option<Operand>
    ensures operand { result ≡ up_to 255 operands.Timer s.now }
    ensures placed { IfSome result IsOperand }
{
    let number = u8::try_from(s.value).ok()?;
    Some(Operand::Timer(number))
}

fn counter_operand(s: &Statement) -> Option<Operand>
    ensures operand { result ≡ up_to 255 operands.Counter s.now }
    ensures placed { IfSome result IsOperand }
{
    let number = u8::try_from(s.value).ok()?;
    Some(Operand::Counter(number))
}

fn word_operand(s: &Statement) -> Option<Operand>
    ensures operand { result ≡ up_to 65535 operands.Word s.now }
    ensures placed { IfSome result IsOperand }
{
    let word = u16::try_from(s.value).ok()?;
    Some(Operand::Word(word))
}

fn status_operand(s: &Statement) -> Option<Operand>
    ensures operand { result ≡ up_to 9 operands.Status s.now }
    ensures placed { IfSome result IsOperand }
{
    if s.value > 9 {
        return None;
    }
    Some(Operand::Status(s.value as u8))
}

/// The block of a kind that is called.
fn block_operand(kind: CodeKind, s: &Statement) -> Option<Operand>
    ensures operand { result ≡ block_operand kind s.now }
    ensures placed { IfSome result IsOperand }
{
    let number = u8::try_from(s.value).ok()?;
    Some(Operand::Block(BlockRef { kind, number }))
}

/// The length or the number of an opened data block.
fn data_number_of(s: &Statement) -> Option<Operand>
    ensures operand { result ≡ data_number_of s.now }
    ensures placed { IfSome result IsOperand }
{
    if is_in(s, OperandArea::DataLength) {
        Some(Operand::DataNumber(DataNumber::Length))
    } else if is_in(s, OperandArea::DataNumber) {
        Some(Operand::DataNumber(DataNumber::Number))
    } else if is_in(s, OperandArea::InstanceLength) {
        Some(Operand::DataNumber(DataNumber::InstanceLength))
    } else if is_in(s, OperandArea::InstanceNumber) {
        Some(Operand::DataNumber(DataNumber::InstanceNumber))
    } else {
        None
    }
}

/// An operand that is none of the areas of bytes.
fn other_operand(s: &Statement) -> Option<Operand>
    ensures operand { result ≡ other_operand s.now }
    ensures placed { IfSome result IsOperand }
{
    if is_in(s, OperandArea::Nothing) {
        Some(Operand::Nothing)
    } else if is_in(s, OperandArea::Timer) {
        timer_operand(s)
    } else if is_in(s, OperandArea::Counter) {
        counter_operand(s)
    } else if is_in(s, OperandArea::Word) {
        word_operand(s)
    } else if is_in(s, OperandArea::DoubleWord) {
        Some(Operand::DoubleWord(s.value))
    } else if is_in(s, OperandArea::Target) {
        Some(Operand::Target(s.value))
    } else if is_in(s, OperandArea::Status) {
        status_operand(s)
    } else if is_in(s, OperandArea::StatusWord) {
        Some(Operand::StatusWord)
    } else if is_in(s, OperandArea::Function) {
        block_operand(CodeKind::Fc, s)
    } else if is_in(s, OperandArea::FunctionBlock) {
        block_operand(CodeKind::Fb, s)
    } else if is_in(s, OperandArea::SystemFunction) {
        Some(Operand::SystemFunction)
    } else {
        data_number_of(s)
    }
}

/// The operand of a statement, as its area says.
fn operand_of(s: &Statement) -> Option<Operand>
    ensures operand { result ≡ operand_of s.now }
    ensures placed { IfSome result IsOperand }
{
    if is_in(s, OperandArea::Inputs) {
        byte_operand(ByteArea::I, s)
    } else if is_in(s, OperandArea::Outputs) {
        byte_operand(ByteArea::Q, s)
    } else if is_in(s, OperandArea::Memory) {
        byte_operand(ByteArea::M, s)
    } else if is_in(s, OperandArea::Local) {
        local_operand(s)
    } else if is_in(s, OperandArea::Data) {
        named_data_operand(s)
    } else if is_in(s, OperandArea::Instance) {
        data_operand(s, DataBlockName::Instance)
    } else if is_in(s, OperandArea::PeripheralIn) {
        let access = access_of(s)?;
        Some(Operand::PeripheralIn(access))
    } else if is_in(s, OperandArea::PeripheralOut) {
        let access = access_of(s)?;
        Some(Operand::PeripheralOut(access))
    } else {
        other_operand(s)
    }
}

/// The data block that is opened as DB.
fn opened_block(s: &Statement) -> Option<Operand>
    ensures operand { result ≡ opened_operand areas.Data operands.DataBlock s.now }
    ensures placed { IfSome result IsOperand }
{
    if !is_in(s, OperandArea::Data) {
        return None;
    }
    let number = u8::try_from(s.value).ok()?;
    Some(Operand::DataBlock(number))
}

/// The data block that is opened as DI.
fn opened_instance(s: &Statement) -> Option<Operand>
    ensures operand { result ≡ opened_operand areas.Instance operands.InstanceBlock s.now }
    ensures placed { IfSome result IsOperand }
{
    if !is_in(s, OperandArea::Instance) {
        return None;
    }
    let number = u8::try_from(s.value).ok()?;
    Some(Operand::InstanceBlock(number))
}

/// A function block that is called with a data block.
fn block_with_data(s: &Statement) -> Option<Operand>
    ensures operand { result ≡ block_with_data s.now }
    ensures placed { IfSome result IsOperand }
{
    if !is_in(s, OperandArea::FunctionBlock) {
        return None;
    }
    let number = u8::try_from(s.value).ok()?;
    let data = u8::try_from(s.db).ok()?;
    let kind = CodeKind::Fb;
    Some(Operand::BlockWithData(BlockRef { kind, number }, data))
}

/// The operand of an operation that takes this kind.
pub(crate) fn operand_for(kind: OperandKind, s: &Statement) -> Option<Operand>
    ensures operand { result ≡ operand_for kind s.now }
    ensures placed { IfSome result IsOperand }
{
    match kind {
        OperandKind::DataBlock => opened_block(s),
        OperandKind::InstanceBlock => opened_instance(s),
        OperandKind::FunctionBlockWithData => block_with_data(s),
        _ => operand_of(s),
    }
}
