//! The kinds of operands, and the areas that stored operands name.
ghost use Rattle.std.specs.Prelude.{◌≡◌};
ghost use Rattle.instruction_set.specs.Areas.{area_number};

/// The operands that an operation takes.
#[derive(Clone, Copy, Debug, PartialEq, Eq)]
pub enum OperandKind {
    /// No operand.
    Nothing,
    /// A bit of memory, a timer, a counter, or a status operand.
    CheckedBit,
    /// A bit of memory.
    WrittenBit,
    /// A bit of memory or a counter.
    SetBit,
    /// A bit of memory, a timer or a counter.
    ResetBit,
    /// A value of memory or of the peripheral inputs, a constant, a timer, a counter, the status word, or the
    /// length or number of an opened data block.
    Loaded,
    /// A value of memory or of the peripheral outputs, or the status word.
    Stored,
    /// A timer or a counter.
    Coded,
    /// A constant of 16 or of 32 bits.
    Addend,
    /// A constant of 16 bits, at most this.
    UpTo(u16),
    /// This constant of 16 bits.
    Exactly(u16),
    /// Nothing, or a constant of 16 bits, at most this.
    AtMost(u16),
    /// Nothing, or a constant of 32 bits.
    Mask,
    /// The target of a jump.
    Target,
    /// A timer.
    Timer,
    /// A counter.
    Counter,
    /// A data block to open as DB.
    DataBlock,
    /// A data block to open as DI.
    InstanceBlock,
    /// A function.
    Function,
    /// A function block.
    FunctionBlock,
    /// A function block with its data block.
    FunctionBlockWithData,
    /// The system function of this number.
    SystemFunction(u16),
}

/// The area that a stored operand names.
#[derive(Clone, Copy, Debug, PartialEq, Eq)]
pub enum OperandArea {
    /// No operand.
    Nothing,
    /// Inputs, bytes 0 to 63.
    Inputs,
    /// Outputs, bytes 0 to 63.
    Outputs,
    /// Bit memory, bytes 0 to 1,023.
    Memory,
    /// The local data of the block.
    Local,
    /// The data block opened as DB, or the one that is named.
    Data,
    /// The data block opened as DI.
    Instance,
    /// Peripheral inputs, bytes 0 to 1,023.
    PeripheralIn,
    /// Peripheral outputs, bytes 0 to 1,023.
    PeripheralOut,
    Timer,
    Counter,
    /// A constant of 16 bits.
    Word,
    /// A constant of 32 bits.
    DoubleWord,
    /// The number of a statement of the block.
    Target,
    /// A status operand: `BR OV OS UO ==0 <>0 >0 <0 >=0 <=0`, from 0.
    Status,
    /// The status word.
    StatusWord,
    Function,
    FunctionBlock,
    SystemFunction,
    /// The length of the data block opened as DB.
    DataLength,
    /// The number of the data block opened as DB.
    DataNumber,
    /// The length of the data block opened as DI.
    InstanceLength,
    /// The number of the data block opened as DI.
    InstanceNumber,
}

impl OperandArea {
    /// The number of the area in a stored statement.
    pub fn number(self) -> u8
        ensures { result ≡ area_number self }
    {
        match self {
            OperandArea::Nothing => 0,
            OperandArea::Inputs => 1,
            OperandArea::Outputs => 2,
            OperandArea::Memory => 3,
            OperandArea::Local => 4,
            OperandArea::Data => 5,
            OperandArea::Instance => 6,
            OperandArea::PeripheralIn => 7,
            OperandArea::PeripheralOut => 8,
            OperandArea::Timer => 9,
            OperandArea::Counter => 10,
            OperandArea::Word => 11,
            OperandArea::DoubleWord => 12,
            OperandArea::Target => 13,
            OperandArea::Status => 14,
            OperandArea::StatusWord => 15,
            OperandArea::Function => 16,
            OperandArea::FunctionBlock => 17,
            OperandArea::SystemFunction => 18,
            OperandArea::DataLength => 19,
            OperandArea::DataNumber => 20,
            OperandArea::InstanceLength => 21,
            OperandArea::InstanceNumber => 22,
        }
    }
}
