//! What a statement means: instructions, by groups.

use accumulators::{Move, Num, Shift, Word};
use cpu_image::ByteArea;
use instruction_set::{BitWrite, Edge, MasterControl, RloOperation};
use s7_base::BlockRef;
use status_word::{Check, Cmp, Jump};
use timers::TimerKind;

/// A bit of an area: the byte lies in the area, and the bit is 0 to 7.
#[derive(Clone, Copy, Debug, PartialEq, Eq)]
pub struct BitPlace {
    pub area: ByteArea,
    pub at_byte: u16,
    pub bit: u8,
}

/// How wide a value is: one, two or four bytes.
#[derive(Clone, Copy, Debug, PartialEq, Eq)]
pub enum Width {
    Byte,
    Word,
    Double,
}

/// A value of an area, by its first byte; all its bytes lie in the area.
#[derive(Clone, Copy, Debug, PartialEq, Eq)]
pub struct ValuePlace {
    pub area: ByteArea,
    pub at_byte: u16,
    pub width: Width,
}

/// A bit of the local data of the block that runs: the byte is 0 to 255, and the bit is 0 to 7.
#[derive(Clone, Copy, Debug, PartialEq, Eq)]
pub struct LocalBit {
    pub at_byte: u8,
    pub bit: u8,
}

/// A value of the local data of the block that runs, by its first byte, 0 to 255.
#[derive(Clone, Copy, Debug, PartialEq, Eq)]
pub struct LocalValue {
    pub at_byte: u8,
    pub width: Width,
}

/// A direct access to the peripherals, by the address of its first byte, 0 to 65,535.
#[derive(Clone, Copy, Debug, PartialEq, Eq)]
pub struct Access {
    pub addr: u16,
    pub width: Width,
}

/// The data block that an operand names: the one that is opened as DB, or as DI, or that of a number, as `DBn.` does.
#[derive(Clone, Copy, Debug, PartialEq, Eq)]
pub enum DataBlockName {
    Opened,
    Instance,
    Numbered(u8),
}

/// A bit of a data block: the byte is 0 to 65,535, and the bit is 0 to 7.
#[derive(Clone, Copy, Debug, PartialEq, Eq)]
pub struct DataBit {
    pub block: DataBlockName,
    pub at_byte: u16,
    pub bit: u8,
}

/// A value of a data block, by its first byte, 0 to 65,535.
#[derive(Clone, Copy, Debug, PartialEq, Eq)]
pub struct DataValue {
    pub block: DataBlockName,
    pub at_byte: u16,
    pub width: Width,
}

/// A bit that a statement names. Its place is found when the statement is executed.
#[derive(Clone, Copy, Debug, PartialEq, Eq)]
pub enum BitOperand {
    /// A bit of an area whose bytes are always there.
    Area(BitPlace),
    /// A bit of the local data of the block that runs.
    Local(LocalBit),
    /// A bit of a data block, which may be missing or too short.
    Data(DataBit),
}

/// A value that a statement names. Its place is found when the statement is executed.
#[derive(Clone, Copy, Debug, PartialEq, Eq)]
pub enum ValueOperand {
    /// A value of an area whose bytes are always there.
    Area(ValuePlace),
    /// A value of the local data of the block that runs.
    Local(LocalValue),
    /// A value of a data block, which may be missing or too short.
    Data(DataValue),
}

/// The operand of a statement.
#[derive(Clone, Copy, Debug, PartialEq, Eq)]
pub enum Operand {
    /// None.
    Nothing,
    Bit(BitOperand),
    Value(ValueOperand),
    /// A value of the peripheral inputs.
    PeripheralIn(Access),
    /// A value of the peripheral outputs.
    PeripheralOut(Access),
    /// The timer of this number.
    Timer(u8),
    /// The counter of this number.
    Counter(u8),
    /// A constant of 16 bits.
    Word(u16),
    /// A constant of 32 bits.
    DoubleWord(u32),
    /// The number of a statement of the block.
    Target(u32),
    /// The status operand of this number, 0 to 9: `BR OV OS UO ==0 <>0 >0 <0 >=0 <=0`.
    Status(u8),
    /// `STW`
    StatusWord,
    /// A block that is called.
    Block(BlockRef),
    /// A system function. The operation says which.
    SystemFunction,
    /// A function block that is called, with the number of its data block.
    BlockWithData(BlockRef, u8),
    /// The data block of this number, to open as DB.
    DataBlock(u8),
    /// The data block of this number, to open as DI.
    InstanceBlock(u8),
    /// The length or the number of an opened data block.
    DataNumber(DataNumber),
}

/// Statements on a bit.
#[derive(Clone, Copy, Debug, PartialEq, Eq)]
pub enum BitInstruction {
    /// `A AN O ON X XN`
    Check(Check),
    /// `= S R`
    Write(BitWrite),
    /// `FP FN`
    Edge(Edge),
}

/// Statements on the status word alone.
#[derive(Clone, Copy, Debug, PartialEq, Eq)]
pub enum StatusInstruction {
    /// `A AN O ON X XN` with the status operand of this number, 0 to 9
    Check(Check, u8),
    /// `O` alone
    OrAlone,
    /// `NOT SET CLR SAVE`
    Rlo(RloOperation),
}

/// Brackets of logic, and the master control relay (MCR).
#[derive(Clone, Copy, Debug, PartialEq, Eq)]
pub enum GroupInstruction {
    /// `A( AN( O( ON( X( XN(`
    Open(Check),
    /// `)`
    Close,
    /// `MCRA MCRD MCR( )MCR`
    MasterControl(MasterControl),
}

/// Loads and transfers of values.
#[derive(Clone, Copy, Debug, PartialEq, Eq)]
pub enum MoveInstruction {
    /// `L`
    Load,
    /// `T`
    Store,
}

/// Loads and transfers without a place.
#[derive(Clone, Copy, Debug, PartialEq, Eq)]
pub enum DirectInstruction {
    /// `L` of a constant
    LoadConstant(u32),
    /// `L STW`
    LoadStatus,
    /// `T STW`
    StoreStatus,
}

/// Statements that move or change accumulators and leave the status word.
#[derive(Clone, Copy, Debug, PartialEq, Eq)]
pub enum AccuInstruction {
    /// `PUSH POP ENT LEAVE TAK CAW CAD INVI INVD ITD`
    Move(Move),
    /// `INC`, or `DEC` where it counts down
    Count { by: u8, down: bool },
    /// `+` with a constant of 16, or where it is wide of 32 bits
    Add { value: i32, wide: bool },
}

/// Statements on numbers.
#[derive(Clone, Copy, Debug, PartialEq, Eq)]
pub enum NumberInstruction {
    /// `+I -I *I /I +D -D *D /D MOD NEGI NEGD`
    Work(Num),
    /// `BTI`, or where it is wide `BTD`
    FromBcd(bool),
    /// `ITB`, or where it is wide `DTB`
    ToBcd(bool),
    /// `==I` and the like, or where it is wide `==D` and the like
    Compare(Cmp, bool),
}

/// Logic and shifts of words.
#[derive(Clone, Copy, Debug, PartialEq, Eq)]
pub enum WordInstruction {
    /// `AW OW XOW`, or where it is wide `AD OD XOD`: with a constant, or with ACCU2
    Logic {
        op: Word,
        wide: bool,
        constant: Option<u32>,
    },
    /// `SSI SLW SRW SSD SLD SRD RLD RRD`: by a count, or by that in ACCU2
    Shift(Shift, Option<u8>),
}

/// Jumps, each with the number of its target.
#[derive(Clone, Copy, Debug, PartialEq, Eq)]
pub enum JumpInstruction {
    /// A jump that the status word decides
    When(Jump, u32),
    /// `JL`
    List(u32),
    /// `LOOP`
    Loop(u32),
}

/// What is done to a timer apart from its moment.
#[derive(Clone, Copy, Debug, PartialEq, Eq)]
pub enum TimerOperation {
    /// `R`
    Reset,
    /// `FR`
    Enable,
}

/// What is done to a timer at a moment, which is asked for.
#[derive(Clone, Copy, Debug, PartialEq, Eq)]
pub enum TimedOperation {
    /// `SP SE SD SS SF`
    Start(TimerKind),
    /// `A AN O ON X XN`
    Check(Check),
    /// `L`
    Load,
    /// `LC`
    LoadCoded,
}

/// What is done to a counter.
#[derive(Clone, Copy, Debug, PartialEq, Eq)]
pub enum CounterOperation {
    /// `CU`
    Up,
    /// `CD`
    Down,
    /// `S`
    Set,
    /// `R`
    Reset,
    /// `FR`
    Enable,
    /// `A AN O ON X XN`
    Check(Check),
    /// `L`
    Load,
    /// `LC`
    LoadCoded,
}

/// What `L` loads of the data blocks that are opened.
#[derive(Clone, Copy, Debug, PartialEq, Eq)]
pub enum DataNumber {
    /// `DBLG`
    Length,
    /// `DBNO`
    Number,
    /// `DILG`
    InstanceLength,
    /// `DINO`
    InstanceNumber,
}

/// Statements on the data blocks that are opened.
#[derive(Clone, Copy, Debug, PartialEq, Eq)]
pub enum DataInstruction {
    /// `OPN DB n`
    Open(u8),
    /// `OPN DI n`
    OpenInstance(u8),
    /// `CDB`
    Exchange,
    /// `L` of a length or a number
    Load(DataNumber),
}

/// What a statement means.
#[derive(Clone, Copy, Debug, PartialEq, Eq)]
pub enum Instruction {
    Bit(BitInstruction, BitOperand),
    Status(StatusInstruction),
    Group(GroupInstruction),
    Move(MoveInstruction, ValueOperand),
    Direct(DirectInstruction),
    Accu(AccuInstruction),
    Number(NumberInstruction),
    Word(WordInstruction),
    Jump(JumpInstruction),
    /// A timer of this number.
    Timer(TimerOperation, u8),
    /// A timer of this number, at a moment.
    Timed(TimedOperation, u8),
    /// A counter of this number.
    Counter(CounterOperation, u8),
    Data(DataInstruction),
    /// `L PIB PIW PID`
    ReadPeripheral(Access),
    /// `T PQB PQW PQD`
    WritePeripheral(Access),
    /// `CALL` of an FC, `UC`
    Call(BlockRef),
    /// `CALL` of an FB with the data block of a number, which it opens as DI
    CallInstance(BlockRef, u8),
    /// `CC`
    CallWhenSet(BlockRef),
    /// `BE` and `BEU`
    End,
    /// `BEC`
    EndWhenSet,
    /// `CALL SFC 43`
    Retrigger,
    /// `CALL SFC 46`
    Stop,
    /// `NOP` and `BLD`
    Nothing,
}

/// The error of a digit above 9.
pub(crate) const BAD_DIGIT: u8 = 1;

/// The error of a data block that is not loaded, or where none is opened.
pub(crate) const NO_DATA_BLOCK: u8 = 8;

/// The error of an address past the end of its bytes.
pub(crate) const PAST_THE_END: u8 = 2;

/// Where a statement leads.
#[derive(Clone, Copy, Debug, PartialEq, Eq)]
pub enum Flow {
    /// To the next statement.
    Next,
    /// To the statement of this number.
    Jump(u32),
    /// To the jump of this number, from 0, of those that follow, or past the last of them to the target.
    Among { number: u8, target: u32 },
    /// Into the block that is called, at whose end the next statement follows.
    Call(BlockRef),
    /// Into the function block that is called, which opens the data block of this number as DI.
    CallInstance(BlockRef, u8),
    /// To the end of the block.
    End,
    /// To the error of this number; the statement changed nothing.
    Fail(u8),
    /// It asks for the moment first.
    AskNow,
    /// It asks first to start the monitoring of the cycle anew.
    AskRetrigger,
    /// It asks first for a value of the peripheral inputs.
    AskRead(Access),
    /// It asks first to write a value to the peripheral outputs.
    AskWrite(Access),
    /// To the stop of the CPU, which it asks for. The statement is not completed.
    Stop,
}
