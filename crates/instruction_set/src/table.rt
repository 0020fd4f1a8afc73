//! The instruction set in one table.
ghost use Rattle.std.specs.Prelude.{◌≡◌, slice_get, IsSomeAnd};
ghost use Rattle.instruction_set.specs.InstructionSet.{instruction_set};
ghost use Rattle.instruction_set.specs.Rows.{row_of};
ghost use Rattle.instruction_set.specs.declared.operation.Operation.TheVariants as operations;

use crate::operands::OperandKind;
use crate::operation::{
    BitWrite, BlockOperation, Check, Cmp, Edge, Jump, MasterControl, Move, NoOperation, Num,
    Operation, RloOperation, Shift, TimerKind, Word, WordSize,
};

/// A row of the instruction set: an operation, its mnemonic (zero-padded), and the operands that it
/// takes. The place of the row in the set is the operation's number.
#[derive(Clone, Copy, Debug, PartialEq, Eq)]
pub struct InstructionRow {
    pub operation: Operation,
    pub mnemonic: [u8; 5],
    pub operand: OperandKind,
}

macro_rules! rows {
    ($($mnemonic:literal $operation:ident $(($($part:expr),*))?, $kind:ident $(($number:literal))?;)*) => {
        [$(InstructionRow {
            operation: Operation::$operation $(($($part),*))?,
            mnemonic: *$mnemonic,
            operand: OperandKind::$kind $(($number))?,
        }),*]
    };
}

const INSTRUCTIONS: [InstructionRow; 128] = rows! {
    b"A\0\0\0\0" Check(Check::And), CheckedBit;
    b"AN\0\0\0" Check(Check::AndNot), CheckedBit;
    b"O\0\0\0\0" Check(Check::Or), CheckedBit;
    b"ON\0\0\0" Check(Check::OrNot), CheckedBit;
    b"X\0\0\0\0" Check(Check::Xor), CheckedBit;
    b"XN\0\0\0" Check(Check::XorNot), CheckedBit;
    b"O\0\0\0\0" AndBeforeOr, Nothing;
    b"A(\0\0\0" Open(Check::And), Nothing;
    b"AN(\0\0" Open(Check::AndNot), Nothing;
    b"O(\0\0\0" Open(Check::Or), Nothing;
    b"ON(\0\0" Open(Check::OrNot), Nothing;
    b"X(\0\0\0" Open(Check::Xor), Nothing;
    b"XN(\0\0" Open(Check::XorNot), Nothing;
    b")\0\0\0\0" Close, Nothing;
    b"=\0\0\0\0" Write(BitWrite::Assign), WrittenBit;
    b"S\0\0\0\0" Write(BitWrite::Set), SetBit;
    b"R\0\0\0\0" Write(BitWrite::Reset), ResetBit;
    b"NOT\0\0" Rlo(RloOperation::NegateRlo), Nothing;
    b"SET\0\0" Rlo(RloOperation::SetRlo), Nothing;
    b"CLR\0\0" Rlo(RloOperation::ClearRlo), Nothing;
    b"SAVE\0" Rlo(RloOperation::SaveRlo), Nothing;
    b"FP\0\0\0" Edge(Edge::Rising), WrittenBit;
    b"FN\0\0\0" Edge(Edge::Falling), WrittenBit;
    b"MCRA\0" MasterControl(MasterControl::Activate), Nothing;
    b"MCRD\0" MasterControl(MasterControl::Deactivate), Nothing;
    b"MCR(\0" MasterControl(MasterControl::OpenZone), Nothing;
    b")MCR\0" MasterControl(MasterControl::CloseZone), Nothing;
    b"L\0\0\0\0" Load, Loaded;
    b"T\0\0\0\0" Transfer, Stored;
    b"LC\0\0\0" LoadCoded, Coded;
    b"PUSH\0" Move(Move::Push), Nothing;
    b"POP\0\0" Move(Move::Pop), Nothing;
    b"ENT\0\0" Move(Move::Ent), Nothing;
    b"LEAVE" Move(Move::Leave), Nothing;
    b"TAK\0\0" Move(Move::Tak), Nothing;
    b"CAW\0\0" Move(Move::Caw), Nothing;
    b"CAD\0\0" Move(Move::Cad), Nothing;
    b"INC\0\0" Increment, UpTo(255);
    b"DEC\0\0" Decrement, UpTo(255);
    b"+\0\0\0\0" AddConstant, Addend;
    b"+I\0\0\0" Number(Num::AddI), Nothing;
    b"-I\0\0\0" Number(Num::SubI), Nothing;
    b"*I\0\0\0" Number(Num::MulI), Nothing;
    b"/I\0\0\0" Number(Num::DivI), Nothing;
    b"+D\0\0\0" Number(Num::AddD), Nothing;
    b"-D\0\0\0" Number(Num::SubD), Nothing;
    b"*D\0\0\0" Number(Num::MulD), Nothing;
    b"/D\0\0\0" Number(Num::DivD), Nothing;
    b"MOD\0\0" Number(Num::ModD), Nothing;
    b"NEGI\0" Number(Num::NegI), Nothing;
    b"NEGD\0" Number(Num::NegD), Nothing;
    b"INVI\0" Move(Move::Invi), Nothing;
    b"INVD\0" Move(Move::Invd), Nothing;
    b"BTI\0\0" FromBcd(WordSize::Word), Nothing;
    b"ITB\0\0" ToBcd(WordSize::Word), Nothing;
    b"BTD\0\0" FromBcd(WordSize::DoubleWord), Nothing;
    b"DTB\0\0" ToBcd(WordSize::DoubleWord), Nothing;
    b"ITD\0\0" Move(Move::Itd), Nothing;
    b"==I\0\0" Compare(Cmp::Eq, WordSize::Word), Nothing;
    b"<>I\0\0" Compare(Cmp::Ne, WordSize::Word), Nothing;
    b">I\0\0\0" Compare(Cmp::Gt, WordSize::Word), Nothing;
    b"<I\0\0\0" Compare(Cmp::Lt, WordSize::Word), Nothing;
    b">=I\0\0" Compare(Cmp::Ge, WordSize::Word), Nothing;
    b"<=I\0\0" Compare(Cmp::Le, WordSize::Word), Nothing;
    b"==D\0\0" Compare(Cmp::Eq, WordSize::DoubleWord), Nothing;
    b"<>D\0\0" Compare(Cmp::Ne, WordSize::DoubleWord), Nothing;
    b">D\0\0\0" Compare(Cmp::Gt, WordSize::DoubleWord), Nothing;
    b"<D\0\0\0" Compare(Cmp::Lt, WordSize::DoubleWord), Nothing;
    b">=D\0\0" Compare(Cmp::Ge, WordSize::DoubleWord), Nothing;
    b"<=D\0\0" Compare(Cmp::Le, WordSize::DoubleWord), Nothing;
    b"AW\0\0\0" WordLogic(Word::And, WordSize::Word), AtMost(65535);
    b"OW\0\0\0" WordLogic(Word::Or, WordSize::Word), AtMost(65535);
    b"XOW\0\0" WordLogic(Word::Xor, WordSize::Word), AtMost(65535);
    b"AD\0\0\0" WordLogic(Word::And, WordSize::DoubleWord), Mask;
    b"OD\0\0\0" WordLogic(Word::Or, WordSize::DoubleWord), Mask;
    b"XOD\0\0" WordLogic(Word::Xor, WordSize::DoubleWord), Mask;
    b"SSI\0\0" Shift(Shift::Ssi), AtMost(15);
    b"SLW\0\0" Shift(Shift::Slw), AtMost(15);
    b"SRW\0\0" Shift(Shift::Srw), AtMost(15);
    b"SSD\0\0" Shift(Shift::Ssd), AtMost(32);
    b"SLD\0\0" Shift(Shift::Sld), AtMost(32);
    b"SRD\0\0" Shift(Shift::Srd), AtMost(32);
    b"RLD\0\0" Shift(Shift::Rld), AtMost(32);
    b"RRD\0\0" Shift(Shift::Rrd), AtMost(32);
    b"JU\0\0\0" Jump(Jump::Ju), Target;
    b"JL\0\0\0" JumpList, Target;
    b"JC\0\0\0" Jump(Jump::Jc), Target;
    b"JCN\0\0" Jump(Jump::Jcn), Target;
    b"JCB\0\0" Jump(Jump::Jcb), Target;
    b"JNB\0\0" Jump(Jump::Jnb), Target;
    b"JBI\0\0" Jump(Jump::Jbi), Target;
    b"JNBI\0" Jump(Jump::Jnbi), Target;
    b"JO\0\0\0" Jump(Jump::Jo), Target;
    b"JOS\0\0" Jump(Jump::Jos), Target;
    b"JZ\0\0\0" Jump(Jump::Jz), Target;
    b"JN\0\0\0" Jump(Jump::Jn), Target;
    b"JP\0\0\0" Jump(Jump::Jp), Target;
    b"JM\0\0\0" Jump(Jump::Jm), Target;
    b"JPZ\0\0" Jump(Jump::Jpz), Target;
    b"JMZ\0\0" Jump(Jump::Jmz), Target;
    b"JUO\0\0" Jump(Jump::Juo), Target;
    b"LOOP\0" Loop, Target;
    b"SP\0\0\0" StartTimer(TimerKind::Sp), Timer;
    b"SE\0\0\0" StartTimer(TimerKind::Se), Timer;
    b"SD\0\0\0" StartTimer(TimerKind::Sd), Timer;
    b"SS\0\0\0" StartTimer(TimerKind::Ss), Timer;
    b"SF\0\0\0" StartTimer(TimerKind::Sf), Timer;
    b"FR\0\0\0" EnableTimer, Timer;
    b"CU\0\0\0" CountUp, Counter;
    b"CD\0\0\0" CountDown, Counter;
    b"FR\0\0\0" EnableCounter, Counter;
    b"OPN\0\0" Block(BlockOperation::OpenData), DataBlock;
    b"OPN\0\0" Block(BlockOperation::OpenInstance), InstanceBlock;
    b"CDB\0\0" Block(BlockOperation::ExchangeData), Nothing;
    b"CALL\0" Block(BlockOperation::CallFunction), Function;
    b"CALL\0" Block(BlockOperation::CallFunctionBlock), FunctionBlockWithData;
    b"CALL\0" Block(BlockOperation::CallRetrigger), SystemFunction(43);
    b"CALL\0" Block(BlockOperation::CallStop), SystemFunction(46);
    b"UC\0\0\0" Block(BlockOperation::UnconditionalCallFunction), Function;
    b"UC\0\0\0" Block(BlockOperation::UnconditionalCallFunctionBlock), FunctionBlock;
    b"CC\0\0\0" Block(BlockOperation::ConditionalCallFunction), Function;
    b"CC\0\0\0" Block(BlockOperation::ConditionalCallFunctionBlock), FunctionBlock;
    b"BE\0\0\0" Block(BlockOperation::End), Nothing;
    b"BEC\0\0" Block(BlockOperation::ConditionalEnd), Nothing;
    b"BEU\0\0" Block(BlockOperation::UnconditionalEnd), Nothing;
    b"NOP\0\0" NoOperation(NoOperation::Nop0), Exactly(0);
    b"NOP\0\0" NoOperation(NoOperation::Nop1), Exactly(1);
    b"BLD\0\0" NoOperation(NoOperation::Display), UpTo(255);
};

/// The instruction set, in the order of the operations' numbers.
pub fn instruction_set() -> &'static [InstructionRow; 128]
    ensures { result.now ≡ instruction_set }
{
    &INSTRUCTIONS
}

fn row_at(rows: &[InstructionRow], number: u16) -> Option<InstructionRow>
    ensures { result ≡ slice_get rows.now number }
{
    rows.get(usize::from(number)).copied()
}

/// The row of an operation's number. None exactly where no operation has it.
#[tactic(auto, unfolding(crate::specs::Rows::row_of))]
pub fn instruction_row(number: u16) -> Option<InstructionRow>
    ensures { result ≡ row_of number }
{
    row_at(instruction_set(), number)
}

/// The number of a statement that moves or changes accumulators.
#[tactic(auto, unfolding(crate::specs::Rows::row_of))]
fn move_number(op: Move) -> u16
    ensures { IsSomeAnd (row_of result) (λ row. row.operation ≡ operations.Move op) }
{
    match op {
        Move::Push => 30,
        Move::Pop => 31,
        Move::Ent => 32,
        Move::Leave => 33,
        Move::Tak => 34,
        Move::Caw => 35,
        Move::Cad => 36,
        Move::Invi => 51,
        Move::Invd => 52,
        Move::Itd => 57,
    }
}

/// The number of a shift or rotation.
#[tactic(auto, unfolding(crate::specs::Rows::row_of))]
fn shift_number(op: Shift) -> u16
    ensures { IsSomeAnd (row_of result) (λ row. row.operation ≡ operations.Shift op) }
{
    match op {
        Shift::Ssi => 76,
        Shift::Slw => 77,
        Shift::Srw => 78,
        Shift::Ssd => 79,
        Shift::Sld => 80,
        Shift::Srd => 81,
        Shift::Rld => 82,
        Shift::Rrd => 83,
    }
}

/// The number of a jump: JL stands between JU and the others.
#[tactic(auto, unfolding(crate::specs::Rows::row_of))]
fn jump_number(op: Jump) -> u16
    ensures { IsSomeAnd (row_of result) (λ row. row.operation ≡ operations.Jump op) }
{
    match op {
        Jump::Ju => 84,
        Jump::Jc => 86,
        Jump::Jcn => 87,
        Jump::Jcb => 88,
        Jump::Jnb => 89,
        Jump::Jbi => 90,
        Jump::Jnbi => 91,
        Jump::Jo => 92,
        Jump::Jos => 93,
        Jump::Jz => 94,
        Jump::Jn => 95,
        Jump::Jp => 96,
        Jump::Jm => 97,
        Jump::Jpz => 98,
        Jump::Jmz => 99,
        Jump::Juo => 100,
    }
}

impl Operation {
    /// The number of the operation: the place of its row.
    #[tactic(auto, unfolding(crate::specs::Rows::row_of))]
    pub fn number(self) -> u16
        ensures { IsSomeAnd (row_of result) (λ row. row.operation ≡ self) }
    {
        match self {
            Operation::Check(how) => how as u16,
            Operation::AndBeforeOr => 6,
            Operation::Open(how) => 7 + how as u16,
            Operation::Close => 13,
            Operation::Write(op) => 14 + op as u16,
            Operation::Rlo(op) => 17 + op as u16,
            Operation::Edge(edge) => 21 + edge as u16,
            Operation::MasterControl(op) => 23 + op as u16,
            Operation::Load => 27,
            Operation::Transfer => 28,
            Operation::LoadCoded => 29,
            Operation::Move(op) => move_number(op),
            Operation::Increment => 37,
            Operation::Decrement => 38,
            Operation::AddConstant => 39,
            Operation::Number(op) => 40 + op as u16,
            Operation::FromBcd(size) => 53 + 2 * size as u16,
            Operation::ToBcd(size) => 54 + 2 * size as u16,
            Operation::Compare(relation, size) => 58 + relation as u16 + 6 * size as u16,
            Operation::WordLogic(op, size) => 70 + op as u16 + 3 * size as u16,
            Operation::Shift(op) => shift_number(op),
            Operation::Jump(op) => jump_number(op),
            Operation::JumpList => 85,
            Operation::Loop => 101,
            Operation::StartTimer(kind) => 102 + kind as u16,
            Operation::EnableTimer => 107,
            Operation::CountUp => 108,
            Operation::CountDown => 109,
            Operation::EnableCounter => 110,
            Operation::Block(op) => 111 + op as u16,
            Operation::NoOperation(op) => 125 + op as u16,
        }
    }
}
