//! What stored statements mean.
ghost use Rattle.std.specs.Prelude.{◌≡◌, Some, IfSome};
ghost use Rattle.statement_effects.specs.Reading.{bit_of, status_check_of, move_of, status_word_of, timer_of, timed_of, counter_of, logic, alone, system_function_of, means, instruction_of};
ghost use Rattle.statement_effects.specs.Placed.{IsOperand, HasOperand};
ghost use Rattle.statement_effects.specs.declared.instruction.Operand.TheVariants as operands;

use crate::decoding::operand_for;
use crate::instruction::{
    Access, AccuInstruction, BitInstruction, CounterOperation, DataInstruction, DataNumber,
    DirectInstruction, GroupInstruction, Instruction, JumpInstruction, MoveInstruction,
    NumberInstruction, Operand, StatusInstruction, TimedOperation, TimerOperation, WordInstruction,
};
use instruction_set::{
    BitWrite, BlockOperation, Check, Operation, Word, WordSize, instruction_row,
};
use s7_base::{BlockRef, Statement};

/// With a bit.
fn bit_of(op: Operation) -> Option<BitInstruction>
    ensures { result ≡ bit_of op }
{
    match op {
        Operation::Check(how) => Some(BitInstruction::Check(how)),
        Operation::Write(how) => Some(BitInstruction::Write(how)),
        Operation::Edge(edge) => Some(BitInstruction::Edge(edge)),
        _ => None,
    }
}

/// With a status operand.
fn status_check_of(op: Operation) -> Option<Check>
    ensures { result ≡ status_check_of op }
{
    match op {
        Operation::Check(how) => Some(how),
        _ => None,
    }
}

/// With a value.
fn move_of(op: Operation) -> Option<MoveInstruction>
    ensures { result ≡ move_of op }
{
    match op {
        Operation::Load => Some(MoveInstruction::Load),
        Operation::Transfer => Some(MoveInstruction::Store),
        _ => None,
    }
}

/// With a value of the peripheral inputs.
fn with_input_access(op: Operation, access: Access) -> Option<Instruction>
    ensures means { result ≡ means op (operands.PeripheralIn access) }
    ensures placed { IfSome result HasOperand }
{
    match op {
        Operation::Load => Some(Instruction::ReadPeripheral(access)),
        _ => None,
    }
}

/// With a value of the peripheral outputs.
fn with_output_access(op: Operation, access: Access) -> Option<Instruction>
    ensures means { result ≡ means op (operands.PeripheralOut access) }
    ensures placed { IfSome result HasOperand }
{
    match op {
        Operation::Transfer => Some(Instruction::WritePeripheral(access)),
        _ => None,
    }
}

/// With the status word.
fn status_word_of(op: Operation) -> Option<Instruction>
    ensures means { result ≡ status_word_of op }
    ensures placed { IfSome result HasOperand }
{
    match op {
        Operation::Load => Some(Instruction::Direct(DirectInstruction::LoadStatus)),
        Operation::Transfer => Some(Instruction::Direct(DirectInstruction::StoreStatus)),
        _ => None,
    }
}

/// With a timer, apart from its moment.
fn timer_of(op: Operation) -> Option<TimerOperation>
    ensures { result ≡ timer_of op }
{
    match op {
        Operation::Write(BitWrite::Reset) => Some(TimerOperation::Reset),
        Operation::EnableTimer => Some(TimerOperation::Enable),
        _ => None,
    }
}

/// With a timer at a moment.
fn timed_of(op: Operation) -> Option<TimedOperation>
    ensures { result ≡ timed_of op }
{
    match op {
        Operation::StartTimer(kind) => Some(TimedOperation::Start(kind)),
        Operation::Check(how) => Some(TimedOperation::Check(how)),
        Operation::Load => Some(TimedOperation::Load),
        Operation::LoadCoded => Some(TimedOperation::LoadCoded),
        _ => None,
    }
}

/// With a counter.
fn counter_of(op: Operation) -> Option<CounterOperation>
    ensures { result ≡ counter_of op }
{
    match op {
        Operation::CountUp => Some(CounterOperation::Up),
        Operation::CountDown => Some(CounterOperation::Down),
        Operation::Write(BitWrite::Set) => Some(CounterOperation::Set),
        Operation::Write(BitWrite::Reset) => Some(CounterOperation::Reset),
        Operation::EnableCounter => Some(CounterOperation::Enable),
        Operation::Check(how) => Some(CounterOperation::Check(how)),
        Operation::Load => Some(CounterOperation::Load),
        Operation::LoadCoded => Some(CounterOperation::LoadCoded),
        _ => None,
    }
}

fn logic(op: Word, size: WordSize, constant: Option<u32>) -> Instruction
    ensures means { result ≡ logic op size constant }
    ensures placed { HasOperand result }
{
    let wide = size.is_wide();
    Instruction::Word(WordInstruction::Logic { op, wide, constant })
}

/// With a constant of 16 bits; `INC`, `DEC` and shifts take its low byte.
fn with_word(op: Operation, word: u16) -> Option<Instruction>
    ensures means { result ≡ means op (operands.Word word) }
    ensures placed { IfSome result HasOperand }
{
    let by = (word % 256) as u8;
    match op {
        Operation::Load => Some(Instruction::Direct(DirectInstruction::LoadConstant(u32::from(
            word,
        )))),
        Operation::Increment => Some(Instruction::Accu(AccuInstruction::Count { by, down: false })),
        Operation::Decrement => Some(Instruction::Accu(AccuInstruction::Count { by, down: true })),
        Operation::AddConstant => {
            let value = i32::from(word.cast_signed());
            Some(Instruction::Accu(AccuInstruction::Add { value, wide: false }))
        }
        Operation::WordLogic(op, size) => Some(logic(op, size, Some(u32::from(word)))),
        Operation::Shift(op) => Some(Instruction::Word(WordInstruction::Shift(op, Some(by)))),
        Operation::NoOperation(_) => Some(Instruction::Nothing),
        _ => None,
    }
}

/// With a constant of 32 bits.
fn with_double_word(op: Operation, value: u32) -> Option<Instruction>
    ensures means { result ≡ means op (operands.DoubleWord value) }
    ensures placed { IfSome result HasOperand }
{
    match op {
        Operation::Load => Some(Instruction::Direct(DirectInstruction::LoadConstant(value))),
        Operation::AddConstant => {
            let value = value.cast_signed();
            Some(Instruction::Accu(AccuInstruction::Add { value, wide: true }))
        }
        Operation::WordLogic(op, size) => Some(logic(op, size, Some(value))),
        _ => None,
    }
}

/// With a target.
fn with_target(op: Operation, target: u32) -> Option<Instruction>
    ensures means { result ≡ means op (operands.Target target) }
    ensures placed { IfSome result HasOperand }
{
    match op {
        Operation::Jump(how) => Some(Instruction::Jump(JumpInstruction::When(how, target))),
        Operation::JumpList => Some(Instruction::Jump(JumpInstruction::List(target))),
        Operation::Loop => Some(Instruction::Jump(JumpInstruction::Loop(target))),
        _ => None,
    }
}

/// Alone; of the statements on blocks `CDB` and the ends.
fn alone(op: Operation) -> Option<Instruction>
    ensures means { result ≡ alone op }
    ensures placed { IfSome result HasOperand }
{
    match op {
        Operation::AndBeforeOr => Some(Instruction::Status(StatusInstruction::OrAlone)),
        Operation::Open(how) => Some(Instruction::Group(GroupInstruction::Open(how))),
        Operation::Close => Some(Instruction::Group(GroupInstruction::Close)),
        Operation::Rlo(op) => Some(Instruction::Status(StatusInstruction::Rlo(op))),
        Operation::MasterControl(op) => {
            Some(Instruction::Group(GroupInstruction::MasterControl(op)))
        }
        Operation::Move(op) => Some(Instruction::Accu(AccuInstruction::Move(op))),
        Operation::Number(op) => Some(Instruction::Number(NumberInstruction::Work(op))),
        Operation::FromBcd(size) => {
            Some(Instruction::Number(NumberInstruction::FromBcd(size.is_wide())))
        }
        Operation::ToBcd(size) => Some(Instruction::Number(NumberInstruction::ToBcd(
            size.is_wide(),
        ))),
        Operation::Compare(how, size) => {
            Some(Instruction::Number(NumberInstruction::Compare(how, size.is_wide())))
        }
        Operation::WordLogic(op, size) => Some(logic(op, size, None)),
        Operation::Shift(op) => Some(Instruction::Word(WordInstruction::Shift(op, None))),
        Operation::Block(BlockOperation::ExchangeData) => {
            Some(Instruction::Data(DataInstruction::Exchange))
        }
        Operation::Block(BlockOperation::End | BlockOperation::UnconditionalEnd) => {
            Some(Instruction::End)
        }
        Operation::Block(BlockOperation::ConditionalEnd) => Some(Instruction::EndWhenSet),
        _ => None,
    }
}

/// With the timer of a number.
fn with_timer(op: Operation, n: u8) -> Option<Instruction>
    ensures means { result ≡ means op (operands.Timer n) }
    ensures placed { IfSome result HasOperand }
{
    if let Some(op) = timer_of(op) {
        return Some(Instruction::Timer(op, n));
    }
    let op = timed_of(op)?;
    Some(Instruction::Timed(op, n))
}

/// With a block that is called.
fn with_block(op: Operation, callee: BlockRef) -> Option<Instruction>
    ensures means { result ≡ means op (operands.Block callee) }
    ensures placed { IfSome result HasOperand }
{
    match op {
        Operation::Block(
            BlockOperation::CallFunction
            | BlockOperation::UnconditionalCallFunction
            | BlockOperation::UnconditionalCallFunctionBlock,
        ) => Some(Instruction::Call(callee)),
        Operation::Block(
            BlockOperation::ConditionalCallFunction | BlockOperation::ConditionalCallFunctionBlock,
        ) => Some(Instruction::CallWhenSet(callee)),
        _ => None,
    }
}

/// With a system function.
fn system_function_of(op: Operation) -> Option<Instruction>
    ensures means { result ≡ system_function_of op }
    ensures placed { IfSome result HasOperand }
{
    match op {
        Operation::Block(BlockOperation::CallRetrigger) => Some(Instruction::Retrigger),
        Operation::Block(BlockOperation::CallStop) => Some(Instruction::Stop),
        _ => None,
    }
}

/// With a function block that is called and the number of its data block.
fn with_block_and_data(op: Operation, callee: BlockRef, number: u8) -> Option<Instruction>
    ensures means { result ≡ means op (operands.BlockWithData callee number) }
    ensures placed { IfSome result HasOperand }
{
    match op {
        Operation::Block(BlockOperation::CallFunctionBlock) => {
            Some(Instruction::CallInstance(callee, number))
        }
        _ => None,
    }
}

/// With a data block that is opened as DB.
fn with_data_block(op: Operation, number: u8) -> Option<Instruction>
    ensures means { result ≡ means op (operands.DataBlock number) }
    ensures placed { IfSome result HasOperand }
{
    match op {
        Operation::Block(BlockOperation::OpenData) => {
            Some(Instruction::Data(DataInstruction::Open(number)))
        }
        _ => None,
    }
}

/// With a data block that is opened as DI.
fn with_instance_block(op: Operation, number: u8) -> Option<Instruction>
    ensures means { result ≡ means op (operands.InstanceBlock number) }
    ensures placed { IfSome result HasOperand }
{
    match op {
        Operation::Block(BlockOperation::OpenInstance) => {
            Some(Instruction::Data(DataInstruction::OpenInstance(number)))
        }
        _ => None,
    }
}

/// With the length or the number of an opened data block.
fn with_data_number(op: Operation, what: DataNumber) -> Option<Instruction>
    ensures means { result ≡ means op (operands.DataNumber what) }
    ensures placed { IfSome result HasOperand }
{
    match op {
        Operation::Load => Some(Instruction::Data(DataInstruction::Load(what))),
        _ => None,
    }
}

/// What an operation with an operand means.
fn means(op: Operation, operand: Operand) -> Option<Instruction>
    requires { IsOperand operand }
    ensures means { result ≡ means op operand }
    ensures placed { IfSome result HasOperand }
{
    match operand {
        Operand::Nothing => alone(op),
        Operand::Bit(place) => {
            let op = bit_of(op)?;
            Some(Instruction::Bit(op, place))
        }
        Operand::Value(place) => {
            let op = move_of(op)?;
            Some(Instruction::Move(op, place))
        }
        Operand::PeripheralIn(access) => with_input_access(op, access),
        Operand::PeripheralOut(access) => with_output_access(op, access),
        Operand::Timer(n) => with_timer(op, n),
        Operand::Counter(n) => {
            let op = counter_of(op)?;
            Some(Instruction::Counter(op, n))
        }
        Operand::Word(word) => with_word(op, word),
        Operand::DoubleWord(value) => with_double_word(op, value),
        Operand::Target(target) => with_target(op, target),
        Operand::Status(n) => {
            let how = status_check_of(op)?;
            Some(Instruction::Status(StatusInstruction::Check(how, n)))
        }
        Operand::StatusWord => status_word_of(op),
        Operand::Block(callee) => with_block(op, callee),
        Operand::SystemFunction => system_function_of(op),
        Operand::BlockWithData(callee, number) => with_block_and_data(op, callee, number),
        Operand::DataBlock(number) => with_data_block(op, number),
        Operand::InstanceBlock(number) => with_instance_block(op, number),
        Operand::DataNumber(what) => with_data_number(op, what),
    }
}

/// Returns what a stored statement means. None where it is no statement; well-formed blocks have none.
pub fn instruction_of(s: &Statement) -> Option<Instruction>
    ensures reads { result ≡ instruction_of s.now }
    ensures placed { IfSome result HasOperand }
{
    let row = instruction_row(s.op)?;
    let operand = operand_for(row.operand, s)?;
    means(row.operation, operand)
}
