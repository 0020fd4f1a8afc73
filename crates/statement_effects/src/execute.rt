//! What a statement does.
ghost use Rattle.std.specs.Prelude.{◌≡◌, true, OnOk, IfErr};
ghost use Rattle.level_stack.specs.Levels.{block_counts};
ghost use Rattle.statement_effects.specs.Placed.{HasOperand};
ghost use Rattle.statement_effects.specs.Effect.{effect, effect_if, asks_first};

use crate::Memory;
use crate::bits::execute_status;
use crate::decoded::Decoded;
use crate::instruction::{Flow, Instruction};
use crate::moves::execute_accu;

/// The next statement follows, or the error of one that failed.
fn flow_of(done: Result<(), u8>) -> Flow
    ensures ok { OnOk done (result ≡ Flow.Next) }
    ensures err { IfErr done (λ error. result ≡ Flow.Fail error) }
{
    match done {
        Ok(()) => Flow::Next,
        Err(error) => Flow::Fail(error),
    }
}

impl Memory {
    /// What an instruction does.
    fn execute(&mut self, i: Instruction) -> Flow
        requires { HasOperand i }
        ensures effect { effect i self.old ≡ (self.new, result) }
        ensures asks { asks_first result ≡ true → self.new ≡ self.old }
    {
        match i {
            Instruction::Bit(i, operand) => return flow_of(self.execute_bit(i, operand)),
            Instruction::Status(i) => execute_status(&mut self.registers.status, i),
            Instruction::Group(i) => return flow_of(self.registers.execute_group(i)),
            Instruction::Move(i, operand) => return flow_of(self.execute_move(i, operand)),
            Instruction::Direct(i) => self.execute_direct(i),
            Instruction::Accu(i) => execute_accu(&mut self.registers.accus, i),
            Instruction::Number(i) => return flow_of(self.registers.execute_number(i)),
            Instruction::Word(i) => self.registers.execute_word(i),
            Instruction::Jump(i) => return self.registers.execute_jump(i),
            Instruction::Timer(op, n) => self.execute_timer(op, n),
            Instruction::Timed(_, _) => return Flow::AskNow,
            Instruction::Counter(op, n) => return flow_of(self.execute_counter(op, n)),
            Instruction::Data(i) => return flow_of(self.execute_data(i)),
            Instruction::ReadPeripheral(access) => return Flow::AskRead(access),
            Instruction::WritePeripheral(access) => return Flow::AskWrite(access),
            Instruction::Call(callee) => return Flow::Call(callee),
            Instruction::CallInstance(callee, number) => {
                return Flow::CallInstance(callee, number);
            }
            Instruction::CallWhenSet(callee) => {
                return self.registers.execute_call_when_set(callee);
            }
            Instruction::End => {
                self.registers.status.after_block();
                return Flow::End;
            }
            Instruction::EndWhenSet => return self.registers.execute_end_when_set(),
            Instruction::Retrigger => return Flow::AskRetrigger,
            Instruction::Stop => return Flow::Stop,
            Instruction::Nothing => {}
        }
        Flow::Next
    }

    /// Does what a decoded statement does, and returns where it leads. A statement that asks first changes nothing yet.
    pub fn perform(&mut self, statement: &Decoded) -> Flow
        ensures effect { effect_if statement.now self.old ≡ (self.new, result) }
        // it begins and ends no block
        ensures blocks { block_counts self.new.levels ≡ block_counts self.old.levels }
        ensures asks { asks_first result ≡ true → self.new ≡ self.old }
    {
        match statement.instruction() {
            Some(i) => self.execute(i),
            None => Flow::Next,
        }
    }
}
