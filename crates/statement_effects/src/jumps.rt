//! Jumps, conditional calls and ends of blocks.
ghost use Rattle.std.specs.Prelude.{◌≡◌, ◌≤◌, false};
ghost use Rattle.accumulators.specs.declared.parts.Part.{Part};
ghost use Rattle.accumulators.specs.Parts.{with_low};
ghost use Rattle.statement_effects.specs.Effect.{asks_first};
ghost use Rattle.statement_effects.specs.JumpEffect.{lowered, effect_jump, effect_call_when_set, effect_end_when_set};

use crate::Registers;
use crate::instruction::{Flow, JumpInstruction};
use accumulators::Accus;
use s7_base::BlockRef;

/// The low word of an accumulator, lowered by 1; below 0 comes 65535.
fn lowered(accus: &Accus) -> u32
    ensures value { result ≡ lowered accus.now }
    ensures range { result ≤ 65535 }
{
    match accus.accu1 % 65536 {
        0 => 65535,
        word => word - 1,
    }
}

impl Registers {
    /// A jump.
    pub(crate) fn execute_jump(&mut self, i: JumpInstruction) -> Flow
        ensures effect { effect_jump i self.old ≡ (self.new, result) }
        ensures goes { asks_first result ≡ false }
    {
        match i {
            JumpInstruction::When(how, target) => {
                if self.status.jump(how) {
                    Flow::Jump(target)
                } else {
                    Flow::Next
                }
            }
            JumpInstruction::List(target) => Flow::Among {
                number: (self.accus.accu1 % 256) as u8,
                target,
            },
            JumpInstruction::Loop(target) => {
                let left = lowered(&self.accus);
                self.accus.accu1 = self.accus.accu1 - self.accus.accu1 % 65536 + left;
                if left == 0 {
                    Flow::Next
                } else {
                    Flow::Jump(target)
                }
            }
        }
    }

    /// `CC`.
    pub(crate) fn execute_call_when_set(&mut self, callee: BlockRef) -> Flow
        ensures effect { effect_call_when_set callee self.old ≡ (self.new, result) }
        ensures goes { asks_first result ≡ false }
    {
        if self.status.rlo {
            Flow::Call(callee)
        } else {
            self.status.after_jump(false, true);
            Flow::Next
        }
    }

    /// `BEC`.
    pub(crate) fn execute_end_when_set(&mut self) -> Flow
        ensures effect { effect_end_when_set self.old ≡ (self.new, result) }
        ensures goes { asks_first result ≡ false }
    {
        if self.status.rlo {
            self.status.after_block();
            Flow::End
        } else {
            self.status.after_jump(false, true);
            Flow::Next
        }
    }
}
