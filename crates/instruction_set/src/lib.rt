//! The instruction set of Statement List: operations by groups, the operands that they take, and the table of both.
#![tactic(auto)]

mod operands;
mod operation;
mod table;

pub use operands::{OperandArea, OperandKind};
pub use operation::{
    BitWrite, BlockOperation, Check, Cmp, Edge, Jump, MasterControl, Move, NoOperation, Num,
    Operation, RloOperation, Shift, TimerKind, Word, WordSize,
};
pub use table::{InstructionRow, instruction_row, instruction_set};
