//! What the statements of STL do: what they see, what a stored statement means, and its effect, by groups.
#![tactic(auto)]

mod access;
mod areas;
mod bits;
mod clocks;
mod counting;
mod data;
mod decoded;
mod decoding;
mod execute;
mod instruction;
mod jobs;
mod jumps;
mod laws;
mod levels;
mod locals;
mod moves;
mod numbers;
mod reading;
mod resolving;

pub use areas::{DataRegisters, Memory, Registers};
pub use cpu_image::ByteArea;
pub use decoded::{Decoded, DecodedBlock};
pub use instruction::{
    Access, AccuInstruction, BitInstruction, BitOperand, BitPlace, CounterOperation, DataBit,
    DataBlockName, DataInstruction, DataNumber, DataValue, DirectInstruction, Flow,
    GroupInstruction, Instruction, JumpInstruction, LocalBit, LocalValue, MoveInstruction,
    NumberInstruction, Operand, StatusInstruction, TimedOperation, TimerOperation, ValueOperand,
    ValuePlace, Width, WordInstruction,
};
pub use laws::statements_mean_instructions;
pub use level_stack::LevelFault;
pub use reading::instruction_of;
