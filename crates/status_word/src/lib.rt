//! The status word of the CPU: nine bits, and what each statement does to them.
#![tactic(auto)]

mod jumps;
mod numbers;
mod status;

pub use instruction_set::{Check, Cmp, Jump};
pub use status::StatusWord;
