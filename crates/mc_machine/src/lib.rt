//! The CPU: a machine that runs a program from request to request, and is proved to be the standard CPU.
#![tactic(auto)]

mod codes;
mod cpu;
mod engine;
mod index;
mod laws;
mod levels;
mod places;

pub use cpu::Machine;
pub use laws::{a_block_runs_by_itself, a_place_means_its_turn};
pub use statement_effects::{Memory, Registers};
