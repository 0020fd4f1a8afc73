//! The four accumulators of the CPU, and the arithmetic on them.
#![tactic(auto)]

mod accus;
mod bcd;
mod laws;
mod numbers;
mod parts;
mod shifts;
mod words;

pub use accus::Accus;
pub use bcd::BadBcd;
pub use instruction_set::{Move, Num, Shift, Word};
pub use laws::result_in_range_is_true;
