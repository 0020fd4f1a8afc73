//! S5TIME: durations as a number of units of one of four bases, and their words in BCD.
#![tactic(auto)]

mod bcd;
mod duration;

pub use bcd::{BadS5, bcd3, read_bcd3};
pub use duration::{S5, from_millis, millis, read, write};
