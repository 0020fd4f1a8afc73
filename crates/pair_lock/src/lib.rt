//! A lock of two seats, one for each side of a pair: the sides take a value in turns, and each finds what it left.
#![tactic(auto)]

mod lock;
mod seat;
mod view;

pub use lock::Taken;
pub use seat::{PairLock, Seat};
pub use view::View;
