//! The timers of Statement List: a timer keeps the moment of its start, and its output and rest are read off by
//! the moment at which they are asked.
#![tactic(auto)]

mod kind;
mod timer;

pub use instruction_set::TimerKind;
pub use timer::Timer;
