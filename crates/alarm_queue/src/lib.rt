//! The alarms that wait for an answer: which become due at a moment, and which of those that wait goes first.
#![tactic(auto)]

mod alarm;
mod law;
mod queue;
mod schedule;
mod waiting;

pub use alarm::{DueAlarm, Source};
pub use law::{answered_once, due_by_period};
pub use schedule::redundancy_info;
pub use waiting::Waiting;
