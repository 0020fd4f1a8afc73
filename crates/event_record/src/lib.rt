//! The record of a run: its entries, in room that is taken once. And what a value shows that stands for such a record.
#![tactic(auto)]

mod entries;
mod history;

pub use entries::Record;
pub use history::History;
