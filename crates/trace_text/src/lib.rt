//! The text of a run, as it is defined: its first line, entries, showings, tail and last line.
#![tactic(auto)]

mod mode;

pub use mode::Mode;
