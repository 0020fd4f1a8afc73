//! Writes the text of a run: its record, its showings, its tail and its last line; and the blocks of a program.
#![tactic(auto)]

mod entry_text;
mod line;
mod load_text;
mod printer;
mod tail;
mod views;
mod writing;

pub use line::{LINE_ROOM, Line};
pub use load_text::print_load;
pub use printer::print;
pub use writing::SinkFault;
