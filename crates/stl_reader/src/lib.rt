//! Reads the body of a code block from tokens: statements, labels and jumps, or the first fault.
#![tactic(auto)]

mod addresses;
mod constants;
mod contents;
mod forms;
mod items;
mod laws;
mod letters;
mod locals;
mod mnemonics;
mod operands;
mod reading;
mod statements;
mod words;

pub use contents::{Body, Jump, Label};
pub use items::BodyStatement;
pub use laws::more_turns_read_the_same;
pub use reading::{ReadError, body};
