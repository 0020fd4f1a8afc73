//! Makes a source and a script of any size: a program with one input, one output, one alarm OB and many functions, and
//! a day with an input every 100 moments, an alarm every 1,000 and the loss of side B half way.
#![tactic(auto)]

mod lines;
mod script;
mod source;

pub use script::make_script;
pub use source::make_source;
