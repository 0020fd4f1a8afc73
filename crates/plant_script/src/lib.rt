//! Plant scripts: what a script says of the modules of a plant and of what happens to it, moment by moment.
#![tactic(auto)]

mod fields;
mod first_pass;
mod input_index;
mod lines;
mod numbers;
mod plan;
mod script;
mod script_error;
mod script_reader;
mod second_pass;
mod words;

pub use fields::split_at_byte;
pub use plan::{Event, Module, ModuleKind, What};
pub use script::Script;
pub use script_error::{ScriptError, ScriptFault};
pub use script_reader::read_script;
