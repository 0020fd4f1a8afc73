//! The top call: all that the program does, from the command's words to the bytes in the sink.
#![tactic(auto)]

mod errors;
mod fault_text;
mod faults;
mod gates;
mod making;
mod pattern;
mod play;
mod reading;
mod serve;
mod words;

pub use fault_text::{exit_status, fault_line, report};
pub use faults::{Fault, Outcome};
pub use gates::{Gate, NoGate};
pub use reading::LIMIT;
pub use serve::{s7h_top, serve_alone};
pub use stl_lex::LoadFault;
