//! Loads a source: its blocks, or its first fault.
#![tactic(auto)]

mod blocks;
mod error;
mod faults;
mod heads;
mod laws;
mod loading;

pub use error::LoadError;
pub use faults::least_fault_law;
pub use laws::more_turns_read_the_same;
pub use loading::load;
pub use stl_lex::LoadFault;
