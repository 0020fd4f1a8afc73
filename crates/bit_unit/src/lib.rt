//! The nesting stack of bracketed logic and the stack of the master control relay (MCR).
#![tactic(auto)]

mod group;
mod laws;
mod unit;

pub use group::Group;
pub use laws::{expression_leaves_its_value, group_is_the_check_of_its_value};
pub use unit::{BitFault, BitUnit};
