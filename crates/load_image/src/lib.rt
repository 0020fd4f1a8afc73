//! The load image: the blocks of a program as bytes, as the running side sends them to the returning one.
#![tactic(auto)]

mod reading;
mod writing;

pub use reading::{a_statement_lies_at_its_place, an_image_has_one_program, decode, statement_at};
pub use writing::encode;
