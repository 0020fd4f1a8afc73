//! Reads declarations from tokens: names, types, places and first values.
#![tactic(auto)]

mod bytes;
mod constants;
mod elements;
mod fault;
mod grammar;
mod initials;
mod laws;
mod layout;
mod names;
mod sections;
mod steps;
mod types;

pub use bytes::first_bytes;
pub use constants::{Constant, ConstantForm, Value, begins_integer, constant_of, suits, value_at};
pub use elements::element_at;
pub use fault::{DeclError, Fault, FaultKind, StepError};
pub use grammar::SectionKind;
pub use laws::more_turns_read_the_same;
pub use layout::{Declaration, FirstValue, Layout};
pub use names::DeclaredName;
pub use sections::{assignments_at, declarations, structure_at, temporaries_at};
pub use steps::{
    SignedNumber, end_fault, fault_at, integer_at, is_pointer, is_sign, is_word, maybe_sign_at,
    maybe_word_at, name_at, next, number_at, number_of, semicolon_at, sign_at, spelling, unfit,
    upper, word_at,
};
pub use types::{
    Meaning, Shape, SimpleType, TypeRow, Variable, element_bit, end_bit, first_bit, int_value,
    is_int, rank, round_up, type_row,
};
