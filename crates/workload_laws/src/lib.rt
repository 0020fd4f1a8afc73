//! Laws of what is made of a number: the texts that are made are read as what they were made of.
#![tactic(auto)]

mod laws;

pub use laws::{
    made_lines_have_their_forms, made_lines_have_their_words, made_numbers_are_read,
    made_scripts_are_accepted, made_scripts_have_their_lines, made_sources_are_accepted,
};
