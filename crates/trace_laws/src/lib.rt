//! Laws of the text of a run: what it tells of the run.
#![tactic(auto)]

mod laws;

pub use laws::{is_same_text, text_alone_determines, text_determines};
