//! The diagnostic buffer of a CPU: the newest 120 of its entries.
#![tactic(auto)]

mod buffer;
mod note;

pub use buffer::{Diag, KEPT_NOTES};
pub use note::Note;
