//! Cuts a Statement List source into its tokens, or finds the first fault of one.
#![tactic(auto)]

mod bytes;
mod durations;
mod fault;
mod lexer;
mod literals;
mod numerals;
mod piece;
mod place;
mod runs;
mod token;

pub use bytes::{after, begins, letters_of, spells};
pub use durations::{TimeUnit, milliseconds, time_units, timer_units};
pub use fault::LoadFault;
pub use lexer::{LexError, tokens};
pub use literals::{Literal, LiteralValue, literal_of, unsigned};
pub use numerals::{CEILING, digit_count, value_of};
pub use piece::TokenKind;
pub use token::{Token, Tokens};
