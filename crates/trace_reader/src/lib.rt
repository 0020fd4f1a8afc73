//! Reads the text of a trace back into what it says: its entries, their showings, its tail and its end.
#![tactic(auto)]

mod blocks;
mod fields;
mod images;
mod lines;
mod reading;
mod requests;
mod trace;
mod words;

pub use reading::{TraceFault, read};
pub use trace::{
    Answer, Areas, Block, Counter, Ending, Entry, Event, JobArea, Loss, Mode, Note, Place, Request,
    Showings, Side, StopCode, Tail, Trace, Width,
};
