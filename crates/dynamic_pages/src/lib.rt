//! The dynamic pages of a CPU: its timers, counters, diagnostic entries and registers as pages of 256 bytes, as the side that runs
//! sends them to the one that returns, and read from them again.
#![tactic(auto)]

mod laws;
mod note;
mod registers;
mod units;

pub use laws::pages_are_the_bytes;
pub use note::{NOTE_BYTES, note_bytes, note_of};
pub use registers::CycleRegisters;
pub use units::{
    COUNTER_BYTES, PAGE_BYTES, TIMER_BYTES, counter_page, counters_fit, counters_of, note_page,
    timer_page, timers_fit, timers_of,
};
