//! What a CPU asks and is answered, and what its record and its diagnostic buffer say: sides, requests, answers,
//! entries, areas, and the priorities of organisation blocks. Nothing here knows a statement.
#![tactic(auto)]

mod diagnostics;
mod entry;
mod fitting;
mod priorities;

pub use diagnostics::{Area, DiagCode};
pub use entry::{Answer, Ask, Entry, Job, JobArea, Loss, Request, Side, StopCode};
pub use fitting::fits;
pub use priorities::{is_ob, priority};

/// Memory ran out.
#[derive(Clone, Copy, Debug, PartialEq, Eq)]
pub struct NoMemory;
