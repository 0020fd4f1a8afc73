//! Stored statements and well-formed blocks. What a CPU asks and is answered is handed on.
#![tactic(auto)]

mod allowed;
mod blocks;
mod jumps;
mod limits;
mod statement;

pub use allowed::is_data_number;
pub use blocks::{BlockRef, Blocks, CodeBlock, CodeKind, DataBlock};
pub use s7_events::{
    Answer, Area, Ask, DiagCode, Entry, Job, JobArea, Loss, NoMemory, Request, Side, StopCode,
    fits, is_ob, priority,
};
pub use statement::Statement;
