//! Paths, frames, and what a sender and a receiver answer.

use thiserror::Error;

/// One of the two paths.
#[derive(Clone, Copy, Debug, PartialEq, Eq)]
pub enum Path {
    One,
    Two,
}

/// A job on its way: its number, counted from 0, and the job.
#[derive(Clone, Copy, Debug, PartialEq, Eq)]
pub struct Frame {
    pub number: u32,
    pub job: u32,
}

/// What a receiver makes of a frame.
#[derive(Clone, Copy, Debug, PartialEq, Eq)]
pub enum Taken {
    /// Its job is the next one and is handed over.
    New,
    /// Its job was handed over before.
    Old,
    /// An earlier job is missing. The frame is dropped.
    Ahead,
}

/// Why a sender sends nothing.
#[derive(Clone, Copy, Debug, PartialEq, Eq, Error)]
pub enum SendFault {
    /// The path is down.
    #[error("the path is down")]
    Down,
    /// Every job is acknowledged.
    #[error("every job is acknowledged")]
    Idle,
}
