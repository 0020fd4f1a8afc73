//! How a run ended, and what state the pair is in.

use s7_base::StopCode;

/// How a run ended.
#[derive(Clone, Copy, Debug, PartialEq, Eq)]
pub enum Ended {
    /// The record has as many entries as the script allows.
    End,
    /// The CPU stopped.
    Stop(StopCode),
    /// No side was left.
    NoneLeft,
    /// The letters of the visits were used up.
    Spent,
    /// Nothing was played.
    NotPlayed,
}

/// The state of the pair.
#[derive(Clone, Copy, Debug, PartialEq, Eq)]
pub enum SystemState {
    /// The CPU has stopped, or no side is left.
    Stop,
    /// The side that comes back takes over what was written meanwhile.
    Update,
    /// A side comes back.
    LinkUp,
    /// A side that was suspected tests itself.
    Troubleshooting,
    /// Two sides run.
    Redundant,
    /// One side runs.
    Solo,
}
