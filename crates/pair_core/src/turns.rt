//! What a visit does, and what it is answered.
ghost use Rattle.std.specs.Prelude.{◌≡◌};
ghost use Rattle.pair_core.specs.Turns.{is_over};

use crate::Ended;

/// Why a visitor has to come again.
#[derive(Clone, Copy, Debug, PartialEq, Eq)]
pub enum Reason {
    /// The other side has not taken the last entry: it has taken so many.
    Behind(u32),
    /// The output of this entry is not marked yet.
    Unmarked(u32),
    /// What was put into the link lies there.
    LinkFull,
    /// Nothing lies in the link.
    LinkEmpty,
}

/// What a visit is answered.
#[derive(Clone, Copy, Debug, PartialEq, Eq)]
pub enum Turn {
    /// The side took this entry.
    Answered(u32),
    /// The side shows the output of this entry.
    Show(u32),
    /// The side marked the output of this entry.
    Marked(u32),
    /// There is nothing to do yet.
    NotYet(Reason),
    /// The side begins to come back.
    Begin,
    /// This piece of the load image was handed over.
    Chunk(u32),
    /// This page was handed over.
    Page(u32),
    /// The side took over the other side's state.
    Adopt,
    /// The side does not run.
    Dead,
    /// The run has ended.
    Over(Ended),
}

impl Turn {
    /// Whether the run has ended.
    pub fn is_over(&self) -> bool
        ensures { result ≡ is_over self.now }
    {
        matches!(self, Turn::Over(_))
    }
}

/// What a visit does.
#[derive(Clone, Copy, Debug, PartialEq, Eq)]
pub enum Act {
    /// It tells that the run has ended.
    Over(Ended),
    /// It cuts a side that does not run.
    Dead,
    /// The side takes its next entry.
    Take,
    /// The side shows the last output.
    Show,
    /// The side marks the last output.
    Mark,
    /// The side waits for the master's showing.
    Unmarked,
    /// The side waits for the other one.
    Behind,
    /// The side appends an entry, and takes it.
    Append,
}
