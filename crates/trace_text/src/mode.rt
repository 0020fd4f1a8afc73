//! What is written of a run.

/// What is written of a run.
#[derive(Clone, Copy, Debug, PartialEq, Eq)]
pub enum Mode {
    /// The text of one side that ran alone.
    Solo,
    /// The text of a pair.
    Pair,
    /// The tail and the last line alone.
    TailOnly,
}
