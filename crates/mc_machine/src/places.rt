//! Where a machine stands, as it is stored.

use s7_base::{BlockRef, StopCode};
use statement_effects::{Access, Registers};

/// The level that a block runs on: whether one of the blocks that have begun on it is an error OB.
#[derive(Clone, Copy, Debug)]
pub struct Level {
    pub in_error: bool,
}

/// Whether a block comes to its statement anew, or makes again a request that was not ended.
#[derive(Clone, Copy, Debug)]
pub enum Mode {
    Fresh,
    Ticking,
    Timing,
    Retriggering,
    /// It asks for a value of the peripheral inputs.
    Reading(Access),
    /// It asks to write a value to the peripheral outputs.
    Writing(Access),
}

/// A place in a block: the block, its index among the code blocks, the statement, counted from 0, and how the block
/// comes to it.
#[derive(Clone, Copy, Debug)]
pub struct BlockSpot {
    pub block: BlockRef,
    pub code: usize,
    pub at: usize,
    pub level: Level,
    pub mode: Mode,
}

/// Where a machine stands.
#[derive(Clone, Copy, Debug, Default)]
pub enum Spot {
    /// At the start of a cycle, where it asks to put out the output image.
    #[default]
    AtOutputs,
    /// Where it asks for the input image.
    AtInputs,
    /// At the end of a cycle.
    AtCycle,
    /// Where it hands on what a job read or wrote, or that its bytes are not there.
    AtReply(Option<u32>),
    /// Where it asks to stop.
    AtStop(StopCode),
    /// It has stopped.
    Over,
    /// In a block.
    At(BlockSpot),
}

/// Why an organisation block begins.
#[derive(Clone, Copy, Debug)]
pub enum Cause {
    /// The CPU started.
    CpuStarted,
    /// A cycle began.
    CycleBegan,
    /// A statement failed, with this error.
    StatementFailed(u8),
    /// An alarm came, with this value.
    AlarmCame(u32),
    /// The organisation block of this number is missing.
    BlockMissing(u8),
}

/// What comes back, when a block ends, of the registers that were kept when it began.
#[derive(Clone, Copy, Debug, Default)]
pub enum Returns {
    /// After an error OB, and after the first block of a level: all of them.
    #[default]
    Whole,
    /// After a block that was called: the open groups and zones, whether the MCR is active, and which data blocks are opened.
    Brackets,
}

/// Where a machine goes on when a block ends, the registers that were kept, and what of them comes back.
#[derive(Clone, Copy, Debug, Default)]
pub struct Frame {
    pub spot: Spot,
    pub kept: Registers,
    pub returns: Returns,
}
