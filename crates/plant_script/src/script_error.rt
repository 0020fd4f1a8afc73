//! Why a script was not read.

use thiserror::Error;

/// The line has no form, or is in no place of the order.
pub const BAD_LINE: u8 = 1;

/// A moment or an end is no number, or outside its range.
pub const BAD_TIME: u8 = 2;

/// A moment is below that of the line before.
pub const TIME_BACK: u8 = 3;

/// A module shares a byte with an earlier one.
pub const OVERLAP: u8 = 4;

/// An input byte is in no module of inputs.
pub const NO_MODULE: u8 = 5;

/// There is no END line.
pub const NO_END: u8 = 6;

/// There are too many lines.
pub const TOO_LONG: u8 = 7;

/// FAIL and RETURN lines of a side do not alternate.
pub const FAIL_RETURN_ORDER: u8 = 8;

/// The script has a line that is not supported yet.
pub const NOT_BUILT: u8 = 99;

/// A fault of a plant script: its kind, one of the numbers above, and its line, counted from 1.
#[derive(Clone, Copy, Debug, PartialEq, Eq)]
pub struct ScriptFault {
    pub kind: u8,
    pub line: u32,
}

/// Why a script was not read.
#[derive(Clone, Copy, Debug, PartialEq, Eq, Error)]
pub enum ScriptError {
    /// The script has a fault.
    #[error("script fault {kind} line {line}", kind = .0.kind, line = .0.line)]
    Fault(ScriptFault),
    /// Memory ran out.
    #[error("no memory")]
    NoMemory,
}
