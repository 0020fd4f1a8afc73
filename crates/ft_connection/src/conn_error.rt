//! Why a file of events was not played.

use thiserror::Error;

/// Why a file of events was not played.
#[derive(Clone, Copy, Debug, PartialEq, Eq, Error)]
pub enum ConnError {
    /// A fault of the file, with its line, counted from 1. Kind 11: the line has no form or may not stand there, it is the
    /// 20,001st, or there is no END (with the number of lines and one). Kind 12: the line names a frame or an
    /// acknowledgement that was not sent by then.
    #[error("fault {kind} line {line}")]
    Fault { kind: u8, line: u32 },
    /// Memory ran out.
    #[error("no memory")]
    NoMemory,
}
