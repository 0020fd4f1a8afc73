//! The areas of a CPU, and the entries of its diagnostic buffer.

ghost use Rattle.std.specs.Prelude.{◌≡◌};

use crate::{Side, StopCode};

/// An area of a CPU that is read and written by bytes.
#[derive(Clone, Copy, Debug, PartialEq, Eq)]
pub enum Area {
    /// The input image.
    I,
    /// The output image.
    Q,
    /// Bit memory.
    M,
    /// The data block of this number.
    Db(u8),
    /// The timers.
    Timers,
    /// The counters.
    Counters,
    /// The registers.
    Registers,
}

/// What a diagnostic entry says.
#[derive(Clone, Copy, Debug, PartialEq, Eq)]
pub enum DiagCode {
    /// The CPU started.
    Start,
    /// This side failed.
    LostFailed(Side),
    /// This side was suspected.
    LostSuspect(Side),
    /// This side has come back.
    Back(Side),
    /// The synchronous error of this number.
    Error(u8),
    /// The cycle took too long.
    Cycle,
    /// OB85 runs in place of this missing OB.
    Ob85(u8),
    /// The two modules of this address differ for too long.
    Discrep(u16),
    /// The CPU stopped.
    Stop(StopCode),
}

impl Default for DiagCode {
    /// `Start`: what the unused places of a list of fixed capacity hold.
    fn default() -> DiagCode
        ensures { result ≡ DiagCode.Start }
    {
        DiagCode::Start
    }
}
