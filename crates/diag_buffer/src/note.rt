//! One entry of the diagnostic buffer.

use s7_events::DiagCode;

/// A diagnostic entry: its moment in milliseconds, and what it says.
#[derive(Clone, Copy, Debug, PartialEq, Eq)]
pub struct Note {
    pub moment: u64,
    pub code: DiagCode,
}
