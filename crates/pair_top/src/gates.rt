//! Where the visits of two workers may be held up.

use s7_base::Side;

/// What a worker passes before each of its visits.
pub trait Gate {
    /// `visit` counts the visits of this side from 0, and stays at its greatest value.
    fn pass(&self, side: Side, visit: u64);
}

/// The gate that holds nobody up.
#[derive(Clone, Copy, Debug, PartialEq, Eq)]
pub struct NoGate;

impl Gate for NoGate {
    fn pass(&self, _side: Side, _visit: u64) {}
}
