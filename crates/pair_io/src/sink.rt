//! A sink for bytes.
ghost use Rattle.std.specs.Prelude.{ℕ, ◌+◌, List, length, Option, OnOk, OnErr, IsOk};
ghost use Rattle.std.specs.Io.KnownBytes.{Appends};
ghost use Rattle.pair_io.specs.Bytes.{AppendsFront};
ghost use Rattle.pair_io.specs.Causes.{Counts};

/// A write that was not done whole. It was counted.
#[derive(Clone, Copy, Debug, PartialEq, Eq)]
pub struct Failed;

/// What takes bytes, in order.
///
/// The bytes, the count and the promise are for contracts alone: no call of the program asks for them.
pub trait Sink {
    /// The bytes written, where they are told.
    ghost written: { Self → Option (List ℕ) };

    /// How often a write has failed. The count never falls, and stops at the greatest `u64`.
    ghost faults: { Self → ℕ };

    /// The sink promises to take so many more bytes without a fault. Most sinks promise nothing.
    ghost takes: { Self → ℕ → Type 0 } = { λ _ _. ⊥ };

    /// Adds the piece.
    ///
    /// At `Err` only a front of it was added, of any length, and the count was raised. `Ok` leaves the
    /// count.
    fn write(&mut self, piece: &[u8]) -> Result<(), Failed>
        ensures ok { OnOk result (Appends (written self.old) (written self.new) piece.now) }
        ensures err { OnErr result (AppendsFront (written self.old) (written self.new) piece.now) }
        ensures cause { Counts (faults self.old) (faults self.new) result }

        // What is promised is kept, and the rest is promised again.
        ensures kept { (more : ℕ) → takes self.old (length piece.now + more) → IsOk result × takes self.new more };
}
