//! What a value shows of its history.

/// A value that stands for a list of entries, and has for each side one part of its own. An own part is only compared
/// whole: what is in it is the affair of the type that implements this trait.
pub trait History {
    ghost use Rattle.std.specs.Prelude.{List};
    ghost use Rattle.s7_events.specs.declared.entry.Side.{Side};

    ghost Entry: { Type 0 };

    // What is kept of one side.
    ghost Own: { Type 0 };

    // The entries that a value stands for, the oldest first.
    ghost entries: { Self → List Self.Entry };

    // The own part of each side.
    ghost own: { Self → Side → Self.Own };
}
