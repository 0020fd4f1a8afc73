//! The rule under which two seats take a value in turns: what a seat knows, and what it learns by each step.

use atomic_table::{Join, Play, Split, TableRule};
use event_record::History;
use std::snapshot::Snapshot;

/// What a seat knows. No value of it is made: it exists in contracts alone.
pub struct View<T> {
    /// The value as this seat last knew it, where the seat is that of A.
    pub a: Option<T>,
    /// The value as this seat last knew it, where the seat is that of B.
    pub b: Option<T>,
    /// The value that it took with the turn.
    pub took: Option<T>,
    /// How often it found the turn held by the other seat.
    pub tries: u64,
}

/// The rule of the turn. A lock has one word, the turn: 0 where it is free, 1 where a seat holds it. It has one slot, the
/// home of the value.
pub struct TurnRule;

impl<T: History> TableRule<Option<T>, View<T>, Snapshot<T>> for TurnRule {
    ghost use Rattle.pair_lock.specs.Turns.{Kept};
    ghost use Rattle.pair_lock.specs.Views.{first_view};

    ghost holds = { λ _. Kept T.entries T.own };

    ghost first = { λ k. first_view k.value };
}

/// The step that takes the turn, where it is free.
pub(crate) struct Take;

impl<T: History> Play<Option<T>, View<T>> for Take {
    ghost use Rattle.pair_lock.specs.Turns.{Takes};

    ghost then = { Takes T.entries T.own };
}

/// The step that gives the turn.
pub(crate) struct Give;

impl<T: History> Play<Option<T>, View<T>> for Give {
    ghost use Rattle.pair_lock.specs.Turns.{Gives};

    ghost then = { Gives };
}

/// The step that makes the seats of A and B from the first one.
pub(crate) struct SplitSides;

impl<T> Split<View<T>> for SplitSides {
    ghost use Rattle.pair_lock.specs.Views.{only_a, only_b};

    ghost left = { only_a };

    ghost right = { only_b };
}

/// The step that makes one seat of those of A and B.
pub(crate) struct JoinSides;

impl<T> Join<View<T>> for JoinSides {
    ghost use Rattle.pair_lock.specs.Views.{joined_view, spent_view};

    ghost both = { joined_view };

    ghost spent = { spent_view };
}
