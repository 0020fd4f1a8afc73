//! A lock of two seats, and a seat of it.
ghost use Rattle.std.specs.Prelude.{◌≡◌, ◌||◌, true, [], None, is_some};

use crate::view::{TurnRule, View};
use atomic_table::Table;
use event_record::History;
use std::alloc::Global;
use std::snapshot::Snapshot;

/// A value that two seats take in turns.
#[derive(Drop)]
pub struct PairLock<T: History> {
    pub(crate) table: Table<Option<T>, View<T>, Snapshot<T>, TurnRule, Global>,
    ghost one: { (table.shared.table_id.words ≡ 1) × (table.shared.table_id.slots ≡ 1) },
}

/// The right of one side to take the value of a lock, with what that side knows of it. It has no bytes of its own.
#[derive(Drop)]
pub struct Seat<T> {
    pub(crate) seat: atomic_table::Seat<Option<T>, View<T>>,
    ghost idle: { (seat.me.1 ≡ []) × (seat.me.0.took ≡ None) },
    ghost live: { (is_some seat.me.0.a || is_some seat.me.0.b) ≡ true },
}
