//! The record of a run.
ghost use Rattle.std.specs.Prelude.{◌≡◌, ◌<◌, ◌≤◌, ◌∷◌, [], ◌++◌, length, slice_get, Some, IfOk, IsTrue, ◌↔◌};
ghost use Rattle.event_record.specs.Log.{Log};

use s7_events::{Entry, NoMemory};
use std::alloc::Global;
use std::marker::Model;

/// The entries of a run, in room that was taken once.
#[derive(Debug, Drop)]
pub struct Record {
    entries: Vec<Entry>,
    room: u32,
}

impl Model for Record {
    ghost use Rattle.std.specs.Prelude.{◌≤◌, ◌<◌, ◌^◌, vec_len, vec_capacity};
    ghost use Rattle.event_record.specs.Log.{Log};

    ghost Value = { Log };

    ghost view = { λ r. record { entries = r.entries.items; room = r.room } };

    ghost invariant = { λ r. (vec_len r.entries ≤ r.room) × (r.room ≤ vec_capacity r.entries) × (r.room < 2 ^ 32) };
}

impl Record {
    /// No entry, and room for so many.
    pub fn with_room(alloc: Global, n: u32) -> Result<Record, NoMemory>
        ensures { IfOk result (λ r. r ≡ record { entries = []; room = n }) }
    {
        match Vec::with_capacity(alloc, n as usize) {
            Ok(entries) => Ok(Record { entries, room: n }),
            Err(_) => Err(NoMemory),
        }
    }

    /// No entry and no room. Takes no memory.
    pub fn empty(alloc: Global) -> Record
        ensures { result ≡ record { entries = []; room = 0 } }
    {
        Record {
            entries: Vec::new(alloc),
            room: 0,
        }
    }

    /// Adds an entry. Takes no memory.
    pub fn append(&mut self, entry: Entry)
        requires { length self.old.entries < self.old.room }
        ensures { self.new ≡ record self.old { entries = self.old.entries ++ entry ∷ [] } }
    {
        let Ok(()) = self.entries.push(entry) else {
            unreachable!();
        };
    }

    /// Entry k, counted from 0.
    pub fn entry(&self, k: u32) -> &Entry
        requires { k < length self.now.entries }
        ensures { slice_get self.now.entries k ≡ Some result.now }
    {
        &self.entries[k as usize]
    }

    /// All entries.
    pub fn as_slice(&self) -> &[Entry]
        ensures { result.now ≡ self.now.entries }
    {
        &self.entries
    }

    /// The number of entries.
    pub fn len(&self) -> u32
        ensures { result ≡ length self.now.entries }
    {
        self.entries.len() as u32
    }

    pub fn is_empty(&self) -> bool
        ensures { IsTrue result ↔ (self.now.entries ≡ []) }
    {
        self.entries.is_empty()
    }

    /// The number of entries for which there is room.
    pub fn room(&self) -> u32
        ensures { result ≡ self.now.room }
    {
        self.room
    }
}
