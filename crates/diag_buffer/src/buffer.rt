//! The ring of the newest entries.
ghost use Rattle.std.specs.Prelude.{◌≡◌, ◌≤◌, ◌++◌, ◌∷◌, [], List, length, IfOk, IsTrue, ◌↔◌, slice_get, option_map};
ghost use Rattle.diag_buffer.specs.declared.note.Note.{Note};
ghost use Rattle.diag_buffer.specs.Newest.{newest};

use crate::Note;
use circular_buffer::HeapCircularBuffer;
use s7_events::{DiagCode, NoMemory};
use std::alloc::Global;
use std::marker::Model;

/// How many entries are kept.
pub const KEPT_NOTES: usize = 120;

/// The newest 120 of the entries that were noted, the oldest of these first. `new` alone takes memory.
#[derive(Debug, Drop)]
pub struct Diag {
    kept: HeapCircularBuffer<Note>,
}

impl Model for Diag {
    ghost use Rattle.std.specs.Prelude.{◌≡◌, List};
    ghost use Rattle.diag_buffer.specs.declared.note.Note.{Note};

    ghost Value = { List Note };

    ghost view = { λ d. d.kept.items };

    ghost invariant = { λ d. d.kept.capacity ≡ 120 };
}

impl Diag {
    /// A buffer without an entry, with the capacity of all that it will keep.
    pub fn new(alloc: Global) -> Result<Diag, NoMemory>
        ensures { IfOk result (λ diag. diag ≡ []) }
    {
        match HeapCircularBuffer::with_capacity(alloc, KEPT_NOTES) {
            Ok(kept) => Ok(Diag { kept }),
            Err(_) => Err(NoMemory),
        }
    }

    /// Notes an entry of this moment in milliseconds. Where 120 are kept, the oldest of them goes.
    pub fn note(&mut self, moment: u64, code: DiagCode)
        ensures noted { self.new ≡ newest (self.old ++ record { moment = moment; code = code } ∷ []) }

        // The newest of all entries stay the newest of all, however many have gone.
        ensures newest { (all : List Note) → self.old ≡ newest all → self.new ≡ newest (all ++ record { moment = moment; code = code } ∷ []) }
    {
        self.kept.push_back(Note { moment, code });
    }

    /// Returns entry k of those kept, counted from 0, the oldest first: its moment in milliseconds and what it says.
    /// None exactly where k is not below the number of entries.
    pub fn get(&self, k: u32) -> Option<(u64, DiagCode)>
        ensures { result ≡ option_map (λ note. (note.moment, note.code)) (slice_get self.now k) }
    {
        let note = self.kept.get(k as usize)?;
        Some((note.moment, note.code))
    }

    /// The number of entries that are kept, at most 120.
    pub fn len(&self) -> u32
        ensures number { result ≡ length self.now }
        ensures most { result ≤ 120 }
    {
        self.kept.len() as u32
    }

    /// Whether no entry is kept.
    pub fn is_empty(&self) -> bool
        ensures { IsTrue result ↔ (self.now ≡ []) }
    {
        self.kept.is_empty()
    }

    /// Forgets all entries.
    pub fn clear(&mut self)
        ensures { self.new ≡ [] }
    {
        self.kept.clear();
    }
}
