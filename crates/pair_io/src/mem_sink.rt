//! A sink in memory.
ghost use Rattle.std.specs.Prelude.{◌≡◌, ◌+◌, ◌≤◌, ◌++◌, ◌↔◌, ℕ, List, [], length, vec_len, vec_capacity, IfOk, IsOk, IsErr, OnOk, OnErr};
ghost use Rattle.std.specs.Io.KnownBytes.{Appends};
ghost use Rattle.pair_io.specs.Bytes.{AppendsFront};
ghost use Rattle.pair_io.specs.Causes.{Counts};

use crate::{Failed, Sink};
use std::alloc::{AllocError, Global};

/// A sink in memory, of which chosen writes fail. It keeps one count of faults.
#[derive(Drop)]
pub struct MemSink {
    bytes: Vec<u8>,
    room: u32,
    failing: Vec<u64>,
    writes: u64,
    faults: u64,
    ghost reserved: { room ≤ vec_capacity bytes },
    ghost within: { vec_len bytes ≤ room },
}

/// Adds bytes for which there is room already.
fn push_within(bytes: &mut Vec<u8>, piece: &[u8])
    requires { vec_len bytes.old + length piece.now ≤ vec_capacity bytes.old }
    ensures items { bytes.new.items ≡ bytes.old.items ++ piece.now }
    ensures len { vec_len bytes.new ≡ vec_len bytes.old + length piece.now }
    ensures capacity { vec_capacity bytes.old ≤ vec_capacity bytes.new }
{
    let Ok(()) = bytes.extend_from_slice(piece) else {
        unreachable!();
    };
}

impl MemSink {
    ghost use Rattle.pair_io.specs.MemSink.{written_bytes, room_of, fault_count, write_count, failing_writes};

    /// An empty sink with room for so many bytes. `failing` has the numbers, from 0, of the writes that
    /// are to fail.
    pub fn new(alloc: Global, room: u32, failing: Vec<u64>) -> Result<MemSink, AllocError>
        ensures empty { IfOk result (λ sink. written_bytes sink ≡ []) }
        ensures room { IfOk result (λ sink. room_of sink ≡ room) }
        ensures faults { IfOk result (λ sink. fault_count sink ≡ 0) }
        ensures writes { IfOk result (λ sink. write_count sink ≡ 0) }
        ensures failing { IfOk result (λ sink. failing_writes sink ≡ failing.items) }
    {
        Ok(MemSink {
            bytes: Vec::with_capacity(alloc, room as usize)?,
            room,
            failing,
            writes: 0,
            faults: 0,
        })
    }

    /// The bytes written. Takes no memory.
    pub fn written(&self) -> &[u8]
        ensures { result.now ≡ written_bytes self.now }
    {
        &self.bytes
    }
}

impl Sink for MemSink {
    ghost use Rattle.std.specs.Prelude.{Some};
    ghost use Rattle.pair_io.specs.MemSink.{written_bytes, fault_count, taken_of, IsRefused, Takes, IsAfterWrite};

    ghost written = { λ sink. Some (written_bytes sink) };

    ghost faults = { fault_count };

    ghost takes = { Takes };

    /// Fails exactly where `failing` names the write, which then adds nothing, and past the room, where it
    /// adds what fits. Takes no memory.
    fn write(&mut self, piece: &[u8]) -> Result<(), Failed>
        ensures ok { OnOk result (Appends (Some (written_bytes self.old)) (Some (written_bytes self.new)) piece.now) }
        ensures err { OnErr result (AppendsFront (Some (written_bytes self.old)) (Some (written_bytes self.new)) piece.now) }
        ensures cause { Counts (fault_count self.old) (fault_count self.new) result }
        ensures kept { (more : ℕ) → Takes self.old (length piece.now + more) → IsOk result × Takes self.new more }

        ensures taken { written_bytes self.new ≡ written_bytes self.old ++ taken_of self.old piece.now }
        ensures refused { IsErr result ↔ IsRefused self.old piece.now }
        ensures after { IsAfterWrite self.old self.new }
    {
        let number = self.writes;
        self.writes = number.saturating_add(1);
        let is_chosen = self.failing.contains(&number);
        let left = self.room as usize - self.bytes.len();
        let taken = if is_chosen { 0 } else { piece.len().min(left) };
        push_within(&mut self.bytes, &piece[..taken]);
        if is_chosen || taken < piece.len() {
            self.faults = self.faults.saturating_add(1);
            return Err(Failed);
        }
        Ok(())
    }
}
