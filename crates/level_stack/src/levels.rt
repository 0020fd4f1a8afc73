//! All levels, from the first to the one that runs.
ghost use Rattle.std.specs.Prelude.{◌≡◌, ◌+◌, ◌*◌, ◌^◌, ◌<◌, ◌≤◌, [], ◌∷◌, ◌++◌, List, length, ◌↔◌, OnOk, OnErr, Ok, Err, IfSome};
ghost use Rattle.std.specs.Prelude.{slice_range};
ghost use Rattle.level_stack.specs.Values.{IsWidth, value_of};
ghost use Rattle.level_stack.specs.Levels.{LevelState, last_of, without_last, with_last, entered, left, ended, written, started, block_counts, local_count, running_frames, running_locals, running_prio};

use crate::level::{Level, LevelFault};
use arrayvec::ArrayVec;
use s7_base::BlockRef;
use std::marker::Model;

/// How many levels there may be at a time.
pub const LEVELS: usize = 21;

/// The levels of a CPU: for each its priority, and the blocks that have begun on it with their local bytes. The last
/// level runs, and of it the last block; the others are suspended. No call takes memory.
#[derive(Debug, Drop)]
pub struct Levels {
    levels: ArrayVec<Level, LEVELS>,
}

impl Model for Levels {
    ghost use Rattle.std.specs.Prelude.{List};
    ghost use Rattle.level_stack.specs.Levels.{LevelState};

    ghost Value = { List LevelState };

    ghost view = { λ l. l.levels.items };
}

impl Levels {
    /// No level.
    pub fn new() -> Levels
        ensures { result ≡ [] }
    {
        Levels {
            levels: ArrayVec::new(),
        }
    }

    /// Begins a level of this priority. It runs from now on, and no block has begun on it.
    pub fn push_level(&mut self, prio: u8)
        requires { length self.old < 21 }
        ensures { self.new ≡ self.old ++ record { prio = prio; frames = [] } ∷ [] }
    {
        self.levels.push(Level::new(prio));
    }

    /// Ends the level that runs, whose blocks have all ended. The one below it runs on.
    pub fn pop_level(&mut self)
        requires there { 0 < length self.old }
        requires ended { running_frames self.old ≡ [] }
        ensures { self.new ≡ without_last self.old }
    {
        self.levels.pop();
    }

    /// The priority of the level that runs.
    pub fn top_prio(&self) -> u8
        requires { 0 < length self.now }
        ensures { Some result ≡ running_prio self.now }
    {
        self.levels[self.levels.len() - 1].prio()
    }

    /// Returns the priority of the level that runs. None where there is no level.
    pub fn priority(&self) -> Option<u8>
        ensures { result ≡ running_prio self.now }
    {
        if self.levels.is_empty() {
            return None;
        }
        Some(self.top_prio())
    }

    /// Returns how many blocks have begun on the level that runs, at most 24.
    pub fn depth(&self) -> usize
        requires { 0 < length self.now }
        ensures depth { result ≡ length (running_frames self.now) }
        ensures few { result ≤ 24 }
    {
        self.levels[self.levels.len() - 1].depth()
    }

    /// Returns how many local bytes the block that runs has. Where no block runs there are none.
    pub fn local_count(&self) -> usize
        ensures { result ≡ length (running_locals self.now) }
    {
        if self.levels.is_empty() || self.depth() == 0 {
            return 0;
        }
        self.levels[self.levels.len() - 1].top_count()
    }

    /// Begins a block on the level that runs, with `temp` local bytes, all 0. Where it is refused nothing changes.
    ///
    /// # Errors
    /// `DepthReached` exactly where 24 blocks have begun on the level, and else `LocalFull` exactly where its blocks
    /// would have more than 256 local bytes.
    pub fn enter(&mut self, block: BlockRef, temp: u16) -> Result<(), LevelFault>
        requires { 0 < length self.old }
        ensures depth { (result ≡ Err LevelFault.DepthReached) ↔ (length (running_frames self.old) ≡ 24) }
        ensures local { (result ≡ Err LevelFault.LocalFull) ↔ ((length (running_frames self.old) < 24) × (256 < local_count (running_frames self.old) + temp)) }
        ensures entered { OnOk result (self.new ≡ with_last (entered block temp) self.old) }
        ensures refused { OnErr result (self.new ≡ self.old) }
        ensures levels { length self.new ≡ length self.old }
    {
        let top = self.levels.len() - 1;
        let level = &mut self.levels.as_mut_slice()[top];
        level.enter(block, temp)
    }

    /// Ends the block that runs. Its local bytes are gone, and the block that had called it runs on.
    pub fn leave(&mut self)
        requires { 0 < length (running_frames self.old) }
        ensures left { self.new ≡ with_last left self.old }
        ensures levels { length self.new ≡ length self.old }
    {
        let top = self.levels.len() - 1;
        let level = &mut self.levels.as_mut_slice()[top];
        level.leave();
    }

    /// Ends the block that runs, and where it was the last one of its level, the level too. The block that had called it, or
    /// the level below, runs on.
    #[tactic(auto, using(crate::proofs::Running::none_runs, crate::proofs::Running::level_runs))]
    pub fn end_block(&mut self)
        requires { 0 < length (running_frames self.old) }
        ensures { self.new ≡ ended self.old }
    {
        self.leave();
        if self.depth() == 0 {
            self.pop_level();
        }
    }

    /// The value of `width` local bytes of the block that runs, from byte `at_byte` on, the highest byte first.
    /// `width` is 1, 2 or 4.
    pub fn read_local(&self, at_byte: u16, width: u8) -> u32
        requires width { IsWidth width }
        requires holds { at_byte + width ≤ length (running_locals self.now) }
        ensures value { result ≡ value_of (slice_range (running_locals self.now) at_byte (at_byte + width)) }
        ensures bound { result < 2 ^ (8 * width) }
    {
        let level = &self.levels[self.levels.len() - 1];
        level.read(at_byte, width)
    }

    /// Writes a value into `width` local bytes of the block that runs, from byte `at_byte` on, the highest byte
    /// first. `width` is 1, 2 or 4.
    pub fn write_local(&mut self, at_byte: u16, width: u8, value: u32)
        requires width { IsWidth width }
        requires fits { value < 2 ^ (8 * width) }
        requires holds { at_byte + width ≤ length (running_locals self.old) }
        ensures written { self.new ≡ with_last (written at_byte width value) self.old }

        // What was written is read there.
        ensures reads { value_of (slice_range (running_locals self.new) at_byte (at_byte + width)) ≡ value }
        ensures levels { length self.new ≡ length self.old }
    {
        let top = self.levels.len() - 1;
        let level = &mut self.levels.as_mut_slice()[top];
        level.write(at_byte, width, value);
    }

    /// Writes the start information of an organisation block into the first local bytes of the block that runs.
    pub fn write_start(&mut self, bytes: &[u8; 20])
        requires { 20 ≤ length (running_locals self.old) }
        ensures started { self.new ≡ with_last (started bytes.now) self.old }
        ensures blocks { block_counts self.new ≡ block_counts self.old }
    {
        let top = self.levels.len() - 1;
        let level = &mut self.levels.as_mut_slice()[top];
        level.write_start(bytes);
    }
}
