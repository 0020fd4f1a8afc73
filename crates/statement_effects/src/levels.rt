//! How levels and blocks begin and end.
ghost use Rattle.std.specs.Prelude.{◌≡◌, ◌<◌, ◌≤◌, length, OnOk, OnErr, IfErr, Ok, Err};
ghost use Rattle.level_stack.specs.Levels.{running_frames, running_locals, block_counts};
ghost use Rattle.statement_effects.specs.Levels.{priority_in, with_level, with_block, entered, with_start, without_block};

use crate::Memory;
use level_stack::LevelFault;
use s7_base::BlockRef;

impl Memory {
    /// Returns the priority of the level that runs, and outside every level that of OB1.
    pub fn priority(&self) -> u8
        ensures { result ≡ priority_in self.now }
    {
        self.levels.priority().unwrap_or(1)
    }

    /// Begins a block on the level that runs, with `bytes` bytes of local data, all 0. Where it is refused nothing changes.
    ///
    /// # Errors
    /// `DepthReached` where 24 blocks have begun on the level, and else `LocalFull` where its blocks would have more than 256
    /// bytes of local data.
    #[tactic(auto, using(crate::proofs::Entering::begins, crate::proofs::Entering::begins_below, crate::proofs::Entering::refuses))]
    pub fn begin_block(&mut self, block: BlockRef, bytes: u16) -> Result<(), LevelFault>
        requires { 0 < length self.old.levels }
        ensures ok { OnOk result (entered self.old block bytes ≡ Ok self.new) }
        ensures begun { OnOk result (self.new ≡ with_block self.old block bytes) }
        ensures few { OnOk result (length (running_frames self.old.levels) < 24) }
        ensures err { IfErr result (λ fault. entered self.old block bytes ≡ Err fault) }
        ensures same { OnErr result (self.new ≡ self.old) }
    {
        let _at_most_24 = self.levels.depth();
        self.levels.enter(block, bytes)?;
        Ok(())
    }

    /// Begins a level of a priority, and on it a block with `bytes` bytes of local data, all 0. Where it is refused nothing
    /// changes.
    ///
    /// # Errors
    /// `LocalFull` where the block would have more than 256 bytes of local data.
    pub fn begin_level(
        &mut self,
        priority: u8,
        block: BlockRef,
        bytes: u16,
    ) -> Result<(), LevelFault>
        requires { length self.old.levels < 21 }
        ensures ok { OnOk result (entered (with_level self.old priority) block bytes ≡ Ok self.new) }
        ensures begun { OnOk result (self.new ≡ with_block (with_level self.old priority) block bytes) }
        ensures err { IfErr result (λ fault. entered (with_level self.old priority) block bytes ≡ Err fault) }
        ensures same { OnErr result (self.new ≡ self.old) }
    {
        self.levels.push_level(priority);
        let begun = self.begin_block(block, bytes);
        if begun.is_err() {
            self.levels.pop_level();
        }
        begun
    }

    /// Writes the start information of an organisation block into the first 20 bytes of local data of the block that runs.
    pub fn write_start(&mut self, bytes: &[u8; 20])
        requires { 20 ≤ length (running_locals self.old.levels) }
        ensures started { self.new ≡ with_start self.old bytes.now }
        ensures blocks { block_counts self.new.levels ≡ block_counts self.old.levels }
    {
        self.levels.write_start(bytes);
    }

    /// Ends the block that runs, and where it was the last one of its level, the level too.
    pub fn end_block(&mut self)
        requires { 0 < length (running_frames self.old.levels) }
        ensures { self.new ≡ without_block self.old }
    {
        self.levels.end_block();
    }
}
