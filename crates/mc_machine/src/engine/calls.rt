//! How blocks are called and end.
ghost use Rattle.std.specs.Prelude.{◌≡◌, ◌+◌, ◌<◌, ◌++◌, ◌∷◌, [], length, ◌^◌, None, Ok};
ghost use Rattle.mc_machine.specs.Meaning.{begun, calls, calls_instance, Leaves};
ghost use Rattle.mc_machine.specs.Stands.{Follows, IsHigh, AreStacked, AreBegun, IsSound};
ghost use Rattle.mc_machine.specs.Places.{At, Fresh};
ghost use Rattle.mc_machine.specs.EngineView.{level_in, frame_of, config_of, decoded_codes, IsCode, IsIndexed, AreIndexed, AreFound, IsStored};

use super::{Engine, at_statement, stop_request};
use crate::levels::{call_registers, enter_block, instance_registers, restored};
use crate::places::{BlockSpot, Frame, Level, Mode, Returns, Spot};
use s7_base::BlockRef;
use statement_effects::Registers;

/// The error of a block that is called and is not loaded.
const NOT_LOADED: u8 = 7;

/// The error of a data block that is not loaded.
const NO_DATA_BLOCK: u8 = 8;

impl Engine {
    /// A block is called. The statement is completed where it begins, or where it is not loaded and the error OB begins.
    #[tactic(auto, using(crate::proofs::Begun::has_level))]
    pub(super) fn call(&mut self, callee: BlockRef, spot: BlockSpot)
        requires sound { IsSound (config_of self.old) }
        requires stored { IsStored self.old }
        requires ready { self.old.waits ≡ None }
        requires here { IsHigh (length (config_of self.old).frames) (At spot.block spot.at (level_in spot.level) Fresh) }
        requires code { IsCode self.old.program spot.code spot.block }
        requires before { self.old.since < 256 }
        requires within { spot.at + 1 < 2 ^ 64 }
        ensures turned { Follows (calls self.old.program (At spot.block (spot.at + 1) (level_in spot.level) Fresh) (level_in spot.level) self.old.memory callee) (config_of self.old) self.new.waits (config_of self.new) }
        ensures sound { IsSound (config_of self.new) }
        ensures stored { IsStored self.new }
    {
        let Some(code) = self.index.code(&self.program, callee) else {
            return self.fail_statement(NOT_LOADED, spot);
        };
        match enter_block(&mut self.memory, callee, code) {
            Ok(()) => {
                let inside = call_registers(&self.memory.registers());
                self.begin_called(callee, spot, inside)
            }
            Err(code) => {
                self.spot = Spot::AtStop(code);
                self.wait_at(stop_request(code));
            }
        }
    }

    /// A function block is called with the data block of a number, which is opened as DI. The statement is completed where
    /// the block begins, or where one of them is not loaded and the error OB begins.
    #[tactic(auto, using(crate::proofs::Begun::has_level))]
    pub(super) fn call_instance(&mut self, callee: BlockRef, number: u8, spot: BlockSpot)
        requires sound { IsSound (config_of self.old) }
        requires stored { IsStored self.old }
        requires ready { self.old.waits ≡ None }
        requires here { IsHigh (length (config_of self.old).frames) (At spot.block spot.at (level_in spot.level) Fresh) }
        requires code { IsCode self.old.program spot.code spot.block }
        requires before { self.old.since < 256 }
        requires within { spot.at + 1 < 2 ^ 64 }
        ensures turned { Follows (calls_instance self.old.program (At spot.block (spot.at + 1) (level_in spot.level) Fresh) (level_in spot.level) self.old.memory callee number) (config_of self.old) self.new.waits (config_of self.new) }
        ensures sound { IsSound (config_of self.new) }
        ensures stored { IsStored self.new }
    {
        let Some(code) = self.index.code(&self.program, callee) else {
            return self.fail_statement(NOT_LOADED, spot);
        };
        if self.memory.data_length(number).is_none() {
            return self.fail_statement(NO_DATA_BLOCK, spot);
        }
        match enter_block(&mut self.memory, callee, code) {
            Ok(()) => {
                let inside = instance_registers(&self.memory.registers(), number);
                self.begin_called(callee, spot, inside)
            }
            Err(code) => {
                self.spot = Spot::AtStop(code);
                self.wait_at(stop_request(code));
            }
        }
    }

    /// A block that is called begins with some registers, once it has its local data.
    fn begin_called(&mut self, callee: BlockRef, spot: BlockSpot, inside: Registers)
        requires stacked { AreStacked 0 (config_of self.old).frames }
        requires begun { AreBegun (length (config_of self.old).frames + 1) self.old.memory.levels }
        requires room { length (config_of self.old).frames < 504 }
        requires stored { IsStored self.old }
        requires ready { self.old.waits ≡ None }
        requires here { IsHigh (length (config_of self.old).frames) (At spot.block spot.at (level_in spot.level) Fresh) }
        requires code { IsCode self.old.program spot.code spot.block }
        requires before { self.old.since < 256 }
        requires within { spot.at + 1 < 2 ^ 64 }
        ensures turned { Follows (begun (At spot.block (spot.at + 1) (level_in spot.level) Fresh) (level_in spot.level) self.old.memory inside callee (Ok self.old.memory)) (config_of self.old) self.new.waits (config_of self.new) }
        ensures sound { IsSound (config_of self.new) }
        ensures stored { IsStored self.new }
    {
        let registers = self.memory.registers();
        let frame = Frame {
            spot: at_statement(spot, spot.at + 1),
            kept: registers,
            returns: Returns::Brackets,
        };
        self.memory.set_registers(inside);
        self.begin(callee, spot.level, frame);
        self.since += 1;
    }

    /// A block begins over a frame, with the registers that there are.
    #[tactic(auto, using(crate::proofs::Stored::frames_below))]
    pub(super) fn begin(&mut self, block: BlockRef, level: Level, frame: Frame)
        requires stacked { AreStacked 0 (config_of self.old).frames }
        requires under { IsHigh (length (config_of self.old).frames) (frame_of frame).place }
        requires begun { AreBegun (length (config_of self.old).frames + 1) self.old.memory.levels }
        requires room { length (config_of self.old).frames < 504 }
        requires frames { AreIndexed self.old.program self.old.frames.items }
        requires indexed { IsIndexed self.old.program frame.spot }
        requires decoded { self.old.decoded.items ≡ decoded_codes self.old.program.codes }
        requires found { AreFound self.old.program.codes self.old.index }
        ensures moved { config_of self.new ≡ record (config_of self.old) { place = At block 0 (level_in level) Fresh; frames = (config_of self.old).frames ++ frame_of frame ∷ [] } }
        ensures sound { IsSound (config_of self.new) }
        ensures stored { IsStored self.new }
        ensures waits { self.new.waits ≡ self.old.waits }
    {
        let code = self.index.find(block);
        self.frames.push(frame);
        self.spot = Spot::At(BlockSpot {
            block,
            code,
            at: 0,
            level,
            mode: Mode::Fresh,
        });
    }

    /// The end of a block: its status row, and then the frame under it goes on.
    #[tactic(auto, using(crate::proofs::Stored::frames_above))]
    pub(super) fn leave(&mut self)
        requires sound { IsSound (config_of self.old) }
        requires stored { IsStored self.old }
        requires some { 0 < length (config_of self.old).frames }
        ensures left { Follows Leaves (config_of self.old) None (config_of self.new) }
        ensures waits { self.new.waits ≡ self.old.waits }
        ensures sound { IsSound (config_of self.new) }
        ensures stored { IsStored self.new }
    {
        let Some(frame) = self.frames.pop() else {
            unreachable!()
        };
        let mut registers = self.memory.registers();
        registers.status.after_block();
        self.memory.end_block();
        self.memory.set_registers(restored(&registers, &frame));
        self.spot = frame.spot;
    }
}
