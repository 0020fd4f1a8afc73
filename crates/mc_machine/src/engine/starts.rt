//! How organisation blocks begin, with their start information.
ghost use Rattle.std.specs.Prelude.{◌≡◌, ◌≢◌, None, ◌<◌, ◌≤◌, ◌+◌, ◌++◌, ◌∷◌, [], length};
ghost use Rattle.level_stack.specs.Levels.{running_locals};
ghost use Rattle.statement_effects.specs.Levels.{priority_in, with_start};
ghost use Rattle.mc_machine.specs.Meaning.{organisation_block, start_information, starts};
ghost use Rattle.mc_machine.specs.Stands.{IsHigh, AreStacked, AreBegun, IsSound, IsMoved, start_config};
ghost use Rattle.mc_machine.specs.Places.{At, Fresh, Over};
ghost use Rattle.mc_machine.specs.EngineView.{level_in, frame_of, config_of, decoded_codes, IsIndexed, AreIndexed, AreFound, IsStored};

use super::Engine;
use crate::levels::{enter_startup, ob, start_byte, start_moment, start_value};
use crate::places::{Cause, Frame, Level, Returns, Spot};
use level_stack::start_info;
use statement_effects::Registers;

impl Engine {
    /// The start information of an organisation block that begins on the level that runs.
    fn start_information(&self, number: u8, cause: Cause) -> [u8; 20]
        ensures { result ≡ start_information (config_of self.now).cycles self.now.at number (priority_in self.now.memory) cause }
    {
        start_info(
            start_byte(self.first_over, cause),
            self.memory.priority(),
            number,
            start_value(self.last_length, cause),
            start_moment(self.at, cause),
        )
    }

    /// An organisation block begins over a frame, with its start information and the registers that there are, once it has its
    /// local data.
    #[tactic(auto, using(crate::proofs::Begun::same_begun))]
    pub(super) fn begin_organisation_block(
        &mut self,
        number: u8,
        level: Level,
        cause: Cause,
        frame: Frame,
    )
        requires stacked { AreStacked 0 (config_of self.old).frames }
        requires under { IsHigh (length (config_of self.old).frames) (frame_of frame).place }
        requires begun { AreBegun (length (config_of self.old).frames + 1) self.old.memory.levels }
        requires local { 20 ≤ length (running_locals self.old.memory.levels) }
        requires room { length (config_of self.old).frames < 504 }
        requires frames { AreIndexed self.old.program self.old.frames.items }
        requires indexed { IsIndexed self.old.program frame.spot }
        requires decoded { self.old.decoded.items ≡ decoded_codes self.old.program.codes }
        requires found { AreFound self.old.program.codes self.old.index }
        ensures moved { config_of self.new ≡ record (config_of self.old) { memory = with_start self.old.memory (start_information (config_of self.old).cycles self.old.at number (priority_in self.old.memory) cause); place = At (organisation_block number) 0 (level_in level) Fresh; frames = (config_of self.old).frames ++ frame_of frame ∷ [] } }
        ensures sound { IsSound (config_of self.new) }
        ensures stored { IsStored self.new }
        ensures waits { self.new.waits ≡ self.old.waits }
    {
        let information = self.start_information(number, cause);
        self.memory.write_start(&information);
        self.begin(ob(number), level, frame);
    }

    /// OB100 begins where it is loaded, or the CPU asks to stop; where it is not loaded, the first cycle comes.
    #[tactic(auto, using(crate::proofs::Begun::ob_has))]
    pub(super) fn start_up(&mut self)
        requires here { config_of self.old ≡ start_config self.old.program }
        requires stored { IsStored self.old }
        ensures moved { IsMoved (starts self.old.program) (config_of self.old) 0 0 None (config_of self.new) }
        ensures sound { IsSound (config_of self.new) }
        ensures stored { IsStored self.new }
        ensures going { (config_of self.new).place ≢ Over }
        ensures waits { self.new.waits ≡ self.old.waits }
    {
        let Some(code) = self.index.code(&self.program, ob(100)) else {
            return;
        };
        if let Err(stop) = enter_startup(&mut self.memory, code) {
            self.spot = Spot::AtStop(stop);
            return;
        }
        let frame = Frame {
            spot: Spot::AtOutputs,
            kept: Registers::clear(),
            returns: Returns::Whole,
        };
        let level = Level { in_error: false };
        self.begin_organisation_block(100, level, Cause::CpuStarted, frame);
    }
}
