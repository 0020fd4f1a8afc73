//! Direct access to the peripherals: its requests, and what their answers do.
ghost use Rattle.std.specs.Prelude.{◌≡◌, ◌≢◌, ◌*◌, ◌^◌, ◌<◌, Some, Ok, Err};
ghost use Rattle.cpu_image.specs.Values.{IsWidth};
ghost use Rattle.statement_effects.specs.AccessEffect.{put_out};
ghost use Rattle.statement_effects.specs.MoveEffect.{with_loaded};
ghost use Rattle.statement_effects.specs.Levels.{priority_in};
ghost use Rattle.mc_machine.specs.Meaning.{request_of, read_of, write_of, accessed_at};
ghost use Rattle.mc_machine.specs.Stands.{IsSound, Reacts};
ghost use Rattle.mc_machine.specs.Places.{Over};
ghost use Rattle.mc_machine.specs.EngineView.{config_of, IsStored};

use super::{Engine, at_statement};
use crate::codes::instruction_in;
use crate::places::Spot;
use s7_base::Ask;
use statement_effects::Access;

/// The error of a direct access whose bytes no module holds.
const NO_MODULE: u8 = 9;

impl Engine {
    /// The machine waits at the request for a value of the peripheral inputs.
    pub(super) fn wait_to_read(&mut self, access: Access)
        ensures stored { IsStored self.old → IsStored self.new }
        ensures same { config_of self.new ≡ config_of self.old }
        ensures waits { self.new.waits ≡ Some (request_of (read_of access) (priority_in self.old.memory)) }
    {
        let width = access.width.bytes();
        self.wait_in_block(Ask::ReadP {
            addr: access.addr,
            width,
        });
    }

    /// The machine waits at the request to write the value that `T` writes to the peripheral outputs.
    pub(super) fn wait_to_write(&mut self, access: Access)
        ensures stored { IsStored self.old → IsStored self.new }
        ensures same { config_of self.new ≡ config_of self.old }
        ensures waits { self.new.waits ≡ Some (request_of (write_of access self.old.memory) (priority_in self.old.memory)) }
    {
        let width = access.width.bytes();
        let value = self.memory.value_put(access.width);
        self.wait_in_block(Ask::WriteP {
            addr: access.addr,
            width,
            value,
        });
    }

    /// The value that a statement asked for is loaded.
    #[tactic(auto, using(crate::proofs::Begun::same_begun))]
    pub(super) fn complete_read(&mut self, value: u32)
        requires sound { IsSound (config_of self.old) }
        requires stored { IsStored self.old }
        requires going { (config_of self.old).place ≢ Over }
        requires fresh { self.old.since ≡ 0 }
        ensures accessed { Reacts (accessed_at self.old.program self.old.memory (config_of self.old).place (Ok (with_loaded self.old.memory value))) (config_of self.old) self.old.at (config_of self.new) }
        ensures sound { IsSound (config_of self.new) }
        ensures stored { IsStored self.new }
        ensures going { (config_of self.new).place ≢ Over }
        ensures waits { self.new.waits ≡ self.old.waits }
    {
        let Spot::At(spot) = self.spot else {
            return;
        };
        let Some(_) = instruction_in(&self.program, spot) else {
            return;
        };
        self.memory.load(value);
        self.spot = at_statement(spot, spot.at + 1);
        self.since = 1;
    }

    /// The value that a statement asked to write was written: those of its bytes that lie in the output image go there too.
    #[tactic(auto, using(crate::proofs::Begun::same_begun))]
    pub(super) fn complete_write(&mut self, addr: u16, width: u8, value: u32)
        requires sound { IsSound (config_of self.old) }
        requires stored { IsStored self.old }
        requires going { (config_of self.old).place ≢ Over }
        requires fresh { self.old.since ≡ 0 }
        requires width { IsWidth width }
        requires fits { value < 2 ^ (8 * width) }
        ensures accessed { Reacts (accessed_at self.old.program self.old.memory (config_of self.old).place (Ok (put_out self.old.memory addr width value))) (config_of self.old) self.old.at (config_of self.new) }
        ensures sound { IsSound (config_of self.new) }
        ensures stored { IsStored self.new }
        ensures going { (config_of self.new).place ≢ Over }
        ensures waits { self.new.waits ≡ self.old.waits }
    {
        let Spot::At(spot) = self.spot else {
            return;
        };
        let Some(_) = instruction_in(&self.program, spot) else {
            return;
        };
        self.memory.put_out(addr, width, value);
        self.spot = at_statement(spot, spot.at + 1);
        self.since = 1;
    }

    /// No module holds the bytes of a direct access: the statement that asked for it fails.
    pub(super) fn fail_access(&mut self)
        requires sound { IsSound (config_of self.old) }
        requires stored { IsStored self.old }
        requires going { (config_of self.old).place ≢ Over }
        requires fresh { self.old.since ≡ 0 }
        ensures accessed { Reacts (accessed_at self.old.program self.old.memory (config_of self.old).place (Err 9)) (config_of self.old) self.old.at (config_of self.new) }
        ensures sound { IsSound (config_of self.new) }
        ensures stored { IsStored self.new }
        ensures going { (config_of self.new).place ≢ Over }
        ensures waits { self.new.waits ≡ self.old.waits }
    {
        let Spot::At(spot) = self.spot else {
            return;
        };
        let Some(_) = instruction_in(&self.program, spot) else {
            return;
        };
        self.fail_answered(NO_MODULE, spot);
    }
}
