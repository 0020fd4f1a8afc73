//! How the organisation block of an alarm interrupts what runs.
ghost use Rattle.std.specs.Prelude.{◌≡◌, ◌≢◌, ◌<◌, ◌≤◌, length, None, IsTrue};
ghost use Rattle.s7_base.specs.declared.blocks.CodeKind.{CodeKind};
ghost use Rattle.s7_base.specs.Blocks.{code_of};
ghost use Rattle.s7_events.specs.Priorities.{has_priority, priority_of};
ghost use Rattle.mc_machine.specs.Meaning.{alarm_note, wants_substitute, level_begun, interrupts, substituted, alarmed, again};
ghost use Rattle.mc_machine.specs.Stands.{rank_of, IsSound, IsMoved, Interrupts, Reacts};
ghost use Rattle.mc_machine.specs.Places.{Over};
ghost use Rattle.mc_machine.specs.EngineView.{config_of, IsStored};

use super::Engine;
use crate::levels::{bytes_of_ob, enter_level};
use crate::places::{Cause, Frame, Level, Returns, Spot};
use s7_base::{Ask, DiagCode, StopCode};

/// The diagnostic entry of an alarm.
fn alarm_note(number: u8, info: u32) -> Option<DiagCode>
    requires { number ≡ 70 → info ≤ 65535 }
    ensures { result ≡ alarm_note number info }
{
    match number {
        80 => Some(DiagCode::Cycle),
        70 => Some(DiagCode::Discrep(info as u16)),
        _ => None,
    }
}

/// Whether an alarm wants OB85 where its own block is not loaded: that of a process or of a module.
fn wants_substitute(number: u8) -> bool
    ensures { result ≡ wants_substitute number }
{
    matches!(number, 40..=47 | 82)
}

impl Engine {
    /// An alarm comes: its block begins where it is loaded, and the request is made again at its end. Where it is not loaded, OB85
    /// may run in its place.
    #[tactic(auto, using(crate::proofs::Alarms::starts_level, crate::proofs::Alarms::missing_alarm, crate::proofs::Alarms::unwanted))]
    pub(super) fn alarm(&mut self, ask: &Ask, number: u8, info: u32)
        requires sound { IsSound (config_of self.old) }
        requires stored { IsStored self.old }
        requires fresh { self.old.since ≡ 0 }
        requires above { Interrupts self.old.memory number info }
        ensures alarmed { Reacts (alarmed self.old.program (again ask.now (config_of self.old).place) self.old.memory number info) (config_of self.old) self.old.at (config_of self.new) }
        ensures sound { IsSound (config_of self.new) }
        ensures stored { IsStored self.new }
        ensures going { (config_of self.new).place ≢ Over }
        ensures waits { self.new.waits ≡ self.old.waits }
    {
        match bytes_of_ob(&self.program, &self.index, number) {
            Some(bytes) => {
                self.repeat(ask, alarm_note(number, info));
                self.interrupt(number, Cause::AlarmCame(info), bytes);
            }
            None => {
                if wants_substitute(number) {
                    self.repeat(ask, Some(DiagCode::Ob85(number)));
                    self.substitute(number);
                } else {
                    self.repeat(ask, alarm_note(number, info));
                }
            }
        }
    }

    /// OB85 runs in place of a block that is not loaded, or the CPU asks to stop.
    #[tactic(auto, using(crate::proofs::Alarms::loaded_substitute, crate::proofs::Alarms::missing_substitute))]
    fn substitute(&mut self, number: u8)
        requires sound { IsSound (config_of self.old) }
        requires stored { IsStored self.old }
        requires room { length self.old.memory.levels < rank_of (priority_of 85) }
        ensures moved { IsMoved (substituted (config_of self.old).place self.old.memory number (code_of self.old.program CodeKind.Ob 85)) (config_of self.old) self.old.since self.old.at None (config_of self.new) }
        ensures sound { IsSound (config_of self.new) }
        ensures stored { IsStored self.new }
        ensures going { (config_of self.new).place ≢ Over }
        ensures waits { self.new.waits ≡ self.old.waits }
    {
        match bytes_of_ob(&self.program, &self.index, 85) {
            Some(bytes) => self.interrupt(85, Cause::BlockMissing(number), bytes),
            None => self.spot = Spot::AtStop(StopCode::NoOb85),
        }
    }

    /// An organisation block interrupts the place, which goes on at its end with the registers that there are; or there is no local
    /// data, and the CPU asks to stop.
    fn interrupt(&mut self, number: u8, cause: Cause, bytes: u16)
        requires sound { IsSound (config_of self.old) }
        requires stored { IsStored self.old }
        requires starts { IsTrue (has_priority number) }
        requires room { length self.old.memory.levels < rank_of (priority_of number) }
        requires enough { 20 ≤ bytes }
        ensures moved { IsMoved (interrupts (config_of self.old).place self.old.memory number cause (level_begun self.old.memory number bytes)) (config_of self.old) self.old.since self.old.at None (config_of self.new) }
        ensures sound { IsSound (config_of self.new) }
        ensures stored { IsStored self.new }
        ensures going { (config_of self.new).place ≢ Over }
        ensures waits { self.new.waits ≡ self.old.waits }
    {
        let frame = Frame {
            spot: self.spot,
            kept: self.memory.registers(),
            returns: Returns::Whole,
        };
        if let Err(stop) = enter_level(&mut self.memory, number, bytes) {
            self.spot = Spot::AtStop(stop);
            return;
        }
        let level = Level { in_error: false };
        self.begin_organisation_block(number, level, cause, frame);
    }
}
