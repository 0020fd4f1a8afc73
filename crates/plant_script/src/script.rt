//! A plant script that was read.
ghost use Rattle.std.specs.Prelude.{◌≡◌, ◌↔◌, None, All, IfOk};
ghost use Rattle.std.specs.List.{find};
ghost use Rattle.plant_script.specs.Plan.{IsPlan, is_alarm_or_job, first_alarm_or_job};
ghost use Rattle.plant_script.specs.Values.{value_by_event, last_value};

use crate::input_index::InputIndex;
use crate::plan::{Event, Module};
use s7_events::{NoMemory, Side};
use std::alloc::Global;
use std::marker::Model;

/// A plant script that was read. Contracts see its modules, its events and its end, which have the form of a script
/// without fault.
#[derive(Debug, Drop)]
pub struct Script {
    modules: Vec<Module>,
    events: Vec<Event>,
    end: u32,
    index: InputIndex,
}

impl Model for Script {
    ghost use Rattle.plant_script.specs.Plan.{Plan, IsPlan};
    ghost use Rattle.plant_script.specs.InputIndex.{IsIndex};

    ghost Value = { Plan };

    ghost view = { λ s. record { modules = s.modules.items; events = s.events.items; end = s.end } };

    ghost invariant = { λ s. IsPlan (record { modules = s.modules.items; events = s.events.items; end = s.end }) × IsIndex s.index s.events.items };
}

/// Returns the first ALARM or JOB event.
fn alarm_or_job(events: &[Event]) -> Option<Event>
    ensures { result ≡ find (λ event. is_alarm_or_job event.what) events.now }
{
    events
        .iter()
        .copied()
        .find(|event| event.what.is_alarm_or_job())
}

impl Script {
    /// Returns a script of these parts, and takes memory for the index of its inputs.
    pub(crate) fn new(
        alloc: Global,
        modules: Vec<Module>,
        events: Vec<Event>,
        end: u32,
    ) -> Result<Script, NoMemory>
        requires { IsPlan (record { modules = modules.items; events = events.items; end = end }) }
        ensures { IfOk result (λ script. script ≡ record { modules = modules.items; events = events.items; end = end }) }
    {
        let index = InputIndex::new(alloc, &events)?;
        Ok(Script {
            modules,
            events,
            end,
            index,
        })
    }

    /// Returns the modules, by their lines.
    pub fn modules(&self) -> &[Module]
        ensures list { result.now ≡ self.now.modules }
        ensures form { IsPlan self.now }
    {
        &self.modules
    }

    /// Returns the events, by their lines. Their moments do not fall.
    pub fn events(&self) -> &[Event]
        ensures list { result.now ≡ self.now.events }
        ensures form { IsPlan self.now }
    {
        &self.events
    }

    /// Returns the number of entries at which the record ends, 1 to 200,000.
    pub fn end(&self) -> u32
        ensures value { result ≡ self.now.end }
        ensures form { IsPlan self.now }
    {
        self.end
    }

    /// Returns the value of the last INPUT line of this byte and side that is not later than moment k, or None where
    /// there is none. It takes no memory, and a number of steps that grows with the logarithm of the number of lines.
    pub fn input(&self, at_byte: u16, side: Option<Side>, k: u64) -> Option<u8>
        ensures last { result ≡ last_value self.now.events at_byte side k }

        // None comes exactly where no such line stands.
        ensures none { result ≡ None ↔ All (λ event. value_by_event at_byte side k event ≡ None) self.now.events }
    {
        self.index.last(at_byte, side, k)
    }

    /// Returns the line of the first ALARM or JOB event, or None where there is none.
    #[tactic(auto, unfolding(crate::specs::Plan::first_alarm_or_job))]
    pub fn first_alarm_or_job(&self) -> Option<u32>
        ensures { result ≡ first_alarm_or_job self.now }
    {
        match alarm_or_job(&self.events) {
            Some(event) => Some(event.line),
            None => None,
        }
    }
}
