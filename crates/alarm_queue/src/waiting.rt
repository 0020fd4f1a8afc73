//! The alarms that wait.
ghost use Rattle.std.specs.Prelude.{◌≡◌, ◌↔◌, ◌≤◌, ◌<◌, ◌+◌, ◌-◌, ◌==◌, if◌then◌else◌, [], All, None, Some, IfOk, IsTrue, length};
ghost use Rattle.alarm_queue.specs.Order.{due_alarm, InOrder, add, add_all, tail};
ghost use Rattle.alarm_queue.specs.Capacity.{AreOnce};
ghost use Rattle.alarm_queue.specs.Due.{schedule_of, due_at, rises_from};
ghost use Rattle.alarm_queue.specs.Waiting.{first_above, first_of, is_of_pair, source_by, is_its_line};

use crate::alarm::{DueAlarm, Source};
use crate::queue::Queue;
use crate::schedule::{add_cyclic, add_lines, line_alarms, loaded_cyclic, module_lines};
use plant_script::{Event, Module, Script};
use s7_base::{Blocks, NoMemory};
use std::alloc::Global;
use std::marker::Model;

/// The alarms that wait, as the moments of a plant script go by, moment 0 first. `new` takes all memory.
#[derive(Debug, Drop)]
pub struct Waiting {
    lines: Vec<DueAlarm>,
    cyclic: Vec<u8>,
    cursor: usize,
    last: Option<u64>,
    queue: Queue,
    redundancy_left: u32,
}

impl Model for Waiting {
    ghost use Rattle.alarm_queue.specs.Waiting.{State, IsState, moment_after};

    ghost Value = { State };

    ghost view = { λ w. record { schedule = record { lines = w.lines.items; cyclic = w.cyclic.items; modules = w.queue.modules }; waiting = w.queue.alarms; moment = moment_after w.last; redundancy_left = w.redundancy_left } };

    ghost invariant = { λ w. IsState w.lines.items w.cyclic.items w.cursor w.last w.queue w.redundancy_left };
}

impl Waiting {
    /// No alarm waits. Takes the memory for all ALARM lines of the script, one alarm of OB70 for each module, one
    /// of OB72 for each entry of a record, and one of each of OB30 to OB38 and OB80.
    pub fn new(alloc: Global, script: &Script, blocks: &Blocks) -> Result<Waiting, NoMemory>
        ensures { IfOk result (λ w. w ≡ record { schedule = schedule_of script.now blocks.now; waiting = []; moment = 0; redundancy_left = script.now.end }) }
    {
        Waiting::over(
            alloc,
            script.events(),
            script.modules(),
            script.end(),
            blocks,
        )
    }

    /// The same, for the parts of a script: its events, whose moments do not fall, its modules and its end.
    pub(crate) fn over(
        alloc: Global,
        events: &[Event],
        modules: &[Module],
        end: u32,
        blocks: &Blocks,
    ) -> Result<Waiting, NoMemory>
        requires { IsTrue (rises_from 0 events.now) }
        ensures { IfOk result (λ w. w ≡ record {
          schedule = schedule_of (record { modules = modules.now; events = events.now; end = end }) blocks.now;
          waiting = [];
          moment = 0;
          redundancy_left = end;
        }) }
    {
        let lines = line_alarms(alloc, events)?;
        let cyclic = loaded_cyclic(alloc, blocks)?;
        let module_lines = module_lines(alloc, modules)?;
        let more = lines.len() + end as usize;
        let queue = Queue::new(alloc, module_lines, more)?;
        Ok(Waiting {
            lines,
            cyclic,
            cursor: 0,
            last: None,
            queue,
            redundancy_left: end,
        })
    }

    /// Adds what becomes due at moment k, by the ALARM lines and by the periods of OB30 to OB38 where they are loaded.
    /// To be called for moment 0, and then for each next moment. Takes no memory. Looks at the lines that are due and at
    /// one more, and at each cyclic OB that is loaded.
    pub fn due(&mut self, k: u64)
        requires { k ≡ self.old.moment }
        ensures { self.new ≡ record self.old { waiting = add_all (due_at self.old.schedule k) self.old.waiting; moment = k + 1 } }
    {
        add_cyclic(&mut self.queue, &self.cyclic, k);
        self.cursor = add_lines(&mut self.queue, &self.lines, self.cursor, k);
        self.last = Some(k);
    }

    /// Adds an alarm of OB70, OB72 or OB80 that is due at moment k, with its start information. The line is that of the
    /// module for OB70, else 0. OB72 may be added as often as the record has entries. Takes no memory. An alarm of OB70
    /// or OB80 isn't added while one of the same module, or of OB80, waits.
    pub fn add(&mut self, ob: u8, info: u32, k: u64, line: u32)
        requires block { IsTrue (is_of_pair ob) }
        requires line { IsTrue (is_its_line self.old.schedule.modules ob line) }
        requires left { ob ≡ 72 → 0 < self.old.redundancy_left }
        ensures { self.new ≡ record self.old {
          waiting = add (due_alarm ob k (source_by ob line) info) self.old.waiting;
          redundancy_left = if ob == 72 then self.old.redundancy_left - 1 else self.old.redundancy_left;
        } }
    {
        let source = if ob == 70 {
            Source::Module(line)
        } else {
            Source::Cpu
        };
        let alarm = DueAlarm::new(ob, k, source, info);
        if ob == 72 {
            self.queue.add_other(alarm);
            self.redundancy_left -= 1;
        } else {
            self.queue.add_once(alarm);
        }
    }

    /// Returns the OB and the start information of the alarm that goes first, where its priority is above this one.
    /// Takes no memory.
    pub fn next_above(&self, prio: u8) -> Option<(u8, u32)>
        ensures first { result ≡ first_above prio self.now.waiting }

        // None comes exactly where none waits above the priority.
        ensures none { result ≡ None ↔ All (λ alarm. alarm.priority ≤ prio) self.now.waiting }

        // Of those that wait none goes before one that stands earlier, and no two are the same of those that wait once.
        ensures order { InOrder self.now.waiting }
        ensures once { AreOnce self.now.waiting }
    {
        match self.queue.first() {
            Some(alarm) if prio < alarm.priority => Some((alarm.ob, alarm.info)),
            _ => None,
        }
    }

    /// Takes the alarm that goes first, and returns its OB and its start information. Takes no memory.
    pub fn take(&mut self) -> (u8, u32)
        requires { 0 < length self.old.waiting }
        ensures first { first_of self.old.waiting ≡ Some result }
        ensures rest { self.new ≡ record self.old { waiting = tail self.old.waiting } }
    {
        let Some(alarm) = self.queue.take_first() else {
            unreachable!();
        };
        (alarm.ob, alarm.info)
    }
}
