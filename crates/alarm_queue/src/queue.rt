//! The alarms that wait, in order.
ghost use Rattle.std.specs.Prelude.{◌≡◌, ◌-◌, ◌<◌, ◌≤◌, true, false, [], length, IfOk, IsTrue, option_copied, slice_get};
ghost use Rattle.std.specs.VecDeque.{deque_len, deque_capacity};
ghost use Rattle.alarm_queue.specs.Order.{InOrder, insert, add, waits, waits_once, tail};
ghost use Rattle.alarm_queue.specs.Capacity.{has_slot, slots, AreOnce};

use crate::alarm::DueAlarm;
use s7_base::NoMemory;
use std::alloc::Global;
use std::collections::VecDeque;
use std::marker::Model;

/// The alarms of the CPU of which one alone waits: OB30 to OB38 and OB80.
const CPU_SLOTS: usize = 10;

/// The alarms that wait, in the order in which they are answered. There is capacity for `more` alarms of those that
/// may wait in any number, and for one of each OB of OB30 to OB38 and OB80 and of each module.
#[derive(Debug, Drop)]
pub(crate) struct Queue {
    alarms: VecDeque<DueAlarm>,
    modules: Vec<u32>,
    more: usize,
}

impl Model for Queue {
    ghost use Rattle.std.specs.VecDeque.{deque_capacity};
    ghost use Rattle.alarm_queue.specs.Capacity.{QueueState, IsQueue};

    ghost Value = { QueueState };

    ghost view = { λ q. record { alarms = q.alarms.items; modules = q.modules.items; more = q.more } };

    ghost invariant = { λ q. IsQueue q.alarms.items q.modules.items q.more (deque_capacity q.alarms) };
}

/// Puts the alarm into its place. Takes no memory.
fn insert(alarms: &mut VecDeque<DueAlarm>, alarm: DueAlarm)
    requires order { InOrder alarms.old.items }
    requires capacity { deque_len alarms.old < deque_capacity alarms.old }
    ensures items { alarms.new.items ≡ insert alarm alarms.old.items }
    ensures capacity { deque_capacity alarms.old ≤ deque_capacity alarms.new }
{
    let place = alarms.partition_point(|other| !alarm.is_before(other));
    let Ok(()) = alarms.insert(place, alarm) else {
        unreachable!();
    };
}

/// Whether one that is the same waits. Looks from the last to the first, since cyclic alarms go last.
fn is_waiting(alarms: &VecDeque<DueAlarm>, alarm: &DueAlarm) -> bool
    ensures { result ≡ waits alarm.now alarms.now.items }
{
    let mut place = alarms.len();
    while place > 0 {
        place -= 1;
        if alarm.is_same(&alarms[place]) {
            return true;
        }
    }
    false
}

impl Queue {
    /// No alarm, and capacity for one of each slot and for so many others.
    pub(crate) fn new(alloc: Global, modules: Vec<u32>, more: usize) -> Result<Queue, NoMemory>
        ensures { IfOk result (λ q. q ≡ record { alarms = []; modules = modules.items; more = more }) }
    {
        let Some(capacity) = more
            .checked_add(modules.len())
            .and_then(|sum| sum.checked_add(CPU_SLOTS))
        else {
            return Err(NoMemory);
        };
        let Ok(alarms) = VecDeque::with_capacity(alloc, capacity) else {
            return Err(NoMemory);
        };
        Ok(Queue {
            alarms,
            modules,
            more,
        })
    }

    /// The alarm that goes first.
    pub(crate) fn first(&self) -> Option<DueAlarm>
        ensures first { result ≡ slice_get self.now.alarms 0 }
        ensures order { InOrder self.now.alarms }
        ensures once { AreOnce self.now.alarms }
    {
        self.alarms.front().copied()
    }

    /// Takes the alarm that goes first.
    pub(crate) fn take_first(&mut self) -> Option<DueAlarm>
        ensures first { result ≡ slice_get self.old.alarms 0 }
        ensures rest { self.new ≡ record self.old { alarms = tail self.old.alarms } }
    {
        self.alarms.pop_front()
    }

    /// Adds an alarm of those that may wait in any number. Takes no memory.
    pub(crate) fn add_other(&mut self, alarm: DueAlarm)
        requires other { waits_once alarm.ob ≡ false }
        requires more { 0 < self.old.more }
        ensures { self.new ≡ record self.old { alarms = add alarm self.old.alarms; more = self.old.more - 1 } }
    {
        insert(&mut self.alarms, alarm);
        self.more -= 1;
    }

    /// Adds an alarm of which one alone waits, where one that is the same doesn't wait. Takes no memory.
    pub(crate) fn add_once(&mut self, alarm: DueAlarm)
        requires once { waits_once alarm.ob ≡ true }
        requires slot { has_slot (slots self.old.modules) alarm ≡ true }
        ensures { self.new ≡ record self.old { alarms = add alarm self.old.alarms } }
    {
        if !is_waiting(&self.alarms, &alarm) {
            insert(&mut self.alarms, alarm);
        }
    }
}
