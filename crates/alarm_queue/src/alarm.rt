//! An alarm that is due, and which of two goes first.
ghost use Rattle.std.specs.Prelude.{◌≡◌, IsTrue};
ghost use Rattle.s7_events.specs.Priorities.{has_priority};
ghost use Rattle.alarm_queue.specs.Order.{line_of, due_alarm, is_before, is_same, waits_once};

use s7_base::priority;

/// What makes an alarm due.
#[derive(Clone, Copy, Debug, PartialEq, Eq)]
pub enum Source {
    /// The CPU or its clock: OB30 to OB38, OB72 and OB80.
    Cpu,
    /// A module, OB70: the line of its MODULE line in the plant script, counted from 1.
    Module(u32),
    /// An ALARM line of the plant script, counted from 1: OB40 to OB47 and OB82.
    Line(u32),
}

impl Source {
    /// Returns the line by which alarms of one priority and moment are put in order, 0 for the CPU.
    pub fn line(&self) -> u32
        ensures { result ≡ line_of self.now }
    {
        match *self {
            Source::Cpu => 0,
            Source::Module(line) | Source::Line(line) => line,
        }
    }
}

/// An alarm that is due: the number of its OB, the priority of that OB, the moment in milliseconds from which on it is
/// due, what makes it due, and its start information.
#[derive(Clone, Copy, Debug, PartialEq, Eq)]
pub struct DueAlarm {
    pub ob: u8,
    pub priority: u8,
    pub due: u64,
    pub source: Source,
    pub info: u32,
}

impl DueAlarm {
    /// Returns the alarm of this OB, which has a priority.
    pub fn new(ob: u8, due: u64, source: Source, info: u32) -> DueAlarm
        requires { IsTrue (has_priority ob) }
        ensures { result ≡ due_alarm ob due source info }
    {
        DueAlarm {
            ob,
            priority: priority(ob),
            due,
            source,
            info,
        }
    }

    /// Whether it goes before the other: by the higher priority, then the earlier moment, then the lower line.
    #[tactic(auto, unfolding(crate::specs::Order::is_before))]
    pub fn is_before(&self, other: &DueAlarm) -> bool
        ensures { result ≡ is_before self.now other.now }
    {
        if self.priority != other.priority {
            return other.priority < self.priority;
        }
        if self.due != other.due {
            return self.due < other.due;
        }
        self.source.line() < other.source.line()
    }

    /// Whether both are of the same OB, and of the same module where they are of a module.
    pub(crate) fn is_same(&self, other: &DueAlarm) -> bool
        ensures { result ≡ is_same self.now other.now }
    {
        self.source.line() == other.source.line() && self.ob == other.ob
    }

    /// Whether only one of its kind waits at a time: OB30 to OB38, OB70 and OB80.
    pub(crate) fn waits_once(&self) -> bool
        ensures { result ≡ waits_once self.now.ob }
    {
        matches!(self.ob, 30..=38 | 70 | 80)
    }
}
