//! What a plant script says: modules, and events by their moments.
ghost use Rattle.std.specs.Prelude.{◌≡◌, ◌+◌};
ghost use Rattle.plant_script.specs.Plan.{stops, has_input, is_alarm_or_job, is_comeback};

use s7_events::{Job, Side};

/// How a module is reached.
#[derive(Clone, Copy, Debug, PartialEq, Eq)]
pub enum ModuleKind {
    /// By whichever side runs.
    Switched,
    /// Only while this side runs.
    OneSided(Side),
    /// One module on each side, with this discrepancy time in milliseconds.
    Redundant(u16),
}

/// A module: its line, counted from 1, whether it is one of inputs, its first byte and the number of its bytes.
#[derive(Clone, Copy, Debug, PartialEq, Eq)]
pub struct Module {
    pub line: u32,
    pub input: bool,
    pub at_byte: u16,
    pub len: u16,
    pub kind: ModuleKind,
}

impl Module {
    /// Returns the first byte behind the module.
    pub fn past_end(&self) -> u32
        ensures { result ≡ self.now.at_byte + self.now.len }
    {
        u32::from(self.at_byte) + u32::from(self.len)
    }

    /// Returns whether this is a module of inputs that has the byte.
    pub fn has_input(&self, at_byte: u16) -> bool
        ensures { result ≡ has_input at_byte self.now }
    {
        self.input && self.at_byte <= at_byte && u32::from(at_byte) < self.past_end()
    }
}

/// What happens at a moment.
#[derive(Clone, Copy, Debug, PartialEq, Eq)]
pub enum What {
    /// The byte has this value from now on, on the side where one is named.
    Input {
        at_byte: u16,
        side: Option<Side>,
        value: u8,
    },
    /// An alarm starts the OB of this number, with this start information.
    Alarm {
        ob: u8,
        info: u32,
    },
    /// A job comes.
    Job(Job),
    /// The side stops; a master that stops late first shows the output that stands last in the record.
    Fail {
        side: Side,
        late: bool,
    },
    /// The side may begin anew.
    Return {
        side: Side,
        fresh: bool,
    },
    /// The side is suspected; whether it passes its self-test.
    Suspect {
        side: Side,
        pass: bool,
    },
}

impl What {
    /// Whether this is that the side stops.
    pub fn stops(&self, side: Side) -> bool
        ensures { result ≡ stops self.now side }
    {
        matches!(self, What::Fail { side: other, .. } if *other == side)
    }

    /// Returns whether this is an ALARM or a JOB line.
    pub(crate) fn is_alarm_or_job(&self) -> bool
        ensures { result ≡ is_alarm_or_job self.now }
    {
        matches!(self, What::Alarm { .. } | What::Job(_))
    }

    /// Returns whether this is a RETURN or a SUSPECT line.
    pub(crate) fn is_comeback(&self) -> bool
        ensures { result ≡ is_comeback self.now }
    {
        matches!(self, What::Return { .. } | What::Suspect { .. })
    }
}

/// An event: its moment, in milliseconds, and its line, counted from 1.
#[derive(Clone, Copy, Debug, PartialEq, Eq)]
pub struct Event {
    pub moment: u32,
    pub line: u32,
    pub what: What,
}
