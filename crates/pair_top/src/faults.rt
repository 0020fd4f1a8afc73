//! What a call answers.
ghost use Rattle.std.specs.Prelude.{◌≡◌, [], Some, None};
ghost use Rattle.pair_top.specs.Statuses.{status_of};

use event_record::Record;
use pair_core::{Ended, Shown};
use plant_script::ScriptFault;
use std::alloc::Global;
use stl_lex::LoadFault;

/// Why a command was not done to its end. `which` is 0 for the source, 1 for the script.
#[derive(Clone, Copy, Debug, PartialEq, Eq)]
pub enum Fault {
    /// The words are no command.
    Usage,
    /// A file was not read.
    FileFault { which: u8 },
    /// A file has more bytes than its limit.
    TooLong { which: u8 },
    /// The source has a fault.
    SourceFault(LoadFault),
    /// The plant script has a fault.
    ScriptFault(ScriptFault),
    /// The sink took less than the text.
    SinkFault,
    /// Memory ran out.
    NoMemory,
    /// A trace is no lawful text.
    Differs { line: u32 },
}

impl Fault {
    /// The exit status of the program.
    pub fn status(self) -> u8
        ensures { result ≡ status_of (Some self) }
    {
        match self {
            Fault::Differs { .. } => 1,
            Fault::Usage => 2,
            Fault::FileFault { .. } => 3,
            Fault::TooLong { .. } => 4,
            Fault::SourceFault(_) => 5,
            Fault::ScriptFault(_) => 6,
            Fault::SinkFault => 7,
            Fault::NoMemory => 8,
        }
    }
}

/// The exit status, the fault where there is one, and what was played: the record, its showings and its end.
#[derive(Debug, Drop)]
pub struct Outcome {
    pub status: u8,
    pub fault: Option<Fault>,
    pub entries: Record,
    pub shown: Shown,
    pub ended: Ended,
}

impl Outcome {
    /// Nothing was played, and nothing failed.
    pub(crate) fn quiet(alloc: Global) -> Outcome
        ensures status { result.status ≡ status_of None }
        ensures fault { result.fault ≡ None }
        ensures entries { result.entries.entries ≡ [] }
        ensures shown { result.shown.list ≡ [] }
        ensures ended { result.ended ≡ Ended.NotPlayed }
    {
        Outcome {
            status: 0,
            fault: None,
            entries: Record::empty(alloc),
            shown: Shown::empty(alloc),
            ended: Ended::NotPlayed,
        }
    }

    /// Nothing was played.
    pub(crate) fn refused(alloc: Global, fault: Fault) -> Outcome
        ensures status { result.status ≡ status_of (Some fault) }
        ensures fault { result.fault ≡ Some fault }
        ensures entries { result.entries.entries ≡ [] }
        ensures shown { result.shown.list ≡ [] }
        ensures ended { result.ended ≡ Ended.NotPlayed }
    {
        Outcome {
            status: fault.status(),
            fault: Some(fault),
            entries: Record::empty(alloc),
            shown: Shown::empty(alloc),
            ended: Ended::NotPlayed,
        }
    }
}
