//! The second pass: the moments against the end, and the order of FAIL and RETURN.
ghost use Rattle.std.specs.Prelude.{◌≡◌};
ghost use Rattle.std.specs.List.{find};
ghost use Rattle.plant_script.specs.Plan.{no_failures, failed_at, with_failure, is_not_later, breaks_order, after_what, is_comeback};
ghost use Rattle.plant_script.specs.SecondPass.{event_fault, events_fault, unbuilt_line};

use crate::first_pass::fault_at;
use crate::plan::{Event, What};
use crate::script_error::{BAD_TIME, FAIL_RETURN_ORDER, ScriptFault};
use s7_events::Side;

/// The moment at which each side failed, where it has not returned since.
#[derive(Clone, Copy, Debug)]
pub struct Failures {
    pub a: Option<u32>,
    pub b: Option<u32>,
}

impl Failures {
    /// Returns the moment at which the side failed, where it has not returned since.
    fn failed_at(self, side: Side) -> Option<u32>
        ensures { result ≡ failed_at self side }
    {
        match side {
            Side::A => self.a,
            Side::B => self.b,
        }
    }

    /// Returns the same with this moment for a side.
    fn with_failure(self, side: Side, moment: Option<u32>) -> Failures
        ensures { result ≡ with_failure self side moment }
    {
        match side {
            Side::A => Failures { a: moment, ..self },
            Side::B => Failures { b: moment, ..self },
        }
    }

    /// Returns whether a side fails that has failed, or returns that has not, or not later than it failed.
    fn breaks_order(self, moment: u32, what: What) -> bool
        ensures { result ≡ breaks_order self moment what }
    {
        match what {
            What::Fail { side, .. } => self.failed_at(side).is_some(),
            What::Return { side, .. } => match self.failed_at(side) {
                Some(failed) => moment <= failed,
                None => true,
            },
            _ => false,
        }
    }

    /// Returns the same after an event.
    fn after_what(self, moment: u32, what: What) -> Failures
        ensures { result ≡ after_what self moment what }
    {
        match what {
            What::Fail { side, .. } => self.with_failure(side, Some(moment)),
            What::Return { side, .. } => self.with_failure(side, None),
            _ => self,
        }
    }
}

/// Returns the fault of an event.
fn event_fault(end: u32, failures: Failures, event: Event) -> Option<u8>
    ensures { result ≡ event_fault end failures event }
{
    if end <= event.moment {
        Some(BAD_TIME)
    } else if failures.breaks_order(event.moment, event.what) {
        Some(FAIL_RETURN_ORDER)
    } else {
        None
    }
}

/// Returns the first fault of the events.
pub fn events_fault(end: u32, events: &[Event]) -> Option<ScriptFault>
    ensures { result ≡ events_fault end no_failures events.now }
{
    let mut failures = Failures { a: None, b: None };
    for event in events {
        if let Some(kind) = event_fault(end, failures, *event) {
            return Some(fault_at(kind, event.line));
        }
        failures = failures.after_what(event.moment, event.what);
    }
    None
}

/// Returns the first RETURN or SUSPECT line.
fn comeback(events: &[Event]) -> Option<Event>
    ensures { result ≡ find (λ event. is_comeback event.what) events.now }
{
    events
        .iter()
        .copied()
        .find(|event| event.what.is_comeback())
}

/// Returns the line of the first RETURN or SUSPECT line.
#[tactic(auto, unfolding(crate::specs::SecondPass::unbuilt_line))]
pub fn unbuilt_line(events: &[Event]) -> Option<u32>
    ensures { result ≡ unbuilt_line events.now }
{
    match comeback(events) {
        Some(event) => Some(event.line),
        None => None,
    }
}
