//! Reads a plant script.
ghost use Rattle.std.specs.Prelude.{◌≤◌, length, IfOk};
ghost use Rattle.plant_script.specs.Gives.{Gives};
ghost use Rattle.plant_script.specs.Plan.{IsPlan};
ghost use Rattle.plant_script.specs.SecondPass.{script_of};

use crate::first_pass::{Parts, fault_at, first_pass};
use crate::script::Script;
use crate::script_error::{NOT_BUILT, ScriptError};
use crate::second_pass::{events_fault, unbuilt_line};
use s7_events::NoMemory;
use std::alloc::Global;

/// Returns the script that the bytes spell, of which there are at most 1,048,576, or its first fault: that of the first
/// line in the first pass, and where this finds none, in the second; of one line the lowest. A script without fault that
/// has a RETURN or SUSPECT line is refused with the fault 99 at its first such line.
#[tactic(auto, unfolding(crate::specs::SecondPass::script_of), using(crate::proofs::Whole::plan_is))]
pub fn read_script(alloc: Global, bytes: &[u8]) -> Result<Script, ScriptError>
    requires { length bytes.now ≤ 1048576 }
    ensures exact { Gives (λ script. script) result (script_of bytes.now) }
    ensures form { IfOk result IsPlan }
{
    let parts = first_pass(alloc, bytes)?;
    if let Some(fault) = events_fault(parts.end, &parts.events) {
        return Err(ScriptError::Fault(fault));
    }
    if let Some(line) = unbuilt_line(&parts.events) {
        return Err(ScriptError::Fault(fault_at(NOT_BUILT, line)));
    }
    let Parts {
        modules,
        events,
        end,
    } = parts;
    match Script::new(alloc, modules, events, end) {
        Ok(script) => Ok(script),
        Err(NoMemory) => Err(ScriptError::NoMemory),
    }
}
