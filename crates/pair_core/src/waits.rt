//! The alarms that wait, as entries are added.
ghost use Rattle.std.specs.Prelude.{◌≡◌, ◌+◌, ◌<◌, ◌≤◌, length, map, slice_get, IfSome, if◌then◌else◌};
ghost use Rattle.plant_script.specs.declared.plan.Module.{Module};
ghost use Rattle.plant_io.specs.PairValue.{PairState};
ghost use Rattle.plant_io.specs.PlantValue.{HasModule};
ghost use Rattle.plant_io.specs.Inputs.{is_due_at, AreStates};
ghost use Rattle.alarm_queue.specs.Order.{add, add_all};
ghost use Rattle.alarm_queue.specs.Due.{redundancy_due};
ghost use Rattle.alarm_queue.specs.Waiting.{left_by, waiting_after};
ghost use Rattle.pair_core.specs.Waits.{overdue_due, discrepancy_at, discrepancy_due, due_by_pair, MayLeave};

use crate::monitor::{answers_overdue, ends_monitoring};
use alarm_queue::{Waiting, redundancy_info};
use plant_io::Inputs;
use plant_script::Script;
use s7_base::{Answer, Blocks, CodeKind};

/// An entry of this answer answers the alarm that goes first, where it is an alarm.
fn leave(waiting: &mut Waiting, answer: &Answer)
    requires { MayLeave answer.now waiting.old.waiting }
    ensures { waiting.new ≡ record waiting.old { waiting = left_by answer.now waiting.old.waiting } }
{
    if let Answer::Alarm { .. } = answer {
        waiting.take();
    }
}

/// Adds the alarm of OB80, where it is loaded and the monitoring time is over at moment k.
fn add_overdue(waiting: &mut Waiting, program: &Blocks, watch: Option<u32>, k: u64)
    ensures { waiting.new ≡ record waiting.old { waiting = add_all (overdue_due program.now watch k) waiting.old.waiting } }
{
    if ends_monitoring(watch, k) && answers_overdue(program) {
        waiting.add(80, 0, k, 0);
    }
}

/// Adds the alarm of OB70 of the module in a place, counted from 0, where it has become due at moment k.
fn add_discrepancy(waiting: &mut Waiting, script: &Script, inputs: &Inputs, place: usize, k: u64)
    requires there { HasModule script.now place }
    requires size { length inputs.now.states ≡ length script.now.modules }
    requires lines { waiting.old.schedule.modules ≡ map (λ m. m.line) script.now.modules }
    ensures waiting { (states : Module → PairState) → AreStates script.now.modules states inputs.now.states
        → IfSome (slice_get script.now.modules place) (λ m. waiting.new.waiting ≡ (if is_due_at m (states m) then add (discrepancy_at k m) waiting.old.waiting else waiting.old.waiting)) }
    ensures schedule { waiting.new.schedule ≡ waiting.old.schedule }
    ensures moment { waiting.new.moment ≡ waiting.old.moment }
    ensures left { waiting.new.redundancy_left ≡ waiting.old.redundancy_left }
{
    if inputs.is_due(script, place) {
        let m = script.modules()[place];
        waiting.add(70, u32::from(m.at_byte), k, m.line);
    }
}

/// Adds the alarm of OB70 of each module at which it has become due at moment k.
pub fn add_discrepancies(waiting: &mut Waiting, script: &Script, inputs: &Inputs, k: u64)
    requires size { length inputs.now.states ≡ length script.now.modules }
    requires lines { waiting.old.schedule.modules ≡ map (λ m. m.line) script.now.modules }
    ensures waiting { (states : Module → PairState) → AreStates script.now.modules states inputs.now.states
        → waiting.new.waiting ≡ add_all (discrepancy_due script.now states k) waiting.old.waiting }
    ensures schedule { waiting.new.schedule ≡ waiting.old.schedule }
    ensures moment { waiting.new.moment ≡ waiting.old.moment }
    ensures left { waiting.new.redundancy_left ≡ waiting.old.redundancy_left }
{
    for place in 0..script.modules().len() {
        add_discrepancy(waiting, script, inputs, place, k);
    }
}

/// Adds the alarm of OB72, where it is loaded and the entry before moment k lost a side or brought one back.
fn add_redundancy(waiting: &mut Waiting, program: &Blocks, k: u64, answer: &Answer)
    requires left { 0 < waiting.old.redundancy_left }
    ensures waiting { waiting.new.waiting ≡ add_all (redundancy_due program.now k answer.now) waiting.old.waiting }
    ensures schedule { waiting.new.schedule ≡ waiting.old.schedule }
    ensures moment { waiting.new.moment ≡ waiting.old.moment }
    ensures left { waiting.old.redundancy_left ≤ waiting.new.redundancy_left + 1 }
{
    if let Some(info) = redundancy_info(answer)
        && program.code(CodeKind::Ob, 72).is_some()
    {
        waiting.add(72, info, k, 0);
    }
}

/// From what waited before entry k with this answer to what waits at the moment after it, where the cycle is monitored
/// since `watch`, if it is, and the inputs are those after that moment.
#[tactic(auto, unfolding(crate::specs::Waits::due_by_pair), using(crate::proofs::Waiting::added_both))]
pub fn advance(
    waiting: &mut Waiting,
    program: &Blocks,
    script: &Script,
    inputs: &Inputs,
    watch: Option<u32>,
    k: u32,
    answer: &Answer,
)
    requires size { length inputs.now.states ≡ length script.now.modules }
    requires lines { waiting.old.schedule.modules ≡ map (λ m. m.line) script.now.modules }
    requires moment { waiting.old.moment ≡ k + 1 }
    requires leaves { MayLeave answer.now waiting.old.waiting }
    requires left { 0 < waiting.old.redundancy_left }
    ensures waiting { (states : Module → PairState) → AreStates script.now.modules states inputs.now.states
        → waiting.new.waiting ≡ waiting_after waiting.old.schedule k answer.now (due_by_pair program.now script.now watch states (k + 1) answer.now) waiting.old.waiting }
    ensures schedule { waiting.new.schedule ≡ waiting.old.schedule }
    ensures moment { waiting.new.moment ≡ k + 2 }
    ensures left { waiting.old.redundancy_left ≤ waiting.new.redundancy_left + 1 }
{
    let next = u64::from(k) + 1;
    leave(waiting, answer);
    waiting.due(next);
    add_overdue(waiting, program, watch, next);
    add_discrepancies(waiting, script, inputs, next);
    add_redundancy(waiting, program, next, answer);
}
