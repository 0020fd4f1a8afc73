//! Laws of the alarms that wait.
ghost use Rattle.std.specs.Prelude.{ℕ, List};
ghost use Rattle.s7_base.specs.Blocks.{Program};
ghost use Rattle.plant_script.specs.Plan.{Plan};
ghost use Rattle.alarm_queue.specs.declared.alarm.DueAlarm.{DueAlarm};
ghost use Rattle.alarm_queue.specs.Due.{Schedule};
ghost use Rattle.alarm_queue.specs.Laws.{Step, AnsweredAsGiven, AnsweredOnce, IsDueByPeriod};

/// Whatever the entries of a record are, no ALARM line is answered more often than it stands in the script; so each line
/// is answered once at most.
#[tactic(auto, using(crate::proofs::Once::answered_as_given, crate::proofs::Once::answered_once))]
pub fn answered_once()
    ensures as_given { (schedule : Schedule) (by_pair : List DueAlarm) (steps : List Step) → AnsweredAsGiven schedule by_pair steps }
    ensures once { (plan : Plan) (program : Program) (by_pair : List DueAlarm) (steps : List Step) → AnsweredOnce plan program by_pair steps }
{}

/// A cyclic alarm is due exactly at the moments that are whole multiples of its period, one period or more.
#[tactic(auto, using(crate::proofs::Once::due_by_period))]
pub fn due_by_period()
    ensures { (ob k : ℕ) → IsDueByPeriod ob k }
{}
