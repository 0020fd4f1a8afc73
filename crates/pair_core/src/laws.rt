//! Laws of every pair: when a subsystem stands where the pair says, how many records there are, and how often alarms and
//! jobs are answered.
ghost use Rattle.std.specs.Prelude.{Bool, List};
ghost use Rattle.s7_events.specs.declared.entry.Entry.{Entry};
ghost use Rattle.s7_base.specs.Blocks.{Program};
ghost use Rattle.subsystem.specs.Part.{Part};
ghost use Rattle.pair_core.specs.OwnParts.{OwnPart};
ghost use Rattle.pair_core.specs.Places.{LoadedStands, NewStands, AskedStands};
ghost use Rattle.plant_script.specs.Plan.{Plan};
ghost use Rattle.pair_core.specs.OneRecord.{OneBegins};
ghost use Rattle.pair_core.specs.AnsweredOnce.{AnsweredOnce};

/// A subsystem that was loaded stands at the beginning of a record, and a new one for a side that does not run at
/// first.
#[tactic(auto, using(crate::proofs::Stands::loaded_stands, crate::proofs::Stands::new_stands))]
pub fn begins()
    ensures loaded { (program : Program) (s : Part) → LoadedStands program s }
    ensures fresh { (program : Program) (s : Part) → NewStands program s }
{}

/// A subsystem that was asked stands where it stood, for whatever part and entries.
#[tactic(auto, using(crate::proofs::Stands::asked_stands))]
pub fn asking_stays()
    ensures { (own : OwnPart) (es : List Entry) (program : Program) (old new : Part) → AskedStands own es program old new }
{}

/// Of two records of one program and one script, whose requests are the standard CPU's and whose answers are lawful,
/// one begins the other. So a record is determined by its length: no line of a script that is read lets a side return or
/// pass a self-test, and only such a line would leave a choice.
#[tactic(auto, using(crate::proofs::Prefixes::one_begins))]
pub fn one_begins()
    ensures { (program : Program) (plan : Plan) (solo : Bool) (xs ys : List Entry) → OneBegins program plan solo xs ys }
{}

/// In a lawful record of any program and any script without fault, each ALARM line and each job is answered once at most.
/// An Alarm is the first alarm that waits, and a Job the next job. Where the answer is none of Lost, CpuStop, Hold, Back
/// and Alarm, no alarm that waits is above the request's priority.
#[tactic(auto, using(crate::proofs::AnsweredOnce::answered_once))]
pub fn answered_once()
    ensures { (program : Program) (plan : Plan) (solo : Bool) (es : List Entry) → AnsweredOnce program plan solo es }
{}
