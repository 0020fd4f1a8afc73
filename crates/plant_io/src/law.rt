//! A law of inputs that both sides read.
ghost use Rattle.std.specs.Prelude.{ℕ};
ghost use Rattle.plant_script.specs.declared.plan.Module.{Module};
ghost use Rattle.plant_script.specs.Plan.{Plan};
ghost use Rattle.plant_io.specs.PairValue.{PairState, Standing};
ghost use Rattle.plant_io.specs.Lasting.{KeepsValue, TakesMaster, IsDueOnce, IsDueWhenReached};

/// Where the sides differ for some moments in a row, the pair keeps its value for less than the discrepancy time and
/// then has that of the master, and OB70 is due at the one moment at which that time is reached.
#[tactic(auto, using(crate::proofs::Lasts::keeps_value, crate::proofs::Lasts::takes_master, crate::proofs::Lasts::is_due_once))]
pub fn lasting_difference()
    ensures keeps { (plan : Plan) (m : Module) (standing : ℕ → Standing) (from count : ℕ) → KeepsValue plan m standing from count }
    ensures takes { (plan : Plan) (m : Module) (standing : ℕ → Standing) (from count : ℕ) → TakesMaster plan m standing from count }
    ensures due { (plan : Plan) (m : Module) (standing : ℕ → Standing) (from count : ℕ) → IsDueOnce plan m standing from count }
{}

/// OB70 becomes due by a moment exactly where the sides have then differed for just as many moments in a row as the
/// discrepancy time.
#[tactic(auto, using(crate::proofs::Reached::due_when_reached))]
pub fn due_when_reached()
    ensures { (plan : Plan) (m : Module) (now : Standing) (moment : ℕ) (before : PairState) → IsDueWhenReached plan m now moment before }
{}
