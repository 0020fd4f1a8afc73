//! The inputs of the plant, as the moments go on.
ghost use Rattle.std.specs.Prelude.{◌≡◌, ◌+◌, ◌<◌, ◌^◌, length};
ghost use Rattle.plant_script.specs.declared.plan.Module.{Module};
ghost use Rattle.plant_io.specs.PairValue.{PairState};
ghost use Rattle.plant_io.specs.Inputs.{stepped, AreStates};
ghost use Rattle.pair_core.specs.PlantInputs.{readers, answer_read, answer_written};

use crate::standing::Standing;
use plant_io::Inputs;
use plant_script::Script;
use s7_base::Answer;

/// Takes moment k: what both sides read of the plant, of which these run.
pub fn read_moment(inputs: &mut Inputs, script: &Script, standing: &Standing, k: u64)
    requires size { length inputs.old.states ≡ length script.now.modules }
    requires moment { k ≡ inputs.old.moment }
    requires next { k + 1 < 2 ^ 64 }
    ensures states { (before : Module → PairState) → AreStates script.now.modules before inputs.old.states
        → AreStates script.now.modules (stepped script.now (readers standing.now) k before) inputs.new.states }
    ensures moment { inputs.new.moment ≡ k + 1 }
{
    let running = standing.running;
    inputs.step(script, running.a, running.b, standing.master, k);
}

/// The answer to a direct access that reads this.
pub fn answer_read(read: Option<u32>) -> Answer
    ensures { result ≡ answer_read read }
{
    match read {
        Some(value) => Answer::Value(value),
        None => Answer::NoModule,
    }
}

/// The answer to a direct access that writes, by whether a module of outputs takes it.
pub fn answer_written(taken: bool) -> Answer
    ensures { result ≡ answer_written taken }
{
    if taken {
        Answer::Done
    } else {
        Answer::NoModule
    }
}
