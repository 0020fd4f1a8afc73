//! Laws of the definitions.
ghost use Rattle.mc_machine.specs.BlockRuns.{BodyThen, BodyTurn};

/// What a place of a program means, given what follows its block, is the run of the block by itself, and then what follows
/// from where the block ended, over the answers that were left there. Where the CPU stopped in the block, or no answer
/// was left in it, nothing follows.
#[tactic(auto, using(crate::proofs::Then::body_then))]
pub fn a_block_runs_by_itself()
    ensures { BodyThen }
{}

/// What a place means is what it does, and then what the places mean that it leads to: the recursion of the standard CPU
/// has no bound that decides anything.
#[tactic(auto, using(crate::proofs::Then::body_turns))]
pub fn a_place_means_its_turn()
    ensures { BodyTurn }
{}
