//! A law of the definitions.
ghost use Rattle.level_stack.specs.CallerLaw.{CallerIsKept};

/// Whatever a block does with its local bytes: once it has begun and ended, the blocks before it have theirs as
/// they were.
#[tactic(auto, using(crate::proofs::CallerLaw::caller_is_kept))]
pub fn a_caller_keeps_its_local_bytes()
    ensures { CallerIsKept }
{}
