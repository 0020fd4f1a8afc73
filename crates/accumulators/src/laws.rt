//! A law of the definitions.
ghost use Rattle.std.specs.Prelude.{◌≡◌, ℕ, ℤ, Bool, IsTrue};
ghost use Rattle.accumulators.specs.Numbers.{is_in_range};
ghost use Rattle.accumulators.specs.Parts.{part, number, stored};

/// A result in range is the true one: read from where it is stored, it is the same integer.
#[tactic(auto, using(crate::proofs::ReadBack::number_stored))]
pub fn result_in_range_is_true()
    ensures { (wide : Bool) (accu : ℕ) (z : ℤ) → IsTrue (is_in_range (part wide) z) → number (part wide) (stored (part wide) accu z) ≡ z }
{}
