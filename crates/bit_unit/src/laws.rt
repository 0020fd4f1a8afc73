//! The laws of bracketed logic.
ghost use Rattle.instruction_set.specs.declared.operation.Check.{Check};
ghost use Rattle.bit_unit.specs.Expressions.{Expression, LeavesItsValue, IsTheCheckOf};

/// A whole group, from its opening to its closing bracket, is a check of the value of the
/// expression in it: OR, RLO and `/FC` are as if that value were the bit of the check, whatever
/// stood before the group, and STA is 1.
#[tactic(auto, using(crate::proofs::Values::group_is_its_check))]
pub fn group_is_the_check_of_its_value()
    ensures { (expression : Expression) (how : Check) → IsTheCheckOf how expression }
{}

/// A bracketed expression, nested up to seven deep, leaves in the RLO what it says as a Boolean
/// expression, and the stacks as they were.
#[tactic(auto, using(crate::proofs::Values::leaves_its_value))]
pub fn expression_leaves_its_value()
    ensures { (expression : Expression) → LeavesItsValue expression }
{}
