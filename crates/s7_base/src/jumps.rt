//! Which statements are of the language, and where their jumps land.
ghost use Rattle.std.specs.Prelude.{◌≡◌, ◌+◌, ◌<◌, ◌≤◌, ◌^◌, length};
ghost use Rattle.std.specs.List.{list_all};
ghost use Rattle.s7_base.specs.Statements.{is_statement, is_ju, is_jl, is_target, is_list, lands, all_land};

use crate::Statement;
use instruction_set::{Jump, OperandArea, Operation, instruction_row};

impl Statement {
    /// Whether the statement is one of the language, in a block with so many bytes of local data: its operation is
    /// in the instruction set, which allows its operand.
    pub fn is_of_language(&self, locals: u16) -> bool
        ensures { result ≡ is_statement locals self.now }
    {
        match instruction_row(self.op) {
            Some(row) => self.has_operand(row.operand, u32::from(locals)),
            None => false,
        }
    }

    /// Whether the operation is JU.
    pub fn is_ju(&self) -> bool
        ensures { result ≡ is_ju self.now }
    {
        match instruction_row(self.op) {
            Some(row) => matches!(row.operation, Operation::Jump(Jump::Ju)),
            None => false,
        }
    }

    /// Whether the operation is JL.
    pub fn is_jl(&self) -> bool
        ensures { result ≡ is_jl self.now }
    {
        match instruction_row(self.op) {
            Some(row) => matches!(row.operation, Operation::JumpList),
            None => false,
        }
    }
}

fn are_ju(statements: &[Statement]) -> bool
    ensures { result ≡ list_all is_ju statements.now }
{
    statements.iter().all(|s| s.is_ju())
}

/// Whether a jump at a place, which these statements follow, may have the target.
fn is_target(at: usize, target: usize, after: &[Statement]) -> bool
    requires place { at + length after.now < 4000 }
    requires stored { target < 2 ^ 32 }
    ensures { result ≡ is_target at target after.now }
{
    target <= at + 1 + after.len() && at <= target + 2000 && target <= at + 2000
}

/// Whether a list of JU stands between the JL at a place and its target.
fn is_list(at: usize, target: usize, after: &[Statement]) -> bool
    requires place { at + length after.now < 4000 }
    requires target { target ≤ at + 1 + length after.now }
    ensures { result ≡ is_list at target after.now }
{
    at + 2 <= target && target <= at + 256 && are_ju(&after[..target - (at + 1)])
}

/// Whether the statement at a place, where it is a jump, lands.
fn lands(at: usize, s: &Statement, after: &[Statement]) -> bool
    requires { at + length after.now < 4000 }
    ensures { result ≡ lands at s.now after.now }
{
    if !s.is_in(OperandArea::Target) {
        return true;
    }
    let target = s.value as usize;
    is_target(at, target, after) && (!s.is_jl() || is_list(at, target, after))
}

/// Whether each jump of a block lands.
pub fn all_land(statements: &[Statement]) -> bool
    requires { length statements.now ≤ 4000 }
    ensures { result ≡ all_land 0 statements.now }
{
    let mut at = 0usize;
    let mut rest = statements;
    while let [s, after @ ..] = rest {
        if !lands(at, s, after) {
            return false;
        }
        at += 1;
        rest = after;
    }
    true
}
