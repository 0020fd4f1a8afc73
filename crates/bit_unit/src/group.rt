//! An entry of the nesting stack.
ghost use Rattle.std.specs.Prelude.{◌≡◌};
ghost use Rattle.bit_unit.specs.Steps.{saved, closed_row};

use status_word::{Check, StatusWord};

/// What A( and the like save: the function of the group, RLO, OR and /FC.
#[derive(Clone, Copy, PartialEq, Eq, Debug)]
pub struct Group {
    pub how: Check,
    pub rlo: bool,
    pub or: bool,
    pub first_check: bool,
}

/// An entry that holds nothing.
pub const BLANK: Group = Group {
    how: Check::And,
    rlo: false,
    or: false,
    first_check: false,
};

impl Group {
    /// What is saved where a group opens.
    pub fn save(how: Check, status: &StatusWord) -> Group
        ensures { result ≡ saved how status.now }
    {
        Group {
            how,
            rlo: status.rlo,
            or: status.or,
            first_check: status.first_check,
        }
    }

    /// `)`: the check of the group with its RLO as the operand, from what was saved.
    pub fn close(self, status: &mut StatusWord)
        ensures { status.new ≡ closed_row self status.old }
    {
        let inner = status.rlo;
        status.rlo = self.rlo;
        status.or = self.or;
        status.first_check = self.first_check;
        status.check(self.how, inner);
        status.sta = true;
    }
}
