//! What number, compare, word and shift statements do to the status word.
ghost use Rattle.std.specs.Prelude.{◌≡◌, ◌≤◌};
ghost use Rattle.status_word.specs.NumberRows.{arith_row, compared, logic_row, shift_row};

use crate::status::StatusWord;
use instruction_set::Cmp;

impl StatusWord {
    /// A statement on numbers with the condition codes `cc`, that is 2 * CC1 + CC0. An overflow
    /// sets OV and OS; else OV is 0 and OS stays.
    pub fn arith(&mut self, cc: u8, overflow: bool)
        requires { cc ≤ 3 }
        ensures { self.new ≡ arith_row cc overflow self.old }
    {
        self.cc1 = cc / 2 == 1;
        self.cc0 = cc % 2 == 1;
        self.ov = overflow;
        self.os = self.os || overflow;
    }

    /// A comparison of `left`, which is ACCU2, with `right`, which is ACCU1.
    pub fn compare(&mut self, left: i32, right: i32, how: Cmp)
        ensures { self.new ≡ compared how left right self.old }
    {
        let holds = match how {
            Cmp::Eq => left == right,
            Cmp::Ne => left != right,
            Cmp::Gt => left > right,
            Cmp::Lt => left < right,
            Cmp::Ge => left >= right,
            Cmp::Le => left <= right,
        };
        self.cc1 = left > right;
        self.cc0 = left < right;
        self.ov = false;
        self.or = false;
        self.sta = holds;
        self.rlo = holds;
        self.first_check = true;
    }

    /// AND, OR and exclusive OR of words, whose result is 0 or not.
    pub fn logic(&mut self, nonzero: bool)
        ensures { self.new ≡ logic_row nonzero self.old }
    {
        self.cc1 = nonzero;
        self.cc0 = false;
        self.ov = false;
    }

    /// A shift or rotation whose last bit moved out is `last`.
    pub fn shifted(&mut self, last: bool)
        ensures { self.new ≡ shift_row last self.old }
    {
        self.cc1 = last;
        self.cc0 = false;
        self.ov = false;
    }
}
