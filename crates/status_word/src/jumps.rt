//! Jumps, calls and status operands.
ghost use Rattle.std.specs.Prelude.{◌≡◌, ◌≤◌, Some, slice_get};
ghost use Rattle.status_word.specs.JumpRows.{taken, after_jump_row, jumped, block_row, operands, is_zero, is_positive, is_negative, is_unordered};

use crate::status::StatusWord;
use instruction_set::Jump;

impl StatusWord {
    /// A jump that depends on RLO or BR, and CC or BEC that is not taken. Where `to_br`, BR takes
    /// the RLO first. Where `rlo_one`, the RLO is 1 afterwards.
    pub fn after_jump(&mut self, to_br: bool, rlo_one: bool)
        ensures { self.new ≡ after_jump_row to_br rlo_one self.old }
    {
        if to_br {
            self.br = self.rlo;
        }
        self.or = false;
        self.sta = true;
        self.rlo = self.rlo || rlo_one;
        self.first_check = false;
    }

    /// A call of a block, or the end of one.
    pub fn after_block(&mut self)
        ensures { self.new ≡ block_row self.old }
    {
        self.or = false;
        self.sta = true;
        self.first_check = false;
        self.os = false;
    }

    /// Answers whether the jump is taken.
    pub fn jump(&mut self, how: Jump) -> bool
        ensures answer { result ≡ taken how self.old }
        ensures status { self.new ≡ jumped how self.old }
    {
        let before = *self;
        match how {
            Jump::Ju => true,
            Jump::Jc => {
                self.after_jump(false, true);
                before.rlo
            }
            Jump::Jcn => {
                self.after_jump(false, true);
                !before.rlo
            }
            Jump::Jcb => {
                self.after_jump(true, true);
                before.rlo
            }
            Jump::Jnb => {
                self.after_jump(true, true);
                !before.rlo
            }
            Jump::Jbi => {
                self.after_jump(false, false);
                before.br
            }
            Jump::Jnbi => {
                self.after_jump(false, false);
                !before.br
            }
            Jump::Jo => before.ov,
            Jump::Jos => {
                self.os = false;
                before.os
            }
            Jump::Jz => before.is_zero(),
            Jump::Jn => before.is_positive() || before.is_negative(),
            Jump::Jp => before.is_positive(),
            Jump::Jm => before.is_negative(),
            Jump::Jpz => before.is_zero() || before.is_positive(),
            Jump::Jmz => before.is_zero() || before.is_negative(),
            Jump::Juo => before.is_unordered(),
        }
    }

    /// The status operand of that number: 0 BR, 1 OV, 2 OS, 3 UO, 4 ==0, 5 <>0, 6 >0, 7 <0, 8 >=0,
    /// 9 <=0.
    pub fn operand(&self, number: u8) -> bool
        requires { number ≤ 9 }
        ensures { slice_get (operands self.now) number ≡ Some result }
    {
        match number {
            0 => self.br,
            1 => self.ov,
            2 => self.os,
            3 => self.is_unordered(),
            4 => self.is_zero(),
            5 => self.is_positive() || self.is_negative(),
            6 => self.is_positive(),
            7 => self.is_negative(),
            8 => self.is_zero() || self.is_positive(),
            _ => self.is_zero() || self.is_negative(),
        }
    }

    /// CC1 CC0 is 00.
    fn is_zero(&self) -> bool
        ensures { result ≡ is_zero self.now }
    {
        !self.cc1 && !self.cc0
    }

    /// CC1 CC0 is 10.
    fn is_positive(&self) -> bool
        ensures { result ≡ is_positive self.now }
    {
        self.cc1 && !self.cc0
    }

    /// CC1 CC0 is 01.
    fn is_negative(&self) -> bool
        ensures { result ≡ is_negative self.now }
    {
        !self.cc1 && self.cc0
    }

    /// CC1 CC0 is 11.
    fn is_unordered(&self) -> bool
        ensures { result ≡ is_unordered self.now }
    {
        self.cc1 && self.cc0
    }
}
