//! The accumulators, and the statements that move or change them and leave the status word.
ghost use Rattle.std.specs.Prelude.{◌≡◌};
ghost use Rattle.accumulators.specs.Moves.{cleared_accus, loaded, moved, constant_added, byte_counted};

use crate::parts::Part;
use instruction_set::Move;

/// The accumulators ACCU1 to ACCU4.
#[derive(Clone, Copy, PartialEq, Eq, Default, Debug)]
pub struct Accus {
    pub accu1: u32,
    pub accu2: u32,
    pub accu3: u32,
    pub accu4: u32,
}

impl Accus {
    /// All four accumulators 0.
    pub fn new() -> Accus
        ensures { result ≡ cleared_accus }
    {
        Accus {
            accu1: 0,
            accu2: 0,
            accu3: 0,
            accu4: 0,
        }
    }

    /// L of a value: ACCU1 goes to ACCU2.
    pub fn load(&mut self, value: u32)
        ensures { self.new ≡ loaded value self.old }
    {
        self.accu2 = self.accu1;
        self.accu1 = value;
    }

    /// PUSH, POP, ENT, LEAVE, TAK, CAW, CAD, INVI, INVD, ITD.
    pub fn moves(&mut self, op: Move)
        ensures { self.new ≡ moved op self.old }
    {
        match op {
            Move::Push => {
                self.accu4 = self.accu3;
                self.accu3 = self.accu2;
                self.accu2 = self.accu1;
            }
            Move::Pop => {
                self.accu1 = self.accu2;
                self.accu2 = self.accu3;
                self.accu3 = self.accu4;
            }
            Move::Ent => {
                self.accu4 = self.accu3;
                self.accu3 = self.accu2;
            }
            Move::Leave => {
                self.accu2 = self.accu3;
                self.accu3 = self.accu4;
            }
            Move::Tak => {
                let first = self.accu1;
                self.accu1 = self.accu2;
                self.accu2 = first;
            }
            Move::Caw => {
                let word = (self.accu1 % 0x1_0000) as u16;
                self.accu1 = Part::LowWord.with_low(self.accu1, u32::from(word.swap_bytes()));
            }
            Move::Cad => self.accu1 = self.accu1.swap_bytes(),
            Move::Invi => {
                let word = (self.accu1 % 0x1_0000) as u16;
                self.accu1 = Part::LowWord.with_low(self.accu1, u32::from(!word));
            }
            Move::Invd => self.accu1 = !self.accu1,
            Move::Itd => {
                let number = Part::LowWord.number(self.accu1);
                self.accu1 = Part::Whole.store(self.accu1, number);
            }
        }
    }

    /// `+` with a constant: it is added to ACCU1, or where not `wide` to its low word, and wraps.
    pub fn add_const(&mut self, value: i32, wide: bool)
        ensures { self.new ≡ constant_added value wide self.old }
    {
        let part = Part::of(wide);
        let sum = part.number(self.accu1) + i64::from(value);
        self.accu1 = part.store(self.accu1, sum);
    }

    /// INC, or DEC where `down`: the low byte of ACCU1 counts modulo 256.
    pub fn inc(&mut self, by: u8, down: bool)
        ensures { self.new ≡ byte_counted by down self.old }
    {
        let byte = i64::from(self.accu1 % 0x100);
        let step = i64::from(by);
        let counted = if down { byte - step } else { byte + step };
        self.accu1 = Part::LowByte.store(self.accu1, counted);
    }
}
