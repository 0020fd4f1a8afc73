//! The status word and the rows of the bit statements.
ghost use Rattle.std.specs.Prelude.{◌≡◌, ◌<◌, ◌%◌, true, false};
ghost use Rattle.status_word.specs.Status.{is_set, bits_of, status_of, cleared_status, row};
ghost use Rattle.status_word.specs.BitRows.{checked, and_result, or_result, xor_result, edged, edge_bit, or_row, write_row, not_row, set_row, clear_row, save_row, timer_row, bracket_row};

use instruction_set::Check;

/// The status word. A bit that is 1 is `true`.
#[derive(Clone, Copy, PartialEq, Eq, Default, Debug)]
pub struct StatusWord {
    /// Bit 0, `/FC`: whether the next check goes on from the RLO. Where it is 0, the next check is
    /// a first one.
    pub first_check: bool,
    /// Bit 1: the result of the logic operations so far.
    pub rlo: bool,
    /// Bit 2: the bit that the last bit statement read or wrote.
    pub sta: bool,
    /// Bit 3: what a following A adds to its result, since an O stood alone.
    pub or: bool,
    /// Bit 4: an overflow since the bit was last cleared.
    pub os: bool,
    /// Bit 5: the last number instruction went past its range.
    pub ov: bool,
    /// Bit 6: the low condition code.
    pub cc0: bool,
    /// Bit 7: the high condition code.
    pub cc1: bool,
    /// Bit 8: the binary result.
    pub br: bool,
}

/// Whether the bit at that place of a word is 1.
fn is_set(word: u16, place: u32) -> bool
    requires { place < 16 }
    ensures { result ≡ is_set word place }
{
    (word >> place) % 2 == 1
}

impl StatusWord {
    /// The status word with all bits 0.
    pub fn new() -> StatusWord
        ensures { result ≡ cleared_status }
    {
        StatusWord {
            first_check: false,
            rlo: false,
            sta: false,
            or: false,
            os: false,
            ov: false,
            cc0: false,
            cc1: false,
            br: false,
        }
    }

    #[tactic(auto, using(crate::proofs::Bits::status_of_its_bits))]
    /// The nine bits as a word, `/FC` as bit 0.
    pub fn to_bits(&self) -> u16
        ensures word { result ≡ bits_of self.now }
        ensures range { result < 512 }
        ensures back { status_of result ≡ self.now }
    {
        u16::from(self.first_check)
            + 2 * u16::from(self.rlo)
            + 4 * u16::from(self.sta)
            + 8 * u16::from(self.or)
            + 16 * u16::from(self.os)
            + 32 * u16::from(self.ov)
            + 64 * u16::from(self.cc0)
            + 128 * u16::from(self.cc1)
            + 256 * u16::from(self.br)
    }

    /// The status word of the low nine bits of a word.
    pub fn of_bits(word: u16) -> StatusWord
        ensures status { result ≡ status_of word }
        ensures back { bits_of result ≡ word % 512 }
    {
        StatusWord {
            first_check: is_set(word, 0),
            rlo: is_set(word, 1),
            sta: is_set(word, 2),
            or: is_set(word, 3),
            os: is_set(word, 4),
            ov: is_set(word, 5),
            cc0: is_set(word, 6),
            cc1: is_set(word, 7),
            br: is_set(word, 8),
        }
    }

    /// A, AN, O, ON, X, XN with the bit `operand`.
    pub fn check(&mut self, how: Check, operand: bool)
        ensures { self.new ≡ checked how operand self.old }
    {
        match how {
            Check::And => self.and(operand, operand),
            Check::AndNot => self.and(operand, !operand),
            Check::Or => self.or(operand, operand),
            Check::OrNot => self.or(operand, !operand),
            Check::Xor => self.xor(operand, operand),
            Check::XorNot => self.xor(operand, !operand),
        }
    }

    /// A or AN: `value` is the operand or its inverse.
    fn and(&mut self, operand: bool, value: bool)
        ensures { self.new ≡ row self.old.or operand (and_result value self.old) true self.old }
    {
        let before = !self.first_check || self.rlo;
        self.sta = operand;
        self.rlo = before && value || self.or;
        self.first_check = true;
    }

    /// O or ON: `value` is the operand or its inverse.
    fn or(&mut self, operand: bool, value: bool)
        ensures { self.new ≡ row false operand (or_result value self.old) true self.old }
    {
        let before = self.first_check && self.rlo;
        self.or = false;
        self.sta = operand;
        self.rlo = before || value;
        self.first_check = true;
    }

    /// X or XN: `value` is the operand or its inverse.
    #[tactic(auto, using(crate::proofs::Differs::not_same_is_differ))]
    fn xor(&mut self, operand: bool, value: bool)
        ensures { self.new ≡ row false operand (xor_result value self.old) true self.old }
    {
        let before = self.first_check && self.rlo;
        self.or = false;
        self.sta = operand;
        self.rlo = before != value;
        self.first_check = true;
    }

    /// O alone: the result so far is added to those of the A that follow.
    pub fn or_alone(&mut self)
        ensures { self.new ≡ or_row self.old }
    {
        self.or = self.rlo;
        self.sta = true;
        self.first_check = false;
    }

    /// The brackets that begin a group or a zone of the master control relay, and that end a zone:
    /// A( and the like, MCR( and )MCR.
    pub fn after_bracket(&mut self)
        ensures { self.new ≡ bracket_row self.old }
    {
        self.or = false;
        self.sta = true;
        self.first_check = false;
    }

    /// =, S and R on a bit.
    pub fn after_write(&mut self)
        ensures { self.new ≡ write_row self.old }
    {
        self.or = false;
        self.sta = self.rlo;
        self.first_check = false;
    }

    /// NOT.
    pub fn invert(&mut self)
        ensures { self.new ≡ not_row self.old }
    {
        self.sta = true;
        self.rlo = !self.rlo;
    }

    /// SET.
    pub fn set(&mut self)
        ensures { self.new ≡ set_row self.old }
    {
        self.or = false;
        self.sta = true;
        self.rlo = true;
        self.first_check = false;
    }

    /// CLR.
    pub fn clear(&mut self)
        ensures { self.new ≡ clear_row self.old }
    {
        self.or = false;
        self.sta = false;
        self.rlo = false;
        self.first_check = false;
    }

    /// SAVE.
    pub fn save(&mut self)
        ensures { self.new ≡ save_row self.old }
    {
        self.br = self.rlo;
    }

    /// FP where `rising`, else FN, with the edge bit `old`. Answers the edge bit to store.
    pub fn edge(&mut self, rising: bool, old: bool) -> bool
        ensures status { self.new ≡ edged rising old self.old }
        ensures stored { result ≡ edge_bit self.old }
    {
        let now = self.rlo;
        self.or = false;
        self.sta = now;
        self.rlo = if rising { now && !old } else { old && !now };
        self.first_check = true;
        now
    }

    /// A start, S, R, FR, CU or CD of a timer or counter.
    pub fn after_timer(&mut self)
        ensures { self.new ≡ timer_row self.old }
    {
        self.or = false;
        self.first_check = false;
    }
}
