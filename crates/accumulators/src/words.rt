//! AND, OR and exclusive OR of words and double words.
ghost use Rattle.std.specs.Prelude.{◌≡◌, ◌^◌, ◌<◌};
ghost use Rattle.accumulators.specs.Parts.{size};
ghost use Rattle.accumulators.specs.Words.{combined, worded, worded_status};

use crate::accus::Accus;
use crate::parts::Part;
use instruction_set::Word;
use status_word::StatusWord;

/// Two words of a part combined.
fn combined(op: Word, part: Part, left: u32, right: u32) -> u32
    requires left_range { left < 2 ^ size part }
    requires right_range { right < 2 ^ size part }
    ensures value { result ≡ combined op left right }
    ensures range { result < 2 ^ size part }
{
    match op {
        Word::And => left & right,
        Word::Or => left | right,
        Word::Xor => left ^ right,
    }
}

impl Accus {
    /// AW, OW, XOW, or where `wide` AD, OD, XOD: with the constant, or with ACCU2 where there is
    /// none. Of a constant the low word counts where not `wide`.
    pub fn word(&mut self, status: &mut StatusWord, op: Word, wide: bool, constant: Option<u32>)
        ensures accus { self.new ≡ worded op wide constant self.old }
        ensures status { status.new ≡ worded_status op wide constant self.old status.old }
    {
        let part = Part::of(wide);
        let operand = constant.unwrap_or(self.accu2);
        let bits = combined(op, part, part.low(self.accu1), part.low(operand));
        status.logic(bits != 0);
        self.accu1 = part.with_low(self.accu1, bits);
    }
}
