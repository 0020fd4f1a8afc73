//! The statements on numbers.
ghost use Rattle.std.specs.Prelude.{◌≡◌, ◌≢◌, ◌≤◌, pos, Some, IfSome, FitsSigned};
ghost use Rattle.std.specs.Int.{w32};
ghost use Rattle.accumulators.specs.Numbers.{sign_codes, is_in_range, sum_outcome, product_outcome, word_quotient_outcome, whole_outcome, outcome_of, part_of, is_negation, outcome, worked, worked_status};

use crate::accus::Accus;
use crate::parts::Part;
use instruction_set::Num;
use status_word::StatusWord;

/// What a statement on numbers leaves.
#[derive(Clone, Copy)]
pub struct Outcome {
    pub accu1: u32,
    /// 2 * CC1 + CC0.
    pub codes: u8,
    pub overflow: bool,
}

/// CC1 CC0 by the sign of a number.
fn sign_codes(number: i64) -> u8
    ensures value { result ≡ sign_codes number }
    ensures range { result ≤ 3 }
{
    if number == 0 {
        0
    } else if number < 0 {
        1
    } else {
        2
    }
}

/// Whether a number lies in the range of a part.
fn is_in_range(part: Part, number: i64) -> bool
    ensures { result ≡ is_in_range part number }
{
    let half = match part {
        Part::LowByte => 0x80,
        Part::LowWord => 0x8000,
        Part::Whole => 0x8000_0000,
    };
    -half <= number && number < half
}

/// +, - and NEG with the true result `number`.
fn sum_outcome(part: Part, accu: u32, number: i64) -> Outcome
    ensures value { result ≡ sum_outcome part accu number }
    ensures codes { result.codes ≤ 3 }
{
    let bits = part.low_bits(number);
    let in_range = is_in_range(part, number);
    let shown = if in_range { number } else { part.number(bits) };
    Outcome {
        accu1: part.with_low(accu, bits),
        codes: sign_codes(shown),
        overflow: !in_range,
    }
}

/// * with the true product.
fn product_outcome(part: Part, product: i64) -> Outcome
    ensures value { result ≡ product_outcome part product }
    ensures codes { result.codes ≤ 3 }
{
    Outcome {
        accu1: Part::Whole.low_bits(product),
        codes: sign_codes(product),
        overflow: !is_in_range(part, product),
    }
}

/// /I: the quotient in the low word, the remainder in the high one.
fn word_quotient_outcome(left: i64, right: i64) -> Outcome
    requires left_range { FitsSigned w32 left }
    requires right_range { FitsSigned w32 right }
    requires nonzero { right ≢ pos 0 }
    ensures value { result ≡ word_quotient_outcome left right }
    ensures codes { result.codes ≤ 3 }
{
    let quotient = left / right;
    let remainder = left % right;
    Outcome {
        accu1: 0x1_0000 * Part::LowWord.low_bits(remainder) + Part::LowWord.low_bits(quotient),
        codes: sign_codes(quotient),
        overflow: !is_in_range(Part::LowWord, quotient),
    }
}

/// /D and MOD, with the quotient or the remainder.
fn whole_outcome(number: i64) -> Outcome
    ensures value { result ≡ whole_outcome number }
    ensures codes { result.codes ≤ 3 }
{
    product_outcome(Part::Whole, number)
}

#[tactic(auto, using(crate::proofs::Wide::product_in_64))]
/// The outcome of the numbers of ACCU2, `left`, and ACCU1, `right`. None where the divisor is 0.
fn outcome_of(op: Num, left: i64, right: i64, accu1: u32) -> Option<Outcome>
    requires left_range { FitsSigned w32 left }
    requires right_range { FitsSigned w32 right }
    ensures value { result ≡ outcome_of op left right accu1 }
    ensures codes { IfSome result (λ o. o.codes ≤ 3) }
{
    match op {
        Num::AddI => Some(sum_outcome(Part::LowWord, accu1, left + right)),
        Num::SubI => Some(sum_outcome(Part::LowWord, accu1, left - right)),
        Num::MulI => Some(product_outcome(Part::LowWord, left * right)),
        Num::DivI if right != 0 => Some(word_quotient_outcome(left, right)),
        Num::AddD => Some(sum_outcome(Part::Whole, accu1, left + right)),
        Num::SubD => Some(sum_outcome(Part::Whole, accu1, left - right)),
        Num::MulD => Some(product_outcome(Part::Whole, left * right)),
        Num::DivD if right != 0 => Some(whole_outcome(left / right)),
        Num::ModD if right != 0 => Some(whole_outcome(left % right)),
        Num::DivI | Num::DivD | Num::ModD => None,
        Num::NegI => Some(sum_outcome(Part::LowWord, accu1, -right)),
        Num::NegD => Some(sum_outcome(Part::Whole, accu1, -right)),
    }
}

/// The part that a statement works on.
fn part_of(op: Num) -> Part
    ensures { result ≡ part_of op }
{
    match op {
        Num::AddI | Num::SubI | Num::MulI | Num::DivI | Num::NegI => Part::LowWord,
        Num::AddD | Num::SubD | Num::MulD | Num::DivD | Num::ModD | Num::NegD => Part::Whole,
    }
}

impl Accus {
    /// A statement on numbers. Where the divisor is 0 all accumulators stay, CC1 CC0 is 11, and OV
    /// and OS are 1.
    pub fn num(&mut self, status: &mut StatusWord, op: Num)
        ensures accus { self.new ≡ worked op self.old }
        ensures status { status.new ≡ worked_status op self.old status.old }
    {
        let part = part_of(op);
        let left = part.number(self.accu2);
        let right = part.number(self.accu1);
        match outcome_of(op, left, right, self.accu1) {
            None => status.arith(3, true),
            Some(outcome) => {
                status.arith(outcome.codes, outcome.overflow);
                self.accu1 = outcome.accu1;
                if !matches!(op, Num::NegI | Num::NegD) {
                    self.accu2 = self.accu3;
                    self.accu3 = self.accu4;
                }
            }
        }
    }
}
