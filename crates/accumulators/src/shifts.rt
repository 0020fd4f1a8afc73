//! Shifts and rotations of ACCU1.
ghost use Rattle.std.specs.Prelude.{◌≡◌, ◌^◌, ◌<◌};
ghost use Rattle.status_word.specs.Status.{is_set};
ghost use Rattle.accumulators.specs.Parts.{size};
ghost use Rattle.accumulators.specs.Shifts.{to_left, to_right, signed_to_right, rotated_left, rotated_right, shift_of, shift_part, shifted, shifted_status};

use crate::accus::Accus;
use crate::parts::Part;
use instruction_set::Shift;
use status_word::StatusWord;

/// What a shift leaves: the bits of the part, and the last bit moved out.
#[derive(Clone, Copy)]
pub struct Shifted {
    pub bits: u32,
    pub last: bool,
}

/// What is left where all bits have moved out.
const EMPTY: Shifted = Shifted {
    bits: 0,
    last: false,
};

/// Whether the bit at that place is 1.
fn is_set(bits: u32, place: u32) -> bool
    requires { place < 32 }
    ensures { result ≡ is_set bits place }
{
    (bits >> place) % 2 == 1
}

/// SLW, SLD.
fn to_left(part: Part, bits: u32, count: u32) -> Shifted
    requires bits { bits < 2 ^ size part }
    requires count { 0 < count }
    ensures value { result ≡ to_left part bits count }
    ensures range { result.bits < 2 ^ size part }
{
    let size = part.size();
    if count > size {
        return EMPTY;
    }
    let moved = u64::from(bits) << count;
    Shifted {
        bits: part.low_of(moved),
        last: is_set(bits, size - count),
    }
}

/// SRW, SRD.
fn to_right(part: Part, bits: u32, count: u32) -> Shifted
    requires bits { bits < 2 ^ size part }
    requires count { 0 < count }
    ensures value { result ≡ to_right part bits count }
    ensures range { result.bits < 2 ^ size part }
{
    if count > part.size() {
        return EMPTY;
    }
    Shifted {
        bits: (u64::from(bits) >> count) as u32,
        last: is_set(bits, count - 1),
    }
}

/// SSI, SSD.
fn signed_to_right(part: Part, accu: u32, count: u32) -> Shifted
    requires { 0 < count }
    ensures value { result ≡ signed_to_right part accu count }
    ensures range { result.bits < 2 ^ size part }
{
    let places = count.min(part.size());
    Shifted {
        bits: part.low_bits(part.number(accu) >> places),
        last: is_set(part.low(accu), places - 1),
    }
}

/// RLD.
fn rotated_left(accu: u32, count: u32) -> Shifted
    ensures { result ≡ rotated_left accu count }
{
    let bits = accu.rotate_left(count);
    Shifted {
        bits,
        last: is_set(bits, 0),
    }
}

/// RRD.
fn rotated_right(accu: u32, count: u32) -> Shifted
    ensures { result ≡ rotated_right accu count }
{
    let bits = accu.rotate_right(count);
    Shifted {
        bits,
        last: is_set(bits, 31),
    }
}

/// The part that a shift works on.
fn shift_part(op: Shift) -> Part
    ensures { result ≡ shift_part op }
{
    match op {
        Shift::Ssi | Shift::Slw | Shift::Srw => Part::LowWord,
        Shift::Ssd | Shift::Sld | Shift::Srd | Shift::Rld | Shift::Rrd => Part::Whole,
    }
}

/// A shift of an accumulator.
fn shift_of(op: Shift, accu: u32, count: u32) -> Shifted
    requires { 0 < count }
    ensures value { result ≡ shift_of op accu count }
    ensures range { result.bits < 2 ^ size (shift_part op) }
{
    match op {
        Shift::Ssi => signed_to_right(Part::LowWord, accu, count),
        Shift::Ssd => signed_to_right(Part::Whole, accu, count),
        Shift::Slw => to_left(Part::LowWord, Part::LowWord.low(accu), count),
        Shift::Srw => to_right(Part::LowWord, Part::LowWord.low(accu), count),
        Shift::Sld => to_left(Part::Whole, Part::Whole.low(accu), count),
        Shift::Srd => to_right(Part::Whole, Part::Whole.low(accu), count),
        Shift::Rld => rotated_left(accu, count),
        Shift::Rrd => rotated_right(accu, count),
    }
}

impl Accus {
    /// A shift or rotation by `count`, from 0 to 255. A count of 0 changes nothing.
    pub fn shift(&mut self, status: &mut StatusWord, op: Shift, count: u8)
        ensures accus { self.new ≡ shifted op count self.old }
        ensures status { status.new ≡ shifted_status op count self.old status.old }
    {
        if count == 0 {
            return;
        }
        let moved = shift_of(op, self.accu1, u32::from(count));
        status.shifted(moved.last);
        self.accu1 = shift_part(op).with_low(self.accu1, moved.bits);
    }
}
