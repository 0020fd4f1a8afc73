//! The part of an accumulator that a statement works on, read and stored as a number.
ghost use Rattle.std.specs.Prelude.{◌≡◌, ◌^◌, ◌%◌, ◌<◌, ◌≤◌, ◌-◌, pos, FitsSigned};
ghost use Rattle.std.specs.Int.{w32};
ghost use Rattle.status_word.specs.Status.{is_set};
ghost use Rattle.accumulators.specs.Parts.{part, size, low, number, low_bits, with_low, stored};

/// The low byte (LL), the low word (L), or the whole of an accumulator.
#[derive(Clone, Copy)]
pub enum Part {
    LowByte,
    LowWord,
    Whole,
}

impl Part {
    /// The whole where `wide`, else the low word.
    pub fn of(wide: bool) -> Part
        ensures { result ≡ part wide }
    {
        if wide { Part::Whole } else { Part::LowWord }
    }

    /// How many bits it has.
    pub fn size(self) -> u32
        ensures value { result ≡ size self }
        ensures range { result ≤ 32 }
    {
        match self {
            Part::LowByte => 8,
            Part::LowWord => 16,
            Part::Whole => 32,
        }
    }

    /// 2 to the number of its bits.
    fn modulus(self) -> i64
        ensures { result ≡ pos (2 ^ size self) }
    {
        match self {
            Part::LowByte => 0x100,
            Part::LowWord => 0x1_0000,
            Part::Whole => 0x1_0000_0000,
        }
    }

    /// The bits of the part.
    pub fn low(self, accu: u32) -> u32
        ensures value { result ≡ low self accu }
        ensures range { result < 2 ^ size self }
    {
        match self {
            Part::LowByte => accu % 0x100,
            Part::LowWord => accu % 0x1_0000,
            Part::Whole => accu,
        }
    }

    /// The low bits of a value, as many as the part has.
    pub fn low_of(self, value: u64) -> u32
        ensures value { result ≡ low self value }
        ensures range { result < 2 ^ size self }
    {
        match self {
            Part::LowByte => (value % 0x100) as u32,
            Part::LowWord => (value % 0x1_0000) as u32,
            Part::Whole => (value % 0x1_0000_0000) as u32,
        }
    }

    /// The signed number in the part.
    pub fn number(self, accu: u32) -> i64
        ensures value { result ≡ number self accu }
        ensures range { FitsSigned w32 result }
    {
        match self {
            Part::LowByte => i64::from(((accu % 0x100) as u8).cast_signed()),
            Part::LowWord => i64::from(((accu % 0x1_0000) as u16).cast_signed()),
            Part::Whole => i64::from(accu.cast_signed()),
        }
    }

    /// Whether the uppermost bit of the part is 1.
    pub fn is_top_set(self, accu: u32) -> bool
        ensures { result ≡ is_set accu (size self - 1) }
    {
        (accu >> (self.size() - 1)) % 2 == 1
    }

    /// The low bits of a number, as many as the part has.
    pub fn low_bits(self, number: i64) -> u32
        ensures value { result ≡ low_bits self number }
        ensures range { result < 2 ^ size self }
    {
        number.rem_euclid(self.modulus()) as u32
    }

    /// The accumulator with other bits in the part.
    pub fn with_low(self, accu: u32, bits: u32) -> u32
        requires { bits < 2 ^ size self }
        ensures { result ≡ with_low self accu bits }
    {
        accu - self.low(accu) + bits
    }

    /// The accumulator with the low bits of a number in the part.
    pub fn store(self, accu: u32, number: i64) -> u32
        ensures { result ≡ stored self accu number }
    {
        self.with_low(accu, self.low_bits(number))
    }
}
