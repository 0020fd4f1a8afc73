//! The registers of a CPU that asks at the end of a cycle, as a page.
ghost use Rattle.std.specs.Prelude.{◌≡◌};
ghost use Rattle.dynamic_pages.specs.declared.registers.CycleRegisters.{CycleRegisters};
ghost use Rattle.dynamic_pages.specs.Registers.{fields_of, bytes_of, IsStored};

use crate::units::PAGE_BYTES;

/// What a CPU keeps beside its areas and its program when it asks at the end of a cycle.
#[derive(Clone, Copy, Debug, PartialEq, Eq)]
pub struct CycleRegisters {
    /// The moment of the last entry, in milliseconds.
    pub at: u64,
    /// The statements completed since then.
    pub since: u32,
    /// The moment at which the output image was put out last.
    pub began_at: u64,
    /// How long the cycle before took, in milliseconds, at most 32,767.
    pub last_length: u16,
    /// Whether the first cycle is over.
    pub first_over: bool,
    /// How many diagnostic entries are kept.
    pub notes: u8,
}

/// Registers of these types fit their bytes. This is for proofs: it does nothing.
fn fields_fit(at: u64, since: u32, began_at: u64, last_length: u16, first_over: bool, notes: u8)
    ensures { IsStored (record { at = at; since = since; began_at = began_at; last_length = last_length; first_over = first_over; notes = notes }) }
{}

impl CycleRegisters {
    /// The bytes of the registers, without those that are 0 for all.
    #[tactic(auto, unfolding(crate::specs::Registers::fields_of))]
    fn fields(&self) -> [u8; 24]
        ensures bytes { result ≡ fields_of self.now }
        ensures fits { IsStored self.now }
    {
        let registers = *self;
        fields_fit(
            registers.at,
            registers.since,
            registers.began_at,
            registers.last_length,
            registers.first_over,
            registers.notes,
        );
        let [a, b, c, d, e, f, g, h] = registers.at.to_be_bytes();
        let [i, j, k, l] = registers.since.to_be_bytes();
        let [m, n, o, p, q, r, s, t] = registers.began_at.to_be_bytes();
        let [u, v] = registers.last_length.to_be_bytes();
        let over = u8::from(registers.first_over);
        let notes = registers.notes;
        [
            a, b, c, d, e, f, g, h, i, j, k, l, m, n, o, p, q, r, s, t, u, v, over, notes,
        ]
    }

    /// Returns the page of the registers.
    pub fn page(&self) -> [u8; 256]
        ensures bytes { result ≡ bytes_of self.now }
        ensures fits { IsStored self.now }
    {
        let mut page = [0; PAGE_BYTES];
        page[..24].copy_from_slice(&self.fields());
        page
    }

    /// Returns the registers of a page. Where it is that of some registers they are these.
    pub fn of_page(page: &[u8; 256]) -> CycleRegisters
        ensures { (r : CycleRegisters) → IsStored r → page.now ≡ bytes_of r → result ≡ r }
    {
        let p = page;
        CycleRegisters {
            at: u64::from_be_bytes([p[0], p[1], p[2], p[3], p[4], p[5], p[6], p[7]]),
            since: u32::from_be_bytes([p[8], p[9], p[10], p[11]]),
            began_at: u64::from_be_bytes([p[12], p[13], p[14], p[15], p[16], p[17], p[18], p[19]]),
            last_length: u16::from_be_bytes([p[20], p[21]]),
            first_over: p[22] == 1,
            notes: p[23],
        }
    }
}
