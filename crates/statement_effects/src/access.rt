//! Direct access to the peripherals.
ghost use Rattle.std.specs.Prelude.{◌≡◌, ◌*◌, ◌^◌, ◌<◌};
ghost use Rattle.cpu_image.specs.Values.{IsWidth};
ghost use Rattle.statement_effects.specs.Areas.{bytes_in};
ghost use Rattle.statement_effects.specs.AccessEffect.{access_in, value_put, put_out};

use crate::Memory;
use crate::instruction::{Access, Width};

impl Access {
    /// The access of 1, 2 or 4 bytes from an address on; of 4, where it is given another number.
    pub fn of(addr: u16, bytes: u8) -> Access
        ensures { result ≡ access_in addr bytes }
    {
        let width = match bytes {
            1 => Width::Byte,
            2 => Width::Word,
            _ => Width::Double,
        };
        Access { addr, width }
    }
}

impl Memory {
    /// The value that `T` writes to the peripherals: what of ACCU1 fits into the width, and 0 in a zone of the MCR that is off.
    pub fn value_put(&self, width: Width) -> u32
        ensures value { result ≡ value_put self.now width }
        ensures fits { result < 2 ^ (8 * bytes_in width) }
    {
        let value = self.transferred();
        match width {
            Width::Byte => value % 256,
            Width::Word => value % 65536,
            Width::Double => value,
        }
    }

    /// A value of 1, 2 or 4 bytes was written at an address of the peripherals: those of its bytes, the highest first, that lie
    /// in the output image, 0 to 63, are written into it too, and its page is marked.
    pub fn put_out(&mut self, addr: u16, bytes: u8, value: u32)
        requires width { IsWidth bytes }
        requires fits { value < 2 ^ (8 * bytes) }
        ensures { self.new ≡ put_out self.old addr bytes value }
    {
        self.image.write_outputs(addr, bytes, value);
    }
}
