//! The local data of the block that runs.
ghost use Rattle.std.specs.Prelude.{◌≡◌, ◌+◌, ◌<◌, ◌≤◌, ◌*◌, ◌^◌, length};
ghost use Rattle.level_stack.specs.Levels.{running_locals};
ghost use Rattle.statement_effects.specs.Areas.{bytes_in, low_part, local_value, with_local_value};

use crate::Memory;
use crate::instruction::{LocalValue, Width};

/// What of a value fits into a width.
pub(crate) fn low_part(width: Width, value: u32) -> u32
    ensures part { result ≡ low_part width value }
    ensures fits { result < 2 ^ (8 * bytes_in width) }
{
    match width {
        Width::Byte => value % 256,
        Width::Word => value % 65536,
        Width::Double => value,
    }
}

impl Memory {
    /// A byte of the local data.
    pub(crate) fn local_byte(&self, at_byte: u8) -> u8
        requires { at_byte + 1 ≤ length (running_locals self.now.levels) }
        ensures { result ≡ local_value self.now at_byte 1 }
    {
        self.levels.read_local(u16::from(at_byte), 1) as u8
    }

    pub(crate) fn put_local_byte(&mut self, at_byte: u8, byte: u8)
        requires { at_byte + 1 ≤ length (running_locals self.old.levels) }
        ensures { self.new ≡ with_local_value self.old at_byte 1 byte }
    {
        self.levels
            .write_local(u16::from(at_byte), 1, u32::from(byte));
    }

    /// A value of the local data.
    pub(crate) fn local_value(&self, place: LocalValue) -> u32
        requires { place.at_byte + bytes_in place.width ≤ length (running_locals self.now.levels) }
        ensures { result ≡ local_value self.now place.at_byte (bytes_in place.width) }
    {
        self.levels
            .read_local(u16::from(place.at_byte), place.width.bytes())
    }

    /// The low 8, 16 or 32 bits of a value are written into the local data.
    pub(crate) fn put_local_value(&mut self, place: LocalValue, value: u32)
        requires { place.at_byte + bytes_in place.width ≤ length (running_locals self.old.levels) }
        ensures { self.new ≡ with_local_value self.old place.at_byte (bytes_in place.width) (low_part place.width value) }
    {
        let width = place.width.bytes();
        let part = low_part(place.width, value);
        self.levels
            .write_local(u16::from(place.at_byte), width, part);
    }
}
