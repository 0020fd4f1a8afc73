//! Values in bytes, the highest byte first.
ghost use Rattle.std.specs.Prelude.{◌≡◌, ◌<◌, ◌≤◌, ◌+◌, ◌*◌, ◌^◌, length};
ghost use Rattle.std.specs.Int.{bytes_high_first};
ghost use Rattle.level_stack.specs.Values.{IsWidth, value_of, overwritten};

/// The value of 1, 2 or 4 bytes.
pub(crate) fn value_in(bytes: &[u8]) -> u32
    requires { IsWidth (length bytes.now) }
    ensures value { result ≡ value_of bytes.now }
    ensures bound { result < 2 ^ (8 * length bytes.now) }
{
    match *bytes {
        [byte] => u32::from(byte),
        [high, low] => u32::from(u16::from_be_bytes([high, low])),
        [first, second, third, fourth] => u32::from_be_bytes([first, second, third, fourth]),
        _ => unreachable!(),
    }
}

/// Writes a value into 1, 2 or 4 bytes.
fn put_value(bytes: &mut [u8], value: u32)
    requires width { IsWidth (length bytes.old) }
    requires fits { value < 2 ^ (8 * length bytes.old) }
    ensures { bytes.new ≡ bytes_high_first (length bytes.old) value }
{
    let all = value.to_be_bytes();
    let width = bytes.len();
    bytes.copy_from_slice(&all[4 - width..]);
}

/// Writes the start information into these bytes, from byte `from` on.
pub(crate) fn put_start_at(bytes: &mut [u8], from: usize, start: &[u8; 20])
    requires { from + 20 ≤ length bytes.old }
    ensures { bytes.new ≡ overwritten bytes.old from start.now }
{
    bytes[from..from + 20].copy_from_slice(start);
}

/// Writes a value into `width` of these bytes, from byte `from` on.
pub(crate) fn put_value_at(bytes: &mut [u8], from: usize, width: u8, value: u32)
    requires width { IsWidth width }
    requires fits { value < 2 ^ (8 * width) }
    requires holds { from + width ≤ length bytes.old }
    ensures { bytes.new ≡ overwritten bytes.old from (bytes_high_first width value) }
{
    put_value(&mut bytes[from..from + usize::from(width)], value);
}
