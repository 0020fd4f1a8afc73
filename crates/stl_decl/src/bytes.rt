//! The bytes that a section has at first.
ghost use Rattle.std.specs.Prelude.{◌≡◌, ◌≤◌, ◌<◌, ◌^◌, slice_set, slice_index, length, IfOk};
ghost use Rattle.stl_decl.specs.Steps.{IsNoFault};
ghost use Rattle.stl_decl.specs.Layout.{size_of};
ghost use Rattle.stl_decl.specs.Bytes.{with_bit, put_bit, put_bytes, put, fill_elements, written, first_bytes};

use crate::fault::StepError;
use crate::layout::{FirstValue, Layout};
use std::alloc::Global;

/// Writes a byte, where there is one at the index. Places have 128 bits, so that no sum of them is too great.
#[tactic(auto, using(std::proofs::lemmas::List::set_past))]
fn set_byte(bytes: &mut [u8], index: u128, byte: u8)
    ensures { bytes.new ≡ slice_set bytes.old index byte }
{
    if index < bytes.len() as u128 {
        bytes[index as usize] = byte;
    }
}

/// The byte at an index, or 0 past the end.
fn byte_at(bytes: &[u8], index: u128) -> u8
    ensures { result ≡ slice_index bytes.now index }
{
    if index < bytes.len() as u128 {
        bytes[index as usize]
    } else {
        0
    }
}

/// The byte with one bit 0 or 1.
fn with_bit(byte: u8, bit: u8, value: u32) -> u8
    requires { bit < 8 }
    ensures { result ≡ with_bit byte bit value }
{
    if value == 0 {
        byte & (255 - (1 << bit))
    } else {
        byte | (1 << bit)
    }
}

/// Writes a value of one bit.
fn put_bit(bytes: &mut [u8], bit: u128, value: u32)
    ensures { bytes.new ≡ put_bit bit value bytes.old }
{
    let byte = with_bit(byte_at(bytes, bit / 8), (bit % 8) as u8, value);
    set_byte(bytes, bit / 8, byte);
}

/// Writes a value of so many bytes, the high byte first.
fn put_bytes(bytes: &mut [u8], at: u128, count: u64, value: u32)
    requires { at < 2 ^ 126 }
    ensures { bytes.new ≡ put_bytes at count value bytes.old }
{
    let mut rest = value;
    for done in 0..count {
        let left = count - 1 - done;
        set_byte(bytes, at + left as u128, (rest % 256) as u8);
        rest /= 256;
    }
}

/// Writes a value of so many bits.
#[tactic(auto, unfolding(crate::specs::Bytes::put))]
fn put(bytes: &mut [u8], bit: u128, bits: u64, value: u32)
    requires { bit < 2 ^ 126 }
    ensures { bytes.new ≡ put bit bits value bytes.old }
{
    if bits == 1 {
        put_bit(bytes, bit, value);
    } else {
        put_bytes(bytes, bit / 8, bits / 8, value);
    }
}

/// Writes a value into each of its elements.
fn fill_elements(bytes: &mut [u8], value: FirstValue)
    ensures { bytes.new ≡ fill_elements value.count value.first_bit value.bits value.value bytes.old }
{
    let mut bit = value.first_bit as u128;
    for _element in 0..value.count {
        put(bytes, bit, value.bits, value.value);
        bit += value.bits as u128;
    }
}

/// Writes the values in their order.
fn write_all(bytes: &mut [u8], values: &[FirstValue])
    ensures { bytes.new ≡ written values.now bytes.old }
{
    for value in values {
        fill_elements(bytes, *value);
    }
}

/// The bytes that a section of at most 65,536 bytes has at first: zeros, and its first values, written in their
/// order.
pub fn first_bytes(alloc: Global, layout: &Layout) -> Result<Vec<u8>, StepError>
    requires { size_of layout.now ≤ 65536 }
    ensures exact { IfOk result (λ v. v.items ≡ first_bytes layout.now) }
    ensures err { IsNoFault result }
{
    let mut bytes = vec![in alloc; 0; layout.size() as usize]?;
    write_all(&mut bytes, layout.values());
    Ok(bytes)
}
