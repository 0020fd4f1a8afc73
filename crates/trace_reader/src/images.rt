//! Images: bytes that are written by their addresses.
ghost use Rattle.std.specs.Prelude.{◌≡◌, ◌<◌, ◌++◌, ◌&&◌, ◌==◌, length, IfSome};
ghost use Rattle.std.specs.Option.{option_map};
ghost use Rattle.trace_reader.specs.Ranges.{AreBytes, IsImage};
ghost use Rattle.trace_reader.specs.Images.{cell_text, image, cell_at, byte_of, image_at};

use crate::fields::{after, byte_at, number_at};

/// Returns the byte of the next cell, where that is the cell of this address, and the text after it. A comma stands
/// before each cell but the first. A byte that is 0 has no cell.
#[tactic(auto, unfolding(crate::specs::Images::cell_at), using(std::proofs::Common::append_assoc))]
fn cell_at(text: &[u8], is_first: bool, at: usize) -> Option<(u8, &[u8])>
    ensures exact { option_map (λ p. (p.0, p.1.now)) result ≡ cell_at is_first at text.now }
    ensures written { IfSome result (λ p. text.now ≡ cell_text is_first at p.0 ++ p.1.now) }
    ensures within { IfSome result (λ p. p.0 < 256) }
{
    let begin = if is_first { text } else { after(b",", text)? };
    let (address, rest) = number_at(begin, 65_535)?;
    let rest = after(b":", rest)?;
    let (byte, rest) = byte_at(rest)?;
    if address as usize != at || byte == 0 {
        return None;
    }
    Some((byte, rest))
}

/// Returns the byte of this address, which is 0 where the next cell is not its own, and the text after its cell.
#[tactic(auto, unfolding(crate::specs::Images::byte_of))]
fn byte_of(text: &[u8], is_first: bool, at: usize) -> (u8, &[u8])
    ensures exact { (result.0, result.1.now) ≡ byte_of is_first at text.now }
    ensures written { text.now ≡ cell_text is_first at result.0 ++ result.1.now }
    ensures within { result.0 < 256 }
{
    match cell_at(text, is_first, at) {
        Some(found) => found,
        None => (0, text),
    }
}

/// Returns whether the next cell is the first, after this byte.
fn still_first(is_first: bool, byte: u8) -> bool
    ensures { result ≡ (is_first && byte == 0) }
{
    is_first && byte == 0
}

/// Sets the bytes to those of an image, and returns the text after it.
pub fn image_at<'a>(bytes: &mut [u8], text: &'a [u8]) -> Option<&'a [u8]>
    ensures exact { option_map (λ rest. (bytes.new, rest.now)) result ≡ image_at (length bytes.old) text.now }
    ensures written { IfSome result (λ rest. text.now ≡ image bytes.new ++ rest.now) }
    ensures fits { IfSome result (λ rest. AreBytes bytes.new) }
{
    let mut rest = text;
    let mut is_first = true;
    for at in 0..bytes.len() {
        let (byte, next) = byte_of(rest, is_first, at);
        bytes[at] = byte;
        rest = next;
        is_first = still_first(is_first, byte);
    }
    if !is_first {
        return Some(rest);
    }
    let rest = after(b"-", rest)?;
    Some(rest)
}

/// Returns the 64 bytes of an image of the inputs or of the outputs, and the text after it.
pub fn process_image_at(text: &[u8]) -> Option<([u8; 64], &[u8])>
    ensures exact { option_map (λ p. (p.0, p.1.now)) result ≡ image_at 64 text.now }
    ensures written { IfSome result (λ p. text.now ≡ image p.0 ++ p.1.now) }
    ensures fits { IfSome result (λ p. IsImage 64 p.0) }
{
    let mut bytes = [0; 64];
    let rest = image_at(&mut bytes, text)?;
    Some((bytes, rest))
}

/// Returns the 1,024 bytes of an image of bit memory, and the text after it.
pub fn memory_image_at(text: &[u8]) -> Option<([u8; 1024], &[u8])>
    ensures exact { option_map (λ p. (p.0, p.1.now)) result ≡ image_at 1024 text.now }
    ensures written { IfSome result (λ p. text.now ≡ image p.0 ++ p.1.now) }
    ensures fits { IfSome result (λ p. IsImage 1024 p.0) }
{
    let mut bytes = [0; 1024];
    let rest = image_at(&mut bytes, text)?;
    Some((bytes, rest))
}
