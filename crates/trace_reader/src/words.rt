//! The words of a line: sides, stop codes, widths and places.
ghost use Rattle.std.specs.Prelude.{◌≡◌, ◌++◌, ◌<◌, IfSome};
ghost use Rattle.std.specs.Option.{option_map};
ghost use Rattle.std.specs.Fmt.{decimal};
ghost use Rattle.trace_reader.specs.Fields.{number_at};
ghost use Rattle.trace_reader.specs.Words.{side_at, missing_ob_at, stop_at, loss_at, lost_at, width_digit_at, width_letter_at, value_at, area_at, place_at};
ghost use Rattle.trace_reader.specs.Ranges.{FitsWidth, FitsArea, FitsPlace};
ghost use Rattle.trace_reader.specs.Text.{side_text, stop_text, loss_text, lost_text, width_digit, width_letter, value_text, area_text, place_text};

use crate::fields::{after, byte_at, double_at, number_at, word_value_at};
use crate::trace::{JobArea, Loss, Place, Side, StopCode, Width};

/// Returns the side of a letter, and the text after it.
#[tactic(auto, unfolding(crate::specs::Words::side_at))]
pub fn side_at(text: &[u8]) -> Option<(Side, &[u8])>
    ensures exact { option_map (λ p. (p.0, p.1.now)) result ≡ side_at text.now }
    ensures written { IfSome result (λ p. text.now ≡ side_text p.0 ++ p.1.now) }
{
    if let Some(rest) = after(b"A", text) {
        return Some((Side::A, rest));
    }
    let rest = after(b"B", text)?;
    Some((Side::B, rest))
}

/// Returns one of the stop codes of a missing error OB, and the text after it.
#[tactic(auto, unfolding(crate::specs::Words::missing_ob_at))]
fn missing_ob_at(text: &[u8]) -> Option<(StopCode, &[u8])>
    ensures exact { option_map (λ p. (p.0, p.1.now)) result ≡ missing_ob_at text.now }
    ensures written { IfSome result (λ p. text.now ≡ stop_text p.0 ++ p.1.now) }
{
    if let Some(rest) = after(b"NOOB121", text) {
        return Some((StopCode::NoOb121, rest));
    }
    if let Some(rest) = after(b"NOOB122", text) {
        return Some((StopCode::NoOb122, rest));
    }
    let rest = after(b"NOOB85", text)?;
    Some((StopCode::NoOb85, rest))
}

/// Returns the stop code of a word, and the text after it.
#[tactic(auto, unfolding(crate::specs::Words::stop_at))]
pub fn stop_at(text: &[u8]) -> Option<(StopCode, &[u8])>
    ensures exact { option_map (λ p. (p.0, p.1.now)) result ≡ stop_at text.now }
    ensures written { IfSome result (λ p. text.now ≡ stop_text p.0 ++ p.1.now) }
{
    if let Some(rest) = after(b"CYCLE", text) {
        return Some((StopCode::Cycle, rest));
    }
    if let Some(rest) = after(b"SFC46", text) {
        return Some((StopCode::Sfc46, rest));
    }
    if let Some(rest) = after(b"DEPTH", text) {
        return Some((StopCode::Depth, rest));
    }
    if let Some(rest) = after(b"LOCAL", text) {
        return Some((StopCode::Local, rest));
    }
    if let Some(rest) = after(b"INERROR", text) {
        return Some((StopCode::InError, rest));
    }
    missing_ob_at(text)
}

/// Returns why a side was lost, and the text after it.
#[tactic(auto, unfolding(crate::specs::Words::loss_at))]
fn loss_at(text: &[u8]) -> Option<(Loss, &[u8])>
    ensures exact { option_map (λ p. (p.0, p.1.now)) result ≡ loss_at text.now }
    ensures written { IfSome result (λ p. text.now ≡ loss_text p.0 ++ p.1.now) }
{
    if let Some(rest) = after(b" FAILED", text) {
        return Some((Loss::Failed, rest));
    }
    let rest = after(b" SUSPECT", text)?;
    Some((Loss::Suspect, rest))
}

/// Returns the side that was lost and why, after `LOST `, and the text after them.
#[tactic(auto, unfolding(crate::specs::Words::lost_at), using(std::proofs::Common::append_assoc))]
pub fn lost_at(text: &[u8]) -> Option<((Side, Loss), &[u8])>
    ensures exact { option_map (λ p. (p.0, p.1.now)) result ≡ lost_at text.now }
    ensures written { IfSome result (λ p. text.now ≡ lost_text p.0.0 p.0.1 ++ p.1.now) }
{
    let rest = after(b"LOST ", text)?;
    let (side, rest) = side_at(rest)?;
    let (why, rest) = loss_at(rest)?;
    Some(((side, why), rest))
}

/// Returns the width of a number of bytes, and the text after it.
#[tactic(auto, unfolding(crate::specs::Words::width_digit_at))]
pub fn width_digit_at(text: &[u8]) -> Option<(Width, &[u8])>
    ensures exact { option_map (λ p. (p.0, p.1.now)) result ≡ width_digit_at text.now }
    ensures written { IfSome result (λ p. text.now ≡ width_digit p.0 ++ p.1.now) }
{
    if let Some(rest) = after(b"1", text) {
        return Some((Width::Byte, rest));
    }
    if let Some(rest) = after(b"2", text) {
        return Some((Width::Word, rest));
    }
    let rest = after(b"4", text)?;
    Some((Width::Double, rest))
}

/// Returns the width of a letter, and the text after it.
#[tactic(auto, unfolding(crate::specs::Words::width_letter_at))]
fn width_letter_at(text: &[u8]) -> Option<(Width, &[u8])>
    ensures exact { option_map (λ p. (p.0, p.1.now)) result ≡ width_letter_at text.now }
    ensures written { IfSome result (λ p. text.now ≡ width_letter p.0 ++ p.1.now) }
{
    if let Some(rest) = after(b"B", text) {
        return Some((Width::Byte, rest));
    }
    if let Some(rest) = after(b"W", text) {
        return Some((Width::Word, rest));
    }
    let rest = after(b"D", text)?;
    Some((Width::Double, rest))
}

/// Returns a value of this width, and the text after it.
#[tactic(auto, unfolding(crate::specs::Words::value_at))]
pub fn value_at(text: &[u8], width: Width) -> Option<(u32, &[u8])>
    ensures exact { option_map (λ p. (p.0, p.1.now)) result ≡ value_at width text.now }
    ensures written { IfSome result (λ p. text.now ≡ value_text width p.0 ++ p.1.now) }
    ensures fits { IfSome result (λ p. FitsWidth width p.0) }
{
    match width {
        Width::Byte => {
            let (value, rest) = byte_at(text)?;
            Some((u32::from(value), rest))
        }
        Width::Word => {
            let (value, rest) = word_value_at(text)?;
            Some((u32::from(value), rest))
        }
        Width::Double => double_at(text),
    }
}

/// Returns the number of a block or of a byte, at most 65,535, and the text after it.
pub fn address_at(text: &[u8]) -> Option<(u16, &[u8])>
    ensures exact { option_map (λ p. (p.0, p.1.now)) result ≡ number_at 65535 text.now }
    ensures written { IfSome result (λ p. text.now ≡ decimal p.0 ++ p.1.now) }
    ensures within { IfSome result (λ p. p.0 < 65536) }
{
    let (number, rest) = number_at(text, 65_535)?;
    Some((number as u16, rest))
}

/// Returns a number that is at most 255, and the text after it.
pub fn small_at(text: &[u8]) -> Option<(u8, &[u8])>
    ensures exact { option_map (λ p. (p.0, p.1.now)) result ≡ number_at 255 text.now }
    ensures written { IfSome result (λ p. text.now ≡ decimal p.0 ++ p.1.now) }
    ensures within { IfSome result (λ p. p.0 < 256) }
{
    let (number, rest) = number_at(text, 255)?;
    Some((number as u8, rest))
}

/// Returns the area of a job and its width, and the text after them.
#[tactic(auto, unfolding(crate::specs::Words::area_at), using(std::proofs::Common::append_assoc))]
fn area_at(text: &[u8]) -> Option<((JobArea, Width), &[u8])>
    ensures exact { option_map (λ p. (p.0, p.1.now)) result ≡ area_at text.now }
    ensures written { IfSome result (λ p. text.now ≡ area_text p.0.0 p.0.1 ++ p.1.now) }
    ensures fits { IfSome result (λ p. FitsArea p.0.0) }
{
    if let Some(rest) = after(b"M", text) {
        let (width, rest) = width_letter_at(rest)?;
        return Some(((JobArea::Memory, width), rest));
    }
    let rest = after(b"DB ", text)?;
    let (number, rest) = address_at(rest)?;
    let rest = after(b" ", rest)?;
    let (width, rest) = width_letter_at(rest)?;
    Some(((JobArea::DataBlock(number), width), rest))
}

/// Returns where a job reads or writes, and the text after it.
#[tactic(auto, unfolding(crate::specs::Words::place_at), using(std::proofs::Common::append_assoc))]
pub fn place_at(text: &[u8]) -> Option<(Place, &[u8])>
    ensures exact { option_map (λ p. (p.0, p.1.now)) result ≡ place_at text.now }
    ensures written { IfSome result (λ p. text.now ≡ place_text p.0 ++ p.1.now) }
    ensures fits { IfSome result (λ p. FitsPlace p.0) }
{
    let ((area, width), rest) = area_at(text)?;
    let rest = after(b" ", rest)?;
    let (at, rest) = address_at(rest)?;
    Some((Place { area, width, at }, rest))
}
