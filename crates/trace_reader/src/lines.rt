//! The lines of a trace, each at the front of a text.
ghost use Rattle.std.specs.Prelude.{◌≡◌, ◌⊎◌, ◌∷◌, ◌++◌, ◌<◌, true, false, length, codes, IfOk, IfErr, IfSome};
ghost use Rattle.std.specs.Fmt.{decimal};
ghost use Rattle.std.specs.Option.{option_map};
ghost use Rattle.std.specs.Result.{result_ok};
ghost use Rattle.trace_reader.specs.Lines.{title_at, is_output, side_line_at, shown_at, showings_at, asked_at, entry_at, count_at, note_at, image_line_at, areas_at, counter_at, entries_at, last_at, cut_at};
ghost use Rattle.trace_reader.specs.declared.trace.Showings.TheVariants as showings;
ghost use Rattle.trace_reader.specs.Images.{image};
ghost use Rattle.trace_reader.specs.Refusal.{StopsAt, WithinAreas, BeginsAreas};
ghost use Rattle.trace_reader.specs.Ranges.{IsImage, FitsEntry, FitsNote, FitsAreas, FitsCounter, EndsAs};
ghost use Rattle.trace_reader.specs.Text.{title_line, side_text, entry_line, shown_lines, count_line, note_line, counter_line, area_lines, last_line};

use crate::fields::{after, number_at};
use crate::images::{memory_image_at, process_image_at};
use crate::requests::{answer_at, event_at, request_at};
use crate::trace::{Answer, Areas, Counter, Ending, Entry, Mode, Note, Request, Showings, Side};
use crate::words::{address_at, side_at, small_at, stop_at};

/// Returns what the first line says, and the text after it.
#[tactic(auto, unfolding(crate::specs::Lines::title_at))]
pub fn title_at(text: &[u8]) -> Option<(Mode, &[u8])>
    ensures exact { option_map (λ p. (p.0, p.1.now)) result ≡ title_at text.now }
    ensures written { IfSome result (λ p. text.now ≡ title_line p.0 ++ p.1.now) }
{
    if let Some(rest) = after(b"TRACE 1 SOLO\n", text) {
        return Some((Mode::Solo, rest));
    }
    let rest = after(b"TRACE 1 PAIR\n", text)?;
    Some((Mode::Pair, rest))
}

/// Returns whether an entry shows an output: it is one of the image or of the periphery, and it is done.
fn is_output(request: &Request, answer: &Answer) -> bool
    ensures { result ≡ is_output request.now answer.now }
{
    let outputs = matches!(
        request,
        Request::Outputs(_) | Request::WritePeripheral { .. }
    );
    outputs && matches!(answer, Answer::Done)
}

/// Returns the side of a line that is this word and a side, and the text after it.
#[tactic(auto, unfolding(crate::specs::Lines::side_line_at), using(std::proofs::Common::append_assoc))]
fn side_line_at<'a>(word: &[u8], text: &'a [u8]) -> Option<(Side, &'a [u8])>
    ensures exact { option_map (λ p. (p.0, p.1.now)) result ≡ side_line_at word.now text.now }
    ensures written { IfSome result (λ p. text.now ≡ word.now ++ (side_text p.0 ++ (10 ∷ p.1.now))) }
{
    let rest = after(word, text)?;
    let (side, rest) = side_at(rest)?;
    let rest = after(b"\n", rest)?;
    Some((side, rest))
}

/// Returns the showings of an output, and the text after their lines.
#[tactic(auto, unfolding(crate::specs::Lines::shown_at), using(std::proofs::Common::append_assoc))]
fn shown_at(text: &[u8]) -> (Showings, &[u8])
    ensures exact { (result.0, result.1.now) ≡ shown_at text.now }
    ensures written { text.now ≡ shown_lines result.0 ++ result.1.now }
{
    let Some((first, rest)) = side_line_at(b"SHOW ", text) else {
        return (Showings::None, text);
    };
    match side_line_at(b"AGAIN ", rest) {
        Some((second, rest)) => (Showings::Twice(first, second), rest),
        None => (Showings::Once(first), rest),
    }
}

/// Returns the showings that may stand after an entry, and the text after their lines.
#[tactic(auto, unfolding(crate::specs::Lines::showings_at))]
fn showings_at<'a>(request: &Request, answer: &Answer, text: &'a [u8]) -> (Showings, &'a [u8])
    ensures exact { (result.0, result.1.now) ≡ showings_at request.now answer.now text.now }
    ensures written { text.now ≡ shown_lines result.0 ++ result.1.now }
    ensures fits { (is_output request.now answer.now ≡ true) ⊎ (result.0 ≡ showings.None) }
{
    if is_output(request, answer) {
        shown_at(text)
    } else {
        (Showings::None, text)
    }
}

/// Returns the priority, the request and the answer of entry k, and the text after its line.
#[tactic(auto, unfolding(crate::specs::Lines::asked_at), using(std::proofs::Common::append_assoc))]
fn asked_at(text: &[u8], k: usize) -> Option<(Entry, &[u8])>
    ensures exact { option_map (λ p. (p.0, p.1.now)) result ≡ asked_at k text.now }
    ensures written { IfSome result (λ p. text.now ≡ entry_line k p.0 ++ p.1.now) }
    ensures fits { IfSome result (λ p. FitsEntry p.0) }
    ensures numbered { IfSome result (λ p. k < 4294967295) }
{
    let (number, rest) = number_at(text, u32::MAX - 1)?;
    if number as usize != k {
        return None;
    }
    let rest = after(b" ", rest)?;
    let (priority, rest) = small_at(rest)?;
    let rest = after(b" ", rest)?;
    let (request, rest) = request_at(rest)?;
    let rest = after(b" = ", rest)?;
    let (answer, rest) = answer_at(rest)?;
    let rest = after(b"\n", rest)?;
    let shown = Showings::None;
    let entry = Entry {
        priority,
        request,
        answer,
        shown,
    };
    Some((entry, rest))
}

/// Returns entry k with its showings, and the text after their lines.
#[tactic(auto, unfolding(crate::specs::Lines::entry_at), using(std::proofs::Common::append_assoc))]
pub fn entry_at(text: &[u8], k: usize) -> Option<(Entry, &[u8])>
    ensures exact { option_map (λ p. (p.0, p.1.now)) result ≡ entry_at k text.now }
    ensures written { IfSome result (λ p. text.now ≡ entry_line k p.0 ++ (shown_lines p.0.shown ++ p.1.now)) }
    ensures fits { IfSome result (λ p. FitsEntry p.0) }
    ensures numbered { IfSome result (λ p. k < 4294967295) }
    ensures shown { IfSome result (λ p. showings_at p.0.request p.0.answer (shown_lines p.0.shown ++ p.1.now) ≡ (p.0.shown, p.1.now)) }
    ensures shorter { IfSome result (λ p. length p.1.now < length text.now) }
{
    let (asked, rest) = asked_at(text, k)?;
    let (shown, rest) = showings_at(&asked.request, &asked.answer, rest);
    Some((Entry { shown, ..asked }, rest))
}

/// Returns the number of diagnostic entries that the next line says, and the text after it.
#[tactic(auto, unfolding(crate::specs::Lines::count_at), using(std::proofs::Common::append_assoc))]
pub fn count_at(text: &[u8]) -> Option<(u32, &[u8])>
    ensures exact { option_map (λ p. (p.0, p.1.now)) result ≡ count_at text.now }
    ensures written { IfSome result (λ p. text.now ≡ count_line p.0 ++ p.1.now) }
    ensures within { IfSome result (λ p. p.0 < 4294967296) }
{
    let rest = after(b"DIAG ", text)?;
    let (count, rest) = number_at(rest, u32::MAX)?;
    let rest = after(b"\n", rest)?;
    Some((count, rest))
}

/// Returns a diagnostic entry, and the text after its line.
#[tactic(auto, unfolding(crate::specs::Lines::note_at), using(std::proofs::Common::append_assoc))]
pub fn note_at(text: &[u8]) -> Option<(Note, &[u8])>
    ensures exact { option_map (λ p. (p.0, p.1.now)) result ≡ note_at text.now }
    ensures written { IfSome result (λ p. text.now ≡ note_line p.0 ++ p.1.now) }
    ensures fits { IfSome result (λ p. FitsNote p.0) }
{
    let (moment, rest) = number_at(text, u32::MAX)?;
    let rest = after(b" ", rest)?;
    let (event, rest) = event_at(rest)?;
    let rest = after(b"\n", rest)?;
    Some((Note { moment, event }, rest))
}

/// Returns the image of a line that begins with this name, and the text after it.
#[tactic(auto, unfolding(crate::specs::Lines::image_line_at), using(std::proofs::Common::append_assoc))]
fn process_line_at<'a>(name: &[u8], text: &'a [u8]) -> Option<([u8; 64], &'a [u8])>
    ensures exact { option_map (λ p. (p.0, p.1.now)) result ≡ image_line_at name.now 64 text.now }
    ensures written { IfSome result (λ p. text.now ≡ name.now ++ (image p.0 ++ 10 ∷ p.1.now)) }
    ensures fits { IfSome result (λ p. IsImage 64 p.0) }
{
    let rest = after(name, text)?;
    let (bytes, rest) = process_image_at(rest)?;
    let rest = after(b"\n", rest)?;
    Some((bytes, rest))
}

/// Returns the image of bit memory, and the text after its line.
#[tactic(auto, unfolding(crate::specs::Lines::image_line_at), using(std::proofs::Common::append_assoc))]
fn memory_line_at(text: &[u8]) -> Option<([u8; 1024], &[u8])>
    ensures exact { option_map (λ p. (p.0, p.1.now)) result ≡ image_line_at (codes "M ") 1024 text.now }
    ensures written { IfSome result (λ p. text.now ≡ codes "M " ++ (image p.0 ++ 10 ∷ p.1.now)) }
    ensures fits { IfSome result (λ p. IsImage 1024 p.0) }
{
    let rest = after(b"M ", text)?;
    let (bytes, rest) = memory_image_at(rest)?;
    let rest = after(b"\n", rest)?;
    Some((bytes, rest))
}

/// Returns the images of I, Q and M, and the text after their lines. Where a line is no such image, returns how many
/// bytes are left from that line on.
#[tactic(auto, unfolding(crate::specs::Lines::areas_at), using(std::proofs::Common::append_assoc))]
pub fn areas_at(text: &[u8]) -> Result<(Areas, &[u8]), usize>
    ensures exact { option_map (λ p. (p.0, p.1.now)) (result_ok result) ≡ areas_at text.now }
    ensures written { IfOk result (λ p. text.now ≡ area_lines p.0 ++ p.1.now) }
    ensures fits { IfOk result (λ p. FitsAreas p.0) }
    ensures stopped { IfErr result (λ left. StopsAt WithinAreas BeginsAreas text.now left) }
{
    let (inputs, after_inputs) = match process_line_at(b"I ", text) {
        Some(found) => found,
        None => return Err(text.len()),
    };
    let (outputs, after_outputs) = match process_line_at(b"Q ", after_inputs) {
        Some(found) => found,
        None => return Err(after_inputs.len()),
    };
    let (memory, rest) = match memory_line_at(after_outputs) {
        Some(found) => found,
        None => return Err(after_outputs.len()),
    };
    let areas = Areas {
        inputs,
        outputs,
        memory,
    };
    Ok((areas, rest))
}

/// Returns a counter, and the text after its line.
#[tactic(auto, unfolding(crate::specs::Lines::counter_at), using(std::proofs::Common::append_assoc))]
pub fn counter_at(text: &[u8]) -> Option<(Counter, &[u8])>
    ensures exact { option_map (λ p. (p.0, p.1.now)) result ≡ counter_at text.now }
    ensures written { IfSome result (λ p. text.now ≡ counter_line p.0 ++ p.1.now) }
    ensures fits { IfSome result (λ p. FitsCounter p.0) }
    ensures shorter { IfSome result (λ p. length p.1.now < length text.now) }
{
    let rest = after(b"C ", text)?;
    let (number, rest) = small_at(rest)?;
    let rest = after(b" ", rest)?;
    let (value, rest) = address_at(rest)?;
    let rest = after(b"\n", rest)?;
    Some((Counter { number, value }, rest))
}

/// Returns the text after the number of the entries, where that is this one.
#[tactic(auto, unfolding(crate::specs::Lines::entries_at))]
fn entries_at<'a>(text: &'a [u8], count: usize) -> Option<&'a [u8]>
    ensures exact { option_map (λ rest. rest.now) result ≡ entries_at count text.now }
    ensures written { IfSome result (λ rest. text.now ≡ decimal count ++ rest.now) }
    ensures few { IfSome result (λ rest. count < 4294967296) }
{
    let (number, rest) = number_at(text, u32::MAX)?;
    if number as usize != count {
        return None;
    }
    Some(rest)
}

/// Returns how a trace of this number of entries ended that has a tail, and the text after its last line.
#[tactic(auto, unfolding(crate::specs::Lines::last_at), using(std::proofs::Common::append_assoc))]
pub fn last_at(text: &[u8], count: usize) -> Option<(Ending, &[u8])>
    ensures exact { option_map (λ p. (p.0, p.1.now)) result ≡ last_at count text.now }
    ensures written { IfSome result (λ p. text.now ≡ last_line p.0 count ++ p.1.now) }
    ensures fits { IfSome result (λ p. EndsAs true p.0) }
    ensures few { IfSome result (λ p. count < 4294967296) }
{
    if let Some(rest) = after(b"END ", text) {
        let rest = entries_at(rest, count)?;
        let rest = after(b"\n", rest)?;
        return Some((Ending::End, rest));
    }
    let rest = after(b"STOP ", text)?;
    let rest = entries_at(rest, count)?;
    let rest = after(b" ", rest)?;
    let (code, rest) = stop_at(rest)?;
    let rest = after(b"\n", rest)?;
    Some((Ending::Stop(code), rest))
}

/// Returns how a trace of this number of entries ended that has no tail, and the text after its last line.
#[tactic(auto, unfolding(crate::specs::Lines::cut_at), using(std::proofs::Common::append_assoc))]
pub fn cut_at(text: &[u8], count: usize) -> Option<(Ending, &[u8])>
    ensures exact { option_map (λ p. (p.0, p.1.now)) result ≡ cut_at count text.now }
    ensures written { IfSome result (λ p. text.now ≡ last_line p.0 count ++ p.1.now) }
    ensures fits { IfSome result (λ p. EndsAs false p.0) }
    ensures few { IfSome result (λ p. count < 4294967296) }
{
    if let Some(rest) = after(b"NONE ", text) {
        let rest = entries_at(rest, count)?;
        let rest = after(b"\n", rest)?;
        return Some((Ending::NoneLeft, rest));
    }
    let rest = after(b"SPENT ", text)?;
    let rest = entries_at(rest, count)?;
    let rest = after(b"\n", rest)?;
    Some((Ending::Spent, rest))
}
