//! Reads a trace, section by section.
ghost use Rattle.std.specs.Prelude.{◌≡◌, ◌++◌, ◌-◌, ◌<◌, ℕ, List, Option, length, take, codes, Some, None, is_some, IfOk, IfErr, IfSome};
ghost use Rattle.std.specs.List.{flat_map};
ghost use Rattle.trace_reader.specs.declared.trace.Entry.{Entry};
ghost use Rattle.trace_reader.specs.declared.trace.Note.{Note};
ghost use Rattle.trace_reader.specs.declared.trace.Areas.{Areas};
ghost use Rattle.trace_reader.specs.declared.trace.Counter.{Counter};
ghost use Rattle.trace_reader.specs.declared.reading.Stop.TheVariants as stops;
ghost use Rattle.trace_reader.specs.declared.reading.TraceFault.TheVariants as faults;
ghost use Rattle.trace_reader.specs.Blocks.{DataBlock};
ghost use Rattle.trace_reader.specs.Parts.{TailParts, TraceParts, tail_parts, option_parts, parts_of};
ghost use Rattle.trace_reader.specs.Ranges.{Each, FitsEntry, FitsNote, FitsAreas, FitsBlock, FitsCounter, FitsTail, IsTrace, ClosesEntries, ClosesTail, EndShowings, EndsAs};
ghost use Rattle.trace_reader.specs.Text.{entries_text, note_line, area_lines, block_line, counter_line, notes_and_after, tail_lines, last_line, text_of};
ghost use Rattle.std.specs.Option.{option_map};
ghost use Rattle.trace_reader.specs.Lines.{entry_at, ending_at};
ghost use Rattle.trace_reader.specs.Refusal.{lines_after, IsFirstMisfit, NotesStop, AreasStop, TailStop, TraceStop, TailIsOver};

use crate::blocks::{blocks_from, counters_from};
use crate::lines::{areas_at, count_at, cut_at, entry_at, last_at, note_at, title_at};
use crate::trace::{Ending, Entry, Note, Tail, Trace};
use std::alloc::{AllocError, Global};
use thiserror::Error;

/// Why a trace was not read.
#[derive(Clone, Copy, Debug, PartialEq, Eq, Error)]
pub enum TraceFault {
    /// The first line that fits no trace that begins with the lines before it, counted from 1; or the line at which the
    /// text breaks off.
    #[error("trace fault line {line}")]
    Line { line: usize },
    /// Memory ran out.
    #[error("no memory")]
    NoMemory,
}

/// Where reading stopped: this number of bytes before the end, or where memory ran out.
#[derive(Clone, Copy, Debug)]
enum Stop {
    Left(usize),
    NoMemory,
}

/// Returns the entries, and the text after their lines.
#[tactic(auto, using(crate::proofs::Sections::entries_more, std::proofs::Common::append_assoc))]
fn entries_from(alloc: Global, text: &[u8]) -> Result<(Vec<Entry>, &[u8]), AllocError>
    ensures written { IfOk result (λ p. text.now ≡ entries_text 0 p.0.items ++ p.1.now) }
    ensures fits { IfOk result (λ p. Each FitsEntry p.0.items) }
    ensures few { IfOk result (λ p. length p.0.items < 4294967296) }
    ensures over { IfOk result (λ p. entry_at (length p.0.items) p.1.now ≡ None) }
    ensures shown { IfOk result (λ p. EndShowings p.0.items p.1.now) }
    ensures exact { (entries : List Entry) (rest : List ℕ) → length entries < 4294967296 → Each FitsEntry entries → ClosesEntries rest → text.now ≡ entries_text 0 entries ++ rest → IfOk result (λ p. (p.0.items ≡ entries) × (p.1.now ≡ rest)) }
{
    let mut entries = Vec::new(alloc);
    let mut rest = text;
    'entries: while let Some((entry, next)) = entry_at(rest, entries.len()) {
        entries.push(entry)?;
        rest = next;
    }
    Ok((entries, rest))
}

/// Returns this number of diagnostic entries, and the text after their lines.
#[tactic(auto, using(crate::proofs::Sections::more_after, std::proofs::Common::append_assoc))]
fn notes_from(alloc: Global, text: &[u8], count: u32) -> Result<(Vec<Note>, &[u8]), Stop>
    ensures written { IfOk result (λ p. text.now ≡ flat_map note_line p.0.items ++ p.1.now) }
    ensures fits { IfOk result (λ p. Each FitsNote p.0.items) }
    ensures stopped { IfErr result (λ stop. NotesStop count text.now stop) }
    ensures count { IfOk result (λ p. length p.0.items ≡ count) }
    ensures exact { (notes : List Note) (rest : List ℕ) → length notes ≡ count → Each FitsNote notes → text.now ≡ flat_map note_line notes ++ rest → IfOk result (λ p. p.1.now ≡ rest) × IfErr result (λ stop. stop ≡ stops.NoMemory) }
{
    let mut notes = Vec::new(alloc);
    let mut rest = text;
    for _turn in 0..count {
        let Some((note, next)) = note_at(rest) else {
            return Err(Stop::Left(rest.len()));
        };
        if notes.push(note).is_err() {
            return Err(Stop::NoMemory);
        }
        rest = next;
    }
    Ok((notes, rest))
}

/// Returns what stands after the diagnostic entries: the images, the data blocks and the counters.
#[tactic(auto, using(std::proofs::Common::append_assoc))]
fn tail_of(alloc: Global, notes: Vec<Note>, text: &[u8]) -> Result<(Tail, &[u8]), Stop>
    ensures written { IfOk result (λ p. flat_map note_line notes.items ++ text.now ≡ notes_and_after (tail_parts p.0) ++ p.1.now) }
    ensures fits { length notes.items < 4294967296 → Each FitsNote notes.items → IfOk result (λ p. FitsTail (Some (tail_parts p.0))) }
    ensures over { IfOk result (λ p. TailIsOver (Some (tail_parts p.0)) p.1.now) }
    ensures stopped { IfErr result (λ stop. AreasStop text.now stop) }
    ensures count { IfOk result (λ p. p.0.notes ≡ notes) }
    ensures exact { (areas : Areas) (blocks : List DataBlock) (counters : List Counter) (rest : List ℕ) → FitsAreas areas → Each FitsBlock blocks → Each FitsCounter counters → ClosesTail rest
        → text.now ≡ area_lines areas ++ (flat_map block_line blocks ++ (flat_map counter_line counters ++ rest)) → IfOk result (λ p. p.1.now ≡ rest) × IfErr result (λ stop. stop ≡ stops.NoMemory) }
{
    let (areas, rest) = match areas_at(text) {
        Ok(found) => found,
        Err(left) => return Err(Stop::Left(left)),
    };
    let (blocks, rest) = match blocks_from(alloc, rest) {
        Ok(found) => found,
        Err(_) => return Err(Stop::NoMemory),
    };
    let (counters, rest) = match counters_from(alloc, rest) {
        Ok(found) => found,
        Err(_) => return Err(Stop::NoMemory),
    };
    let tail = Tail {
        notes,
        areas,
        blocks,
        counters,
    };
    Ok((tail, rest))
}

/// Returns the tail, where there is one, and the text after it.
#[tactic(auto, using(std::proofs::Common::append_assoc))]
fn tail_from(alloc: Global, text: &[u8]) -> Result<(Option<Tail>, &[u8]), Stop>
    ensures written { IfOk result (λ p. text.now ≡ tail_lines (option_parts p.0) ++ p.1.now) }
    ensures fits { IfOk result (λ p. FitsTail (option_parts p.0)) }
    ensures over { IfOk result (λ p. TailIsOver (option_parts p.0) p.1.now) }
    ensures stopped { IfErr result (λ stop. TailStop text.now stop) }
    ensures exact { (tail : Option TailParts) (rest : List ℕ) → FitsTail tail → ClosesTail rest → text.now ≡ tail_lines tail ++ rest → IfOk result (λ p. (is_some p.0 ≡ is_some tail) × (p.1.now ≡ rest)) × IfErr result (λ stop. stop ≡ stops.NoMemory) }
{
    let Some((count, rest)) = count_at(text) else {
        return Ok((None, text));
    };
    let (notes, rest) = match notes_from(alloc, rest, count) {
        Ok(found) => found,
        Err(stop) => return Err(stop),
    };
    match tail_of(alloc, notes, rest) {
        Ok((tail, rest)) => Ok((Some(tail), rest)),
        Err(stop) => Err(stop),
    }
}

/// Returns how a trace of this number of entries ended, and the text after its last line.
fn ending_from(text: &[u8], has_tail: bool, count: usize) -> Option<(Ending, &[u8])>
    ensures written { IfSome result (λ p. text.now ≡ last_line p.0 count ++ p.1.now) }
    ensures fits { IfSome result (λ p. EndsAs has_tail p.0) }
    ensures few { IfSome result (λ p. count < 4294967296) }
    ensures exact { option_map (λ p. (p.0, p.1.now)) result ≡ ending_at has_tail count text.now }
{
    if has_tail {
        last_at(text, count)
    } else {
        cut_at(text, count)
    }
}

/// Reads a whole trace.
#[tactic(auto, using(std::proofs::Common::append_assoc))]
fn trace_from(alloc: Global, text: &[u8]) -> Result<Trace, Stop>
    ensures written { IfOk result (λ trace. text_of (parts_of trace) ≡ text.now) }
    ensures fits { IfOk result (λ trace. IsTrace (parts_of trace)) }
    ensures stopped { IfErr result (λ stop. TraceStop text.now stop) }
    ensures exact { (trace : TraceParts) → IsTrace trace → text_of trace ≡ text.now → IfErr result (λ stop. stop ≡ stops.NoMemory) }
{
    let Some((mode, rest)) = title_at(text) else {
        return Err(Stop::Left(text.len()));
    };
    let (entries, rest) = match entries_from(alloc, rest) {
        Ok(found) => found,
        Err(_) => return Err(Stop::NoMemory),
    };
    let (tail, rest) = match tail_from(alloc, rest) {
        Ok(found) => found,
        Err(stop) => return Err(stop),
    };
    let Some((ending, after)) = ending_from(rest, tail.is_some(), entries.len()) else {
        return Err(Stop::Left(rest.len()));
    };
    if !after.is_empty() {
        return Err(Stop::Left(after.len()));
    }
    Ok(Trace {
        mode,
        entries,
        tail,
        ending,
    })
}

/// Returns the number of the line in which the last `left` bytes of a text begin, counted from 1.
fn line_of(text: &[u8], left: usize) -> usize
    ensures { result ≡ lines_after 1 (take (length text.now - left) text.now) }
{
    let front = &text[..text.len().saturating_sub(left)];
    let mut number = 1;
    for byte in front {
        if *byte == b'\n' {
            number += 1;
        }
    }
    number
}

/// Reads the text of a trace, as docs/trace.md describes it. What it returns is written by the same bytes, and the text
/// of a trace is refused only where memory runs out. The fault of another text names the first line, counted from 1, that fits
/// no trace which begins with the lines before it; or, where the text breaks off, the line that is not there or not ended.
pub fn read(alloc: Global, text: &[u8]) -> Result<Trace, TraceFault>
    ensures written { IfOk result (λ trace. text_of (parts_of trace) ≡ text.now) }
    ensures fits { IfOk result (λ trace. IsTrace (parts_of trace)) }
    ensures exact { (trace : TraceParts) → IsTrace trace → text_of trace ≡ text.now → IfErr result (λ fault. fault ≡ faults.NoMemory) }
    ensures line { IfErr result (λ fault. IsFirstMisfit text.now fault) }
{
    match trace_from(alloc, text) {
        Ok(trace) => Ok(trace),
        Err(Stop::Left(left)) => Err(TraceFault::Line {
            line: line_of(text, left),
        }),
        Err(Stop::NoMemory) => Err(TraceFault::NoMemory),
    }
}
