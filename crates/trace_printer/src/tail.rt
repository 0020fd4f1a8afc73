//! The tail of a text: the diagnostic entries and the images of a CPU.
ghost use Rattle.std.specs.Prelude.{◌≡◌, ℕ, ◌+◌, ◌<◌, ◌≤◌, ◌++◌, length, slice_index, Some};
ghost use Rattle.std.specs.Option.{option_map};
ghost use Rattle.pair_io.specs.Writes.{Prints};
ghost use Rattle.trace_text.specs.Image.{image, image_room};
ghost use Rattle.trace_text.specs.Tail.{area_bytes, IsOfSize, IsTailArea, block_of, diag_text, note_line, note_lines, count_line, area_line, area_lines, block_line, block_lines, counter_line, counter_lines, tail_lines};

use crate::entry_text::{push_back, push_lost, push_stop};
use crate::line::Line;
use crate::writing::{SinkFault, write_line};
use pair_io::Sink;
use s7_base::{Area, DiagCode, Loss};

/// A CPU, as far as a tail shows it. No call takes memory.
pub trait TailView {
    ghost use Rattle.std.specs.Prelude.{◌≡◌, ◌≤◌, ℕ, length, slice_get, slice_index, IfSome};
    ghost use Rattle.std.specs.Option.{option_map};
    ghost use Rattle.trace_text.specs.Tail.{Tail, IsTailArea, IsOfSize, area_bytes, block_of};

    /// What a tail shows.
    ghost tail: { Self → Tail };

    /// How many diagnostic entries are kept.
    fn note_count(&self) -> u32
        ensures { result ≡ length (tail self.now).notes };

    /// The k-th kept diagnostic entry, the oldest first, with its moment.
    fn note_at(&self, k: u32) -> Option<(u64, DiagCode)>
        ensures { result ≡ slice_get (tail self.now).notes k };

    /// A byte of an area. `None` comes exactly where the area has no such byte. I and Q have 64 bytes, M has
    /// 1,024.
    fn image_byte(&self, area: Area, at_byte: u16) -> Option<u8>
        ensures byte { IsTailArea area → result ≡ slice_get (area_bytes (tail self.now) area) at_byte }
        ensures size { (size : ℕ) → IsOfSize (tail self.now) area size → length (area_bytes (tail self.now) area) ≡ size };

    /// How many bytes a data block has, at most 8,192. `None` comes exactly where it is not loaded.
    fn block_length(&self, number: u8) -> Option<u16>
        ensures length { result ≡ option_map length (block_of (tail self.now) number) }
        ensures few { IfSome result (λ size. size ≤ 8192) }
        ensures count { length (tail self.now).blocks ≤ 256 };

    /// The value of a counter.
    fn counter_value(&self, number: u8) -> u16
        ensures value { result ≡ slice_index (tail self.now).counters number }
        ensures count { length (tail self.now).counters ≤ 256 };
}

/// At most 30 bytes.
#[tactic(auto, using(crate::proofs::Digits::twenty_digits, std::proofs::Common::append_assoc))]
fn push_diag(line: &mut Line, code: DiagCode)
    requires { length line.old ≤ 100 }
    ensures text { line.new ≡ line.old ++ diag_text code }
    ensures length { length line.new ≤ length line.old + 30 }
{
    match code {
        DiagCode::Start => line.push_text(b"START"),
        DiagCode::LostFailed(side) => push_lost(line, side, Loss::Failed),
        DiagCode::LostSuspect(side) => push_lost(line, side, Loss::Suspect),
        DiagCode::Back(side) => push_back(line, side),
        DiagCode::Error(number) => {
            line.push_text(b"ERROR ");
            line.push_decimal(u64::from(number));
        }
        DiagCode::Cycle => line.push_text(b"CYCLE"),
        DiagCode::Ob85(number) => {
            line.push_text(b"OB85 ");
            line.push_decimal(u64::from(number));
        }
        DiagCode::Discrep(address) => {
            line.push_text(b"DISCREP ");
            line.push_decimal(u64::from(address));
        }
        DiagCode::Stop(code) => {
            line.push_text(b"STOP ");
            push_stop(line, code);
        }
    }
}

/// The line of a diagnostic entry.
#[tactic(auto, using(crate::proofs::Digits::twenty_digits, std::proofs::Common::append_assoc))]
fn put_note(line: &mut Line, moment: u64, code: DiagCode)
    ensures { line.new ≡ note_line (moment, code) }
{
    line.clear();
    line.push_decimal(moment);
    line.push_text(b" ");
    push_diag(line, code);
    line.push_text(b"\n");
}

/// Adds the image of an area of so many bytes.
fn push_area<T: TailView>(line: &mut Line, view: &T, area: Area, size: u16)
    requires shown { IsTailArea area }
    requires size { IsOfSize (T.tail view.now) area size }
    requires some { 0 < size }
    requires few { size ≤ 8192 }
    requires room { length line.old ≤ 100 }
    ensures text { line.new ≡ line.old ++ image (area_bytes (T.tail view.now) area) }
    ensures length { length line.new ≤ length line.old + image_room size }
{
    let mut is_first = true;
    for at in 0..size {
        let Some(byte) = view.image_byte(area, at) else {
            unreachable!();
        };
        if byte != 0 {
            line.push_cell(is_first, usize::from(at), byte);
            is_first = false;
        }
    }
    if is_first {
        line.push(b'-');
    }
}

/// The line of an area.
#[tactic(auto, using(std::proofs::Common::append_assoc))]
fn put_area<T: TailView>(line: &mut Line, view: &T, name: &[u8], area: Area, size: u16)
    requires name { length name.now ≤ 10 }
    requires shown { IsTailArea area }
    requires size { IsOfSize (T.tail view.now) area size }
    requires some { 0 < size }
    requires few { size ≤ 8192 }
    ensures { line.new ≡ area_line name.now (area_bytes (T.tail view.now) area) }
{
    line.put_text(name);
    line.push_text(b" ");
    push_area(line, view, area, size);
    line.push_text(b"\n");
}

/// The line of a data block of so many bytes.
#[tactic(auto, using(crate::proofs::Digits::twenty_digits, std::proofs::Common::append_assoc))]
fn put_block<T: TailView>(line: &mut Line, view: &T, number: u8, size: u16)
    requires size { option_map length (block_of (T.tail view.now) number) ≡ Some size }
    requires few { size ≤ 8192 }
    ensures { line.new ≡ block_line number (block_of (T.tail view.now) number) }
{
    line.put_text(b"DB ");
    line.push_decimal(u64::from(number));
    line.push_text(b" ");
    if size == 0 {
        line.push(b'-');
    } else {
        push_area(line, view, Area::Db(number), size);
    }
    line.push_text(b"\n");
}

/// The line of a counter that is not 0.
#[tactic(auto, using(crate::proofs::Digits::twenty_digits, std::proofs::Common::append_assoc))]
fn put_counter(line: &mut Line, number: u8, value: u16)
    requires { 0 < value }
    ensures { line.new ≡ counter_line number value }
{
    line.put_text(b"C ");
    line.push_decimal(u64::from(number));
    line.push_text(b" ");
    line.push_decimal(u64::from(value));
    line.push_text(b"\n");
}

/// The first line of a tail.
#[tactic(auto, using(crate::proofs::Digits::twenty_digits, std::proofs::Common::append_assoc))]
fn put_count<T: TailView>(line: &mut Line, view: &T)
    ensures { line.new ≡ count_line (T.tail view.now).notes }
{
    line.put_text(b"DIAG ");
    line.push_decimal(u64::from(view.note_count()));
    line.push_text(b"\n");
}

/// Writes the diagnostic entries, a line each.
fn print_notes<K: Sink, T: TailView>(
    sink: &mut K,
    line: &mut Line,
    view: &T,
) -> Result<(), SinkFault>
    ensures { Prints K.written K.faults K.takes sink.old sink.new (note_lines (T.tail view.now).notes) result }
{
    for k in 0..view.note_count() {
        let Some((moment, code)) = view.note_at(k) else {
            unreachable!();
        };
        put_note(line, moment, code);
        write_line(sink, line)?;
    }
    Ok(())
}

/// Writes the line of a data block, where it is loaded.
fn print_block<K: Sink, T: TailView>(
    sink: &mut K,
    line: &mut Line,
    view: &T,
    number: u8,
) -> Result<(), SinkFault>
    ensures writes { Prints K.written K.faults K.takes sink.old sink.new (block_line number (block_of (T.tail view.now) number)) result }
    ensures count { length (T.tail view.now).blocks ≤ 256 }
{
    match view.block_length(number) {
        None => Ok(()),
        Some(size) => {
            put_block(line, view, number, size);
            write_line(sink, line)
        }
    }
}

/// Writes the data blocks by their numbers, a line each.
fn print_blocks<K: Sink, T: TailView>(
    sink: &mut K,
    line: &mut Line,
    view: &T,
) -> Result<(), SinkFault>
    ensures { Prints K.written K.faults K.takes sink.old sink.new (block_lines 0 (T.tail view.now).blocks) result }
{
    for number in 0..256u16 {
        print_block(sink, line, view, number as u8)?;
    }
    Ok(())
}

/// Writes the line of a counter, where it is not 0.
fn print_counter<K: Sink, T: TailView>(
    sink: &mut K,
    line: &mut Line,
    view: &T,
    number: u8,
) -> Result<(), SinkFault>
    ensures writes { Prints K.written K.faults K.takes sink.old sink.new (counter_line number (slice_index (T.tail view.now).counters number)) result }
    ensures count { length (T.tail view.now).counters ≤ 256 }
{
    let value = view.counter_value(number);
    if value == 0 {
        return Ok(());
    }
    put_counter(line, number, value);
    write_line(sink, line)
}

/// Writes the counters that are not 0 by their numbers, a line each.
fn print_counters<K: Sink, T: TailView>(
    sink: &mut K,
    line: &mut Line,
    view: &T,
) -> Result<(), SinkFault>
    ensures { Prints K.written K.faults K.takes sink.old sink.new (counter_lines 0 (T.tail view.now).counters) result }
{
    for number in 0..256u16 {
        print_counter(sink, line, view, number as u8)?;
    }
    Ok(())
}

/// Writes the images of I, Q and M, a line each.
fn print_areas<K: Sink, T: TailView>(
    sink: &mut K,
    line: &mut Line,
    view: &T,
) -> Result<(), SinkFault>
    ensures { Prints K.written K.faults K.takes sink.old sink.new (area_lines (T.tail view.now)) result }
{
    put_area(line, view, b"I", Area::I, 64);
    write_line(sink, line)?;
    put_area(line, view, b"Q", Area::Q, 64);
    write_line(sink, line)?;
    put_area(line, view, b"M", Area::M, 1024);
    write_line(sink, line)
}

/// Writes the tail, a line at a time.
pub fn print_tail<K: Sink, T: TailView>(
    sink: &mut K,
    line: &mut Line,
    view: &T,
) -> Result<(), SinkFault>
    ensures { Prints K.written K.faults K.takes sink.old sink.new (tail_lines (T.tail view.now)) result }
{
    put_count(line, view);
    write_line(sink, line)?;
    print_notes(sink, line, view)?;
    print_areas(sink, line, view)?;
    print_blocks(sink, line, view)?;
    print_counters(sink, line, view)
}
