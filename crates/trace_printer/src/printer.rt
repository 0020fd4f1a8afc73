//! Writes the text of a run.
ghost use Rattle.std.specs.Prelude.{◌≡◌, ℕ, ◌+◌, ◌≤◌, ◌++◌, length, IfOk, IsOk, IsSome, IsSomeAnd, OnOk, OnErr};
ghost use Rattle.std.specs.Option.{option_map_or};
ghost use Rattle.std.specs.Fmt.{decimal};
ghost use Rattle.std.specs.Io.KnownBytes.{Appends};
ghost use Rattle.pair_io.specs.Bytes.{AppendsFront};
ghost use Rattle.pair_io.specs.Causes.{Counts};
ghost use Rattle.pair_io.specs.Writes.{Prints};
ghost use Rattle.subsystem.specs.Part.{IsOpen};
ghost use Rattle.trace_text.specs.CpuTail.{tail_of};
ghost use Rattle.trace_text.specs.Tail.{no_tail};
ghost use Rattle.pair_core.specs.Endings.{HasTail};
ghost use Rattle.trace_text.specs.Text.{showing_line, behind_showing, entry_text, entries_text, record_text, tail_text, last_line, text};

use crate::entry_text::{push_side, push_stop, put_entry};
use crate::line::Line;
use crate::tail::{TailView, print_tail};
use crate::views::CpuView;
use crate::writing::{SinkFault, write_line};
use event_record::Record;
use pair_core::{Ended, Shown};
use pair_io::Sink;
use s7_base::{Entry, Side};
use subsystem::Subsystem;
use trace_text::Mode;

/// Writes the line of a showing of entry k, where one stands first in the list, and gives the list behind it.
fn print_showing<'a, K: Sink>(
    sink: &mut K,
    line: &mut Line,
    word: &[u8],
    k: u64,
    shown: &'a [(u32, Side)],
) -> Result<&'a [(u32, Side)], SinkFault>
    requires { length word.now ≤ 10 }
    ensures writes { Prints K.written K.faults K.takes sink.old sink.new (showing_line word.now k shown.now) result }
    ensures left { IfOk result (λ left. left.now ≡ behind_showing k shown.now) }
{
    match shown {
        [(entry, side), rest @ ..] if u64::from(*entry) == k => {
            line.put_text(word);
            push_side(line, *side);
            line.push_text(b"\n");
            write_line(sink, line)?;
            Ok(rest)
        }
        _ => Ok(shown),
    }
}

/// Writes entry k and its showings, and gives the showings that are left.
fn print_entry<'a, K: Sink>(
    sink: &mut K,
    line: &mut Line,
    k: u64,
    entry: &Entry,
    shown: &'a [(u32, Side)],
) -> Result<&'a [(u32, Side)], SinkFault>
    ensures writes { Prints K.written K.faults K.takes sink.old sink.new (entry_text k entry.now shown.now) result }
    ensures left { IfOk result (λ left. left.now ≡ behind_showing k (behind_showing k shown.now)) }
{
    put_entry(line, k, entry);
    write_line(sink, line)?;
    let left = print_showing(sink, line, b"SHOW ", k, shown)?;
    print_showing(sink, line, b"AGAIN ", k, left)
}

/// Writes the entries, each with its showings.
fn print_entries<K: Sink>(
    sink: &mut K,
    line: &mut Line,
    entries: &[Entry],
    shown: &[(u32, Side)],
) -> Result<(), SinkFault>
    ensures { Prints K.written K.faults K.takes sink.old sink.new (entries_text 0 entries.now shown.now) result }
{
    let mut left = shown;
    for (k, entry) in entries.iter().enumerate() {
        left = print_entry(sink, line, k as u64, entry, left)?;
    }
    Ok(())
}

/// Writes a title and the entries.
fn print_titled<K: Sink>(
    sink: &mut K,
    line: &mut Line,
    title: &[u8],
    entries: &[Entry],
    shown: &[(u32, Side)],
) -> Result<(), SinkFault>
    requires { length title.now ≤ 20 }
    ensures { Prints K.written K.faults K.takes sink.old sink.new
        (title.now ++ entries_text 0 entries.now shown.now) result }
{
    line.put_text(title);
    write_line(sink, line)?;
    print_entries(sink, line, entries, shown)
}

/// Writes the record, where the mode asks for it.
fn print_record<K: Sink>(
    sink: &mut K,
    line: &mut Line,
    mode: Mode,
    entries: &[Entry],
    shown: &[(u32, Side)],
) -> Result<(), SinkFault>
    ensures { Prints K.written K.faults K.takes sink.old sink.new (record_text mode entries.now shown.now) result }
{
    match mode {
        Mode::Solo => print_titled(sink, line, b"TRACE 1 SOLO\n", entries, shown),
        Mode::Pair => print_titled(sink, line, b"TRACE 1 PAIR\n", entries, shown),
        Mode::TailOnly => Ok(()),
    }
}

/// Writes the tail of a run that has one.
fn print_ended<K: Sink, T: TailView>(
    sink: &mut K,
    line: &mut Line,
    ended: Ended,
    last: Option<&T>,
) -> Result<(), SinkFault>
    requires { HasTail ended → IsSome last }
    ensures { Prints K.written K.faults K.takes sink.old sink.new
        (tail_text ended (option_map_or (λ view. T.tail view.now) last.entry no_tail)) result }
{
    match (ended, last) {
        (Ended::End, Some(view)) => print_tail(sink, line, view),
        (Ended::Stop(_), Some(view)) => print_tail(sink, line, view),
        (Ended::End, None) => unreachable!(),
        (Ended::Stop(_), None) => unreachable!(),
        (Ended::NoneLeft, _) => Ok(()),
        (Ended::Spent, _) => Ok(()),
        (Ended::NotPlayed, _) => Ok(()),
    }
}

/// At most 30 bytes.
#[tactic(auto, using(crate::proofs::Digits::twenty_digits, std::proofs::Common::append_assoc))]
fn put_number(line: &mut Line, word: &[u8], count: u64)
    requires { length word.now ≤ 10 }
    ensures text { line.new ≡ word.now ++ decimal count }
    ensures length { length line.new ≤ 30 }
{
    line.put_text(word);
    line.push_decimal(count);
}

/// The last line of a run of so many entries.
#[tactic(auto, using(std::proofs::Common::append_assoc))]
fn put_last(line: &mut Line, ended: Ended, count: u64)
    ensures { line.new ≡ last_line ended count }
{
    match ended {
        Ended::End => {
            put_number(line, b"END ", count);
            line.push_text(b"\n");
        }
        Ended::Stop(code) => {
            put_number(line, b"STOP ", count);
            line.push_text(b" ");
            push_stop(line, code);
            line.push_text(b"\n");
        }
        Ended::NoneLeft => {
            put_number(line, b"NONE ", count);
            line.push_text(b"\n");
        }
        Ended::Spent => {
            put_number(line, b"SPENT ", count);
            line.push_text(b"\n");
        }
        Ended::NotPlayed => line.clear(),
    }
}

/// Writes the text of a run, a line at a time: the record as the mode asks, the tail where the run has one,
/// and the last line. `last` is the side that the tail shows, and its life is open where there is a tail.
///
/// At `Err` a front of the text was written, and the sink counted a fault. A sink that promised to take the
/// text took it. Takes no memory: each line is built in one buffer.
pub fn print<K: Sink>(
    sink: &mut K,
    mode: Mode,
    entries: &Record,
    shown: &Shown,
    ended: &Ended,
    last: Option<&Subsystem>,
) -> Result<(), SinkFault>
    requires { HasTail ended.now → IsSomeAnd last (λ side. IsOpen side.now) }
    ensures ok { OnOk result (Appends (K.written sink.old) (K.written sink.new)
        (text mode entries.now.entries shown.now.list ended.now (option_map_or (λ side. tail_of side.now.machine) last.entry no_tail))) }
    ensures err { OnErr result (AppendsFront (K.written sink.old) (K.written sink.new)
        (text mode entries.now.entries shown.now.list ended.now (option_map_or (λ side. tail_of side.now.machine) last.entry no_tail))) }
    ensures cause { Counts (K.faults sink.old) (K.faults sink.new) result }
    ensures kept { (more : ℕ) → K.takes sink.old (length (text mode entries.now.entries shown.now.list ended.now
        (option_map_or (λ side. tail_of side.now.machine) last.entry no_tail)) + more) → IsOk result × K.takes sink.new more }
{
    let mut line = Line::new();
    let entries = entries.as_slice();
    let shown = shown.as_slice();
    match (ended, last) {
        (Ended::End | Ended::Stop(_), Some(side)) => {
            let view = CpuView::new(side);
            print_all(sink, &mut line, mode, entries, shown, *ended, Some(&view))
        }
        _ => print_all::<K, CpuView>(sink, &mut line, mode, entries, shown, *ended, None),
    }
}

/// Writes the text of a run.
pub fn print_all<K: Sink, T: TailView>(
    sink: &mut K,
    line: &mut Line,
    mode: Mode,
    entries: &[Entry],
    shown: &[(u32, Side)],
    ended: Ended,
    last: Option<&T>,
) -> Result<(), SinkFault>
    requires { HasTail ended → IsSome last }
    ensures { Prints K.written K.faults K.takes sink.old sink.new
        (text mode entries.now shown.now ended (option_map_or (λ view. T.tail view.now) last.entry no_tail)) result }
{
    print_record(sink, line, mode, entries, shown)?;
    print_ended(sink, line, ended, last)?;
    if let Ended::NotPlayed = ended {
        return Ok(());
    }
    put_last(line, ended, entries.len() as u64);
    write_line(sink, line)
}
