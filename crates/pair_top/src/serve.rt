//! The top call.
ghost use Rattle.std.specs.Prelude.{◌≡◌, ◌≤◌, ◌↔◌, ℕ, List, true, None, Some, IsNone, IfOk, IfErr, OnOk, OnErr};
ghost use Rattle.subsystem.specs.Part.{IsNew, IsOpen};
ghost use Rattle.trace_text.specs.declared.mode.Mode.{Mode};
ghost use Rattle.pair_core.specs.World.{first_world, play};
ghost use Rattle.pair_core.specs.Progress.{IsAlone};
ghost use Rattle.trace_text.specs.CpuTail.{tail_of};
ghost use Rattle.pair_core.specs.Endings.{HasTail};
ghost use Rattle.trace_text.specs.Text.{text};
ghost use Rattle.trace_printer.specs.LoadText.{load_text};
ghost use Rattle.pair_top.specs.Outside.{file_in, sink_in, outside_of};
ghost use Rattle.pair_top.specs.Reading.{IsLoaded, IsPlanned};
ghost use Rattle.pair_top.specs.Orders.{made, is_alone, visits_for, AreMoments};
ghost use Rattle.pair_top.specs.Playing.{AreAt, of_side};
ghost use Rattle.pair_top.specs.Serving.{AreUnused, IsCause, PlayCounts, AreSteady, IsFinished, ComesToTail, IsWriting, IsOutcome, PlayServed, IsUnplayed, setup_of, account_of, GivesWhatIsDue};
ghost use Rattle.pair_top.specs.Loading.{LoadServed, IsSteadyUnless, LoadsWhatIsDue, Served, DueServed};
ghost use Rattle.pair_top.specs.Connecting.{ConnectServed, ConnectsWhatIsDue};
ghost use Rattle.pair_top.specs.Making.{MakeServed, MakesWhatIsDue};
ghost use Rattle.pair_top.specs.Statuses.{status_of};
ghost use Rattle.pair_top.specs.Words.{command_of, words_of};
ghost use Rattle.pair_top.specs.WordsView.{order_of, manner_in, IsReadable, AreReadable};

use crate::errors::{PlayError, play_fault, script_fault, source_fault};
use crate::fault_text::exit_status;
use crate::making::make_both;
use crate::play::{Played, Visits, finish, play_visits};
use crate::reading::{load_source, play_connection, read_plant};
use crate::words::{Command, command_from};
use crate::{Fault, Gate, Outcome};
use ft_connection::ConnText;
use pair_core::{Pair, begins};
use pair_io::{Files, Sink};
use plant_script::Script;
use s7_base::{Blocks, NoMemory, Side};
use std::alloc::Global;
use std::sync::Wait;
use std::thread::Threads;
use subsystem::Subsystem;
use trace_printer::{print, print_load};
use trace_text::Mode;

/// Both files of a play.
#[tactic(auto, using(crate::proofs::Later::script_refused, crate::proofs::Later::counts_later))]
fn read_both<F: Files>(
    alloc: Global,
    source: &[u8],
    script: &[u8],
    files: &mut F,
) -> Result<(Blocks, Script), PlayError>
    ensures source { IfOk result (λ both. IsLoaded (F.content files.old source.now) both.0) }
    ensures script { IfOk result (λ both. IsPlanned (F.content files.old script.now) both.1) }
    ensures refused { let file = file_in F.Files files.old files.new in IfErr result (IsCause (file source.now) (file script.now)) }
    ensures counts { OnOk result ((other : List ℕ) → F.faults files.new other ≡ F.faults files.old other) }
    ensures steady { IfErr result (λ error. (other : List ℕ) → PlayCounts error (file_in F.Files files.old files.new other)) }
{
    let blocks = match load_source(alloc, files, source) {
        Ok(blocks) => blocks,
        Err(error) => return Err(PlayError::Source(error)),
    };
    let plant = read_plant(alloc, files, script).map_err(PlayError::Script)?;
    Ok((blocks, plant))
}

/// A pair for a play, with each side that runs at first at its start.
fn open(
    alloc: Global,
    blocks: &Blocks,
    script: Script,
    solo: bool,
    a: &mut Subsystem,
    b: &mut Subsystem,
) -> Result<Pair, NoMemory>
    requires a { IsNew a.old }
    requires b { IsNew b.old }
    ensures setup { IfOk result (λ pair. pair.setup ≡ setup_of blocks.now script solo) }
    ensures world { IfOk result (λ pair. pair.world ≡ first_world solo) }
    ensures alone { solo ≡ true → IfOk result (λ pair. IsAlone pair.setup pair.world 0) }
    ensures at { IfOk result (λ pair. AreAt pair a.new b.new) }
    ensures err { OnErr result (AreUnused a.new b.new) }
{
    let pair = Pair::new(alloc, blocks, script, solo)?;
    begins();
    a.load(alloc, blocks)?;
    if !solo {
        b.load(alloc, blocks)?;
    }
    Ok(pair)
}

/// The visits of a play, and its end.
fn play_out(
    mut pair: Pair,
    visits: Visits<'_>,
    end: u32,
    a: &mut Subsystem,
    b: &mut Subsystem,
) -> Played
    requires at { AreAt pair a.old b.old }
    requires solo { pair.setup.solo ≡ is_alone (manner_in visits) }
    requires alone { pair.setup.solo ≡ true → IsAlone pair.setup pair.world 0 }
    requires readable { AreReadable visits }
    requires end { end ≡ pair.setup.plan.end }
    requires few { end ≤ 200000 }
    ensures finished { IsFinished pair.setup (play pair.setup pair.world (visits_for (manner_in visits.entry) pair.setup.plan))
        (account_of result.entries.entries result.shown.list result.ended) a.new b.new }
    ensures tail { HasTail result.ended → ComesToTail pair.setup.program result.entries.entries (of_side result.last a.new b.new) }
{
    play_visits(&mut pair, visits, end, a, b);
    finish(pair, a, b)
}

/// Writes the text of a play, whose tail shows this side.
fn write_text<K: Sink>(sink: &mut K, mode: Mode, played: Played, last: &Subsystem) -> Outcome
    requires { HasTail played.ended → IsOpen last.now }
    ensures status { result.status ≡ status_of result.fault }
    ensures account { account_of result.entries.entries result.shown.list result.ended ≡ account_of played.entries.entries played.shown.list played.ended }
    ensures written { IsWriting (text mode played.entries.entries played.shown.list played.ended (tail_of last.now.machine))
        (sink_in K.Sink sink.old sink.new) result.fault }
{
    let Played {
        entries,
        shown,
        ended,
        last: _,
    } = played;
    let fault = match print(sink, mode, &entries, &shown, &ended, Some(last)) {
        Ok(()) => None,
        Err(_) => Some(Fault::SinkFault),
    };
    Outcome {
        status: exit_status(fault),
        fault,
        entries,
        shown,
        ended,
    }
}

/// Plays, and writes the text.
fn play_and_write<K: Sink>(
    alloc: Global,
    blocks: &Blocks,
    script: Script,
    visits: Visits<'_>,
    sink: &mut K,
    a: &mut Subsystem,
    b: &mut Subsystem,
) -> Outcome
    requires a { IsNew a.old }
    requires b { IsNew b.old }
    requires readable { AreReadable visits }
    ensures status { result.status ≡ status_of result.fault }
    ensures played { IsOutcome (manner_in visits.entry) blocks.now script
        (sink_in K.Sink sink.old sink.new)
        (account_of result.entries.entries result.shown.list result.ended) a.new b.new result.fault }
{
    let end = script.end();
    let pair = match open(alloc, blocks, script, visits.is_alone(), a, b) {
        Ok(pair) => pair,
        Err(NoMemory) => return Outcome::refused(alloc, Fault::NoMemory),
    };
    let played = play_out(pair, visits, end, a, b);
    match played.last {
        Side::A => write_text(sink, visits.mode(), played, a),
        Side::B => write_text(sink, visits.mode(), played, b),
    }
}

/// A command that plays the source and the script of these names.
fn serve_play<F: Files, K: Sink>(
    alloc: Global,
    source: &[u8],
    script: &[u8],
    visits: Visits<'_>,
    files: &mut F,
    sink: &mut K,
    a: &mut Subsystem,
    b: &mut Subsystem,
) -> Outcome
    requires a { IsNew a.old }
    requires b { IsNew b.old }
    requires readable { AreReadable visits }
    ensures status { result.status ≡ status_of result.fault }
    ensures served { let outside = outside_of F.Files files.old files.new K.Sink sink.old sink.new in
        PlayServed (manner_in visits.entry) (outside.file source.now) (outside.file script.now) outside.sink
        (account_of result.entries.entries result.shown.list result.ended) a.new b.new result.fault }
    ensures steady { let file = file_in F.Files files.old files.new in AreSteady result.fault (file source.now) (file script.now) }
    ensures words { result.fault ≡ Some Fault.Usage → ⊥ }
    ensures due { let outside = outside_of F.Files files.old files.new K.Sink sink.old sink.new in
        GivesWhatIsDue (outside.file source.now) (outside.file script.now) outside.sink result.fault }
{
    let (blocks, plant) = match read_both(alloc, source, script, files) {
        Ok(both) => both,
        Err(error) => return Outcome::refused(alloc, play_fault(error)),
    };
    play_and_write(alloc, &blocks, plant, visits, sink, a, b)
}

/// Writes the text of a program's blocks.
fn write_blocks<K: Sink>(alloc: Global, sink: &mut K, blocks: &Blocks) -> Outcome
    ensures status { result.status ≡ status_of result.fault }
    ensures unplayed { IsUnplayed (account_of result.entries.entries result.shown.list result.ended) }
    ensures written { IsWriting (load_text blocks.now)
        (sink_in K.Sink sink.old sink.new) result.fault }
{
    match print_load(sink, blocks) {
        Ok(()) => Outcome::quiet(alloc),
        Err(_) => Outcome::refused(alloc, Fault::SinkFault),
    }
}

/// The command that tells the blocks of the source of this name.
fn serve_load<F: Files, K: Sink>(
    alloc: Global,
    source: &[u8],
    files: &mut F,
    sink: &mut K,
) -> Outcome
    ensures status { result.status ≡ status_of result.fault }
    ensures served { let outside = outside_of F.Files files.old files.new K.Sink sink.old sink.new in
        LoadServed (outside.file source.now) outside.sink
        (account_of result.entries.entries result.shown.list result.ended) result.fault }
    ensures steady { IsSteadyUnless result.fault (file_in F.Files files.old files.new source.now) }
    ensures words { result.fault ≡ Some Fault.Usage → ⊥ }
    ensures due { let outside = outside_of F.Files files.old files.new K.Sink sink.old sink.new in
        LoadsWhatIsDue (outside.file source.now) outside.sink result.fault }
{
    match load_source(alloc, files, source) {
        Ok(blocks) => write_blocks(alloc, sink, &blocks),
        Err(error) => Outcome::refused(alloc, source_fault(error)),
    }
}

/// Writes the text of a connection.
fn write_connection<K: Sink>(alloc: Global, sink: &mut K, text: &ConnText) -> Outcome
    ensures status { result.status ≡ status_of result.fault }
    ensures unplayed { IsUnplayed (account_of result.entries.entries result.shown.list result.ended) }
    ensures written { IsWriting text.now
        (sink_in K.Sink sink.old sink.new) result.fault }
{
    match sink.write(text.as_slice()) {
        Ok(()) => Outcome::quiet(alloc),
        Err(_) => Outcome::refused(alloc, Fault::SinkFault),
    }
}

/// The command that plays the events of the file of this name.
fn serve_connect<F: Files, K: Sink>(
    alloc: Global,
    events: &[u8],
    files: &mut F,
    sink: &mut K,
) -> Outcome
    ensures status { result.status ≡ status_of result.fault }
    ensures served { let outside = outside_of F.Files files.old files.new K.Sink sink.old sink.new in
        ConnectServed (outside.file events.now) outside.sink
        (account_of result.entries.entries result.shown.list result.ended) result.fault }
    ensures steady { IsSteadyUnless result.fault (file_in F.Files files.old files.new events.now) }
    ensures words { result.fault ≡ Some Fault.Usage → ⊥ }
    ensures due { let outside = outside_of F.Files files.old files.new K.Sink sink.old sink.new in
        ConnectsWhatIsDue (outside.file events.now) outside.sink result.fault }
{
    match play_connection(alloc, files, events) {
        Ok(played) => write_connection(alloc, sink, &played.text),
        Err(error) => Outcome::refused(alloc, script_fault(error)),
    }
}

/// The command that plays the source and the script that are made for so many moments.
fn serve_make<K: Sink>(
    alloc: Global,
    moments: u32,
    sink: &mut K,
    a: &mut Subsystem,
    b: &mut Subsystem,
) -> Outcome
    requires a { IsNew a.old }
    requires b { IsNew b.old }
    requires moments { AreMoments moments }
    ensures status { result.status ≡ status_of result.fault }
    ensures served { MakeServed moments (sink_in K.Sink sink.old sink.new)
        (account_of result.entries.entries result.shown.list result.ended) a.new b.new result.fault }
    ensures words { result.fault ≡ Some Fault.Usage → ⊥ }
    ensures due { MakesWhatIsDue (sink_in K.Sink sink.old sink.new) result.fault }
{
    let (blocks, script) = match make_both(alloc, moments) {
        Ok(both) => both,
        Err(NoMemory) => return Outcome::refused(alloc, Fault::NoMemory),
    };
    play_and_write(alloc, &blocks, script, Visits::Made(moments), sink, a, b)
}

/// Does what a command says.
fn serve_command<F: Files, K: Sink>(
    alloc: Global,
    command: Command<'_>,
    files: &mut F,
    sink: &mut K,
    a: &mut Subsystem,
    b: &mut Subsystem,
) -> Outcome
    requires a { IsNew a.old }
    requires b { IsNew b.old }
    requires readable { IsReadable command }
    ensures status { result.status ≡ status_of result.fault }
    ensures served { Served (Some (order_of command.entry))
        (outside_of F.Files files.old files.new K.Sink sink.old sink.new)
        (account_of result.entries.entries result.shown.list result.ended) a.new b.new result.fault }
    ensures words { result.fault ≡ Some Fault.Usage → ⊥ }
    ensures due { DueServed (Some (order_of command.entry))
        (outside_of F.Files files.old files.new K.Sink sink.old sink.new) result.fault }
{
    match command {
        Command::Load { source } => serve_load(alloc, source, files, sink),
        Command::Connect { events } => serve_connect(alloc, events, files, sink),
        Command::Solo { source, script } => {
            serve_play(alloc, source, script, Visits::Alone, files, sink, a, b)
        }
        Command::Turns {
            source,
            script,
            pattern,
        } => serve_play(
            alloc,
            source,
            script,
            Visits::Turns(pattern),
            files,
            sink,
            a,
            b,
        ),
        Command::Make { moments } => serve_make(alloc, moments, sink, a, b),
    }
}

/// Does what the words say, on the caller's thread: `load SOURCE` tells the blocks of a source, `connect EVENTS` plays the events
/// of a connection, `solo SOURCE SCRIPT` plays side A alone, `turns SOURCE SCRIPT PATTERN` plays both sides by the letters of
/// the pattern, and `make N` plays both sides in turn by a source and a script that it makes for N moments.
///
/// `a` and `b` are as `Subsystem::new` made them. Waits for nobody, and always returns.
pub fn serve_alone<F: Files, K: Sink>(
    alloc: Global,
    words: &[Vec<u8>],
    files: &mut F,
    sink: &mut K,
    a: &mut Subsystem,
    b: &mut Subsystem,
) -> Outcome
    requires a { IsNew a.old }
    requires b { IsNew b.old }
    ensures status { result.status ≡ status_of result.fault }

    // What the command answers and leaves: the play and its text, the text of the blocks or of the connection, or the cause of the
    // refusal.
    ensures served { Served (command_of (words_of words.now))
        (outside_of F.Files files.old files.new K.Sink sink.old sink.new)
        (account_of result.entries.entries result.shown.list result.ended) a.new b.new result.fault }

    // The words are refused exactly where they are no command.
    ensures usage { (result.fault ≡ Some Fault.Usage) ↔ IsNone (command_of (words_of words.now)) }

    // Each refusal that is due comes; where none is, the command is done to its end.
    ensures due { DueServed (command_of (words_of words.now))
        (outside_of F.Files files.old files.new K.Sink sink.old sink.new) result.fault }
{
    match command_from(words) {
        None => Outcome::refused(alloc, Fault::Usage),
        Some(command) => serve_command(alloc, command, files, sink, a, b),
    }
}

/// Does what the words say, with the runtime's threads where a command needs them; none does yet.
///
/// `a` and `b` are as `Subsystem::new` made them.
pub fn s7h_top<R: Threads + Wait + Sync, F: Files, K: Sink, G: Gate + Sync>(
    _rt: &R,
    alloc: Global,
    words: &[Vec<u8>],
    files: &mut F,
    sink: &mut K,
    a: &mut Subsystem,
    b: &mut Subsystem,
    _gate: &G,
) -> Outcome
    requires a { IsNew a.old }
    requires b { IsNew b.old }
    ensures status { result.status ≡ status_of result.fault }

    // What the command answers and leaves: the play and its text, the text of the blocks or of the connection, or the cause of the
    // refusal.
    ensures served { Served (command_of (words_of words.now))
        (outside_of F.Files files.old files.new K.Sink sink.old sink.new)
        (account_of result.entries.entries result.shown.list result.ended) a.new b.new result.fault }

    // The words are refused exactly where they are no command.
    ensures usage { (result.fault ≡ Some Fault.Usage) ↔ IsNone (command_of (words_of words.now)) }

    // Each refusal that is due comes; where none is, the command is done to its end.
    ensures due { DueServed (command_of (words_of words.now))
        (outside_of F.Files files.old files.new K.Sink sink.old sink.new) result.fault }
{
    serve_alone(alloc, words, files, sink, a, b)
}
