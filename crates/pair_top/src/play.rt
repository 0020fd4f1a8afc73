//! Plays a pair by visits.
ghost use Rattle.std.specs.Prelude.{◌≡◌, ◌≤◌, ◌+◌, ◌*◌, ◌∷◌, [], List, true, replicate, is_some};
ghost use Rattle.s7_events.specs.declared.entry.Side.{Side};
ghost use Rattle.s7_events.specs.declared.entry.Entry.{Entry};
ghost use Rattle.s7_base.specs.Blocks.{Program};
ghost use Rattle.pair_core.specs.OwnParts.{OwnPart};
ghost use Rattle.pair_core.specs.World.{ended, play};
ghost use Rattle.pair_core.specs.Finished.{MayEnd};
ghost use Rattle.pair_core.specs.Places.{IsAt};
ghost use Rattle.pair_core.specs.Progress.{IsAlone};
ghost use Rattle.pair_core.specs.Endings.{HasTail};
ghost use Rattle.pair_top.specs.Pattern.{sides_of, repeated, visits_of};
ghost use Rattle.pair_top.specs.PatternView.{sides_in};
ghost use Rattle.pair_top.specs.Orders.{is_alone, visits_for, mode_for};
ghost use Rattle.pair_top.specs.WordsView.{manner_in, visits_in, AreReadable};
ghost use Rattle.pair_top.specs.Playing.{Plays, IsBrought, AreAt, of_side};
ghost use Rattle.pair_top.specs.Serving.{IsFinished, ComesToTail, account_of};

use crate::pattern::{first_piece, part_from, side_from};
use event_record::Record;
use pair_core::{Ended, Pair, Shown, asking_stays};
use s7_base::Side;
use subsystem::Subsystem;
use trace_text::Mode;

/// How a pair is played.
#[derive(Clone, Copy)]
pub enum Visits<'a> {
    /// Side A alone, to the end of the run.
    Alone,
    /// Both sides, by this pattern.
    Turns(&'a [u8]),
    /// Both sides in turn, four visits of each for each of so many moments.
    Made(u32),
}

impl Visits<'_> {
    /// Whether side A plays alone.
    pub fn is_alone(&self) -> bool
        ensures { result ≡ is_alone (manner_in self.now) }
    {
        matches!(self, Visits::Alone)
    }

    /// Which text is written.
    pub fn mode(&self) -> Mode
        ensures { result ≡ mode_for (manner_in self.now) }
    {
        match self {
            Visits::Alone => Mode::Solo,
            Visits::Turns(_) => Mode::Pair,
            Visits::Made(_) => Mode::TailOnly,
        }
    }
}

/// What was played: the record, its showings and its end, and the side whose CPU the text shows.
#[derive(Debug, Drop)]
pub struct Played {
    pub entries: Record,
    pub shown: Shown,
    pub ended: Ended,
    pub last: Side,
}

/// One visit of a side. Tells whether the run has ended.
fn visit(pair: &mut Pair, side: Side, a: &mut Subsystem, b: &mut Subsystem) -> bool
    requires { AreAt pair.old a.old b.old }
    ensures setup { pair.new.setup ≡ pair.old.setup }
    ensures at { AreAt pair.new a.new b.new }
    ensures played { Plays pair.old.setup pair.old.world (side ∷ []) result pair.new.world }
{
    let answer = match side {
        Side::A => pair.visit(Side::A, a),
        Side::B => pair.visit(Side::B, b),
    };
    answer.is_over()
}

/// The visits that letters name, in their order. Tells whether the run has ended.
fn play_letters(pair: &mut Pair, letters: &[u8], a: &mut Subsystem, b: &mut Subsystem) -> bool
    requires at { AreAt pair.old a.old b.old }
    requires letters { is_some (sides_of letters.now) ≡ true }
    ensures setup { pair.new.setup ≡ pair.old.setup }
    ensures at { AreAt pair.new a.new b.new }
    ensures played { Plays pair.old.setup pair.old.world (sides_in letters.now) result pair.new.world }
{
    for letter in letters {
        let Some(side) = side_from(*letter) else {
            unreachable!();
        };
        if visit(pair, side, a, b) {
            return true;
        }
    }
    false
}

/// So often these visits. Tells whether the run has ended.
fn play_part(
    pair: &mut Pair,
    times: u32,
    letters: &[u8],
    a: &mut Subsystem,
    b: &mut Subsystem,
) -> bool
    requires at { AreAt pair.old a.old b.old }
    requires letters { is_some (sides_of letters.now) ≡ true }
    ensures setup { pair.new.setup ≡ pair.old.setup }
    ensures at { AreAt pair.new a.new b.new }
    ensures played { Plays pair.old.setup pair.old.world (repeated times (sides_in letters.now)) result pair.new.world }
{
    for _ in 0..times {
        if play_letters(pair, letters, a, b) {
            return true;
        }
    }
    false
}

/// The visits that a pattern orders, up to the end of the run.
fn play_pattern(pair: &mut Pair, pattern: &[u8], a: &mut Subsystem, b: &mut Subsystem)
    requires at { AreAt pair.old a.old b.old }
    requires pattern { is_some (visits_of pattern.now) ≡ true }
    ensures setup { pair.new.setup ≡ pair.old.setup }
    ensures at { AreAt pair.new a.new b.new }
    ensures played { pair.new.world ≡ play pair.old.setup pair.old.world (visits_in pattern.now) }
{
    let mut left = Some(pattern);
    while let Some(text) = left {
        let (piece, rest) = first_piece(text);
        let Some(part) = part_from(piece) else {
            unreachable!();
        };
        if play_part(pair, part.times, part.letters, a, b) {
            return;
        }
        left = rest;
    }
}

/// Visits of side A, which runs alone, up to the end of the run: it comes by 3 × `end` + 1 visits.
fn play_alone(pair: &mut Pair, end: u32, a: &mut Subsystem, b: &mut Subsystem)
    requires at { AreAt pair.old a.old b.old }
    requires alone { IsAlone pair.old.setup pair.old.world 0 }
    requires end { end ≡ pair.old.setup.plan.end }
    requires few { end ≤ 200000 }
    ensures setup { pair.new.setup ≡ pair.old.setup }
    ensures at { AreAt pair.new a.new b.new }
    ensures played { pair.new.world ≡ play pair.old.setup pair.old.world (replicate (3 * end + 1) Side.A) }
    ensures ended { is_some (ended pair.new.setup pair.new.world) ≡ true }
{
    for _ in 0..3 * end + 1 {
        let turn = pair.visit(Side::A, a);
        if turn.is_over() {
            return;
        }
    }
    unreachable!();
}

/// The visits of a made play of so many moments, up to the end of the run.
fn play_made(pair: &mut Pair, moments: u32, a: &mut Subsystem, b: &mut Subsystem)
    requires at { AreAt pair.old a.old b.old }
    requires few { moments ≤ 100000 }
    ensures setup { pair.new.setup ≡ pair.old.setup }
    ensures at { AreAt pair.new a.new b.new }
    ensures played { pair.new.world ≡ play pair.old.setup pair.old.world (repeated (4 * moments) (Side.A ∷ Side.B ∷ [])) }
{
    play_part(pair, 4 * moments, b"ab", a, b);
}

/// The visits of a play. Takes no memory.
pub fn play_visits(
    pair: &mut Pair,
    visits: Visits<'_>,
    end: u32,
    a: &mut Subsystem,
    b: &mut Subsystem,
)
    requires at { AreAt pair.old a.old b.old }
    requires solo { pair.old.setup.solo ≡ is_alone (manner_in visits) }
    requires alone { pair.old.setup.solo ≡ true → IsAlone pair.old.setup pair.old.world 0 }
    requires readable { AreReadable visits }
    requires end { end ≡ pair.old.setup.plan.end }
    requires few { end ≤ 200000 }
    ensures setup { pair.new.setup ≡ pair.old.setup }
    ensures at { AreAt pair.new a.new b.new }
    ensures played { pair.new.world ≡ play pair.old.setup pair.old.world (visits_for (manner_in visits.entry) pair.old.setup.plan) }
    ensures may { MayEnd pair.new.setup pair.new.world }
{
    match visits {
        Visits::Alone => play_alone(pair, end, a, b),
        Visits::Turns(pattern) => play_pattern(pair, pattern, a, b),
        Visits::Made(moments) => play_made(pair, moments, a, b),
    }
}

/// Asks a side once more, where its CPU has not stopped, so that it shows the state at its next request.
fn bring(side: &mut Subsystem)
    ensures { (program : Program) (own : OwnPart) (es : List Entry) → IsAt program own es side.old → IsBrought program own es side.old side.new }
{
    asking_stays();
    if side.can_ask() {
        side.ask();
    }
}

/// Ends a play. The master's CPU is brought to its next request, and is the one that the text shows.
pub fn finish(pair: Pair, a: &mut Subsystem, b: &mut Subsystem) -> Played
    requires at { AreAt pair a.old b.old }
    requires may { MayEnd pair.setup pair.world }
    ensures finished { IsFinished pair.setup pair.world (account_of result.entries.entries result.shown.list result.ended) a.new b.new }
    ensures tail { HasTail result.ended → ComesToTail pair.setup.program result.entries.entries (of_side result.last a.new b.new) }
{
    let last = pair.master();
    match last {
        Side::A => bring(a),
        Side::B => bring(b),
    }
    let spent = pair.ended().is_none();
    let (entries, shown, ended) = pair.finish(spent);
    Played {
        entries,
        shown,
        ended,
        last,
    }
}
