//! The pair.
ghost use Rattle.std.specs.Prelude.{ℕ, true, false, ◌≡◌, ◌+◌, ◌||◌, Some, None, is_some, length, IfOk};
ghost use mathlib.Core.List.{IsPrefix};
ghost use Rattle.pair_core.specs.Sides.{other_side, runs};
ghost use Rattle.pair_core.specs.Turns.{is_over};
ghost use Rattle.pair_core.specs.World.{part, step, ended, standing_in, first_world};
ghost use Rattle.pair_core.specs.SystemStates.{state_by};
ghost use Rattle.pair_core.specs.Places.{IsAt, StandsAfter};
ghost use Rattle.pair_core.specs.Good.{Good};
ghost use Rattle.pair_core.specs.Finished.{ended_by, MayEnd};
ghost use Rattle.pair_core.specs.Played.{IsRun, IsSideOf};
ghost use Rattle.pair_core.specs.Progress.{IsAlone};
ghost use Rattle.s7_events.specs.declared.entry.Side.{Side};
ghost use Rattle.s7_events.specs.declared.entry.Side.TheVariants.{A};
ghost use Rattle.pair_core.specs.declared.endings.Ended.{Ended};
ghost use Rattle.pair_core.specs.declared.turns.Turn.TheVariants as turns;
ghost use Rattle.subsystem.specs.Part.{Part};
ghost use Rattle.pair_core.specs.Endings.{HasTail};

use crate::cuts::Cuts;
use crate::jobs::Jobs;
use crate::own::Own;
use crate::plant_inputs::read_moment;
use crate::sides::Sides;
use crate::standing::Standing;
use crate::state::{Derived, Log, Setup, State};
use crate::waits::add_discrepancies;
use crate::{Ended, Shown, SystemState, Turn};
use alarm_queue::Waiting;
use event_record::Record;
use plant_io::Inputs;
use plant_script::Script;
use s7_base::{Blocks, NoMemory, Side};
use std::alloc::Global;
use std::marker::Model;
use subsystem::Subsystem;

/// A pair that is played by visits: the record, the showings, and what is kept of each side. Only `new` takes
/// memory. Contracts see what it is made for, and its world.
#[derive(Debug, Drop)]
pub struct Pair {
    state: State,
}

impl Model for Pair {
    ghost use Rattle.pair_core.specs.World.{Game};

    ghost Value = { Game };

    ghost use Rattle.pair_core.specs.Kept.{game_of, setup_of, world_of, IsKept};
    ghost use Rattle.pair_core.specs.Good.{Good};

    ghost view = { λ pair. game_of pair.state };

    ghost invariant = { λ pair. IsKept pair.state × Good (setup_of pair.state) (world_of pair.state) };
}

impl Pair {
    /// A pair that was not visited yet, for these blocks and this script, with both sides, or with side A alone.
    #[tactic(auto, using(crate::proofs::Visits::good_first))]
    pub fn new(alloc: Global, blocks: &Blocks, script: Script, solo: bool) -> Result<Pair, NoMemory>
        ensures setup { IfOk result (λ pair. pair.setup ≡ record { program = blocks.now; plan = script; solo = solo }) }
        ensures world { IfOk result (λ pair. pair.world ≡ first_world solo) }
        ensures good { IfOk result (λ pair. Good pair.setup pair.world) }
        ensures alone { solo ≡ true → IfOk result (λ pair. IsAlone pair.setup pair.world 0) }
    {
        let end = script.end();
        let cuts = Cuts::new(&script);
        let jobs = Jobs::new(alloc, &script)?;
        let mut inputs = Inputs::new(alloc, &script)?;
        let standing = Standing::first(solo);
        read_moment(&mut inputs, &script, &standing, 0);
        let mut waiting = Waiting::new(alloc, &script, blocks)?;
        waiting.due(0);
        add_discrepancies(&mut waiting, &script, &inputs, 0);
        let program = blocks.copy(alloc)?;
        let log = Record::with_room(alloc, end)?;
        let shown = Shown::with_room(alloc, 2 * end)?;
        let first = Own::at_start(true);
        let second = Own::at_start(!solo);
        Ok(Pair {
            state: State {
                setup: Setup {
                    program,
                    script,
                    solo,
                },
                log: Log {
                    record: log,
                    shown,
                    marked: 0,
                },
                parts: Sides {
                    a: first,
                    b: second,
                },
                derived: Derived {
                    standing,
                    watch: None,
                    past: Sides { a: 0, b: 0 },
                    inputs,
                    cuts,
                    waiting,
                    jobs,
                },
            },
        })
    }

    /// One visit of a side, whose subsystem is as its last visit left it, or as it was loaded for this pair.
    #[tactic(auto, using(crate::proofs::Visits::can_visit, crate::proofs::Visits::keeps, crate::proofs::Grows::grows, crate::proofs::Grows::apart, crate::proofs::Overs::over_told))]
    pub fn visit(&mut self, side: Side, sub: &mut Subsystem) -> Turn
        requires { IsAt self.old.setup.program (part self.old.world side) self.old.world.log.entries sub.old }
        ensures world { self.new.world ≡ (step self.old.setup self.old.world side).world }
        ensures turn { result ≡ (step self.old.setup self.old.world side).answer }
        ensures setup { self.new.setup ≡ self.old.setup }

        // The subsystem stands where the pair says, and the pair keeps its word.
        ensures sub { IsAt self.new.setup.program (part self.new.world side) self.new.world.log.entries sub.new }
        ensures good { Good self.new.setup self.new.world }

        // Entries are only added, and what is kept of the other side stays, and so does its subsystem.
        ensures grows { IsPrefix self.old.world.log.entries self.new.world.log.entries }
        ensures apart { part self.new.world (other_side side) ≡ part self.old.world (other_side side) }
        ensures other { (other : Part) → IsAt self.old.setup.program (part self.old.world (other_side side)) self.old.world.log.entries other
            → IsAt self.new.setup.program (part self.new.world (other_side side)) self.new.world.log.entries other }
        ensures over { is_over result ≡ true → (part self.new.world side).over ≡ true }

        // It is answered Over where the run has ended, and then leaves the log. Alone, side A comes to that: each other
        // visit does one more of at most 3 × END things, so one of any 3 × END + 1 visits is answered Over.
        ensures told { (ending : Ended) → ended self.old.setup self.old.world ≡ Some ending → (result ≡ turns.Over ending) × (self.new.world.log ≡ self.old.world.log) }
        ensures ended { is_over result ≡ true → is_some (ended self.new.setup self.new.world) ≡ true }
        ensures alone { side ≡ A → (visits : ℕ) → IsAlone self.old.setup self.old.world visits → is_over result ≡ false → IsAlone self.new.setup self.new.world (visits + 1) }
    {
        let act = self.state.choose(side);
        self.state.act(side, act, sub)
    }

    /// The number of entries.
    pub fn len(&self) -> u32
        ensures { result ≡ length self.now.world.log.entries }
    {
        self.state.len()
    }

    /// The record.
    pub fn entries(&self) -> &Record
        ensures { result.now.entries ≡ self.now.world.log.entries }
    {
        &self.state.log.record
    }

    /// The showings, in their order.
    pub fn shown(&self) -> &Shown
        ensures { result.now.list ≡ self.now.world.log.shown }
    {
        &self.state.log.shown
    }

    /// One past the last output that is marked.
    pub fn marked(&self) -> u32
        ensures { result ≡ self.now.world.log.marked }
    {
        self.state.log.marked
    }

    /// The side that is master.
    pub fn master(&self) -> Side
        ensures { result ≡ (standing_in self.now.setup self.now.world.log).master }
    {
        self.state.derived.standing.master
    }

    /// How the run has ended. None exactly where it goes on.
    pub fn ended(&self) -> Option<Ended>
        ensures ended { result ≡ ended self.now.setup self.now.world }
        ensures good { Good self.now.setup self.now.world }
    {
        self.state.ended()
    }

    /// The state of the pair.
    pub fn state(&self) -> SystemState
        ensures { result ≡ state_by (ended self.now.setup self.now.world) (standing_in self.now.setup self.now.world.log) }
    {
        match self.state.ended() {
            Some(Ended::Stop(_) | Ended::NoneLeft) => SystemState::Stop,
            _ if self.state.derived.standing.running.a && self.state.derived.standing.running.b =>
                SystemState::Redundant,
            _ => SystemState::Solo,
        }
    }

    /// The record, the showings and how the run ended: Spent where nothing else holds.
    pub fn finish(self, spent: bool) -> (Record, Shown, Ended)
        requires { (spent || is_some (ended self.setup self.world)) ≡ true }
        ensures entries { result.0.entries ≡ self.world.log.entries }
        ensures shown { result.1.list ≡ self.world.log.shown }
        ensures ended { result.2 ≡ ended_by self.setup self.world }
        ensures good { Good self.setup self.world }

        // The record is the standard CPU's and lawful, and the showings and the end follow from it; and a subsystem
        // that stands where the pair says has the lives of its side. Where that side runs, its life is open unless a
        // visit finds the side cut, and where the life is open its machine is the standard CPU's after its place.
        ensures run { MayEnd self.setup self.world → IsRun self.setup.program self.setup.plan self.setup.solo self.world.log.entries self.world.log.shown result.2 }
        ensures sides { (side : Side) (sub : Part) → IsAt self.setup.program (part self.world side) self.world.log.entries sub
            → IsSideOf self.setup.program self.setup.plan self.setup.solo self.world.log.entries self.world.log.shown result.2 side sub }

        // Where the run has a tail, the machine of each side that runs is the standard CPU's after all entries.
        ensures last { HasTail result.2 → (side : Side) (sub : Part) → runs (standing_in self.setup self.world.log) side ≡ true
            → IsAt self.setup.program (part self.world side) self.world.log.entries sub → StandsAfter self.setup.program self.world.log.entries sub.machine }
    {
        let ended = self.state.ended();
        prove!(spent || ended.is_some());
        (
            self.state.log.record,
            self.state.log.shown,
            ended.unwrap_or(Ended::Spent),
        )
    }
}
