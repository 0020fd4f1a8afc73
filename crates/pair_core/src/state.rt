//! All that the pair keeps, and what a visit tests and does.
ghost use Rattle.std.specs.Prelude.{◌≡◌, ◌+◌, ◌*◌, ◌<◌, ◌++◌, ◌∷◌, [], length, Some, nat_lt, if◌then◌else◌};
ghost use Rattle.pair_core.specs.declared.turns.Act as Act;
ghost use Rattle.pair_core.specs.Ledger.{ledger};
ghost use Rattle.pair_core.specs.Cuts.{is_cut, is_late};
ghost use Rattle.pair_core.specs.Stops.{stop_by, stop_of};
ghost use Rattle.pair_core.specs.Showings.{is_output_of};
ghost use Rattle.pair_core.specs.Endings.{ends_by_output};
ghost use Rattle.plant_io.specs.Inputs.{input_image, input_read, takes_output};
ghost use Rattle.pair_core.specs.PlantInputs.{answer_read, answer_written};
ghost use Rattle.pair_core.specs.Lawful.{plain_answer};
ghost use Rattle.pair_core.specs.World.{is_open, is_pending, has_shown, is_down, is_left, is_behind, end_by, ended, must_wait, waits_for_other, choose, acted, standing_in, with_entry};
ghost use Rattle.pair_core.specs.Sides.{of_side};
ghost use Rattle.pair_core.specs.OwnParts.{own_place};
ghost use Rattle.pair_core.specs.Kept.{setup_of, log_of, world_of, IsKept, CanAct};
ghost use Rattle.pair_core.specs.Places.{IsAt};
ghost use Rattle.pair_core.specs.Good.{GoodLog};

use crate::cuts::Cuts;
use crate::jobs::Jobs;
use crate::own::{Own, place_of};
use crate::plant_inputs::{answer_read, answer_written};
use crate::sides::{Sides, is_same, other};
use crate::standing::Standing;
use crate::turns::Act;
use crate::{Ended, Reason, Shown, Turn};
use alarm_queue::Waiting;
use event_record::Record;
use plant_io::{Inputs, takes_output};
use plant_script::Script;
use s7_base::{Answer, Ask, Blocks, Entry, Loss, Side, StopCode};
use subsystem::Subsystem;

/// What a pair is made for: the program of its CPUs, the plant script, and whether side A runs alone.
#[derive(Debug, Drop)]
pub struct Setup {
    pub program: Blocks,
    pub script: Script,
    pub solo: bool,
}

/// What both sides share: the record, the showings, and one past the last output that is marked.
#[derive(Debug, Drop)]
pub struct Log {
    pub record: Record,
    pub shown: Shown,
    pub marked: u32,
}

/// What follows from the record, the showings and the script: who runs, from which moment the cycle is monitored, one past
/// the last entry that each side showed, what the pair makes of the plant's inputs, what the script made of the sides, the
/// alarms that wait, and the jobs that were not answered.
#[derive(Debug, Drop)]
pub struct Derived {
    pub standing: Standing,
    pub watch: Option<u32>,
    pub past: Sides<u32>,
    pub inputs: Inputs,
    pub cuts: Cuts,
    pub waiting: Waiting,
    pub jobs: Jobs,
}

/// All that the pair keeps: what it is made for, what both sides share, what is kept of each side, and what follows from
/// these.
#[derive(Debug, Drop)]
pub struct State {
    pub setup: Setup,
    pub log: Log,
    pub parts: Sides<Own>,
    pub derived: Derived,
}

/// The code with which an entry stops the CPU.
fn stop_by(ask: &Ask, answer: &Answer) -> Option<StopCode>
    ensures { result ≡ stop_by ask.now answer.now }
{
    match (ask, answer) {
        (_, Answer::CpuStop(code)) => Some(*code),
        (Ask::Stop(code), Answer::Done) => Some(*code),
        _ => None,
    }
}

/// Whether an entry is an output.
fn is_output(ask: &Ask, answer: &Answer) -> bool
    ensures { result ≡ is_output_of ask.now answer.now }
{
    matches!(
        (ask, answer),
        (Ask::Outputs(_) | Ask::WriteP { .. }, Answer::Done)
    )
}

impl State {
    /// The input image.
    fn input_image(&self) -> [u8; 64]
        requires { IsKept self.now }
        ensures { let g = ledger (setup_of self.now) self.now.log.record.entries in result ≡ input_image self.now.setup.script g.standing.running.a g.standing.running.b g.inputs g.moment }
    {
        let running = self.derived.standing.running;
        self.derived.inputs.image(
            &self.setup.script,
            running.a,
            running.b,
            u64::from(self.len()),
        )
    }

    /// The answer to a direct access that reads.
    fn answer_read(&self, addr: u16, width: u8) -> Answer
        requires { IsKept self.now }
        ensures { let g = ledger (setup_of self.now) self.now.log.record.entries in result ≡ answer_read (input_read self.now.setup.script g.standing.running.a g.standing.running.b g.inputs g.moment addr width) }
    {
        let running = self.derived.standing.running;
        let moment = u64::from(self.len());
        let read = self.derived.inputs.read(
            &self.setup.script,
            running.a,
            running.b,
            addr,
            width,
            moment,
        );
        answer_read(read)
    }

    /// The answer to a direct access that writes.
    fn answer_written(&self, addr: u16, width: u8) -> Answer
        requires { IsKept self.now }
        ensures { let g = ledger (setup_of self.now) self.now.log.record.entries in result ≡ answer_written (takes_output self.now.setup.script g.standing.running.a g.standing.running.b addr width) }
    {
        let running = self.derived.standing.running;
        let taken = takes_output(&self.setup.script, running.a, running.b, addr, width);
        answer_written(taken)
    }

    /// The answer to a request that nothing prevents.
    pub fn plain_answer(&self, ask: &Ask) -> Answer
        requires { IsKept self.now }
        ensures { plain_answer (setup_of self.now) (ledger (setup_of self.now) self.now.log.record.entries) ask.now ≡ Some result }
    {
        match ask {
            Ask::Inputs => Answer::Image(self.input_image()),
            Ask::Cycle => Answer::Go,
            Ask::Outputs(_) | Ask::Tick | Ask::Retrigger | Ask::Reply(_) | Ask::Stop(_) => {
                Answer::Done
            }
            Ask::Now => Answer::Now(u64::from(self.len())),
            Ask::ReadP { addr, width } => self.answer_read(*addr, *width),
            Ask::WriteP { addr, width, .. } => self.answer_written(*addr, *width),
        }
    }

    /// The number of entries, which is the moment.
    pub fn len(&self) -> u32
        ensures { result ≡ length self.now.log.record.entries }
    {
        self.log.record.len()
    }

    /// The code with which the last entry stops the CPU.
    #[tactic(auto, using(crate::proofs::Lasts::stop_last))]
    pub fn stop(&self) -> Option<StopCode>
        ensures { result ≡ stop_of self.now.log.record.entries }
    {
        match self.log.record.as_slice().last() {
            Some(entry) => stop_by(&entry.request.ask, &entry.answer),
            None => None,
        }
    }

    /// Whether the last entry is an output.
    #[tactic(auto, using(crate::proofs::Lasts::output_last))]
    fn ends_by_output(&self) -> bool
        ensures { result ≡ ends_by_output self.now.log.record.entries }
    {
        match self.log.record.as_slice().last() {
            Some(entry) => is_output(&entry.request.ask, &entry.answer),
            None => false,
        }
    }

    /// Whether another entry may follow.
    #[tactic(auto, unfolding(crate::specs::World::is_open))]
    fn is_open(&self) -> bool
        ensures { result ≡ is_open (setup_of self.now) (log_of self.now) }
    {
        self.len() < self.setup.script.end() && self.stop().is_none()
    }

    /// Whether the last entry is an output that is not marked.
    #[tactic(auto, unfolding(crate::specs::World::is_pending))]
    pub fn is_pending(&self) -> bool
        ensures { result ≡ is_pending (log_of self.now) }
    {
        self.ends_by_output() && self.log.marked < self.len()
    }

    /// Whether the side has shown the last entry.
    #[tactic(auto, unfolding(crate::specs::World::has_shown))]
    fn has_shown(&self, side: Side) -> bool
        requires { IsKept self.now }
        ensures { result ≡ has_shown (log_of self.now) side }
    {
        self.derived.past.of(side) == self.len()
    }

    /// Whether the script stops the side now.
    #[tactic(auto, unfolding(crate::specs::Cuts::is_cut))]
    pub fn is_cut(&self, side: Side) -> bool
        requires { IsKept self.now }
        ensures { result ≡ is_cut self.now.setup.script side (length self.now.log.record.entries) }
    {
        self.derived.cuts.soundness_of(side).is_failed()
    }

    /// Whether the line that stops it says that it is late.
    #[tactic(auto, unfolding(crate::specs::Cuts::is_late))]
    fn is_late(&self, side: Side) -> bool
        requires { IsKept self.now }
        ensures { result ≡ is_late self.now.setup.script side (length self.now.log.record.entries) }
    {
        self.derived.cuts.soundness_of(side).is_failed_late()
    }

    /// Whether a visit finds the side cut: a late master first shows its last output.
    #[tactic(auto, unfolding(crate::specs::World::is_down))]
    pub fn is_down(&self, side: Side) -> bool
        requires { IsKept self.now }
        ensures { result ≡ is_down (setup_of self.now) (log_of self.now) side }
    {
        if !self.is_open() || !self.is_cut(side) {
            return false;
        }
        let shows_first = self.is_late(side)
            && is_same(side, self.derived.standing.master)
            && self.is_pending()
            && !self.has_shown(side);
        !shows_first
    }

    /// Whether the side runs and is not cut.
    fn is_left(&self, side: Side) -> bool
        requires { IsKept self.now }
        ensures { result ≡ is_left (setup_of self.now) (log_of self.now) side }
    {
        self.derived.standing.runs(side) && !self.is_down(side)
    }

    /// Whether the side has not taken all entries.
    fn is_late_with_entries(&self, side: Side) -> bool
        ensures { result ≡ nat_lt (own_place (of_side self.now.parts side)) (length self.now.log.record.entries) }
    {
        place_of(&self.parts, side) < self.len()
    }

    /// Whether the side runs and has not taken all entries.
    fn is_behind(&self, side: Side) -> bool
        requires { IsKept self.now }
        ensures { result ≡ is_behind (setup_of self.now) (world_of self.now) side }
    {
        self.derived.standing.runs(side) && self.is_late_with_entries(side)
    }

    /// How the run has ended, if it has.
    #[tactic(auto, unfolding(crate::specs::World::ended))]
    pub fn ended(&self) -> Option<Ended>
        requires { IsKept self.now }
        ensures { result ≡ ended (setup_of self.now) (world_of self.now) }
    {
        if self.is_open() {
            return if self.is_left(Side::A) || self.is_left(Side::B) {
                None
            } else {
                Some(Ended::NoneLeft)
            };
        }
        if self.is_behind(Side::A) || self.is_behind(Side::B) {
            return None;
        }
        match self.stop() {
            Some(code) => Some(Ended::Stop(code)),
            None if self.is_pending() => None,
            None => Some(Ended::End),
        }
    }

    /// What a visit does where the last output is not marked.
    fn choose_output(&self, side: Side) -> Act
        requires { IsKept self.now }
        ensures { result ≡ (if must_wait (setup_of self.now) (log_of self.now) side then Act.Unmarked else (if has_shown (log_of self.now) side then Act.Mark else Act.Show)) }
    {
        let master = self.derived.standing.master;
        if !is_same(side, master) && !self.is_down(master) {
            return Act::Unmarked;
        }
        if self.has_shown(side) {
            Act::Mark
        } else {
            Act::Show
        }
    }

    /// What a visit of the side does.
    #[tactic(auto, unfolding(crate::specs::World::choose))]
    pub fn choose(&self, side: Side) -> Act
        requires { IsKept self.now }
        ensures { result ≡ choose (setup_of self.now) (world_of self.now) side }
    {
        if let Some(ended) = self.ended() {
            return Act::Over(ended);
        }
        if self.is_down(side) || !self.derived.standing.runs(side) {
            return Act::Dead;
        }
        if self.is_late_with_entries(side) {
            return Act::Take;
        }
        if self.is_pending() {
            return self.choose_output(side);
        }
        let second = other(side);
        if self.is_left(second) && self.is_late_with_entries(second) {
            return Act::Behind;
        }
        Act::Append
    }
}
