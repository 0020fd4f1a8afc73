//! What a visit does.
ghost use Rattle.std.specs.Prelude.{◌≡◌, ◌+◌, ◌*◌, ◌<◌, ◌++◌, ◌∷◌, [], true, length, slice_get, Some, is_some};
ghost use Rattle.pair_core.specs.declared.turns.Act as Act;
ghost use Rattle.pair_core.specs.Ledger.{ledger};
ghost use Rattle.pair_core.specs.Lawful.{job_for, answer_at, going_answer, MayAnswer};
ghost use Rattle.pair_core.specs.World.{acted, next_entry, with_entry};
ghost use Rattle.pair_core.specs.Sides.{of_side, with_side};
ghost use Rattle.pair_core.specs.Kept.{setup_of, log_of, world_of, IsKept, CanAct};
ghost use Rattle.pair_core.specs.Places.{IsAt};
ghost use Rattle.pair_core.specs.Good.{GoodLog};

use crate::monitor::{is_overdue, watch_by};
use crate::own::{end_life, note_over, place_of, take_one};
use crate::plant_inputs::read_moment;
use crate::sides::other;
use crate::state::State;
use crate::turns::Act;
use crate::waits::advance;
use crate::{Reason, Turn};
use s7_base::{Answer, Ask, Entry, Job, Loss, Request, Side, StopCode};
use subsystem::Subsystem;

impl State {
    /// The next job that is due, where the next cycle may start.
    fn job_for(&self, ask: &Ask) -> Option<Job>
        requires { IsKept self.now }
        ensures { result ≡ job_for (setup_of self.now) (ledger (setup_of self.now) self.now.log.record.entries) ask.now }
    {
        match ask {
            Ask::Cycle => self.derived.jobs.next(self.len()),
            _ => None,
        }
    }

    /// The answer where no side is lost, by the first of these: a cycle that takes too long stops the CPU; the first alarm
    /// that waits goes first, where its priority is above the request's; a job is done first where the next cycle may
    /// start; the plain answer.
    #[tactic(auto, unfolding(crate::specs::Lawful::going_answer))]
    fn going_answer(&self, request: &Request) -> Answer
        requires { IsKept self.now }
        ensures { going_answer (setup_of self.now) (ledger (setup_of self.now) self.now.log.record.entries) request.now ≡ Some result }
    {
        if is_overdue(&self.setup.program, self.derived.watch, self.len()) {
            return Answer::CpuStop(StopCode::Cycle);
        }
        if let Some((ob, info)) = self.derived.waiting.next_above(request.prio) {
            return Answer::Alarm { ob, info };
        }
        if let Some(job) = self.job_for(&request.ask) {
            return Answer::Job(job);
        }
        self.plain_answer(&request.ask)
    }

    /// The lawful answer to what is asked next: of two sides that run, the one that is cut is lost; else that where no
    /// side is lost.
    fn answer(&self, request: &Request) -> Answer
        requires { IsKept self.now }
        ensures { answer_at (setup_of self.now) (ledger (setup_of self.now) self.now.log.record.entries) request.now ≡ Some result }
    {
        if self.derived.standing.running.a && self.derived.standing.running.b {
            if self.is_cut(Side::A) {
                return Answer::Lost {
                    side: Side::A,
                    why: Loss::Failed,
                };
            }
            if self.is_cut(Side::B) {
                return Answer::Lost {
                    side: Side::B,
                    why: Loss::Failed,
                };
            }
        }
        self.going_answer(request)
    }

    /// Adds an entry of a lawful answer to the record.
    fn add(&mut self, entry: Entry)
        requires kept { IsKept self.old }
        requires room { length self.old.log.record.entries < self.old.setup.script.end }
        requires may { MayAnswer (setup_of self.old) (ledger (setup_of self.old) self.old.log.record.entries) entry.request entry.answer }
        ensures log { log_of self.new ≡ with_entry (log_of self.old) entry }
        ensures parts { self.new.parts ≡ self.old.parts }
        ensures setup { setup_of self.new ≡ setup_of self.old }
        ensures kept { IsKept self.new }
    {
        let moment = self.len();
        self.derived.standing = self.derived.standing.after(&entry.answer);
        self.derived.watch = watch_by(
            self.derived.watch,
            moment,
            &entry.request.ask,
            &entry.answer,
        );
        read_moment(
            &mut self.derived.inputs,
            &self.setup.script,
            &self.derived.standing,
            u64::from(moment) + 1,
        );
        advance(
            &mut self.derived.waiting,
            &self.setup.program,
            &self.setup.script,
            &self.derived.inputs,
            self.derived.watch,
            moment,
            &entry.answer,
        );
        self.derived.jobs.note(&entry.answer);
        self.log.record.append(entry);
        self.derived.cuts = self
            .derived
            .cuts
            .advance(&self.setup.script, self.log.record.len());
    }

    /// The side shows the last output.
    #[tactic(auto, using(crate::proofs::Snoc::past_put))]
    fn show(&mut self, side: Side) -> Turn
        requires kept { IsKept self.old }
        requires can { CanAct (setup_of self.old) (world_of self.old) side Act.Show }
        ensures world { world_of self.new ≡ (acted (setup_of self.old) (world_of self.old) side Act.Show).world }
        ensures turn { result ≡ (acted (setup_of self.old) (world_of self.old) side Act.Show).answer }
        ensures setup { setup_of self.new ≡ setup_of self.old }
        ensures kept { IsKept self.new }
    {
        let entry = self.len() - 1;
        self.log.shown.add(entry, side);
        self.derived.past.put(side, entry + 1);
        Turn::Show(entry)
    }

    /// Entry k of the record.
    fn entry_at(&self, k: u32) -> Entry
        requires { k < length self.now.log.record.entries }
        ensures { slice_get self.now.log.record.entries k ≡ Some result }
    {
        *self.log.record.entry(k)
    }

    /// The side takes its next entry.
    fn take(&mut self, side: Side, sub: &mut Subsystem) -> Turn
        requires kept { IsKept self.old }
        requires good { GoodLog (setup_of self.old) (log_of self.old) }
        requires can { CanAct (setup_of self.old) (world_of self.old) side Act.Take }
        requires at { IsAt self.old.setup.program (of_side self.old.parts side) self.old.log.record.entries sub.old }
        ensures world { world_of self.new ≡ (acted (setup_of self.old) (world_of self.old) side Act.Take).world }
        ensures turn { result ≡ (acted (setup_of self.old) (world_of self.old) side Act.Take).answer }
        ensures setup { setup_of self.new ≡ setup_of self.old }
        ensures kept { IsKept self.new }
        ensures at { IsAt self.new.setup.program (of_side self.new.parts side) self.new.log.record.entries sub.new }
    {
        let moment = place_of(&self.parts, side);
        let entry = self.entry_at(moment);
        sub.ask();
        sub.take(&entry.answer, u64::from(moment));
        take_one(&mut self.parts, side);
        Turn::Answered(moment)
    }

    /// The side appends the entry of its request and the lawful answer, and takes it.
    fn append(&mut self, side: Side, sub: &mut Subsystem) -> Turn
        requires kept { IsKept self.old }
        requires can { CanAct (setup_of self.old) (world_of self.old) side Act.Append }
        requires at { IsAt self.old.setup.program (of_side self.old.parts side) self.old.log.record.entries sub.old }
        ensures world { world_of self.new ≡ (acted (setup_of self.old) (world_of self.old) side Act.Append).world }
        ensures turn { result ≡ (acted (setup_of self.old) (world_of self.old) side Act.Append).answer }
        // an entry comes next
        ensures next { is_some (next_entry (setup_of self.old) (log_of self.old)) ≡ true }
        ensures setup { setup_of self.new ≡ setup_of self.old }
        ensures kept { IsKept self.new }
        ensures at { IsAt self.new.setup.program (of_side self.new.parts side) self.new.log.record.entries sub.new }
    {
        let moment = self.len();
        let request = sub.ask();
        let answer = self.answer(&request);
        sub.take(&answer, u64::from(moment));
        self.add(Entry { request, answer });
        take_one(&mut self.parts, side);
        Turn::Answered(moment)
    }

    /// The subsystem of a side that does not run is cut.
    fn end_life(&mut self, side: Side, sub: &mut Subsystem) -> Turn
        requires kept { IsKept self.old }
        requires at { IsAt self.old.setup.program (of_side self.old.parts side) self.old.log.record.entries sub.old }
        ensures world { world_of self.new ≡ (acted (setup_of self.old) (world_of self.old) side Act.Dead).world }
        ensures turn { result ≡ (acted (setup_of self.old) (world_of self.old) side Act.Dead).answer }
        ensures setup { setup_of self.new ≡ setup_of self.old }
        ensures kept { IsKept self.new }
        ensures at { IsAt self.new.setup.program (of_side self.new.parts side) self.new.log.record.entries sub.new }
    {
        sub.cut();
        end_life(&mut self.parts, side);
        Turn::Dead
    }

    /// Does what was chosen.
    pub fn act(&mut self, side: Side, act: Act, sub: &mut Subsystem) -> Turn
        requires kept { IsKept self.old }
        requires good { GoodLog (setup_of self.old) (log_of self.old) }
        requires can { CanAct (setup_of self.old) (world_of self.old) side act }
        requires at { IsAt self.old.setup.program (of_side self.old.parts side) self.old.log.record.entries sub.old }
        ensures world { world_of self.new ≡ (acted (setup_of self.old) (world_of self.old) side act).world }
        ensures turn { result ≡ (acted (setup_of self.old) (world_of self.old) side act).answer }
        // where one is to be appended, an entry comes next
        ensures next { act ≡ Act.Append → is_some (next_entry (setup_of self.old) (log_of self.old)) ≡ true }
        ensures setup { setup_of self.new ≡ setup_of self.old }
        ensures kept { IsKept self.new }
        ensures at { IsAt self.new.setup.program (of_side self.new.parts side) self.new.log.record.entries sub.new }
    {
        match act {
            Act::Over(ended) => {
                note_over(&mut self.parts, side);
                Turn::Over(ended)
            }
            Act::Dead => self.end_life(side, sub),
            Act::Take => self.take(side, sub),
            Act::Show => self.show(side),
            Act::Mark => {
                self.log.marked = self.len();
                Turn::Marked(self.len() - 1)
            }
            Act::Unmarked => Turn::NotYet(Reason::Unmarked(self.len() - 1)),
            Act::Behind => Turn::NotYet(Reason::Behind(place_of(&self.parts, other(side)))),
            Act::Append => self.append(side, sub),
        }
    }
}
