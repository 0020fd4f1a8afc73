//! How jobs are done.
ghost use Rattle.std.specs.Prelude.{◌≡◌, IsTrue};
ghost use Rattle.s7_events.specs.Fitting.{is_job};
ghost use Rattle.statement_effects.specs.JobEffect.{job_done};
ghost use Rattle.mc_machine.specs.Stands.{IsSound};
ghost use Rattle.mc_machine.specs.Places.{AtCycle, AtReply};
ghost use Rattle.mc_machine.specs.EngineView.{config_of, IsStored};

use super::Engine;
use crate::places::Spot;
use s7_base::Job;

impl Engine {
    /// A job is done at the end of a cycle, and its value is to be handed on.
    pub(super) fn do_job(&mut self, job: &Job)
        requires sound { IsSound (config_of self.old) }
        requires stored { IsStored self.old }
        requires here { (config_of self.old).place ≡ AtCycle }
        requires job { IsTrue (is_job job.now) }
        ensures moved { config_of self.new ≡ record (config_of self.old) { memory = (job_done self.old.memory job.now).0; place = AtReply (job_done self.old.memory job.now).1 } }
        ensures sound { IsSound (config_of self.new) }
        ensures stored { IsStored self.new }
        ensures waits { self.new.waits ≡ self.old.waits }
    {
        let value = self.memory.do_job(job);
        self.spot = Spot::AtReply(value);
    }
}
