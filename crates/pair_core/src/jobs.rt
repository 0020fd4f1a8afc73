//! The jobs of a plant script, and how many of them were answered.
ghost use Rattle.std.specs.Prelude.{◌≡◌, ◌<◌, IfOk};
ghost use Rattle.std.specs.List.{filter_map};
ghost use Rattle.pair_core.specs.Jobs.{job_of, jobs_of, next_job, jobs_by};

use plant_script::{Event, Script, What};
use s7_base::{Answer, Job, NoMemory};
use std::alloc::Global;
use std::marker::Model;

/// A job, and the moment from which on it is due, in milliseconds.
#[derive(Clone, Copy, Debug, PartialEq, Eq)]
pub struct DueJob {
    pub due: u32,
    pub job: Job,
}

/// The jobs of a plant script in the order in which they are answered, and how many of them were. Only `new` takes
/// memory.
#[derive(Debug, Drop)]
pub struct Jobs {
    list: Vec<DueJob>,
    answered: u32,
}

impl Model for Jobs {
    ghost use Rattle.pair_core.specs.Jobs.{JobsKept};

    ghost Value = { JobsKept };

    ghost view = { λ j. record { list = j.list.items; answered = j.answered } };
}

/// The job of a JOB line, None for any other line.
fn job_of(event: &Event) -> Option<DueJob>
    ensures { result ≡ job_of event.now }
{
    match event.what {
        What::Job(job) => Some(DueJob {
            due: event.moment,
            job,
        }),
        _ => None,
    }
}

/// The jobs of the JOB lines among the events, in their order.
fn jobs_in(alloc: Global, events: &[Event]) -> Result<Vec<DueJob>, NoMemory>
    ensures { IfOk result (λ jobs. jobs.items ≡ filter_map job_of events.now) }
{
    let mut jobs = Vec::new(alloc);
    for event in events {
        if let Some(job) = job_of(event)
            && jobs.push(job).is_err()
        {
            return Err(NoMemory);
        }
    }
    Ok(jobs)
}

impl Jobs {
    /// The jobs of a script, none of which was answered.
    #[tactic(auto, unfolding(crate::specs::Jobs::jobs_of))]
    pub fn new(alloc: Global, script: &Script) -> Result<Jobs, NoMemory>
        ensures { IfOk result (λ jobs. jobs ≡ record { list = jobs_of script.now; answered = 0 }) }
    {
        let list = jobs_in(alloc, script.events())?;
        Ok(Jobs { list, answered: 0 })
    }

    /// The next job, where it is due at moment k.
    pub fn next(&self, k: u32) -> Option<Job>
        ensures { result ≡ next_job self.now.list self.now.answered k }
    {
        match self.list.get(self.answered as usize) {
            Some(next) if next.due <= k => Some(next.job),
            _ => None,
        }
    }

    /// Counts the next job as answered, where an entry has this answer and it is a job.
    pub fn note(&mut self, answer: &Answer)
        requires { self.old.answered < 4294967295 }
        ensures { self.new ≡ record self.old { answered = jobs_by answer.now self.old.answered } }
    {
        if let Answer::Job(_) = answer {
            self.answered += 1;
        }
    }
}
