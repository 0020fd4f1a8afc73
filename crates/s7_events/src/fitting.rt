//! Which answers fit a request.
ghost use Rattle.std.specs.Prelude.{◌≡◌, ◌^◌, ◌*◌, nat_lt};
ghost use Rattle.s7_events.specs.Fitting.{has_width, is_job, ends, fits};

use crate::priorities::{is_alarm_ob, priority};
use crate::{Answer, Ask, Job, Request, StopCode};

/// Whether a value lies in so many bytes.
fn lies_in(value: u32, width: u8) -> bool
    ensures { result ≡ has_width value width }
{
    match width {
        0 => value == 0,
        1 => value < 0x100,
        2 => value < 0x1_0000,
        3 => value < 0x100_0000,
        _ => true,
    }
}

/// Whether a job reads or writes 1, 2 or 4 bytes, with a value of that width, and 0 where it reads.
fn is_fit_job(job: &Job) -> bool
    ensures { result ≡ is_job job.now }
{
    matches!(job.width, 1 | 2 | 4) && lies_in(job.value, job.width) && (job.write || job.value == 0)
}

/// Whether the answer ends the request.
fn is_end(ask: &Ask, answer: &Answer) -> bool
    ensures { result ≡ ends ask.now answer.now }
{
    match (ask, answer) {
        (Ask::ReadP { addr: _, width }, Answer::Value(value)) => lies_in(*value, *width),
        (Ask::Outputs(_), Answer::Done)
        | (Ask::Inputs, Answer::Image(_))
        | (Ask::Cycle, Answer::Go)
        | (Ask::ReadP { .. }, Answer::NoModule)
        | (Ask::WriteP { .. }, Answer::Done)
        | (Ask::WriteP { .. }, Answer::NoModule)
        | (Ask::Now, Answer::Now(_))
        | (Ask::Tick, Answer::Done)
        | (Ask::Retrigger, Answer::Done)
        | (Ask::Reply(_), Answer::Done)
        | (Ask::Stop(_), Answer::Done) => true,
        _ => false,
    }
}

/// Whether the answer fits the request: it ends it; or it is the loss of a side, or a stop for the cycle time; or
/// it is an alarm of higher priority; or the request is `Cycle` and it is `Hold`, `Back` or a job.
pub fn fits(request: &Request, answer: &Answer) -> bool
    ensures { result ≡ fits request.now answer.now }
{
    let is_cycle = matches!(request.ask, Ask::Cycle);
    match answer {
        Answer::Lost { .. } | Answer::CpuStop(StopCode::Cycle) => true,
        Answer::Alarm { ob, info } => {
            is_alarm_ob(*ob) && request.prio < priority(*ob) && (*ob != 70 || *info <= 65535)
        }
        Answer::Hold | Answer::Back { .. } => is_cycle,
        Answer::Job(job) => is_cycle && is_fit_job(job),
        _ => is_end(&request.ask, answer),
    }
}
