//! The sending end.
ghost use Rattle.std.specs.Prelude.{◌≡◌, ℕ, ◌+◌, ◌≤◌, ◌<◌, max, List, length, IfOk, slice_get, Some, true, false};
ghost use Rattle.ft_connection.specs.declared.sender.Lane.{Lane};
ghost use Rattle.ft_connection.specs.SenderRule.{SenderState, IsSender, first_state, lane, with_lane, window_end, place, answer, after_send};

use crate::frame::{Frame, Path, SendFault};
use std::marker::Model;

/// How many jobs, from the first that is not acknowledged, may be on their way.
const WINDOW: u32 = 16;

/// A path as the sender sees it.
#[derive(Clone, Copy, Debug, PartialEq, Eq)]
struct Lane {
    /// The number of the job that the path sends next.
    cursor: u32,
    /// Whether the path is up.
    up: bool,
}

/// The sending end: the jobs, how many of them are acknowledged, and the two paths. No call takes memory.
#[derive(Drop)]
pub struct Sender {
    jobs: Vec<u32>,
    acked: u32,
    one: Lane,
    two: Lane,
}

impl Model for Sender {
    ghost use Rattle.ft_connection.specs.SenderRule.{SenderState, IsSender};

    ghost Value = { SenderState };

    ghost view = { λ s. record { jobs = s.jobs.items; acked = s.acked; one = s.one; two = s.two } };

    ghost invariant = { λ s. IsSender (record { jobs = s.jobs.items; acked = s.acked; one = s.one; two = s.two }) };
}

impl Sender {
    /// A sender of these jobs, at most 20,000. None is acknowledged, both paths are up and begin with the first job.
    pub fn new(jobs: Vec<u32>) -> Sender
        requires { length jobs.items ≤ 20000 }
        ensures { result ≡ first_state jobs.items }
    {
        let lane = Lane {
            cursor: 0,
            up: true,
        };
        Sender {
            jobs,
            acked: 0,
            one: lane,
            two: lane,
        }
    }

    /// How many jobs are acknowledged.
    pub fn acked(&self) -> u32
        ensures count { result ≡ self.now.acked }
        ensures form { IsSender self.now }
    {
        self.acked
    }

    /// The path as it is.
    fn lane(&self, path: Path) -> Lane
        ensures exact { result ≡ lane self.now path }
        ensures within { result.cursor ≤ window_end self.now }
    {
        match path {
            Path::One => self.one,
            Path::Two => self.two,
        }
    }

    /// Changes a path.
    fn set_lane(&mut self, path: Path, lane: Lane)
        requires { lane.cursor ≤ window_end self.old }
        ensures { self.new ≡ with_lane self.old path lane }
    {
        match path {
            Path::One => self.one = lane,
            Path::Two => self.two = lane,
        }
    }

    /// One past the last job that may be on its way.
    fn window_end(&self) -> u32
        ensures { result ≡ window_end self.now }
    {
        (self.jobs.len() as u32).min(self.acked + WINDOW)
    }

    /// The number of the job that the path sends next: its cursor, or the first job that is not acknowledged where the
    /// cursor is below that or at the end of the window.
    fn place(&self, path: Path) -> u32
        ensures exact { result ≡ place self.now path }
        ensures within { self.now.acked < length self.now.jobs → result < window_end self.now }
    {
        let cursor = self.lane(path).cursor;
        if cursor < self.acked || cursor == self.window_end() {
            return self.acked;
        }
        cursor
    }

    /// Sends the next frame on a path. `Down` exactly where the path is down; else `Idle` exactly where every job is
    /// acknowledged. Nothing changes then.
    pub fn send(&mut self, path: Path) -> Result<Frame, SendFault>
        ensures exact { result ≡ answer self.old path }
        ensures state { self.new ≡ after_send self.old path }

        // A frame has its own job, and lies in the window.
        ensures own { IfOk result (λ frame. slice_get self.old.jobs frame.number ≡ Some frame.job) }
        ensures window { IfOk result (λ frame. (self.old.acked ≤ frame.number) × (frame.number < self.old.acked + 16)) }
    {
        let lane = self.lane(path);
        if !lane.up {
            return Err(SendFault::Down);
        }
        if self.acked as usize == self.jobs.len() {
            return Err(SendFault::Idle);
        }
        let number = self.place(path);
        let frame = Frame {
            number,
            job: self.jobs[number as usize],
        };
        self.set_lane(
            path,
            Lane {
                cursor: number + 1,
                up: true,
            },
        );
        Ok(frame)
    }

    /// Takes the acknowledgement of all jobs below `next`.
    pub fn ack(&mut self, next: u32)
        requires { next ≤ length self.old.jobs }
        ensures { self.new ≡ record self.old { acked = max self.old.acked next } }
    {
        self.acked = self.acked.max(next);
    }

    /// Takes a path down.
    pub fn down(&mut self, path: Path)
        ensures { self.new ≡ with_lane self.old path (record { cursor = (lane self.old path).cursor; up = false }) }
    {
        let cursor = self.lane(path).cursor;
        self.set_lane(path, Lane { cursor, up: false });
    }

    /// Takes a path up. It begins with the first job that is not acknowledged.
    pub fn up(&mut self, path: Path)
        ensures { self.new ≡ with_lane self.old path (record { cursor = self.old.acked; up = true }) }
    {
        let cursor = self.acked;
        self.set_lane(path, Lane { cursor, up: true });
    }
}
