//! Reads a file of events.
ghost use Rattle.std.specs.Prelude.{◌≡◌, ℕ, ◌+◌, ◌≤◌, ◌<◌, List, length, Option, Some, None, Result, IfOk};
ghost use Rattle.ft_connection.specs.FileReading.{Read, nothing, with_job, with_event, with_end, with_line, with_text, is_ended, read_lines, file_read, Gives};
ghost use Rattle.ft_connection.specs.FileView.{read_of, Adds};

use crate::conn_error::ConnError;
use crate::event::NumberedEvent;
use crate::line::{Line, line_from};
use crate::words::{is_skipped, split_line};
use std::alloc::Global;

/// The kind of the fault of a line that may not stand.
const BAD_EVENT: u8 = 11;

/// How many lines a file may have.
const MOST_LINES: u32 = 20_000;

/// Which lines may come next.
#[derive(Clone, Copy, Debug, PartialEq, Eq)]
pub enum Stage {
    /// JOB lines, events or END.
    Jobs,
    /// Events or END.
    Events,
    /// None.
    Ended,
}

/// What was read of a file.
#[derive(Drop)]
pub(crate) struct Reading {
    jobs: Vec<u32>,
    events: Vec<NumberedEvent>,
    stage: Stage,
}

/// The fault of a line that may not stand.
fn bad_event(line: u32) -> ConnError
    ensures { result ≡ ConnError.Fault 11 line }
{
    ConnError::Fault {
        kind: BAD_EVENT,
        line,
    }
}

impl Reading {
    /// Nothing was read.
    fn new(alloc: Global) -> Reading
        ensures { read_of result ≡ nothing }
    {
        Reading {
            jobs: Vec::new(alloc),
            events: Vec::new(alloc),
            stage: Stage::Jobs,
        }
    }

    /// Adds a job, which stands before the first event.
    fn add_job(&mut self, number: u32, job: u32) -> Result<(), ConnError>
        ensures { Adds (with_job (read_of self.old) job self.old.stage) number result (read_of self.new) }
    {
        match self.stage {
            Stage::Jobs => {}
            Stage::Events | Stage::Ended => return Err(bad_event(number)),
        }
        if self.jobs.push(job).is_err() {
            return Err(ConnError::NoMemory);
        }
        Ok(())
    }

    /// Adds an event, which stands before END.
    fn add_event(&mut self, event: NumberedEvent) -> Result<(), ConnError>
        ensures { Adds (with_event (read_of self.old) event self.old.stage) event.line result (read_of self.new) }
    {
        match self.stage {
            Stage::Jobs | Stage::Events => {}
            Stage::Ended => return Err(bad_event(event.line)),
        }
        if self.events.push(event).is_err() {
            return Err(ConnError::NoMemory);
        }
        self.stage = Stage::Events;
        Ok(())
    }

    /// Adds END, which stands once.
    fn add_end(&mut self, number: u32) -> Result<(), ConnError>
        ensures { Adds (with_end (read_of self.old) self.old.stage) number result (read_of self.new) }
    {
        match self.stage {
            Stage::Jobs | Stage::Events => {}
            Stage::Ended => return Err(bad_event(number)),
        }
        self.stage = Stage::Ended;
        Ok(())
    }

    /// Adds the line of this number, where it may stand.
    fn add_line(&mut self, number: u32, line: Line) -> Result<(), ConnError>
        ensures { Adds (with_line (read_of self.old) number line) number result (read_of self.new) }
    {
        match line {
            Line::Job(job) => self.add_job(number, job),
            Line::Happens(event) => self.add_event(NumberedEvent {
                line: number,
                event,
            }),
            Line::End => self.add_end(number),
        }
    }

    /// Adds the text of the line of this number.
    #[tactic(auto, unfolding(crate::specs::FileReading::with_text))]
    fn add_text(&mut self, number: u32, text: &[u8]) -> Result<(), ConnError>
        ensures { Adds (with_text (read_of self.old) number text.now) number result (read_of self.new) }
    {
        if number > MOST_LINES {
            return Err(bad_event(number));
        }
        if is_skipped(text) {
            return Ok(());
        }
        match line_from(text) {
            Some(line) => self.add_line(number, line),
            None => Err(bad_event(number)),
        }
    }

    /// The jobs and the events.
    pub(crate) fn into_parts(self) -> (Vec<u32>, Vec<NumberedEvent>)
        ensures jobs { result.0.items ≡ self.jobs.items }
        ensures events { result.1.items ≡ self.events.items }
    {
        let Reading {
            jobs,
            events,
            stage: _,
        } = self;
        (jobs, events)
    }

    /// Whether END was read.
    fn is_ended(&self) -> bool
        ensures { result ≡ is_ended self.now.stage }
    {
        match self.stage {
            Stage::Ended => true,
            Stage::Jobs | Stage::Events => false,
        }
    }
}

/// What a file says, of at most 1,048,576 bytes, or the fault of the first line that may not stand.
pub(crate) fn read_file(alloc: Global, bytes: &[u8]) -> Result<Reading, ConnError>
    requires { length bytes.now ≤ 1048576 }
    ensures exact { Gives read_of result (file_read bytes.now) }
    ensures few { IfOk result (λ r. length r.jobs.items ≤ 20000) }
{
    let mut reading = Reading::new(alloc);
    let mut rest = bytes;
    let mut number = 1;
    while !rest.is_empty() {
        let (line, after) = split_line(rest);
        reading.add_text(number, line)?;
        number += 1;
        rest = after;
    }
    if !reading.is_ended() {
        return Err(bad_event(number));
    }
    Ok(reading)
}
