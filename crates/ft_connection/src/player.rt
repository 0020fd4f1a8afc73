//! Plays the events of a file.
ghost use Rattle.std.specs.Prelude.{◌≡◌, ℕ, ◌+◌, ◌≤◌, ◌<◌, ◌++◌, List, length, IfOk, MatchResult};
ghost use Rattle.ft_connection.specs.FileReading.{Gives};
ghost use Rattle.ft_connection.specs.Playing.{begun, all_played};
ghost use Rattle.ft_connection.specs.Outcome.{playing_shown, outcome, IsPlayed};

use crate::conn_error::ConnError;
use crate::connection::Connection;
use crate::event::NumberedEvent;
use crate::reading::read_file;
use std::alloc::Global;
use std::marker::Model;

/// The jobs that were handed over, in order.
#[derive(Debug, Drop)]
pub struct Handed {
    jobs: Vec<u32>,
}

impl Model for Handed {
    ghost use Rattle.std.specs.Prelude.{ℕ, List};

    ghost Value = { List ℕ };

    ghost view = { λ handed. handed.jobs.items };
}

impl Handed {
    /// These jobs. Takes no memory.
    pub(crate) fn new(jobs: Vec<u32>) -> Handed
        ensures { result ≡ jobs.items }
    {
        Handed { jobs }
    }

    /// The jobs. Takes no memory.
    pub fn as_slice(&self) -> &[u32]
        ensures { result.now ≡ self.now }
    {
        self.jobs.as_slice()
    }
}

/// The text of a connection that was played.
#[derive(Debug, Drop)]
pub struct ConnText {
    bytes: Vec<u8>,
}

impl Model for ConnText {
    ghost use Rattle.std.specs.Prelude.{ℕ, List};

    ghost Value = { List ℕ };

    ghost view = { λ text. text.bytes.items };
}

impl ConnText {
    /// These bytes. Takes no memory.
    pub(crate) fn new(bytes: Vec<u8>) -> ConnText
        ensures { result ≡ bytes.items }
    {
        ConnText { bytes }
    }

    /// The bytes. Takes no memory.
    pub fn as_slice(&self) -> &[u8]
        ensures { result.now ≡ self.now }
    {
        self.bytes.as_slice()
    }
}

/// A connection that was played: the jobs that were handed over, how many the sender knows to be, and the text.
#[derive(Debug, Drop)]
pub struct Played {
    pub handed: Handed,
    pub acked: u32,
    pub text: ConnText,
}

/// Plays events over a connection of at most 20,000 jobs.
fn play_events(alloc: Global, jobs: Vec<u32>, events: &[NumberedEvent]) -> Result<Played, ConnError>
    requires { length jobs.items ≤ 20000 }
    ensures { Gives (λ played. played) result (playing_shown (all_played (begun jobs.items) events.now)) }
{
    let mut connection = Connection::new(alloc, jobs);
    connection.play_events(events)?;
    connection.finish()
}

/// Plays a file of events, of at most 1,048,576 bytes.
///
/// First come lines `JOB x`, then `SEND p`, `DELIVER p i`, `ACK p i`, `DOWN p` and `UP p`, and last `END`; x has eight
/// hexadecimal digits, p is 1 or 2, and i is a decimal number. Lines end with LF or CR LF, blanks separate words, and lines
/// without words or whose first word begins with `#` are skipped. DELIVER and ACK name the i-th frame or acknowledgement
/// ever sent on the path, from 0.
///
/// The first line that has no form or may not stand there, the 20,001st line, or, as the number of lines and one, a
/// missing END, is the fault of kind 11. Where there is none, the first line that names nothing that was sent by then is
/// the fault of kind 12.
pub fn play(alloc: Global, bytes: &[u8]) -> Result<Played, ConnError>
    requires { length bytes.now ≤ 1048576 }

    // What is given is exactly the outcome of the events: this, or this fault, unless memory runs out.
    ensures exact { Gives (λ played. played) result (outcome bytes.now) }

    // The jobs handed over are the first jobs, as many as the last world says, and the text is that of the events.
    ensures played { IfOk result (IsPlayed bytes.now) }

    // No more is acknowledged than was handed over.
    ensures acked { IfOk result (λ played. played.acked ≤ length played.handed) }
{
    let (jobs, events) = read_file(alloc, bytes)?.into_parts();
    play_events(alloc, jobs, &events)
}
