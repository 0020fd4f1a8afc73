//! A connection that is played, event by event.
ghost use Rattle.std.specs.Prelude.{◌≡◌, ℕ, ◌+◌, ◌≤◌, ◌<◌, ◌∷◌, [], ◌++◌, List, length, MatchResult, Some, None};
ghost use Rattle.ft_connection.specs.declared.event.Event.TheVariants as events;
ghost use Rattle.ft_connection.specs.ReceiverRule.{taken, after};
ghost use Rattle.ft_connection.specs.World.{World, first, step, new_job};
ghost use Rattle.ft_connection.specs.EventText.{taken_text, done_text};
ghost use Rattle.ft_connection.specs.Sound.{IsSound};
ghost use Rattle.ft_connection.specs.Playing.{Playing, begun, goes_on, Plays, all_played, PlaysAll};
ghost use Rattle.ft_connection.specs.ConnectionView.{world_of, playing_of};

use crate::conn_error::ConnError;
use crate::event::{Event, NumberedEvent};
use crate::frame::{Frame, Path, Taken};
use crate::player::{ConnText, Handed, Played};
use crate::receiver::Receiver;
use crate::sender::Sender;
use crate::text::{push_done, push_fault, push_take};
use crate::wires::Network;
use std::alloc::Global;

/// The kind of the fault of an event that names nothing that was sent by then.
const NO_FRAME: u8 = 12;

/// Both ends, the network between them, the jobs that were handed over, and the text so far.
#[derive(Drop)]
pub(crate) struct Connection {
    sender: Sender,
    receiver: Receiver,
    network: Network,
    handed: Vec<u32>,
    text: Vec<u8>,
}

/// The fault of an event that names nothing that was sent by then.
fn no_frame(line: u32) -> ConnError
    ensures { result ≡ ConnError.Fault 12 line }
{
    ConnError::Fault {
        kind: NO_FRAME,
        line,
    }
}

impl Connection {
    /// A connection of these jobs, on which nothing has happened.
    pub(crate) fn new(alloc: Global, jobs: Vec<u32>) -> Connection
        requires { length jobs.items ≤ 20000 }
        ensures { playing_of result ≡ begun jobs.items }
    {
        Connection {
            sender: Sender::new(jobs),
            receiver: Receiver::new(),
            network: Network::new(alloc),
            handed: Vec::new(alloc),
            text: Vec::new(alloc),
        }
    }

    /// The sender sends on a path, or says why not.
    fn send(&mut self, path: Path) -> Result<(), ConnError>
        ensures { MatchResult result (λ _. playing_of self.new ≡ goes_on (playing_of self.old) (events.Send path)) (λ e. e ≡ ConnError.NoMemory) }
    {
        match self.sender.send(path) {
            Ok(frame) => self.network.keep_frame(path, frame),
            Err(fault) => push_fault(&mut self.text, path, fault),
        }
    }

    /// The receiver takes a frame, and hands its job over where it is new.
    fn take_frame(&mut self, frame: &Frame) -> Result<(), ConnError>
        requires { frame.now.number < 20000 }
        ensures { MatchResult result (λ _. playing_of self.new ≡ record {
          world = record { sender = self.old.sender; handed = after self.old.receiver frame.now.number; wires = (world_of self.old).wires };
          handed = self.old.handed.items ++ new_job (taken self.old.receiver frame.now.number) frame.now;
          text = self.old.text.items ++ taken_text (taken self.old.receiver frame.now.number) frame.now;
        }) (λ e. e ≡ ConnError.NoMemory) }
    {
        match self.receiver.receive(frame) {
            Taken::New => {
                if self.handed.push(frame.job).is_err() {
                    return Err(ConnError::NoMemory);
                }
                push_take(&mut self.text, frame)
            }
            Taken::Old | Taken::Ahead => Ok(()),
        }
    }

    /// A frame comes to the receiver, which acknowledges all that it has handed over.
    fn deliver(&mut self, line: u32, path: Path, which: u32) -> Result<(), ConnError>
        requires sound { IsSound (world_of self.old) }
        requires few { length self.old.sender.jobs ≤ 20000 }
        ensures { Plays (playing_of self.old) line (events.Deliver path which) result (playing_of self.new) }
    {
        let Some(frame) = self.network.frame(path, which) else {
            return Err(no_frame(line));
        };
        self.take_frame(&frame)?;
        self.network.keep_ack(path, self.receiver.handed())
    }

    /// An acknowledgement comes to the sender.
    fn acknowledge(&mut self, line: u32, path: Path, which: u32) -> Result<(), ConnError>
        requires { IsSound (world_of self.old) }
        ensures { Plays (playing_of self.old) line (events.Ack path which) result (playing_of self.new) }
    {
        let Some(next) = self.network.ack(path, which) else {
            return Err(no_frame(line));
        };
        self.sender.ack(next);
        Ok(())
    }

    /// Plays an event. A fault comes exactly where it names nothing that was sent by then.
    pub(crate) fn play_event(&mut self, numbered: &NumberedEvent) -> Result<(), ConnError>
        requires sound { IsSound (world_of self.old) }
        requires few { length self.old.sender.jobs ≤ 20000 }
        ensures { Plays (playing_of self.old) numbered.now.line numbered.now.event result (playing_of self.new) }
    {
        match numbered.event {
            Event::Send(path) => self.send(path),
            Event::Deliver(path, which) => self.deliver(numbered.line, path, which),
            Event::Ack(path, which) => self.acknowledge(numbered.line, path, which),
            Event::Down(path) => {
                self.sender.down(path);
                Ok(())
            }
            Event::Up(path) => {
                self.sender.up(path);
                Ok(())
            }
        }
    }

    /// Plays events. A fault comes exactly from the first that names nothing that was sent by then.
    pub(crate) fn play_events(&mut self, events: &[NumberedEvent]) -> Result<(), ConnError>
        requires sound { IsSound (world_of self.old) }
        requires few { length self.old.sender.jobs ≤ 20000 }
        ensures { PlaysAll (all_played (playing_of self.old) events.now) result (playing_of self.new) }
    {
        for numbered in events {
            self.play_event(numbered)?;
        }
        Ok(())
    }

    /// What is shown, with the last line of the text.
    pub(crate) fn finish(self) -> Result<Played, ConnError>
        ensures { MatchResult result (λ played. played ≡ record {
          handed = self.handed.items;
          acked = self.sender.acked;
          text = self.text.items ++ done_text self.receiver self.sender.acked;
        }) (λ e. e ≡ ConnError.NoMemory) }
    {
        let Connection {
            sender,
            receiver,
            network: _,
            handed,
            mut text,
        } = self;
        let acked = sender.acked();
        push_done(&mut text, receiver.handed(), acked)?;
        Ok(Played {
            handed: Handed::new(handed),
            acked,
            text: ConnText::new(text),
        })
    }
}
