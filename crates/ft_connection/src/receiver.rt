//! The receiving end.
ghost use Rattle.std.specs.Prelude.{◌≡◌, ℕ, ◌<◌, ◌≤◌};
ghost use Rattle.ft_connection.specs.ReceiverRule.{taken, after};

use crate::frame::{Frame, Taken};
use std::marker::Model;

/// The receiving end: how many jobs it has handed over, at most 20,000. No call takes memory.
#[derive(Drop)]
pub struct Receiver {
    handed: u32,
}

impl Model for Receiver {
    ghost use Rattle.std.specs.Prelude.{ℕ, ◌≤◌};

    ghost Value = { ℕ };

    ghost view = { λ r. r.handed };

    ghost invariant = { λ r. r.handed ≤ 20000 };
}

impl Receiver {
    /// A receiver that has handed over nothing.
    pub fn new() -> Receiver
        ensures { result ≡ 0 }
    {
        Receiver { handed: 0 }
    }

    /// How many jobs it has handed over.
    pub fn handed(&self) -> u32
        ensures { result ≡ self.now }
    {
        self.handed
    }

    /// Takes a frame, whose number is below 20,000. `New` exactly where its job is the next one, which counts as handed
    /// over from then on; `Old` exactly where it was handed over before; `Ahead` exactly where an earlier job is missing.
    pub fn receive(&mut self, frame: &Frame) -> Taken
        requires { frame.now.number < 20000 }
        ensures exact { result ≡ taken self.old frame.now.number }
        ensures state { self.new ≡ after self.old frame.now.number }
    {
        if frame.number > self.handed {
            return Taken::Ahead;
        }
        if frame.number < self.handed {
            return Taken::Old;
        }
        self.handed += 1;
        Taken::New
    }
}
