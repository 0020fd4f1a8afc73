//! Who runs.
ghost use Rattle.std.specs.Prelude.{◌≡◌};
ghost use Rattle.pair_core.specs.Sides.{first_standing, runs, after_answer};

use crate::sides::{Sides, other};
use s7_base::{Answer, Side};

/// The sides that run, and which of them is master.
#[derive(Clone, Copy, Debug, PartialEq, Eq)]
pub struct Standing {
    pub running: Sides<bool>,
    pub master: Side,
}

impl Standing {
    /// At first both sides run, or side A alone. Side A is master.
    pub fn first(solo: bool) -> Standing
        ensures { result ≡ first_standing solo }
    {
        Standing {
            running: Sides { a: true, b: !solo },
            master: Side::A,
        }
    }

    /// Whether the side runs.
    pub fn runs(&self, side: Side) -> bool
        ensures { result ≡ runs self.now side }
    {
        self.running.of(side)
    }

    /// Who runs after an entry of this answer.
    pub fn after(self, answer: &Answer) -> Standing
        ensures { result ≡ after_answer self answer.now }
    {
        let mut next = self;
        match answer {
            Answer::Lost { side, .. } => {
                next.running.put(*side, false);
                next.master = other(*side);
            }
            Answer::Back { side } => next.running.put(*side, true),
            _ => {}
        }
        next
    }
}
