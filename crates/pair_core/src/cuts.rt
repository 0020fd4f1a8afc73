//! Which side the script stops, as the moments go on.
ghost use Rattle.std.specs.Prelude.{◌≡◌};
ghost use Rattle.pair_core.specs.Cuts.{by_line, is_failed, is_failed_late};
ghost use Rattle.pair_core.specs.CutsKept.{IsCutsBefore, IsCutsAt};
ghost use Rattle.pair_core.specs.Sides.{of_side};

use crate::sides::{Sides, is_same};
use plant_script::{Script, What};
use s7_base::Side;

/// What the lines of a side made of it.
#[derive(Clone, Copy, Debug, PartialEq, Eq)]
pub enum Soundness {
    /// It runs, if it was not lost.
    Sound,
    /// It has failed.
    Failed,
    /// It has failed, but shows its last output first if it is master.
    FailedLate,
}

impl Soundness {
    /// Whether the script stops the side.
    pub fn is_failed(self) -> bool
        ensures { result ≡ is_failed self }
    {
        match self {
            Soundness::Sound => false,
            Soundness::Failed | Soundness::FailedLate => true,
        }
    }

    /// Whether the line that stops it says that it is late.
    pub fn is_failed_late(self) -> bool
        ensures { result ≡ is_failed_late self }
    {
        match self {
            Soundness::FailedLate => true,
            Soundness::Sound | Soundness::Failed => false,
        }
    }
}

/// What a line makes of a side.
fn by_line(what: What, side: Side, before: Soundness) -> Soundness
    ensures { result ≡ by_line what side before }
{
    match what {
        What::Fail { side: stops, late } if is_same(stops, side) => {
            if late {
                Soundness::FailedLate
            } else {
                Soundness::Failed
            }
        }
        What::Return { side: returns, .. } if is_same(returns, side) => Soundness::Sound,
        _ => before,
    }
}

/// What the script's lines made of both sides up to a moment, and how many lines these are.
#[derive(Clone, Copy, Debug)]
pub struct Cuts {
    pub applied: usize,
    pub made: Sides<Soundness>,
}

impl Cuts {
    /// At moment 0.
    pub fn new(script: &Script) -> Cuts
        ensures { IsCutsAt script.now 0 result }
    {
        let none = Cuts {
            applied: 0,
            made: Sides {
                a: Soundness::Sound,
                b: Soundness::Sound,
            },
        };
        none.advance(script, 0)
    }

    /// At this moment, not before the one at which they are. All calls together take as long as one pass over the
    /// lines.
    pub fn advance(self, script: &Script, moment: u32) -> Cuts
        requires { IsCutsBefore script.now moment self }
        ensures { IsCutsAt script.now moment result }
    {
        let mut cuts = self;
        let events = script.events();
        for at in self.applied..events.len() {
            let event = events[at];
            if event.moment > moment {
                return cuts;
            }
            cuts = Cuts {
                applied: at + 1,
                made: Sides {
                    a: by_line(event.what, Side::A, cuts.made.a),
                    b: by_line(event.what, Side::B, cuts.made.b),
                },
            };
        }
        cuts
    }

    /// What they made of a side.
    pub fn soundness_of(&self, side: Side) -> Soundness
        ensures { result ≡ of_side self.now.made side }
    {
        self.made.of(side)
    }
}
