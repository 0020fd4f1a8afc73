//! What the pair keeps of each side.
ghost use Rattle.std.specs.Prelude.{◌≡◌, ◌<◌, true, false};
ghost use Rattle.pair_core.specs.OwnParts.{own_place, taken_one, first_part};
ghost use Rattle.pair_core.specs.Sides.{of_side, with_side};

use crate::sides::Sides;
use s7_base::Side;
use std::marker::Model;

/// What is kept of one side: one past the last entry that it took in its life, if it had one; whether that life is open; and
/// whether a visit of it was answered that the run has ended. Contracts see its lives as a list.
#[derive(Debug, Drop)]
pub struct Own {
    next: Option<u32>,
    alive: bool,
    over: bool,
}

impl Model for Own {
    ghost use Rattle.pair_core.specs.OwnParts.{OwnPart, lives_to};

    ghost Value = { OwnPart };

    ghost view = { λ own. record { lives = lives_to own.next; alive = own.alive; over = own.over } };
}

impl Own {
    /// Returns what is kept of a side before its first visit, which runs from a load or does not run.
    pub fn at_start(loaded: bool) -> Own
        ensures { result ≡ first_part loaded }
    {
        if loaded {
            Own {
                next: Some(0),
                alive: true,
                over: false,
            }
        } else {
            Own {
                next: None,
                alive: false,
                over: false,
            }
        }
    }

    /// Returns one past the last entry that the side took, 0 before any life.
    fn place(&self) -> u32
        ensures { result ≡ own_place self.now }
    {
        self.next.unwrap_or(0)
    }

    /// Counts one more entry as taken.
    fn take_one(&mut self)
        requires { own_place self.old < 4294967295 }
        ensures { self.new ≡ taken_one self.old }
    {
        if let Some(next) = self.next {
            self.next = Some(next + 1);
        }
    }

    /// Ends the life that is open.
    fn end_life(&mut self)
        ensures { self.new ≡ record self.old { alive = false } }
    {
        self.alive = false;
    }

    /// Notes that a visit was answered that the run has ended.
    fn note_over(&mut self)
        ensures { self.new ≡ record self.old { over = true } }
    {
        self.over = true;
    }
}

/// Returns one past the last entry that a side took.
pub fn place_of(parts: &Sides<Own>, side: Side) -> u32
    ensures { result ≡ own_place (of_side parts.now side) }
{
    match side {
        Side::A => parts.a.place(),
        Side::B => parts.b.place(),
    }
}

/// Counts one more entry as taken by a side.
pub fn take_one(parts: &mut Sides<Own>, side: Side)
    requires { own_place (of_side parts.old side) < 4294967295 }
    ensures { parts.new ≡ with_side parts.old side (taken_one (of_side parts.old side)) }
{
    match side {
        Side::A => parts.a.take_one(),
        Side::B => parts.b.take_one(),
    }
}

/// Ends the life of a side that is open.
pub fn end_life(parts: &mut Sides<Own>, side: Side)
    ensures { parts.new ≡ with_side parts.old side (record (of_side parts.old side) { alive = false }) }
{
    match side {
        Side::A => parts.a.end_life(),
        Side::B => parts.b.end_life(),
    }
}

/// Notes that a visit of a side was answered that the run has ended.
pub fn note_over(parts: &mut Sides<Own>, side: Side)
    ensures { parts.new ≡ with_side parts.old side (record (of_side parts.old side) { over = true }) }
{
    match side {
        Side::A => parts.a.note_over(),
        Side::B => parts.b.note_over(),
    }
}
