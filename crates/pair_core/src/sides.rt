//! The two sides.
ghost use Rattle.std.specs.Prelude.{◌≡◌};
ghost use Rattle.pair_core.specs.Sides.{same_side, other_side, of_side, with_side};

use s7_base::Side;

/// One of each side.
#[derive(Clone, Copy, Debug, Drop, PartialEq, Eq)]
pub struct Sides<T> {
    pub a: T,
    pub b: T,
}

impl<T: Copy> Sides<T> {
    /// Returns that of a side.
    pub fn of(&self, side: Side) -> T
        ensures { result ≡ of_side self.now side }
    {
        match side {
            Side::A => self.a,
            Side::B => self.b,
        }
    }

    /// Puts a value in place of that of a side.
    pub fn put(&mut self, side: Side, value: T)
        ensures { self.new ≡ with_side self.old side value }
    {
        match side {
            Side::A => self.a = value,
            Side::B => self.b = value,
        }
    }
}

/// Whether they are one side.
pub fn is_same(one: Side, two: Side) -> bool
    ensures { result ≡ same_side one two }
{
    match (one, two) {
        (Side::A, Side::A) | (Side::B, Side::B) => true,
        _ => false,
    }
}

/// The other side.
pub fn other(side: Side) -> Side
    ensures { result ≡ other_side side }
{
    match side {
        Side::A => Side::B,
        Side::B => Side::A,
    }
}
