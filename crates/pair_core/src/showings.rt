//! The showings of a run.
ghost use Rattle.std.specs.Prelude.{◌≡◌, ◌<◌, ◌∷◌, [], ◌++◌, length, IfOk};

use s7_base::{NoMemory, Side};
use std::alloc::Global;
use std::marker::Model;

/// The showings of a run: each the number of an entry, and the side that showed its output.
#[derive(Debug, Drop)]
pub struct Shown {
    list: Vec<(u32, Side)>,
    room: u32,
}

impl Model for Shown {
    ghost use Rattle.std.specs.Prelude.{◌≤◌, vec_len, vec_capacity};
    ghost use Rattle.pair_core.specs.Views.{Showings};

    ghost Value = { Showings };

    ghost view = { λ s. record { list = s.list.items; room = s.room } };

    ghost invariant = { λ s. (vec_len s.list ≤ s.room) × (s.room ≤ vec_capacity s.list) };
}

impl Shown {
    /// No showing, and room for so many.
    pub fn with_room(alloc: Global, n: u32) -> Result<Shown, NoMemory>
        ensures { IfOk result (λ s. s ≡ record { list = []; room = n }) }
    {
        match Vec::with_capacity(alloc, n as usize) {
            Ok(list) => Ok(Shown { list, room: n }),
            Err(_) => Err(NoMemory),
        }
    }

    /// No showing and no room. Takes no memory.
    pub fn empty(alloc: Global) -> Shown
        ensures { result ≡ record { list = []; room = 0 } }
    {
        Shown {
            list: Vec::new(alloc),
            room: 0,
        }
    }

    /// All showings, in their order.
    pub fn as_slice(&self) -> &[(u32, Side)]
        ensures { result.now ≡ self.now.list }
    {
        &self.list
    }

    /// Adds a showing. Takes no memory.
    pub fn add(&mut self, entry: u32, side: Side)
        requires { length self.old.list < self.old.room }
        ensures { self.new ≡ record self.old { list = self.old.list ++ (entry, side) ∷ [] } }
    {
        let Ok(()) = self.list.push((entry, side)) else {
            unreachable!();
        };
    }
}
