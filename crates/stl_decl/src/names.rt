//! Declared names in order, each of which an ordered map finds.
ghost use Rattle.std.specs.Prelude.{◌≡◌, ◌++◌, ◌∷◌, [], map, OnOk, OnErr, None};
ghost use Rattle.stl_decl.specs.Layout.{named, variable_among};

use crate::types::Variable;
use std::alloc::{AllocError, Global};
use std::collections::BTreeMap;
use std::marker::Model;

/// A declared name in upper case, and what it stands for.
#[derive(Drop)]
pub struct DeclaredName {
    pub name: Vec<u8>,
    pub variable: Variable,
}

/// Declared names in order, and for each of them its place in that list.
#[derive(Drop)]
pub(crate) struct Names {
    list: Vec<DeclaredName>,
    places: BTreeMap<Vec<u8>, usize>,
}

impl Model for Names {
    ghost use Rattle.std.specs.Prelude.{List, map};
    ghost use Rattle.stl_decl.specs.Layout.{Name, named, FindsPlaces};

    ghost Value = { List Name };

    ghost view = { λ n. map named n.list.items };

    ghost invariant = { λ n. FindsPlaces n.places (map named n.list.items) };
}

impl Names {
    pub(crate) fn new(alloc: Global) -> Names
        ensures { result ≡ [] }
    {
        Names {
            list: Vec::new(alloc),
            places: BTreeMap::new(alloc),
        }
    }

    /// What a name in upper case stands for. Takes no memory.
    pub(crate) fn variable(&self, name: &[u8]) -> Option<Variable>
        ensures { result ≡ variable_among self.now name.now }
    {
        match self.places.get(name) {
            Some(place) => Some(self.list[*place].variable),
            None => None,
        }
    }

    /// The names in order. Takes no memory.
    pub(crate) fn as_slice(&self) -> &[DeclaredName]
        ensures { map named result.now ≡ self.now }
    {
        self.list.as_slice()
    }

    /// Adds a name that isn't there yet behind the others. Where memory runs out the names stay as they were.
    pub(crate) fn push(&mut self, added: DeclaredName) -> Result<(), AllocError>
        requires fresh { variable_among self.old added.name.items ≡ None }
        ensures added { OnOk result (self.new ≡ self.old ++ named added ∷ []) }
        ensures err { OnErr result (self.new ≡ self.old) }
    {
        let key = added.name.clone()?;
        let place = self.list.len();
        self.list.push(added)?;
        match self.places.insert(key, place) {
            Ok(_) => Ok(()),
            Err(_) => {
                self.list.pop();
                Err(AllocError)
            }
        }
    }
}
