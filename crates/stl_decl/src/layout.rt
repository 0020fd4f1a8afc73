//! The layout of a section: its names in order, with their places and first values.
ghost use Rattle.std.specs.Prelude.{◌≡◌, ◌≤◌, ◌<◌, ◌+◌, ◌^◌, min, map, OnOk, None};
ghost use Rattle.stl_decl.specs.Steps.{IsNoFault};
ghost use Rattle.stl_decl.specs.Types.{first_bit};
ghost use Rattle.stl_decl.specs.Laid.{AreLaid, AreApart, AreAligned};
ghost use Rattle.stl_decl.specs.Layout.{named, declaration_of, empty_section, variable_of, size_of, added, assigned};

use crate::fault::StepError;
use crate::names::{DeclaredName, Names};
use crate::types::{Variable, end_bit, round_up};
use std::alloc::Global;
use std::marker::Model;

/// A value that so many elements have at first, the first of which begins at this bit of the section. Each of them
/// takes so many bits.
#[derive(Clone, Copy, Debug, PartialEq, Eq)]
pub struct FirstValue {
    pub first_bit: u64,
    pub bits: u64,
    pub count: u32,
    pub value: u32,
}

/// A declared name in upper case, what it stands for, and its first values.
#[derive(Drop)]
pub struct Declaration {
    pub name: Vec<u8>,
    pub variable: Variable,
    pub values: Vec<FirstValue>,
}

/// A section: the declared names in order, each in upper case with its first bit, type, low index and number of
/// elements; the bit behind the last; and the first values in the order in which they are written.
#[derive(Drop)]
pub struct Layout {
    names: Names,
    end: u64,
    values: Vec<FirstValue>,
}

impl Model for Layout {
    ghost use Rattle.std.specs.Prelude.{◌<◌, ◌^◌};
    ghost use Rattle.stl_decl.specs.Layout.{Section};
    ghost use Rattle.stl_decl.specs.Laid.{AreLaid};

    ghost Value = { Section };

    ghost view = { λ l. record { names = l.names; end = l.end; values = l.values.items } };

    ghost invariant = { λ l. (l.end < 2 ^ 62) × AreLaid 0 l.names l.end };
}

impl Layout {
    /// A section without names.
    pub fn new(alloc: Global) -> Layout
        ensures { result ≡ empty_section }
    {
        Layout {
            names: Names::new(alloc),
            end: 0,
            values: Vec::new(alloc),
        }
    }

    /// What a name in upper case stands for. Takes no memory.
    pub fn variable(&self, name: &[u8]) -> Option<Variable>
        ensures { result ≡ variable_of self.now name.now }
    {
        self.names.variable(name)
    }

    /// The names in order, each with what it stands for. Takes no memory.
    pub fn names(&self) -> &[DeclaredName]
        ensures names { map named result.now ≡ self.now.names }
        // each behind the one before, at the next place of its type
        ensures laid { AreLaid 0 self.now.names self.now.end }
        // no two overlap
        ensures apart { AreApart self.now.names }
        // each at a place of its type and within the section
        ensures aligned { AreAligned self.now.end self.now.names }
    {
        self.names.as_slice()
    }

    /// The bit behind the last name.
    pub fn end(&self) -> u64
        ensures exact { result ≡ self.now.end }
        ensures within { result < 2 ^ 62 }
    {
        self.end
    }

    /// The size in bytes, an even number, or 4,294,967,295 where it is above that. Takes no memory.
    pub fn size(&self) -> u32
        ensures { result ≡ min (size_of self.now) 4294967295 }
    {
        (round_up(16, self.end) / 8).min(4_294_967_295) as u32
    }

    /// The first values, in the order in which they are written. Takes no memory.
    pub fn values(&self) -> &[FirstValue]
        ensures { result.now ≡ self.now.values }
    {
        self.values.as_slice()
    }

    /// Adds a name that isn't there yet behind the others.
    pub fn declare(&mut self, declaration: Declaration) -> Result<(), StepError>
        requires fresh { variable_of self.old declaration.name.items ≡ None }
        requires placed { declaration.variable.first_bit ≡ first_bit declaration.variable.shape self.old.end }
        ensures added { OnOk result (self.new ≡ added self.old (declaration_of declaration)) }
        ensures end { OnOk result (self.new.end ≤ declaration.variable.first_bit + 524303) }
        ensures err { IsNoFault result }
    {
        let variable = declaration.variable;
        self.values
            .extend_from_slice(declaration.values.as_slice())?;
        self.names.push(DeclaredName {
            name: declaration.name,
            variable,
        })?;
        self.end = end_bit(variable.shape, variable.first_bit);
        Ok(())
    }

    /// Gives an element another first value.
    pub fn assign(&mut self, value: FirstValue) -> Result<(), StepError>
        ensures assigned { OnOk result (self.new ≡ assigned self.old value) }
        ensures err { IsNoFault result }
    {
        self.values.push(value)?;
        Ok(())
    }
}
