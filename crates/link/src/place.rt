//! The place in which a parcel lies from when it is put until it is taken.
ghost use Rattle.std.specs.Prelude.{◌≡◌, Option, Some, None, IsErr, IsNone, OnOk, IfOk, IfErr, OnErr, IsTrue, ◌↔◌, IsSome};
ghost use Rattle.link.specs.declared.parcel.Parcel.{Parcel};

use crate::Parcel;
use std::marker::Model;

/// A parcel already lies in the link. The parcel that was offered comes back.
#[derive(Clone, Copy, Debug, PartialEq, Eq)]
pub struct Busy {
    pub parcel: Parcel,
}

/// No parcel lies in the link.
#[derive(Clone, Copy, Debug, PartialEq, Eq)]
pub struct Empty;

/// A link holds one parcel at most. It takes no memory.
#[derive(Debug, Drop)]
pub struct Link {
    parcel: Option<Parcel>,
}

impl Model for Link {
    ghost Value = { Option Parcel };

    ghost view = { λ link. link.parcel };
}

impl Link {
    /// A link in which no parcel lies.
    pub fn new() -> Link
        ensures { result ≡ None }
    {
        Link { parcel: None }
    }

    /// Puts a parcel into the link. `Busy` exactly where one lies there; the link is then as before, and the offered
    /// parcel comes back.
    pub fn offer(&mut self, parcel: Parcel) -> Result<(), Busy>
        ensures busy { IsErr result ↔ IsSome self.old }
        ensures offered { OnOk result (self.new ≡ Some parcel) }
        ensures kept { OnErr result (self.new ≡ self.old) }
        ensures returned { IfErr result (λ busy. busy.parcel ≡ parcel) }
    {
        if self.parcel.is_some() {
            return Err(Busy { parcel });
        }
        self.parcel = Some(parcel);
        Ok(())
    }

    /// Takes the parcel out of the link. `Empty` exactly where none lies there.
    pub fn take(&mut self) -> Result<Parcel, Empty>
        ensures empty { IsErr result ↔ IsNone self.old }
        ensures taken { IfOk result (λ parcel. self.old ≡ Some parcel) }
        ensures none_left { self.new ≡ None }
    {
        self.parcel.take().ok_or(Empty)
    }

    /// Empties the link: a parcel that lies there is lost.
    pub fn drop_link(&mut self)
        ensures { self.new ≡ None }
    {
        self.parcel = None;
    }

    /// Whether no parcel lies in the link.
    pub fn is_empty(&self) -> bool
        ensures { IsTrue result ↔ IsNone self.now }
    {
        self.parcel.is_none()
    }
}
