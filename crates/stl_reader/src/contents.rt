//! What a body is seen as.
ghost use Rattle.std.specs.Prelude.{◌≡◌};
ghost use Rattle.stl_reader.specs.Contents.{contents_of};

use crate::items::BodyStatement;
use std::marker::Model;

/// A label: its name, in upper case and filled up with zeros, the number of the statement that it names, counted
/// from 0, which is the number of statements where it stands at the end, and its line and column.
#[derive(Clone, Copy, Debug, PartialEq, Eq)]
pub struct Label {
    pub name: [u8; 4],
    pub statement: u32,
    pub line: u32,
    pub column: u32,
}

/// A jump: its number as a statement, and the name of its label, in upper case and filled up with zeros.
#[derive(Clone, Copy, Debug, PartialEq, Eq)]
pub struct Jump {
    pub statement: u32,
    pub name: [u8; 4],
}

/// What was read so far.
#[derive(Drop)]
pub struct Lists {
    pub statements: Vec<BodyStatement>,
    pub labels: Vec<Label>,
    pub jumps: Vec<Jump>,
}

/// The body of a code block: its statements in order, each with its line and column, its labels and its jumps. The value of a
/// jump is 0 until its label is looked up.
#[derive(Drop)]
pub struct Body {
    lists: Lists,
}

impl Model for Body {
    ghost use Rattle.stl_reader.specs.Contents.{Contents, contents_of};

    ghost Value = { Contents };

    ghost view = { λ b. contents_of b.lists };
}

impl Body {
    pub(crate) fn new(lists: Lists) -> Self
        ensures { result ≡ contents_of lists }
    {
        Body { lists }
    }

    /// The statements in order. Takes no memory.
    pub fn statements(&self) -> &[BodyStatement]
        ensures { result.now ≡ self.now.statements }
    {
        self.lists.statements.as_slice()
    }

    /// The labels in order. Takes no memory.
    pub fn labels(&self) -> &[Label]
        ensures { result.now ≡ self.now.labels }
    {
        self.lists.labels.as_slice()
    }

    /// The jumps in order. Takes no memory.
    pub fn jumps(&self) -> &[Jump]
        ensures { result.now ≡ self.now.jumps }
    {
        self.lists.jumps.as_slice()
    }
}
