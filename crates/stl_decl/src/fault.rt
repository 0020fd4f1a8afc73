//! The faults of reading, each with its place.
ghost use Rattle.std.specs.Prelude.{◌≡◌};
ghost use Rattle.stl_decl.specs.Faults.{kind_number, told};

use std::alloc::{AllocError, AllocFailed};
use stl_lex::LoadFault;
use thiserror::Error;

/// What is wrong behind the tokens.
#[derive(Clone, Copy, Debug, PartialEq, Eq)]
pub enum FaultKind {
    /// A word in a type's place that names no type.
    UnknownType,
    /// REAL in a type's place.
    RealType,
    /// The second declaration of a name in one block.
    DoubleName,
    /// Bounds of an array that aren't in order, are no INT, or are too far apart.
    BadArray,
    /// A statement that begins with no mnemonic.
    UnknownInstruction,
    /// A mnemonic of real numbers, or a real constant.
    RealInstruction,
    /// An operand or a value that doesn't fit, or a token that can't stand in its place.
    BadOperand,
    /// A name that isn't declared.
    UnknownName,
    /// No `;` behind something complete, or a text that ends inside a block.
    MissingSemicolon,
    /// The second block of a kind and number.
    DoubleBlock,
    /// The second label of a name in one block.
    DoubleLabel,
    /// A jump without its label.
    NoLabel,
    /// A jump of more than 2,000 statements.
    JumpTooFar,
    /// No OB1.
    NoOb1,
    /// More than 256 blocks.
    TooManyBlocks,
    /// A limit on sizes is passed.
    TooLarge,
    /// What real sources have and this language leaves out.
    OutOfScope,
}

impl FaultKind {
    /// The number of the kind.
    pub fn number(self) -> u8
        ensures { result ≡ kind_number self }
    {
        match self {
            FaultKind::UnknownType => 5,
            FaultKind::RealType => 6,
            FaultKind::DoubleName => 7,
            FaultKind::BadArray => 8,
            FaultKind::UnknownInstruction => 9,
            FaultKind::RealInstruction => 10,
            FaultKind::BadOperand => 11,
            FaultKind::UnknownName => 12,
            FaultKind::MissingSemicolon => 13,
            FaultKind::DoubleBlock => 14,
            FaultKind::DoubleLabel => 15,
            FaultKind::NoLabel => 16,
            FaultKind::JumpTooFar => 17,
            FaultKind::NoOb1 => 18,
            FaultKind::TooManyBlocks => 19,
            FaultKind::TooLarge => 20,
            FaultKind::OutOfScope => 21,
        }
    }
}

/// A fault, and the place of the token that it stands at: line and column count from 1.
#[derive(Clone, Copy, Debug, PartialEq, Eq)]
pub struct Fault {
    pub kind: FaultKind,
    pub line: u32,
    pub column: u32,
}

impl Fault {
    /// What is told of it: the number of its kind, and its line.
    pub fn told(self) -> LoadFault
        ensures { result ≡ told self }
    {
        LoadFault {
            kind: self.kind.number(),
            line: self.line,
        }
    }
}

/// Why a step of reading ended.
#[derive(Clone, Copy, Debug, PartialEq, Eq)]
pub enum StepError {
    /// The text is refused.
    Fault(Fault),
    /// Memory ran out.
    NoMemory,
}

impl From<Fault> for StepError {
    ghost use Rattle.stl_decl.specs.declared.fault.StepError.TheVariants.{Fault as IsFault};

    ghost from_gives = { λ f e. e ≡ IsFault f };

    fn from(fault: Fault) -> Self {
        StepError::Fault(fault)
    }
}

impl From<AllocError> for StepError {
    ghost use Rattle.stl_decl.specs.declared.fault.StepError.TheVariants.{NoMemory};

    ghost from_gives = { λ _ e. e ≡ NoMemory };

    fn from(_error: AllocError) -> Self {
        StepError::NoMemory
    }
}

impl<T: Drop> From<AllocFailed<T>> for StepError {
    ghost use Rattle.stl_decl.specs.declared.fault.StepError.TheVariants.{NoMemory};

    ghost from_gives = { λ _ e. e ≡ NoMemory };

    fn from(_error: AllocFailed<T>) -> Self {
        StepError::NoMemory
    }
}

/// Why declarations weren't read.
#[derive(Clone, Copy, Debug, PartialEq, Eq, Error)]
pub enum DeclError {
    /// The declarations have a fault: of the kinds 5 to 8, 11, 13 and 21.
    #[error("line {}: fault {}", .0.line, .0.kind)]
    Fault(LoadFault),
    /// Memory ran out.
    #[error("out of memory")]
    NoMemory,
}
