//! Why a source isn't loaded.
ghost use Rattle.std.specs.Prelude.{◌≡◌};
ghost use Rattle.block_loader.specs.Told.{of_step, of_read, of_lex};

use std::alloc::{AllocError, AllocFailed};
use stl_decl::StepError;
use stl_lex::{LexError, LoadFault};
use stl_reader::ReadError;
use thiserror::Error;

/// Why a source isn't loaded.
#[derive(Clone, Copy, Debug, PartialEq, Eq, Error)]
pub enum LoadError {
    /// The source has a fault.
    #[error("line {}: fault {}", .0.line, .0.kind)]
    Fault(LoadFault),
    /// Memory ran out.
    #[error("out of memory")]
    NoMemory,
}

impl From<StepError> for LoadError {
    ghost from_gives = { λ e l. l ≡ of_step e };

    fn from(error: StepError) -> Self {
        match error {
            StepError::Fault(fault) => LoadError::Fault(fault.told()),
            StepError::NoMemory => LoadError::NoMemory,
        }
    }
}

impl From<ReadError> for LoadError {
    ghost from_gives = { λ e l. l ≡ of_read e };

    fn from(error: ReadError) -> Self {
        match error {
            ReadError::Fault(fault) => LoadError::Fault(fault),
            ReadError::NoMemory => LoadError::NoMemory,
        }
    }
}

impl From<LexError> for LoadError {
    ghost from_gives = { λ e l. l ≡ of_lex e };

    fn from(error: LexError) -> Self {
        match error {
            LexError::Fault(fault) => LoadError::Fault(fault),
            LexError::NoMemory => LoadError::NoMemory,
        }
    }
}

impl From<AllocError> for LoadError {
    ghost use Rattle.block_loader.specs.declared.error.LoadError.TheVariants.{NoMemory};

    ghost from_gives = { λ _ e. e ≡ NoMemory };

    fn from(_error: AllocError) -> Self {
        LoadError::NoMemory
    }
}

impl<T: Drop> From<AllocFailed<T>> for LoadError {
    ghost use Rattle.block_loader.specs.declared.error.LoadError.TheVariants.{NoMemory};

    ghost from_gives = { λ _ e. e ≡ NoMemory };

    fn from(_error: AllocFailed<T>) -> Self {
        LoadError::NoMemory
    }
}
