//! Why the reading before a command ends early, and the fault that tells it.
ghost use Rattle.std.specs.Prelude.{◌≡◌};
ghost use Rattle.pair_top.specs.Errors.{read_fault, source_fault, script_fault, play_fault};

use crate::Fault;
use pair_io::FilesError;
use plant_script::ScriptFault;
use stl_lex::LoadFault;

/// Why a file was refused.
#[derive(Clone, Copy, Debug)]
pub enum FileError<E> {
    /// It was not read.
    Unread(FilesError),
    /// Its content has a fault.
    Content(E),
    /// Memory ran out after it was read.
    NoMemory,
}

/// Why the files of a play were refused.
#[derive(Clone, Copy, Debug)]
pub enum PlayError {
    /// The source was.
    Source(FileError<LoadFault>),
    /// The script was, after the source was accepted.
    Script(FileError<ScriptFault>),
}

/// Returns the fault of a file that was not read, by its number.
fn read_fault(which: u8, error: FilesError) -> Fault
    ensures { result ≡ read_fault which error }
{
    match error {
        FilesError::Failed => Fault::FileFault { which },
        FilesError::TooLong => Fault::TooLong { which },
        FilesError::NoMemory => Fault::NoMemory,
    }
}

/// Returns the fault of a source, which is file 0.
pub fn source_fault(error: FileError<LoadFault>) -> Fault
    ensures { result ≡ source_fault error }
{
    match error {
        FileError::Unread(error) => read_fault(0, error),
        FileError::Content(fault) => Fault::SourceFault(fault),
        FileError::NoMemory => Fault::NoMemory,
    }
}

/// Returns the fault of a script or a file of events, which is file 1.
pub fn script_fault(error: FileError<ScriptFault>) -> Fault
    ensures { result ≡ script_fault error }
{
    match error {
        FileError::Unread(error) => read_fault(1, error),
        FileError::Content(fault) => Fault::ScriptFault(fault),
        FileError::NoMemory => Fault::NoMemory,
    }
}

/// Returns the fault of the files of a play.
pub fn play_fault(error: PlayError) -> Fault
    ensures { result ≡ play_fault error }
{
    match error {
        PlayError::Source(error) => source_fault(error),
        PlayError::Script(error) => script_fault(error),
    }
}
