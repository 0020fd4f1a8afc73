//! Files over those of std.
ghost use Rattle.std.specs.Prelude.{List, Option, Some, IfOk, ◌≡◌, ℕ, ◌≤◌, [], length, IfSome};
ghost use Rattle.pair_io.specs.Files.{Reads, HasLength};

use crate::{Failed, Files, FilesError};
use std::io::Read;
use std::{fs, rt, str};

const CHUNK: usize = 4096;

/// What opens a file by its name.
pub trait Opener {
    /// An open file.
    type File: Read + Drop;

    /// The content under a name, where it is told.
    ghost content: { Self → List ℕ → Option (List ℕ) };

    /// Opens a file at its beginning, where nothing of it was read. Nothing says when this fails.
    fn open(&self, name: &[u8]) -> Result<Self::File, Failed>
        ensures { IfSome (content self.now name.now) (λ bytes. IfOk result (λ file. Self.File.remaining file ≡ Some bytes)) };
}

/// Opens files of std. They do not tell their content: this is the trusted edge of the files.
#[derive(Drop)]
pub struct StdOpener<'a, R: rt::Files> {
    rt: &'a R,
}

impl<'a, R: rt::Files> StdOpener<'a, R> {
    /// An opener over the files of this runtime.
    pub fn new(rt: &'a R) -> StdOpener<'a, R> {
        StdOpener { rt }
    }
}

impl<R: rt::Files> Opener for StdOpener<'_, R> {
    ghost use Rattle.std.specs.Prelude.{None};

    type File = R::File;

    ghost content = { λ _ _. None };

    /// A name that is not UTF-8, or is missing, is a fault.
    fn open(&self, name: &[u8]) -> Result<R::File, Failed> {
        let Ok(path) = str::from_utf8(name) else {
            return Err(Failed);
        };
        match fs::open(self.rt, path) {
            Ok(file) => Ok(file),
            Err(_) => Err(Failed),
        }
    }
}

/// Files that an opener opens, as those of std. They tell what the opener tells, and promise nothing.
///
/// One count of faults stands for every name. Each fault raises it: a file that can't be opened, and a
/// read that fails or is interrupted.
#[derive(Drop)]
pub struct RealFiles<O: Opener> {
    opener: O,
    faults: u64,
}

/// Fills `into` with what the reader has left, or with the bytes up to one past the limit.
fn read_up_to<R: Read>(reader: &mut R, limit: u64, into: &mut Vec<u8>) -> Result<(), FilesError>
    requires { into.old.items ≡ [] }
    ensures bytes { IfSome (R.remaining reader.old) (λ bytes. Reads result bytes limit into.new.items) }
    ensures length { HasLength result limit (length into.new.items) }
{
    let mut chunk = [0u8; CHUNK];
    while into.len() as u64 <= limit {
        let left = limit - into.len() as u64;
        let room = if left < CHUNK as u64 {
            left as usize + 1
        } else {
            CHUNK
        };
        let Ok(count) = reader.read(&mut chunk[..room]) else {
            return Err(FilesError::Failed);
        };
        if count == 0 {
            return Ok(());
        }
        if into.extend_from_slice(&chunk[..count]).is_err() {
            return Err(FilesError::NoMemory);
        }
    }
    Err(FilesError::TooLong)
}

/// Opens the file and reads it.
fn read_opened<O: Opener>(
    opener: &O,
    name: &[u8],
    limit: u64,
    into: &mut Vec<u8>,
) -> Result<(), FilesError>
    requires { into.old.items ≡ [] }
    ensures bytes { IfSome (O.content opener.now name.now) (λ bytes. Reads result bytes limit into.new.items) }
    ensures length { HasLength result limit (length into.new.items) }
{
    let Ok(mut file) = opener.open(name) else {
        return Err(FilesError::Failed);
    };
    read_up_to(&mut file, limit, into)
}

impl<O: Opener> RealFiles<O> {
    /// Files with no fault so far.
    pub fn new(opener: O) -> RealFiles<O>
        ensures opener { result.opener ≡ opener }
        ensures faults { result.faults ≡ 0 }
    {
        RealFiles { opener, faults: 0 }
    }
}

impl<O: Opener> Files for RealFiles<O> {
    ghost content = { λ files. O.content files.opener };

    ghost faults = { λ files _. files.faults };

    fn read(&mut self, name: &[u8], limit: u64, into: &mut Vec<u8>) -> Result<(), FilesError> {
        match read_opened(&self.opener, name, limit, into) {
            Err(FilesError::Failed) => {
                self.faults = self.faults.saturating_add(1);
                Err(FilesError::Failed)
            }
            other => other,
        }
    }
}
