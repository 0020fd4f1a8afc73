//! Reads the files of a command.
ghost use Rattle.std.specs.Prelude.{◌≡◌, ℕ, List, IfOk, IfErr, OnOk};
ghost use Rattle.pair_top.specs.Reading.{WasRead, IsLoaded, IsFaulty, IsPlanned, IsNoScript, IsUnread, IsRefused, UnreadCounts, CountsOnly};
ghost use Rattle.pair_top.specs.Outside.{file_in};
ghost use Rattle.pair_top.specs.Connecting.{IsConnected, HasBadEvents};

use crate::errors::FileError;
use block_loader::{LoadError, load};
use ft_connection::{ConnError, play};
use pair_io::{Files, FilesError};
use plant_script::{Script, ScriptError, ScriptFault, read_script};
use s7_base::Blocks;
use std::alloc::Global;
use stl_lex::LoadFault;

/// The most bytes of a source or a script.
pub const LIMIT: u64 = 1_048_576;

/// Returns the bytes of the file of this name.
fn read_file<F: Files>(alloc: Global, files: &mut F, name: &[u8]) -> Result<Vec<u8>, FilesError>
    ensures read { IfOk result (λ bytes. WasRead (F.content files.old name.now) bytes.items) }
    ensures refused { IfErr result (IsUnread (file_in F.Files files.old files.new name.now)) }
    ensures stays { (other : List ℕ) → F.content files.new other ≡ F.content files.old other }
    ensures promises { (other : List ℕ) → F.never_fails files.old other → F.never_fails files.new other }
    ensures counts { OnOk result ((other : List ℕ) → F.faults files.new other ≡ F.faults files.old other) }
    ensures steady { IfErr result (λ error. (other : List ℕ) → UnreadCounts error (file_in F.Files files.old files.new other)) }
{
    let mut bytes = Vec::new(alloc);
    files.read(name, LIMIT, &mut bytes)?;
    Ok(bytes)
}

/// Returns the blocks of the source of this name.
pub fn load_source<F: Files>(
    alloc: Global,
    files: &mut F,
    name: &[u8],
) -> Result<Blocks, FileError<LoadFault>>
    ensures loaded { IfOk result (IsLoaded (F.content files.old name.now)) }
    ensures refused { IfErr result (IsRefused IsFaulty (file_in F.Files files.old files.new name.now)) }
    ensures stays { (other : List ℕ) → F.content files.new other ≡ F.content files.old other }
    ensures promises { (other : List ℕ) → F.never_fails files.old other → F.never_fails files.new other }
    ensures counts { OnOk result ((other : List ℕ) → F.faults files.new other ≡ F.faults files.old other) }
    ensures steady { IfErr result (λ error. (other : List ℕ) → CountsOnly error (file_in F.Files files.old files.new other)) }
{
    let bytes = read_file(alloc, files, name).map_err(FileError::Unread)?;
    match load(alloc, &bytes) {
        Ok(blocks) => Ok(blocks),
        Err(LoadError::Fault(fault)) => Err(FileError::Content(fault)),
        Err(LoadError::NoMemory) => Err(FileError::NoMemory),
    }
}

/// Returns the plant script of this name.
pub fn read_plant<F: Files>(
    alloc: Global,
    files: &mut F,
    name: &[u8],
) -> Result<Script, FileError<ScriptFault>>
    ensures read { IfOk result (IsPlanned (F.content files.old name.now)) }
    ensures refused { IfErr result (IsRefused IsNoScript (file_in F.Files files.old files.new name.now)) }
    ensures stays { (other : List ℕ) → F.content files.new other ≡ F.content files.old other }
    ensures promises { (other : List ℕ) → F.never_fails files.old other → F.never_fails files.new other }
    ensures counts { OnOk result ((other : List ℕ) → F.faults files.new other ≡ F.faults files.old other) }
    ensures steady { IfErr result (λ error. (other : List ℕ) → CountsOnly error (file_in F.Files files.old files.new other)) }
{
    let bytes = read_file(alloc, files, name).map_err(FileError::Unread)?;
    match read_script(alloc, &bytes) {
        Ok(script) => Ok(script),
        Err(ScriptError::Fault(fault)) => Err(FileError::Content(fault)),
        Err(ScriptError::NoMemory) => Err(FileError::NoMemory),
    }
}

/// Returns what playing the events of the file of this name gives.
pub fn play_connection<F: Files>(
    alloc: Global,
    files: &mut F,
    name: &[u8],
) -> Result<ft_connection::Played, FileError<ScriptFault>>
    ensures played { IfOk result (IsConnected (F.content files.old name.now)) }
    ensures refused { IfErr result (IsRefused HasBadEvents (file_in F.Files files.old files.new name.now)) }
    ensures stays { (other : List ℕ) → F.content files.new other ≡ F.content files.old other }
    ensures promises { (other : List ℕ) → F.never_fails files.old other → F.never_fails files.new other }
    ensures counts { OnOk result ((other : List ℕ) → F.faults files.new other ≡ F.faults files.old other) }
    ensures steady { IfErr result (λ error. (other : List ℕ) → CountsOnly error (file_in F.Files files.old files.new other)) }
{
    let bytes = read_file(alloc, files, name).map_err(FileError::Unread)?;
    match play(alloc, &bytes) {
        Ok(played) => Ok(played),
        Err(ConnError::Fault { kind, line }) => Err(FileError::Content(ScriptFault { kind, line })),
        Err(ConnError::NoMemory) => Err(FileError::NoMemory),
    }
}
