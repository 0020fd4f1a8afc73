//! Files in memory.
ghost use Rattle.std.specs.Prelude.{◌≡◌, ◌≢◌, ℕ, ◌≤◌, ◌<◌, List, [], length, Option, IfOk, IfSome, IsErrOf, ◌↔◌};
ghost use Rattle.pair_io.specs.Names.{content_under, place_of};
ghost use Rattle.pair_io.specs.Files.{Reads, HasLength, CountsByName};

use crate::{Files, FilesError};
use std::alloc::{AllocError, Global};

/// Files in memory, of which chosen reads fail.
///
/// There is one count of faults for each held name, and one for all other names.
#[derive(Drop)]
pub struct MemFiles {
    names: Vec<Vec<u8>>,
    contents: Vec<Vec<u8>>,
    failing: Vec<u64>,
    reads: u64,
    faults: Vec<u64>,
    other_faults: u64,
    ghost each_content: { length names.items ≡ length contents.items },
    ghost each_count: { length names.items ≡ length faults.items },
}

/// Fills `into` with the content, or with the bytes up to one past the limit.
fn fill(content: &[u8], limit: u64, into: &mut Vec<u8>) -> Result<(), FilesError>
    requires { into.old.items ≡ [] }
    ensures bytes { Reads result content.now limit into.new.items }
    ensures length { HasLength result limit (length into.new.items) }
    ensures never { result ≡ Err FilesError.Failed → ⊥ }
{
    let fits = content.len() as u64 <= limit;
    let end = if fits {
        content.len()
    } else {
        limit as usize + 1
    };
    match into.extend_from_slice(&content[..end]) {
        Err(_) => Err(FilesError::NoMemory),
        Ok(()) if fits => Ok(()),
        Ok(()) => Err(FilesError::TooLong),
    }
}

/// Where the name stands first.
fn find_place(names: &[Vec<u8>], name: &[u8]) -> Option<usize>
    ensures place { result ≡ place_of names.now name.now }
    ensures within { IfSome result (λ k. k < length names.now) }
{
    names.iter().position(|held| held.as_slice() == name)
}

impl MemFiles {
    ghost use Rattle.pair_io.specs.MemFiles.{content_of, fault_count, place_in, read_count, failing_reads};

    /// Content k under name k; of equal names the first counts. `failing` has the numbers, from 0, of the
    /// reads that are to fail.
    pub fn new(
        alloc: Global,
        names: Vec<Vec<u8>>,
        contents: Vec<Vec<u8>>,
        failing: Vec<u64>,
    ) -> Result<MemFiles, AllocError>
        requires { length names.items ≡ length contents.items }
        ensures content { IfOk result (λ files. (name : List ℕ) →
            content_of files name ≡ content_under names.items contents.items name) }
        ensures faults { IfOk result (λ files. (name : List ℕ) → fault_count files name ≡ 0) }
        ensures places { IfOk result (λ files. (name : List ℕ) → place_in files name ≡ place_of names.items name) }
        ensures reads { IfOk result (λ files. read_count files ≡ 0) }
        ensures failing { IfOk result (λ files. failing_reads files ≡ failing.items) }
    {
        let faults = vec![in alloc; 0; names.len()]?;
        Ok(MemFiles {
            names,
            contents,
            failing,
            reads: 0,
            faults,
            other_faults: 0,
        })
    }
}

impl Files for MemFiles {
    ghost use Rattle.pair_io.specs.MemFiles.{content_of, fault_count, place_in, IsRefused, NeverFails, IsAfterRead};

    ghost content = { content_of };

    ghost faults = { fault_count };

    ghost never_fails = { NeverFails };

    /// Fails exactly at a name that is not held, and where `failing` names the read. Only the count of this
    /// name is raised, or the one of all names that are not held.
    fn read(&mut self, name: &[u8], limit: u64, into: &mut Vec<u8>) -> Result<(), FilesError>
        requires { into.old.items ≡ [] }
        ensures bytes { IfSome (content_of self.old name.now) (λ bytes. Reads result bytes limit into.new.items) }
        ensures length { HasLength result limit (length into.new.items) }
        ensures stays { (other : List ℕ) → content_of self.new other ≡ content_of self.old other }
        ensures cause { CountsByName (fault_count self.old) (fault_count self.new) name.now result }
        ensures kept { NeverFails self.old name.now → IsErrOf result FilesError.Failed → ⊥ }
        ensures promises { (other : List ℕ) → NeverFails self.old other → NeverFails self.new other }

        ensures refused { IsErrOf result FilesError.Failed ↔ IsRefused self.old name.now }
        ensures others { (other : List ℕ) → place_in self.old other ≢ place_in self.old name.now
            → fault_count self.new other ≡ fault_count self.old other }
        ensures after { IsAfterRead self.old self.new }
    {
        let number = self.reads;
        self.reads = number.saturating_add(1);
        let Some(place) = find_place(&self.names, name) else {
            self.other_faults = self.other_faults.saturating_add(1);
            return Err(FilesError::Failed);
        };
        if self.failing.contains(&number) {
            self.faults[place] = self.faults[place].saturating_add(1);
            return Err(FilesError::Failed);
        }
        fill(&self.contents[place], limit, into)
    }
}
