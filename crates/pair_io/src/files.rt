//! Files by name.
ghost use Rattle.std.specs.Prelude.{◌≡◌, ℕ, List, [], length, Option, IfSome, IsErrOf};
ghost use Rattle.pair_io.specs.Files.{Reads, HasLength, CountsByName};

/// Why a file was not read whole.
#[derive(Clone, Copy, Debug, PartialEq, Eq)]
pub enum FilesError {
    /// The file's own fault, as a name that is missing. It was counted.
    Failed,
    /// The file has more bytes than the limit.
    TooLong,
    /// Memory ran out.
    NoMemory,
}

/// Files that are read whole, up to a limit.
///
/// The content, the counts and the promise are for contracts alone: no call of the program asks for them.
pub trait Files {
    /// The content under a name, where it is told.
    ghost content: { Self → List ℕ → Option (List ℕ) };

    /// How often a read of a name has failed. A count never falls, and stops at the greatest `u64`.
    ghost faults: { Self → List ℕ → ℕ };

    /// The files promise that reads of a name do not fail. Most files promise nothing.
    ghost never_fails: { Self → List ℕ → Type 0 } = { λ _ _. ⊥ };

    /// Fills `into`, which is empty, with the whole content under `name`, of at most `limit` bytes.
    ///
    /// `TooLong` comes exactly where the read neither fails nor runs out of memory and the content has more
    /// bytes: `into` then has the first `limit + 1` of them. After `Failed` and `NoMemory` it has the
    /// first bytes of the content, at most `limit`. `Failed` raises the count of this name, and every other
    /// answer leaves the counts of all names. A read leaves the content of all names as it is.
    fn read(&mut self, name: &[u8], limit: u64, into: &mut Vec<u8>) -> Result<(), FilesError>
        requires { into.old.items ≡ [] }
        ensures bytes { IfSome (content self.old name.now) (λ bytes. Reads result bytes limit into.new.items) }
        ensures length { HasLength result limit (length into.new.items) }
        ensures stays { (other : List ℕ) → content self.new other ≡ content self.old other }
        ensures cause { CountsByName (faults self.old) (faults self.new) name.now result }

        // What is promised is kept, and promised again.
        ensures kept { never_fails self.old name.now → IsErrOf result FilesError.Failed → ⊥ }
        ensures promises { (other : List ℕ) → never_fails self.old other → never_fails self.new other };
}
