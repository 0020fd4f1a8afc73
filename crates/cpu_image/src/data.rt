//! The bytes of one data block.
ghost use Rattle.std.specs.Prelude.{◌≡◌, ◌+◌, ◌≤◌, length, IfOk};
ghost use Rattle.cpu_image.specs.Values.{overwritten};

use s7_base::{DataBlock, NoMemory};
use std::alloc::Global;
use std::marker::Model;

/// The bytes of a data block, 8,192 at most.
#[derive(Debug, Drop)]
pub(crate) struct DataBytes {
    bytes: Vec<u8>,
}

impl Model for DataBytes {
    ghost use Rattle.std.specs.Prelude.{ℕ, ◌≤◌, List, length};

    ghost Value = { List ℕ };

    ghost view = { λ d. d.bytes.items };

    ghost invariant = { λ d. length d.bytes.items ≤ 8192 };
}

impl DataBytes {
    /// The first bytes of a block.
    pub(crate) fn of(alloc: Global, block: &DataBlock) -> Result<DataBytes, NoMemory>
        requires { length block.now.bytes ≤ 8192 }
        ensures { IfOk result (λ bytes. bytes ≡ block.now.bytes) }
    {
        let Ok(bytes) = block.bytes().to_vec(alloc) else {
            return Err(NoMemory);
        };
        Ok(DataBytes { bytes })
    }

    pub(crate) fn as_slice(&self) -> &[u8]
        ensures bytes { result.now ≡ self.now }
        ensures few { length result.now ≤ 8192 }
    {
        &self.bytes
    }

    #[tactic(auto, using(crate::proofs::Pages::length_overwritten))]
    pub(crate) fn put(&mut self, at: usize, piece: &[u8])
        requires { at + length piece.now ≤ length self.old }
        ensures { self.new ≡ overwritten self.old at piece.now }
    {
        put_piece(&mut self.bytes, at, piece);
    }
}

/// Writes a piece over bytes, from a place on.
pub(crate) fn put_piece(bytes: &mut [u8], at: usize, piece: &[u8])
    requires { at + length piece.now ≤ length bytes.old }
    ensures { bytes.new ≡ overwritten bytes.old at piece.now }
{
    bytes[at..at + piece.len()].copy_from_slice(piece);
}
