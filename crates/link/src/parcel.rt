//! What the running side sends to the returning one.

/// A piece of the running side's program or of its dynamic image, 256 bytes each.
#[derive(Clone, Copy, Debug, PartialEq, Eq)]
pub enum Parcel {
    /// Chunk k of the load image, counted from 0. Its first `len` bytes are of the image, the rest is 0.
    Chunk {
        k: u32,
        len: u16,
        bytes: [u8; 256],
    },
    /// Page k of the dynamic image, counted from 0. `last` says that the update ends with it.
    Page {
        k: u32,
        last: bool,
        bytes: [u8; 256],
    },
}
