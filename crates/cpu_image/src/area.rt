//! The areas whose bytes statements address.

/// An area of bytes that statements address.
#[derive(Clone, Copy, Debug, PartialEq, Eq)]
pub enum ByteArea {
    /// The input image, bytes 0 to 63.
    I,
    /// The output image, bytes 0 to 63.
    Q,
    /// Bit memory, bytes 0 to 1,023.
    M,
    /// The data block of a number, with 8,192 bytes at most. It may be missing.
    Db(u8),
}
