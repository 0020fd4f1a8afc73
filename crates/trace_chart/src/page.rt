//! The text that is written.

use std::alloc::{AllocError, Global};

/// The bytes of a text so far.
#[derive(Debug, Drop)]
pub struct Page {
    bytes: Vec<u8>,
    alloc: Global,
}

impl Page {
    ghost use Rattle.std.specs.Prelude.{◌≡◌, ◌++◌, OnOk};
    ghost use Rattle.std.specs.Fmt.{decimal};

    /// An empty text.
    pub fn new(alloc: Global) -> Page {
        Page {
            bytes: Vec::new(alloc),
            alloc,
        }
    }

    /// Returns the bytes so far.
    pub fn as_slice(&self) -> &[u8]
        ensures { result.now ≡ self.now.bytes.items }
    {
        self.bytes.as_slice()
    }

    /// Adds a text.
    pub fn text(&mut self, text: &[u8]) -> Result<(), AllocError>
        ensures { OnOk result (self.new.bytes.items ≡ self.old.bytes.items ++ text.now) }
    {
        self.bytes.extend_from_slice(text)
    }

    /// Adds a number.
    pub fn number(&mut self, number: u64) -> Result<(), AllocError>
        ensures { OnOk result (self.new.bytes.items ≡ self.old.bytes.items ++ decimal number) }
    {
        let digits = number.to_string(self.alloc)?;
        self.bytes.extend_from_slice(digits.as_bytes())
    }
}
