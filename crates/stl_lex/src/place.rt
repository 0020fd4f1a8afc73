//! Where a byte of the text stands.
ghost use Rattle.std.specs.Prelude.{◌≡◌, ◌+◌, ◌<◌, ◌≤◌, ◌^◌, length};
ghost use Rattle.stl_lex.specs.Place.{next, over};

/// The place of a byte: how many bytes stand before it, its line and its column, which count from 1, and
/// whether no token stands before it on its line.
#[derive(Clone, Copy, Debug, PartialEq, Eq)]
pub struct Place {
    pub at: u32,
    pub line: u32,
    pub column: u32,
    pub opens_line: bool,
}

impl Place {
    /// The place of the first byte.
    pub const START: Self = Place {
        at: 0,
        line: 1,
        column: 1,
        opens_line: true,
    };

    /// Where the byte behind this one stands.
    fn next(self, byte: u8) -> Self
        requires line { self.line + 1 < 2 ^ 32 }
        requires column { self.column + 1 < 2 ^ 32 }
        requires at { self.at + 1 < 2 ^ 32 }
        ensures { result ≡ next self byte }
    {
        if byte == b'\n' {
            Place {
                at: self.at + 1,
                line: self.line + 1,
                column: 1,
                opens_line: true,
            }
        } else {
            Place {
                at: self.at + 1,
                line: self.line,
                column: self.column + 1,
                opens_line: self.opens_line,
            }
        }
    }

    /// Where the byte behind all of these stands.
    pub fn over(self, bytes: &[u8]) -> Self
        requires line { self.line ≤ self.at + 1 }
        requires column { self.column ≤ self.at + 1 }
        requires at { self.at + length bytes.now < 2 ^ 31 }
        ensures over { result ≡ over self bytes.now }
        ensures line { result.line ≤ result.at + 1 }
        ensures column { result.column ≤ result.at + 1 }
        ensures at { result.at ≡ self.at + length bytes.now }
    {
        let mut place = self;
        for byte in bytes {
            place = place.next(*byte);
        }
        place
    }
}
