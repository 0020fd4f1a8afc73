//! Why a source is refused.

/// A refusal of a source: a kind, and the line that it stands in, which counts from 1. The tokens have
/// the kinds 1 to 4: 1 is a byte that begins no token, or an open `{` or `'`; 2 a number or a literal of
/// no form; 3 a number above 4,294,967,295, or a literal's value past its type; 4 a comment with no end.
#[derive(Clone, Copy, Debug, PartialEq, Eq)]
pub struct LoadFault {
    pub kind: u8,
    pub line: u32,
}

/// What is wrong where no token stands.
#[derive(Clone, Copy, Debug, PartialEq, Eq)]
pub enum TokenFault {
    BadByte,
    BadNumber,
    OutOfRange,
    UnclosedComment,
}
