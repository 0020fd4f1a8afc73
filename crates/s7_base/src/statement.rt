//! Statements as they are stored.

/// A statement in its stored form: the number of its operation, the number of its operand's area, the bit
/// (0 to 7) where the operand is one, the number of the data block that it names, and its address or constant.
#[derive(Clone, Copy, Debug, PartialEq, Eq)]
pub struct Statement {
    pub op: u16,
    pub area: u8,
    pub bit: u8,
    pub db: u16,
    pub value: u32,
}
