//! How operands are written, and which of these forms stand behind a mnemonic.
ghost use Rattle.std.specs.Prelude.{◌≡◌, slice_get};
ghost use Rattle.std.specs.List.{list_any};
ghost use Rattle.stl_reader.specs.Forms.{takes, takes_none, accepts, may_be_alone, takes_some, takes_operand};
ghost use Rattle.stl_reader.specs.Letters.{passes};
ghost use Rattle.stl_reader.specs.Searches.{row_accepts, row_may_be_alone, row_takes_operand};

use crate::letters::{numbers_like, row_at};
use instruction_set::{InstructionRow, OperandKind, instruction_set};

/// How an operand is written.
#[derive(Clone, Copy, Debug, PartialEq, Eq)]
pub enum OperandForm {
    /// A bit of memory, as `I 0.0`, `DB1.DBX 0.0` or a name of type BOOL.
    Bit,
    /// A byte, word or double word of memory, as `MW 2`, `DB1.DBW 0` or a name of 1, 2 or 4 bytes.
    Value,
    /// `PIB`, `PIW` or `PID` and an address.
    PeripheralIn,
    /// `PQB`, `PQW` or `PQD` and an address.
    PeripheralOut,
    /// `T n`.
    Timer,
    /// `C n`.
    Counter,
    /// A status operand, as `OV` or `>=0`.
    Status,
    /// `STW`.
    StatusWord,
    /// `DBLG`, `DBNO`, `DILG` or `DINO`.
    DataRegister,
    /// A number without a sign.
    Number,
    /// A number with a sign.
    SignedNumber,
    /// `L#` and a number.
    LongInteger,
    /// `W#16#` and digits.
    WordPattern,
    /// `DW#16#` and digits.
    DoubleWordPattern,
    /// Another literal, or characters.
    OtherLiteral,
    /// The name of a label.
    Label,
    /// `DB n`.
    DataBlock,
    /// `DI n`.
    InstanceBlock,
    /// `FC n`.
    Function,
    /// `FB n`.
    FunctionBlock,
    /// `FB n, DB m`.
    FunctionBlockWithData,
    /// `SFC n`.
    SystemFunction,
}

/// The mask of all words: what is at most this is written as `W#16#`, and not as a number.
const WHOLE_WORD: u16 = 65535;

/// Whether an operand of the kind may be written in this form.
fn takes(kind: OperandKind, form: OperandForm) -> bool
    ensures { result ≡ takes kind form }
{
    match kind {
        OperandKind::Nothing => false,
        OperandKind::CheckedBit => matches!(
            form,
            OperandForm::Bit | OperandForm::Timer | OperandForm::Counter | OperandForm::Status
        ),
        OperandKind::WrittenBit => matches!(form, OperandForm::Bit),
        OperandKind::SetBit => matches!(form, OperandForm::Bit | OperandForm::Counter),
        OperandKind::ResetBit => matches!(
            form,
            OperandForm::Bit | OperandForm::Timer | OperandForm::Counter
        ),
        OperandKind::Loaded => matches!(
            form,
            OperandForm::Value
                | OperandForm::PeripheralIn
                | OperandForm::Timer
                | OperandForm::Counter
                | OperandForm::StatusWord
                | OperandForm::DataRegister
                | OperandForm::Number
                | OperandForm::SignedNumber
                | OperandForm::LongInteger
                | OperandForm::WordPattern
                | OperandForm::DoubleWordPattern
                | OperandForm::OtherLiteral
        ),
        OperandKind::Stored => matches!(
            form,
            OperandForm::Value | OperandForm::PeripheralOut | OperandForm::StatusWord
        ),
        OperandKind::Coded => matches!(form, OperandForm::Timer | OperandForm::Counter),
        OperandKind::Addend => matches!(
            form,
            OperandForm::Number | OperandForm::SignedNumber | OperandForm::LongInteger
        ),
        OperandKind::UpTo(_) | OperandKind::Exactly(_) => matches!(form, OperandForm::Number),
        OperandKind::AtMost(WHOLE_WORD) => matches!(form, OperandForm::WordPattern),
        OperandKind::AtMost(_) => matches!(form, OperandForm::Number),
        OperandKind::Mask => matches!(form, OperandForm::DoubleWordPattern),
        OperandKind::Target => matches!(form, OperandForm::Label),
        OperandKind::Timer => matches!(form, OperandForm::Timer),
        OperandKind::Counter => matches!(form, OperandForm::Counter),
        OperandKind::DataBlock => matches!(form, OperandForm::DataBlock),
        OperandKind::InstanceBlock => matches!(form, OperandForm::InstanceBlock),
        OperandKind::Function => matches!(form, OperandForm::Function),
        OperandKind::FunctionBlock => matches!(form, OperandForm::FunctionBlock),
        OperandKind::FunctionBlockWithData => matches!(form, OperandForm::FunctionBlockWithData),
        OperandKind::SystemFunction(_) => matches!(form, OperandForm::SystemFunction),
    }
}

/// Whether an operand of the kind may be left out.
fn takes_none(kind: OperandKind) -> bool
    ensures { result ≡ takes_none kind }
{
    matches!(
        kind,
        OperandKind::Nothing | OperandKind::AtMost(_) | OperandKind::Mask
    )
}

/// Whether there are operands of the kind.
fn takes_some(kind: OperandKind) -> bool
    ensures { result ≡ takes_some kind }
{
    !matches!(kind, OperandKind::Nothing)
}

/// Whether the row of this number has the mnemonic and takes an operand of this form.
fn accepts_at(rows: &[InstructionRow], number: u8, mnemonic: [u8; 5], form: OperandForm) -> bool
    ensures { result ≡ passes (row_accepts mnemonic form) (slice_get rows.now number) }
{
    match row_at(rows, number) {
        Some(row) => row.mnemonic == mnemonic && takes(row.operand, form),
        None => false,
    }
}

/// Whether one of the rows of these numbers has the mnemonic and takes an operand of this form.
fn any_accepts(
    rows: &[InstructionRow],
    numbers: &[u8],
    mnemonic: [u8; 5],
    form: OperandForm,
) -> bool
    ensures { result ≡ list_any (λ n. passes (row_accepts mnemonic form) (slice_get rows.now n)) numbers.now }
{
    numbers
        .iter()
        .any(|number| accepts_at(rows, *number, mnemonic, form))
}

/// Whether an operand of this form may stand behind the mnemonic.
pub fn accepts(mnemonic: [u8; 5], form: OperandForm) -> bool
    ensures { result ≡ accepts mnemonic form }
{
    let numbers = numbers_like(mnemonic[0]);
    any_accepts(instruction_set(), numbers, mnemonic, form)
}

/// Whether the row of this number has the mnemonic and may stand without an operand.
fn may_be_alone_at(rows: &[InstructionRow], number: u8, mnemonic: [u8; 5]) -> bool
    ensures { result ≡ passes (row_may_be_alone mnemonic) (slice_get rows.now number) }
{
    match row_at(rows, number) {
        Some(row) => row.mnemonic == mnemonic && takes_none(row.operand),
        None => false,
    }
}

fn any_may_be_alone(rows: &[InstructionRow], numbers: &[u8], mnemonic: [u8; 5]) -> bool
    ensures { result ≡ list_any (λ n. passes (row_may_be_alone mnemonic) (slice_get rows.now n)) numbers.now }
{
    numbers
        .iter()
        .any(|number| may_be_alone_at(rows, *number, mnemonic))
}

/// Whether the mnemonic may stand without an operand.
pub fn may_be_alone(mnemonic: [u8; 5]) -> bool
    ensures { result ≡ may_be_alone mnemonic }
{
    let numbers = numbers_like(mnemonic[0]);
    any_may_be_alone(instruction_set(), numbers, mnemonic)
}

/// Whether the row of this number has the mnemonic and takes an operand.
fn takes_operand_at(rows: &[InstructionRow], number: u8, mnemonic: [u8; 5]) -> bool
    ensures { result ≡ passes (row_takes_operand mnemonic) (slice_get rows.now number) }
{
    match row_at(rows, number) {
        Some(row) => row.mnemonic == mnemonic && takes_some(row.operand),
        None => false,
    }
}

fn any_takes_operand(rows: &[InstructionRow], numbers: &[u8], mnemonic: [u8; 5]) -> bool
    ensures { result ≡ list_any (λ n. passes (row_takes_operand mnemonic) (slice_get rows.now n)) numbers.now }
{
    numbers
        .iter()
        .any(|number| takes_operand_at(rows, *number, mnemonic))
}

/// Whether an operand may stand behind the mnemonic.
pub fn takes_operand(mnemonic: [u8; 5]) -> bool
    ensures { result ≡ takes_operand mnemonic }
{
    let numbers = numbers_like(mnemonic[0]);
    any_takes_operand(instruction_set(), numbers, mnemonic)
}
