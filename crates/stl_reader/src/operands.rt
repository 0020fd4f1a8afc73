//! Operands that begin with a word: areas, blocks, status operands and labels.
ghost use Rattle.std.specs.Prelude.{◌≡◌, ◌≤◌, length};
ghost use Rattle.std.specs.List.{list_all};
ghost use Rattle.std.specs.Char.{is_ascii_digit};
ghost use Rattle.stl_decl.specs.Steps.{Gives, seen, spelling};
ghost use Rattle.stl_reader.specs.Operands.{plain_operand, instance_operand, system_judged, system_operand, row_operand, is_digits, data_number, is_data_word, data_word, takes_memory, opened_operand, unnamed_operand, label_name, label_operand, area_operand};

use crate::addresses::{
    NO_NAME, Operand, address, bit_operand, byte_operand, judged, part_sign, part_word, refused,
    taken, word_operand,
};
use crate::forms::{OperandForm, accepts};
use crate::words::{OperandWord, operand_word};
use instruction_set::OperandArea;
use s7_base::is_data_number;
use stl_decl::{Fault, FaultKind, end_fault, fault_at, is_word, next, spelling};
use stl_lex::{Token, TokenKind, after, begins, value_of};

/// What stands behind a word of the table that may stand there.
fn plain_operand<'a>(
    text: &[u8],
    mnemonic: [u8; 5],
    row: OperandWord,
    first: Token,
    rest: &'a [Token],
) -> Result<(Operand, Token, &'a [Token]), Fault>
    requires { length text.now ≤ 1048576 }
    ensures { Gives seen result (plain_operand row.form text.now mnemonic row first rest.now) }
{
    match row.form {
        OperandForm::Bit => bit_operand(text, mnemonic, row, first, rest),
        OperandForm::Status | OperandForm::StatusWord | OperandForm::DataRegister => {
            Ok((word_operand(row), first, rest))
        }
        _ => byte_operand(text, mnemonic, row, rest),
    }
}

/// n "," "DB" m, behind FB, which is the operand's first token.
#[tactic(auto, unfolding(crate::specs::Operands::instance_operand))]
fn instance_operand<'a>(
    text: &[u8],
    mnemonic: [u8; 5],
    row: OperandWord,
    first: Token,
    rest: &'a [Token],
) -> Result<(Operand, Token, &'a [Token]), Fault>
    requires { length text.now ≤ 1048576 }
    ensures { Gives seen result (instance_operand text.now mnemonic row first rest.now) }
{
    let (number, _, rest) = address(text, mnemonic, rest)?;
    let (_, rest) = part_sign(text, mnemonic, b",", rest)?;
    let (_, rest) = part_word(text, mnemonic, b"DB", rest)?;
    let (data, last, rest) = address(text, mnemonic, rest)?;
    if !is_data_number(data) {
        return Err(fault_at(FaultKind::BadOperand, first));
    }
    Ok((
        Operand {
            area: row.area,
            bit: row.unit,
            db: data as u16,
            value: number,
            name: NO_NAME,
        },
        last,
        rest,
    ))
}

/// Nothing where the system function may be called; else the fault of the word before it.
fn system_judged(mnemonic: [u8; 5], number: u32, first: Token) -> Result<(), Fault>
    ensures { result ≡ system_judged mnemonic number first }
{
    if number != 43 && number != 46 {
        Err(fault_at(FaultKind::OutOfScope, first))
    } else {
        judged(accepts(mnemonic, OperandForm::SystemFunction), first)
    }
}

/// SFC n, of which the language has 43 and 46.
#[tactic(auto, unfolding(crate::specs::Operands::system_operand))]
fn system_operand<'a>(
    text: &[u8],
    mnemonic: [u8; 5],
    row: OperandWord,
    first: Token,
    rest: &'a [Token],
) -> Result<(Operand, Token, &'a [Token]), Fault>
    requires { length text.now ≤ 1048576 }
    ensures { Gives seen result (system_operand text.now mnemonic row first rest.now) }
{
    taken(text, mnemonic, OperandForm::Function, first)?;
    let (operand, last, rest) = byte_operand(text, mnemonic, row, rest)?;
    system_judged(mnemonic, operand.value, first)?;
    Ok((operand, last, rest))
}

/// An operand that begins with a word of the table.
fn row_operand<'a>(
    text: &[u8],
    mnemonic: [u8; 5],
    row: OperandWord,
    first: Token,
    rest: &'a [Token],
) -> Result<(Operand, Token, &'a [Token]), Fault>
    requires { length text.now ≤ 1048576 }
    ensures { Gives seen result (row_operand row.form text.now mnemonic row first rest.now) }
{
    match row.form {
        OperandForm::SystemFunction => system_operand(text, mnemonic, row, first, rest),
        OperandForm::FunctionBlock if accepts(mnemonic, OperandForm::FunctionBlockWithData) => {
            instance_operand(text, mnemonic, row, first, rest)
        }
        _ => {
            taken(text, mnemonic, row.form, first)?;
            plain_operand(text, mnemonic, row, first, rest)
        }
    }
}

fn has_only_digits(word: &[u8]) -> bool
    ensures { result ≡ list_all is_ascii_digit word.now }
{
    word.iter().all(|byte| byte.is_ascii_digit())
}

/// Whether these are digits, one or more.
fn is_digits(word: &[u8]) -> bool
    ensures { result ≡ is_digits word.now }
{
    !word.is_empty() && has_only_digits(word)
}

/// The number of the data block that a word like `DB10` names.
pub fn data_number(word: &[u8]) -> Option<u32>
    ensures { result ≡ data_number word.now }
{
    let digits = after(2, word);
    if begins(b"DB", word) && is_digits(digits) {
        Some(value_of(10, digits).min(u32::MAX as u64) as u32)
    } else {
        None
    }
}

/// Whether the row is one of DBX, DBB, DBW and DBD.
fn is_data_word(row: OperandWord) -> bool
    ensures { result ≡ is_data_word row }
{
    matches!(row.area, OperandArea::Data)
        && matches!(row.form, OperandForm::Bit | OperandForm::Value)
}

/// DBX, DBB, DBW or DBD, which may stand behind the mnemonic.
fn data_word<'a>(
    text: &[u8],
    mnemonic: [u8; 5],
    tokens: &'a [Token],
) -> Result<(OperandWord, Token, &'a [Token]), Fault>
    requires { length text.now ≤ 1048576 }
    ensures { Gives seen result (data_word text.now mnemonic tokens.now) }
{
    let Some((first, rest)) = next(tokens) else {
        return Err(end_fault(text));
    };
    if !matches!(first.kind, TokenKind::Word) {
        return Err(refused(text, mnemonic, first));
    }
    match operand_word(spelling(text, first)) {
        Some(row) if is_data_word(row) && accepts(mnemonic, row.form) => Ok((row, first, rest)),
        _ => Err(refused(text, mnemonic, first)),
    }
}

/// Whether an address of memory may stand behind the mnemonic.
pub fn takes_memory(mnemonic: [u8; 5]) -> bool
    ensures { result ≡ takes_memory mnemonic }
{
    accepts(mnemonic, OperandForm::Bit) || accepts(mnemonic, OperandForm::Value)
}

/// "." and an address of data, behind `DBn`, which opens this data block.
#[tactic(auto, unfolding(crate::specs::Operands::opened_operand))]
fn opened_operand<'a>(
    text: &[u8],
    mnemonic: [u8; 5],
    number: u32,
    first: Token,
    rest: &'a [Token],
) -> Result<(Operand, Token, &'a [Token]), Fault>
    requires { length text.now ≤ 1048576 }
    ensures { Gives seen result (opened_operand text.now mnemonic number first rest.now) }
{
    let (_, rest) = part_sign(text, mnemonic, b".", rest)?;
    let (row, _, rest) = data_word(text, mnemonic, rest)?;
    let (operand, last, rest) = plain_operand(text, mnemonic, row, first, rest)?;
    if !is_data_number(number) {
        return Err(fault_at(FaultKind::BadOperand, first));
    }
    Ok((
        Operand {
            db: number as u16,
            ..operand
        },
        last,
        rest,
    ))
}

/// An operand that begins with a word that is not in the table: `DBn`, or nothing that there is.
fn unnamed_operand<'a>(
    text: &[u8],
    mnemonic: [u8; 5],
    first: Token,
    rest: &'a [Token],
) -> Result<(Operand, Token, &'a [Token]), Fault>
    requires { length text.now ≤ 1048576 }
    ensures { Gives seen result (unnamed_operand (data_number (spelling text.now first)) text.now mnemonic first rest.now) }
{
    match data_number(spelling(text, first)) {
        Some(number) if takes_memory(mnemonic) => {
            opened_operand(text, mnemonic, number, first, rest)
        }
        _ if is_word(text, first, b"SFB") && accepts(mnemonic, OperandForm::Function) => {
            Err(fault_at(FaultKind::OutOfScope, first))
        }
        _ => Err(refused(text, mnemonic, first)),
    }
}

/// The name of a label in upper case, filled up with zeros: one to four letters.
pub fn label_name(word: &[u8]) -> Option<[u8; 4]>
    ensures { result ≡ label_name word.now }
{
    match word {
        [a] => Some([a.to_ascii_uppercase(), 0, 0, 0]),
        [a, b] => Some([a.to_ascii_uppercase(), b.to_ascii_uppercase(), 0, 0]),
        [a, b, c] => Some([
            a.to_ascii_uppercase(),
            b.to_ascii_uppercase(),
            c.to_ascii_uppercase(),
            0,
        ]),
        [a, b, c, d] => Some([
            a.to_ascii_uppercase(),
            b.to_ascii_uppercase(),
            c.to_ascii_uppercase(),
            d.to_ascii_uppercase(),
        ]),
        _ => None,
    }
}

/// The label of a jump. The number of its statement is not known yet.
fn label_operand<'a>(
    text: &[u8],
    first: Token,
    rest: &'a [Token],
) -> Result<(Operand, Token, &'a [Token]), Fault>
    ensures { Gives seen result (label_operand (label_name (spelling text.now first)) first rest.now) }
{
    match label_name(spelling(text, first)) {
        Some(name) => Ok((
            Operand {
                area: OperandArea::Target,
                bit: 0,
                db: 0,
                value: 0,
                name,
            },
            first,
            rest,
        )),
        None => Err(fault_at(FaultKind::BadOperand, first)),
    }
}

/// An operand that begins with a word.
#[tactic(auto, unfolding(crate::specs::Operands::area_operand))]
pub fn area_operand<'a>(
    text: &[u8],
    mnemonic: [u8; 5],
    first: Token,
    rest: &'a [Token],
) -> Result<(Operand, Token, &'a [Token]), Fault>
    requires { length text.now ≤ 1048576 }
    ensures { Gives seen result (area_operand text.now mnemonic first rest.now) }
{
    if accepts(mnemonic, OperandForm::Label) {
        return label_operand(text, first, rest);
    }
    match operand_word(spelling(text, first)) {
        Some(row) => row_operand(text, mnemonic, row, first, rest),
        None => unnamed_operand(text, mnemonic, first, rest),
    }
}
