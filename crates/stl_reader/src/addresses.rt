//! The parts of an operand, and what an operand is.
ghost use Rattle.std.specs.Prelude.{◌≡◌, ◌≤◌, length, IfOk};
ghost use Rattle.stl_decl.specs.Steps.{Gives, seen, at_rest};
ghost use Rattle.stl_reader.specs.Addresses.{refused, part_number, part_sign, part_word, address, taken, judged, word_operand, bit_operand, byte_operand};

use crate::forms::{OperandForm, accepts};
use crate::words::OperandWord;
use instruction_set::OperandArea;
use stl_decl::{Fault, FaultKind, end_fault, fault_at, is_sign, is_word, next, number_of, unfit};
use stl_lex::{Token, TokenKind};

/// The mnemonic behind which a list of parameters would stand.
pub const CALL: [u8; 5] = *b"CALL\0";

/// The name of no label.
pub const NO_NAME: [u8; 4] = [0; 4];

/// An operand as it is stored. Where it is the target of a jump, it has the name of its label.
#[derive(Clone, Copy, Debug, PartialEq, Eq)]
pub struct Operand {
    pub area: OperandArea,
    pub bit: u8,
    pub db: u16,
    pub value: u32,
    pub name: [u8; 4],
}

/// The fault of a token that can't stand in an operand.
pub fn refused(text: &[u8], mnemonic: [u8; 5], token: Token) -> Fault
    ensures { result ≡ refused text.now mnemonic token }
{
    if mnemonic == CALL && is_sign(text, token, b"(") {
        fault_at(FaultKind::OutOfScope, token)
    } else {
        unfit(text, token)
    }
}

/// Nothing, where an operand of this form may stand behind the mnemonic; else the fault of its first token.
pub fn taken(text: &[u8], mnemonic: [u8; 5], form: OperandForm, token: Token) -> Result<(), Fault>
    ensures { result ≡ taken text.now mnemonic form token }
{
    if accepts(mnemonic, form) {
        Ok(())
    } else {
        Err(refused(text, mnemonic, token))
    }
}

/// Nothing, or the fault of an operand that is none as a whole, at its first token.
pub fn judged(holds: bool, token: Token) -> Result<(), Fault>
    ensures { result ≡ judged holds token }
{
    if holds {
        Ok(())
    } else {
        Err(fault_at(FaultKind::BadOperand, token))
    }
}

/// A number.
pub fn part_number<'a>(
    text: &[u8],
    mnemonic: [u8; 5],
    tokens: &'a [Token],
) -> Result<(u32, Token, &'a [Token]), Fault>
    requires { length text.now ≤ 1048576 }
    ensures { Gives seen result (part_number text.now mnemonic tokens.now) }
{
    let Some((first, rest)) = next(tokens) else {
        return Err(end_fault(text));
    };
    if matches!(first.kind, TokenKind::Number) {
        let number = number_of(text, first).min(u32::MAX as u64);
        Ok((number as u32, first, rest))
    } else {
        Err(refused(text, mnemonic, first))
    }
}

/// This sign.
pub fn part_sign<'a>(
    text: &[u8],
    mnemonic: [u8; 5],
    sign: &[u8],
    tokens: &'a [Token],
) -> Result<(Token, &'a [Token]), Fault>
    requires { length text.now ≤ 1048576 }
    ensures { Gives at_rest result (part_sign text.now mnemonic sign.now tokens.now) }
{
    let Some((first, rest)) = next(tokens) else {
        return Err(end_fault(text));
    };
    if is_sign(text, first, sign) {
        Ok((first, rest))
    } else {
        Err(refused(text, mnemonic, first))
    }
}

/// This word.
pub fn part_word<'a>(
    text: &[u8],
    mnemonic: [u8; 5],
    word: &[u8],
    tokens: &'a [Token],
) -> Result<(Token, &'a [Token]), Fault>
    requires { length text.now ≤ 1048576 }
    ensures { Gives at_rest result (part_word text.now mnemonic word.now tokens.now) }
{
    let Some((first, rest)) = next(tokens) else {
        return Err(end_fault(text));
    };
    if is_word(text, first, word) {
        Ok((first, rest))
    } else {
        Err(refused(text, mnemonic, first))
    }
}

/// The number directly behind a word of an area, where `[` would begin an address that is computed.
pub fn address<'a>(
    text: &[u8],
    mnemonic: [u8; 5],
    tokens: &'a [Token],
) -> Result<(u32, Token, &'a [Token]), Fault>
    requires { length text.now ≤ 1048576 }
    ensures { Gives seen result (address text.now mnemonic tokens.now) }
{
    match next(tokens) {
        Some((first, _)) if is_sign(text, first, b"[") => {
            Err(fault_at(FaultKind::OutOfScope, first))
        }
        _ => part_number(text, mnemonic, tokens),
    }
}

/// An operand that is a word alone.
pub fn word_operand(row: OperandWord) -> Operand
    ensures { result ≡ word_operand row }
{
    Operand {
        area: row.area,
        bit: row.unit,
        db: 0,
        value: row.value,
        name: NO_NAME,
    }
}

/// byte "." bit, behind the word of an area, which is the operand's first token.
#[tactic(auto, unfolding(crate::specs::Addresses::bit_operand))]
pub fn bit_operand<'a>(
    text: &[u8],
    mnemonic: [u8; 5],
    row: OperandWord,
    first: Token,
    tokens: &'a [Token],
) -> Result<(Operand, Token, &'a [Token]), Fault>
    requires { length text.now ≤ 1048576 }
    ensures { Gives seen result (bit_operand text.now mnemonic row first tokens.now) }
{
    let (byte, _, rest) = address(text, mnemonic, tokens)?;
    let (_, rest) = part_sign(text, mnemonic, b".", rest)?;
    let (bit, last, rest) = part_number(text, mnemonic, rest)?;
    if bit > 7 {
        return Err(fault_at(FaultKind::BadOperand, first));
    }
    Ok((
        Operand {
            area: row.area,
            bit: bit as u8,
            db: 0,
            value: byte,
            name: NO_NAME,
        },
        last,
        rest,
    ))
}

/// A number behind the word of an area.
#[tactic(auto, unfolding(crate::specs::Addresses::byte_operand))]
pub fn byte_operand<'a>(
    text: &[u8],
    mnemonic: [u8; 5],
    row: OperandWord,
    tokens: &'a [Token],
) -> Result<(Operand, Token, &'a [Token]), Fault>
    requires { length text.now ≤ 1048576 }
    ensures { Gives seen result (byte_operand text.now mnemonic row tokens.now) }
{
    let (number, last, rest) = address(text, mnemonic, tokens)?;
    Ok((
        Operand {
            area: row.area,
            bit: row.unit,
            db: 0,
            value: number,
            name: NO_NAME,
        },
        last,
        rest,
    ))
}
