//! Statements: a mnemonic, its operand, and `;`.
ghost use Rattle.std.specs.Prelude.{◌≡◌, ◌≤◌, length, slice_get};
ghost use Rattle.std.specs.List.{find};
ghost use Rattle.stl_decl.specs.Steps.{Gives, GivesOr, seen};
ghost use Rattle.stl_reader.specs.Letters.{passes};
ghost use Rattle.stl_reader.specs.Searches.{row_allows};
ghost use Rattle.stl_reader.specs.Statements.{is_number_next, is_bit_next, is_point_next, begins_word, begins_sign, begins_operand, fixed_operand, kind_operand, operand_at, wants_operand, argument_at, stored, operation_of, operation_at, first_of, closing_at, target_of, statement_at, parted};

use crate::addresses::{CALL, NO_NAME, Operand, refused};
use crate::constants::{
    is_figure_next, is_plus_or_minus, is_real, is_zero_next, sign_operand, single_operand,
    unsigned_operand,
};
use crate::forms::{may_be_alone, takes_operand};
use crate::letters::{numbers_like, row_at};
use crate::locals::local_operand;
use crate::mnemonics::mnemonic_at;
use crate::operands::{area_operand, data_number};
use crate::words::{operand_word, status_sign};
use instruction_set::{InstructionRow, OperandArea, instruction_set};
use s7_base::Statement;
use std::alloc::Global;
use stl_decl::{
    Fault, FaultKind, Layout, StepError, end_fault, fault_at, is_sign, next, semicolon_at, spelling,
};
use stl_lex::{Token, TokenKind, spells};

/// No operand.
const NO_OPERAND: Operand = Operand {
    area: OperandArea::Nothing,
    bit: 0,
    db: 0,
    value: 0,
    name: NO_NAME,
};

/// Whether a number comes next.
fn is_number_next(tokens: &[Token]) -> bool
    ensures { result ≡ is_number_next tokens.now }
{
    match next(tokens) {
        Some((first, _)) => matches!(first.kind, TokenKind::Number),
        None => false,
    }
}

/// Whether a number and a point come next.
fn is_bit_next(text: &[u8], tokens: &[Token]) -> bool
    ensures { result ≡ is_bit_next text.now tokens.now }
{
    match next(tokens) {
        Some((first, rest)) => {
            matches!(first.kind, TokenKind::Number) && is_point_next(text, rest)
        }
        None => false,
    }
}

fn is_point_next(text: &[u8], tokens: &[Token]) -> bool
    ensures { result ≡ is_point_next text.now tokens.now }
{
    match next(tokens) {
        Some((first, _)) => is_sign(text, first, b"."),
        None => false,
    }
}

#[tactic(auto, unfolding(crate::specs::Statements::begins_word))]
/// Whether the word begins an operand, with these tokens behind it. T, C and L are mnemonics or labels too.
fn begins_word(text: &[u8], word: &[u8], rest: &[Token]) -> bool
    ensures { result ≡ begins_word text.now word.now rest.now }
{
    if spells(b"T", word) || spells(b"C", word) {
        is_number_next(rest)
    } else if spells(b"L", word) {
        is_bit_next(text, rest)
    } else {
        operand_word(word).is_some() || data_number(word).is_some()
    }
}

#[tactic(auto, unfolding(crate::specs::Statements::begins_sign))]
/// Whether the sign begins an operand, with these tokens behind it.
fn begins_sign(text: &[u8], first: Token, rest: &[Token]) -> bool
    ensures { result ≡ begins_sign text.now first rest.now }
{
    is_sign(text, first, b"\"")
        || (is_plus_or_minus(text, first) && is_figure_next(rest))
        || (status_sign(spelling(text, first)).is_some() && is_zero_next(text, rest))
}

/// Whether an operand comes next.
fn begins_operand(text: &[u8], tokens: &[Token]) -> bool
    ensures { result ≡ begins_operand text.now tokens.now }
{
    let Some((first, rest)) = next(tokens) else {
        return false;
    };
    match first.kind {
        TokenKind::Word => begins_word(text, spelling(text, first), rest),
        TokenKind::Sign => begins_sign(text, first, rest),
        TokenKind::Title | TokenKind::Attribute => false,
        _ => true,
    }
}

/// An operand that is no name of a local.
fn fixed_operand<'a>(
    text: &[u8],
    mnemonic: [u8; 5],
    first: Token,
    rest: &'a [Token],
    tokens: &'a [Token],
) -> Result<(Operand, Token, &'a [Token]), Fault>
    requires { length text.now ≤ 1048576 }
    ensures { Gives seen result (fixed_operand first.kind text.now mnemonic first rest.now tokens.now) }
{
    match first.kind {
        TokenKind::Word => area_operand(text, mnemonic, first, rest),
        TokenKind::Number => unsigned_operand(text, mnemonic, first, tokens),
        TokenKind::Literal | TokenKind::Characters => single_operand(text, mnemonic, first, rest),
        TokenKind::Sign => sign_operand(text, mnemonic, first, rest, tokens),
        _ => Err(refused(text, mnemonic, first)),
    }
}

/// An operand that is no real constant.
fn kind_operand<'a>(
    alloc: Global,
    text: &[u8],
    temps: &Layout,
    mnemonic: [u8; 5],
    first: Token,
    rest: &'a [Token],
    tokens: &'a [Token],
) -> Result<(Operand, Token, &'a [Token]), StepError>
    requires { length text.now ≤ 1048576 }
    ensures { GivesOr seen result (kind_operand first.kind text.now temps.now mnemonic first rest.now tokens.now) }
{
    match first.kind {
        TokenKind::Local => local_operand(alloc, text, temps, mnemonic, first, rest),
        _ => {
            let found = fixed_operand(text, mnemonic, first, rest, tokens)?;
            Ok(found)
        }
    }
}

#[tactic(auto, unfolding(crate::specs::Statements::operand_at))]
/// The operand of the mnemonic.
fn operand_at<'a>(
    alloc: Global,
    text: &[u8],
    temps: &Layout,
    mnemonic: [u8; 5],
    tokens: &'a [Token],
) -> Result<(Operand, Token, &'a [Token]), StepError>
    requires { length text.now ≤ 1048576 }
    ensures { GivesOr seen result (operand_at text.now temps.now mnemonic tokens.now) }
{
    let Some((first, rest)) = next(tokens) else {
        return Err(StepError::Fault(end_fault(text)));
    };
    if is_real(text, tokens) {
        return Err(StepError::Fault(fault_at(FaultKind::RealInstruction, first)));
    }
    kind_operand(alloc, text, temps, mnemonic, first, rest, tokens)
}

/// Whether an operand is to be read: one that may be left out only where one comes next.
fn wants_operand(text: &[u8], mnemonic: [u8; 5], tokens: &[Token]) -> bool
    ensures { result ≡ wants_operand text.now mnemonic tokens.now }
{
    takes_operand(mnemonic) && (!may_be_alone(mnemonic) || begins_operand(text, tokens))
}

/// [ operand ] behind the mnemonic, whose last token is `last`.
#[tactic(auto, unfolding(crate::specs::Statements::argument_at))]
fn argument_at<'a>(
    alloc: Global,
    text: &[u8],
    temps: &Layout,
    mnemonic: [u8; 5],
    last: Token,
    tokens: &'a [Token],
) -> Result<(Operand, Token, &'a [Token]), StepError>
    requires { length text.now ≤ 1048576 }
    ensures { GivesOr seen result (argument_at text.now temps.now mnemonic last tokens.now) }
{
    if wants_operand(text, mnemonic, tokens) {
        operand_at(alloc, text, temps, mnemonic, tokens)
    } else {
        Ok((NO_OPERAND, last, tokens))
    }
}

/// The statement as it is stored.
fn stored(op: u16, operand: Operand) -> Statement
    ensures { result ≡ stored op operand }
{
    Statement {
        op,
        area: operand.area.number(),
        bit: operand.bit,
        db: operand.db,
        value: operand.value,
    }
}

/// Whether the row of this number has the mnemonic and allows the operand of the statement.
fn allows_at(
    rows: &[InstructionRow],
    number: u8,
    mnemonic: [u8; 5],
    locals: u32,
    statement: Statement,
) -> bool
    ensures { result ≡ passes (row_allows mnemonic locals statement) (slice_get rows.now number) }
{
    match row_at(rows, number) {
        Some(row) => row.mnemonic == mnemonic && statement.has_operand(row.operand, locals),
        None => false,
    }
}

/// The first of these numbers whose row has the mnemonic and allows the operand of the statement.
fn number_allowing(
    rows: &[InstructionRow],
    numbers: &[u8],
    mnemonic: [u8; 5],
    locals: u32,
    statement: Statement,
) -> Option<u8>
    ensures { result ≡ find (λ n. passes (row_allows mnemonic locals statement) (slice_get rows.now n)) numbers.now }
{
    numbers.iter().copied().find(|number| allows_at(rows, *number, mnemonic, locals, statement))
}

/// The number of the first operation with the mnemonic that allows the operand, in a block with so many bytes of
/// local data.
fn operation_of(mnemonic: [u8; 5], locals: u32, operand: Operand) -> Option<u8>
    ensures { result ≡ operation_of mnemonic locals operand }
{
    let numbers = numbers_like(mnemonic[0]);
    let statement = stored(0, operand);
    number_allowing(instruction_set(), numbers, mnemonic, locals, statement)
}

/// The operation with this operand, whose first token is `first`.
fn operation_at(
    mnemonic: [u8; 5],
    locals: u32,
    operand: Operand,
    first: Token,
) -> Result<u16, Fault>
    ensures { result ≡ operation_at mnemonic locals operand first }
{
    match operation_of(mnemonic, locals, operand) {
        Some(number) => Ok(u16::from(number)),
        None => Err(fault_at(FaultKind::BadOperand, first)),
    }
}

/// The first of the tokens, or the one before them.
fn first_of(last: Token, tokens: &[Token]) -> Token
    ensures { result ≡ first_of last tokens.now }
{
    match next(tokens) {
        Some((first, _)) => first,
        None => last,
    }
}

/// The `;` of a statement, whose last token is `last`.
fn closing_at<'a>(
    text: &[u8],
    mnemonic: [u8; 5],
    last: Token,
    tokens: &'a [Token],
) -> Result<&'a [Token], Fault>
    ensures { Gives (λ rest. rest.now) result (closing_at text.now mnemonic last tokens.now) }
{
    let Some((first, _)) = next(tokens) else {
        return semicolon_at(text, last, tokens);
    };
    if mnemonic == CALL && is_sign(text, first, b"(") {
        Err(fault_at(FaultKind::OutOfScope, first))
    } else {
        semicolon_at(text, last, tokens)
    }
}

/// The label that the statement jumps to, if it is a jump.
fn target_of(statement: Statement, name: [u8; 4]) -> Option<[u8; 4]>
    ensures { result ≡ target_of statement name }
{
    if statement.area == OperandArea::Target.number() {
        Some(name)
    } else {
        None
    }
}

/// mnemonic [ operand ] ";", in a block with so many bytes of local data: the statement, the label that it jumps to,
/// and the rest.
#[tactic(auto, unfolding(crate::specs::Statements::statement_at))]
pub fn statement_at<'a>(
    alloc: Global,
    text: &[u8],
    locals: u32,
    temps: &Layout,
    tokens: &'a [Token],
) -> Result<(Statement, Option<[u8; 4]>, &'a [Token]), StepError>
    requires { length text.now ≤ 1048576 }
    ensures exact { GivesOr parted result (statement_at text.now locals temps.now tokens.now) }
{
    let (mnemonic, last, rest) = mnemonic_at(text, tokens)?;
    let first = first_of(last, rest);
    let (operand, last, rest) = argument_at(alloc, text, temps, mnemonic, last, rest)?;
    let op = operation_at(mnemonic, locals, operand, first)?;
    let rest = closing_at(text, mnemonic, last, rest)?;
    let statement = stored(op, operand);
    Ok((statement, target_of(statement, operand.name), rest))
}
