//! Constants as operands, and the comparisons with 0.
ghost use Rattle.std.specs.Prelude.{◌≡◌, ◌≤◌, length};
ghost use Rattle.stl_decl.specs.Steps.{Gives, seen, at_rest};
ghost use Rattle.stl_decl.specs.Constants.{constant_of};
ghost use Rattle.stl_reader.specs.Constants.{is_plus_or_minus, is_figure_next, is_fraction, is_unsigned_real, is_real, form_of, area_of, constant_operand, number_operand, unsigned_operand, single_operand, is_zero, is_zero_next, zero_at, status_operand, signed_operand, sign_operand};

use crate::addresses::{NO_NAME, Operand, refused, taken};
use crate::forms::OperandForm;
use crate::words::{StatusSign, status_sign};
use instruction_set::OperandArea;
use stl_decl::{
    Constant, ConstantForm, Fault, constant_of, end_fault, is_sign, next, spelling, value_at,
};
use stl_lex::{Token, TokenKind};

/// Whether the token is the sign of a number.
pub fn is_plus_or_minus(text: &[u8], token: Token) -> bool
    ensures { result ≡ is_plus_or_minus text.now token }
{
    is_sign(text, token, b"+") || is_sign(text, token, b"-")
}

/// Whether a number or the part of a real number comes next.
pub fn is_figure_next(tokens: &[Token]) -> bool
    ensures { result ≡ is_figure_next tokens.now }
{
    match next(tokens) {
        Some((first, _)) => matches!(first.kind, TokenKind::Number | TokenKind::RealPart),
        None => false,
    }
}

/// Whether a point and figures come next.
fn is_fraction(text: &[u8], tokens: &[Token]) -> bool
    ensures { result ≡ is_fraction text.now tokens.now }
{
    match next(tokens) {
        Some((first, rest)) => is_sign(text, first, b".") && is_figure_next(rest),
        None => false,
    }
}

/// Whether a real constant without a sign comes next: with a point, or with a power of ten.
fn is_unsigned_real(text: &[u8], tokens: &[Token]) -> bool
    ensures { result ≡ is_unsigned_real text.now tokens.now }
{
    match next(tokens) {
        Some((first, rest)) => {
            matches!(first.kind, TokenKind::RealPart)
                || (matches!(first.kind, TokenKind::Number) && is_fraction(text, rest))
        }
        None => false,
    }
}

/// Whether a real constant comes next.
pub fn is_real(text: &[u8], tokens: &[Token]) -> bool
    ensures { result ≡ is_real text.now tokens.now }
{
    match next(tokens) {
        Some((first, rest)) if is_plus_or_minus(text, first) => is_unsigned_real(text, rest),
        _ => is_unsigned_real(text, tokens),
    }
}

/// The form of operand that a constant is.
fn form_of(form: ConstantForm) -> OperandForm
    ensures { result ≡ form_of form }
{
    match form {
        ConstantForm::Integer => OperandForm::Number,
        ConstantForm::LongInteger => OperandForm::LongInteger,
        ConstantForm::Word => OperandForm::WordPattern,
        ConstantForm::DoubleWord => OperandForm::DoubleWordPattern,
        _ => OperandForm::OtherLiteral,
    }
}

/// Whether a constant has 16 or 32 bits.
fn area_of(form: ConstantForm) -> OperandArea
    ensures { result ≡ area_of form }
{
    match form {
        ConstantForm::LongInteger | ConstantForm::DoubleWord | ConstantForm::Time => {
            OperandArea::DoubleWord
        }
        ConstantForm::Bits(digits) if digits > 16 => OperandArea::DoubleWord,
        ConstantForm::Characters(count) if count > 2 => OperandArea::DoubleWord,
        _ => OperandArea::Word,
    }
}

fn constant_operand(constant: Constant) -> Operand
    ensures { result ≡ constant_operand constant }
{
    Operand {
        area: area_of(constant.form),
        bit: 0,
        db: 0,
        value: constant.value,
        name: NO_NAME,
    }
}

/// A number from -32,768 to 32,767.
#[tactic(auto, unfolding(crate::specs::Constants::number_operand))]
fn number_operand<'a>(
    text: &[u8],
    tokens: &'a [Token],
) -> Result<(Operand, Token, &'a [Token]), Fault>
    requires { length text.now ≤ 1048576 }
    ensures { Gives seen result (number_operand text.now tokens.now) }
{
    let (value, rest) = value_at(text, tokens)?;
    Ok((constant_operand(value.constant), value.last, rest))
}

/// A number without a sign.
#[tactic(auto, unfolding(crate::specs::Constants::unsigned_operand))]
pub fn unsigned_operand<'a>(
    text: &[u8],
    mnemonic: [u8; 5],
    first: Token,
    tokens: &'a [Token],
) -> Result<(Operand, Token, &'a [Token]), Fault>
    requires { length text.now ≤ 1048576 }
    ensures { Gives seen result (unsigned_operand text.now mnemonic first tokens.now) }
{
    taken(text, mnemonic, OperandForm::Number, first)?;
    number_operand(text, tokens)
}

/// A literal, or characters.
pub fn single_operand<'a>(
    text: &[u8],
    mnemonic: [u8; 5],
    first: Token,
    rest: &'a [Token],
) -> Result<(Operand, Token, &'a [Token]), Fault>
    ensures { Gives seen result (single_operand (constant_of text.now first) text.now mnemonic first rest.now) }
{
    let Some(constant) = constant_of(text, first) else {
        return Err(refused(text, mnemonic, first));
    };
    taken(text, mnemonic, form_of(constant.form), first)?;
    Ok((constant_operand(constant), first, rest))
}

/// Whether the token is the 0 that is compared with.
fn is_zero(text: &[u8], token: Token) -> bool
    ensures { result ≡ is_zero text.now token }
{
    matches!(token.kind, TokenKind::Number) && spelling(text, token) == b"0".as_slice()
}

/// Whether 0 comes next.
pub fn is_zero_next(text: &[u8], tokens: &[Token]) -> bool
    ensures { result ≡ is_zero_next text.now tokens.now }
{
    match next(tokens) {
        Some((first, _)) => is_zero(text, first),
        None => false,
    }
}

fn zero_at<'a>(
    text: &[u8],
    mnemonic: [u8; 5],
    tokens: &'a [Token],
) -> Result<(Token, &'a [Token]), Fault>
    requires { length text.now ≤ 1048576 }
    ensures { Gives at_rest result (zero_at text.now mnemonic tokens.now) }
{
    let Some((first, rest)) = next(tokens) else {
        return Err(end_fault(text));
    };
    if is_zero(text, first) {
        Ok((first, rest))
    } else {
        Err(refused(text, mnemonic, first))
    }
}

/// A comparison with 0.
#[tactic(auto, unfolding(crate::specs::Constants::status_operand))]
fn status_operand<'a>(
    text: &[u8],
    mnemonic: [u8; 5],
    row: StatusSign,
    first: Token,
    tokens: &'a [Token],
) -> Result<(Operand, Token, &'a [Token]), Fault>
    requires { length text.now ≤ 1048576 }
    ensures { Gives seen result (status_operand text.now mnemonic row first tokens.now) }
{
    taken(text, mnemonic, OperandForm::Status, first)?;
    let (last, rest) = zero_at(text, mnemonic, tokens)?;
    Ok((
        Operand {
            area: OperandArea::Status,
            bit: 0,
            db: 0,
            value: row.value,
            name: NO_NAME,
        },
        last,
        rest,
    ))
}

/// A number with a sign.
#[tactic(auto, unfolding(crate::specs::Constants::signed_operand))]
fn signed_operand<'a>(
    text: &[u8],
    mnemonic: [u8; 5],
    first: Token,
    tokens: &'a [Token],
) -> Result<(Operand, Token, &'a [Token]), Fault>
    requires { length text.now ≤ 1048576 }
    ensures { Gives seen result (signed_operand text.now mnemonic first tokens.now) }
{
    if !is_plus_or_minus(text, first) {
        return Err(refused(text, mnemonic, first));
    }
    taken(text, mnemonic, OperandForm::SignedNumber, first)?;
    number_operand(text, tokens)
}

/// An operand that begins with a sign: `first` is the sign, `rest` what stands behind it, `tokens` both.
pub fn sign_operand<'a>(
    text: &[u8],
    mnemonic: [u8; 5],
    first: Token,
    rest: &'a [Token],
    tokens: &'a [Token],
) -> Result<(Operand, Token, &'a [Token]), Fault>
    requires { length text.now ≤ 1048576 }
    ensures { Gives seen result (sign_operand text.now mnemonic first rest.now tokens.now) }
{
    match status_sign(spelling(text, first)) {
        Some(row) => status_operand(text, mnemonic, row, first, rest),
        None => signed_operand(text, mnemonic, first, tokens),
    }
}
