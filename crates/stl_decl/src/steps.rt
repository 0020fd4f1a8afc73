//! The single steps of reading: one token of a given kind.
ghost use Rattle.std.specs.Prelude.{◌≡◌, ◌≤◌, length, IfOk};
ghost use Rattle.std.specs.Option.{option_map};
ghost use Rattle.stl_decl.specs.Steps.{Gives, seen, at_rest, spelling, upper, uncons, end_fault, fault_at, is_word, is_sign, is_pointer, unfit, word_at, sign_at, semicolon_at, name_at, number_of, number_at, signed_at, integer_at, maybe_word_at, maybe_sign_at};

use crate::fault::{Fault, FaultKind};
use std::alloc::{AllocError, Global};
use stl_lex::{CEILING, Token, TokenKind, begins, spells, value_of};

/// A number with its sign, and its tokens: the first, which is the sign where one stands there, and the last.
/// A number above 4,294,967,295 counts as 4,294,967,296.
#[derive(Clone, Copy, Debug, PartialEq, Eq)]
pub struct SignedNumber {
    pub negative: bool,
    pub magnitude: u64,
    pub first: Token,
    pub last: Token,
}

/// The bytes of a token.
pub fn spelling<'a>(text: &'a [u8], token: Token) -> &'a [u8]
    ensures { result.now ≡ spelling text.now token }
{
    let from = text.len().min(token.from as usize);
    let to = text.len().min(token.to as usize).max(from);
    &text[from..to]
}

/// The bytes in upper case.
pub fn upper(alloc: Global, word: &[u8]) -> Result<Vec<u8>, AllocError>
    ensures { IfOk result (λ v. v.items ≡ upper word.now) }
{
    word.iter()
        .map(|byte| byte.to_ascii_uppercase())
        .collect(alloc)
}

/// The first token and the others.
pub fn next(tokens: &[Token]) -> Option<(Token, &[Token])>
    ensures { option_map at_rest result ≡ uncons tokens.now }
{
    if tokens.is_empty() {
        None
    } else {
        Some((tokens[0], &tokens[1..]))
    }
}

/// The text ends inside something: a fault at the end of its last line.
pub fn end_fault(text: &[u8]) -> Fault
    requires { length text.now ≤ 1048576 }
    ensures { result ≡ end_fault text.now }
{
    let whole = if text.is_empty() {
        text
    } else {
        &text[..text.len() - 1]
    };
    let feeds = whole.iter().filter(|byte| **byte == b'\n').count();
    Fault {
        kind: FaultKind::MissingSemicolon,
        line: feeds as u32 + 1,
        column: u32::MAX,
    }
}

/// A fault at a token.
pub fn fault_at(kind: FaultKind, token: Token) -> Fault
    ensures { result ≡ fault_at kind token }
{
    Fault {
        kind,
        line: token.line,
        column: token.column,
    }
}

/// Whether the token is this word, in large or small letters.
pub fn is_word(text: &[u8], token: Token, word: &[u8]) -> bool
    ensures { result ≡ is_word text.now token word.now }
{
    matches!(token.kind, TokenKind::Word) && spells(word, spelling(text, token))
}

/// Whether the token is this sign.
pub fn is_sign(text: &[u8], token: Token, sign: &[u8]) -> bool
    ensures { result ≡ is_sign text.now token sign.now }
{
    matches!(token.kind, TokenKind::Sign) && spelling(text, token) == sign
}

/// Whether the token is a literal that begins with `P#`.
pub fn is_pointer(text: &[u8], token: Token) -> bool
    ensures { result ≡ is_pointer text.now token }
{
    matches!(token.kind, TokenKind::Literal) && begins(b"P#", spelling(text, token))
}

/// The fault of a token that can't stand in its place.
pub fn unfit(text: &[u8], token: Token) -> Fault
    ensures { result ≡ unfit text.now token }
{
    if is_sign(text, token, b"\"") || is_pointer(text, token) {
        fault_at(FaultKind::OutOfScope, token)
    } else {
        fault_at(FaultKind::BadOperand, token)
    }
}

/// This word.
pub fn word_at<'a>(
    text: &[u8],
    word: &[u8],
    tokens: &'a [Token],
) -> Result<(Token, &'a [Token]), Fault>
    requires { length text.now ≤ 1048576 }
    ensures { Gives at_rest result (word_at text.now word.now tokens.now) }
{
    let Some((first, rest)) = next(tokens) else {
        return Err(end_fault(text));
    };
    if is_word(text, first, word) {
        Ok((first, rest))
    } else {
        Err(unfit(text, first))
    }
}

/// This sign.
pub fn sign_at<'a>(
    text: &[u8],
    sign: &[u8],
    tokens: &'a [Token],
) -> Result<(Token, &'a [Token]), Fault>
    requires { length text.now ≤ 1048576 }
    ensures { Gives at_rest result (sign_at text.now sign.now tokens.now) }
{
    let Some((first, rest)) = next(tokens) else {
        return Err(end_fault(text));
    };
    if is_sign(text, first, sign) {
        Ok((first, rest))
    } else {
        Err(unfit(text, first))
    }
}

/// The `;` behind something complete, or a fault at its last token.
pub fn semicolon_at<'a>(text: &[u8], last: Token, tokens: &'a [Token]) -> Result<&'a [Token], Fault>
    ensures { Gives (λ rest. rest.now) result (semicolon_at text.now last tokens.now) }
{
    match next(tokens) {
        Some((first, rest)) if is_sign(text, first, b";") => Ok(rest),
        _ => Err(fault_at(FaultKind::MissingSemicolon, last)),
    }
}

/// Any word.
pub fn name_at<'a>(text: &[u8], tokens: &'a [Token]) -> Result<(Token, &'a [Token]), Fault>
    requires { length text.now ≤ 1048576 }
    ensures { Gives at_rest result (name_at text.now tokens.now) }
{
    let Some((first, rest)) = next(tokens) else {
        return Err(end_fault(text));
    };
    if matches!(first.kind, TokenKind::Word) {
        Ok((first, rest))
    } else {
        Err(unfit(text, first))
    }
}

/// The value of a number's digits, cut off at 2 ^ 32.
pub fn number_of(text: &[u8], token: Token) -> u64
    ensures exact { result ≡ number_of text.now token }
    ensures within { result ≤ CEILING }
{
    value_of(10, spelling(text, token))
}

/// A number without a sign.
pub fn number_at<'a>(text: &[u8], tokens: &'a [Token]) -> Result<(u64, Token, &'a [Token]), Fault>
    requires { length text.now ≤ 1048576 }
    ensures exact { Gives seen result (number_at text.now tokens.now) }
    ensures within { IfOk result (λ x. x.0 ≤ CEILING) }
{
    let Some((first, rest)) = next(tokens) else {
        return Err(end_fault(text));
    };
    if matches!(first.kind, TokenKind::Number) {
        Ok((number_of(text, first), first, rest))
    } else {
        Err(unfit(text, first))
    }
}

/// A number behind its sign.
#[tactic(auto, unfolding(crate::specs::Steps::signed_at))]
fn signed_at<'a>(
    text: &[u8],
    negative: bool,
    first: Token,
    tokens: &'a [Token],
) -> Result<(SignedNumber, &'a [Token]), Fault>
    requires { length text.now ≤ 1048576 }
    ensures exact { Gives at_rest result (signed_at text.now negative first tokens.now) }
    ensures within { IfOk result (λ x. x.0.magnitude ≤ CEILING) }
{
    let (magnitude, last, rest) = number_at(text, tokens)?;
    Ok((
        SignedNumber {
            negative,
            magnitude,
            first,
            last,
        },
        rest,
    ))
}

/// A number with a sign or without one.
#[tactic(auto, unfolding(crate::specs::Steps::integer_at))]
pub fn integer_at<'a>(
    text: &[u8],
    tokens: &'a [Token],
) -> Result<(SignedNumber, &'a [Token]), Fault>
    requires { length text.now ≤ 1048576 }
    ensures exact { Gives at_rest result (integer_at text.now tokens.now) }
    ensures within { IfOk result (λ x. x.0.magnitude ≤ CEILING) }
{
    let Some((first, rest)) = next(tokens) else {
        return Err(end_fault(text));
    };
    if is_sign(text, first, b"-") {
        signed_at(text, true, first, rest)
    } else if is_sign(text, first, b"+") {
        signed_at(text, false, first, rest)
    } else {
        signed_at(text, false, first, tokens)
    }
}

/// This word, where it stands there.
pub fn maybe_word_at<'a>(
    text: &[u8],
    word: &[u8],
    tokens: &'a [Token],
) -> Option<(Token, &'a [Token])>
    ensures { option_map at_rest result ≡ maybe_word_at text.now word.now tokens.now }
{
    match next(tokens) {
        Some((first, rest)) if is_word(text, first, word) => Some((first, rest)),
        _ => None,
    }
}

/// This sign, where it stands there.
pub fn maybe_sign_at<'a>(
    text: &[u8],
    sign: &[u8],
    tokens: &'a [Token],
) -> Option<(Token, &'a [Token])>
    ensures { option_map at_rest result ≡ maybe_sign_at text.now sign.now tokens.now }
{
    match next(tokens) {
        Some((first, rest)) if is_sign(text, first, sign) => Some((first, rest)),
        _ => None,
    }
}
