//! The heads of blocks.
ghost use Rattle.std.specs.Prelude.{◌≡◌, ◌≤◌, length};
ghost use Rattle.std.specs.Option.{option_map};
ghost use Rattle.stl_decl.specs.Steps.{Gives, at_rest};
ghost use Rattle.block_loader.specs.Heads.{kind_of, kind_at, kind_word, numbered, type_at, result_at, heading_at, owner_at, version_at, is_owner, is_plain_head, entry_at, head_at, heads_at};

use s7_base::{CodeKind, is_ob};
use stl_decl::{
    Fault, FaultKind, end_fault, fault_at, is_word, next, number_at, sign_at, unfit, word_at,
};
use stl_lex::{Token, TokenKind};

/// The kinds of blocks.
#[derive(Clone, Copy, Debug, PartialEq, Eq)]
pub enum BlockKind {
    /// A block of statements.
    Code(CodeKind),
    /// A data block.
    Data,
}

/// A block's kind and number, and the line and the column that its head begins at.
#[derive(Clone, Copy, Debug, PartialEq, Eq)]
pub struct Heading {
    pub kind: BlockKind,
    pub number: u8,
    pub line: u32,
    pub column: u32,
}

/// The kind of block that a word begins.
#[tactic(auto, unfolding(crate::specs::Heads::kind_of))]
fn kind_of(text: &[u8], token: Token) -> Option<BlockKind>
    ensures { result ≡ kind_of text.now token }
{
    if is_word(text, token, b"ORGANIZATION_BLOCK") {
        Some(BlockKind::Code(CodeKind::Ob))
    } else if is_word(text, token, b"FUNCTION_BLOCK") {
        Some(BlockKind::Code(CodeKind::Fb))
    } else if is_word(text, token, b"FUNCTION") {
        Some(BlockKind::Code(CodeKind::Fc))
    } else if is_word(text, token, b"DATA_BLOCK") {
        Some(BlockKind::Data)
    } else {
        None
    }
}

/// The word that a block begins with, and its kind.
fn kind_at<'a>(text: &[u8], tokens: &'a [Token]) -> Result<(BlockKind, Token, &'a [Token]), Fault>
    requires { length text.now ≤ 1048576 }
    ensures { Gives (λ x. (x.0, x.1, x.2.now)) result (kind_at text.now tokens.now) }
{
    let Some((first, rest)) = next(tokens) else {
        return Err(end_fault(text));
    };
    match kind_of(text, first) {
        Some(kind) => Ok((kind, first, rest)),
        None => Err(unfit(text, first)),
    }
}

/// The word before a block's number.
fn kind_word(kind: BlockKind) -> &'static [u8]
    ensures { result.now ≡ kind_word kind }
{
    match kind {
        BlockKind::Code(CodeKind::Ob) => b"OB",
        BlockKind::Code(CodeKind::Fb) => b"FB",
        BlockKind::Code(CodeKind::Fc) => b"FC",
        BlockKind::Data => b"DB",
    }
}

/// The number, where a block of the kind may have it. An organisation block of another number is left out of the
/// language.
fn numbered(kind: BlockKind, number: u64, token: Token) -> Result<u8, Fault>
    ensures { result ≡ numbered kind number token }
{
    match kind {
        BlockKind::Code(CodeKind::Ob) => {
            if number <= 255 && is_ob(number as u8) {
                Ok(number as u8)
            } else {
                Err(fault_at(FaultKind::OutOfScope, token))
            }
        }
        BlockKind::Code(_) => {
            if number <= 255 {
                Ok(number as u8)
            } else {
                Err(fault_at(FaultKind::BadOperand, token))
            }
        }
        BlockKind::Data => {
            if 1 <= number && number <= 255 {
                Ok(number as u8)
            } else {
                Err(fault_at(FaultKind::BadOperand, token))
            }
        }
    }
}

/// The type of a function's result: VOID.
fn type_at<'a>(text: &[u8], tokens: &'a [Token]) -> Result<(Token, &'a [Token]), Fault>
    requires { length text.now ≤ 1048576 }
    ensures { Gives at_rest result (type_at text.now tokens.now) }
{
    let Some((first, rest)) = next(tokens) else {
        return Err(end_fault(text));
    };
    if is_word(text, first, b"VOID") {
        Ok((first, rest))
    } else if is_word(text, first, b"REAL") {
        Err(fault_at(FaultKind::RealType, first))
    } else if matches!(first.kind, TokenKind::Word) {
        Err(fault_at(FaultKind::OutOfScope, first))
    } else {
        Err(unfit(text, first))
    }
}

/// ":" "VOID" behind a function's number.
#[tactic(auto, unfolding(crate::specs::Heads::result_at))]
fn result_at<'a>(text: &[u8], kind: BlockKind, tokens: &'a [Token]) -> Result<&'a [Token], Fault>
    requires { length text.now ≤ 1048576 }
    ensures { Gives (λ rest. rest.now) result (result_at text.now kind tokens.now) }
{
    match kind {
        BlockKind::Code(CodeKind::Fc) => {
            let (_, rest) = sign_at(text, b":", tokens)?;
            let (_, rest) = type_at(text, rest)?;
            Ok(rest)
        }
        _ => Ok(tokens),
    }
}

/// "ORGANIZATION_BLOCK" "OB" n | "FUNCTION_BLOCK" "FB" n | "FUNCTION" "FC" n ":" "VOID" | "DATA_BLOCK" "DB" n
#[tactic(auto, unfolding(crate::specs::Heads::heading_at))]
pub fn heading_at<'a>(text: &[u8], tokens: &'a [Token]) -> Result<(Heading, &'a [Token]), Fault>
    requires { length text.now ≤ 1048576 }
    ensures { Gives at_rest result (heading_at text.now tokens.now) }
{
    let (kind, first, rest) = kind_at(text, tokens)?;
    let (_, rest) = word_at(text, kind_word(kind), rest)?;
    let (number, last, rest) = number_at(text, rest)?;
    let number = numbered(kind, number, last)?;
    let rest = result_at(text, kind, rest)?;
    Ok((
        Heading {
            kind,
            number,
            line: first.line,
            column: first.column,
        },
        rest,
    ))
}

/// A word or characters.
fn owner_at<'a>(text: &[u8], tokens: &'a [Token]) -> Result<(Token, &'a [Token]), Fault>
    requires { length text.now ≤ 1048576 }
    ensures { Gives at_rest result (owner_at text.now tokens.now) }
{
    let Some((first, rest)) = next(tokens) else {
        return Err(end_fault(text));
    };
    if matches!(first.kind, TokenKind::Word | TokenKind::Characters) {
        Ok((first, rest))
    } else {
        Err(unfit(text, first))
    }
}

/// Whether this is AUTHOR, FAMILY or NAME.
#[tactic(auto, unfolding(crate::specs::Heads::is_owner))]
fn is_owner(text: &[u8], token: Token) -> bool
    ensures { result ≡ is_owner text.now token }
{
    is_word(text, token, b"AUTHOR")
        || is_word(text, token, b"FAMILY")
        || is_word(text, token, b"NAME")
}

/// Whether this is a head of one token: a title, an attribute or KNOW_HOW_PROTECT.
#[tactic(auto, unfolding(crate::specs::Heads::is_plain_head))]
fn is_plain_head(text: &[u8], token: Token) -> bool
    ensures { result ≡ is_plain_head text.now token }
{
    matches!(token.kind, TokenKind::Title | TokenKind::Attribute)
        || is_word(text, token, b"KNOW_HOW_PROTECT")
}

/// ":" (word | characters)
#[tactic(auto, unfolding(crate::specs::Heads::entry_at))]
fn entry_at<'a>(text: &[u8], tokens: &'a [Token]) -> Result<&'a [Token], Fault>
    requires { length text.now ≤ 1048576 }
    ensures { Gives (λ rest. rest.now) result (entry_at text.now tokens.now) }
{
    let (_, rest) = sign_at(text, b":", tokens)?;
    let (_, rest) = owner_at(text, rest)?;
    Ok(rest)
}

/// ":" n "." n
#[tactic(auto, unfolding(crate::specs::Heads::version_at))]
fn version_at<'a>(text: &[u8], tokens: &'a [Token]) -> Result<&'a [Token], Fault>
    requires { length text.now ≤ 1048576 }
    ensures { Gives (λ rest. rest.now) result (version_at text.now tokens.now) }
{
    let (_, rest) = sign_at(text, b":", tokens)?;
    let (_, _, rest) = number_at(text, rest)?;
    let (_, rest) = sign_at(text, b".", rest)?;
    let (_, _, rest) = number_at(text, rest)?;
    Ok(rest)
}

/// What stands behind one head; None where none stands there.
#[tactic(auto, unfolding(crate::specs::Heads::head_at))]
fn head_at<'a>(text: &[u8], tokens: &'a [Token]) -> Result<Option<&'a [Token]>, Fault>
    requires { length text.now ≤ 1048576 }
    ensures { Gives (λ o. option_map (λ rest. rest.now) o) result (head_at text.now tokens.now) }
{
    let Some((first, rest)) = next(tokens) else {
        return Ok(None);
    };
    if is_plain_head(text, first) {
        return Ok(Some(rest));
    }
    if is_owner(text, first) {
        let after = entry_at(text, rest)?;
        return Ok(Some(after));
    }
    if is_word(text, first, b"VERSION") {
        let after = version_at(text, rest)?;
        return Ok(Some(after));
    }
    Ok(None)
}

/// { head }
pub fn heads_at<'a>(text: &[u8], turns: usize, tokens: &'a [Token]) -> Result<&'a [Token], Fault>
    requires { length text.now ≤ 1048576 }
    ensures { Gives (λ rest. rest.now) result (heads_at turns text.now tokens.now) }
{
    let mut rest = tokens;
    for _turn in 0..turns {
        let found = head_at(text, rest)?;
        let Some(after) = found else {
            return Ok(rest);
        };
        rest = after;
    }
    Err(end_fault(text))
}
