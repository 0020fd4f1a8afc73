//! What stands at the front of a text.
ghost use Rattle.std.specs.Prelude.{◌≡◌, ◌<◌, ◌≤◌, ◌+◌, true, false, length, slice_index, IfSome};
ghost use Rattle.stl_lex.specs.Bytes.{is_run_byte};
ghost use Rattle.stl_lex.specs.Pieces.{gap, lexeme, bad, closes_at, comment, is_title, line_length, attribute, characters, run, piece};

use crate::bytes::{
    ByteClass, after, begins, byte_at, front_length, is_blank, is_double_sign, is_run_byte, is_sign,
};
use crate::fault::TokenFault;
use crate::runs::{run_form, run_length};

/// The kinds of tokens.
#[derive(Clone, Copy, Debug, PartialEq, Eq)]
pub enum TokenKind {
    /// `TITLE`, blanks and `=` as the first of a line, and all that follows on it.
    Title,
    /// `{` to the next `}` on its line.
    Attribute,
    /// Letters, digits and `_`, no digit first.
    Word,
    /// `#` and what follows of letters, digits, `_` and `#`.
    Local,
    /// Digits, up to 4,294,967,295.
    Number,
    /// A run with `#` inside, as `W#16#FF`.
    Literal,
    /// Digits, `E`, and perhaps a sign and digits.
    RealPart,
    /// One to four characters between quotes.
    Characters,
    /// A sign, as `:=` or `;`.
    Sign,
}

/// What a piece of a text is: blanks or a comment, a token, or neither.
#[derive(Clone, Copy, Debug, PartialEq, Eq)]
pub enum Form {
    Gap,
    Lexeme(TokenKind),
    Bad(TokenFault),
}

/// A piece of a text: what it is, and how many bytes it has.
#[derive(Clone, Copy, Debug, PartialEq, Eq)]
pub struct Piece {
    pub form: Form,
    pub length: usize,
}

fn gap(length: usize) -> Piece
    ensures { result ≡ gap length }
{
    Piece {
        form: Form::Gap,
        length,
    }
}

fn lexeme(kind: TokenKind, length: usize) -> Piece
    ensures { result ≡ lexeme kind length }
{
    Piece {
        form: Form::Lexeme(kind),
        length,
    }
}

fn bad(fault: TokenFault, length: usize) -> Piece
    ensures { result ≡ bad fault length }
{
    Piece {
        form: Form::Bad(fault),
        length,
    }
}

/// How many bytes there are up to the end of the first `*)`.
fn comment_end(bytes: &[u8]) -> Option<usize>
    ensures exact { result ≡ closes_at 0 false bytes.now }
    ensures within { IfSome result (λ n. n ≤ length bytes.now) }
{
    let mut seen_star = false;
    for (i, byte) in bytes.iter().enumerate() {
        if seen_star && *byte == b')' {
            return Some(i + 1);
        }
        seen_star = *byte == b'*';
    }
    None
}

/// A comment up to its `*)`; without one, it is open.
fn comment(bytes: &[u8]) -> Piece
    requires { 2 ≤ length bytes.now }
    ensures exact { result ≡ comment bytes.now }
    ensures some { 0 < result.length }
    ensures within { result.length ≤ length bytes.now }
{
    match comment_end(&bytes[2..]) {
        Some(n) => gap(n + 2),
        None => bad(TokenFault::UnclosedComment, bytes.len()),
    }
}

/// Whether TITLE, blanks and `=` stand at the front.
fn is_title(bytes: &[u8]) -> bool
    ensures exact { result ≡ is_title bytes.now }
    ensures within { result ≡ true → 5 ≤ length bytes.now }
{
    let rest = after(5, bytes);
    let blanks = front_length(ByteClass::Blank, rest);
    begins(b"TITLE", bytes) && 0 < blanks && byte_at(rest, blanks) == b'='
}

/// How many bytes there are up to the line feed, n bytes being read.
fn line_length(n: usize, bytes: &[u8]) -> usize
    requires { n ≤ length bytes.now }
    ensures exact { result ≡ line_length n bytes.now }
    ensures some { n ≤ result }
    ensures within { result ≤ length bytes.now }
{
    n + front_length(ByteClass::Line, after(n, bytes))
}

/// `{` and `}` with no line feed between them.
fn attribute(bytes: &[u8]) -> Piece
    requires { 0 < length bytes.now }
    ensures exact { result ≡ attribute bytes.now }
    ensures some { 0 < result.length }
    ensures within { result.length ≤ length bytes.now }
{
    let n = front_length(ByteClass::Inside, bytes);
    if byte_at(bytes, n) == b'}' {
        lexeme(TokenKind::Attribute, n + 1)
    } else {
        bad(TokenFault::BadByte, 1)
    }
}

/// One to four characters between quotes.
fn characters(bytes: &[u8]) -> Piece
    requires { 0 < length bytes.now }
    ensures exact { result ≡ characters bytes.now }
    ensures some { 0 < result.length }
    ensures within { result.length ≤ length bytes.now }
{
    let rest = after(1, bytes);
    let n = front_length(ByteClass::Character, rest);
    if 0 < n && n <= 4 && byte_at(rest, n) == b'\'' {
        lexeme(TokenKind::Characters, n + 2)
    } else {
        bad(TokenFault::BadByte, 1)
    }
}

fn run(bytes: &[u8]) -> Piece
    requires some { 0 < length bytes.now }
    requires begins { is_run_byte (slice_index bytes.now 0) ≡ true }
    ensures exact { result ≡ run bytes.now }
    ensures some { 0 < result.length }
    ensures within { result.length ≤ length bytes.now }
{
    let length = run_length(bytes);
    Piece {
        form: run_form(&bytes[..length]),
        length,
    }
}

/// The piece that stands at the front. A title stands only where no token is before it on its line.
#[tactic(auto, unfolding(crate::specs::Pieces::piece))]
pub fn piece_at(opens_line: bool, bytes: &[u8]) -> Piece
    requires { 0 < length bytes.now }
    ensures exact { result ≡ piece opens_line bytes.now }
    ensures some { 0 < result.length }
    ensures within { result.length ≤ length bytes.now }
{
    let first = byte_at(bytes, 0);
    let second = byte_at(bytes, 1);
    if is_blank(first) || first == b'\n' || (first == b'\r' && second == b'\n') {
        gap(1)
    } else if first == b'/' && second == b'/' {
        gap(line_length(2, bytes))
    } else if first == b'(' && second == b'*' {
        comment(bytes)
    } else if opens_line && is_title(bytes) {
        lexeme(TokenKind::Title, line_length(5, bytes))
    } else if first == b'{' {
        attribute(bytes)
    } else if first == b'\'' {
        characters(bytes)
    } else if is_run_byte(first) {
        run(bytes)
    } else if is_double_sign(first, second) {
        lexeme(TokenKind::Sign, 2)
    } else if is_sign(first) {
        lexeme(TokenKind::Sign, 1)
    } else {
        bad(TokenFault::BadByte, 1)
    }
}
