//! The tokens of a text.
ghost use Rattle.std.specs.Prelude.{◌≡◌, ◌≤◌, ◌<◌, ◌+◌, ◌^◌, length, IfOk, List};
ghost use Rattle.stl_lex.specs.Pieces.{begun};
ghost use Rattle.stl_lex.specs.Tokens.{text_tokens, Gives, Keeps, kind_number};
ghost use Rattle.stl_lex.specs.Spans.{AreSpans};
ghost use Rattle.stl_lex.specs.Faults.{Judges, text_faults};

use crate::fault::{LoadFault, TokenFault};
use crate::piece::{Form, Piece, piece_at};
use crate::place::Place;
use crate::token::{Token, Tokens};
use std::alloc::Global;
use thiserror::Error;

/// Why a text has no tokens.
#[derive(Clone, Copy, Debug, PartialEq, Eq, Error)]
pub enum LexError {
    /// The text is refused.
    #[error("line {}: fault {}", .0.line, .0.kind)]
    Fault(LoadFault),
    /// Memory ran out.
    #[error("out of memory")]
    NoMemory,
}

/// The number of a fault's kind.
fn kind_number(fault: TokenFault) -> u8
    ensures { result ≡ kind_number fault }
{
    match fault {
        TokenFault::BadByte => 1,
        TokenFault::BadNumber => 2,
        TokenFault::OutOfRange => 3,
        TokenFault::UnclosedComment => 4,
    }
}

/// Keeps a token; a gap is passed over.
fn keep(tokens: &mut Vec<Token>, place: Place, piece: Piece) -> Result<(), LexError>
    requires { place.at + piece.length < 2 ^ 32 }
    ensures keeps { Keeps result tokens.old.items place piece tokens.new.items }
    ensures count { length tokens.new.items ≤ length tokens.old.items + 1 }
{
    match piece.form {
        Form::Gap => Ok(()),
        Form::Lexeme(kind) => {
            let token = Token {
                kind,
                from: place.at,
                to: place.at + piece.length as u32,
                line: place.line,
                column: place.column,
            };
            tokens.push(token).map_err(|_| LexError::NoMemory)
        }
        Form::Bad(fault) => Err(LexError::Fault(LoadFault {
            kind: kind_number(fault),
            line: place.line,
        })),
    }
}

/// Behind the beginning of a token its line is opened.
fn begun(place: Place, form: Form) -> Place
    ensures exact { result ≡ begun place form }
    ensures at { result.at ≡ place.at }
    ensures line { result.line ≡ place.line }
    ensures column { result.column ≡ place.column }
{
    match form {
        Form::Lexeme(_) => Place {
            at: place.at,
            line: place.line,
            column: place.column,
            opens_line: false,
        },
        Form::Gap | Form::Bad(_) => place,
    }
}

/// Reads the text piece by piece.
fn read(alloc: Global, text: &[u8]) -> Result<Tokens, LexError>
    requires { length text.now ≤ 1048576 }
    ensures exact { Gives result (text_tokens text.now) }
    ensures count { IfOk result (λ ts. length ts ≤ length text.now) }
{
    let mut list = Vec::new(alloc);
    let mut place = Place::START;
    let mut rest = text;
    while !rest.is_empty() {
        let piece = piece_at(place.opens_line, rest);
        let (front, after) = rest.split_at(piece.length);
        keep(&mut list, place, piece)?;
        place = begun(place, piece.form).over(front);
        rest = after;
    }
    Ok(Tokens::new(list))
}

/// The tokens of the text, or its first fault: the kinds 1 to 4, that of the least line, then of the least
/// column, then of the lowest kind. The text has at most 1,048,576 bytes.
///
/// # Errors
///
/// `Fault` where a part of the text is no token, no blank, no line end and no comment; `NoMemory` where
/// memory runs out.
pub fn tokens(alloc: Global, text: &[u8]) -> Result<Tokens, LexError>
    requires { length text.now ≤ 1048576 }
    // The longest-first reading of the text, piece by piece.
    ensures exact { Gives result (text_tokens text.now) }
    // Spans in order, and only blanks, line ends and comments around them.
    ensures spans { IfOk result (λ ts. AreSpans 0 text.now ts) }
    // Tokens where no part is at fault, and else the first of all faults.
    ensures first { Judges result (text_faults text.now) }
    ensures count { IfOk result (λ ts. length ts ≤ length text.now) }
{
    read(alloc, text)
}
