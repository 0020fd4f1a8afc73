//! Tokens and lists of them.
ghost use Rattle.std.specs.Prelude.{◌≡◌};

use crate::piece::TokenKind;
use std::marker::Model;

/// A token is the bytes from index `from` up to and without index `to` of the text. Line and column are
/// those of its first byte and count from 1.
#[derive(Clone, Copy, Debug, PartialEq, Eq)]
pub struct Token {
    pub kind: TokenKind,
    pub from: u32,
    pub to: u32,
    pub line: u32,
    pub column: u32,
}

/// The tokens of a text, in order.
#[derive(Drop)]
pub struct Tokens {
    list: Vec<Token>,
}

impl Model for Tokens {
    ghost use Rattle.std.specs.Prelude.{List};
    ghost use Rattle.stl_lex.specs.declared.token.Token.{Token};

    ghost Value = { List Token };

    ghost view = { λ t. t.list.items };
}

impl Tokens {
    pub(crate) fn new(list: Vec<Token>) -> Self
        ensures { result ≡ list.items }
    {
        Tokens { list }
    }

    /// The tokens as a slice.
    pub fn as_slice(&self) -> &[Token]
        ensures { result.now ≡ self.now }
    {
        self.list.as_slice()
    }
}
