//! Mnemonics: the longest run of adjacent tokens that is one.
ghost use Rattle.std.specs.Prelude.{◌≡◌, ◌≤◌, length, slice_get};
ghost use Rattle.std.specs.List.{find};
ghost use Rattle.std.specs.Option.{option_map};
ghost use Rattle.stl_decl.specs.Steps.{Gives, seen, spelling};
ghost use Rattle.stl_reader.specs.Letters.{passes};
ghost use Rattle.stl_reader.specs.Searches.{row_spells};
ghost use Rattle.stl_reader.specs.Mnemonics.{row_named, refused_named, refusal_by, meaning_of, pair_at, one_at, run_at, meant, mnemonic_at};

use crate::letters::{first_letter, is_named, numbers_like, read_at, row_at};
use instruction_set::{InstructionRow, instruction_set};
use stl_decl::{Fault, FaultKind, end_fault, fault_at, next, spelling};
use stl_lex::Token;

/// An instruction that is known and not of the language: its mnemonic, filled up with zeros, and its fault.
#[derive(Clone, Copy, Debug, PartialEq, Eq)]
pub struct RefusedInstruction {
    pub mnemonic: [u8; 5],
    pub fault: FaultKind,
}

macro_rules! refused {
    ($($mnemonic:literal $fault:ident;)*) => {
        [$(RefusedInstruction {
            mnemonic: *$mnemonic,
            fault: FaultKind::$fault,
        }),*]
    };
}

const REFUSED: [RefusedInstruction; 36] = refused! {
    b"+R\0\0\0" RealInstruction;
    b"-R\0\0\0" RealInstruction;
    b"*R\0\0\0" RealInstruction;
    b"/R\0\0\0" RealInstruction;
    b"==R\0\0" RealInstruction;
    b"<>R\0\0" RealInstruction;
    b">R\0\0\0" RealInstruction;
    b"<R\0\0\0" RealInstruction;
    b">=R\0\0" RealInstruction;
    b"<=R\0\0" RealInstruction;
    b"NEGR\0" RealInstruction;
    b"ABS\0\0" RealInstruction;
    b"SQR\0\0" RealInstruction;
    b"SQRT\0" RealInstruction;
    b"EXP\0\0" RealInstruction;
    b"LN\0\0\0" RealInstruction;
    b"SIN\0\0" RealInstruction;
    b"COS\0\0" RealInstruction;
    b"TAN\0\0" RealInstruction;
    b"ASIN\0" RealInstruction;
    b"ACOS\0" RealInstruction;
    b"ATAN\0" RealInstruction;
    b"DTR\0\0" RealInstruction;
    b"RND\0\0" RealInstruction;
    b"RND+\0" RealInstruction;
    b"RND-\0" RealInstruction;
    b"TRUNC" RealInstruction;
    b"LAR1\0" OutOfScope;
    b"LAR2\0" OutOfScope;
    b"TAR1\0" OutOfScope;
    b"TAR2\0" OutOfScope;
    b"CAR\0\0" OutOfScope;
    b"+AR1\0" OutOfScope;
    b"+AR2\0" OutOfScope;
    b"RLDA\0" OutOfScope;
    b"RRDA\0" OutOfScope;
};

/// What the words at the front of a statement mean.
#[derive(Clone, Copy, Debug, PartialEq, Eq)]
pub enum Meaning {
    /// A mnemonic, in the letters of the instruction set.
    Mnemonic([u8; 5]),
    /// An instruction that is refused by this fault.
    Refused(FaultKind),
}

/// Whether the row of this number has the mnemonic.
fn is_named_at(rows: &[InstructionRow], number: u8, word: &[u8]) -> bool
    ensures { result ≡ passes (row_spells word.now) (slice_get rows.now number) }
{
    match row_at(rows, number) {
        Some(row) => is_named(row.mnemonic.as_slice(), word),
        None => false,
    }
}

/// The first of these numbers whose row has the mnemonic.
fn number_named(rows: &[InstructionRow], numbers: &[u8], word: &[u8]) -> Option<u8>
    ensures { result ≡ find (λ n. passes (row_spells word.now) (slice_get rows.now n)) numbers.now }
{
    numbers
        .iter()
        .copied()
        .find(|number| is_named_at(rows, *number, word))
}

/// The first row of the instruction set with the mnemonic.
fn row_named(word: &[u8]) -> Option<InstructionRow>
    ensures { result ≡ row_named word.now }
{
    let rows = instruction_set();
    let number = number_named(rows, numbers_like(first_letter(word)), word);
    read_at(rows, number)
}

/// The row of an instruction that is refused.
#[tactic(auto, unfolding(crate::specs::Mnemonics::refused_named))]
fn refused_named(word: &[u8]) -> Option<RefusedInstruction>
    ensures { result ≡ refused_named word.now }
{
    REFUSED
        .iter()
        .copied()
        .find(|row| is_named(row.mnemonic.as_slice(), word))
}

fn refusal_of(word: &[u8]) -> Option<Meaning>
    ensures { result ≡ refusal_by (refused_named word.now) }
{
    match refused_named(word) {
        Some(row) => Some(Meaning::Refused(row.fault)),
        None => None,
    }
}

/// What a word means where an instruction stands.
fn meaning_of(word: &[u8]) -> Option<Meaning>
    ensures { result ≡ meaning_of word.now }
{
    match row_named(word) {
        Some(row) => Some(Meaning::Mnemonic(row.mnemonic)),
        None => refusal_of(word),
    }
}

/// The bytes from the first token to the end of the second.
fn joined<'a>(text: &'a [u8], first: Token, second: Token) -> &'a [u8]
    ensures { result.now ≡ spelling text.now (record first { to = second.to }) }
{
    spelling(
        text,
        Token {
            to: second.to,
            ..first
        },
    )
}

/// Two adjacent tokens that mean something together.
fn pair_at<'a>(text: &[u8], tokens: &'a [Token]) -> Option<(Meaning, Token, &'a [Token])>
    ensures { option_map seen result ≡ pair_at text.now tokens.now }
{
    let (first, rest) = next(tokens)?;
    let (second, after) = next(rest)?;
    if first.to != second.from {
        return None;
    }
    let meaning = meaning_of(joined(text, first, second))?;
    Some((meaning, second, after))
}

fn one_at<'a>(text: &[u8], tokens: &'a [Token]) -> Option<(Meaning, Token, &'a [Token])>
    ensures { option_map seen result ≡ one_at text.now tokens.now }
{
    let (first, rest) = next(tokens)?;
    let meaning = meaning_of(spelling(text, first))?;
    Some((meaning, first, rest))
}

#[tactic(auto, unfolding(crate::specs::Mnemonics::run_at))]
/// The longest run of adjacent tokens that means something: no instruction has more than two.
fn run_at<'a>(text: &[u8], tokens: &'a [Token]) -> Option<(Meaning, Token, &'a [Token])>
    ensures { option_map seen result ≡ run_at text.now tokens.now }
{
    match pair_at(text, tokens) {
        Some(found) => Some(found),
        None => one_at(text, tokens),
    }
}

fn meant<'a>(
    first: Token,
    meaning: Meaning,
    last: Token,
    rest: &'a [Token],
) -> Result<([u8; 5], Token, &'a [Token]), Fault>
    ensures { Gives seen result (meant first meaning last rest.now) }
{
    match meaning {
        Meaning::Mnemonic(mnemonic) => Ok((mnemonic, last, rest)),
        Meaning::Refused(fault) => Err(fault_at(fault, first)),
    }
}

/// The mnemonic that a statement begins with.
pub fn mnemonic_at<'a>(
    text: &[u8],
    tokens: &'a [Token],
) -> Result<([u8; 5], Token, &'a [Token]), Fault>
    requires { length text.now ≤ 1048576 }
    ensures { Gives seen result (mnemonic_at text.now tokens.now) }
{
    let Some((first, _)) = next(tokens) else {
        return Err(end_fault(text));
    };
    match run_at(text, tokens) {
        Some((meaning, last, rest)) => meant(first, meaning, last, rest),
        None => Err(fault_at(FaultKind::UnknownInstruction, first)),
    }
}
