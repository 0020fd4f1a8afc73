//! Runs of letters, digits, `_` and `#`: local names, words, numbers, real parts and literals.
ghost use Rattle.std.specs.Prelude.{◌≡◌, ◌<◌, ◌≤◌, ◌+◌, true, length, slice_index};
ghost use Rattle.stl_lex.specs.Bytes.{is_run_byte};
ghost use Rattle.stl_lex.specs.Runs.{is_mantissa, takes_sign, run_length, is_exponent, is_real_part, digits_form, run_form};

use crate::bytes::{ByteClass, after, begins, byte_at, front_length, is_plus_or_minus, spells};
use crate::literals::{literal_form, numeral_form, unsigned};
use crate::numerals::{is_numeral, number_length};
use crate::piece::{Form, TokenKind};

/// Digits and E.
fn is_mantissa(head: &[u8]) -> bool
    ensures { result ≡ is_mantissa head.now }
{
    let (digits, rest) = head.split_at(number_length(head));
    is_numeral(10, digits) && spells(b"E", rest)
}

/// Whether a sign behind the head belongs to the run.
fn takes_sign(head: &[u8], rest: &[u8]) -> bool
    ensures exact { result ≡ takes_sign head.now rest.now }
    ensures some { result ≡ true → 0 < length rest.now }
{
    is_plus_or_minus(byte_at(rest, 0))
        && (spells(b"L#", head)
            || spells(b"T#", head)
            || (is_mantissa(head) && byte_at(rest, 1).is_ascii_digit()))
}

/// How long the run at the front is, with the sign that belongs to it and what stands behind that sign.
pub fn run_length(bytes: &[u8]) -> usize
    ensures exact { result ≡ run_length bytes.now }
    ensures within { result ≤ length bytes.now }
    ensures some { 0 < length bytes.now → is_run_byte (slice_index bytes.now 0) ≡ true → 0 < result }
{
    let n = front_length(ByteClass::Run, bytes);
    let (head, rest) = bytes.split_at(n);
    if takes_sign(head, rest) {
        n + 1 + front_length(ByteClass::Run, after(1, rest))
    } else {
        n
    }
}

/// Nothing, or digits with or without a sign.
fn is_exponent(bytes: &[u8]) -> bool
    ensures { result ≡ is_exponent bytes.now }
{
    bytes.is_empty() || is_numeral(10, unsigned(bytes))
}

/// Digits, E and an exponent.
fn is_real_part(run: &[u8]) -> bool
    ensures { result ≡ is_real_part run.now }
{
    let (digits, rest) = run.split_at(number_length(run));
    is_numeral(10, digits) && begins(b"E", rest) && is_exponent(after(1, rest))
}

/// What a run that begins with a digit is.
fn digits_form(run: &[u8]) -> Form
    ensures { result ≡ digits_form run.now }
{
    if is_real_part(run) {
        Form::Lexeme(TokenKind::RealPart)
    } else {
        numeral_form(TokenKind::Number, 10, 4_294_967_295, run)
    }
}

/// What a run is.
#[tactic(auto, unfolding(crate::specs::Runs::run_form))]
pub fn run_form(run: &[u8]) -> Form
    ensures { result ≡ run_form run.now }
{
    let first = byte_at(run, 0);
    if first == b'#' {
        Form::Lexeme(TokenKind::Local)
    } else if run.contains(&b'#') {
        literal_form(run)
    } else if first.is_ascii_digit() {
        digits_form(run)
    } else {
        Form::Lexeme(TokenKind::Word)
    }
}
