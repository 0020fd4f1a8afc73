//! The pattern of a play by turns.
ghost use Rattle.std.specs.Prelude.{◌≡◌, ◌≤◌, ◌<◌, ◌∷◌, length, is_some, true, IfSome};
ghost use Rattle.std.specs.Option.{option_map};
ghost use Rattle.pair_top.specs.Pattern.{most_letters, most_times, side_of, sides_of, times_of, part_of, pieces, visits_of};
ghost use Rattle.pair_top.specs.PatternView.{part_view, pieces_left};

use plant_script::split_at_byte;
use s7_base::Side;

/// How often the letters of a part are played at most.
const MOST_TIMES: u32 = 1_000_000;

/// How many letters a part has at most.
const MOST_LETTERS: usize = 64;

/// How many visits a pattern orders at most.
const MOST_VISITS: u32 = 4_000_000;

/// A part of a pattern: so often the visits of these letters, each of which is `a` or `b`.
#[derive(Clone, Copy)]
pub struct PatternPart<'a> {
    pub times: u32,
    pub letters: &'a [u8],
}

/// The side that a letter names.
pub fn side_from(letter: u8) -> Option<Side>
    ensures { result ≡ side_of letter }
{
    match letter {
        b'a' => Some(Side::A),
        b'b' => Some(Side::B),
        _ => None,
    }
}

/// Whether the bytes are 1 to 64 letters.
fn are_letters(word: &[u8]) -> bool
    ensures { result ≡ is_some (sides_of word.now) }
{
    if word.is_empty() || word.len() > MOST_LETTERS {
        return false;
    }
    for letter in word {
        if side_from(*letter).is_none() {
            return false;
        }
    }
    true
}

/// The number that decimal digits write, 1 to 1,000,000.
pub fn times_from(digits: &[u8]) -> Option<u32>
    ensures times { result ≡ times_of digits.now }
    ensures few { IfSome result (λ times. times ≤ most_times) }
{
    let mut times = 0;
    for digit in digits {
        if !digit.is_ascii_digit() {
            return None;
        }
        times = 10 * times + u32::from(*digit - b'0');
        if times > MOST_TIMES {
            return None;
        }
    }
    if times == 0 { None } else { Some(times) }
}

/// The part that a piece of a pattern spells.
pub fn part_from(piece: &[u8]) -> Option<PatternPart<'_>>
    ensures part { option_map part_view result ≡ part_of piece.now }
    ensures few { IfSome result (λ part. (part.times ≤ most_times) × (length part.letters.now ≤ most_letters)) }
    ensures letters { IfSome result (λ part. is_some (sides_of part.letters.now) ≡ true) }
{
    let (times, letters) = match split_at_byte(piece, b'*') {
        None => (1, piece),
        Some((digits, letters)) => (times_from(digits)?, letters),
    };
    if are_letters(letters) {
        Some(PatternPart { times, letters })
    } else {
        None
    }
}

/// The first piece of a pattern, and the pattern behind its comma, if there is one.
pub fn first_piece(text: &[u8]) -> (&[u8], Option<&[u8]>)
    ensures pieces { pieces text.now ≡ result.0.now ∷ pieces_left result.1 }
    ensures shorter { IfSome result.1 (λ rest. length rest.now < length text.now) }
{
    match split_at_byte(text, b',') {
        None => (text, None),
        Some((piece, rest)) => (piece, Some(rest)),
    }
}

/// Whether a word is a pattern.
pub fn is_pattern(word: &[u8]) -> bool
    ensures { result ≡ is_some (visits_of word.now) }
{
    let mut visits = 0;
    let mut left = Some(word);
    while let Some(text) = left {
        let (piece, rest) = first_piece(text);
        let Some(part) = part_from(piece) else {
            return false;
        };
        visits += part.times * part.letters.len() as u32;
        if visits > MOST_VISITS {
            return false;
        }
        left = rest;
    }
    true
}
