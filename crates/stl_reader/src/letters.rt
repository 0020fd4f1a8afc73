//! The first letters of words, by which their rows are found in the tables.
ghost use Rattle.std.specs.Prelude.{◌≡◌, slice_get, slice_index};
ghost use Rattle.stl_lex.specs.Bytes.{spells, letters_of};
ghost use Rattle.stl_reader.specs.Letters.{are_alike, numbers_like, read_at};

use instruction_set::InstructionRow;
use stl_lex::{letters_of, spells};

/// The numbers of the rows of the instruction set in groups, by the last five bits of the first letters. In a group
/// they rise.
const NUMBERS: [u8; 128] = [
    // A
    0, 1, 7, 8, 70, 73, // B
    53, 55, 122, 123, 124, 127, // C
    19, 35, 36, 108, 109, 113, 114, 115, 116, 117, 120, 121, // D
    38, 56, // E
    32, // F
    21, 22, 107, 110, // ) and I
    13, 26, 37, 51, 52, 54, 57, // * and J
    42, 46, 84, 85, 86, 87, 88, 89, 90, 91, 92, 93, 94, 95, 96, 97, 98, 99, 100, // +
    39, 40, 44, // L
    27, 29, 33, 101, // - and M
    23, 24, 25, 41, 45, 48, // N
    17, 49, 50, 125, 126, // / and O
    2, 3, 6, 9, 10, 43, 47, 71, 74, 111, 112, // P
    30, 31, // R
    16, 82, 83, // S
    15, 18, 20, 76, 77, 78, 79, 80, 81, 102, 103, 104, 105, 106, // T
    28, 34, // U
    118, 119, // X
    4, 5, 11, 12, 72, 75, // <
    59, 61, 63, 65, 67, 69, // =
    14, 58, 64, // >
    60, 62, 66, 68,
];

/// Where each of the 32 groups begins; the last number is the end of the last group.
const STARTS: [u8; 33] = [
    0, 0, 6, 12, 24, 26, 27, 31, 31, 31, 38, 57, 60, 64, 70, 75, 86, 88, 88, 91, 105, 107, 109,
    109, 109, 115, 115, 115, 115, 121, 124, 128, 128,
];

/// Whether two letters have the same last five bits, as a large letter and its small one.
fn are_alike(a: u8, b: u8) -> bool
    ensures { result ≡ are_alike a b }
{
    a % 32 == b % 32
}

/// The first letter of a word, or 0 where it has none.
pub fn first_letter(word: &[u8]) -> u8
    ensures { result ≡ slice_index word.now 0 }
{
    if 0 < word.len() { word[0] } else { 0 }
}

/// Whether the letters of a row, zero-padded, spell the word, in large or small letters.
#[tactic(auto, using(crate::proofs::FirstLetters::unlike_apart))]
pub fn is_named(padded: &[u8], word: &[u8]) -> bool
    ensures { result ≡ spells (letters_of padded.now) word.now }
{
    if !are_alike(first_letter(padded), first_letter(word)) {
        return false;
    }
    spells(letters_of(padded), word)
}

/// The numbers of the rows of the instruction set whose mnemonic begins with a letter that is like this, in rising
/// order.
pub fn numbers_like(letter: u8) -> &'static [u8]
    ensures { result.now ≡ numbers_like letter }
{
    let group = (letter % 32) as usize;
    let start = STARTS[group] as usize;
    let end = STARTS[group + 1] as usize;
    &NUMBERS[start..end]
}

/// The row of this number.
pub fn row_at(rows: &[InstructionRow], number: u8) -> Option<InstructionRow>
    ensures { result ≡ slice_get rows.now number }
{
    rows.get(usize::from(number)).copied()
}

/// The row of this number, where there is a number.
pub fn read_at(rows: &[InstructionRow], number: Option<u8>) -> Option<InstructionRow>
    ensures { result ≡ read_at rows.now number }
{
    match number {
        Some(number) => row_at(rows, number),
        None => None,
    }
}
