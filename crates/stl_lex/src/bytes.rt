//! The classes of bytes, and how many of a class stand at the front.
ghost use Rattle.std.specs.Prelude.{◌≡◌, ◌<◌, ◌≤◌, ◌-◌, true, not, length, position, IfSome, slice_index, drop};
ghost use Rattle.stl_lex.specs.Bytes.{is_blank, is_run_byte, is_number_byte, is_character, is_plus_or_minus, is_double_sign, is_sign, is_of, front_length, spells, begins, letters_of};

/// What the bytes at a front have in common.
#[derive(Clone, Copy, Debug, PartialEq, Eq)]
pub enum ByteClass {
    /// A space or a tab.
    Blank,
    /// A letter, a digit, `_` or `#`.
    Run,
    /// A digit or `_`.
    Number,
    /// What may stand between quotes.
    Character,
    /// No digit.
    Undigit,
    /// No line feed.
    Line,
    /// Neither `}` nor a line feed.
    Inside,
    /// No zero.
    Letter,
}

pub fn is_blank(byte: u8) -> bool
    ensures { result ≡ is_blank byte }
{
    byte == b' ' || byte == b'\t'
}

pub fn is_run_byte(byte: u8) -> bool
    ensures { result ≡ is_run_byte byte }
{
    byte.is_ascii_alphanumeric() || byte == b'_' || byte == b'#'
}

fn is_number_byte(byte: u8) -> bool
    ensures { result ≡ is_number_byte byte }
{
    byte.is_ascii_digit() || byte == b'_'
}

fn is_character(byte: u8) -> bool
    ensures { result ≡ is_character byte }
{
    32 <= byte && byte <= 126 && byte != b'\''
}

pub fn is_plus_or_minus(byte: u8) -> bool
    ensures { result ≡ is_plus_or_minus byte }
{
    byte == b'+' || byte == b'-'
}

pub fn is_double_sign(first: u8, second: u8) -> bool
    ensures { result ≡ is_double_sign first second }
{
    (second == b'=' && matches!(first, b':' | b'=' | b'<' | b'>'))
        || (first == b'.' && second == b'.')
        || (first == b'<' && second == b'>')
}

pub fn is_sign(byte: u8) -> bool
    ensures { result ≡ is_sign byte }
{
    b"=<>+-*/();:,.[]\"".contains(&byte)
}

fn is_of(class: ByteClass, byte: u8) -> bool
    ensures { result ≡ is_of class byte }
{
    match class {
        ByteClass::Blank => is_blank(byte),
        ByteClass::Run => is_run_byte(byte),
        ByteClass::Number => is_number_byte(byte),
        ByteClass::Character => is_character(byte),
        ByteClass::Undigit => !byte.is_ascii_digit(),
        ByteClass::Line => byte != b'\n',
        ByteClass::Inside => byte != b'}' && byte != b'\n',
        ByteClass::Letter => byte != 0,
    }
}

/// Where the first byte of another class stands.
fn front_end(class: ByteClass, bytes: &[u8]) -> Option<usize>
    ensures exact { result ≡ position (λ b. not (is_of class b)) bytes.now }
    ensures within { IfSome result (λ n. n < length bytes.now) }
{
    bytes.iter().position(|byte| !is_of(class, *byte))
}

/// How many bytes of the class stand at the front.
#[tactic(auto, using(crate::proofs::Fronts::front_some))]
pub fn front_length(class: ByteClass, bytes: &[u8]) -> usize
    ensures exact { result ≡ front_length class bytes.now }
    ensures within { result ≤ length bytes.now }
    ensures some { 0 < length bytes.now → is_of class (slice_index bytes.now 0) ≡ true → 0 < result }
{
    front_end(class, bytes).unwrap_or(bytes.len())
}

/// Whether these letters, large or small, are the word.
pub fn spells(letters: &[u8], word: &[u8]) -> bool
    ensures { result ≡ spells letters.now word.now }
{
    letters.eq_ignore_ascii_case(word)
}

/// Whether the bytes begin with these letters, large or small.
pub fn begins(letters: &[u8], bytes: &[u8]) -> bool
    ensures { result ≡ begins letters.now bytes.now }
{
    spells(letters, &bytes[..letters.len().min(bytes.len())])
}

/// The letters of a row of a table, without the zeros that fill them up.
pub fn letters_of(filled: &[u8]) -> &[u8]
    ensures { result.now ≡ letters_of filled.now }
{
    &filled[..front_length(ByteClass::Letter, filled)]
}

/// The bytes without the first n.
pub fn after(n: usize, bytes: &[u8]) -> &[u8]
    ensures exact { result.now ≡ drop n bytes.now }
    ensures count { length result.now ≡ length bytes.now - n }
{
    &bytes[n.min(bytes.len())..]
}

/// The byte at an index, or 0 past the end.
pub fn byte_at(bytes: &[u8], index: usize) -> u8
    ensures exact { result ≡ slice_index bytes.now index }
    ensures within { 0 < result → index < length bytes.now }
{
    if index < bytes.len() { bytes[index] } else { 0 }
}
