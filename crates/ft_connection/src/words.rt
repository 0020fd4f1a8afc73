//! The lines of a file, the words of a line, and the numbers that words spell.
ghost use Rattle.std.specs.Prelude.{◌≡◌, ℕ, ◌+◌, ◌≤◌, ◌<◌, ◌^◌, ◌==◌, not, ◌∷◌, length, position, IfSome};
ghost use Rattle.std.specs.Option.{option_map};
ghost use Rattle.std.specs.Str.Lines.{lines, strip_carriage_return};
ghost use Rattle.ft_connection.specs.Words.{blanks, word_length, first_word, after_word, is_skipped, number_spelled, hex_digit, job_spelled};

/// The place of the first line feed.
fn line_feed(text: &[u8]) -> Option<usize>
    ensures { result ≡ position (λ b. b == 10) text.now }
{
    text.iter().position(|b| *b == b'\n')
}

/// A line without the carriage return at its end, if it has one.
fn without_carriage_return(line: &[u8]) -> &[u8]
    ensures { result.now ≡ strip_carriage_return line.now }
{
    if line.is_empty() || line[line.len() - 1] != b'\r' {
        return line;
    }
    &line[..line.len() - 1]
}

/// The first line of a text that is not empty, without the LF or CR LF at its end, and what stands after it.
pub(crate) fn split_line(text: &[u8]) -> (&[u8], &[u8])
    requires { 0 < length text.now }
    ensures exact { lines text.now ≡ result.0.now ∷ lines result.1.now }
    ensures shorter { length result.1.now < length text.now }
{
    match line_feed(text) {
        Some(at) => (without_carriage_return(&text[..at]), &text[at + 1..]),
        None => (text, &text[text.len()..]),
    }
}

/// The place of the first byte that is no blank.
fn first_letter(text: &[u8]) -> Option<usize>
    ensures { result ≡ position (λ b. not (b == 32)) text.now }
{
    text.iter().position(|b| *b != b' ')
}

/// The place of the first blank.
fn first_blank(text: &[u8]) -> Option<usize>
    ensures { result ≡ position (λ b. b == 32) text.now }
{
    text.iter().position(|b| *b == b' ')
}

/// How many blanks stand first.
fn blanks(text: &[u8]) -> usize
    ensures exact { result ≡ blanks text.now }
    ensures within { result ≤ length text.now }
{
    first_letter(text).unwrap_or(text.len())
}

/// How many bytes stand before the first blank.
fn word_length(text: &[u8]) -> usize
    ensures exact { result ≡ word_length text.now }
    ensures within { result ≤ length text.now }
{
    first_blank(text).unwrap_or(text.len())
}

/// The first word of a text, empty where it has none, and what stands after it.
pub(crate) fn split_word(text: &[u8]) -> (&[u8], &[u8])
    ensures word { result.0.now ≡ first_word text.now }
    ensures rest { result.1.now ≡ after_word text.now }
{
    let rest = &text[blanks(text)..];
    let end = word_length(rest);
    (&rest[..end], &rest[end..])
}

/// Whether a line has no word, or its first word begins with `#`.
pub(crate) fn is_skipped(line: &[u8]) -> bool
    ensures { result ≡ is_skipped line.now }
{
    let (word, _) = split_word(line);
    word.is_empty() || word[0] == b'#'
}

/// The number that decimal digits spell, one or more. From 4,294,967,295 on it counts as that.
pub(crate) fn number_from(digits: &[u8]) -> Option<u32>
    ensures { result ≡ number_spelled digits.now }
{
    if digits.is_empty() {
        return None;
    }
    let mut number = 0u64;
    for digit in digits {
        if *digit < b'0' || *digit > b'9' {
            return None;
        }
        number = (10 * number + u64::from(*digit - b'0')).min(u64::from(u32::MAX));
    }
    Some(number as u32)
}

/// The value of a hexadecimal digit.
fn digit_from(digit: u8) -> Option<u8>
    ensures exact { result ≡ hex_digit digit }
    ensures small { IfSome result (λ value. value < 16) }
{
    match digit {
        b'0'..=b'9' => Some(digit - b'0'),
        b'A'..=b'F' => Some(digit - b'A' + 10),
        b'a'..=b'f' => Some(digit - b'a' + 10),
        _ => None,
    }
}

/// The job that eight hexadecimal digits spell.
pub(crate) fn job_from(digits: &[u8]) -> Option<u32>
    ensures { result ≡ job_spelled digits.now }
{
    if digits.len() != 8 {
        return None;
    }
    let mut job = 0;
    for digit in digits {
        job = 16 * job + u32::from(digit_from(*digit)?);
    }
    Some(job)
}
