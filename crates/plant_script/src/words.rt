//! The lines of a text, and the words of a line.
ghost use Rattle.std.specs.Prelude.{◌≡◌, ◌<◌, length, IfSome};
ghost use Rattle.std.specs.Option.{option_map};
ghost use Rattle.plant_script.specs.Words.{uncons, is_empty, lines_of, words_of, time_word, without_return, without_blanks};

use crate::fields::split_at_byte;

/// Returns the line without a carriage return at its end.
fn without_return(line: &[u8]) -> &[u8]
    ensures { result.now ≡ without_return line.now }
{
    if line.is_empty() {
        return line;
    }
    if line[line.len() - 1] != b'\r' {
        return line;
    }
    &line[..line.len() - 1]
}

/// Returns the first line of a text without its end, and the text behind it.
pub fn next_line(text: &[u8]) -> Option<(&[u8], &[u8])>
    ensures exact { option_map (λ p. (p.0.now, lines_of p.1.now)) result ≡ uncons (lines_of text.now) }
    ensures shorter { IfSome result (λ p. length p.1.now < length text.now) }
{
    if text.is_empty() {
        return None;
    }
    match split_at_byte(text, b'\n') {
        Some((line, after)) => Some((without_return(line), after)),
        None => Some((text, b"")),
    }
}

/// Returns the text without the blanks at its front.
fn without_blanks(text: &[u8]) -> &[u8]
    ensures { result.now ≡ without_blanks text.now }
{
    for (i, byte) in text.iter().enumerate() {
        if *byte != b' ' {
            return &text[i..];
        }
    }
    &text[text.len()..]
}

/// Returns the first word of a line, and the rest of the line.
pub fn next_word(line: &[u8]) -> Option<(&[u8], &[u8])>
    ensures { option_map (λ p. (p.0.now, words_of p.1.now)) result ≡ uncons (words_of line.now) }
{
    let text = without_blanks(line);
    if text.is_empty() {
        return None;
    }
    match split_at_byte(text, b' ') {
        Some((word, after)) => Some((word, after)),
        None => Some((text, b"")),
    }
}

/// Returns whether the line has no word.
pub fn is_blank(line: &[u8]) -> bool
    ensures { result ≡ is_empty (words_of line.now) }
{
    next_word(line).is_none()
}

/// Returns the second word of a line, or no bytes where there is none.
pub fn time_word(line: &[u8]) -> &[u8]
    ensures { result.now ≡ time_word (words_of line.now) }
{
    let Some((_, rest)) = next_word(line) else {
        return b"";
    };
    match next_word(rest) {
        Some((time, _)) => time,
        None => b"",
    }
}
