//! The parts of a text.
ghost use Rattle.std.specs.Prelude.{◌≡◌};
ghost use Rattle.std.specs.Option.{option_map};
ghost use Rattle.plant_script.specs.Fields.{split_at};

/// Returns the bytes before the first `end`, and those behind it, or None where no such byte stands.
pub fn split_at_byte(text: &[u8], end: u8) -> Option<(&[u8], &[u8])>
    ensures { option_map (λ p. (p.0.now, p.1.now)) result ≡ split_at end text.now }
{
    for (i, byte) in text.iter().enumerate() {
        if *byte == end {
            return Some((&text[..i], &text[i + 1..]));
        }
    }
    None
}
