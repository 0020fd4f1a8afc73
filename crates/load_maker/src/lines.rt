//! Pieces of a text that is being made.
ghost use Rattle.std.specs.Prelude.{◌≡◌, ◌++◌, IfOk, string_bytes};

use s7_events::NoMemory;

/// Adds a piece to a text. Err where memory runs out.
pub fn push_text(text: &mut String, piece: &str) -> Result<(), NoMemory>
    ensures { IfOk result (λ done. string_bytes text.new ≡ string_bytes text.old ++ piece.now) }
{
    if text.push_str(piece).is_err() {
        return Err(NoMemory);
    }
    Ok(())
}
