//! Writes the lines of a connection's text.
ghost use Rattle.std.specs.Prelude.{◌≡◌, ℕ, ◌+◌, ◌≤◌, ◌<◌, ◌∷◌, [], ◌++◌, List, MatchResult};
ghost use Rattle.std.specs.Fmt.{decimal};
ghost use Rattle.ft_connection.specs.EventText.{hex_digit, hex, path_text, fault_word, send_text, taken_text, done_text};

use crate::conn_error::ConnError;
use crate::frame::{Frame, Path, SendFault, Taken};

/// Adds one byte to a text.
fn push_byte(text: &mut Vec<u8>, byte: u8) -> Result<(), ConnError>
    ensures { MatchResult result (λ _. text.new.items ≡ text.old.items ++ byte ∷ []) (λ e. e ≡ ConnError.NoMemory) }
{
    if text.push(byte).is_err() {
        return Err(ConnError::NoMemory);
    }
    Ok(())
}

/// Adds bytes to a text.
fn push_bytes(text: &mut Vec<u8>, bytes: &[u8]) -> Result<(), ConnError>
    ensures { MatchResult result (λ _. text.new.items ≡ text.old.items ++ bytes.now) (λ e. e ≡ ConnError.NoMemory) }
{
    if text.extend_from_slice(bytes).is_err() {
        return Err(ConnError::NoMemory);
    }
    Ok(())
}

/// Adds a number, without leading zeros.
#[tactic(auto, using(crate::proofs::DigitLaws::one_digit, crate::proofs::DigitLaws::more_digits, std::proofs::Common::append_assoc))]
fn push_decimal(text: &mut Vec<u8>, number: u32) -> Result<(), ConnError>
    ensures { MatchResult result (λ _. text.new.items ≡ text.old.items ++ decimal number) (λ e. e ≡ ConnError.NoMemory) }
{
    if number < 10 {
        return push_byte(text, b'0' + number as u8);
    }
    push_decimal(text, number / 10)?;
    push_byte(text, b'0' + (number % 10) as u8)
}

/// The upper-case digit.
fn hex_digit_of(digit: u8) -> u8
    requires { digit < 16 }
    ensures { result ≡ hex_digit digit }
{
    if digit < 10 {
        b'0' + digit
    } else {
        b'A' - 10 + digit
    }
}

/// Adds a number as `width` hexadecimal digits.
#[tactic(auto, using(crate::proofs::DigitLaws::no_hex, crate::proofs::DigitLaws::more_hex, std::proofs::Common::append_assoc))]
fn push_hex(text: &mut Vec<u8>, width: u8, number: u32) -> Result<(), ConnError>
    ensures { MatchResult result (λ _. text.new.items ≡ text.old.items ++ hex width number) (λ e. e ≡ ConnError.NoMemory) }
{
    if width == 0 {
        return Ok(());
    }
    push_hex(text, width - 1, number / 16)?;
    push_byte(text, hex_digit_of((number % 16) as u8))
}

/// The digit of a path.
fn path_digit(path: Path) -> &'static [u8]
    ensures { result.now ≡ path_text path }
{
    match path {
        Path::One => b"1",
        Path::Two => b"2",
    }
}

/// The word of a refusal, with a blank after it.
fn fault_word(fault: SendFault) -> &'static [u8]
    ensures { result.now ≡ fault_word fault }
{
    match fault {
        SendFault::Down => b"REFUSED ",
        SendFault::Idle => b"IDLE ",
    }
}

/// Adds the line of a SEND that is refused.
#[tactic(auto, using(std::proofs::Common::append_assoc))]
pub(crate) fn push_fault(text: &mut Vec<u8>, path: Path, fault: SendFault) -> Result<(), ConnError>
    ensures { MatchResult result (λ _. text.new.items ≡ text.old.items ++ send_text path (Err fault)) (λ e. e ≡ ConnError.NoMemory) }
{
    push_bytes(text, fault_word(fault))?;
    push_bytes(text, path_digit(path))?;
    push_bytes(text, b"\n")
}

/// Adds the line of a frame that is new.
#[tactic(auto, using(std::proofs::Common::append_assoc))]
pub(crate) fn push_take(text: &mut Vec<u8>, frame: &Frame) -> Result<(), ConnError>
    ensures { MatchResult result (λ _. text.new.items ≡ text.old.items ++ taken_text Taken.New frame.now) (λ e. e ≡ ConnError.NoMemory) }
{
    push_bytes(text, b"TAKE ")?;
    push_decimal(text, frame.number)?;
    push_bytes(text, b" ")?;
    push_hex(text, 8, frame.job)?;
    push_bytes(text, b"\n")
}

/// Adds the last line.
#[tactic(auto, using(std::proofs::Common::append_assoc))]
pub(crate) fn push_done(text: &mut Vec<u8>, handed: u32, acked: u32) -> Result<(), ConnError>
    ensures { MatchResult result (λ _. text.new.items ≡ text.old.items ++ done_text handed acked) (λ e. e ≡ ConnError.NoMemory) }
{
    push_bytes(text, b"DONE ")?;
    push_decimal(text, handed)?;
    push_bytes(text, b" ")?;
    push_decimal(text, acked)?;
    push_bytes(text, b"\n")
}
