//! Makes the script.
ghost use Rattle.std.specs.Prelude.{◌≡◌, ◌≤◌, ◌++◌, length, IfOk, string_bytes};
ghost use Rattle.load_maker.specs.Lines.{text_of};
ghost use Rattle.load_maker.specs.Script.{module_lines, input_lines, alarm_lines, loss_lines, moment_lines, all_moment_lines, end_lines, script_text};

use crate::lines::push_text;
use s7_events::NoMemory;
use std::alloc::Global;

/// Adds one input byte and one output byte.
fn push_modules(text: &mut String) -> Result<(), NoMemory>
    ensures { IfOk result (λ done. string_bytes text.new ≡ string_bytes text.old ++ text_of module_lines) }
{
    push_text(text, "MODULE IN 0 1 SWITCHED\nMODULE OUT 0 1 SWITCHED\n")
}

/// Adds the input at moment m.
#[tactic(auto, using(std::proofs::Common::append_assoc))]
fn push_input(text: &mut String, m: u32) -> Result<(), NoMemory>
    ensures { IfOk result (λ done. string_bytes text.new ≡ string_bytes text.old ++ text_of (input_lines m)) }
{
    let value = m / 100 % 256;
    let high = value / 16;
    let low = value % 16;
    let done = write!(text, "AT {m} INPUT 0 {high:X}{low:X}\n");
    if done.is_err() {
        return Err(NoMemory);
    }
    Ok(())
}

/// Adds the alarm at moment m, where there is one.
#[tactic(auto, using(std::proofs::Common::append_assoc, crate::proofs::Texts::adds_nothing))]
fn push_alarm(text: &mut String, m: u32) -> Result<(), NoMemory>
    ensures { IfOk result (λ done. string_bytes text.new ≡ string_bytes text.old ++ text_of (alarm_lines m)) }
{
    if m % 1000 != 0 {
        return Ok(());
    }
    let number = m / 1000;
    let high = number / 16;
    let low = number % 16;
    let done = write!(text, "AT {m} ALARM 40 000000{high:X}{low:X}\n");
    if done.is_err() {
        return Err(NoMemory);
    }
    Ok(())
}

/// Adds the loss of side B, where it is at moment m.
#[tactic(auto, using(std::proofs::Common::append_assoc, crate::proofs::Texts::adds_nothing))]
fn push_loss(text: &mut String, n: u32, m: u32) -> Result<(), NoMemory>
    ensures { IfOk result (λ done. string_bytes text.new ≡ string_bytes text.old ++ text_of (loss_lines n m)) }
{
    if m != 100 * (n / 200) {
        return Ok(());
    }
    let done = write!(text, "AT {m} FAIL B\n");
    if done.is_err() {
        return Err(NoMemory);
    }
    Ok(())
}

/// Adds what happens at moment m.
fn push_moment(text: &mut String, n: u32, m: u32) -> Result<(), NoMemory>
    ensures { IfOk result (λ done. string_bytes text.new ≡ string_bytes text.old ++ text_of (moment_lines n m)) }
{
    push_input(text, m)?;
    push_alarm(text, m)?;
    push_loss(text, n, m)?;
    Ok(())
}

/// Adds what happens at each full hundred above 0 and below n.
#[tactic(auto, using(crate::proofs::Texts::all_left))]
fn push_moments(text: &mut String, n: u32) -> Result<(), NoMemory>
    requires { 1 ≤ n }
    ensures { IfOk result (λ done. string_bytes text.new ≡ string_bytes text.old ++ text_of (all_moment_lines n)) }
{
    for k in 1..(n - 1) / 100 + 1 {
        push_moment(text, n, 100 * k)?;
    }
    Ok(())
}

/// Adds the last line.
#[tactic(auto, using(std::proofs::Common::append_assoc))]
fn push_end(text: &mut String, n: u32) -> Result<(), NoMemory>
    ensures { IfOk result (λ done. string_bytes text.new ≡ string_bytes text.old ++ text_of (end_lines n)) }
{
    let done = write!(text, "END {n}\n");
    if done.is_err() {
        return Err(NoMemory);
    }
    Ok(())
}

/// Returns the script for a day of n moments: an input byte and an output byte; at each full hundred another input, at
/// each full thousand an alarm, and half way the loss of side B.
///
/// At most 1,048,576 bytes. Err where memory runs out.
pub fn make_script(alloc: Global, n: u32) -> Result<Vec<u8>, NoMemory>
    requires low { 1000 ≤ n }
    requires high { n ≤ 100000 }
    ensures text { IfOk result (λ text. text.items ≡ script_text n) }
    ensures few { IfOk result (λ text. length text.items ≤ 1048576) }
{
    let mut text = String::new(alloc);
    push_modules(&mut text)?;
    push_moments(&mut text, n)?;
    push_end(&mut text, n)?;
    Ok(text.into_bytes())
}
