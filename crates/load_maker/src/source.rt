//! Makes the source.
ghost use Rattle.std.specs.Prelude.{◌≡◌, ◌≤◌, ◌++◌, length, IfOk, string_bytes};
ghost use Rattle.load_maker.specs.Lines.{text_of};
ghost use Rattle.load_maker.specs.Source.{organization_block_lines, function_lines, all_function_lines, source_text};

use crate::lines::push_text;
use s7_events::NoMemory;
use std::alloc::Global;

/// Adds OB1, which copies the input to the output and counts its cycles in MW 0, and OB40, which counts the alarms in
/// MW 2.
fn push_organization_blocks(text: &mut String) -> Result<(), NoMemory>
    ensures { IfOk result (λ done. string_bytes text.new ≡ string_bytes text.old ++ text_of organization_block_lines) }
{
    push_text(
        text,
        "ORGANIZATION_BLOCK OB 1\nBEGIN\nL IB 0;\nT QB 0;\nL MW 0;\nL 1;\n+I;\nT MW 0;\nEND_ORGANIZATION_BLOCK\n\
        ORGANIZATION_BLOCK OB 40\nBEGIN\nL MW 2;\nL 1;\n+I;\nT MW 2;\nEND_ORGANIZATION_BLOCK\n",
    )
}

/// Adds function i, which loads its own number.
fn push_function(text: &mut String, i: u32) -> Result<(), NoMemory>
    ensures { IfOk result (λ done. string_bytes text.new ≡ string_bytes text.old ++ text_of (function_lines i)) }
{
    let done = write!(
        text,
        "FUNCTION FC {i} : VOID\nBEGIN\nL {i};\nEND_FUNCTION\n"
    );
    if done.is_err() {
        return Err(NoMemory);
    }
    Ok(())
}

/// Adds a function for each full thousand of moments.
#[tactic(auto, using(crate::proofs::Texts::all_left))]
fn push_functions(text: &mut String, n: u32) -> Result<(), NoMemory>
    ensures { IfOk result (λ done. string_bytes text.new ≡ string_bytes text.old ++ text_of (all_function_lines n)) }
{
    for i in 1..n / 1000 + 1 {
        push_function(text, i)?;
    }
    Ok(())
}

/// Returns the source for a day of n moments: OB1, OB40 and n/1000 functions.
///
/// At most 1,048,576 bytes. Err where memory runs out.
pub fn make_source(alloc: Global, n: u32) -> Result<Vec<u8>, NoMemory>
    requires low { 1000 ≤ n }
    requires high { n ≤ 100000 }
    ensures text { IfOk result (λ text. text.items ≡ source_text n) }
    ensures few { IfOk result (λ text. length text.items ≤ 1048576) }
{
    let mut text = String::new(alloc);
    push_organization_blocks(&mut text)?;
    push_functions(&mut text, n)?;
    Ok(text.into_bytes())
}
