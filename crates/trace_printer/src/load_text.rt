//! Writes the blocks of a program.
ghost use Rattle.std.specs.Prelude.{◌≡◌, ℕ, ◌+◌, ◌≤◌, length, IsOk, OnOk, OnErr};
ghost use Rattle.std.specs.List.{flat_map};
ghost use Rattle.std.specs.Io.KnownBytes.{Appends};
ghost use Rattle.pair_io.specs.Bytes.{AppendsFront};
ghost use Rattle.pair_io.specs.Causes.{Counts};
ghost use Rattle.pair_io.specs.Writes.{Prints};
ghost use Rattle.trace_printer.specs.LoadText.{kind_word, block_line, code_line, data_line, count_line, load_text};

use crate::line::Line;
use crate::writing::{SinkFault, write_line};
use pair_io::Sink;
use s7_base::{Blocks, CodeBlock, CodeKind, DataBlock};

/// How a kind is written, with the blank behind it.
fn kind_word(kind: CodeKind) -> &'static [u8]
    ensures word { result.now ≡ kind_word kind }
    ensures length { length result.now ≤ 10 }
{
    match kind {
        CodeKind::Ob => b"OB ",
        CodeKind::Fb => b"FB ",
        CodeKind::Fc => b"FC ",
    }
}

/// The line of a block.
#[tactic(auto, using(crate::proofs::Digits::twenty_digits, std::proofs::Common::append_assoc))]
fn put_block(line: &mut Line, word: &[u8], number: u8, size: usize)
    requires { length word.now ≤ 10 }
    ensures { line.new ≡ block_line word.now number size }
{
    line.put_text(word);
    line.push_decimal(u64::from(number));
    line.push_text(b" ");
    line.push_decimal(size as u64);
    line.push_text(b"\n");
}

/// The line of a code block.
fn put_code(line: &mut Line, code: &CodeBlock)
    ensures { line.new ≡ code_line code.now }
{
    let word = kind_word(code.kind());
    put_block(line, word, code.number(), code.statements().len());
}

/// The line of a data block.
fn put_data(line: &mut Line, block: &DataBlock)
    ensures { line.new ≡ data_line block.now }
{
    put_block(line, b"DB ", block.number(), block.bytes().len());
}

/// The last line.
#[tactic(auto, using(crate::proofs::Digits::twenty_digits, std::proofs::Common::append_assoc))]
fn put_count(line: &mut Line, blocks: &Blocks)
    ensures { line.new ≡ count_line blocks.now }
{
    let count = blocks.codes().len() + blocks.data_blocks().len();
    line.put_text(b"OK ");
    line.push_decimal(count as u64);
    line.push_text(b"\n");
}

/// Writes the code blocks, a line each.
fn print_codes<K: Sink>(sink: &mut K, line: &mut Line, codes: &[CodeBlock]) -> Result<(), SinkFault>
    ensures { Prints K.written K.faults K.takes sink.old sink.new (flat_map code_line codes.now) result }
{
    for code in codes {
        put_code(line, code);
        write_line(sink, line)?;
    }
    Ok(())
}

/// Writes the data blocks, a line each.
fn print_data_blocks<K: Sink>(
    sink: &mut K,
    line: &mut Line,
    data_blocks: &[DataBlock],
) -> Result<(), SinkFault>
    ensures { Prints K.written K.faults K.takes sink.old sink.new (flat_map data_line data_blocks.now) result }
{
    for block in data_blocks {
        put_data(line, block);
        write_line(sink, line)?;
    }
    Ok(())
}

/// Writes all lines.
fn print_blocks<K: Sink>(sink: &mut K, line: &mut Line, blocks: &Blocks) -> Result<(), SinkFault>
    ensures { Prints K.written K.faults K.takes sink.old sink.new (load_text blocks.now) result }
{
    print_codes(sink, line, blocks.codes())?;
    print_data_blocks(sink, line, blocks.data_blocks())?;
    put_count(line, blocks);
    write_line(sink, line)
}

/// Writes the blocks of a program, a line each: code blocks with the number of their statements, data blocks with
/// the number of their bytes, by kind and number; and last how many blocks they are.
///
/// At `Err` a front of the text was written, and the sink counted a fault. A sink that promised to take the
/// text took it. Takes no memory.
pub fn print_load<K: Sink>(sink: &mut K, blocks: &Blocks) -> Result<(), SinkFault>
    ensures ok { OnOk result (Appends (K.written sink.old) (K.written sink.new) (load_text blocks.now)) }
    ensures err { OnErr result (AppendsFront (K.written sink.old) (K.written sink.new) (load_text blocks.now)) }
    ensures cause { Counts (K.faults sink.old) (K.faults sink.new) result }
    ensures kept { (more : ℕ) → K.takes sink.old (length (load_text blocks.now) + more) → IsOk result × K.takes sink.new more }
{
    let mut line = Line::new();
    print_blocks(sink, &mut line, blocks)
}
