//! A fault in words, as the program prints it.
ghost use Rattle.std.specs.Prelude.{◌≡◌, ◌++◌, ◌≤◌, ◌+◌, length};
ghost use Rattle.pair_top.specs.FaultText.{file_word, numbered, fault_text, fault_line, IsReported};
ghost use Rattle.std.specs.Fmt.{decimal};
ghost use Rattle.pair_top.specs.Outside.{sink_in};
ghost use Rattle.pair_top.specs.Statuses.{status_of};

use crate::Fault;
use pair_io::Sink;
use trace_printer::Line;

/// The name of a file by its number.
fn file_word(which: u8) -> &'static [u8]
    ensures word { result.now ≡ file_word which }
    ensures short { length result.now ≤ 6 }
{
    match which {
        0 => b"source",
        1 => b"script",
        _ => b"trace",
    }
}

/// Adds a fault with its kind and its line.
#[tactic(auto, using(trace_printer::proofs::Digits::twenty_digits, std::proofs::Common::append_assoc))]
fn push_numbered(line: &mut Line, words: &[u8], kind: u8, number: u32)
    requires words { length words.now ≤ 20 }
    requires room { length line.old ≤ 10 }
    ensures text { line.new ≡ line.old ++ numbered words.now kind number }
    ensures length { length line.new ≤ 100 }
{
    line.push_text(words);
    line.push_decimal(u64::from(kind));
    line.push_text(b" line ");
    line.push_decimal(u64::from(number));
}

/// Adds two texts.
#[tactic(auto, using(std::proofs::Common::append_assoc))]
fn push_both(line: &mut Line, words: &[u8], more: &[u8])
    requires words { length words.now ≤ 20 }
    requires more { length more.now ≤ 20 }
    requires room { length line.old ≤ 10 }
    ensures text { line.new ≡ line.old ++ (words.now ++ more.now) }
    ensures length { length line.new ≤ 100 }
{
    line.push_text(words);
    line.push_text(more);
}

/// Adds a text and a number.
#[tactic(auto, using(trace_printer::proofs::Digits::twenty_digits, std::proofs::Common::append_assoc))]
fn push_count(line: &mut Line, words: &[u8], number: u32)
    requires words { length words.now ≤ 20 }
    requires room { length line.old ≤ 10 }
    ensures text { line.new ≡ line.old ++ (words.now ++ decimal number) }
    ensures length { length line.new ≤ 100 }
{
    line.push_text(words);
    line.push_decimal(u64::from(number));
}

/// Adds a fault in words.
fn push_fault(line: &mut Line, fault: Fault)
    requires room { length line.old ≤ 10 }
    ensures text { line.new ≡ line.old ++ fault_text fault }
    ensures length { length line.new ≤ 100 }
{
    match fault {
        Fault::Usage => line.push_text(b"usage"),
        Fault::FileFault { which } => push_both(line, b"file fault ", file_word(which)),
        Fault::TooLong { which } => push_both(line, b"too long ", file_word(which)),
        Fault::SourceFault(fault) => push_numbered(line, b"source fault ", fault.kind, fault.line),
        Fault::ScriptFault(fault) => push_numbered(line, b"script fault ", fault.kind, fault.line),
        Fault::SinkFault => line.push_text(b"output fault"),
        Fault::NoMemory => line.push_text(b"no memory"),
        Fault::Differs { line: number } => push_count(line, b"differs line ", number),
    }
}

/// The line that the program prints on a fault, as `s7h: too long source` or `s7h: script fault 99 line 0`, ended by LF.
/// Takes no memory.
pub fn fault_line(fault: Fault) -> Line
    ensures { result ≡ fault_line fault }
{
    let mut line = Line::new();
    line.put_text(b"s7h: ");
    push_fault(&mut line, fault);
    line.push_text(b"\n");
    line
}

/// The exit status of the program, 0 to 8.
pub fn exit_status(fault: Option<Fault>) -> u8
    ensures { result ≡ status_of fault }
{
    fault.map_or(0, Fault::status)
}

/// Prints the line of a fault, where there is one, and gives the exit status of the program. What standard error does not
/// take is lost.
pub fn report<E: Sink>(errors: &mut E, fault: Option<Fault>) -> u8
    ensures status { result ≡ status_of fault }
    ensures line { IsReported fault (sink_in E.Sink errors.old errors.new) }
{
    if let Some(fault) = fault {
        let line = fault_line(fault);
        let _ = errors.write(line.as_slice());
    }
    exit_status(fault)
}
