//! Plays small programs, and says of each whether its trace ends with the lines that were worked out by hand.
//!
//! The file `programs` lists the files that hold them. In these `program NAME` begins a program, `script LINE` is a line of its
//! script, `letters PATTERN` has it played on both sides by this pattern, and `trace LINE / LINE` gives the last lines of its trace and
//! ends it. Each other line is one of its source, and `#` begins a comment. A program without a script is played for three entries,
//! which are a cycle; one without letters on side A alone.
ghost use Rattle.std.specs.Prelude.{◌≡◌, length, IfOk};

use crate::playing::{new_side, words_of};
use anyhow::Context;
use pair_io::{MemFiles, MemSink, RealSink, Sink};
use pair_top::{Fault, report, serve_alone};
use std::alloc::Global;
use std::{fs, io, rt};

/// How many bytes the trace of a program may have.
const TRACE_CAPACITY: u32 = 65_536;

/// The script of a program that gives none.
const ONE_CYCLE: &[u8] = b"END 3\n";

/// A program, as far as its lines were read.
#[derive(Drop)]
struct Program<'a> {
    name: &'a str,
    source: Vec<u8>,
    script: Vec<u8>,
    letters: Option<&'a str>,
}

/// Adds a line to a text.
fn push_line(text: &mut Vec<u8>, line: &str) -> anyhow::Result<()> {
    text.extend_from_slice(line.as_bytes())?;
    text.push(b'\n')?;
    Ok(())
}

impl<'a> Program<'a> {
    fn new(alloc: Global, name: &'a str) -> Program<'a> {
        Program {
            name,
            source: Vec::new(alloc),
            script: Vec::new(alloc),
            letters: None,
        }
    }

    /// Takes the letters, or adds a line of the script or of the source.
    fn take_line(&mut self, line: &'a str) -> anyhow::Result<()> {
        if let Some(letters) = line.strip_prefix("letters ") {
            self.letters = Some(letters);
            return Ok(());
        }
        match line.strip_prefix("script ") {
            Some(line) => push_line(&mut self.script, line),
            None => push_line(&mut self.source, line),
        }
    }
}

fn two(alloc: Global, first: &[u8], second: &[u8]) -> anyhow::Result<Vec<Vec<u8>>>
    ensures { IfOk result (λ all. length all.items ≡ 2) }
{
    Ok(vec![in alloc; first.to_vec(alloc)?, second.to_vec(alloc)?]?)
}

/// The words of the command that plays a program.
fn command_of(alloc: Global, program: &Program<'_>) -> anyhow::Result<Vec<Vec<u8>>> {
    match program.letters {
        Some(letters) => {
            let words = format!(in alloc; "turns\nsource\nscript\n{letters}")?;
            words_of(alloc, &words)
        }
        None => words_of(alloc, "solo\nsource\nscript"),
    }
}

/// Plays a program over files in memory.
fn play_program(
    alloc: Global,
    program: &Program<'_>,
    sink: &mut MemSink,
) -> anyhow::Result<Option<Fault>> {
    let script = if program.script.is_empty() {
        ONE_CYCLE
    } else {
        program.script.as_slice()
    };
    let names = two(alloc, b"source", b"script")?;
    let contents = two(alloc, program.source.as_slice(), script)?;
    let mut files = MemFiles::new(alloc, names, contents, Vec::new(alloc))
        .ok()
        .context("no memory")?;
    let words = command_of(alloc, program)?;
    let mut a = new_side(alloc)?;
    let mut b = new_side(alloc)?;
    let outcome = serve_alone(alloc, &words, &mut files, sink, &mut a, &mut b);
    Ok(outcome.fault)
}

/// The lines that a trace has to end with, after the end of the line before them.
fn lines_of(alloc: Global, trace: &str) -> anyhow::Result<Vec<u8>> {
    let mut lines = Vec::new(alloc);
    lines.push(b'\n')?;
    for line in trace.split(" / ") {
        push_line(&mut lines, line)?;
    }
    Ok(lines)
}

/// Plays a program and compares the end of its trace; where it is another, shows the text and the line of a fault.
fn show_program<R: Print + Alloc<A = Global>>(
    rt: &R,
    program: &Program<'_>,
    trace: &str,
) -> anyhow::Result<()> {
    let alloc = rt.alloc();
    let mut sink = MemSink::new(alloc, TRACE_CAPACITY, Vec::new(alloc))
        .ok()
        .context("no memory")?;
    let fault = play_program(alloc, program, &mut sink)?;
    let lines = lines_of(alloc, trace)?;
    let name = program.name;
    if sink.written().ends_with(lines.as_slice()) {
        println!(rt; "== program {name}: as written")?;
        return Ok(());
    }
    println!(rt; "== program {name}: another text")?;
    let mut output = RealSink::new(io::writer(rt));
    output.write(sink.written()).ok().context("no output")?;
    report(&mut output, fault);
    Ok(())
}

/// Shows the programs of a file.
fn show_programs_of<R: rt::Files + Print + Alloc<A = Global>>(
    rt: &R,
    file: &str,
) -> anyhow::Result<()> {
    let text = fs::read_to_string(rt, file)?;
    let mut program = Program::new(rt.alloc(), "");
    for line in text.as_str().lines() {
        if let Some(name) = line.strip_prefix("program ") {
            program = Program::new(rt.alloc(), name);
        } else if let Some(trace) = line.strip_prefix("trace ") {
            show_program(rt, &program, trace)?;
        } else if !line.starts_with('#') {
            program.take_line(line)?;
        }
    }
    Ok(())
}

/// Shows the programs of all files that are listed.
pub fn show_programs<R: rt::Files + Print + Alloc<A = Global>>(rt: &R) -> anyhow::Result<()> {
    let files = fs::read_to_string(rt, "programs")?;
    for file in files.as_str().lines() {
        show_programs_of(rt, file)?;
    }
    Ok(())
}
