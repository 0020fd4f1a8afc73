//! Draws a trace: `trace_chart TRACE` as an SVG timeline, `trace_chart --vcd TRACE` as a Value Change Dump.
#![tactic(auto)]

mod lanes;
mod page;
mod sides;
mod svg;
mod vcd;

use crate::lanes::lanes_of;
use crate::page::Page;
use pair_io::{Files, RealFiles, RealSink, Sink, StdOpener};
use std::alloc::{AllocError, Global};
use std::process::ExitCode;
use std::rt::Env;
use std::{env, io};
use trace_reader::{Trace, TraceFault, read};

/// The greatest length of a trace, in bytes.
const MOST_BYTES: u64 = 1_073_741_824;

/// What is written of a trace.
#[derive(Clone, Copy, Debug)]
enum Format {
    Svg,
    Vcd,
}

/// Why nothing was written, and the exit status that says so.
#[derive(Clone, Copy, Debug)]
enum Fault {
    /// 2: the arguments are none of the command's.
    Usage,
    /// 3: the trace was not read.
    File,
    /// 4: this line, counted from 1, has no form or may not stand there.
    Line(usize),
    /// 7: a write failed.
    Sink,
    /// 8: out of memory.
    NoMemory,
}

/// Returns the arguments after the program's name. Arguments that cannot be read are no command.
fn arguments(
    rt: &(impl Env + Alloc<A = Global>),
    alloc: Global,
) -> Result<Vec<Vec<u8>>, AllocError> {
    let mut words = Vec::new(alloc);
    let Ok(args) = env::args(rt) else {
        return Ok(words);
    };
    for word in args.skip(1) {
        words.push(word.into_bytes())?;
    }
    Ok(words)
}

/// Returns the format and the name of the trace.
fn command_of(words: &[Vec<u8>]) -> Option<(Format, &[u8])> {
    match words {
        [name] => Some((Format::Svg, name.as_slice())),
        [option, name] => {
            if option.as_slice() == b"--vcd".as_slice() {
                Some((Format::Vcd, name.as_slice()))
            } else {
                None
            }
        }
        _ => None,
    }
}

/// Returns the text of a trace in a format.
fn drawn(alloc: Global, format: Format, trace: &Trace) -> Result<Page, AllocError> {
    let mut page = Page::new(alloc);
    let entries = trace.entries.as_slice();
    let lanes = lanes_of(alloc, entries)?;
    match format {
        Format::Svg => svg::draw(alloc, &mut page, trace, lanes.as_slice())?,
        Format::Vcd => vcd::draw(&mut page, lanes.as_slice(), entries.len())?,
    }
    Ok(page)
}

/// Returns the trace of this name.
fn trace_of<F: Files>(alloc: Global, files: &mut F, name: &[u8]) -> Result<Trace, Fault> {
    let mut bytes = Vec::new(alloc);
    if files.read(name, MOST_BYTES, &mut bytes).is_err() {
        return Err(Fault::File);
    }
    match read(alloc, bytes.as_slice()) {
        Ok(trace) => Ok(trace),
        Err(TraceFault::Line { line }) => Err(Fault::Line(line)),
        Err(TraceFault::NoMemory) => Err(Fault::NoMemory),
    }
}

/// Reads the trace that the arguments name, and writes its chart.
fn chart<F: Files, K: Sink>(
    alloc: Global,
    words: &[Vec<u8>],
    files: &mut F,
    sink: &mut K,
) -> Result<(), Fault> {
    let Some((format, name)) = command_of(words) else {
        return Err(Fault::Usage);
    };
    let trace = trace_of(alloc, files, name)?;
    let Ok(page) = drawn(alloc, format, &trace) else {
        return Err(Fault::NoMemory);
    };
    if sink.write(page.as_slice()).is_err() {
        return Err(Fault::Sink);
    }
    Ok(())
}

/// Writes why nothing was written, and returns the exit status.
fn report<R: Eprint + Alloc<A = Global>>(rt: &R, fault: Fault) -> u8 {
    let written = match fault {
        Fault::Usage => eprintln!(rt; "usage: trace_chart [--vcd] TRACE"),
        Fault::File => eprintln!(rt; "trace_chart: file fault"),
        Fault::Line(line) => eprintln!(rt; "trace_chart: trace fault line {line}"),
        Fault::Sink => eprintln!(rt; "trace_chart: sink fault"),
        Fault::NoMemory => eprintln!(rt; "trace_chart: no memory"),
    };
    let _ = written;
    match fault {
        Fault::Usage => 2,
        Fault::File => 3,
        Fault::Line(_) => 4,
        Fault::Sink => 7,
        Fault::NoMemory => 8,
    }
}

fn main(rt: HostRuntime) -> ExitCode {
    let alloc = rt.alloc();
    let Ok(words) = arguments(&rt, alloc) else {
        return ExitCode::from(report(&rt, Fault::NoMemory));
    };
    let mut files = RealFiles::new(StdOpener::new(&rt));
    let mut sink = RealSink::new(io::writer(&rt));
    match chart(alloc, words.as_slice(), &mut files, &mut sink) {
        Ok(()) => ExitCode::SUCCESS,
        Err(fault) => ExitCode::from(report(&rt, fault)),
    }
}
