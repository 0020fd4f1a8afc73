//! Plays the command of a folder, and shows how it ended.
ghost use Rattle.std.specs.Prelude.{IfOk};
ghost use Rattle.subsystem.specs.Part.{IsNew};

use anyhow::Context;
use pair_io::{Files, RealSink, Sink};
use pair_top::{Fault, NoGate, exit_status, report, s7h_top};
use std::alloc::Global;
use std::sync::Wait;
use std::thread::Threads;
use std::{fs, io, rt};
use subsystem::Subsystem;

/// The lines of a text, as words.
pub fn words_of(alloc: Global, text: &str) -> anyhow::Result<Vec<Vec<u8>>> {
    let mut words = Vec::new(alloc);
    for line in text.lines() {
        words.push(line.as_bytes().to_vec(alloc)?)?;
    }
    Ok(words)
}

/// A side before a play.
pub fn new_side(alloc: Global) -> anyhow::Result<Subsystem>
    ensures { IfOk result IsNew }
{
    Subsystem::new(alloc).ok().context("no memory")
}

/// Does what the file `args` of a folder says, a word a line, over these files and this sink.
pub fn play<R: Threads + Wait + Sync + rt::Files + Alloc<A = Global>, F: Files, K: Sink>(
    rt: &R,
    folder: &str,
    files: &mut F,
    sink: &mut K,
) -> anyhow::Result<Option<Fault>> {
    let alloc = rt.alloc();
    let args = fs::read_to_string(rt, format!(in alloc; "{folder}/args")?.as_str())?;
    let words = words_of(alloc, args.as_str())?;
    let mut a = new_side(alloc)?;
    let mut b = new_side(alloc)?;
    let outcome = s7h_top(rt, alloc, &words, files, sink, &mut a, &mut b, &NoGate);
    Ok(outcome.fault)
}

/// Shows the exit status, and the line that the program prints on a fault.
pub fn show_end(rt: &impl Print, fault: Option<Fault>) -> io::Result<()> {
    let status = exit_status(fault);
    println!(rt; "-- {status}")?;
    report(&mut RealSink::new(io::writer(rt)), fault);
    Ok(())
}
