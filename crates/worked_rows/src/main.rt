//! Plays the worked rows and the examples. Each is a folder with the words of a command and the files that these name; the lists of
//! the folders are the files `rows` and `examples`. Standard output is the text of each row, after a line with its name and before a
//! line with its exit status and the line that the program prints on a fault. Of an example it says whether what was written is
//! the text that stands beside it, whose name the list gives. Then come small programs, of each of which it says whether its trace
//! ends as was worked out by hand, and last the refusals of an outside that has no capacity.
#![tactic(auto)]

mod opener;
mod playing;
mod programs;
mod refusals;

use anyhow::Context;
use opener::RowOpener;
use pair_io::{MemSink, RealFiles, RealSink};
use playing::{play, show_end};
use programs::show_programs;
use refusals::show_refusals;
use std::alloc::Global;
use std::rt::Files;
use std::sync::Wait;
use std::thread::Threads;
use std::{fs, io};

/// How many bytes the text of an example may have.
const TEXT_CAPACITY: u32 = 1_000_000;

/// Plays a row between its name and its status.
fn show_row<R: Threads + Wait + Sync + Files + Print + Alloc<A = Global>>(
    rt: &R,
    folder: &str,
) -> anyhow::Result<()> {
    println!(rt; "== {folder}")?;
    let mut files = RealFiles::new(RowOpener::new(rt, rt.alloc(), folder));
    let mut sink = RealSink::new(io::writer(rt));
    let fault = play(rt, folder, &mut files, &mut sink)?;
    show_end(rt, fault)?;
    Ok(())
}

/// Plays an example, and compares what it writes with the file of this name in its folder.
fn show_example<R: Threads + Wait + Sync + Files + Print + Alloc<A = Global>>(
    rt: &R,
    folder: &str,
    name: &str,
) -> anyhow::Result<()> {
    let alloc = rt.alloc();
    let mut files = RealFiles::new(RowOpener::new(rt, alloc, folder));
    let mut sink = MemSink::new(alloc, TEXT_CAPACITY, Vec::new(alloc))
        .ok()
        .context("no memory")?;
    let fault = play(rt, folder, &mut files, &mut sink)?;
    let text = fs::read(rt, format!(in alloc; "{folder}/{name}")?.as_str())?;
    let finding = if sink.written() == text.as_slice() {
        "as written"
    } else {
        "another text"
    };
    println!(rt; "== example {folder}: {finding}")?;
    show_end(rt, fault)?;
    Ok(())
}

fn main(rt: HostRuntime) -> anyhow::Result<()> {
    let rows = fs::read_to_string(&rt, "rows")?;
    for folder in rows.as_str().lines() {
        show_row(&rt, folder)?;
    }
    let examples = fs::read_to_string(&rt, "examples")?;
    for example in examples.as_str().lines() {
        let (folder, name) = example.split_once(' ').context("a folder and a file")?;
        show_example(&rt, folder, name)?;
    }
    show_programs(&rt)?;
    show_refusals(&rt)
}
