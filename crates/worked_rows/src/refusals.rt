//! What an outside without capacity makes of a command.

use crate::opener::RowOpener;
use crate::playing::{play, show_end};
use pair_io::{Files, FilesError, RealFiles, RealSink};
use std::alloc::Global;
use std::sync::Wait;
use std::thread::Threads;
use std::{io, rt};

/// The folder whose command is played.
const FOLDER: &str = "solo-one-rung";

/// Files for which there is no memory.
#[derive(Clone, Copy, Debug)]
struct NoMemoryFiles;

impl Files for NoMemoryFiles {
    ghost use Rattle.std.specs.Prelude.{None};

    ghost content = { λ _ _. None };

    ghost faults = { λ _ _. 0 };

    fn read(&mut self, _name: &[u8], _limit: u64, _into: &mut Vec<u8>) -> Result<(), FilesError> {
        Err(FilesError::NoMemory)
    }
}

/// A row over files for which there is no memory, and one over an output that takes 20 bytes.
pub fn show_refusals<R: Threads + Wait + Sync + rt::Files + Print + Alloc<A = Global>>(
    rt: &R,
) -> anyhow::Result<()> {
    println!(rt; "== no-memory-for-a-file")?;
    let fault = play(
        rt,
        FOLDER,
        &mut NoMemoryFiles,
        &mut RealSink::new(io::writer(rt)),
    )?;
    show_end(rt, fault)?;
    println!(rt; "== output-of-20-bytes")?;
    let mut files = RealFiles::new(RowOpener::new(rt, rt.alloc(), FOLDER));
    let mut output = [0u8; 20];
    let fault = play(
        rt,
        FOLDER,
        &mut files,
        &mut RealSink::new(output.as_mut_slice()),
    )?;
    show_end(rt, fault)?;
    Ok(())
}
