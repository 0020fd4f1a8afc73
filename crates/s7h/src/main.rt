//! The program: the top call over real files and standard output.
#![tactic(auto)]

use pair_io::{RealFiles, RealSink, StdOpener};
use pair_top::{Fault, NoGate, report, s7h_top};
use std::alloc::{AllocError, Global};
use std::process::ExitCode;
use std::rt::Env;
use std::{env, io};
use subsystem::Subsystem;

/// The words after the program's name. Words that cannot be read are no command.
fn words_of(
    rt: &(impl Env + Alloc<A = Global>),
    alloc: Global,
) -> Result<Vec<Vec<u8>>, AllocError> {
    let mut words = Vec::new(alloc);
    let Ok(args) = env::args(rt) else {
        return Ok(words);
    };
    for word in args.skip(1) {
        words.push(word.into_bytes())?;
    }
    Ok(words)
}

fn main(rt: HostRuntime) -> ExitCode {
    let alloc = rt.alloc();
    let mut errors = RealSink::new(rt.stderr());
    let Ok(words) = words_of(&rt, alloc) else {
        return ExitCode::from(report(&mut errors, Some(Fault::NoMemory)));
    };
    let (Ok(mut a), Ok(mut b)) = (Subsystem::new(alloc), Subsystem::new(alloc)) else {
        return ExitCode::from(report(&mut errors, Some(Fault::NoMemory)));
    };
    let mut files = RealFiles::new(StdOpener::new(&rt));
    let mut sink = RealSink::new(io::writer(&rt));
    let outcome = s7h_top(
        &rt, alloc, &words, &mut files, &mut sink, &mut a, &mut b, &NoGate,
    );
    ExitCode::from(report(&mut errors, outcome.fault))
}
