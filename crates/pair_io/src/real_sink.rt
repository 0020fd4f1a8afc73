//! The sink over a writer of std.
ghost use Rattle.std.specs.Prelude.{◌≡◌, OnOk, OnErr};
ghost use Rattle.std.specs.Io.KnownBytes.{Appends};
ghost use Rattle.pair_io.specs.Bytes.{AppendsFront};

use crate::{Failed, Sink};
use std::io::Write;

/// A sink over a writer, as standard output. It tells the bytes written where the writer does, which
/// standard output doesn't, and promises nothing.
///
/// Each fault raises its one count: a write that fails or is interrupted, and one that takes nothing of a
/// piece that isn't empty.
#[derive(Drop)]
pub struct RealSink<W: Write> {
    out: W,
    faults: u64,
}

/// Writes the whole piece. A write that takes nothing is a fault.
fn write_whole<W: Write>(out: &mut W, piece: &[u8]) -> Result<(), Failed>
    ensures ok { OnOk result (Appends (W.contents out.old) (W.contents out.new) piece.now) }
    ensures err { OnErr result (AppendsFront (W.contents out.old) (W.contents out.new) piece.now) }
{
    let mut done = 0;
    while done < piece.len() {
        match out.write(&piece[done..]) {
            Err(_) => return Err(Failed),
            Ok(count) if count == 0 => return Err(Failed),
            Ok(count) => done += count,
        }
    }
    Ok(())
}

impl<W: Write> RealSink<W> {
    /// A sink with no fault so far.
    pub fn new(out: W) -> RealSink<W>
        ensures out { result.out ≡ out }
        ensures faults { result.faults ≡ 0 }
    {
        RealSink { out, faults: 0 }
    }
}

impl<W: Write> Sink for RealSink<W> {
    ghost written = { λ sink. W.contents sink.out };

    ghost faults = { λ sink. sink.faults };

    fn write(&mut self, piece: &[u8]) -> Result<(), Failed> {
        let done = write_whole(&mut self.out, piece);
        if done.is_err() {
            self.faults = self.faults.saturating_add(1);
        }
        done
    }
}
