//! Writes a line.
ghost use Rattle.pair_io.specs.Writes.{Prints};

use crate::line::Line;
use pair_io::Sink;

/// The sink failed: what was to be written was written in part, and nothing follows.
#[derive(Clone, Copy, Debug, PartialEq, Eq)]
pub struct SinkFault;

/// Writes a line, by one call of the sink.
pub fn write_line<K: Sink>(sink: &mut K, line: &Line) -> Result<(), SinkFault>
    ensures { Prints K.written K.faults K.takes sink.old sink.new line.now result }
{
    match sink.write(line.as_slice()) {
        Ok(()) => Ok(()),
        Err(_) => Err(SinkFault),
    }
}
