//! A subsystem, as a tail shows it.

ghost use Rattle.subsystem.specs.Part.{IsOpen};

use crate::tail::TailView;
use s7_base::{Area, DiagCode};
use subsystem::Subsystem;

/// A subsystem with a life that is open.
#[derive(Clone, Copy)]
pub struct CpuView<'a> {
    side: &'a Subsystem,
    ghost running: { IsOpen side.now },
}

impl<'a> CpuView<'a> {
    ghost use Rattle.std.specs.Prelude.{◌≡◌};
    ghost use Rattle.subsystem.specs.Part.{IsOpen};

    pub fn new(side: &'a Subsystem) -> CpuView<'a>
        requires { IsOpen side.now }
        ensures { result.side.now ≡ side.now }
    {
        CpuView { side }
    }
}

impl TailView for CpuView<'_> {
    ghost use Rattle.trace_text.specs.CpuTail.{tail_of};

    ghost tail = { λ view. tail_of view.side.now.machine };

    fn note_count(&self) -> u32 {
        self.side.note_count()
    }

    fn note_at(&self, k: u32) -> Option<(u64, DiagCode)> {
        self.side.note_at(k)
    }

    fn image_byte(&self, area: Area, at_byte: u16) -> Option<u8> {
        self.side.image_byte(area, at_byte)
    }

    fn block_length(&self, number: u8) -> Option<u16> {
        self.side.block_length(number)
    }

    fn counter_value(&self, number: u8) -> u16 {
        self.side.counter_value(number)
    }
}
