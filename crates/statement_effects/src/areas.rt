//! What the statements see.
ghost use Rattle.std.specs.Prelude.{◌≡◌, ◌≤◌, length, slice_get, IfOk, IfSome};
ghost use Rattle.cpu_image.specs.Image.{area_bytes};
ghost use Rattle.cpu_image.specs.Pages.{HasSizes, with_inputs};
ghost use Rattle.statement_effects.specs.Areas.{clear_registers, with_registers, data_length, start_memory};

use accumulators::Accus;
use bit_unit::BitUnit;
use counters::Counter;
use cpu_image::{ByteArea, CpuImage};
use level_stack::Levels;
use s7_base::{Blocks, NoMemory};
use status_word::StatusWord;
use std::alloc::Global;
use std::marker::Model;
use timers::Timer;

/// The numbers of the data blocks that are opened, as DB and as DI. None where none is.
#[derive(Clone, Copy, Debug, Default, PartialEq, Eq)]
pub struct DataRegisters {
    pub block: Option<u8>,
    pub instance: Option<u8>,
}

/// The registers of a block: the status word, the accumulators, the open groups and zones, and the data blocks that are opened.
#[derive(Clone, Copy, Debug, Default)]
pub struct Registers {
    pub status: StatusWord,
    pub accus: Accus,
    pub unit: BitUnit,
    pub data: DataRegisters,
}

impl Registers {
    /// Returns the registers where no block has begun: all 0, no group and no zone open.
    pub fn clear() -> Registers
        ensures { result ≡ clear_registers }
    {
        Registers {
            status: StatusWord::new(),
            accus: Accus::new(),
            unit: BitUnit::new(),
            data: DataRegisters {
                block: None,
                instance: None,
            },
        }
    }
}

/// The areas and the registers: the image of the inputs, the outputs, the bit memory and the data blocks, the timers, counters
/// and registers; and the levels with the blocks that have begun, each with its local data.
#[derive(Debug, Drop)]
pub struct Memory {
    pub(crate) image: CpuImage,
    pub(crate) timers: [Timer; 256],
    pub(crate) counters: [Counter; 256],
    pub(crate) registers: Registers,
    pub(crate) levels: Levels,
}

impl Model for Memory {
    ghost use Rattle.statement_effects.specs.State as state;

    ghost Value = { state.Memory };

    ghost view = { λ m. record { image = m.image; timers = m.timers; counters = m.counters; registers = m.registers; levels = m.levels } };
}

impl Memory {
    /// Returns what a CPU sees at the start of a program: all areas are 0 but the data blocks, which have their first bytes, no
    /// timer and no counter was used, and no block has begun. This call alone takes memory.
    ///
    /// # Errors
    /// `NoMemory` only where memory runs out.
    pub fn start(alloc: Global, blocks: &Blocks) -> Result<Memory, NoMemory>
        ensures { IfOk result (λ memory. memory ≡ start_memory blocks.now) }
    {
        let image = CpuImage::lay(alloc, blocks)?;
        Ok(Memory {
            image,
            timers: [Timer::new(); 256],
            counters: [Counter::new(); 256],
            registers: Registers::clear(),
            levels: Levels::new(),
        })
    }

    /// Returns the registers.
    pub fn registers(&self) -> Registers
        ensures { result ≡ self.now.registers }
    {
        self.registers
    }

    /// Puts registers in place of those that it has.
    pub fn set_registers(&mut self, registers: Registers)
        ensures { self.new ≡ with_registers self.old registers }
    {
        self.registers = registers;
    }

    /// Returns the output image.
    pub fn outputs(&self) -> [u8; 64]
        ensures { result ≡ self.now.image.outputs }
    {
        self.image.outputs()
    }

    /// Puts an input image in place of the one that it has.
    pub fn set_inputs(&mut self, image: [u8; 64])
        ensures { self.new ≡ record self.old { image = with_inputs self.old.image image } }
    {
        self.image.set_inputs(image);
    }

    /// Returns the byte of an area at an address. None exactly where there is none, or no such area.
    pub fn byte(&self, area: ByteArea, at: usize) -> Option<u8>
        ensures { result ≡ slice_get (area_bytes self.now.image area) at }
    {
        self.image.get(area, at)
    }

    /// Returns the number of bytes of the data block of a number, at most 8,192. None exactly where it is not loaded.
    pub fn data_length(&self, number: u8) -> Option<u16>
        ensures length { result ≡ data_length self.now number }
        ensures few { IfSome result (λ length. length ≤ 8192) }
    {
        let count = self.image.byte_count(ByteArea::Db(number))?;
        Some(count as u16)
    }

    /// Returns the timer of a number. None exactly where there is none.
    pub fn find_timer(&self, n: usize) -> Option<Timer>
        ensures { result ≡ slice_get self.now.timers n }
    {
        self.timers.get(n).copied()
    }

    /// Returns the counter of a number. None exactly where there is none.
    pub fn find_counter(&self, n: usize) -> Option<Counter>
        ensures { result ≡ slice_get self.now.counters n }
    {
        self.counters.get(n).copied()
    }

    /// Shows how many bytes, timers and counters there are.
    pub fn show_sizes(&self)
        ensures image { HasSizes self.now.image }
        ensures timers { length self.now.timers ≡ 256 }
        ensures counters { length self.now.counters ≡ 256 }
    {
        self.image.show_sizes();
        let _timers: &[Timer] = &self.timers;
        let _counters: &[Counter] = &self.counters;
    }
}
