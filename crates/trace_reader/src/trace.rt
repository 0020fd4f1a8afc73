//! What a trace says.

use std::marker::Model;

/// Whether one side ran alone, or a pair.
#[derive(Clone, Copy, Debug, PartialEq, Eq)]
pub enum Mode {
    Solo,
    Pair,
}

/// A side of the pair.
#[derive(Clone, Copy, Debug, PartialEq, Eq)]
pub enum Side {
    A,
    B,
}

/// Why a side was lost.
#[derive(Clone, Copy, Debug, PartialEq, Eq)]
pub enum Loss {
    Failed,
    Suspect,
}

/// Why the CPU stopped.
#[derive(Clone, Copy, Debug, PartialEq, Eq)]
pub enum StopCode {
    Cycle,
    Sfc46,
    NoOb121,
    NoOb122,
    NoOb85,
    Depth,
    Local,
    InError,
}

/// How many bytes are read or written: 1, 2 or 4.
#[derive(Clone, Copy, Debug, PartialEq, Eq)]
pub enum Width {
    Byte,
    Word,
    Double,
}

/// Where a job reads or writes: in bit memory, or in the data block of this number.
#[derive(Clone, Copy, Debug, PartialEq, Eq)]
pub enum JobArea {
    Memory,
    DataBlock(u16),
}

/// The bytes that a job reads or writes.
#[derive(Clone, Copy, Debug, PartialEq, Eq)]
pub struct Place {
    pub area: JobArea,
    pub width: Width,
    pub at: u16,
}

/// What the CPU asked. An image has the 64 bytes of the inputs or of the outputs.
#[derive(Clone, Copy, Debug, PartialEq, Eq)]
pub enum Request {
    /// The output image is to be shown.
    Outputs([u8; 64]),
    /// The input image is asked for.
    Inputs,
    /// The cycle is over.
    Cycle,
    /// Peripheral bytes are read.
    ReadPeripheral { at: u16, width: Width },
    /// Peripheral bytes are written.
    WritePeripheral { at: u16, width: Width, value: u32 },
    /// The moment is asked for.
    Now,
    /// Many statements went by since the last entry.
    Tick,
    /// The cycle's time begins anew.
    Retrigger,
    /// The reply to a job: what it read, or None where its address does not exist.
    Reply(Option<u32>),
    /// The CPU stops.
    Stop(StopCode),
}

/// What the CPU was answered.
#[derive(Clone, Copy, Debug, PartialEq, Eq)]
pub enum Answer {
    Image([u8; 64]),
    Value(u32),
    Now(u32),
    Done,
    Go,
    Hold,
    NoModule,
    Alarm { ob: u8, info: u32 },
    ReadJob(Place),
    WriteJob { place: Place, value: u32 },
    Lost { side: Side, why: Loss },
    Back(Side),
    CpuStop(StopCode),
}

/// The sides that showed an output: at most two, the first first.
#[derive(Clone, Copy, Debug, PartialEq, Eq)]
pub enum Showings {
    None,
    Once(Side),
    Twice(Side, Side),
}

/// An entry of the trace. Its number is its place among the entries, from 0.
#[derive(Clone, Copy, Debug, PartialEq, Eq)]
pub struct Entry {
    pub priority: u8,
    pub request: Request,
    pub answer: Answer,
    pub shown: Showings,
}

/// What a diagnostic entry says.
#[derive(Clone, Copy, Debug, PartialEq, Eq)]
pub enum Event {
    Start,
    Lost { side: Side, why: Loss },
    Back(Side),
    /// The error of this number.
    Error(u8),
    /// The cycle's time is over.
    Cycle,
    /// The OB of this number is not loaded.
    MissingOb(u8),
    /// The inputs of both sides differ at this address.
    Discrepancy(u16),
    Stop(StopCode),
}

/// A diagnostic entry: its moment in ms, and what it says.
#[derive(Clone, Copy, Debug, PartialEq, Eq)]
pub struct Note {
    pub moment: u32,
    pub event: Event,
}

/// A data block: its number, and its bytes, zero-padded to 65,536.
#[derive(Debug, Drop)]
pub struct Block {
    number: u8,
    bytes: Vec<u8>,
}

impl Model for Block {
    ghost use Rattle.trace_reader.specs.Blocks.{DataBlock};

    ghost Value = { DataBlock };

    ghost view = { λ block. record { number = block.number; bytes = block.bytes.items } };
}

impl Block {
    ghost use Rattle.std.specs.Prelude.{◌≡◌};

    /// The data block of this number, with these bytes.
    pub(crate) fn new(number: u8, bytes: Vec<u8>) -> Block
        ensures { result ≡ record { number = number; bytes = bytes.items } }
    {
        Block { number, bytes }
    }

    /// Returns its number.
    pub fn number(&self) -> u8
        ensures { result ≡ self.now.number }
    {
        self.number
    }

    /// Returns its bytes.
    pub fn bytes(&self) -> &[u8]
        ensures { result.now ≡ self.now.bytes }
    {
        self.bytes.as_slice()
    }
}

/// A counter that is not 0.
#[derive(Clone, Copy, Debug, PartialEq, Eq)]
pub struct Counter {
    pub number: u8,
    pub value: u16,
}

/// The images of the inputs, of the outputs and of bit memory.
#[derive(Clone, Copy, Debug, PartialEq, Eq)]
pub struct Areas {
    pub inputs: [u8; 64],
    pub outputs: [u8; 64],
    pub memory: [u8; 1024],
}

/// The CPU where the trace ends.
#[derive(Debug, Drop)]
pub struct Tail {
    pub notes: Vec<Note>,
    pub areas: Areas,
    pub blocks: Vec<Block>,
    pub counters: Vec<Counter>,
}

/// How the trace ends.
#[derive(Clone, Copy, Debug, PartialEq, Eq)]
pub enum Ending {
    /// At the moment of the script's END.
    End,
    /// The CPU stopped.
    Stop(StopCode),
    /// No side is left.
    NoneLeft,
    /// There is no letter of the schedule left.
    Spent,
}

/// A trace.
#[derive(Debug, Drop)]
pub struct Trace {
    pub mode: Mode,
    pub entries: Vec<Entry>,
    pub tail: Option<Tail>,
    pub ending: Ending,
}
