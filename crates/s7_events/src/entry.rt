//! The entries of a record: what a CPU asks, and what it is answered.

/// One of the two subsystems.
#[derive(Clone, Copy, Debug, PartialEq, Eq)]
pub enum Side {
    A,
    B,
}

/// Why a side is lost: it failed, or it was suspected.
#[derive(Clone, Copy, Debug, PartialEq, Eq)]
pub enum Loss {
    Failed,
    Suspect,
}

/// Why a CPU stops.
#[derive(Clone, Copy, Debug, PartialEq, Eq)]
pub enum StopCode {
    /// The cycle took too long.
    Cycle,
    /// SFC 46 was called.
    Sfc46,
    /// OB121 is missing.
    NoOb121,
    /// OB122 is missing.
    NoOb122,
    /// OB85 is missing.
    NoOb85,
    /// The block depth was passed.
    Depth,
    /// The local data were used up.
    Local,
    /// An error came inside an error OB.
    InError,
}

/// What a CPU asks. Addresses are those of peripheral bytes, widths are 1, 2 or 4 bytes.
#[derive(Clone, Copy, Debug, PartialEq, Eq)]
pub enum Ask {
    /// To put out the output image, at the start of a cycle.
    Outputs([u8; 64]),
    /// The input image.
    Inputs,
    /// Whether the next cycle may start.
    Cycle,
    /// A value of the inputs, read directly.
    ReadP { addr: u16, width: u8 },
    /// To write a value to the outputs directly.
    WriteP { addr: u16, width: u8, value: u32 },
    /// The moment, for a timer.
    Now,
    /// To go on after 256 statements without a request.
    Tick,
    /// To start the monitoring time anew.
    Retrigger,
    /// To hand on what a job read, or that its address does not exist.
    Reply(Option<u32>),
    /// To stop.
    Stop(StopCode),
}

/// A request, with the priority of the level that asks.
#[derive(Clone, Copy, Debug, PartialEq, Eq)]
pub struct Request {
    pub prio: u8,
    pub ask: Ask,
}

/// Where a job reads or writes.
#[derive(Clone, Copy, Debug, PartialEq, Eq)]
pub enum JobArea {
    /// Bit memory.
    M,
    /// The data block of this number.
    Db(u16),
}

/// A job from outside: it reads or writes `width` bytes. A read job has the value 0.
#[derive(Clone, Copy, Debug, PartialEq, Eq)]
pub struct Job {
    pub write: bool,
    pub area: JobArea,
    pub at_byte: u16,
    pub width: u8,
    pub value: u32,
}

/// What a CPU is answered. `Alarm`, `Job`, `Lost`, `Back` and `Hold` end no request: it is made again.
#[derive(Clone, Copy, Debug, PartialEq, Eq)]
pub enum Answer {
    /// The input image.
    Image([u8; 64]),
    /// What was read.
    Value(u32),
    /// The moment.
    Now(u64),
    /// It was done.
    Done,
    /// The next cycle may start.
    Go,
    /// Nothing changes; a side is being updated.
    Hold,
    /// The OB of this number runs first, with this start information.
    Alarm { ob: u8, info: u32 },
    /// A job is to be done first.
    Job(Job),
    /// A side was lost.
    Lost { side: Side, why: Loss },
    /// A side has come back as reserve.
    Back { side: Side },
    /// No module answers there.
    NoModule,
    /// The CPU is stopped from outside.
    CpuStop(StopCode),
}

/// An entry of the record. Entry k, counted from 0, stands at moment k, in milliseconds.
#[derive(Clone, Copy, Debug, PartialEq, Eq)]
pub struct Entry {
    pub request: Request,
    pub answer: Answer,
}
