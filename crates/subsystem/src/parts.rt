//! One side of the pair.
ghost use Rattle.std.specs.Prelude.{◌≡◌, ◌<◌, ◌≤◌, ◌+◌, ◌^◌, ◌∷◌, [], ◌++◌, ◌↔◌, ℕ, false, List, length, slice_get, OnOk, OnErr, IfOk, IfSome, IsTrue};
ghost use Rattle.std.specs.Option.{option_map};
ghost use Rattle.s7_base.specs.Blocks.{Program};
ghost use Rattle.s7_events.specs.declared.entry.Answer.{Answer};
ghost use Rattle.s7_events.specs.declared.entry.Request.{Request};
ghost use Rattle.mc_machine.specs.Stands.{CanAsk, CanTake, IsDated, CanGoOn, IsAsked, IsIdle, WaitsAt, Stands, CpuWaits, CpuStopped, OfRunning, HasSizes, byte_of, block_length_of, counter_of, notes_of};
ghost use Rattle.subsystem.specs.Part.{IsNew, IsOpen, first_life, TookOne};

use mc_machine::Machine;
use s7_base::{Answer, Area, Blocks, DiagCode, NoMemory, Request};
use std::alloc::Global;
use std::marker::Model;

/// How a life began.
#[derive(Clone, Copy, Debug, PartialEq, Eq)]
pub enum How {
    /// By a load, at entry 0.
    Loaded,
    /// By taking over the state of the other side.
    Adopted,
}

/// A life of a side: it took the entries `first` to `next` - 1.
#[derive(Clone, Copy, Debug, PartialEq, Eq)]
pub struct Life {
    pub how: How,
    pub first: u32,
    pub next: u32,
}

/// The most lives that are kept.
const LIVES: usize = 66;

/// What a side is doing.
#[derive(Debug, Drop)]
pub enum Phase {
    /// It is out, and has nothing.
    Out,
    /// It is out, and holds this number of parcels of the other side's state. No side comes back yet, so none is in this
    /// phase.
    Holding(u32),
    /// A life is open: its machine runs.
    Running(Machine),
}

/// One side: what it is doing, and the lives that it has had. Only `new` and `load` take memory.
#[derive(Debug, Drop)]
pub struct Subsystem {
    phase: Phase,
    lives: Vec<Life>,
}

impl Model for Subsystem {
    ghost use Rattle.std.specs.Prelude.{◌≡◌, ◌≤◌, ◌<◌, true, vec_len, vec_capacity, is_some};
    ghost use Rattle.subsystem.specs.Part.{Part, IsOpen};
    ghost use Rattle.subsystem.specs.Phases.{machine_in, IsPhase};

    ghost Value = { Part };

    ghost view = { λ s. record { machine = machine_in s.phase; lives = s.lives.items } };

    // an open life is the last that is kept
    ghost invariant = { λ s. (66 ≤ vec_capacity s.lives) × IsPhase s.phase × (is_some (machine_in s.phase) ≡ true → 0 < vec_len s.lives) };
}

impl Subsystem {
    /// One that is out: no machine and no life.
    pub fn new(alloc: Global) -> Result<Subsystem, NoMemory>
        ensures { IfOk result IsNew }
    {
        match Vec::with_capacity(alloc, LIVES) {
            Ok(lives) => Ok(Subsystem {
                phase: Phase::Out,
                lives,
            }),
            Err(_) => Err(NoMemory),
        }
    }

    /// A new life begins with the first entry.
    pub fn load(&mut self, alloc: Global, blocks: &Blocks) -> Result<(), NoMemory>
        requires new { IsNew self.old }
        ensures lives { OnOk result (self.new.lives ≡ first_life ∷ []) }
        ensures stands { OnOk result (Stands blocks.now [] self.new.machine) }
        ensures going { OnOk result (CanAsk self.new.machine) }
        ensures err { OnErr result (self.new ≡ self.old) }
    {
        let mut machine = Machine::new();
        machine.load(alloc, blocks)?;
        let life = Life {
            how: How::Loaded,
            first: 0,
            next: 0,
        };
        let Ok(()) = self.lives.push(life) else {
            unreachable!();
        };
        self.phase = Phase::Running(machine);
        Ok(())
    }

    /// Whether a life is open and its CPU has not stopped.
    pub fn can_ask(&self) -> bool
        ensures answer { IsTrue result ↔ CanAsk self.now.machine }
        // where a life is open and its CPU cannot be asked, it has stopped after the answers that were taken
        ensures stops { result ≡ false → IsOpen self.now → (program : Program) (given : List Answer) → Stands program given self.now.machine
            → CpuStopped program given self.now.machine }
    {
        match &self.phase {
            Phase::Running(machine) => !machine.stopped(),
            Phase::Out | Phase::Holding(_) => false,
        }
    }

    /// The next request of its CPU. Asked again, it answers the same.
    pub fn ask(&mut self) -> Request
        requires { CanAsk self.old.machine }
        ensures lives { self.new.lives ≡ self.old.lives }
        ensures waits { WaitsAt self.new.machine result }
        ensures going { CanAsk self.new.machine }
        ensures asked { IsAsked result.ask }
        ensures stands { (program : Program) (given : List Answer) → Stands program given self.old.machine → Stands program given self.new.machine }
        ensures next { (program : Program) (given : List Answer) → Stands program given self.old.machine → CpuWaits program given result self.new.machine }
    {
        let Phase::Running(machine) = &mut self.phase else {
            unreachable!();
        };
        machine.ask()
    }

    /// Takes an entry's answer: the last life grows by it.
    pub fn take(&mut self, answer: &Answer, moment: u64)
        requires takes { CanTake self.old.machine answer.now }
        requires few { (front : List Life) (life : Life) → self.old.lives ≡ front ++ life ∷ [] → life.next + 1 < 2 ^ 32 }
        ensures lives { TookOne self.old.lives self.new.lives }
        ensures running { IsOpen self.new }
        ensures going { CanGoOn self.old.machine answer.now → CanAsk self.new.machine }
        ensures stands { (program : Program) (given : List Answer) → moment ≡ length given → IsDated moment answer.now → Stands program given self.old.machine
            → Stands program (given ++ answer.now ∷ []) self.new.machine }
    {
        if let Phase::Running(machine) = &mut self.phase {
            machine.take(answer, moment);
        }
        let Some(life) = self.lives.pop() else {
            unreachable!();
        };
        let longer = Life {
            how: life.how,
            first: life.first,
            next: life.next + 1,
        };
        let Ok(()) = self.lives.push(longer) else {
            unreachable!();
        };
    }

    /// Ends the life that is open, if one is. The lives stay as they are.
    pub fn cut(&mut self)
        ensures idle { IsIdle self.new.machine }
        ensures lives { self.new.lives ≡ self.old.lives }
    {
        if let Phase::Out = self.phase {
            return;
        }
        self.phase = Phase::Out;
    }

    /// The machine of a life that is open.
    fn running(&self) -> &Machine
        requires { IsOpen self.now }
        ensures machine { result.now ≡ self.now.machine }
    {
        let Phase::Running(machine) = &self.phase else {
            unreachable!();
        };
        machine
    }

    /// The lives, in their order.
    pub fn lives(&self) -> &[Life]
        ensures { result.now ≡ self.now.lives }
    {
        &self.lives
    }

    /// The byte of an area. None exactly where there is no such area or byte.
    pub fn image_byte(&self, area: Area, at_byte: u16) -> Option<u8>
        requires { IsOpen self.now }
        ensures byte { result ≡ byte_of self.now.machine area at_byte }
        ensures sizes { OfRunning self.now.machine (λ running. HasSizes running.config.memory) }
    {
        self.running().image_byte(area, at_byte)
    }

    /// The diagnostic entry k of those kept, the oldest first: its moment in milliseconds and its text. None
    /// exactly where k is not below their number.
    pub fn note_at(&self, k: u32) -> Option<(u64, DiagCode)>
        requires { IsOpen self.now }
        ensures { result ≡ option_map (λ note. (note.moment, note.code)) (slice_get (notes_of self.now.machine) k) }
    {
        self.running().note_at(k)
    }

    /// How many diagnostic entries are kept.
    pub fn note_count(&self) -> u32
        requires { IsOpen self.now }
        ensures { result ≡ length (notes_of self.now.machine) }
    {
        self.running().note_count()
    }

    /// The value of a counter, from 0 to 999.
    pub fn counter_value(&self, n: u8) -> u16
        requires { IsOpen self.now }
        ensures value { result ≡ counter_of self.now.machine n }
        ensures bound { result ≤ 999 }
        ensures count { OfRunning self.now.machine (λ running. length running.config.memory.counters ≡ 256) }
    {
        self.running().counter_value(n)
    }

    /// The number of bytes of a data block, at most 8,192. None exactly where it is not loaded.
    pub fn block_length(&self, n: u8) -> Option<u16>
        requires { IsOpen self.now }
        ensures length { result ≡ block_length_of self.now.machine n }
        ensures few { IfSome result (λ length. length ≤ 8192) }
        ensures sizes { OfRunning self.now.machine (λ running. HasSizes running.config.memory) }
    {
        self.running().block_length(n)
    }
}
