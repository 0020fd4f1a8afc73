//! The machine, whose inside its users do not see.
ghost use Rattle.std.specs.Prelude.{◌≡◌, ◌≤◌, ℕ, ◌++◌, ◌∷◌, [], List, length, Option, Some, None, slice_get, false, IfSome, IsTrue, OnOk, OnErr, ◌↔◌, flat_map};
ghost use Rattle.timers.specs.Bytes as timer_form;
ghost use Rattle.counters.specs.Bytes as counter_form;
ghost use Rattle.std.specs.Option.{option_map};
ghost use Rattle.s7_base.specs.Blocks.{Program};
ghost use Rattle.mc_machine.specs.EngineView.{config_of};
ghost use Rattle.mc_machine.specs.Stands.{IsIdle, IsRunning, CanAsk, CanTake, IsDated, CanGoOn, IsAsked, HasStopped, WaitsAt, Stands, CpuWaits, CpuStopped, area_bytes, OfRunning, HasSizes, byte_of, block_length_of, counter_of, notes_of};

use crate::codes::decoded_codes;
use crate::engine::Engine;
use diag_buffer::Diag;
use s7_base::{Answer, Area, Blocks, DiagCode, NoMemory, Request};
use statement_effects::{ByteArea, Memory};
use std::alloc::Global;
use std::marker::Model;

/// A CPU: idle, or running a program from request to request. Only `load` takes memory.
#[derive(Debug, Drop)]
pub struct Machine {
    engine: Option<Engine>,
}

impl Model for Machine {
    ghost use Rattle.std.specs.Prelude.{Option, IfSome};
    ghost use Rattle.std.specs.Option.{option_map};
    ghost use Rattle.mc_machine.specs.Stands.{Running, IsValid};
    ghost use Rattle.mc_machine.specs.EngineView.{running_of, IsStored};

    ghost Value = { Option Running };

    ghost view = { λ m. option_map running_of m.engine };

    ghost invariant = { λ m. IfSome m.engine (λ engine. IsValid (running_of engine) × IsStored engine) };
}

impl Machine {
    /// An idle machine.
    pub fn new() -> Machine
        ensures { IsIdle result }
    {
        Machine { engine: None }
    }

    /// Runs from the start of the CPU. At `Err` it is idle still.
    pub fn load(&mut self, alloc: Global, blocks: &Blocks) -> Result<(), NoMemory>
        requires idle { IsIdle self.old }
        ensures ok { OnOk result (Stands blocks.now [] self.new) }
        ensures going { OnOk result (CanAsk self.new) }
        ensures err { OnErr result (self.new ≡ self.old) }
    {
        let program = blocks.copy(alloc)?;
        let decoded = decoded_codes(alloc, program.codes())?;
        let memory = Memory::start(alloc, &program)?;
        let diag = Diag::new(alloc)?;
        self.engine = Some(Engine::start(program, decoded, memory, diag));
        Ok(())
    }

    /// Whether the CPU has stopped.
    pub fn stopped(&self) -> bool
        requires { IsRunning self.now }
        ensures answer { IsTrue result ↔ HasStopped self.now }
        ensures going { result ≡ false → CanAsk self.now }
        // then the CPU has stopped after the answers that were taken
        ensures stops { HasStopped self.now → (program : Program) (given : List Answer) → Stands program given self.now → CpuStopped program given self.now }
    {
        match &self.engine {
            Some(engine) => engine.is_over(),
            None => false,
        }
    }

    /// Runs to the next request. Asked again, it answers the same.
    pub fn ask(&mut self) -> Request
        requires { CanAsk self.old }
        ensures waits { WaitsAt self.new result }
        ensures same { (request : Request) → WaitsAt self.old request → (result ≡ request) × (self.new ≡ self.old) }
        ensures going { CanAsk self.new }
        ensures asked { IsAsked result.ask }
        // it stands for what it stood for
        ensures stands { (program : Program) (given : List Answer) → Stands program given self.old → Stands program given self.new }
        // and asks what the CPU asks after the answers that were taken, in the CPU's state
        ensures next { (program : Program) (given : List Answer) → Stands program given self.old → CpuWaits program given result self.new }
    {
        let Some(engine) = &mut self.engine else {
            unreachable!()
        };
        engine.ask()
    }

    /// Takes the answer to the request at which it waits; `moment` is the number of answers taken before.
    pub fn take(&mut self, answer: &Answer, moment: u64)
        requires { CanTake self.old answer.now }
        ensures running { IsRunning self.new }
        ensures going { CanGoOn self.old answer.now → CanAsk self.new }
        // it stands for the CPU after this answer too; an answer Now is to be that of this moment
        ensures stands { (program : Program) (given : List Answer) → moment ≡ length given → IsDated moment answer.now → Stands program given self.old
            → Stands program (given ++ answer.now ∷ []) self.new }
    {
        if let Some(engine) = &mut self.engine {
            engine.take(answer, moment);
        }
    }

    /// The byte of an area. None exactly where there is no such area or byte.
    pub fn image_byte(&self, area: Area, at_byte: u16) -> Option<u8>
        requires { IsRunning self.now }
        ensures byte { result ≡ byte_of self.now area at_byte }
        ensures sizes { OfRunning self.now (λ running. HasSizes running.config.memory) }
    {
        match &self.engine {
            Some(engine) => area_byte(engine, area, at_byte),
            None => None,
        }
    }

    /// The diagnostic entry k of those kept, the oldest first: its moment in milliseconds and its text. None
    /// exactly where k is not below their number.
    pub fn note_at(&self, k: u32) -> Option<(u64, DiagCode)>
        requires { IsRunning self.now }
        ensures { result ≡ option_map (λ note. (note.moment, note.code)) (slice_get (notes_of self.now) k) }
    {
        match &self.engine {
            Some(engine) => engine.note_at(k),
            None => None,
        }
    }

    /// How many diagnostic entries are kept.
    pub fn note_count(&self) -> u32
        requires { IsRunning self.now }
        ensures { result ≡ length (notes_of self.now) }
    {
        match &self.engine {
            Some(engine) => engine.note_count(),
            None => 0,
        }
    }

    /// The value of a counter, from 0 to 999.
    pub fn counter_value(&self, n: u8) -> u16
        requires { IsRunning self.now }
        ensures value { result ≡ counter_of self.now n }
        ensures bound { result ≤ 999 }
        ensures count { OfRunning self.now (λ running. length running.config.memory.counters ≡ 256) }
    {
        match &self.engine {
            Some(engine) => engine.memory().counter(n).value(),
            None => 0,
        }
    }

    /// The number of bytes of a data block, at most 8,192. None exactly where it is not loaded.
    pub fn block_length(&self, n: u8) -> Option<u16>
        requires { IsRunning self.now }
        ensures length { result ≡ block_length_of self.now n }
        ensures few { IfSome result (λ length. length ≤ 8192) }
        ensures sizes { OfRunning self.now (λ running. HasSizes running.config.memory) }
    {
        match &self.engine {
            Some(engine) => {
                show_sizes(engine.memory());
                engine.memory().data_length(n)
            }
            None => None,
        }
    }
}

/// The byte of a list at a place, if there is one.
fn byte_at(bytes: &[u8], at: usize) -> Option<u8>
    ensures { result ≡ slice_get bytes.now at }
{
    bytes.get(at).copied()
}

/// The byte of the area of the timers, 24 bytes each.
#[tactic(auto, using(crate::proofs::AreaBytes::no_timer_byte, crate::proofs::AreaBytes::timer_byte))]
fn timer_byte(memory: &Memory, at: usize) -> Option<u8>
    ensures { result ≡ slice_get (flat_map timer_form.bytes_of memory.now.timers) at }
{
    let timer = memory.find_timer(at / 24)?;
    byte_at(&timer.to_bytes(), at % 24)
}

/// The byte of the area of the counters, four bytes each.
#[tactic(auto, using(crate::proofs::AreaBytes::no_counter_byte, crate::proofs::AreaBytes::counter_byte))]
fn counter_byte(memory: &Memory, at: usize) -> Option<u8>
    ensures { result ≡ slice_get (flat_map counter_form.bytes_of memory.now.counters) at }
{
    let counter = memory.find_counter(at / 4)?;
    byte_at(&counter.to_bytes(), at % 4)
}

/// Shows how many bytes, timers and counters there are.
fn show_sizes(memory: &Memory)
    ensures { HasSizes memory.now }
{
    memory.show_sizes();
}

/// The byte of an area.
fn area_byte(engine: &Engine, area: Area, at_byte: u16) -> Option<u8>
    ensures byte { result ≡ slice_get (area_bytes (config_of engine.now) area) at_byte }
    ensures sizes { HasSizes (config_of engine.now).memory }
{
    let memory = engine.memory();
    show_sizes(memory);
    let at = at_byte as usize;
    match area {
        Area::I => memory.byte(ByteArea::I, at),
        Area::Q => memory.byte(ByteArea::Q, at),
        Area::M => memory.byte(ByteArea::M, at),
        Area::Timers => timer_byte(memory, at),
        Area::Counters => counter_byte(memory, at),
        Area::Registers => engine.register_byte(at),
        Area::Db(number) => memory.byte(ByteArea::Db(number), at),
    }
}
