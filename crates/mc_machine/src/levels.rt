//! How blocks begin, and what an error leads to.
ghost use Rattle.std.specs.Prelude.{◌≡◌, ◌<◌, ◌≤◌, [], length, Ok, Err, OnOk, OnErr, IfErr, IfSome, IsTrue};
ghost use Rattle.std.specs.Option.{option_map};
ghost use Rattle.s7_events.specs.Priorities.{has_priority, priority_of};
ghost use Rattle.s7_base.specs.declared.blocks.CodeKind.{CodeKind};
ghost use Rattle.s7_base.specs.Blocks.{code_of};
ghost use Rattle.level_stack.specs.Levels.{running_locals};
ghost use Rattle.mc_machine.specs.Meaning.{local_bytes_of, local_bytes_in, stop_of, block_entered, startup_entered, main_entered, level_begun, error_ob, no_error_ob, error_entered, error_registers, call_registers, instance_registers, restored, start_byte, start_value, start_moment};
ghost use Rattle.mc_machine.specs.Stands.{AreBegun, IsDeeper, IsHigher, rank_of};
ghost use Rattle.mc_machine.specs.EngineView.{level_in, kept_of, AreFound};

use crate::index::CodeIndex;
use crate::places::{Cause, Frame, Level, Returns};
use bit_unit::BitUnit;
use s7_base::{BlockRef, Blocks, CodeBlock, CodeKind, StopCode, priority};
use statement_effects::{LevelFault, Memory, Registers};

/// The local bytes of a code block.
pub fn local_bytes(code: &CodeBlock) -> u16
    ensures { result ≡ local_bytes_of code.now }
{
    let temp = code.temp();
    match code.kind() {
        CodeKind::Ob => { if temp < 20 { 20 } else { temp } }
        CodeKind::Fb | CodeKind::Fc => temp,
    }
}

/// The stop where a block cannot begin.
fn stop_of(fault: LevelFault) -> StopCode
    ensures { result ≡ stop_of fault }
{
    match fault {
        LevelFault::DepthReached => StopCode::Depth,
        LevelFault::LocalFull => StopCode::Local,
    }
}

/// Begins a block on the level that runs, with its local data.
///
/// # Errors
/// The stop where no depth or no local data is left. Nothing changes.
#[tactic(auto, using(crate::proofs::Begun::has_level, crate::proofs::Begun::is_deeper, crate::proofs::Begun::block_has))]
pub fn enter_block(memory: &mut Memory, block: BlockRef, code: &CodeBlock) -> Result<(), StopCode>
    requires { 0 < length memory.old.levels }
    ensures ok { OnOk result (block_entered memory.old block code.now ≡ Ok memory.new) }
    ensures deeper { OnOk result (IsDeeper memory.old.levels memory.new.levels) }
    ensures local { OnOk result (length (running_locals memory.new.levels) ≡ local_bytes_of code.now) }
    ensures err { IfErr result (λ stop. block_entered memory.old block code.now ≡ Err stop) }
    ensures same { OnErr result (memory.new ≡ memory.old) }
{
    match memory.begin_block(block, local_bytes(code)) {
        Ok(()) => Ok(()),
        Err(fault) => Err(stop_of(fault)),
    }
}

/// Begins OB100 on a level of its own.
///
/// # Errors
/// The stop where it has no local data. Nothing changes.
#[tactic(auto, using(crate::proofs::Begun::main_begins, crate::proofs::Begun::first_has))]
pub fn enter_startup(memory: &mut Memory, code: &CodeBlock) -> Result<(), StopCode>
    requires idle { memory.old.levels ≡ [] }
    requires enough { 20 ≤ local_bytes_of code.now }
    ensures ok { OnOk result (startup_entered memory.old code.now ≡ Ok memory.new) }
    ensures begun { OnOk result (AreBegun 1 memory.new.levels) }
    ensures local { OnOk result (20 ≤ length (running_locals memory.new.levels)) }
    ensures err { IfErr result (λ stop. startup_entered memory.old code.now ≡ Err stop) }
    ensures same { OnErr result (memory.new ≡ memory.old) }
{
    match memory.begin_level(priority(100), ob(100), local_bytes(code)) {
        Ok(()) => Ok(()),
        Err(fault) => Err(stop_of(fault)),
    }
}

/// The local bytes of an organisation block; one that is not loaded has those of its start information.
#[tactic(auto, using(crate::proofs::Begun::ob_has))]
fn ob_bytes(program: &Blocks, index: &CodeIndex, number: u8) -> u16
    requires { AreFound program.now.codes index.now }
    ensures bytes { result ≡ local_bytes_in (code_of program.now CodeKind.Ob number) }
    ensures enough { 20 ≤ result }
{
    match index.code(program, ob(number)) {
        Some(code) => local_bytes(code),
        None => 20,
    }
}

/// The local bytes of an organisation block. None exactly where it is not loaded.
#[tactic(auto, using(crate::proofs::Begun::ob_has))]
pub fn bytes_of_ob(program: &Blocks, index: &CodeIndex, number: u8) -> Option<u16>
    requires { AreFound program.now.codes index.now }
    ensures bytes { result ≡ option_map local_bytes_of (code_of program.now CodeKind.Ob number) }
    ensures enough { IfSome result (λ bytes. 20 ≤ bytes) }
{
    index.code(program, ob(number)).map(local_bytes)
}

/// Begins an organisation block on a level of its own, over the levels that there are, with clear registers and with `bytes` bytes
/// of local data.
///
/// # Errors
/// The stop where it has no local data. Nothing changes.
#[tactic(auto, using(crate::proofs::Interrupting::few_levels, crate::proofs::Interrupting::level_begins, crate::proofs::Begun::first_has, crate::proofs::Interrupting::cleared_begins, crate::proofs::Interrupting::cleared_refused))]
pub fn enter_level(memory: &mut Memory, number: u8, bytes: u16) -> Result<(), StopCode>
    requires starts { IsTrue (has_priority number) }
    requires room { length memory.old.levels < rank_of (priority_of number) }
    requires enough { 20 ≤ bytes }
    ensures ok { OnOk result (level_begun memory.old number bytes ≡ Ok memory.new) }
    ensures begun { OnOk result (IsHigher memory.old.levels memory.new.levels) }
    ensures local { OnOk result (20 ≤ length (running_locals memory.new.levels)) }
    ensures err { IfErr result (λ stop. level_begun memory.old number bytes ≡ Err stop) }
    ensures same { OnErr result (memory.new ≡ memory.old) }
{
    match memory.begin_level(priority(number), ob(number), bytes) {
        Ok(()) => {
            memory.set_registers(Registers::clear());
            Ok(())
        }
        Err(fault) => Err(stop_of(fault)),
    }
}

/// Begins OB1 on a level of its own.
///
/// # Errors
/// The stop where it has no local data. Nothing changes.
#[tactic(auto, using(crate::proofs::Begun::main_begins, crate::proofs::Begun::first_has))]
pub fn enter_main(program: &Blocks, index: &CodeIndex, memory: &mut Memory) -> Result<(), StopCode>
    requires found { AreFound program.now.codes index.now }
    requires idle { memory.old.levels ≡ [] }
    ensures ok { OnOk result (main_entered program.now memory.old ≡ Ok memory.new) }
    ensures begun { OnOk result (AreBegun 1 memory.new.levels) }
    ensures local { OnOk result (20 ≤ length (running_locals memory.new.levels)) }
    ensures err { IfErr result (λ stop. main_entered program.now memory.old ≡ Err stop) }
    ensures same { OnErr result (memory.new ≡ memory.old) }
{
    let bytes = ob_bytes(program, index, 1);
    match memory.begin_level(1, ob(1), bytes) {
        Ok(()) => Ok(()),
        Err(fault) => Err(stop_of(fault)),
    }
}

/// The organisation block of a number.
pub fn ob(number: u8) -> BlockRef
    ensures { result ≡ record { kind = CodeKind.Ob; number = number } }
{
    BlockRef {
        kind: CodeKind::Ob,
        number,
    }
}

/// The number of the OB of an error.
pub fn error_ob(error: u8) -> u8
    ensures { result ≡ error_ob error }
{
    if error == 9 { 122 } else { 121 }
}

/// The stop where the OB of an error is not loaded.
fn no_error_ob(error: u8) -> StopCode
    ensures { result ≡ no_error_ob error }
{
    if error == 9 {
        StopCode::NoOb122
    } else {
        StopCode::NoOb121
    }
}

/// Begins the OB of an error on the level of the block that failed.
///
/// # Errors
/// The stop where it cannot begin. Nothing changes.
pub fn enter_error_ob(
    program: &Blocks,
    index: &CodeIndex,
    memory: &mut Memory,
    level: Level,
    error: u8,
) -> Result<(), StopCode>
    requires found { AreFound program.now.codes index.now }
    requires level { 0 < length memory.old.levels }
    ensures ok { OnOk result (error_entered program.now (level_in level) memory.old error ≡ Ok memory.new) }
    ensures deeper { OnOk result (IsDeeper memory.old.levels memory.new.levels) }
    ensures local { OnOk result (20 ≤ length (running_locals memory.new.levels)) }
    ensures err { IfErr result (λ stop. error_entered program.now (level_in level) memory.old error ≡ Err stop) }
    ensures same { OnErr result (memory.new ≡ memory.old) }
{
    if level.in_error {
        return Err(StopCode::InError);
    }
    let block = ob(error_ob(error));
    let Some(code) = index.code(program, block) else {
        return Err(no_error_ob(error));
    };
    enter_block(memory, block, code)
}

/// Byte 1 of the start information.
pub fn start_byte(first_over: bool, cause: Cause) -> u8
    ensures { result ≡ start_byte first_over cause }
{
    match cause {
        Cause::CpuStarted => 1,
        Cause::CycleBegan => if first_over { 3 } else { 1 },
        Cause::StatementFailed(error) => error,
        Cause::AlarmCame(_) | Cause::BlockMissing(_) => 0,
    }
}

/// The info of the start information: of OB1 how long the cycle before took, in milliseconds; of the OB of an alarm that of the
/// alarm; of OB85 the number of the block that is missing.
pub fn start_value(last_length: u16, cause: Cause) -> u32
    ensures { result ≡ start_value last_length cause }
{
    match cause {
        Cause::CycleBegan => u32::from(last_length),
        Cause::AlarmCame(info) => info,
        Cause::BlockMissing(number) => u32::from(number),
        Cause::CpuStarted | Cause::StatementFailed(_) => 0,
    }
}

/// The moment of the start information: that of the last answer, in its low 32 bits, and none of OB1.
pub fn start_moment(at: u64, cause: Cause) -> u32
    ensures { result ≡ start_moment at cause }
{
    match cause {
        Cause::CycleBegan => 0,
        Cause::CpuStarted
        | Cause::StatementFailed(_)
        | Cause::AlarmCame(_)
        | Cause::BlockMissing(_) => (at % (1 << 32)) as u32,
    }
}

/// The registers with which an error OB begins.
pub fn error_registers(registers: &Registers) -> Registers
    ensures { result ≡ error_registers registers.now }
{
    let mut inside = Registers::clear();
    inside.accus = registers.accus;
    inside.data = registers.data;
    inside
}

/// The registers with which a block that is called begins.
pub fn call_registers(registers: &Registers) -> Registers
    ensures { result ≡ call_registers registers.now }
{
    let mut inside = *registers;
    inside.status.after_block();
    inside.unit = BitUnit::new();
    inside
}

/// The registers with which a function block begins that is called with the data block of a number.
pub fn instance_registers(registers: &Registers, number: u8) -> Registers
    ensures { result ≡ instance_registers registers.now number }
{
    let mut inside = call_registers(registers);
    inside.data.instance = Some(number);
    inside
}

/// The registers when a frame goes on, with what comes back of those that it kept.
pub fn restored(registers: &Registers, frame: &Frame) -> Registers
    ensures { result ≡ restored registers.now (kept_of frame.now.returns frame.now.kept) }
{
    match frame.returns {
        Returns::Whole => frame.kept,
        Returns::Brackets => Registers {
            unit: frame.kept.unit,
            data: frame.kept.data,
            ..*registers
        },
    }
}
