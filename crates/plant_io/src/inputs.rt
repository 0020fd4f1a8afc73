//! The inputs of a script's modules.
ghost use Rattle.std.specs.Prelude.{◌≡◌, ℕ, true, false, ◌+◌, ◌-◌, ◌*◌, ◌^◌, ◌<◌, ◌≤◌, length, slice_get, slice_set, slice_index_or, position, IfOk, IfSome};
ghost use Rattle.std.specs.List.{list_any};
ghost use Rattle.plant_script.specs.declared.plan.Module.{Module};
ghost use Rattle.plant_script.specs.Form.{IsModule};
ghost use Rattle.plant_script.specs.Plan.{has_input};
ghost use Rattle.plant_io.specs.PairValue.{PairState, Standing, fresh, is_redundant};
ghost use Rattle.plant_io.specs.PlantValue.{HasModule};
ghost use Rattle.plant_io.specs.Inputs.{is_paired, no_states, stepped, states_before, is_due_at, held_byte, held_by, image_byte, input_image, answers, number_of, input_read, takes_output, step_module, AreStates, AreWithin, AreFresh, AreHeld, IsHeld, IsStepped};

use crate::redundant::Redundant;
use crate::value::{is_reachable, side_named};
use plant_script::{Module, ModuleKind, Script};
use s7_events::{NoMemory, Side};
use std::alloc::Global;
use std::marker::Model;

/// The most bytes of a direct access.
const MOST_WIDTH: u8 = 4;

/// The number of bytes of the input image.
const IMAGE_BYTES: usize = 64;

/// Whether both sides have such a module.
fn is_redundant(kind: ModuleKind) -> bool
    ensures { result ≡ is_redundant kind }
{
    match kind {
        ModuleKind::Redundant(_) => true,
        ModuleKind::Switched | ModuleKind::OneSided(_) => false,
    }
}

/// Whether it is a REDUNDANT module of inputs.
fn is_paired(m: &Module) -> bool
    ensures { result ≡ is_paired m.now }
{
    m.input && is_redundant(m.kind)
}

/// Whether it is a module of this direction that is reached and has all of so many bytes from an address on.
fn answers(m: &Module, input: bool, a_runs: bool, b_runs: bool, addr: u16, width: u8) -> bool
    ensures { result ≡ answers input a_runs b_runs addr width m.now }
{
    let direction = if input { m.input } else { !m.input };
    width <= MOST_WIDTH
        && direction
        && m.at_byte <= addr
        && u32::from(addr) + u32::from(width) <= m.past_end()
        && is_reachable(m.kind, a_runs, b_runs)
}

/// The place of the module of inputs that has the byte, counted from 0.
fn input_place(modules: &[Module], at_byte: u16) -> Option<usize>
    ensures { result ≡ position (has_input at_byte) modules.now }
{
    modules.iter().position(|m| m.has_input(at_byte))
}

/// The place of the module of inputs that is reached and has all of so many bytes from an address on.
fn answering_place(
    modules: &[Module],
    a_runs: bool,
    b_runs: bool,
    addr: u16,
    width: u8,
) -> Option<usize>
    ensures { result ≡ position (answers true a_runs b_runs addr width) modules.now }
{
    modules
        .iter()
        .position(|m| answers(m, true, a_runs, b_runs, addr, width))
}

/// Whether a module of outputs is reached and has all of so many bytes from an address on.
fn has_output(modules: &[Module], a_runs: bool, b_runs: bool, addr: u16, width: u8) -> bool
    ensures { result ≡ list_any (answers false a_runs b_runs addr width) modules.now }
{
    modules
        .iter()
        .any(|m| answers(m, false, a_runs, b_runs, addr, width))
}

/// Moment k of the module in a place.
#[tactic(auto, using(crate::proofs::States::stays))]
fn step_at(
    states: &mut Vec<Redundant>,
    place: usize,
    script: &Script,
    m: &Module,
    a_runs: bool,
    b_runs: bool,
    master: Side,
    k: u64,
)
    requires there { place < length states.old.items }
    requires placed { IsModule m.now }
    requires within { (slice_index_or states.old.items place fresh).run ≤ k }
    requires next { k + 1 < 2 ^ 64 }
    ensures { states.new.items ≡ slice_set states.old.items place (step_module script.now (record { a_runs = a_runs; b_runs = b_runs; master = master }) k m.now (slice_index_or states.old.items place fresh)) }
{
    if !is_paired(m) {
        return;
    }
    states[place].step_of(script, m, a_runs, b_runs, master, k);
}

/// Moment k of all modules.
fn step_all(
    states: &mut Vec<Redundant>,
    script: &Script,
    a_runs: bool,
    b_runs: bool,
    master: Side,
    k: u64,
)
    requires size { length states.old.items ≡ length script.now.modules }
    requires within { AreWithin k states.old.items }
    requires next { k + 1 < 2 ^ 64 }
    ensures stepped { IsStepped script.now (record { a_runs = a_runs; b_runs = b_runs; master = master }) k (length script.now.modules) states.old.items states.new.items }
    ensures within { AreWithin (k + 1) states.new.items }
{
    let modules = script.modules();
    for place in 0..modules.len() {
        step_at(
            states,
            place,
            script,
            &modules[place],
            a_runs,
            b_runs,
            master,
            k,
        );
    }
}

/// A byte of a module of inputs, whose state this is.
fn held_byte(
    script: &Script,
    m: &Module,
    state: &Redundant,
    at_byte: u16,
    a_runs: bool,
    b_runs: bool,
    k: u64,
) -> u8
    requires from { m.now.at_byte ≤ at_byte }
    requires within { at_byte < m.now.at_byte + 64 }
    ensures { result ≡ held_byte script.now a_runs b_runs state.now k m.now at_byte }
{
    if !is_reachable(m.kind, a_runs, b_runs) {
        return 0;
    }
    if is_redundant(m.kind) {
        return state.byte(usize::from(at_byte - m.at_byte));
    }
    script
        .input(at_byte, side_named(m.kind, Side::A), k)
        .unwrap_or(0)
}

/// A number with one byte more behind those that it has.
fn with_byte(number: u32, byte: u8) -> u32
    requires { 256 * number + byte < 2 ^ 32 }
    ensures { result ≡ 256 * number + byte }
{
    256 * number + u32::from(byte)
}

/// A state for each of so many modules, before the first moment.
fn fresh_states(alloc: Global, count: usize) -> Result<Vec<Redundant>, NoMemory>
    ensures { IfOk result (λ states. AreFresh count states.items) }
{
    let mut states = Vec::new(alloc);
    for _module in 0..count {
        if states.push(Redundant::new()).is_err() {
            return Err(NoMemory);
        }
    }
    Ok(states)
}

/// What the pair makes of the modules of inputs of a script, as the moments go on. Only `new` takes memory. All calls
/// are to be made with one script.
#[derive(Debug, Drop)]
pub struct Inputs {
    states: Vec<Redundant>,
    next: u64,
}

impl Model for Inputs {
    ghost use Rattle.plant_io.specs.Inputs.{InputsKept, AreWithin};

    ghost Value = { InputsKept };

    ghost view = { λ i. record { states = i.states.items; moment = i.next } };

    ghost invariant = { λ i. AreWithin i.next i.states.items };
}

impl Inputs {
    /// Before the first moment.
    pub fn new(alloc: Global, script: &Script) -> Result<Inputs, NoMemory>
        ensures states { IfOk result (λ inputs. AreStates script.now.modules no_states inputs.states) }
        ensures moment { IfOk result (λ inputs. inputs.moment ≡ 0) }
    {
        let states = fresh_states(alloc, script.modules().len())?;
        Ok(Inputs { states, next: 0 })
    }

    /// Takes moment k, in milliseconds: what both sides read of each REDUNDANT module of inputs, of which sides these run,
    /// by the rule of redundant inputs in `docs/plant.md`. To be called for moment 0, and then for each next moment.
    pub fn step(&mut self, script: &Script, a_runs: bool, b_runs: bool, master: Side, k: u64)
        requires size { length self.old.states ≡ length script.now.modules }
        requires moment { k ≡ self.old.moment }
        requires next { k + 1 < 2 ^ 64 }
        ensures states { (before : Module → PairState) → AreStates script.now.modules before self.old.states
            → AreStates script.now.modules (stepped script.now (record { a_runs = a_runs; b_runs = b_runs; master = master }) k before) self.new.states }
        ensures size { length self.new.states ≡ length self.old.states }
        ensures moment { self.new.moment ≡ k + 1 }

        // Over all moments, with the standing at each of them.
        ensures whole { (standing : ℕ → Standing) → standing k ≡ record { a_runs = a_runs; b_runs = b_runs; master = master }
            → AreStates script.now.modules (states_before script.now standing k) self.old.states
            → AreStates script.now.modules (states_before script.now standing (k + 1)) self.new.states }
    {
        step_all(&mut self.states, script, a_runs, b_runs, master, k);
        self.next = k + 1;
    }

    /// Returns whether OB70 has become due, by the last `step`, at the module in a place, counted from 0.
    pub fn is_due(&self, script: &Script, place: usize) -> bool
        requires there { HasModule script.now place }
        requires size { length self.now.states ≡ length script.now.modules }
        ensures { (states : Module → PairState) → AreStates script.now.modules states self.now.states
            → IfSome (slice_get script.now.modules place) (λ m. result ≡ is_due_at m (states m)) }
    {
        let m = script.modules()[place];
        is_paired(&m) && self.states[place].is_reached(m.kind)
    }

    /// The byte of the module of inputs in a place.
    fn byte_in(
        &self,
        script: &Script,
        place: usize,
        at_byte: u16,
        a_runs: bool,
        b_runs: bool,
        k: u64,
    ) -> u8
        requires size { length self.now.states ≡ length script.now.modules }
        requires held { IsHeld script.now place at_byte }
        ensures { (states : Module → PairState) → AreStates script.now.modules states self.now.states
            → result ≡ held_by script.now a_runs b_runs states k at_byte (slice_get script.now.modules place) }
    {
        let m = script.modules()[place];
        held_byte(script, &m, &self.states[place], at_byte, a_runs, b_runs, k)
    }

    /// A byte of the input image.
    fn image_byte(&self, script: &Script, at_byte: u16, a_runs: bool, b_runs: bool, k: u64) -> u8
        requires size { length self.now.states ≡ length script.now.modules }
        ensures { (states : Module → PairState) → AreStates script.now.modules states self.now.states
            → result ≡ image_byte script.now a_runs b_runs states k at_byte }
    {
        let Some(place) = input_place(script.modules(), at_byte) else {
            return 0;
        };
        self.byte_in(script, place, at_byte, a_runs, b_runs, k)
    }

    /// Returns the input image at moment k, where these sides run, after the `step` of this moment: each byte is that of the
    /// module of inputs that has it, and 0 where none does or it is not reached (the plant rule in `docs/plant.md`). Takes
    /// no memory.
    #[tactic(auto, unfolding(crate::specs::Inputs::input_image))]
    pub fn image(&self, script: &Script, a_runs: bool, b_runs: bool, k: u64) -> [u8; 64]
        requires size { length self.now.states ≡ length script.now.modules }
        ensures { (states : Module → PairState) → AreStates script.now.modules states self.now.states
            → result ≡ input_image script.now a_runs b_runs states k }
    {
        let mut bytes = [0; IMAGE_BYTES];
        for i in 0..IMAGE_BYTES {
            bytes[i] = self.image_byte(script, i as u16, a_runs, b_runs, k);
        }
        bytes
    }

    /// The number that the bytes of the module in a place spell, the highest first.
    fn number_in(
        &self,
        script: &Script,
        place: usize,
        a_runs: bool,
        b_runs: bool,
        addr: u16,
        width: u8,
        k: u64,
    ) -> u32
        requires size { length self.now.states ≡ length script.now.modules }
        requires held { AreHeld script.now place addr width }
        requires within { addr + width ≤ 1024 }
        requires width { width ≤ 4 }
        ensures value { (states : Module → PairState) → AreStates script.now.modules states self.now.states
            → result ≡ number_of (λ i. held_by script.now a_runs b_runs states k (addr + i) (slice_get script.now.modules place)) width }
        ensures below { result < 256 ^ width }
    {
        let mut number = 0;
        for i in 0..width {
            let at_byte = addr + u16::from(i);
            number = with_byte(
                number,
                self.byte_in(script, place, at_byte, a_runs, b_runs, k),
            );
        }
        number
    }

    /// Returns what a direct access of this width, in bytes, reads at an address at moment k, after the `step` of this
    /// moment: the number that its bytes spell, the highest first. None exactly where no single module of inputs that is
    /// reached has all bytes, or there are more than 4. Takes no memory.
    #[tactic(auto, unfolding(crate::specs::Inputs::input_read))]
    pub fn read(
        &self,
        script: &Script,
        a_runs: bool,
        b_runs: bool,
        addr: u16,
        width: u8,
        k: u64,
    ) -> Option<u32>
        requires { length self.now.states ≡ length script.now.modules }
        ensures value { (states : Module → PairState) → AreStates script.now.modules states self.now.states
            → result ≡ input_read script.now a_runs b_runs states k addr width }
        ensures below { IfSome result (λ number. number < 256 ^ 4) }
    {
        let Some(place) = answering_place(script.modules(), a_runs, b_runs, addr, width) else {
            return None;
        };
        Some(self.number_in(script, place, a_runs, b_runs, addr, width, k))
    }
}

/// Returns whether a direct access of this width, in bytes, may write at an address, where these sides run: a single
/// module of outputs that is reached has all bytes (`docs/plant.md`).
#[tactic(auto, unfolding(crate::specs::Inputs::takes_output))]
pub fn takes_output(script: &Script, a_runs: bool, b_runs: bool, addr: u16, width: u8) -> bool
    ensures { result ≡ takes_output script.now a_runs b_runs addr width }
{
    has_output(script.modules(), a_runs, b_runs, addr, width)
}
