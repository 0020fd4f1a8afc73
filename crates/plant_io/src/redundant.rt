//! A module of inputs that both sides have.
ghost use Rattle.std.specs.Prelude.{◌≡◌, ℕ, true, ◌+◌, ◌-◌, ◌^◌, ◌<◌, ◌≤◌, Some, slice_get, slice_index, IsTrue, IfSome};
ghost use Rattle.plant_io.specs.PairValue.{PairState, Standing, fresh, pair_step, is_due, step_of, is_due_of, pair_before, master_runs, is_redundant, IsRedundantInput, time_of, is_reached};
ghost use Rattle.plant_io.specs.PlantValue.{side_bytes};
ghost use Rattle.plant_script.specs.Form.{IsModule};
ghost use Rattle.plant_script.specs.declared.plan.Module.{Module};
ghost use Rattle.s7_events.specs.declared.entry.Side.{Side};

use crate::value::{MODULE_BYTES, side_bytes};
use plant_script::{Module, ModuleKind, Script};
use s7_events::Side;
use std::marker::Model;

/// The discrepancy time of a REDUNDANT module in milliseconds, 0 of any other.
fn time_of(kind: ModuleKind) -> u16
    ensures { result ≡ time_of kind }
{
    match kind {
        ModuleKind::Redundant(time) => time,
        ModuleKind::Switched | ModuleKind::OneSided(_) => 0,
    }
}

/// What two sides make of one REDUNDANT module of inputs: the value that the pair takes, and for how many moments in
/// a row the sides have differed. It takes no memory.
#[derive(Debug, Drop)]
pub struct Redundant {
    run: u64,
    first: u16,
    bytes: [u8; MODULE_BYTES],
}

impl Model for Redundant {
    ghost use Rattle.plant_io.specs.PairValue.{PairState};

    ghost Value = { PairState };

    ghost view = { λ r. record { run = r.run; first = r.first; bytes = r.bytes } };
}

impl Redundant {
    /// Before the first moment: no difference, and all bytes are 0.
    pub fn new() -> Redundant
        ensures { result ≡ fresh }
    {
        Redundant {
            run: 0,
            first: 0,
            bytes: [0; MODULE_BYTES],
        }
    }

    /// The sides agree, or one of them runs alone.
    fn agree(&mut self, bytes: [u8; MODULE_BYTES])
        ensures { self.new ≡ record self.old { run = 0; bytes = bytes } }
    {
        self.run = 0;
        self.bytes = bytes;
    }

    /// A moment at which the sides read these bytes. Returns whether their difference has lasted just as long as the
    /// discrepancy time.
    pub(crate) fn observe(
        &mut self,
        time: u16,
        a: [u8; MODULE_BYTES],
        b: [u8; MODULE_BYTES],
        a_runs: bool,
        b_runs: bool,
        master: Side,
    ) -> bool
        requires { self.old.run + 1 < 2 ^ 64 }
        ensures stepped { self.new ≡ pair_step time a b (record { a_runs = a_runs; b_runs = b_runs; master = master }) self.old }
        ensures due { result ≡ is_due time self.old self.new }
    {
        if !a_runs {
            self.agree(b);
            return false;
        }
        if !b_runs || a == b {
            self.agree(a);
            return false;
        }
        self.run += 1;
        if self.run >= u64::from(time) {
            self.bytes = match master {
                Side::A => a,
                Side::B => b,
            };
        }
        self.run == u64::from(time)
    }

    /// A moment at which a module is read on both sides.
    fn read_both(
        &mut self,
        script: &Script,
        m: &Module,
        time: u16,
        a_runs: bool,
        b_runs: bool,
        master: Side,
        k: u64,
    ) -> bool
        requires placed { IsModule m.now }
        requires counted { self.old.run + 1 < 2 ^ 64 }
        ensures stepped { self.new ≡ pair_step time (side_bytes script.now m.now Side.A k) (side_bytes script.now m.now Side.B k) (record { a_runs = a_runs; b_runs = b_runs; master = master }) (record self.old { first = m.now.at_byte }) }
        ensures due { result ≡ is_due time self.old self.new }
    {
        let a = side_bytes(script, m, Side::A, k);
        let b = side_bytes(script, m, Side::B, k);
        self.first = m.at_byte;
        self.observe(time, a, b, a_runs, b_runs, master)
    }

    /// Moment k of a REDUNDANT module, which may be of any script.
    pub(crate) fn step_of(
        &mut self,
        script: &Script,
        m: &Module,
        a_runs: bool,
        b_runs: bool,
        master: Side,
        k: u64,
    ) -> bool
        requires placed { IsModule m.now }
        requires both { is_redundant m.now.kind ≡ true }
        requires counted { self.old.run + 1 < 2 ^ 64 }
        ensures stepped { self.new ≡ step_of script.now m.now (record { a_runs = a_runs; b_runs = b_runs; master = master }) k self.old }
        ensures due { result ≡ is_due_of m.now.kind self.old self.new }
        ensures counted { self.new.run ≤ self.old.run + 1 }
        ensures whole { (standing : ℕ → Standing) → standing k ≡ record { a_runs = a_runs; b_runs = b_runs; master = master }
            → self.old ≡ pair_before script.now m.now standing k → self.new ≡ pair_before script.now m.now standing (k + 1) }
    {
        let ModuleKind::Redundant(time) = m.kind else {
            unreachable!();
        };
        self.read_both(script, m, time, a_runs, b_runs, master, k)
    }

    /// Takes moment k, in milliseconds: the values of both sides, of which these run, by the rule of redundant inputs in
    /// `docs/plant.md`. Returns true exactly where OB70 becomes due. `index` is the place of the module in the script,
    /// counted from 0; it is to be the same at each call, and k is 0 at the first and one more at each later one.
    pub fn step(
        &mut self,
        script: &Script,
        index: u32,
        a_runs: bool,
        b_runs: bool,
        master: Side,
        k: u64,
    ) -> bool
        requires there { IsRedundantInput script.now index }
        requires runs { IsTrue (master_runs (record { a_runs = a_runs; b_runs = b_runs; master = master })) }
        requires moments { self.old.run ≤ k }
        requires next { k + 1 < 2 ^ 64 }
        ensures stepped { IfSome (slice_get script.now.modules index) (λ m. self.new ≡ step_of script.now m (record { a_runs = a_runs; b_runs = b_runs; master = master }) k self.old) }
        ensures due { IfSome (slice_get script.now.modules index) (λ m. result ≡ is_due_of m.kind self.old self.new) }
        ensures moments { self.new.run ≤ k + 1 }

        // Over all moments, with the standing at each of them.
        ensures whole { (m : Module) (standing : ℕ → Standing) → slice_get script.now.modules index ≡ Some m
            → standing k ≡ record { a_runs = a_runs; b_runs = b_runs; master = master }
            → self.old ≡ pair_before script.now m standing k → self.new ≡ pair_before script.now m standing (k + 1) }
    {
        let m = script.modules()[index as usize];
        self.step_of(script, &m, a_runs, b_runs, master, k)
    }

    /// Whether the sides have differed for just as many moments in a row as the discrepancy time of a module of this kind.
    pub(crate) fn is_reached(&self, kind: ModuleKind) -> bool
        ensures { result ≡ is_reached kind self.now }
    {
        self.run > 0 && self.run == u64::from(time_of(kind))
    }

    /// Byte i of the module, as the pair takes it after the last `step`.
    pub(crate) fn byte(&self, i: usize) -> u8
        requires { i < 64 }
        ensures { result ≡ slice_index self.now.bytes i }
    {
        self.bytes[i]
    }

    /// The value that the pair takes of a byte of the module, after the last `step`.
    pub fn pair_value(&self, at_byte: u16) -> u8
        requires from { self.now.first ≤ at_byte }
        requires within { at_byte < self.now.first + 64 }
        ensures { result ≡ slice_index self.now.bytes (at_byte - self.now.first) }
    {
        self.bytes[usize::from(at_byte - self.first)]
    }
}
