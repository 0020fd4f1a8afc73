//! The values of a module's bytes.
ghost use Rattle.std.specs.Prelude.{◌≡◌, slice_get, IfSome};
ghost use Rattle.plant_io.specs.PlantValue.{HasModule, HoldsByte, side_named, byte_of, is_reachable, byte_at, side_bytes};
ghost use Rattle.plant_script.specs.Form.{IsModule};

use plant_script::{Module, ModuleKind, Script};
use s7_events::Side;

/// The number of bytes that a module has at most.
pub(crate) const MODULE_BYTES: usize = 64;

/// The side that the INPUT lines of a module name.
pub(crate) fn side_named(kind: ModuleKind, side: Side) -> Option<Side>
    ensures { result ≡ side_named kind side }
{
    match kind {
        ModuleKind::Redundant(_) => Some(side),
        ModuleKind::Switched | ModuleKind::OneSided(_) => None,
    }
}

/// Returns the value of an input byte of a module on a side at moment k, in milliseconds: that of its last INPUT
/// line not later than k, else 0 (the plant rule in `docs/plant.md`). `index` is the place of the module in the
/// script, counted from 0.
pub fn value_at(script: &Script, index: u32, side: Side, at_byte: u16, k: u64) -> u8
    requires { HoldsByte script.now index at_byte }
    ensures { IfSome (slice_get script.now.modules index) (λ m. result ≡ byte_of script.now m side at_byte k) }
{
    let kind = script.modules()[index as usize].kind;
    script
        .input(at_byte, side_named(kind, side), k)
        .unwrap_or(0)
}

/// Whether a module of this kind is reached, where these sides run.
pub(crate) fn is_reachable(kind: ModuleKind, a_runs: bool, b_runs: bool) -> bool
    ensures { result ≡ is_reachable kind a_runs b_runs }
{
    match kind {
        ModuleKind::OneSided(Side::A) => a_runs,
        ModuleKind::OneSided(Side::B) => b_runs,
        ModuleKind::Switched | ModuleKind::Redundant(_) => true,
    }
}

/// Returns whether a module is reached, where these sides run: one of a side only while it runs, every other always
/// (`docs/plant.md`). `index` is the place of the module in the script, counted from 0.
pub fn reachable(script: &Script, index: u32, a_runs: bool, b_runs: bool) -> bool
    requires { HasModule script.now index }
    ensures { IfSome (slice_get script.now.modules index) (λ m. result ≡ is_reachable m.kind a_runs b_runs) }
{
    is_reachable(script.modules()[index as usize].kind, a_runs, b_runs)
}

/// Byte i of a module on a side at moment k, and 0 past its end.
fn byte_at(script: &Script, m: &Module, side: Side, i: usize, k: u64) -> u8
    requires { IsModule m.now }
    ensures { result ≡ byte_at script.now m.now side k i }
{
    if i >= usize::from(m.len) {
        return 0;
    }
    script
        .input(m.at_byte + i as u16, side_named(m.kind, side), k)
        .unwrap_or(0)
}

/// The bytes of a module on a side at moment k, filled up with 0.
pub(crate) fn side_bytes(script: &Script, m: &Module, side: Side, k: u64) -> [u8; MODULE_BYTES]
    requires { IsModule m.now }
    ensures { result ≡ side_bytes script.now m.now side k }
{
    let mut bytes = [0; MODULE_BYTES];
    for i in 0..MODULE_BYTES {
        bytes[i] = byte_at(script, m, side, i, k);
    }
    bytes
}
