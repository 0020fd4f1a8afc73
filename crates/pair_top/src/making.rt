//! Makes the program and the script of a play that reads no file.
ghost use Rattle.std.specs.Prelude.{◌≡◌, IfOk};
ghost use Rattle.pair_top.specs.Orders.{AreMoments};
ghost use Rattle.pair_top.specs.Making.{IsMadeProgram, IsMadePlan};

use block_loader::{LoadError, load};
use load_maker::{make_script, make_source};
use plant_script::{Script, ScriptError, read_script};
use s7_base::{Blocks, NoMemory};
use std::alloc::Global;

/// Returns the blocks of the source that is made for so many moments. The source is always accepted.
#[tactic(auto, using(crate::proofs::Made::made_program))]
fn make_blocks(alloc: Global, moments: u32) -> Result<Blocks, NoMemory>
    requires { AreMoments moments }
    ensures { IfOk result (IsMadeProgram moments) }
{
    let Ok(source) = make_source(alloc, moments) else {
        return Err(NoMemory);
    };
    match load(alloc, &source) {
        Ok(blocks) => Ok(blocks),
        Err(LoadError::Fault(_)) => unreachable!(),
        Err(LoadError::NoMemory) => Err(NoMemory),
    }
}

/// Returns the script that is made for so many moments. It is always accepted.
#[tactic(auto, using(crate::proofs::Made::made_plan))]
fn make_plan(alloc: Global, moments: u32) -> Result<Script, NoMemory>
    requires { AreMoments moments }
    ensures { IfOk result (IsMadePlan moments) }
{
    let Ok(bytes) = make_script(alloc, moments) else {
        return Err(NoMemory);
    };
    match read_script(alloc, &bytes) {
        Ok(script) => Ok(script),
        Err(ScriptError::Fault(_)) => unreachable!(),
        Err(ScriptError::NoMemory) => Err(NoMemory),
    }
}

/// Returns the blocks and the script that are made for so many moments. Both are always accepted, so memory alone can be
/// wanting.
pub fn make_both(alloc: Global, moments: u32) -> Result<(Blocks, Script), NoMemory>
    requires { AreMoments moments }
    ensures program { IfOk result (λ both. IsMadeProgram moments both.0) }
    ensures plan { IfOk result (λ both. IsMadePlan moments both.1) }
{
    let blocks = make_blocks(alloc, moments)?;
    let script = make_plan(alloc, moments)?;
    Ok((blocks, script))
}
