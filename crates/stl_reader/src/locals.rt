//! Named locals as operands, with a constant index behind the names of arrays.
ghost use Rattle.std.specs.Prelude.{◌≡◌, ◌≤◌, ◌<◌, ◌^◌, length, drop, IfOk};
ghost use Rattle.stl_decl.specs.Steps.{Gives, GivesOr, seen, spelling};
ghost use Rattle.stl_decl.specs.Layout.{variable_of};
ghost use Rattle.stl_reader.specs.Locals.{local_form, local_unit, local_at, suits_mnemonic, variable_operand, named_local, local_operand};

use crate::addresses::{NO_NAME, Operand};
use crate::forms::{OperandForm, accepts};
use crate::operands::takes_memory;
use instruction_set::OperandArea;
use std::alloc::Global;
use stl_decl::{
    Fault, FaultKind, Layout, SimpleType, StepError, Variable, element_at, element_bit, fault_at,
    spelling, upper,
};
use stl_lex::{Token, after};

/// The form of operand that a name of the type is. Names of 8 bytes are none.
fn local_form(simple: SimpleType) -> Option<OperandForm>
    ensures { result ≡ local_form simple }
{
    match simple {
        SimpleType::Bool => Some(OperandForm::Bit),
        SimpleType::DateAndTime => None,
        _ => Some(OperandForm::Value),
    }
}

/// The bit that is stored for an element that begins at this bit: its own, or the unit of its type.
fn local_unit(simple: SimpleType, bit: u64) -> u8
    ensures { result ≡ local_unit simple bit }
{
    match simple.bits() {
        1 => (bit % 8) as u8,
        8 => 8,
        16 => 9,
        _ => 10,
    }
}

/// An element of the local data that begins at this bit.
fn local_at(simple: SimpleType, bit: u64) -> Operand
    ensures { result ≡ local_at simple bit }
{
    Operand {
        area: OperandArea::Local,
        bit: local_unit(simple, bit),
        db: 0,
        value: (bit / 8).min(u32::MAX as u64) as u32,
        name: NO_NAME,
    }
}

/// Whether a name of the type may stand behind the mnemonic.
fn suits_mnemonic(mnemonic: [u8; 5], simple: SimpleType) -> bool
    ensures { result ≡ suits_mnemonic mnemonic (local_form simple) }
{
    match local_form(simple) {
        Some(form) => accepts(mnemonic, form),
        None => false,
    }
}

/// What stands behind the name of a variable.
#[tactic(auto, unfolding(crate::specs::Locals::variable_operand))]
fn variable_operand<'a>(
    text: &[u8],
    mnemonic: [u8; 5],
    variable: Variable,
    first: Token,
    rest: &'a [Token],
) -> Result<(Operand, Token, &'a [Token]), Fault>
    requires { length text.now ≤ 1048576 }
    ensures { Gives seen result (variable_operand text.now mnemonic variable first rest.now) }
{
    if !suits_mnemonic(mnemonic, variable.shape.simple) {
        return Err(fault_at(FaultKind::BadOperand, first));
    }
    let (k, last, rest) = element_at(text, variable.shape, first, rest)?;
    Ok((
        local_at(variable.shape.simple, element_bit(variable, k)),
        last,
        rest,
    ))
}

/// A name that is declared, or none.
fn named_local<'a>(
    text: &[u8],
    mnemonic: [u8; 5],
    variable: Option<Variable>,
    first: Token,
    rest: &'a [Token],
) -> Result<(Operand, Token, &'a [Token]), Fault>
    requires { length text.now ≤ 1048576 }
    ensures { Gives seen result (named_local variable text.now mnemonic first rest.now) }
{
    match variable {
        Some(variable) => variable_operand(text, mnemonic, variable, first, rest),
        None => Err(fault_at(FaultKind::UnknownName, first)),
    }
}

/// `#` and a name.
pub fn local_operand<'a>(
    alloc: Global,
    text: &[u8],
    temps: &Layout,
    mnemonic: [u8; 5],
    first: Token,
    rest: &'a [Token],
) -> Result<(Operand, Token, &'a [Token]), StepError>
    requires { length text.now ≤ 1048576 }
    ensures { GivesOr seen result (local_operand text.now temps.now mnemonic first rest.now) }
{
    if !takes_memory(mnemonic) {
        return Err(StepError::Fault(fault_at(FaultKind::BadOperand, first)));
    }
    let name = upper(alloc, after(1, spelling(text, first)))?;
    let variable = temps.variable(name.as_slice());
    let found = named_local(text, mnemonic, variable, first, rest)?;
    Ok(found)
}
