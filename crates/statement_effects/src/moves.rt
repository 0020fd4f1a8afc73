//! Loads, transfers, and moves between accumulators.
ghost use Rattle.std.specs.Prelude.{◌≡◌, OnOk, OnErr, IfErr, Ok, Err};
ghost use Rattle.statement_effects.specs.Areas.{area_value_at, with_area_value_at, value_at, with_value_at, is_off};
ghost use Rattle.statement_effects.specs.Placed.{IsValueOperand, IsValueThere};
ghost use Rattle.statement_effects.specs.Resolving.{resolve_value, at_value};
ghost use Rattle.statement_effects.specs.MoveEffect.{with_loaded, transferred, effect_move, effect_direct, effect_accu};
ghost use Rattle.statement_effects.specs.declared.instruction.ValueOperand.TheVariants as value_operands;

use crate::Memory;
use crate::instruction::{
    AccuInstruction, DirectInstruction, MoveInstruction, ValueOperand, ValuePlace,
};
use crate::locals::low_part;
use accumulators::Accus;
use cpu_image::ImageFault;
use status_word::StatusWord;

impl Memory {
    #[tactic(auto, using(crate::proofs::Places::not_missing, crate::proofs::Places::not_past))]
    fn read_area_value(&self, place: ValuePlace) -> u32
        requires { IsValueThere self.now (value_operands.Area place) }
        ensures { result ≡ area_value_at self.now place }
    {
        match self
            .image
            .read(place.area, place.at_byte, place.width.bytes())
        {
            Ok(value) => value,
            Err(ImageFault::NoSuchBlock | ImageFault::NoSuchAddress) => unreachable!(),
        }
    }

    fn read_value(&self, place: ValueOperand) -> u32
        requires { IsValueThere self.now place }
        ensures { result ≡ value_at self.now place }
    {
        match place {
            ValueOperand::Area(place) => self.read_area_value(place),
            ValueOperand::Local(place) => self.local_value(place),
            ValueOperand::Data(_) => unreachable!(),
        }
    }

    /// The low 8, 16 or 32 bits of a value are written at a place, the highest byte first.
    #[tactic(auto, using(crate::proofs::Places::not_missing, crate::proofs::Places::not_past))]
    fn write_area_value(&mut self, place: ValuePlace, value: u32)
        requires { IsValueThere self.old (value_operands.Area place) }
        ensures { self.new ≡ with_area_value_at self.old place value }
    {
        let part = low_part(place.width, value);
        match self
            .image
            .write(place.area, place.at_byte, place.width.bytes(), part)
        {
            Ok(()) => {}
            Err(ImageFault::NoSuchBlock | ImageFault::NoSuchAddress) => unreachable!(),
        }
    }

    fn write_value(&mut self, place: ValueOperand, value: u32)
        requires { IsValueThere self.old place }
        ensures { self.new ≡ with_value_at self.old place value }
    {
        match place {
            ValueOperand::Area(place) => self.write_area_value(place, value),
            ValueOperand::Local(place) => self.put_local_value(place, value),
            ValueOperand::Data(_) => unreachable!(),
        }
    }

    /// What `T` writes.
    pub(crate) fn transferred(&self) -> u32
        ensures { result ≡ transferred self.now }
    {
        if self.is_off() {
            0
        } else {
            self.registers.accus.accu1
        }
    }

    /// `L` of a value: it moves ACCU1 to ACCU2 first.
    pub fn load(&mut self, value: u32)
        ensures { self.new ≡ with_loaded self.old value }
    {
        self.registers.accus.load(value);
    }

    /// `L` and `T` of the value at a place.
    fn execute_at_value(&mut self, i: MoveInstruction, place: ValueOperand)
        requires { IsValueThere self.old place }
        ensures { self.new ≡ effect_move i place self.old }
    {
        match i {
            MoveInstruction::Load => {
                let value = self.read_value(place);
                self.load(value);
            }
            MoveInstruction::Store => {
                let value = self.transferred();
                self.write_value(place, value);
            }
        }
    }

    /// `L` and `T` of a value.
    ///
    /// # Errors
    /// The number of the error of a value that is nowhere. Nothing changes.
    pub(crate) fn execute_move(
        &mut self,
        i: MoveInstruction,
        operand: ValueOperand,
    ) -> Result<(), u8>
        requires { IsValueOperand operand }
        ensures ok { OnOk result (at_value (effect_move i) (resolve_value operand self.old) ≡ Ok self.new) }
        ensures err { IfErr result (λ error. at_value (effect_move i) (resolve_value operand self.old) ≡ Err error) }
        ensures same { OnErr result (self.new ≡ self.old) }
    {
        let place = self.resolve_value(operand)?;
        self.execute_at_value(i, place);
        Ok(())
    }

    /// `L` and `T` without a place.
    pub(crate) fn execute_direct(&mut self, i: DirectInstruction)
        ensures { self.new ≡ effect_direct i self.old }
    {
        match i {
            DirectInstruction::LoadConstant(value) => self.load(value),
            DirectInstruction::LoadStatus => {
                let bits = self.registers.status.to_bits();
                self.load(u32::from(bits));
            }
            DirectInstruction::StoreStatus => {
                let bits = (self.transferred() % 512) as u16;
                self.registers.status = StatusWord::of_bits(bits);
            }
        }
    }
}

/// A statement on accumulators that leaves the status word.
pub(crate) fn execute_accu(accus: &mut Accus, i: AccuInstruction)
    ensures { accus.new ≡ effect_accu i accus.old }
{
    match i {
        AccuInstruction::Move(op) => accus.moves(op),
        AccuInstruction::Count { by, down } => accus.inc(by, down),
        AccuInstruction::Add { value, wide } => accus.add_const(value, wide),
    }
}
