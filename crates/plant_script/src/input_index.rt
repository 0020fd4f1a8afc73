//! The values of the inputs, by byte, side and moment.
ghost use Rattle.std.specs.Prelude.{◌≡◌, ◌≤◌, ◌∷◌, ◌++◌, [], List, length, IfOk, All};
ghost use Rattle.plant_script.specs.InputIndex.{slot_of, last_setting, AreRising, IsSplitAt, with_event, IsBelow, IsIndex, AreEmpty};
ghost use Rattle.std.specs.List.{AllPairs};
ghost use Rattle.plant_script.specs.Values.{last_value};
ghost use Rattle.plant_script.specs.declared.plan.Event.{Event as IsEvent};

use crate::plan::{Event, What};
use s7_events::{NoMemory, Side};
use std::alloc::Global;
use std::marker::Model;

/// The number of slots: three for each of 1,024 bytes, without a side, of side A and of side B.
const SLOTS: usize = 3_072;

/// The value that a byte has from a moment on.
#[derive(Clone, Copy, Debug)]
pub struct Setting {
    pub moment: u32,
    pub value: u8,
}

/// The values of one byte, by their lines.
#[derive(Debug, Drop)]
struct Slot {
    settings: Vec<Setting>,
}

impl Model for Slot {
    ghost use Rattle.std.specs.Prelude.{List};
    ghost use Rattle.plant_script.specs.declared.input_index.Setting.{Setting};

    ghost Value = { List Setting };

    ghost view = { λ slot. slot.settings.items };
}

impl Slot {
    /// Adds a value.
    fn push(&mut self, setting: Setting) -> Result<(), NoMemory>
        ensures { IfOk result (λ done. self.new ≡ self.old ++ setting ∷ []) }
    {
        if self.settings.push(setting).is_err() {
            return Err(NoMemory);
        }
        Ok(())
    }

    /// Returns the number of values that are not later than a moment, where the moments do not fall.
    fn count_until(&self, k: u64) -> usize
        ensures within { result ≤ length self.now }
        ensures split { AreRising self.now → IsSplitAt k self.now result }
    {
        let mut low = 0;
        let mut high = self.settings.len();
        while low < high {
            let middle = low + (high - low) / 2;
            if u64::from(self.settings[middle].moment) <= k {
                low = middle + 1;
            } else {
                high = middle;
            }
        }
        low
    }

    /// Returns the last value that is not later than a moment, where the moments do not fall.
    fn last(&self, k: u64) -> Option<u8>
        ensures { AreRising self.now → result ≡ last_setting self.now k }
    {
        let count = self.count_until(k);
        if count == 0 {
            return None;
        }
        Some(self.settings[count - 1].value)
    }
}

/// Returns the slot of a byte, on a side or without one.
fn slot_of(at_byte: u16, side: Option<Side>) -> usize
    ensures { result ≡ slot_of at_byte side }
{
    let first = 3 * usize::from(at_byte);
    match side {
        None => first,
        Some(Side::A) => first + 1,
        Some(Side::B) => first + 2,
    }
}

/// Returns a slot without values for each byte and side.
fn empty_slots(alloc: Global) -> Result<Vec<Slot>, NoMemory>
    ensures { IfOk result (λ slots. AreEmpty SLOTS slots.items) }
{
    let mut slots = Vec::new(alloc);
    for _slot in 0..SLOTS {
        let slot = Slot {
            settings: Vec::new(alloc),
        };
        if slots.push(slot).is_err() {
            return Err(NoMemory);
        }
    }
    Ok(slots)
}

/// Adds what an event gives a byte.
fn add_event(slots: &mut Vec<Slot>, event: Event) -> Result<(), NoMemory>
    requires size { length slots.old.items ≡ SLOTS }
    requires below { IsBelow event.what }
    ensures { IfOk result (λ done. slots.new.items ≡ with_event slots.old.items event) }
{
    if let What::Input {
        at_byte,
        side,
        value,
    } = event.what
    {
        let moment = event.moment;
        let slot = &mut slots[slot_of(at_byte, side)];
        slot.push(Setting { moment, value })?;
    }
    Ok(())
}

/// The values of the inputs of a script: for each byte, without a side or on one, by their moments.
#[derive(Debug, Drop)]
pub struct InputIndex {
    slots: Vec<Slot>,
}

impl Model for InputIndex {
    ghost use Rattle.std.specs.Prelude.{List};
    ghost use Rattle.plant_script.specs.declared.input_index.Setting.{Setting};

    ghost Value = { List (List Setting) };

    ghost view = { λ index. index.slots.items };
}

impl InputIndex {
    /// Returns the index of these events. It takes as long as one pass over them.
    pub fn new(alloc: Global, events: &[Event]) -> Result<InputIndex, NoMemory>
        requires { All (λ event. IsBelow event.what) events.now }
        ensures { IfOk result (λ index. IsIndex index events.now) }
    {
        let mut slots = empty_slots(alloc)?;
        for event in events {
            add_event(&mut slots, *event)?;
        }
        Ok(InputIndex { slots })
    }

    /// Returns the last value of the byte that is not later than a moment, by search in its slot.
    pub fn last(&self, at_byte: u16, side: Option<Side>, k: u64) -> Option<u8>
        ensures { (events : List IsEvent) → IsIndex self.now events → AllPairs (λ earlier later. earlier.moment ≤ later.moment) events → result ≡ last_value events at_byte side k }
    {
        let place = slot_of(at_byte, side);
        let slots = self.slots.as_slice();
        if place >= slots.len() {
            return None;
        }
        slots[place].last(k)
    }
}
