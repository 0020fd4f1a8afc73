//! The first pass: from line to line, what was read so far, or the first fault.
ghost use Rattle.std.specs.Prelude.{◌≡◌, ◌+◌, ◌≤◌, false, length, None, IsTrue, IfOk};
ghost use Rattle.std.specs.List.{find};
ghost use Rattle.std.specs.Str.{all_ascii_digits};
ghost use Rattle.plant_script.specs.Words.{lines_of};
ghost use Rattle.plant_script.specs.Numbers.{value_of};
ghost use Rattle.plant_script.specs.Plan.{has_input, needs_side, fits_side, shares_byte, comebacks};
ghost use Rattle.plant_script.specs.Gives.{Gives, Takes, reading_of, plan_of};
ghost use Rattle.plant_script.specs.FirstPass.{nothing_read, has_wrong_side, is_bad_line, is_bad_time, goes_back, overlaps, has_no_module, is_one_more, line_fault, fault_at, with_line, read_line, first_pass};
ghost use Rattle.plant_script.specs.Sound.{IsSound, AreParts};

use crate::lines::{Line, line_of};
use crate::numbers::{is_below, is_number, number_within, value_of};
use crate::plan::{Event, Module, ModuleKind, What};
use crate::script_error::{
    BAD_LINE, BAD_TIME, NO_END, NO_MODULE, OVERLAP, ScriptError, ScriptFault, TIME_BACK, TOO_LONG,
};
use crate::words::{next_line, time_word};
use std::alloc::Global;

/// The greatest END.
const MOST_ENTRIES: u32 = 200_000;

/// The number of the first line that is one too many.
const LINE_TOO_MANY: u32 = 20_001;

/// The most RETURN and SUSPECT lines.
const MOST_COMEBACKS: usize = 64;

/// What the lines before said: the modules, the events, and what END says.
#[derive(Debug, Drop)]
pub struct Reading {
    pub modules: Vec<Module>,
    pub events: Vec<Event>,
    pub end: Option<u32>,
}

/// What all lines said.
#[derive(Debug, Drop)]
pub struct Parts {
    pub modules: Vec<Module>,
    pub events: Vec<Event>,
    pub end: u32,
}

/// Returns the fault of this kind at a line.
pub fn fault_at(kind: u8, number: u32) -> ScriptFault
    ensures { result ≡ fault_at kind number }
{
    ScriptFault { kind, line: number }
}

/// Returns whether an input of such a module names its side.
fn needs_side(kind: ModuleKind) -> bool
    ensures { result ≡ needs_side kind }
{
    match kind {
        ModuleKind::Switched | ModuleKind::OneSided(_) => false,
        ModuleKind::Redundant(_) => true,
    }
}

/// Returns whether the module's inputs name a side exactly where this one does.
fn fits_side(module: &Module, sided: bool) -> bool
    ensures { result ≡ fits_side module.now sided }
{
    if needs_side(module.kind) {
        sided
    } else {
        !sided
    }
}

/// Returns the module of inputs that has the byte.
fn input_module(modules: &[Module], at_byte: u16) -> Option<Module>
    ensures { result ≡ find (has_input at_byte) modules.now }
{
    modules
        .iter()
        .copied()
        .find(|module| module.has_input(at_byte))
}

/// Returns whether an INPUT line has a side where its module has none, or none where it needs one.
fn has_wrong_side(modules: &[Module], what: What) -> bool
    ensures { result ≡ has_wrong_side modules.now what }
{
    match what {
        What::Input { at_byte, side, .. } => match input_module(modules, at_byte) {
            Some(module) => !fits_side(&module, side.is_some()),
            None => false,
        },
        _ => false,
    }
}

/// Returns whether the line is in no place of the order, or has a wrong side.
fn is_bad_line(reading: &Reading, line: Line) -> bool
    ensures { result ≡ is_bad_line (reading_of reading.now 0) line }
{
    match line {
        Line::Skipped => false,
        Line::Module(_) => reading.end.is_some() || !reading.events.is_empty(),
        Line::At(what) => reading.end.is_some() || has_wrong_side(&reading.modules, what),
        Line::End => reading.end.is_some(),
    }
}

/// Returns whether the moment is no number, or the end no number from 1 to 200,000.
fn is_bad_time(line: Line, time: &[u8]) -> bool
    ensures { result ≡ is_bad_time line time.now }
{
    match line {
        Line::Skipped | Line::Module(_) => false,
        Line::At(_) => !is_number(time),
        Line::End => match number_within(time, MOST_ENTRIES) {
            Some(end) => end < 1,
            None => true,
        },
    }
}

/// Returns whether the moment is below that of the AT line before.
fn goes_back(floor: &[u8], line: Line, time: &[u8]) -> bool
    requires { IsTrue (all_ascii_digits floor.now) }
    ensures { result ≡ goes_back (value_of floor.now) line time.now }
{
    match line {
        Line::At(_) => is_number(time) && is_below(time, floor),
        Line::Skipped | Line::Module(_) | Line::End => false,
    }
}

/// Returns whether both are modules of inputs, or both of outputs, and share a byte.
fn shares_byte(module: &Module, other: &Module) -> bool
    ensures { result ≡ shares_byte module.now other.now }
{
    let same = if module.input {
        other.input
    } else {
        !other.input
    };
    same && u32::from(module.at_byte) < other.past_end()
        && u32::from(other.at_byte) < module.past_end()
}

/// Returns the first module that shares a byte with this one.
fn sharing_module(modules: &[Module], added: Module) -> Option<Module>
    ensures { result ≡ find (shares_byte added) modules.now }
{
    modules
        .iter()
        .copied()
        .find(|other| shares_byte(&added, other))
}

/// Returns whether the module of the line shares a byte with an earlier one.
fn overlaps(modules: &[Module], line: Line) -> bool
    ensures { result ≡ overlaps modules.now line }
{
    match line {
        Line::Module(module) => sharing_module(modules, module).is_some(),
        Line::Skipped | Line::At(_) | Line::End => false,
    }
}

/// Returns whether an INPUT line's byte is in no module of inputs.
fn has_no_module(modules: &[Module], line: Line) -> bool
    ensures { result ≡ has_no_module modules.now line }
{
    match line {
        Line::At(What::Input { at_byte, .. }) => input_module(modules, at_byte).is_none(),
        _ => false,
    }
}

/// Returns how many events are RETURN or SUSPECT lines.
fn comebacks(events: &[Event]) -> usize
    ensures { result ≡ comebacks events.now }
{
    events
        .iter()
        .filter(|event| event.what.is_comeback())
        .count()
}

/// Returns whether the line is RETURN or SUSPECT, and 64 of these stand before it.
fn is_one_more(events: &[Event], line: Line) -> bool
    ensures { result ≡ is_one_more events.now line }
{
    match line {
        Line::At(what) => what.is_comeback() && MOST_COMEBACKS <= comebacks(events),
        Line::Skipped | Line::Module(_) | Line::End => false,
    }
}

/// Returns the lowest fault of a line that has a form.
#[tactic(auto, unfolding(crate::specs::FirstPass::line_fault))]
fn line_fault(reading: &Reading, number: u32, line: Line, time: &[u8], floor: &[u8]) -> Option<u8>
    requires { IsTrue (all_ascii_digits floor.now) }
    ensures exact { result ≡ line_fault (reading_of reading.now (value_of floor.now)) number line time.now }
    ensures timed { result ≡ None → is_bad_time line time.now ≡ false }
{
    if is_bad_line(reading, line) {
        Some(BAD_LINE)
    } else if is_bad_time(line, time) {
        Some(BAD_TIME)
    } else if goes_back(floor, line, time) {
        Some(TIME_BACK)
    } else if overlaps(&reading.modules, line) {
        Some(OVERLAP)
    } else if has_no_module(&reading.modules, line) {
        Some(NO_MODULE)
    } else if number == LINE_TOO_MANY || is_one_more(&reading.events, line) {
        Some(TOO_LONG)
    } else {
        None
    }
}

/// Adds a line without fault to what was read. Returns the word of the last moment.
fn add_line<'a>(
    reading: &mut Reading,
    number: u32,
    line: Line,
    time: &'a [u8],
    floor: &'a [u8],
) -> Result<&'a [u8], ScriptError>
    requires timed { is_bad_time line time.now ≡ false }
    requires floor { IsTrue (all_ascii_digits floor.now) }
    ensures exact { Takes (λ next. reading_of reading.new (value_of next.now)) result (with_line (reading_of reading.old (value_of floor.now)) number line time.now) }
    ensures digits { IfOk result (λ next. IsTrue (all_ascii_digits next.now)) }
{
    match line {
        Line::Skipped => Ok(floor),
        Line::Module(module) => {
            if reading.modules.push(module).is_err() {
                return Err(ScriptError::NoMemory);
            }
            Ok(floor)
        }
        Line::At(what) => {
            let event = Event {
                moment: value_of(time).min(MOST_ENTRIES),
                line: number,
                what,
            };
            if reading.events.push(event).is_err() {
                return Err(ScriptError::NoMemory);
            }
            Ok(time)
        }
        Line::End => {
            reading.end = number_within(time, MOST_ENTRIES);
            Ok(floor)
        }
    }
}

/// Reads one line. Returns the word of the last moment.
#[tactic(auto, unfolding(crate::specs::FirstPass::read_line))]
fn read_line<'a>(
    reading: &mut Reading,
    number: u32,
    text: &'a [u8],
    floor: &'a [u8],
) -> Result<&'a [u8], ScriptError>
    requires { IsTrue (all_ascii_digits floor.now) }
    ensures exact { Gives (λ next. reading_of reading.new (value_of next.now)) result (read_line (reading_of reading.old (value_of floor.now)) number text.now) }
    ensures digits { IfOk result (λ next. IsTrue (all_ascii_digits next.now)) }
    ensures sound { IfOk result (λ next. IsSound (reading_of reading.old (value_of floor.now)) number → IsSound (reading_of reading.new (value_of next.now)) (number + 1)) }
{
    let Some(line) = line_of(text, number) else {
        return Err(ScriptError::Fault(fault_at(BAD_LINE, number)));
    };
    let time = time_word(text);
    if let Some(kind) = line_fault(reading, number, line, time, floor) {
        return Err(ScriptError::Fault(fault_at(kind, number)));
    }
    add_line(reading, number, line, time, floor)
}

/// Reads all lines of a text, of at most 1,048,576 bytes.
pub fn first_pass(alloc: Global, text: &[u8]) -> Result<Parts, ScriptError>
    requires { length text.now ≤ 1048576 }
    ensures exact { Gives plan_of result (first_pass nothing_read 1 (lines_of text.now)) }
    ensures sound { IfOk result (λ parts. AreParts (plan_of parts)) }
{
    let mut reading = Reading {
        modules: Vec::new(alloc),
        events: Vec::new(alloc),
        end: None,
    };
    let mut floor: &[u8] = b"";
    let mut number = 1;
    let mut rest = text;
    'lines: while let Some((line, after)) = next_line(rest) {
        floor = match read_line(&mut reading, number, line, floor) {
            Ok(time) => time,
            Err(error) => return Err(error),
        };
        number += 1;
        rest = after;
    }
    let Reading {
        modules,
        events,
        end,
    } = reading;
    match end {
        Some(end) => Ok(Parts {
            modules,
            events,
            end,
        }),
        None => Err(ScriptError::Fault(fault_at(NO_END, number))),
    }
}
