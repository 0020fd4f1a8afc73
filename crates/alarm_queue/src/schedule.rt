//! What makes alarms due: the lines of a plant script, the periods of the cyclic OBs, and losses and returns of sides.
ghost use Rattle.std.specs.Prelude.{◌≡◌, ℕ, ◌≤◌, ◌+◌, false, [], All, IfOk, IsTrue, length, map, filter};
ghost use Rattle.std.specs.List.{filter_map};
ghost use Rattle.s7_events.specs.Priorities.{is_cyclic};
ghost use Rattle.alarm_queue.specs.Order.{add_all, waits_once};
ghost use Rattle.alarm_queue.specs.Due.{alarm_of, is_of_line, period_of, ends_period, cyclic_obs, is_loaded, lines_due, cyclic_due, redundancy_info};
ghost use Rattle.alarm_queue.specs.Cursor.{IsPast};

use crate::alarm::{DueAlarm, Source};
use crate::queue::Queue;
use plant_script::{Event, Module, What};
use s7_base::{Answer, Blocks, CodeKind, NoMemory, Side};
use std::alloc::Global;

/// Whether an ALARM line starts the OB: OB40 to OB47 and OB82.
fn is_of_line(ob: u8) -> bool
    ensures { result ≡ is_of_line ob }
{
    matches!(ob, 40..=47 | 82)
}

/// Returns the alarm of an ALARM line, None for any other line.
fn alarm_of(event: &Event) -> Option<DueAlarm>
    ensures { result ≡ alarm_of event.now }
{
    match event.what {
        What::Alarm { ob, info } if is_of_line(ob) => Some(DueAlarm::new(
            ob,
            u64::from(event.moment),
            Source::Line(event.line),
            info,
        )),
        _ => None,
    }
}

/// Returns the alarms of the ALARM lines among the events, in their order.
pub(crate) fn line_alarms(alloc: Global, events: &[Event]) -> Result<Vec<DueAlarm>, NoMemory>
    ensures { IfOk result (λ lines. lines.items ≡ filter_map alarm_of events.now) }
{
    let mut lines = Vec::new(alloc);
    for event in events {
        if let Some(alarm) = alarm_of(event)
            && lines.push(alarm).is_err()
        {
            return Err(NoMemory);
        }
    }
    Ok(lines)
}

/// Returns the lines of the modules, in their order.
pub(crate) fn module_lines(alloc: Global, modules: &[Module]) -> Result<Vec<u32>, NoMemory>
    ensures { IfOk result (λ lines. lines.items ≡ map (λ m. m.line) modules.now) }
{
    let Ok(lines) = modules.iter().map(|module| module.line).collect(alloc) else {
        return Err(NoMemory);
    };
    Ok(lines)
}

/// Returns the cyclic OBs that are loaded, by their numbers.
pub(crate) fn loaded_cyclic(alloc: Global, blocks: &Blocks) -> Result<Vec<u8>, NoMemory>
    ensures { IfOk result (λ obs. obs.items ≡ filter (is_loaded blocks.now) cyclic_obs) }
{
    let mut loaded = Vec::new(alloc);
    for ob in [30, 31, 32, 33, 34, 35, 36, 37, 38] {
        if blocks.code(CodeKind::Ob, ob).is_some() && loaded.push(ob).is_err() {
            return Err(NoMemory);
        }
    }
    Ok(loaded)
}

/// Returns the period of a cyclic OB in milliseconds: 5000, 2000, 1000, 500, 200, 100, 50, 20 and 10 from OB30 to OB38.
fn period_of(ob: u8) -> u16
    ensures value { result ≡ period_of ob }
    ensures some { 1 ≤ result }
{
    match ob {
        30 => 5000,
        31 => 2000,
        32 => 1000,
        33 => 500,
        34 => 200,
        35 => 100,
        36 => 50,
        37 => 20,
        _ => 10,
    }
}

/// Whether whole periods of the OB have gone by at moment k, one at least.
fn ends_period(k: u64, ob: u8) -> bool
    ensures { result ≡ ends_period k ob }
{
    k > 0 && k % u64::from(period_of(ob)) == 0
}

/// Adds the alarms of these cyclic OBs whose period ends at moment k.
pub(crate) fn add_cyclic(queue: &mut Queue, cyclic: &[u8], k: u64)
    requires { All (λ ob. IsTrue (is_cyclic ob)) cyclic.now }
    ensures { queue.new ≡ record queue.old { alarms = add_all (cyclic_due cyclic.now k) queue.old.alarms } }
{
    for ob in cyclic {
        if ends_period(k, *ob) {
            queue.add_once(DueAlarm::new(*ob, k, Source::Cpu, 0));
        }
    }
}

/// Adds the alarms of the lines that are due at moment k. The lines before the cursor have been added at earlier moments.
/// Returns the cursor for the next moment. Looks at the lines that are due, and at one more.
pub(crate) fn add_lines(queue: &mut Queue, lines: &[DueAlarm], cursor: usize, k: u64) -> usize
    requires past { IsPast lines.now k cursor }
    requires others { All (λ a. waits_once a.ob ≡ false) lines.now }
    requires more { length lines.now ≤ queue.old.more + cursor }
    ensures alarms { queue.new.alarms ≡ add_all (lines_due lines.now k) queue.old.alarms }
    ensures modules { queue.new.modules ≡ queue.old.modules }
    ensures more { queue.new.more + result ≡ queue.old.more + cursor }
    ensures past { IsPast lines.now (k + 1) result }
{
    for at in cursor..lines.len() {
        let line = lines[at];
        if line.due != k {
            return at;
        }
        queue.add_other(line);
    }
    lines.len()
}

/// Returns the start information of OB72 after an entry with this answer: 1 side A lost, 2 side B lost, 3 side A back,
/// 4 side B back; None after any other. OB72 is due, where it is loaded, at the moment after that of the entry.
pub fn redundancy_info(answer: &Answer) -> Option<u32>
    ensures { result ≡ redundancy_info answer.now }
{
    match answer {
        Answer::Lost { side: Side::A, .. } => Some(1),
        Answer::Lost { side: Side::B, .. } => Some(2),
        Answer::Back { side: Side::A } => Some(3),
        Answer::Back { side: Side::B } => Some(4),
        _ => None,
    }
}
