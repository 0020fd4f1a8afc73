//! The changes of a trace as a Value Change Dump.

use crate::lanes::{Area, Change, Lane, Signal};
use crate::page::Page;
use std::alloc::AllocError;

/// Adds the name of a signal, as `I0.0`.
pub fn add_name(page: &mut Page, signal: Signal) -> Result<(), AllocError> {
    match signal.area {
        Area::Input => page.text(b"I")?,
        Area::Output => page.text(b"Q")?,
    }
    page.number(signal.byte as u64)?;
    page.text(b".")?;
    page.number(u64::from(signal.bit))
}

/// Adds the declaration of a lane. Its identifier is `s` and its number.
fn add_declaration(page: &mut Page, number: usize, lane: &Lane) -> Result<(), AllocError> {
    page.text(b"$var wire 1 s")?;
    page.number(number as u64)?;
    page.text(b" ")?;
    add_name(page, lane.signal)?;
    page.text(b" $end\n")
}

/// Adds that a lane has a value.
fn add_value(page: &mut Page, number: usize, value: bool) -> Result<(), AllocError> {
    if value {
        page.text(b"1s")?;
    } else {
        page.text(b"0s")?;
    }
    page.number(number as u64)?;
    page.text(b"\n")
}

/// Adds the changes of all lanes at a moment, in the order of the lanes.
fn add_moment(page: &mut Page, lanes: &[Lane], moment: usize) -> Result<(), AllocError> {
    page.text(b"#")?;
    page.number(moment as u64)?;
    page.text(b"\n")?;
    for (number, lane) in lanes.iter().enumerate() {
        if let Some(change) = lane.change_at(moment) {
            add_value(page, number, change.value)?;
        }
    }
    Ok(())
}

impl Lane {
    /// Returns the change at a moment, in ms.
    fn change_at(&self, moment: usize) -> Option<Change> {
        self.changes
            .iter()
            .copied()
            .find(|change| change.moment == moment)
    }
}

/// Adds the head: the unit of time, the declarations, and that each lane is 0 at first.
fn add_head(page: &mut Page, lanes: &[Lane]) -> Result<(), AllocError> {
    page.text(b"$timescale 1 ms $end\n$scope module trace $end\n")?;
    for (number, lane) in lanes.iter().enumerate() {
        add_declaration(page, number, lane)?;
    }
    page.text(b"$upscope $end\n$enddefinitions $end\n#0\n$dumpvars\n")?;
    for number in 0..lanes.len() {
        add_value(page, number, false)?;
    }
    page.text(b"$end\n")
}

/// Returns whether a lane changes at this moment.
fn has_change(lanes: &[Lane], moment: usize) -> bool {
    lanes.iter().any(|lane| lane.change_at(moment).is_some())
}

/// Adds the lanes of a trace of this number of entries, a moment for each entry.
pub fn draw(page: &mut Page, lanes: &[Lane], count: usize) -> Result<(), AllocError> {
    add_head(page, lanes)?;
    for moment in 0..count {
        if has_change(lanes, moment) {
            add_moment(page, lanes, moment)?;
        }
    }
    page.text(b"#")?;
    page.number(count as u64)?;
    page.text(b"\n")
}
