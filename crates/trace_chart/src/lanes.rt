//! The lanes of a chart: the signals and their changes.
ghost use Rattle.std.specs.Prelude.{◌≡◌, ◌<◌, All, IfOk};
ghost use Rattle.trace_chart.specs.Lanes.{bit_of, input_said, output_said, said, value_after, differs, changes_of, IsLaneOf};

use std::alloc::{AllocError, Global};
use trace_reader::{Answer, Entry, Request};

/// Where a signal lies: in the process image of the inputs or of the outputs.
#[derive(Clone, Copy, Debug, PartialEq, Eq)]
pub enum Area {
    Input,
    Output,
}

/// A bit of the process image: its byte, 0 to 63, and its bit, 0 to 7.
#[derive(Clone, Copy, Debug, PartialEq, Eq)]
pub struct Signal {
    pub area: Area,
    pub byte: usize,
    pub bit: u8,
}

/// A signal has this value from this moment on, in ms.
#[derive(Clone, Copy, Debug, PartialEq, Eq)]
pub struct Change {
    pub moment: usize,
    pub value: bool,
}

/// A signal and its changes.
#[derive(Debug, Drop)]
pub struct Lane {
    pub signal: Signal,
    pub changes: Vec<Change>,
}

/// Returns a bit of an image, and 0 where the image has no such byte.
pub fn bit_of(bytes: &[u8], byte: usize, bit: u8) -> bool
    requires { bit < 8 }
    ensures { result ≡ bit_of bytes.now byte bit }
{
    let value = if byte < bytes.len() { bytes[byte] } else { 0 };
    (value >> bit) % 2 == 1
}

/// Returns what an entry says of an output.
fn output_said(request: &Request, byte: usize, bit: u8) -> Option<bool>
    requires { bit < 8 }
    ensures { result ≡ output_said request.now byte bit }
{
    match request {
        Request::Outputs(bytes) => Some(bit_of(bytes, byte, bit)),
        _ => None,
    }
}

/// Returns what an entry says of an input.
fn input_said(answer: &Answer, byte: usize, bit: u8) -> Option<bool>
    requires { bit < 8 }
    ensures { result ≡ input_said answer.now byte bit }
{
    match answer {
        Answer::Image(bytes) => Some(bit_of(bytes, byte, bit)),
        _ => None,
    }
}

/// Returns what an entry says of a signal.
fn said(signal: Signal, entry: &Entry) -> Option<bool>
    requires { signal.bit < 8 }
    ensures { result ≡ said signal.area entry.now signal.byte signal.bit }
{
    match signal.area {
        Area::Input => input_said(&entry.answer, signal.byte, signal.bit),
        Area::Output => output_said(&entry.request, signal.byte, signal.bit),
    }
}

/// Returns the value of a signal after an entry, where it had this one before.
fn value_after(signal: Signal, value: bool, entry: &Entry) -> bool
    requires { signal.bit < 8 }
    ensures { result ≡ value_after signal value entry.now }
{
    match said(signal, entry) {
        Some(now) => now,
        None => value,
    }
}

/// Returns whether a signal has another value now than before.
fn differs(now: bool, value: bool) -> bool
    ensures { result ≡ differs now value }
{
    if now { !value } else { value }
}

/// Returns the changes of a signal, in order, each at the moment of its entry. It is 0 at first.
pub fn changes(alloc: Global, signal: Signal, entries: &[Entry]) -> Result<Vec<Change>, AllocError>
    requires { signal.bit < 8 }
    ensures { IfOk result (λ changes. changes.items ≡ changes_of signal entries.now) }
{
    let mut changes = Vec::new(alloc);
    let mut value = false;
    for (k, entry) in entries.iter().enumerate() {
        let now = value_after(signal, value, entry);
        if !differs(now, value) {
            continue;
        }
        changes.push(Change {
            moment: k,
            value: now,
        })?;
        value = now;
    }
    Ok(changes)
}

/// Returns the signal of a number below 1,024: first the inputs, then the outputs, each by byte and bit.
fn signal_at(number: usize) -> Signal
    ensures { result.bit < 8 }
{
    let area = if number < 512 {
        Area::Input
    } else {
        Area::Output
    };
    Signal {
        area,
        byte: number / 8 % 64,
        bit: (number % 8) as u8,
    }
}

/// Returns the lanes of the signals that change: the inputs, then the outputs, by byte and bit.
pub fn lanes_of(alloc: Global, entries: &[Entry]) -> Result<Vec<Lane>, AllocError>
    ensures { IfOk result (λ lanes. All (IsLaneOf entries.now) lanes.items) }
{
    let mut lanes = Vec::new(alloc);
    for number in 0..1024usize {
        let signal = signal_at(number);
        let changes = changes(alloc, signal, entries)?;
        if changes.is_empty() {
            continue;
        }
        lanes.push(Lane { signal, changes })?;
    }
    Ok(lanes)
}
