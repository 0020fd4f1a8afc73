//! A diagnostic entry as bytes.
ghost use Rattle.std.specs.Prelude.{◌≡◌};
ghost use Rattle.s7_events.specs.declared.entry.Side.{Side};
ghost use Rattle.s7_events.specs.declared.entry.StopCode.{StopCode};
ghost use Rattle.s7_events.specs.declared.diagnostics.DiagCode.{DiagCode};
ghost use Rattle.diag_buffer.specs.declared.note.Note.{Note};
ghost use Rattle.dynamic_pages.specs.Notes.{side_number, stop_number, code_number, detail_number, bytes_of, IsStored, IsDetail};

use diag_buffer::Note;
use s7_events::{DiagCode, Side, StopCode};

/// How many bytes a diagnostic entry has.
pub const NOTE_BYTES: usize = 16;

fn side_number(side: Side) -> u8
    ensures { result ≡ side_number side }
{
    match side {
        Side::A => 0,
        Side::B => 1,
    }
}

fn stop_number(code: StopCode) -> u8
    ensures { result ≡ stop_number code }
{
    match code {
        StopCode::Cycle => 0,
        StopCode::Sfc46 => 1,
        StopCode::NoOb121 => 2,
        StopCode::NoOb122 => 3,
        StopCode::NoOb85 => 4,
        StopCode::Depth => 5,
        StopCode::Local => 6,
        StopCode::InError => 7,
    }
}

/// The number of what an entry says.
fn code_number(code: DiagCode) -> u16
    ensures { result ≡ code_number code }
{
    match code {
        DiagCode::Start => 1,
        DiagCode::LostFailed(_) => 2,
        DiagCode::LostSuspect(_) => 3,
        DiagCode::Back(_) => 4,
        DiagCode::Error(_) => 5,
        DiagCode::Cycle => 6,
        DiagCode::Ob85(_) => 7,
        DiagCode::Discrep(_) => 8,
        DiagCode::Stop(_) => 9,
    }
}

/// Of what an entry says it, as a number.
fn detail_number(code: DiagCode) -> u16
    ensures number { result ≡ detail_number code }
    ensures fits { IsDetail code }
{
    match code {
        DiagCode::Start | DiagCode::Cycle => 0,
        DiagCode::LostFailed(side) | DiagCode::LostSuspect(side) | DiagCode::Back(side) => {
            u16::from(side_number(side))
        }
        DiagCode::Error(number) | DiagCode::Ob85(number) => u16::from(number),
        DiagCode::Discrep(addr) => addr,
        DiagCode::Stop(code) => u16::from(stop_number(code)),
    }
}

/// Returns the 16 bytes of a diagnostic entry.
#[tactic(auto, unfolding(crate::specs::Notes::bytes_of))]
pub fn note_bytes(note: &Note) -> [u8; 16]
    ensures bytes { result ≡ bytes_of note.now }
    ensures fits { IsStored note.now }
{
    let [a, b, c, d, e, f, g, h] = note.moment.to_be_bytes();
    let [code_high, code_low] = code_number(note.code).to_be_bytes();
    let detail = u32::from(detail_number(note.code));
    let [w, x, y, z] = detail.to_be_bytes();
    [
        a, b, c, d, e, f, g, h, code_high, code_low, w, x, y, z, 0, 0,
    ]
}

fn side_of(number: u32) -> Side
    ensures { (side : Side) → number ≡ side_number side → result ≡ side }
{
    if number == 0 { Side::A } else { Side::B }
}

fn stop_of(number: u32) -> StopCode
    ensures { (code : StopCode) → number ≡ stop_number code → result ≡ code }
{
    match number {
        0 => StopCode::Cycle,
        1 => StopCode::Sfc46,
        2 => StopCode::NoOb121,
        3 => StopCode::NoOb122,
        4 => StopCode::NoOb85,
        5 => StopCode::Depth,
        6 => StopCode::Local,
        _ => StopCode::InError,
    }
}

/// What an entry says, by its two numbers.
fn code_of(number: u16, detail: u32) -> DiagCode
    ensures { (code : DiagCode) → IsDetail code → number ≡ code_number code → detail ≡ detail_number code → result ≡ code }
{
    match number {
        1 => DiagCode::Start,
        2 => DiagCode::LostFailed(side_of(detail)),
        3 => DiagCode::LostSuspect(side_of(detail)),
        4 => DiagCode::Back(side_of(detail)),
        5 => DiagCode::Error((detail % 256) as u8),
        6 => DiagCode::Cycle,
        7 => DiagCode::Ob85((detail % 256) as u8),
        8 => DiagCode::Discrep((detail % 65536) as u16),
        _ => DiagCode::Stop(stop_of(detail)),
    }
}

/// Returns the diagnostic entry of 16 bytes. Where they are those of an entry it is this one; else it is some entry.
pub fn note_of(bytes: &[u8; 16]) -> Note
    ensures { (note : Note) → IsStored note → bytes.now ≡ bytes_of note → result ≡ note }
{
    let [
        a,
        b,
        c,
        d,
        e,
        f,
        g,
        h,
        code_high,
        code_low,
        w,
        x,
        y,
        z,
        _,
        _,
    ] = *bytes;
    let number = u16::from_be_bytes([code_high, code_low]);
    let detail = u32::from_be_bytes([w, x, y, z]);
    Note {
        moment: u64::from_be_bytes([a, b, c, d, e, f, g, h]),
        code: code_of(number, detail),
    }
}
