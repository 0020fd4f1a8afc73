//! The pages of timers, counters and diagnostic entries, and what is read from them.
ghost use Rattle.std.specs.Prelude.{◌≡◌, ℕ, ◌*◌, ◌<◌, ◌≤◌, ◌+◌, ◌^◌, List, length, slice_index, All};
ghost use Rattle.timers.specs.State.{TimerState};
ghost use Rattle.counters.specs.State.{CounterState};
ghost use Rattle.diag_buffer.specs.declared.note.Note.{Note};
ghost use Rattle.dynamic_pages.specs.Pages.{page_of, timer_bytes, counter_bytes, note_bytes, part, IsStoredTimer, IsStoredCounter, HoldTimers, HoldCounters};

use crate::note::{NOTE_BYTES, note_bytes};
use counters::Counter;
use diag_buffer::{Diag, Note};
use timers::Timer;

/// How many bytes a page has.
pub const PAGE_BYTES: usize = 256;

/// How many bytes a timer has.
pub const TIMER_BYTES: usize = 24;

/// How many bytes a counter has.
pub const COUNTER_BYTES: usize = 4;

/// A byte of the timers, 0 past the last one.
fn timer_byte(timers: &[Timer; 256], at: usize) -> u8
    ensures { result ≡ slice_index (timer_bytes timers.now) at }
{
    match timers.get(at / TIMER_BYTES) {
        Some(timer) => timer.to_bytes()[at % TIMER_BYTES],
        None => 0,
    }
}

/// Returns page k of the timers, counted from 0; they have 24 pages.
pub fn timer_page(timers: &[Timer; 256], k: usize) -> [u8; 256]
    requires { k < 24 }
    ensures { result ≡ page_of (timer_bytes timers.now) k }
{
    let mut page = [0; PAGE_BYTES];
    for i in 0..PAGE_BYTES {
        page[i] = timer_byte(timers, PAGE_BYTES * k + i);
    }
    page
}

/// A byte of the counters, 0 past the last one.
fn counter_byte(counters: &[Counter; 256], at: usize) -> u8
    ensures { result ≡ slice_index (counter_bytes counters.now) at }
{
    match counters.get(at / COUNTER_BYTES) {
        Some(counter) => counter.to_bytes()[at % COUNTER_BYTES],
        None => 0,
    }
}

/// Returns page k of the counters, counted from 0; they have 4 pages.
pub fn counter_page(counters: &[Counter; 256], k: usize) -> [u8; 256]
    requires { k < 4 }
    ensures { result ≡ page_of (counter_bytes counters.now) k }
{
    let mut page = [0; PAGE_BYTES];
    for i in 0..PAGE_BYTES {
        page[i] = counter_byte(counters, PAGE_BYTES * k + i);
    }
    page
}

/// A byte of the diagnostic entries, 0 past the last one.
fn note_byte(diag: &Diag, at: usize) -> u8
    requires { at < 2 ^ 32 }
    ensures { result ≡ slice_index (note_bytes diag.now) at }
{
    match diag.get((at / NOTE_BYTES) as u32) {
        Some((moment, code)) => note_bytes(&Note { moment, code })[at % NOTE_BYTES],
        None => 0,
    }
}

/// Returns page k of the diagnostic entries, counted from 0; they have 8 pages.
pub fn note_page(diag: &Diag, k: usize) -> [u8; 256]
    requires { k < 8 }
    ensures { result ≡ page_of (note_bytes diag.now) k }
{
    let mut page = [0; PAGE_BYTES];
    for i in 0..PAGE_BYTES {
        page[i] = note_byte(diag, PAGE_BYTES * k + i);
    }
    page
}

fn timer_fits(timer: &Timer)
    ensures { IsStoredTimer timer.now }
{
    let _bytes = timer.to_bytes();
}

/// The numbers of all timers fit their bytes. This is for proofs: it changes nothing.
pub fn timers_fit(timers: &[Timer; 256])
    ensures { All IsStoredTimer timers.now }
{
    for timer in timers {
        timer_fits(timer);
    }
}

fn counter_fits(counter: &Counter)
    ensures { IsStoredCounter counter.now }
{
    let _bytes = counter.to_bytes();
}

/// The numbers of all counters fit their bytes. This is for proofs: it changes nothing.
pub fn counters_fit(counters: &[Counter; 256])
    ensures { All IsStoredCounter counters.now }
{
    for counter in counters {
        counter_fits(counter);
    }
}

/// The bytes of timer k.
fn timer_piece(bytes: &[u8], k: usize) -> [u8; 24]
    requires { TIMER_BYTES * k + 24 ≤ length bytes.now }
    ensures { result ≡ part 24 bytes.now k }
{
    let mut piece = [0; TIMER_BYTES];
    piece.copy_from_slice(&bytes[TIMER_BYTES * k..TIMER_BYTES * k + TIMER_BYTES]);
    piece
}

/// Returns the 256 timers with whose bytes these begin.
pub fn timers_of(bytes: &[u8]) -> [Timer; 256]
    requires { (timers : List TimerState) × HoldTimers bytes.now timers }
    ensures { (timers : List TimerState) → HoldTimers bytes.now timers → result ≡ timers }
{
    let mut timers = [Timer::new(); 256];
    for k in 0..256 {
        timers[k] = Timer::of_bytes(&timer_piece(bytes, k));
    }
    timers
}

/// The bytes of counter k.
fn counter_piece(bytes: &[u8], k: usize) -> [u8; 4]
    requires { COUNTER_BYTES * k + 4 ≤ length bytes.now }
    ensures { result ≡ part 4 bytes.now k }
{
    let mut piece = [0; COUNTER_BYTES];
    piece.copy_from_slice(&bytes[COUNTER_BYTES * k..COUNTER_BYTES * k + COUNTER_BYTES]);
    piece
}

/// Returns the 256 counters with whose bytes these begin.
pub fn counters_of(bytes: &[u8]) -> [Counter; 256]
    requires { (counters : List CounterState) × HoldCounters bytes.now counters }
    ensures { (counters : List CounterState) → HoldCounters bytes.now counters → result ≡ counters }
{
    let mut counters = [Counter::new(); 256];
    for k in 0..256 {
        counters[k] = Counter::of_bytes(&counter_piece(bytes, k));
    }
    counters
}
