//! One level: the blocks that have begun on it, and their local bytes.
ghost use Rattle.std.specs.Prelude.{◌≡◌, ◌+◌, ◌*◌, ◌^◌, ◌<◌, ◌≤◌, [], length, replicate, ◌↔◌, OnOk, OnErr, Ok, Err};
ghost use Rattle.std.specs.Prelude.{slice_range};
ghost use Rattle.level_stack.specs.Values.{IsWidth, value_of};
ghost use Rattle.level_stack.specs.Levels.{LevelState, entered, left, written, started, local_count, top_locals};

use crate::value::{put_start_at, put_value_at, value_in};
use arrayvec::ArrayVec;
use s7_base::{BlockRef, CodeKind};
use std::marker::Model;

/// How many blocks may have begun on a level.
pub const DEPTH: usize = 24;

/// How many local bytes the blocks of a level have together.
pub const LOCAL_BYTES: usize = 256;

/// What the local bytes of a block begin with.
static ZEROS: [u8; LOCAL_BYTES] = [0; LOCAL_BYTES];

/// Returns `count` bytes of 0.
fn zeros(count: u16) -> &'static [u8]
    requires { count ≤ 256 }
    ensures { result.now ≡ replicate count 0 }
{
    &ZEROS[..usize::from(count)]
}

/// Why a block cannot begin.
#[derive(Clone, Copy, Debug, PartialEq, Eq)]
pub enum LevelFault {
    /// As many blocks have begun on the level as may.
    DepthReached,
    /// The level has not as many local bytes left as the block wants.
    LocalFull,
}

/// A block that has begun, and how many local bytes it has.
#[derive(Clone, Copy, Debug)]
struct Frame {
    block: BlockRef,
    temp: u16,
}

impl Default for Frame {
    fn default() -> Frame {
        Frame {
            block: BlockRef {
                kind: CodeKind::Ob,
                number: 1,
            },
            temp: 0,
        }
    }
}

/// The blocks that have begun on one level, from the first to the one that runs. Their local bytes lie one after
/// the other.
#[derive(Debug, Drop)]
pub(crate) struct Level {
    prio: u8,
    frames: ArrayVec<Frame, DEPTH>,
    locals: ArrayVec<u8, LOCAL_BYTES>,
}

impl Model for Level {
    ghost use Rattle.std.specs.Prelude.{◌≡◌, length, sum_by};
    ghost use Rattle.level_stack.specs.Levels.{LevelState};
    ghost use Rattle.level_stack.specs.Inside.{frames_in};

    ghost Value = { LevelState };

    ghost view = { λ l. record { prio = l.prio; frames = frames_in l.frames.items l.locals.items } };

    ghost invariant = { λ l. sum_by (λ frame. frame.temp) l.frames.items ≡ length l.locals.items };
}

impl Default for Level {
    fn default() -> Level {
        Level::new(0)
    }
}

impl Level {
    /// A level of this priority on which no block has begun.
    pub(crate) fn new(prio: u8) -> Level
        ensures { result ≡ record { prio = prio; frames = [] } }
    {
        Level {
            prio,
            frames: ArrayVec::new(),
            locals: ArrayVec::new(),
        }
    }

    pub(crate) fn prio(&self) -> u8
        ensures { result ≡ self.now.prio }
    {
        self.prio
    }

    pub(crate) fn enter(&mut self, block: BlockRef, temp: u16) -> Result<(), LevelFault>
        ensures depth { (result ≡ Err LevelFault.DepthReached) ↔ (length self.old.frames ≡ 24) }
        ensures local { (result ≡ Err LevelFault.LocalFull) ↔ ((length self.old.frames < 24) × (256 < local_count self.old.frames + temp)) }
        ensures entered { OnOk result (self.new ≡ entered block temp self.old) }
        ensures refused { OnErr result (self.new ≡ self.old) }
    {
        if self.frames.is_full() {
            return Err(LevelFault::DepthReached);
        }
        if usize::from(temp) > self.locals.remaining_capacity() {
            return Err(LevelFault::LocalFull);
        }
        let Ok(()) = self.locals.try_extend_from_slice(zeros(temp)) else {
            unreachable!();
        };
        self.frames.push(Frame { block, temp });
        Ok(())
    }

    /// How many blocks have begun on it.
    #[tactic(auto, using(crate::proofs::Counts::as_many))]
    pub(crate) fn depth(&self) -> usize
        ensures depth { result ≡ length self.now.frames }
        ensures few { result ≤ 24 }
    {
        self.frames.len()
    }

    /// How many local bytes the block that runs has.
    pub(crate) fn top_count(&self) -> usize
        requires { 0 < length self.now.frames }
        ensures count { result ≡ length (top_locals self.now.frames) }
    {
        self.top().len()
    }

    pub(crate) fn leave(&mut self)
        requires { 0 < length self.old.frames }
        ensures { self.new ≡ left self.old }
    {
        let Some(frame) = self.frames.pop() else {
            unreachable!();
        };
        let rest = self.locals.len() - usize::from(frame.temp);
        self.locals.truncate(rest);
    }

    /// The local bytes of the block that runs.
    fn top(&self) -> &[u8]
        requires { 0 < length self.now.frames }
        ensures { result.now ≡ top_locals self.now.frames }
    {
        let temp = self.frames[self.frames.len() - 1].temp;
        &self.locals[self.locals.len() - usize::from(temp)..]
    }

    pub(crate) fn read(&self, at_byte: u16, width: u8) -> u32
        requires width { IsWidth width }
        requires holds { at_byte + width ≤ length (top_locals self.now.frames) }
        ensures value { result ≡ value_of (slice_range (top_locals self.now.frames) at_byte (at_byte + width)) }
        ensures bound { result < 2 ^ (8 * width) }
    {
        let from = usize::from(at_byte);
        value_in(&self.top()[from..from + usize::from(width)])
    }

    pub(crate) fn write(&mut self, at_byte: u16, width: u8, value: u32)
        requires width { IsWidth width }
        requires fits { value < 2 ^ (8 * width) }
        requires holds { at_byte + width ≤ length (top_locals self.old.frames) }
        ensures { self.new ≡ written at_byte width value self.old }
    {
        let from = self.locals.len() - self.top().len() + usize::from(at_byte);
        put_value_at(self.locals.as_mut_slice(), from, width, value);
    }

    /// Writes the start information into the first local bytes of the block that runs.
    pub(crate) fn write_start(&mut self, bytes: &[u8; 20])
        requires { 20 ≤ length (top_locals self.old.frames) }
        ensures { self.new ≡ started bytes.now self.old }
    {
        let from = self.locals.len() - self.top().len();
        put_start_at(self.locals.as_mut_slice(), from, bytes);
    }
}
