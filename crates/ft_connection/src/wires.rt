//! The network: every frame and every acknowledgement that was ever sent.
ghost use Rattle.std.specs.Prelude.{◌≡◌, ℕ, ◌∷◌, [], ◌++◌, List, MatchResult, slice_get, Option, Some, None};
ghost use Rattle.ft_connection.specs.World.{wire, with_frame, with_ack, no_wires};
ghost use Rattle.ft_connection.specs.WireView.{wire_of, wires_of};

use crate::conn_error::ConnError;
use crate::frame::{Frame, Path};
use std::alloc::Global;

/// What was sent on one path.
#[derive(Drop)]
struct WireLog {
    frames: Vec<Frame>,
    acks: Vec<u32>,
}

/// What was sent on the two paths.
#[derive(Drop)]
pub(crate) struct Network {
    one: WireLog,
    two: WireLog,
}

/// The frame of this number, from 0, if there is one.
fn frame_at(frames: &[Frame], which: u32) -> Option<Frame>
    ensures { result ≡ slice_get frames.now which }
{
    frames.get(which as usize).copied()
}

/// The acknowledgement of this number, from 0, if there is one.
fn ack_at(acks: &[u32], which: u32) -> Option<u32>
    ensures { result ≡ slice_get acks.now which }
{
    acks.get(which as usize).copied()
}

impl WireLog {
    fn new(alloc: Global) -> WireLog
        ensures { wire_of result ≡ record { frames = []; acks = [] } }
    {
        WireLog {
            frames: Vec::new(alloc),
            acks: Vec::new(alloc),
        }
    }

    /// Keeps a frame.
    fn keep_frame(&mut self, frame: Frame) -> Result<(), ConnError>
        ensures { MatchResult result (λ _. wire_of self.new ≡ record { frames = self.old.frames.items ++ frame ∷ []; acks = self.old.acks.items }) (λ e. e ≡ ConnError.NoMemory) }
    {
        if self.frames.push(frame).is_err() {
            return Err(ConnError::NoMemory);
        }
        Ok(())
    }

    /// Keeps an acknowledgement.
    fn keep_ack(&mut self, next: u32) -> Result<(), ConnError>
        ensures { MatchResult result (λ _. wire_of self.new ≡ record { frames = self.old.frames.items; acks = self.old.acks.items ++ next ∷ [] }) (λ e. e ≡ ConnError.NoMemory) }
    {
        if self.acks.push(next).is_err() {
            return Err(ConnError::NoMemory);
        }
        Ok(())
    }
}

impl Network {
    /// Nothing was sent.
    pub(crate) fn new(alloc: Global) -> Network
        ensures { wires_of result ≡ no_wires }
    {
        Network {
            one: WireLog::new(alloc),
            two: WireLog::new(alloc),
        }
    }

    /// The frame of this number, from 0, of those sent on a path.
    pub(crate) fn frame(&self, path: Path, which: u32) -> Option<Frame>
        ensures { result ≡ slice_get (wire (wires_of self.now) path).frames which }
    {
        match path {
            Path::One => frame_at(&self.one.frames, which),
            Path::Two => frame_at(&self.two.frames, which),
        }
    }

    /// The acknowledgement of this number, from 0, of those sent on a path.
    pub(crate) fn ack(&self, path: Path, which: u32) -> Option<u32>
        ensures { result ≡ slice_get (wire (wires_of self.now) path).acks which }
    {
        match path {
            Path::One => ack_at(&self.one.acks, which),
            Path::Two => ack_at(&self.two.acks, which),
        }
    }

    /// Keeps a frame that is sent on a path.
    pub(crate) fn keep_frame(&mut self, path: Path, frame: Frame) -> Result<(), ConnError>
        ensures { MatchResult result (λ _. wires_of self.new ≡ with_frame (wires_of self.old) path frame) (λ e. e ≡ ConnError.NoMemory) }
    {
        match path {
            Path::One => self.one.keep_frame(frame),
            Path::Two => self.two.keep_frame(frame),
        }
    }

    /// Keeps an acknowledgement that is sent on a path.
    pub(crate) fn keep_ack(&mut self, path: Path, next: u32) -> Result<(), ConnError>
        ensures { MatchResult result (λ _. wires_of self.new ≡ with_ack (wires_of self.old) path next) (λ e. e ≡ ConnError.NoMemory) }
    {
        match path {
            Path::One => self.one.keep_ack(next),
            Path::Two => self.two.keep_ack(next),
        }
    }
}
