//! What can happen to a connection.

use crate::frame::Path;

/// An event. The network delivers any frame and any acknowledgement that was ever sent, or none of them.
#[derive(Clone, Copy, Debug, PartialEq, Eq)]
pub enum Event {
    /// The sender sends the next frame on the path.
    Send(Path),
    /// The frame of this number, from 0, of those ever sent on the path comes to the receiver.
    Deliver(Path, u32),
    /// The acknowledgement of this number, from 0, of those ever sent on the path comes to the sender.
    Ack(Path, u32),
    /// The path goes down.
    Down(Path),
    /// The path comes up.
    Up(Path),
}

/// An event with the number of its line, counted from 1.
#[derive(Clone, Copy, Debug, PartialEq, Eq)]
pub struct NumberedEvent {
    pub line: u32,
    pub event: Event,
}
