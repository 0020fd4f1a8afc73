//! A fault-tolerant connection: jobs go over two paths, on which frames may be lost, repeated and reordered, and are
//! handed over once each and in order. `play` plays the events of a file.
#![tactic(auto)]

mod conn_error;
mod connection;
mod event;
mod frame;
mod laws;
mod line;
mod player;
mod reading;
mod receiver;
mod sender;
mod text;
mod wires;
mod words;

pub use conn_error::ConnError;
pub use frame::{Frame, Path, SendFault, Taken};
pub use laws::{
    a_written_file_is_read_again, frames_name_their_own_jobs,
    jobs_are_handed_over_once_and_in_order, long_numbers_name_what_they_say,
    no_more_is_acknowledged_than_handed_over,
};
pub use player::{ConnText, Handed, Played, play};
pub use receiver::Receiver;
pub use sender::Sender;
