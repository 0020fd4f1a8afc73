//! The redundant pair, played by visits: one side at a time comes, and takes or appends an entry, or shows or marks
//! an output.
#![tactic(auto)]

mod acts;
mod cuts;
mod endings;
mod jobs;
mod laws;
mod monitor;
mod own;
mod pair;
mod plant_inputs;
mod showings;
mod sides;
mod standing;
mod state;
mod turns;
mod waits;

pub use endings::{Ended, SystemState};
pub use laws::{answered_once, asking_stays, begins, one_begins};
pub use pair::Pair;
pub use showings::Shown;
pub use turns::{Reason, Turn};
