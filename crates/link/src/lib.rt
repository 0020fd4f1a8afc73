//! The link between the two sides: one place, in which one parcel lies at most.
#![tactic(auto)]

mod parcel;
mod place;

pub use parcel::Parcel;
pub use place::{Busy, Empty, Link};
