//! The counters of Statement List: a number from 0 to 999 that instructions change where their RLO rises.
#![tactic(auto)]

mod counter;

pub use counter::Counter;
