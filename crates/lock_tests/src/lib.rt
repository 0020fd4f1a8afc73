//! Tests of the lock of two seats.
#![tactic(auto)]

#[cfg(test)]
mod notes;
