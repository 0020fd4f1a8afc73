//! Tests of the fault-tolerant connection.
#![tactic(auto)]

#[cfg(test)]
mod connections;
