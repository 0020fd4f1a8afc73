//! Tests of the pair, over whole plays.
#![tactic(auto)]

#[cfg(test)]
mod pairs;
