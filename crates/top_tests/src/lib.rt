//! Tests of the top call, over whole plays.
#![tactic(auto)]

#[cfg(test)]
mod plays;
