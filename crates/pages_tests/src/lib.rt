//! Tests of the dynamic pages.
#![tactic(auto)]

#[cfg(test)]
mod pages;
