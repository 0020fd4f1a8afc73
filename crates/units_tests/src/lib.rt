//! Tests of the units of the CPU, by tables.
#![tactic(auto)]

#[cfg(test)]
mod bits;
#[cfg(test)]
mod counting;
#[cfg(test)]
mod durations;
#[cfg(test)]
mod numbers;
#[cfg(test)]
mod status;
#[cfg(test)]
mod timing;
