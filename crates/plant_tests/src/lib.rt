//! Tests of the plant: its scripts, inputs and alarms, and the makers of a load.
#![tactic(auto)]

#[cfg(test)]
mod alarms;
#[cfg(test)]
mod inputs;
#[cfg(test)]
mod made;
#[cfg(test)]
mod scripts;
