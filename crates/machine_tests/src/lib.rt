//! Tests of the machine and of the subsystem, over programs and answers.
#![tactic(auto)]

#[cfg(test)]
mod machine;
#[cfg(test)]
mod subsystems;
