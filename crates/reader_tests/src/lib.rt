//! Tests of the readers of a source, by tables.
#![tactic(auto)]

#[cfg(test)]
mod declarations;
#[cfg(test)]
mod sources;
#[cfg(test)]
mod statements;
#[cfg(test)]
mod tokens;
