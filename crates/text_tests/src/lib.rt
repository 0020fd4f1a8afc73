//! Tests of the writer and of the reader of traces, over whole texts.
#![tactic(auto)]

#[cfg(test)]
mod printed;
#[cfg(test)]
mod texts;
