//! Tests of the shared types, the record, the files in memory, and what a CPU is kept and sent in.
#![tactic(auto)]

#[cfg(test)]
mod areas;
#[cfg(test)]
mod blocks;
#[cfg(test)]
mod images;
#[cfg(test)]
mod levels;
#[cfg(test)]
mod newest;
#[cfg(test)]
mod outside;
#[cfg(test)]
mod pages;
#[cfg(test)]
mod parcels;
#[cfg(test)]
mod records;
