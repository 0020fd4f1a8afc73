//! A pool of pages of 256 bytes: the region is taken once, and a page is held by one owner at a time.
#![tactic(auto)]

mod pool;

pub use pool::{Contents, PAGE_BYTES, Page, Pool};
