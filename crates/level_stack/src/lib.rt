//! The levels of a CPU: the blocks that have begun on each of them, their local bytes, and the start information
//! of organisation blocks.
#![tactic(auto)]

mod information;
mod laws;
mod level;
mod levels;
mod value;

pub use information::start_info;
pub use laws::a_caller_keeps_its_local_bytes;
pub use level::{DEPTH, LOCAL_BYTES, LevelFault};
pub use levels::{LEVELS, Levels};
