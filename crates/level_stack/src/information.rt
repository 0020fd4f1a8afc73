//! The start information of an organisation block.
ghost use Rattle.std.specs.Prelude.{◌≡◌};
ghost use Rattle.level_stack.specs.StartInfo.{start_bytes};

/// Returns the 20 bytes that an organisation block finds at the begin of its local data: 17, `first`, the priority
/// of the level, the number of the block, `info` and `at`, the highest byte first, and eight bytes 0. `at` is a
/// moment in milliseconds.
pub fn start_info(first: u8, prio: u8, ob: u8, info: u32, at: u32) -> [u8; 20]
    ensures { result ≡ start_bytes first prio ob info at }
{
    let [info_3, info_2, info_1, info_0] = info.to_be_bytes();
    let [at_3, at_2, at_1, at_0] = at.to_be_bytes();
    [
        17, first, prio, ob, info_3, info_2, info_1, info_0, at_3, at_2, at_1, at_0, 0, 0, 0, 0, 0,
        0, 0, 0,
    ]
}
