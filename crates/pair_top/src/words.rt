//! The command words.
ghost use Rattle.std.specs.Prelude.{◌≡◌, IfSome};
ghost use Rattle.std.specs.Option.{option_map};
ghost use Rattle.pair_top.specs.Orders.{AreMoments};
ghost use Rattle.pair_top.specs.Words.{moments_of, command_of, words_of};
ghost use Rattle.pair_top.specs.WordsView.{order_of, IsReadable};

use crate::pattern::{is_pattern, times_from};

/// The fewest moments of a made play.
const FEWEST_MOMENTS: u32 = 1_000;

/// The most moments of a made play.
const MOST_MOMENTS: u32 = 100_000;

/// What the words ask for, with the names of the files.
#[derive(Clone, Copy)]
pub enum Command<'a> {
    /// To tell the blocks of a source.
    Load {
        source: &'a [u8],
    },
    /// To play the events of a connection.
    Connect {
        events: &'a [u8],
    },
    /// To play side A alone.
    Solo {
        source: &'a [u8],
        script: &'a [u8],
    },
    /// To play both sides by a pattern.
    Turns {
        source: &'a [u8],
        script: &'a [u8],
        pattern: &'a [u8],
    },
    /// To play both sides in turn by the source and the script that are made for a number of moments, 1,000 to 100,000.
    Make {
        moments: u32,
    },
}

/// The number of moments that decimal digits write, 1,000 to 100,000.
#[tactic(auto, using(crate::proofs::Moments::no_times, crate::proofs::Moments::are_moments, crate::proofs::Moments::too_few, crate::proofs::Moments::too_many))]
fn moments_from(digits: &[u8]) -> Option<u32>
    ensures moments { result ≡ moments_of digits.now }
    ensures within { IfSome result AreMoments }
{
    let moments = times_from(digits)?;
    if moments < FEWEST_MOMENTS || moments > MOST_MOMENTS {
        return None;
    }
    Some(moments)
}

/// The command that the words are. None exactly where they are no command.
pub fn command_from(words: &[Vec<u8>]) -> Option<Command<'_>>
    ensures command { option_map order_of result ≡ command_of (words_of words.now) }
    ensures readable { IfSome result IsReadable }
{
    match words {
        [word, source] if word.as_slice() == b"load".as_slice() => Some(Command::Load {
            source: source.as_slice(),
        }),
        [word, events] if word.as_slice() == b"connect".as_slice() => Some(Command::Connect {
            events: events.as_slice(),
        }),
        [word, digits] if word.as_slice() == b"make".as_slice() => {
            let moments = moments_from(digits.as_slice())?;
            Some(Command::Make { moments })
        }
        [word, source, script] if word.as_slice() == b"solo".as_slice() => Some(Command::Solo {
            source: source.as_slice(),
            script: script.as_slice(),
        }),
        [word, source, script, pattern]
            if word.as_slice() == b"turns".as_slice() && is_pattern(pattern.as_slice()) => {
            Some(Command::Turns {
                source: source.as_slice(),
                script: script.as_slice(),
                pattern: pattern.as_slice(),
            })
        }
        _ => None,
    }
}
