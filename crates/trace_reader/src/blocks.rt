//! The data blocks and the counters of a tail.
ghost use Rattle.std.specs.Prelude.{◌≡◌, ◌++◌, ◌<◌, ℕ, List, length, codes, None, IfOk, IfSome};
ghost use Rattle.std.specs.List.{flat_map};
ghost use Rattle.std.specs.Option.{option_map};
ghost use Rattle.trace_reader.specs.declared.trace.Counter.{Counter};
ghost use Rattle.trace_reader.specs.Blocks.{DataBlock};
ghost use Rattle.trace_reader.specs.Fields.{after};
ghost use Rattle.trace_reader.specs.Ranges.{Each, FitsBlock, FitsCounter};
ghost use Rattle.trace_reader.specs.Lines.{block_at, counter_at};
ghost use Rattle.trace_reader.specs.Text.{block_line, counter_line};

use crate::fields::after;
use crate::images::image_at;
use crate::lines::counter_at;
use crate::trace::{Block, Counter};
use crate::words::small_at;
use std::alloc::{AllocError, Global};

/// The greatest number of bytes of a data block.
const BLOCK_BYTES: usize = 65_536;

/// Returns a data block, and the text after its line, or None where the next line is none.
#[tactic(auto, unfolding(crate::specs::Lines::block_at), using(std::proofs::Common::append_assoc))]
fn block_at(alloc: Global, text: &[u8]) -> Result<Option<(Block, &[u8])>, AllocError>
    ensures exact { IfOk result (λ found. option_map (λ p. (p.0, p.1.now)) found ≡ block_at text.now) }
    ensures written { IfOk result (λ found. IfSome found (λ p. text.now ≡ block_line p.0 ++ p.1.now)) }
    ensures fits { IfOk result (λ found. IfSome found (λ p. FitsBlock p.0)) }
    ensures shorter { IfOk result (λ found. IfSome found (λ p. length p.1.now < length text.now)) }
{
    let Some(rest) = after(b"DB ", text) else {
        return Ok(None);
    };
    let Some((number, rest)) = small_at(rest) else {
        return Ok(None);
    };
    let Some(rest) = after(b" ", rest) else {
        return Ok(None);
    };
    let mut bytes = vec![in alloc; 0u8; BLOCK_BYTES]?;
    let Some(rest) = image_at(&mut bytes, rest) else {
        return Ok(None);
    };
    let Some(rest) = after(b"\n", rest) else {
        return Ok(None);
    };
    Ok(Some((Block::new(number, bytes), rest)))
}

/// Returns the data blocks, and the text after their lines.
#[tactic(auto, using(crate::proofs::Sections::more_after, std::proofs::Common::append_assoc))]
pub fn blocks_from(alloc: Global, text: &[u8]) -> Result<(Vec<Block>, &[u8]), AllocError>
    ensures written { IfOk result (λ p. text.now ≡ flat_map block_line p.0.items ++ p.1.now) }
    ensures fits { IfOk result (λ p. Each FitsBlock p.0.items) }
    ensures over { IfOk result (λ p. block_at p.1.now ≡ None) }
    ensures exact { (blocks : List DataBlock) (rest : List ℕ) → Each FitsBlock blocks → after (codes "DB ") rest ≡ None → text.now ≡ flat_map block_line blocks ++ rest → IfOk result (λ p. p.1.now ≡ rest) }
{
    let mut blocks = Vec::new(alloc);
    let mut rest = text;
    'blocks: while let Some((block, next)) = block_at(alloc, rest)? {
        blocks.push(block)?;
        rest = next;
    }
    Ok((blocks, rest))
}

/// Returns the counters, and the text after their lines.
#[tactic(auto, using(crate::proofs::Sections::more_after, std::proofs::Common::append_assoc))]
pub fn counters_from(alloc: Global, text: &[u8]) -> Result<(Vec<Counter>, &[u8]), AllocError>
    ensures written { IfOk result (λ p. text.now ≡ flat_map counter_line p.0.items ++ p.1.now) }
    ensures fits { IfOk result (λ p. Each FitsCounter p.0.items) }
    ensures over { IfOk result (λ p. counter_at p.1.now ≡ None) }
    ensures exact { (counters : List Counter) (rest : List ℕ) → Each FitsCounter counters → after (codes "C ") rest ≡ None → text.now ≡ flat_map counter_line counters ++ rest → IfOk result (λ p. p.1.now ≡ rest) }
{
    let mut counters = Vec::new(alloc);
    let mut rest = text;
    'counters: while let Some((counter, next)) = counter_at(rest) {
        counters.push(counter)?;
        rest = next;
    }
    Ok((counters, rest))
}
