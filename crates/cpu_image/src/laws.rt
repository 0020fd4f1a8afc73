//! Laws of the definitions.
ghost use Rattle.cpu_image.specs.Laws.{BlocksBegin, WrittenIsRead, WrittenBitIsRead, OthersAreKept, WritesMark, PagesStay};

/// At the start the data block of each number is the program's, with its first bytes.
#[tactic(auto, using(crate::proofs::Loaded::blocks_begin))]
pub fn data_blocks_begin_with_their_bytes()
    ensures { BlocksBegin }
{}

/// A value that was written is read at its place.
#[tactic(auto, using(crate::proofs::Writes::written_is_read))]
pub fn a_value_written_is_read()
    ensures { WrittenIsRead }
{}

/// A bit that was written is read at its place, and the other bits of its byte are as they were.
pub fn a_bit_written_is_read()
    ensures { WrittenBitIsRead }
{}

/// A write changes no byte of another area, and no byte before or after those that it writes.
#[tactic(auto, using(crate::proofs::Writes::others_are_kept))]
pub fn other_bytes_are_kept()
    ensures { OthersAreKept }
{}

/// After a write those pages are marked that were, and those on which a byte was written.
#[tactic(auto, using(crate::proofs::Writes::writes_mark))]
pub fn a_write_marks_its_pages()
    ensures { WritesMark }
{}

/// A write moves no area to another page.
#[tactic(auto, using(crate::proofs::Writes::pages_stay))]
pub fn pages_stay()
    ensures { PagesStay }
{}
