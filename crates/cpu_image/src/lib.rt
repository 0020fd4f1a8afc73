//! The image of a CPU: the bytes of its areas that statements address, and a mark for each page of all its areas.
#![tactic(auto)]

mod area;
mod data;
mod image;
mod laws;
mod lay;

pub use area::ByteArea;
pub use image::{CpuImage, ImageFault};
pub use laws::{
    a_bit_written_is_read, a_value_written_is_read, a_write_marks_its_pages,
    data_blocks_begin_with_their_bytes, other_bytes_are_kept, pages_stay,
};
