//! An image as it begins.
ghost use Rattle.std.specs.Prelude.{◌≡◌, ◌+◌, ◌<◌, ◌≤◌, ℕ, false, length, take, replicate, slice_index, IfOk};
ghost use Rattle.std.specs.List.{All};
ghost use Rattle.s7_base.specs.Limits.{IsData};
ghost use Rattle.cpu_image.specs.Pages.{pages_of, data_pages};
ghost use Rattle.cpu_image.specs.Layout.{first_bytes, first_bytes_below, laid};

use crate::data::DataBytes;
use crate::image::{CpuImage, FIRST_DATA_PAGE, PAGE_BYTES};
use s7_base::{Blocks, DataBlock, NoMemory};
use std::alloc::Global;

impl CpuImage {
    /// Returns the image of these blocks: its areas are 0, each data block has its first bytes, and no page is marked.
    /// This call alone takes memory.
    ///
    /// # Errors
    /// `NoMemory` only where memory runs out.
    #[tactic(auto, using(crate::proofs::Loaded::pages_loaded, crate::proofs::Loaded::length_below))]
    pub fn lay(alloc: Global, blocks: &Blocks) -> Result<CpuImage, NoMemory>
        ensures { IfOk result (λ image. image ≡ laid blocks.now) }
    {
        let data_blocks = areas_of(alloc, blocks.data_blocks())?;
        let (first_pages, registers_page) = pages_in(&data_blocks);
        let marks = no_marks(alloc, registers_page + 1)?;
        Ok(CpuImage {
            inputs: [0; 64],
            outputs: [0; 64],
            bit_memory: [0; 1024],
            data_blocks,
            first_pages,
            marks,
        })
    }
}

/// The first bytes of each data block, at its number.
#[tactic(auto, using(crate::proofs::Loaded::none_below, crate::proofs::Loaded::one_more))]
fn areas_of(alloc: Global, blocks: &[DataBlock]) -> Result<Vec<Option<DataBytes>>, NoMemory>
    requires { All IsData blocks.now }
    ensures { IfOk result (λ areas. areas.items ≡ first_bytes_below blocks.now 256) }
{
    let mut areas = Vec::new(alloc);
    for number in 0..256usize {
        let bytes = bytes_loaded(alloc, blocks, number as u8)?;
        if areas.push(bytes).is_err() {
            return Err(NoMemory);
        }
    }
    Ok(areas)
}

/// A mark for each page, none of them set.
fn no_marks(alloc: Global, pages: usize) -> Result<Vec<bool>, NoMemory>
    ensures { IfOk result (λ marks. marks.items ≡ replicate pages false) }
{
    let Ok(marks) = vec![in alloc; false; pages] else {
        return Err(NoMemory);
    };
    Ok(marks)
}

/// The first bytes of the data block of a number, if it is loaded.
#[tactic(auto, using(crate::proofs::Loaded::found_is_data))]
fn bytes_loaded(
    alloc: Global,
    blocks: &[DataBlock],
    number: u8,
) -> Result<Option<DataBytes>, NoMemory>
    requires { All IsData blocks.now }
    ensures { IfOk result (λ bytes. bytes ≡ first_bytes blocks.now number) }
{
    let Some(block) = blocks.iter().find(|block| block.number() == number) else {
        return Ok(None);
    };
    let bytes = DataBytes::of(alloc, block)?;
    Ok(Some(bytes))
}

/// The page on which the data block of each number begins, and the page after them all.
fn pages_in(areas: &[Option<DataBytes>]) -> ([usize; 256], usize)
    requires count { length areas.now ≡ 256 }
    requires few { data_pages areas.now ≤ 256 }
    ensures first { (n : ℕ) → n < 256 → slice_index result.0 n ≡ 41 + data_pages (take n areas.now) }
    ensures last { result.1 ≡ 41 + data_pages areas.now }
{
    let mut first_pages = [0; 256];
    let mut page = FIRST_DATA_PAGE;
    for number in 0..256 {
        first_pages[number] = page;
        page += page_count(&areas[number]);
    }
    (first_pages, page)
}

/// The pages that a data block takes.
fn page_count(area: &Option<DataBytes>) -> usize
    ensures { result ≡ pages_of area.now }
{
    let Some(bytes) = area else {
        return 0;
    };
    (bytes.as_slice().len() + (PAGE_BYTES - 1)) / PAGE_BYTES
}
