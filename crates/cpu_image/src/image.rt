//! The areas of a CPU, read and written by bytes and bits.
ghost use Rattle.std.specs.Prelude.{◌≡◌, ℕ, ◌+◌, ◌-◌, ◌*◌, ◌^◌, ◌<◌, ◌≤◌, List, [], ◌∷◌, length, ◌↔◌, false, OnOk, OnErr, IfOk, IfSome, Err, drop, take, slice_get, slice_index, slice_range, slice_set};
ghost use Rattle.std.specs.Option.{option_copied, option_map};
ghost use Rattle.std.specs.Int.{bytes_high_first};
ghost use Rattle.cpu_image.specs.Values.{IsWidth, value_of, bit_in, with_bit, overwritten};
ghost use Rattle.cpu_image.specs.Image.{Image, bytes_of, area_bytes, with_bytes, IsMissing, EndsBefore, value_at, bit_at};
ghost use Rattle.cpu_image.specs.Pages.{HasSizes, page_count, page_of, first_page, offset, is_marked, with_inputs, written, value_written, outputs_written, bit_written};

use crate::area::ByteArea;
use crate::data::{DataBytes, put_piece};
use std::marker::Model;

/// The page of the first data block.
pub(crate) const FIRST_DATA_PAGE: usize = 41;

/// The number of bytes of a page.
pub(crate) const PAGE_BYTES: usize = 256;

/// Why bytes are not read or written.
#[derive(Clone, Copy, Debug, PartialEq, Eq)]
pub enum ImageFault {
    /// A byte lies past the end of its area.
    NoSuchAddress,
    /// No data block of this number is there.
    NoSuchBlock,
}

/// The bytes of the areas of a CPU. They lie on pages of 256 bytes, and a write marks the pages of its bytes.
#[derive(Debug, Drop)]
pub struct CpuImage {
    pub(crate) inputs: [u8; 64],
    pub(crate) outputs: [u8; 64],
    pub(crate) bit_memory: [u8; 1024],
    /// The data blocks, each at its number.
    pub(crate) data_blocks: Vec<Option<DataBytes>>,
    /// The page on which the data block of a number begins, or would.
    pub(crate) first_pages: [usize; 256],
    pub(crate) marks: Vec<bool>,
}

impl Model for CpuImage {
    ghost use Rattle.std.specs.Prelude.{◌≡◌, ℕ, ◌+◌, ◌<◌, ◌≤◌, length, take, slice_index};
    ghost use Rattle.cpu_image.specs.Image.{Image};
    ghost use Rattle.cpu_image.specs.Pages.{data_pages};

    ghost Value = { Image };

    ghost view = { λ m. record { inputs = m.inputs; outputs = m.outputs; bit_memory = m.bit_memory; data_blocks = m.data_blocks.items; marks = m.marks.items } };

    ghost invariant = { λ m. (length m.data_blocks.items ≡ 256) × (length m.marks.items ≡ 42 + data_pages m.data_blocks.items) × (length m.marks.items ≤ 298) × ((n : ℕ) → n < 256 → slice_index m.first_pages n ≡ 41 + data_pages (take n m.data_blocks.items)) };
}

impl CpuImage {
    /// Returns the number of pages.
    pub fn pages(&self) -> u32
        ensures { result ≡ page_count self.now }
    {
        self.marks.len() as u32
    }

    /// Shows how many bytes, data blocks and pages there are.
    pub fn show_sizes(&self)
        ensures { HasSizes self.now }
    {
        let _inputs: &[u8] = &self.inputs;
        let _outputs: &[u8] = &self.outputs;
        let _bit_memory: &[u8] = &self.bit_memory;
    }

    /// The bytes of an area. None exactly where it is a data block that is not there.
    fn bytes(&self, area: ByteArea) -> Option<&[u8]>
        ensures bytes { option_copied result ≡ bytes_of self.now area }
        ensures few { IfSome result (λ bytes. length bytes.now ≤ 8192) }
    {
        match area {
            ByteArea::I => Some(&self.inputs),
            ByteArea::Q => Some(&self.outputs),
            ByteArea::M => Some(&self.bit_memory),
            ByteArea::Db(number) => {
                let Some(data) = &self.data_blocks[usize::from(number)] else {
                    return None;
                };
                Some(data.as_slice())
            }
        }
    }

    /// Returns the number of bytes of an area, at most 8,192. None exactly where it is a data block that is not there.
    pub fn byte_count(&self, area: ByteArea) -> Option<usize>
        ensures count { result ≡ option_map (λ (bytes : List ℕ). length bytes) (bytes_of self.now area) }
        ensures few { IfSome result (λ count. count ≤ 8192) }
    {
        let bytes = self.bytes(area)?;
        Some(bytes.len())
    }

    /// Returns the byte of an area at an address. None exactly where there is none, or no such area.
    pub fn get(&self, area: ByteArea, at: usize) -> Option<u8>
        ensures { result ≡ slice_get (area_bytes self.now area) at }
    {
        let bytes = self.bytes(area)?;
        bytes.get(at).copied()
    }

    /// Returns the output image.
    pub fn outputs(&self) -> [u8; 64]
        ensures { result ≡ self.now.outputs }
    {
        self.outputs
    }

    /// Puts an input image in place of the one that it has, and marks its page.
    pub fn set_inputs(&mut self, image: [u8; 64])
        ensures { self.new ≡ with_inputs self.old image }
    {
        self.inputs = image;
        self.marks[0] = true;
    }

    /// Some bytes of an area.
    fn piece(&self, area: ByteArea, at_byte: u16, width: u8) -> Result<&[u8], ImageFault>
        ensures block { (result ≡ Err ImageFault.NoSuchBlock) ↔ IsMissing self.now area }
        ensures address { (result ≡ Err ImageFault.NoSuchAddress) ↔ EndsBefore self.now area (at_byte + width) }
        ensures piece { IfOk result (λ piece. piece.now ≡ slice_range (area_bytes self.now area) at_byte (at_byte + width)) }
        ensures there { OnOk result (at_byte + width ≤ length (area_bytes self.now area)) }
    {
        let Some(bytes) = self.bytes(area) else {
            return Err(ImageFault::NoSuchBlock);
        };
        let from = usize::from(at_byte);
        let end = from + usize::from(width);
        if bytes.len() < end {
            return Err(ImageFault::NoSuchAddress);
        }
        Ok(&bytes[from..end])
    }

    /// Reads a bit, bit 0 the lowest of its byte.
    ///
    /// # Errors
    /// `NoSuchBlock` exactly where the area is a data block that is not there, and else `NoSuchAddress` exactly where
    /// the area ends before the byte does.
    pub fn read_bit(&self, area: ByteArea, at_byte: u16, bit: u8) -> Result<bool, ImageFault>
        requires { bit < 8 }
        ensures block { (result ≡ Err ImageFault.NoSuchBlock) ↔ IsMissing self.now area }
        ensures address { (result ≡ Err ImageFault.NoSuchAddress) ↔ EndsBefore self.now area (at_byte + 1) }
        ensures value { IfOk result (λ value. value ≡ bit_at self.now area at_byte bit) }
    {
        let byte = self.byte(area, at_byte)?;
        Ok((byte >> bit) % 2 == 1)
    }

    /// Reads the value of `width` bytes, the highest first. `width` is 1, 2 or 4.
    ///
    /// # Errors
    /// `NoSuchBlock` exactly where the area is a data block that is not there, and else `NoSuchAddress` exactly where
    /// the area ends before the last of the bytes does.
    pub fn read(&self, area: ByteArea, at_byte: u16, width: u8) -> Result<u32, ImageFault>
        requires { IsWidth width }
        ensures block { (result ≡ Err ImageFault.NoSuchBlock) ↔ IsMissing self.now area }
        ensures address { (result ≡ Err ImageFault.NoSuchAddress) ↔ EndsBefore self.now area (at_byte + width) }
        ensures value { IfOk result (λ value. value ≡ value_at self.now area at_byte width) }
    {
        let piece = self.piece(area, at_byte, width)?;
        Ok(value_in(piece))
    }

    /// Writes a bit, bit 0 the lowest of its byte, and marks the page of the byte. After an error nothing is changed.
    ///
    /// # Errors
    /// `NoSuchBlock` exactly where the area is a data block that is not there, and else `NoSuchAddress` exactly where
    /// the area ends before the byte does.
    pub fn write_bit(
        &mut self,
        area: ByteArea,
        at_byte: u16,
        bit: u8,
        value: bool,
    ) -> Result<(), ImageFault>
        requires { bit < 8 }
        ensures block { (result ≡ Err ImageFault.NoSuchBlock) ↔ IsMissing self.old area }
        ensures address { (result ≡ Err ImageFault.NoSuchAddress) ↔ EndsBefore self.old area (at_byte + 1) }
        ensures refused { OnErr result (self.new ≡ self.old) }
        ensures written { OnOk result (self.new ≡ bit_written area at_byte bit value self.old) }
    {
        let byte = self.byte(area, at_byte)?;
        self.put_byte(area, at_byte, byte_with(byte, bit, value));
        Ok(())
    }

    /// Writes a value into `width` bytes, the highest first, and marks the pages of these bytes. `width` is 1, 2 or 4.
    /// After an error nothing is changed.
    ///
    /// # Errors
    /// `NoSuchBlock` exactly where the area is a data block that is not there, and else `NoSuchAddress` exactly where
    /// the area ends before the last of the bytes does.
    pub fn write(
        &mut self,
        area: ByteArea,
        at_byte: u16,
        width: u8,
        value: u32,
    ) -> Result<(), ImageFault>
        requires width { IsWidth width }
        requires fits { value < 2 ^ (8 * width) }
        ensures block { (result ≡ Err ImageFault.NoSuchBlock) ↔ IsMissing self.old area }
        ensures address { (result ≡ Err ImageFault.NoSuchAddress) ↔ EndsBefore self.old area (at_byte + width) }
        ensures refused { OnErr result (self.new ≡ self.old) }
        ensures written { OnOk result (self.new ≡ value_written area at_byte width value self.old) }
    {
        self.piece(area, at_byte, width)?;
        let (bytes, from) = bytes_of_value(width, value);
        self.put(area, at_byte, &bytes[from..]);
        Ok(())
    }

    /// Of a value of `width` bytes at an address, the highest first, writes those that lie in the output image, 0 to 63, and marks
    /// their page. From 64 on none does, and nothing is changed. `width` is 1, 2 or 4.
    pub fn write_outputs(&mut self, at_byte: u16, width: u8, value: u32)
        requires width { IsWidth width }
        requires fits { value < 2 ^ (8 * width) }
        ensures { self.new ≡ outputs_written at_byte width value self.old }
    {
        if at_byte >= 64 {
            return;
        }
        self.show_sizes();
        let (bytes, from) = bytes_of_value(width, value);
        let piece = front(&bytes[from..], 64 - usize::from(at_byte));
        self.put(ByteArea::Q, at_byte, piece);
    }

    /// Returns whether a page is marked. None is after the last.
    pub fn is_marked(&self, page: u32) -> bool
        ensures { result ≡ is_marked self.now page }
    {
        self.marks.get(page as usize).is_some_and(|mark| *mark)
    }

    /// Takes the mark of a page away. After the last page there is none.
    pub fn clear_mark(&mut self, page: u32)
        ensures { self.new ≡ record self.old { marks = slice_set self.old.marks page false } }
    {
        let page = page as usize;
        if page < self.marks.len() {
            self.marks[page] = false;
        }
    }

    fn byte(&self, area: ByteArea, at_byte: u16) -> Result<u8, ImageFault>
        ensures block { (result ≡ Err ImageFault.NoSuchBlock) ↔ IsMissing self.now area }
        ensures address { (result ≡ Err ImageFault.NoSuchAddress) ↔ EndsBefore self.now area (at_byte + 1) }
        ensures byte { IfOk result (λ byte. byte ≡ slice_index (area_bytes self.now area) at_byte) }
        ensures there { OnOk result (at_byte + 1 ≤ length (area_bytes self.now area)) }
    {
        let piece = self.piece(area, at_byte, 1)?;
        Ok(piece[0])
    }

    /// The page on which an area begins.
    fn first_page(&self, area: ByteArea) -> usize
        ensures { result ≡ first_page self.now area }
    {
        match area {
            ByteArea::I | ByteArea::Q => 0,
            ByteArea::M => 1,
            ByteArea::Db(number) => self.first_pages[usize::from(number)],
        }
    }

    /// The page of a byte of an area.
    #[tactic(auto, using(crate::proofs::Pages::page_is_there))]
    fn page_of(&self, area: ByteArea, at: usize) -> usize
        requires near { at < 2 ^ 32 }
        requires there { at < length (area_bytes self.now area) }
        ensures page { result ≡ page_of self.now area at }
        ensures there { result < length self.now.marks }
    {
        self.show_sizes();
        self.first_page(area) + (begin_of(area) + at) / PAGE_BYTES
    }

    /// Writes a piece over bytes of an area. Their pages are not marked.
    fn put_bytes(&mut self, area: ByteArea, at: usize, piece: &[u8])
        requires some { 0 < length piece.now }
        requires there { at + length piece.now ≤ length (area_bytes self.old area) }
        ensures { self.new ≡ with_bytes self.old area (overwritten (area_bytes self.old area) at piece.now) }
    {
        match area {
            ByteArea::I => put_piece(&mut self.inputs, at, piece),
            ByteArea::Q => put_piece(&mut self.outputs, at, piece),
            ByteArea::M => put_piece(&mut self.bit_memory, at, piece),
            ByteArea::Db(number) => {
                let Some(data) = &mut self.data_blocks[usize::from(number)] else {
                    unreachable!();
                };
                data.put(at, piece);
            }
        }
    }

    /// Writes a byte over one of an area. Its page is not marked.
    #[tactic(auto, using(crate::proofs::Pages::one_byte))]
    fn set_byte(&mut self, area: ByteArea, at: usize, byte: u8)
        requires { at + 1 ≤ length (area_bytes self.old area) }
        ensures { self.new ≡ with_bytes self.old area (overwritten (area_bytes self.old area) at (byte ∷ [])) }
    {
        match area {
            ByteArea::I => self.inputs[at] = byte,
            ByteArea::Q => self.outputs[at] = byte,
            ByteArea::M => self.bit_memory[at] = byte,
            ByteArea::Db(_) => self.put_bytes(area, at, &[byte]),
        }
    }

    /// Writes a byte over one of an area, and marks its page.
    #[tactic(auto, using(crate::proofs::Pages::byte_written))]
    fn put_byte(&mut self, area: ByteArea, at_byte: u16, byte: u8)
        requires { at_byte + 1 ≤ length (area_bytes self.old area) }
        ensures { self.new ≡ written area at_byte (byte ∷ []) self.old }
    {
        let at = usize::from(at_byte);
        let page = self.page_of(area, at);
        self.set_byte(area, at, byte);
        self.marks[page] = true;
    }

    /// Writes a piece over bytes of an area, and marks the pages of the first and of the last of them.
    fn put(&mut self, area: ByteArea, at_byte: u16, piece: &[u8])
        requires some { 0 < length piece.now }
        requires few { length piece.now ≤ 4 }
        requires there { at_byte + length piece.now ≤ length (area_bytes self.old area) }
        ensures { self.new ≡ written area at_byte piece.now self.old }
    {
        let at = usize::from(at_byte);
        let first = self.page_of(area, at);
        let last = self.page_of(area, at + piece.len() - 1);
        self.put_bytes(area, at, piece);
        self.marks[first] = true;
        self.marks[last] = true;
    }
}

/// The first of some bytes, at most so many.
fn front(bytes: &[u8], most: usize) -> &[u8]
    ensures front { result.now ≡ take most bytes.now }
    ensures most { length result.now ≤ most }
    ensures few { length result.now ≤ length bytes.now }
    ensures some { 0 < most → 0 < length bytes.now → 0 < length result.now }
{
    if most < bytes.len() {
        &bytes[..most]
    } else {
        bytes
    }
}

/// The place in its first page at which an area begins.
fn begin_of(area: ByteArea) -> usize
    ensures { result ≡ offset area }
{
    match area {
        ByteArea::Q => 64,
        _ => 0,
    }
}

/// The value of 1, 2 or 4 bytes, the highest first.
fn value_in(piece: &[u8]) -> u32
    requires { IsWidth (length piece.now) }
    ensures { result ≡ value_of piece.now }
{
    let mut bytes = [0; 4];
    bytes[4 - piece.len()..].copy_from_slice(piece);
    u32::from_be_bytes(bytes)
}

/// The bytes of a value, the highest first: those from a place on.
fn bytes_of_value(width: u8, value: u32) -> ([u8; 4], usize)
    requires width { IsWidth width }
    requires fits { value < 2 ^ (8 * width) }
    ensures from { result.1 ≤ 4 }
    ensures bytes { drop result.1 result.0 ≡ bytes_high_first width value }
{
    (value.to_be_bytes(), 4 - usize::from(width))
}

/// The byte with this bit 1 or 0.
fn byte_with(byte: u8, bit: u8, value: bool) -> u8
    requires { bit < 8 }
    ensures { result ≡ with_bit byte bit value }
{
    let only: u8 = 1 << bit;
    if value {
        byte | only
    } else {
        byte & (255 - only)
    }
}
