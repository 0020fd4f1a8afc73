//! The pool, the pages that are taken from it, and what they contain.
ghost use Rattle.std.specs.Prelude.{◌≡◌, ℕ, ◌+◌, ◌≤◌, true, false, [], length, ◌↔◌, IsNone, IfNone, IfSome, OnSome, IfOk, Some, None};
ghost use Rattle.page_pool.specs.Region.{Region, contents_of, bytes_of, is_dirty, zeros, overwritten, free_count, Holds, ChangesOnly};

use slab::Slab;
use std::alloc::{AllocError, Global};
use std::marker::Model;

/// The number of bytes of a page.
pub const PAGE_BYTES: usize = 256;

/// What a held page has: its bytes, and a mark that a write sets.
#[derive(Clone, Copy, Debug)]
pub struct Contents {
    pub bytes: [u8; PAGE_BYTES],
    pub dirty: bool,
}

/// A page of a pool, which belongs to its one owner. It has no copy: `Pool::take` alone makes a page, and
/// `Pool::give` takes it from its owner. A page that is dropped stays taken.
#[derive(Debug, Drop)]
pub struct Page {
    number: usize,
}

impl Model for Page {
    ghost Value = { ℕ };

    ghost view = { λ p. p.number };
}

/// A region of pages, which is taken once. `new` alone takes memory, and each other call takes a time that does
/// not depend on the number of pages.
#[derive(Drop)]
pub struct Pool {
    held: Slab<Contents>,
    size: u32,
}

impl Model for Pool {
    ghost use Rattle.std.specs.Prelude.{◌≤◌, ◌<◌, ◌^◌};
    ghost use Rattle.slab.specs.Slab.{slab_len};
    ghost use Rattle.page_pool.specs.Region.{Region};

    ghost Value = { Region };

    ghost view = { λ p. record { held = p.held.slots; size = p.size } };

    ghost invariant = { λ p. (slab_len p.held ≤ p.size) × (p.size ≤ p.held.capacity) × (p.size < 2 ^ 32) };
}

impl Pool {
    /// Takes a region of `pages` pages, all of them free.
    pub fn new(alloc: Global, pages: u32) -> Result<Pool, AllocError>
        ensures { IfOk result (λ pool. pool ≡ record { held = []; size = pages }) }
    {
        Ok(Pool {
            held: Slab::with_capacity(alloc, pages as usize)?,
            size: pages,
        })
    }

    /// Takes a free page: its bytes are 0 and its mark is not set. None exactly where no page is free.
    pub fn take(&mut self) -> Option<Page>
        ensures none { IsNone result ↔ (free_count self.old ≡ 0) }
        ensures kept { IfNone result (self.new ≡ self.old) }

        // Nobody held the page that is taken.
        ensures was_free { IfSome result (λ page. contents_of self.old page ≡ None) }
        ensures taken { IfSome result (λ page. ChangesOnly self.old self.new page (Some zeros)) }
        ensures free { OnSome result (free_count self.new + 1 ≡ free_count self.old) }
    {
        if self.held.len() == self.size as usize {
            return None;
        }
        let number = self.held.insert_reserved(Contents {
            bytes: [0; PAGE_BYTES],
            dirty: false,
        });
        Some(Page { number })
    }

    /// Gives a page back: it is free again.
    pub fn give(&mut self, page: Page)
        requires { Holds self.old page }
        ensures given { ChangesOnly self.old self.new page None }
        ensures free { free_count self.new ≡ free_count self.old + 1 }
    {
        self.held.remove(page.number);
    }

    /// The bytes of a page.
    pub fn read(&self, page: &Page) -> &[u8; 256]
        requires { Holds self.now page.now }
        ensures { result.now ≡ bytes_of self.now page.now }
    {
        &self.held[page.number].bytes
    }

    /// Writes `bytes` into a page from byte `at_byte` on, and sets its mark, also where no byte changes.
    pub fn write(&mut self, page: &Page, at_byte: u8, bytes: &[u8])
        requires holds { Holds self.old page.now }
        requires fits { at_byte + length bytes.now ≤ 256 }
        ensures written { let after = overwritten (bytes_of self.old page.now) at_byte bytes.now in ChangesOnly self.old self.new page.now (Some (record { bytes = after; dirty = true })) }
        ensures free { free_count self.new ≡ free_count self.old }
    {
        let contents = &mut self.held[page.number];
        let from = usize::from(at_byte);
        contents.bytes[from..from + bytes.len()].copy_from_slice(bytes);
        contents.dirty = true;
    }

    /// Whether the mark of a page is set: it was written since it was taken, or since its mark was last cleared.
    pub fn dirty(&self, page: &Page) -> bool
        requires { Holds self.now page.now }
        ensures { result ≡ is_dirty self.now page.now }
    {
        self.held[page.number].dirty
    }

    /// Clears the mark of a page.
    pub fn clear_dirty(&mut self, page: &Page)
        requires { Holds self.old page.now }
        ensures cleared { ChangesOnly self.old self.new page.now (Some (record { bytes = bytes_of self.old page.now; dirty = false })) }
        ensures free { free_count self.new ≡ free_count self.old }
    {
        self.held[page.number].dirty = false;
    }

    /// The number of free pages.
    pub fn free(&self) -> u32
        ensures { result ≡ free_count self.now }
    {
        self.size - self.held.len() as u32
    }
}
