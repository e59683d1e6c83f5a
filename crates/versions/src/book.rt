//! The operator's book of its own steps: the number of the current version, the last version of each row, the last
//! version that named each page, and the versions that scans showed clear.

ghost use Rattle.std.specs.Prelude.{◌≡◌, ◌<◌, ◌≤◌, ◌↔◌, IfOk, IsTrue, List, length, map, slice_get, slice_index, Some, ℕ};
ghost use Rattle.config_image.specs.Image.{Group};
ghost use Rattle.config_image.specs.PageTable.{page_of};
ghost use Rattle.versions.specs.declared.view.OperatorView.{OperatorView};
ghost use Rattle.versions.specs.Book.{IsBook, IsBookAtStart, IsCleared, IsLeast, with_version_in};
ghost use Rattle.versions.specs.Free.{IsFree, IsFreePage, IsFreeRow};
ghost use Rattle.versions.specs.Legal.{MayFill};
ghost use Rattle.versions.specs.Table.{the_shape};
ghost use Rattle.versions.specs.World.{first_pages};

use crate::freedom::{clear_below, least};
use crate::layout::{LAST_NUMBER, PAGES, POOL_BEGIN, ROW_WORDS, ROWS, ROWS_BEGIN, WORKERS};
use crate::page_uses::PageUses;
use config_image::{PAGE_WORDS, PageEntry};
use std::alloc::{AllocError, Allocator, Global};

/// The numbers that decide the current version, free versions, free rows and free pages: one for each row, page and
/// worker. The code that makes the operator's steps counts them here.
#[derive(Drop)]
pub struct Book<A: Allocator = Global> {
    /// The number of the current version.
    pub number: u64,
    /// For each row one more than the number of its last version, 0 if it was never used.
    pub last: [u64; ROWS],
    /// For each page one more than the number of the last version that named it, 0 if none did.
    pub last_use: PageUses<A>,
    /// For each worker: the versions below this number were scanned clear of it since they were replaced.
    pub cleared: [u64; WORKERS],
    /// The least of these: the versions below it are free.
    pub free: u64,
}

impl<A: Allocator> Book<A> {
    /// Returns the book of an operator that made no step: version 0 is in row 0 and names the first `count` pages, and
    /// nothing was scanned.
    pub fn at_start(alloc: A, count: usize) -> Result<Book<A>, AllocError>
        requires { count ≤ PAGES }
        ensures at_start { IfOk result (IsBookAtStart (first_pages count)) }
    {
        let mut last_use = PageUses::none(alloc)?;
        for page in 0..count {
            last_use.name(page, 1);
        }
        let mut last = [0; ROWS];
        last[0] = 1;
        Ok(Book {
            number: 0,
            last,
            last_use,
            cleared: [0; WORKERS],
            free: 0,
        })
    }

    /// Returns the number of free versions: those below the result.
    pub fn free_versions(&self) -> u64
        ensures free_below { (view : OperatorView (List Group)) → IsBook the_shape view self.now → (m : ℕ) → IsFree the_shape m view.log ↔ (m < result) }
    {
        self.free
    }

    /// Tests whether a row is free; false if there is no such row.
    pub fn is_free(&self, row: usize) -> bool
        ensures free_row_exact { (view : OperatorView (List Group)) → IsBook the_shape view self.now → IsTrue result ↔ IsFreeRow the_shape view row }
        ensures a_row { IsTrue result → row < ROWS }
    {
        row < ROWS && self.last[row] <= self.free
    }

    /// Tests whether a page is free; false if there is no such page.
    pub fn page_is_free(&self, page: usize) -> bool
        ensures free_page_exact { (view : OperatorView (List Group)) → IsBook the_shape view self.now → IsTrue result ↔ IsFreePage the_shape view page }
        ensures a_page { IsTrue result → page < PAGES }
    {
        page < PAGES && self.last_use.last_use(page) <= self.free
    }

    /// Tests whether the operator may fill a place of the table: whether it is in a free row or a free page.
    pub fn may_fill(&self, place: usize) -> bool
        ensures may_fill_exact { (view : OperatorView (List Group)) → IsBook the_shape view self.now → IsTrue result ↔ MayFill the_shape view place }
    {
        if place < ROWS_BEGIN {
            return false;
        }
        if place < POOL_BEGIN {
            return self.is_free((place - ROWS_BEGIN) / ROW_WORDS);
        }
        self.page_is_free((place - POOL_BEGIN) / PAGE_WORDS)
    }

    /// Counts a publication from a row with these page table entries (`row_names`).
    pub fn count_version(&mut self, row: usize, names: &[u64])
        requires row { row < ROWS }
        requires pages { (index page : ℕ) → slice_get (map page_of names.now) index ≡ Some page → page < PAGES }
        requires number { self.old.number < LAST_NUMBER }
        ensures counted { self.new ≡ with_version_in row (map page_of names.now) self.old }
    {
        self.number += 1;
        let number = self.number + 1;
        self.last[row] = number;
        for name in names {
            self.last_use.name(PageEntry(*name).page(), number);
        }
    }

    // Returns the least of `cleared`, of which none is below `free`. A scan of all workers begins with the first one,
    // so the last one has the least number until it is scanned, and all are looked at once.
    fn least_from(&self, free: u64) -> u64
        ensures { ((w : ℕ) → w < length self.now.cleared → free ≤ slice_index self.now.cleared w) → IsLeast self.now.cleared result }
    {
        if self.cleared[WORKERS - 1] == free {
            return free;
        }
        least(&self.cleared)
    }

    /// Counts a scan of a worker's read word, which loaded `word`.
    pub fn take_scan(&mut self, worker: usize, word: u64)
        requires worker { worker < WORKERS }
        ensures cleared { length self.old.cleared ≡ WORKERS → IsCleared worker word self.old self.new }
    {
        let below = clear_below(self.number, word);
        let before = self.cleared[worker];
        if below <= before {
            return;
        }
        self.cleared[worker] = below;
        if before == self.free {
            self.free = self.least_from(self.free);
        }
    }
}
