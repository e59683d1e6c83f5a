//! The search for the part that contains a place of an image, among the page table entries of a row.
//!
//! A part is 1 to 16 words of an image, in a page of the pool. A row has the entries one after the other, their starts rising, and is
//! read one entry at a time. So a `Search` is asked which entry to read next, and the caller reads it and passes it on. Among 2047
//! entries it asks for at most eleven.

ghost use Rattle.std.specs.Prelude.{◌≡◌, ◌≢◌, ◌<◌, ◌≤◌, ◌^◌, ◌↔◌, IfSome, IsSome, List, Some, length, slice_get, ℕ};
ghost use Rattle.config_image.specs.declared.TheConstants.{PAGE_LIMIT, READ_LIMIT};

use crate::pages::PageEntry;

/// A part that was found.
#[derive(Clone, Copy, Debug, PartialEq, Eq)]
pub struct FoundPart {
    /// The index of its page table entry, counted from 0.
    pub index: usize,
    /// Its entry.
    pub entry: PageEntry,
    /// The next entry; after the last one, an entry of page 0 that starts where the parts end.
    pub next: PageEntry,
}

/// A binary search for the last entry that starts at a place or before it.
///
/// `ask` returns the index of the entry to read next, `tell` takes that entry, and so on until `ask` returns `None`; then `found` has
/// the part. No entry is asked for twice.
/// The reason: docs/INTERNALS.md, "Names of pages".
#[derive(Clone, Copy, Debug, PartialEq, Eq)]
pub struct Search {
    // The greatest number that is an entry of a part that starts at the place.
    greatest: u64,
    // The entries before this index start at the place or before it.
    low: usize,
    // The entries from this index on start after the place.
    high: usize,
    // The entry before `low`, if there is one.
    entry: u64,
    // The entry at `high`; after the last one, an entry of page 0 that starts at the end.
    next: u64,
    ghost ordered: { low ≤ high },
    ghost within_limit: { high ≤ PAGE_LIMIT },
}

impl Search {
    ghost use Rattle.config_image.specs.Search.{HoldsPlace, IsOpen, IsSearchOf, IsWithin, asked, reads_left, unread};

    /// Begins a search among `count` entries, of parts that end before `end`, for the part that contains a place.
    ///
    /// `end` and `place` count the image's words from 0.
    pub fn new(count: usize, end: usize, place: usize) -> Search
        requires before_end { place < end }
        requires end_fits { end < 2 ^ 48 }
        requires entries_fit { count ≤ PAGE_LIMIT }
        ensures begun { (entries : List ℕ) → length entries ≡ count → IsWithin entries end place → IsSearchOf entries end place result }
        ensures all_open { (index : ℕ) → IsOpen result index ↔ (index < count) }

        // As many binary digits as the number of entries has.
        ensures few_reads { (n : ℕ) → count < 2 ^ n → reads_left result ≤ n }
        ensures at_most { reads_left result ≤ READ_LIMIT }
    {
        Search {
            greatest: PageEntry::new(place, 0xffff).0,
            low: 0,
            high: count,
            entry: 0,
            next: PageEntry::new(end, 0).0,
        }
    }

    /// Returns the index of the entry to read next, or `None` if the part is found.
    pub fn ask(&self) -> Option<usize>
        ensures asks_exactly { IsSome result ↔ (0 < unread self.now) }
        ensures asked { IfSome result (λ index. index ≡ asked self.now) }
        ensures among { (entries : List ℕ) (end place : ℕ) → IsSearchOf entries end place self.now → IfSome result (λ index. index < length entries) }
        ensures not_yet_read { IfSome result (λ index. IsOpen self.now index) }
    {
        if self.low < self.high {
            Some(self.middle())
        } else {
            None
        }
    }

    /// Takes the entry at the index that `ask` returned.
    pub fn tell(&mut self, entry: u64)
        requires { 0 < unread self.old }
        ensures told { (entries : List ℕ) (end place : ℕ) → IsSearchOf entries end place self.old → slice_get entries (asked self.old) ≡ Some entry → IsSearchOf entries end place self.new }
        ensures never_again { (index : ℕ) → IsOpen self.new index → IsOpen self.old index × (index ≢ asked self.old) }
        ensures fewer { reads_left self.new < reads_left self.old }
    {
        let middle = self.middle();
        if entry <= self.greatest {
            self.low = middle + 1;
            self.entry = entry;
        } else {
            self.high = middle;
            self.next = entry;
        }
    }

    /// Returns the part that contains the place, if the starts of the entries rise.
    pub fn found(&self) -> FoundPart
        requires finished { unread self.now ≡ 0 }
        requires begun { (entries : List ℕ) × (end : ℕ) × (place : ℕ) × IsSearchOf entries end place self.now }
        ensures found { (entries : List ℕ) (end place : ℕ) → IsSearchOf entries end place self.now → HoldsPlace entries end place result }
    {
        FoundPart {
            index: self.low - 1,
            entry: PageEntry(self.entry),
            next: PageEntry(self.next),
        }
    }

    fn middle(&self) -> usize
        ensures { result ≡ asked self.now }
    {
        self.low + (self.high - self.low) / 2
    }
}
