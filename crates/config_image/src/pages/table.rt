//! The two packed words of a row: its header, and its page table entries (docs/SWITCH.md, "The pooled form").

ghost use Rattle.std.specs.Prelude.{◌≡◌, ◌+◌, ◌*◌, ◌<◌, ◌≤◌, ◌^◌};
ghost use Rattle.config_image.specs.PageTable.{entry_word, header_begin, header_count, header_len, header_word, page_of, start_of};
ghost use Rattle.config_image.specs.declared.word.TheConstants.{PLACE_LIMIT};

/// The first word of a row: the image's length from bit 32 on, the start of its programs in bits 16 to 31, and the number of its
/// page table entries in the low 16 bits.
#[derive(Clone, Copy, Debug, PartialEq, Eq)]
pub struct RowHeader(pub u64);

impl RowHeader {
    pub(crate) fn new(len: usize, programs_at: usize, entries: usize) -> RowHeader
        requires len { len ≤ PLACE_LIMIT }
        requires programs { programs_at ≤ PLACE_LIMIT }
        requires entries { entries ≤ PLACE_LIMIT }
        ensures { result.0 ≡ header_word len programs_at entries }
    {
        RowHeader(len as u64 * (1 << 32) + programs_at as u64 * 65536 + entries as u64)
    }

    /// Returns the length of the image.
    #[inline(always)]
    pub fn image_len(self) -> usize
        ensures { result ≡ header_len self.0 }
    {
        (self.0 >> 32) as usize
    }

    /// Returns the place of the page table in the row, which is also the place of the programs in the image.
    #[inline(always)]
    pub fn programs_at(self) -> usize
        ensures { result ≡ header_begin self.0 }
    {
        (self.0 >> 16 & 0xffff) as usize
    }

    /// Returns the number of page table entries.
    #[inline(always)]
    pub fn entries(self) -> usize
        ensures { result ≡ header_count self.0 }
    {
        (self.0 % 65536) as usize
    }
}

/// The page table entry of a part: the part's start in the image, and its page in the low 16 bits.
#[derive(Clone, Copy, Debug, PartialEq, Eq)]
pub struct PageEntry(pub u64);

impl PageEntry {
    /// Makes the entry of a part that starts at a place of the image and is in a page.
    #[inline(always)]
    pub fn new(start: usize, page: u32) -> PageEntry
        requires { entry_word start page < 2 ^ 64 }
        ensures { result.0 ≡ entry_word start page }
    {
        PageEntry(start as u64 * 65536 + u64::from(page))
    }

    /// Returns the place in the image of the part's first word, counted from 0.
    #[inline(always)]
    pub fn start(self) -> usize
        ensures start { result ≡ start_of self.0 }
        ensures range { result < 2 ^ 48 }
    {
        (self.0 >> 16) as usize
    }

    /// Returns the number of the part's page, counted from 0.
    #[inline(always)]
    pub fn page(self) -> usize
        ensures page { result ≡ page_of self.0 }
        ensures range { result < 65536 }
    {
        (self.0 & 0xffff) as usize
    }
}
