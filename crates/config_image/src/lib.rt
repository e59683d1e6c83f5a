//! The image of a configuration: the words that the table stores for it, and the lookups in these words (docs/SWITCH.md, "Image").
//! No call takes memory but `ExtentCache::new`.
#![tactic(auto)]

ghost use Rattle.std.specs.Prelude.{◌≡◌};
ghost use Rattle.config_image.specs.Image.{NoImageBeginsAnother};
ghost use Rattle.config_image.specs.Lookup.{RowHoldsImage};
ghost use Rattle.config_image.specs.Cache.{SlotsApart};
ghost use Rattle.config_image.specs.Pooled.{EachImageHasItsParts, EachProgramIsCut, PooledFormTellsRow, RowTellsItsParts, RowTellsItsPartsWithRoom};
ghost use Rattle.config_image.specs.Search.{OnePartHolds};

use member_group::HEAD_WORDS;

mod lookup;
mod pages;
mod pooled;
mod size;
mod walk;
mod word;
mod writing;

pub use lookup::{
    FoundGroup, MemberEntry, ProgramPlace, filter_of, find_group, member_at, member_with_filter,
    selector_of,
};
pub use pages::{
    Extent, ExtentCache, FoundPart, PageEntry, RowHeader, Search, page_count, pages_for,
};
pub use pooled::{stored_word, write_pooled};
pub use size::image_len;
pub use walk::Programs;
pub use word::image_word;
pub use writing::WordSink;

/// The number of words of a row of the table.
pub const ROW_WORDS: usize = 8192;

/// The number of words of a page of the pool.
pub const PAGE_WORDS: usize = 16;

/// The greatest number of pages that a version names: a page costs at least four words of the charge.
pub const PAGE_LIMIT: usize = (ROW_WORDS - HEAD_WORDS) / 4;

/// The greatest number of page table entries that a search asks for.
pub const READ_LIMIT: usize = 11;

/// Law: the limits, as numbers. It runs nothing.
pub fn limits_as_numbers()
    ensures row { ROW_WORDS ≡ 8192 }
    ensures page { PAGE_WORDS ≡ 16 }
    ensures pages { PAGE_LIMIT ≡ 2047 }
    ensures reads { READ_LIMIT ≡ 11 }
{}

/// Law: no image begins another, as lists of words. It runs nothing.
#[tactic(auto, using(crate::proofs::ImageLemmas::image_begins_none))]
pub fn no_image_begins_another()
    ensures { NoImageBeginsAnother }
{}

/// Law: the row of a configuration that is charged for at most `ROW_WORDS` words is its image and then zeros. It runs nothing.
#[tactic(auto, using(crate::proofs::RowLemmas::row_holds))]
pub fn row_holds_image()
    ensures { RowHoldsImage }
{}

/// Law: how programs are cut into parts, and which places the parts have in the image of each configuration. It runs nothing.
pub fn parts_stand()
    ensures cut { EachProgramIsCut }
    ensures in_image { EachImageHasItsParts }
{}

/// Law: what a row in the pooled form says of the configuration's programs and of the pages of their parts, if a row has room for
/// the image. A row has room if the configuration is charged for at most `ROW_WORDS` words. The law runs nothing.
pub fn row_tells_its_parts()
    ensures room { RowTellsItsPartsWithRoom }
    ensures charged { RowTellsItsParts }
{}

/// Law: a row in the pooled form and the pages that have its parts determine, word by word, the row that has the image. It runs
/// nothing.
pub fn pooled_form_tells_row()
    ensures { PooledFormTellsRow }
{}

/// Law: if the starts rise, at most one part contains a place. It runs nothing.
pub fn one_part_holds()
    ensures { OnePartHolds }
{}

/// Law: places that are less than 1023 apart have different slots. It runs nothing.
pub fn slots_apart()
    ensures { SlotsApart }
{}
