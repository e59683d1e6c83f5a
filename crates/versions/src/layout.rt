//! The words of the table (docs/TABLE.md, "The words"): where each is, who stores it and who loads it.
//!
//! | Place | Word | Stored by | Loaded by |
//! |---|---|---|---|
//! | 0 | `current`: `current_word` of the version that is current | the operator | every worker |
//! | `read_word_place(w)` | the read word of worker w | worker w | the operator |
//! | `row_place(r, i)` | word i of row r; word 0 is its header | the operator | workers that hold a version in row r |
//! | `page_place(q, k)` | word k of page q of the pool | the operator | workers that hold a version that names page q |

ghost use Rattle.std.specs.Prelude.{◌≡◌, ◌+◌, ◌*◌, ◌/◌, ◌%◌, ◌<◌, ◌≤◌, IsTrue, slice_index, ◌↔◌};
ghost use Rattle.config_image.specs.Image.{row};
ghost use Rattle.versions.specs.Layout.{IsInRow};
ghost use Rattle.versions.specs.Table.{the_shape};

pub use config_image::ROW_WORDS;
use config_image::{PAGE_WORDS, image_len, image_word};
use member_group::Config;
use std::alloc::Allocator;

/// The number of workers: words 1 to 64 are their read words.
pub const WORKERS: usize = 64;

/// The number of rows: row r begins at word 65 + 8192 * r.
pub const ROWS: usize = 16;

/// The number of pages: page q begins at word 131,137 + 16 * q. If a row is free, the versions of the other rows and
/// one version more never name all of them (`read_section::Operator::free_page`).
pub const PAGES: usize = ROWS * 2048;

/// The greatest charge of a configuration, so that its image fits a row.
pub const CHARGE_LIMIT: u64 = 8192;

/// The number of the last version that may be published.
pub const LAST_NUMBER: u64 = 1 << 48;

/// The place of the first row: after `current` and the read words.
pub const ROWS_BEGIN: usize = 1 + WORKERS;

/// The place of the pool of pages: after the rows.
pub const POOL_BEGIN: usize = ROWS_BEGIN + ROWS * ROW_WORDS;

/// The number of words of the whole table.
pub const TABLE_WORDS: usize = POOL_BEGIN + PAGES * PAGE_WORDS;

/// Law: the limits, as numbers. It runs nothing.
pub fn limits_as_numbers()
    ensures workers { WORKERS ≡ 64 }
    ensures rows { ROWS ≡ 16 }
    ensures charge { CHARGE_LIMIT ≡ 8192 }
    ensures last_number { LAST_NUMBER ≡ 281474976710656 }
    ensures pages { PAGES ≡ 32768 }
    ensures pool_begin { POOL_BEGIN ≡ 131137 }
    ensures table_words { TABLE_WORDS ≡ 655425 }
{}

/// Returns the place of a worker's read word.
#[inline(always)]
pub fn read_word_place(worker: usize) -> usize
    requires { worker < WORKERS }
    ensures { result ≡ 1 + worker }
{
    1 + worker
}

/// Returns the place of the first word of a row: its header.
#[inline(always)]
pub fn row_begin(row: usize) -> usize
    requires { row < ROWS }
    ensures { result ≡ ROWS_BEGIN + row * ROW_WORDS }
{
    ROWS_BEGIN + row * ROW_WORDS
}

/// Returns the place of word `i` of a row, counted from 0.
#[inline(always)]
pub fn row_place(row: usize, i: usize) -> usize
    requires row { row < ROWS }
    requires small { i < TABLE_WORDS }
    ensures { result ≡ ROWS_BEGIN + row * ROW_WORDS + i }
{
    row_begin(row) + i
}

/// Returns the place of word `k` of a page, counted from 0.
#[inline(always)]
pub fn page_place(page: usize, k: usize) -> usize
    requires page { page < 65536 }
    requires small { k < TABLE_WORDS }
    ensures { result ≡ POOL_BEGIN + page * PAGE_WORDS + k }
{
    POOL_BEGIN + page * PAGE_WORDS + k
}

/// Returns the word of `current` while this version is current and in this row.
#[inline(always)]
pub fn current_word(number: u64, row: usize) -> u64
    requires number { number ≤ LAST_NUMBER }
    requires row { row < ROWS }
    ensures { result ≡ number * ROWS + row }
{
    number * ROWS as u64 + row as u64
}

/// Returns the number of the version in a word of `current`.
#[inline(always)]
pub fn current_version(word: u64) -> u64
    ensures { result ≡ word / ROWS }
{
    word / ROWS as u64
}

/// Returns the row of the version in a word of `current`.
#[inline(always)]
pub fn current_row(word: u64) -> usize
    ensures row { result ≡ word % ROWS }
    ensures a_row { result < ROWS }
{
    (word % ROWS as u64) as usize
}

pub(crate) fn is_in_row(row: usize, place: usize) -> bool
    ensures { IsTrue result ↔ IsInRow the_shape row place }
{
    place >= ROWS_BEGIN && (place - ROWS_BEGIN) / ROW_WORDS == row
}

/// Returns word `i` of the row that a section shows, counted from 0: a word of the configuration's image, or 0 after
/// its end.
pub fn row_word<A: Allocator>(config: &Config<A>, i: usize) -> u64
    requires { i < ROW_WORDS }
    ensures { result ≡ slice_index (row config.now) i }
{
    if i < image_len(config) {
        image_word(config, i)
    } else {
        0
    }
}
