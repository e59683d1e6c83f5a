//! Rows in the pooled form (docs/SWITCH.md, "The pooled form"): the pages that a row names, whether a row and its pages
//! contain a configuration, and which places of the table belong to a version.

ghost use Rattle.std.specs.Prelude.{◌≡◌, ◌+◌, ◌-◌, ◌*◌, ◌/◌, ◌%◌, ◌<◌, ◌≤◌, ◌⊎◌, ◌↔◌, IsTrue, List, MatchOption, Some, length, map, slice_get, slice_index, take, ℕ};
ghost use Rattle.config_image.specs.Image.{Group, image};
ghost use Rattle.config_image.specs.PageTable.{page_of};
ghost use Rattle.config_image.specs.Pooled.{ArePages, pages_of, parts, pooled_row};
ghost use Rattle.versions.specs.Layout.{HoldsForm, IsInRow, IsPartPlace, rows_begin};
ghost use Rattle.versions.specs.Pooled.{HasRoom, names_in, pages_in};
ghost use Rattle.versions.specs.Table.{the_shape};
ghost use Rattle.versions.specs.body.Names.{ArePartNames, IsPartIn, PartsStandIn, begin_in, row_in};

use crate::layout::{PAGES, POOL_BEGIN, ROWS, TABLE_WORDS, is_in_row, page_place, row_begin};
use config_image::{
    PAGE_LIMIT, PAGE_WORDS, PageEntry, ROW_WORDS, RowHeader, image_len, image_word, page_count,
    stored_word,
};
use member_group::Config;
use std::alloc::Allocator;

/// Lends the page table entries among the words of a row, in their order. Each is a `PageEntry`.
///
/// The row's first word decides which words they are, even if the row contains no configuration.
pub fn row_names(row: &[u64]) -> &[u64]
    requires first { 0 < length row.now }
    ensures names { result.now ≡ names_in row.now }
    ensures pages { map page_of result.now ≡ pages_of row.now }
{
    let header = RowHeader(row[0]);
    let from = header.programs_at().min(row.len());
    let to = (from + header.entries()).min(row.len());
    &row[from..to]
}

// The words of a row.
pub(crate) fn row_of(words: &[u64], row: usize) -> &[u64]
    requires table { length words.now ≡ TABLE_WORDS }
    requires row { row < ROWS }
    ensures words { result.now ≡ row_in words.now row }
{
    let begin = row_begin(row);
    &words[begin..begin + ROW_WORDS]
}

// Returns the place in the image at which a part begins, or `end` after the last one.
fn part_begin(names: &[u64], index: usize, end: usize) -> usize
    ensures { result ≡ begin_in names.now end index }
{
    match names.get(index) {
        Some(name) => PageEntry(*name).start(),
        None => end,
    }
}

// Returns the number of words of a part; `end` is the end of the last one.
fn part_len(names: &[u64], index: usize, end: usize) -> usize
    requires { index < length names.now }
    ensures { result ≡ begin_in names.now end (index + 1) - begin_in names.now end index }
{
    part_begin(names, index + 1, end).saturating_sub(part_begin(names, index, end))
}

// Tests whether word `k` of a page is a word of one of the parts.
fn is_part_word(names: &[u64], end: usize, page: usize, k: usize) -> bool
    requires names { length names.now ≤ ROW_WORDS }
    ensures { IsTrue result ↔ IsPartIn names.now end page k }
{
    for index in 0..names.len() {
        if PageEntry(names[index]).page() == page && k < part_len(names, index, end) {
            return true;
        }
    }
    false
}

// Tests whether a place of the table is a word of the version that is in a row and the pages that it names.
pub(crate) fn is_version_word(words: &[u64], row: usize, place: usize) -> bool
    requires table { length words.now ≡ TABLE_WORDS }
    requires row { row < ROWS }
    ensures word { (config : List Group) (pages : List ℕ) → HoldsForm the_shape (rows_begin the_shape) words.now row config pages → HasRoom config
        → IsTrue result ↔ (IsInRow the_shape row place ⊎ IsPartPlace the_shape config pages place) }
{
    if place < POOL_BEGIN {
        return is_in_row(row, place);
    }
    let row_words = row_of(words, row);
    let end = RowHeader(row_words[0]).image_len();
    let at = place - POOL_BEGIN;
    is_part_word(row_names(row_words), end, at / PAGE_WORDS, at % PAGE_WORDS)
}

// Returns the pages of the page table entries, if each of them is a page of the pool.
fn pages_of_names(names: &[u64]) -> Option<[u32; PAGE_LIMIT]>
    requires { length names.now ≤ PAGE_LIMIT }
    ensures { MatchOption result ((index : ℕ) × (page : ℕ) × (slice_get (map page_of names.now) index ≡ Some page) × (PAGES ≤ page))
        (λ pages. (take (length names.now) pages ≡ map page_of names.now) × ((index page : ℕ) → slice_get (map page_of names.now) index ≡ Some page → page < PAGES)) }
{
    let mut pages = [0; PAGE_LIMIT];
    for index in 0..names.len() {
        let page = PageEntry(names[index]).page();
        if page >= PAGES {
            return None;
        }
        pages[index] = page as u32;
    }
    Some(pages)
}

// Tests a row's words against those of a configuration whose parts are in these pages.
fn row_stands<A: Allocator>(row_words: &[u64], config: &Config<A>, pages: &[u32]) -> bool
    requires row { length row_words.now ≡ ROW_WORDS }
    requires pages { ArePages config.now pages.now }
    ensures { IsTrue result ↔ ((i : ℕ) → i < ROW_WORDS → slice_index row_words.now i ≡ slice_index (pooled_row config.now pages.now) i) }
{
    for i in 0..ROW_WORDS {
        if row_words[i] != stored_word(config, pages, i) {
            return false;
        }
    }
    true
}

// Tests the words of a page from its first one on against those of the image from the place `begin` on, up to `end`.
fn part_stands<A: Allocator>(
    words: &[u64],
    page: usize,
    config: &Config<A>,
    begin: usize,
    end: usize,
) -> bool
    requires table { length words.now ≡ TABLE_WORDS }
    requires page { page < PAGES }
    requires part { end ≤ begin + PAGE_WORDS }
    requires inside { end ≤ length (image config.now) }
    ensures { IsTrue result ↔ ((i : ℕ) → begin ≤ i → i < end → slice_index words.now (POOL_BEGIN + page * PAGE_WORDS + (i - begin)) ≡ slice_index (image config.now) i) }
{
    for i in begin..end {
        if words[page_place(page, i - begin)] != image_word(config, i) {
            return false;
        }
    }
    true
}

// Tests the words of all parts, each in the page of its entry.
fn parts_stand<A: Allocator>(words: &[u64], config: &Config<A>, names: &[u64]) -> bool
    requires table { length words.now ≡ TABLE_WORDS }
    requires names { ArePartNames config.now names.now }
    requires pages { (index page : ℕ) → slice_get (map page_of names.now) index ≡ Some page → page < PAGES }
    ensures { IsTrue result ↔ PartsStandIn words.now config.now (map page_of names.now) }
{
    let len = image_len(config);
    for index in 0..names.len() {
        let page = PageEntry(names[index]).page();
        let begin = part_begin(names, index, len);
        let end = part_begin(names, index + 1, len);
        if !part_stands(words, page, config, begin, end) {
            return false;
        }
    }
    true
}

// Tests whether a row and the pages that it names contain a configuration: one pass over the row's words, and one over
// the parts'.
pub(crate) fn holds_form<A: Allocator>(words: &[u64], row: usize, config: &Config<A>) -> bool
    requires table { length words.now ≡ TABLE_WORDS }
    requires row { row < ROWS }
    requires room { HasRoom config.now }
    ensures holds { IsTrue result ↔ HoldsForm the_shape (rows_begin the_shape) words.now row config.now (pages_in words.now row) }
{
    let row_words = row_of(words, row);
    let names = row_names(row_words);
    if names.len() != page_count(config) as usize {
        return false;
    }
    let Some(pages) = pages_of_names(names) else {
        return false;
    };
    row_stands(row_words, config, &pages[..names.len()]) && parts_stand(words, config, names)
}
