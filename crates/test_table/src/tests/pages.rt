//! Pages of the pool, and words of rows, as an operator returns and fills them.

use super::numbered::config_of;
use super::sections::reads;
use super::tables::on_table;
use read_section::{Operator, PAGE_WORDS, PAGES, ROW_WORDS, Worker};
use std::process::Abort;

// Fills a place of a page; returns whether the page was free, and so may be filled.
fn page_filled(operator: &mut Operator, page: usize, place: usize) -> bool {
    if !operator.page_is_free(page) || place >= PAGE_WORDS {
        return false;
    }
    operator.fill_page(page, place, 7);
    true
}

// A page, and the least free page from there on.
static FREE_FROM: [(usize, Option<usize>); 6] = [
    (0, Some(0)),
    (1, Some(1)),
    (2046, Some(2046)),
    (32_767, Some(32_767)),
    (32_768, None),
    (usize::MAX, None),
];

fn each_is_free(rt: &impl Abort, operator: &mut Operator, _worker: &mut Worker) {
    for (from, least) in &FREE_FROM {
        assert!(rt; operator.free_page(*from) == *least);
        let is_page = *from < PAGES;
        let filled = (
            page_filled(operator, *from, 0),
            page_filled(operator, *from, 15),
        );
        assert!(rt; filled == (is_page, is_page));
    }
}

#[test]
fn each_page_is_free_at_first(rt: HostRuntime) {
    on_table(&rt, config_of(&rt, rt.alloc(), 0), each_is_free);
}

// Fills a place of a row; returns whether the row was free, and so may be filled.
fn row_filled(operator: &mut Operator, row: usize, place: usize, word: u64) -> bool {
    if !operator.is_free(row) || place >= ROW_WORDS {
        return false;
    }
    operator.fill(row, place, word);
    true
}

// Fills of row 1 and of the current row: a place, the word, whether it may be, and the row's word there afterwards.
const FILLS: [(usize, usize, u64, bool, u64); 6] = [
    (1, 0, 5, true, 5),
    (1, 1, 6, true, 6),
    (1, 0, 7, true, 7),
    (1, 8191, 8, true, 8),
    (1, 2, 0, true, 0),
    (0, 8191, 9, false, 0),
];

fn fills_are_told(rt: &impl Abort, operator: &mut Operator, worker: &mut Worker) {
    // The image's length, the place at which programs would begin, and no part.
    assert!(rt; operator.row_word(0, 0) == 0x0006_0006_0000 && operator.row_word(15, 0) == 0);
    for (row, place, word, may, after) in &FILLS {
        assert!(rt; row_filled(operator, *row, *place, *word) == *may);
        assert!(rt; operator.row_word(*row, *place) == *after);
    }
    // The current version is as it was.
    reads(rt, worker, 0);
}

#[test]
fn words_of_rows_are_told(rt: HostRuntime) {
    on_table(&rt, config_of(&rt, rt.alloc(), 0), fills_are_told);
}
