//! Rows and pages in the pooled form (docs/SWITCH.md, "The pooled form"), as a world and an operator store them.

use super::history::{begin_of, begin_of_page};
use super::numbered::{applied, program_of, selected};
use super::tables::{on_table, published};
use super::worlds::{answers, makes, world_of};
use ipv4_fields::Endpoint;
use member_group::{Command, Config};
use read_section::{Operator, ROW_WORDS, ROWS, Worker};
use retire::Retire;
use std::alloc::Global;
use std::process::Abort;
use versions::Step::{self, Announce, Fetch, Fill, Peek, Pin, Publish};
use versions::World;

// 10.0.0.2:53
const KEY: Endpoint = Endpoint {
    address: 0x0a00_0002,
    port: 53,
};

// `ret #0`
const RETURN: u64 = 0x0006_0000_0000_0000;

fn returns(rt: &impl Abort, alloc: Global, count: usize, bytes: u32) -> Vec<u64> {
    let word = RETURN.wrapping_add(u64::from(bytes));
    vec![in alloc; word; count].expect(rt, "memory")
}

fn with_group(rt: &impl Abort, alloc: Global) -> Config {
    applied(rt, &Config::new(alloc), Command::AddGroup { key: KEY })
}

// The group without members, whose selector is `ret #0`.
fn with_selector(rt: &impl Abort, alloc: Global) -> Config {
    let words = returns(rt, alloc, 1, 0);
    selected(rt, &with_group(rt, alloc), KEY, words)
}

fn joined(rt: &impl Abort, config: &Config, member: u32) -> Config {
    let join = Command::Join {
        key: KEY,
        member,
        to: KEY,
    };
    applied(rt, config, join)
}

// The group with one member, whose filter has 4096 instructions: each returns this many bytes.
fn with_long_filter(rt: &impl Abort, alloc: Global, bytes: u32) -> Config {
    let program = program_of(rt, returns(rt, alloc, 4096, bytes));
    let set = Command::SetFilter {
        key: KEY,
        member: 0,
        program,
    };
    applied(rt, &joined(rt, &with_group(rt, alloc), 0), set)
}

// The row of the group with a selector, whose program is in page 0; the words after it are 0.
static SELECTOR_ROW: [u64; 8] = [
    0x0007_0006_0001,
    1,
    0x0a00_0002_0035,
    6,
    0,
    0x0006_0001,
    0x0006_0000,
    0,
];

// A word of a row, as an operator returns it.
fn row_word(operator: &Operator, row: usize, place: usize) -> Option<u64> {
    if row < ROWS && place < ROW_WORDS {
        Some(operator.row_word(row, place))
    } else {
        None
    }
}

// The first words of row 0.
fn operator_has(rt: &impl Abort, operator: &Operator, words: &[u64]) {
    for (place, word) in words.iter().enumerate() {
        assert!(rt; row_word(operator, 0, place) == Some(*word));
    }
}

// Words of a world from a place on.
fn world_has(rt: &impl Abort, world: &World, begin: usize, words: &[u64]) {
    for (i, word) in words.iter().enumerate() {
        assert!(rt; world.word(begin.wrapping_add(i)) == Some(*word));
    }
}

fn stores_no_pages(rt: &impl Abort, operator: &mut Operator, _worker: &mut Worker) {
    operator_has(rt, operator, &[0x0002_0002_0000, 0, 0]);
    has_pages_from(rt, operator, 0, 0);
}

#[test]
fn pooled_empty_row(rt: HostRuntime) {
    on_table(&rt, Config::new(rt.alloc()), stores_no_pages);
}

// The row and its page, word by word.
fn world_stores_selector(rt: &impl Abort, world: &World) {
    world_has(rt, world, begin_of(0), &SELECTOR_ROW);
    world_has(rt, world, begin_of_page(0), &[RETURN, 0]);
}

// The same, as an operator returns them.
fn operator_stores_selector(rt: &impl Abort, operator: &mut Operator, _worker: &mut Worker) {
    operator_has(rt, operator, &SELECTOR_ROW);
    has_pages_from(rt, operator, 0, 1);
    assert!(rt; !operator.page_is_free(0) && operator.page_is_free(1));
}

#[test]
fn pooled_selector_row(rt: HostRuntime) {
    world_stores_selector(&rt, &world_of(&rt, with_selector(&rt, rt.alloc())));
    on_table(
        &rt,
        with_selector(&rt, rt.alloc()),
        operator_stores_selector,
    );
}

fn fetch(place: usize) -> Step {
    Fetch { worker: 5, place }
}

// Enters on version 0 and fetches: its program's one word, and no other of the pool.
fn fetches_pool_words(rt: &impl Abort, world: &mut World) {
    let page = begin_of_page(0);
    answers(
        rt,
        world,
        &[
            (Peek { worker: 5 }, Some(0)),
            (Announce { worker: 5 }, Some(1)),
            (fetch(page), None),
            (Pin { worker: 5 }, Some(0)),
            (fetch(page), Some(RETURN)),
            (fetch(page.wrapping_add(1)), None),
            (fetch(page.wrapping_add(15)), None),
            (fetch(begin_of_page(1)), None),
        ],
    );
}

#[test]
fn pool_words_of_the_version_are_fetched(rt: HostRuntime) {
    let mut world = world_of(&rt, with_selector(&rt, rt.alloc()));
    fetches_pool_words(&rt, &mut world);
}

// Fills row 1 as the selector's row, with its program in a page.
fn fills_row(rt: &impl Abort, world: &mut World, page: u64) {
    for (i, word) in SELECTOR_ROW.iter().enumerate() {
        let named = if i == 6 {
            word.wrapping_add(page)
        } else {
            *word
        };
        let place = begin_of(1).wrapping_add(i);
        makes(rt, world, Fill { place, word: named }, named);
    }
}

// A world whose version 0 has the selector, and which is to publish the same configuration again.
fn world_with_the_same(rt: &impl Abort, alloc: Global) -> World {
    let mut world = world_of(rt, with_selector(rt, alloc));
    world
        .propose(with_selector(rt, alloc))
        .expect(rt, "a configuration is proposed");
    world
}

// A row is published if the page that it names has the program, and not before.
fn publishes_with_its_pages(rt: &impl Abort, world: &mut World) {
    fills_row(rt, world, 1);
    let place = begin_of_page(1);
    let other = begin_of_page(0);
    let word = RETURN;
    answers(
        rt,
        world,
        &[
            (Publish { row: 1 }, None),
            (Fill { place, word }, Some(RETURN)),
            (Publish { row: 1 }, Some(17)),
            // The page is not free then, nor is page 0, whose version is not scanned clear.
            (
                Fill {
                    place: other,
                    word: 1,
                },
                None,
            ),
            (Fill { place, word: 1 }, None),
        ],
    );
}

#[test]
fn row_is_published_with_its_pages(rt: HostRuntime) {
    let mut world = world_with_the_same(&rt, rt.alloc());
    publishes_with_its_pages(&rt, &mut world);
}

fn publishes_with_page_zero(rt: &impl Abort, world: &mut World) {
    fills_row(rt, world, 0);
    makes(rt, world, Publish { row: 1 }, 17);
}

// The page of the version before may be named again, without a fill.
#[test]
fn row_is_published_with_a_page_of_the_version_before(rt: HostRuntime) {
    let mut world = world_with_the_same(&rt, rt.alloc());
    publishes_with_page_zero(&rt, &mut world);
}

// The current pages are `count` pages from this one on.
fn has_pages_from(rt: &impl Abort, operator: &Operator, first: u32, count: usize) {
    let pages = operator.current_pages();
    let mut wanted = first;
    for page in pages {
        assert!(rt; *page == wanted);
        wanted = wanted.saturating_add(1);
    }
    assert!(rt; pages.len() == count);
}

// Word 0; the filter's first page table entry, after 6 words of the group and 4 of its member; and its last one.
static LONG_ROW: [(usize, u64); 4] = [
    (0, 0x100a_000a_0100),
    (10, 0x000a_0000),
    (265, 0x0ffa_00ff),
    (266, 0),
];

// Words of a row at places, and the pages of the filter, after which all are free.
fn has_filter(rt: &impl Abort, operator: &Operator, row: usize, words: &[(usize, u64)]) {
    for (place, word) in words {
        assert!(rt; row_word(operator, row, *place) == Some(*word));
    }
    has_pages_from(rt, operator, 0, 256);
    assert!(rt; operator.free_page(0) == Some(256));
}

// The filter's first word, another of its first page, its last word, and the word after it.
static LONG_PAGES: [(usize, usize, u64); 4] = [
    (0, 0, RETURN),
    (0, 15, RETURN),
    (255, 15, RETURN),
    (256, 0, 0),
];

fn world_stores_filter(rt: &impl Abort, world: &World) {
    for (page, k, word) in &LONG_PAGES {
        world_has(rt, world, begin_of_page(*page).wrapping_add(*k), &[*word]);
    }
}

fn operator_stores_filter(rt: &impl Abort, operator: &mut Operator, _worker: &mut Worker) {
    has_filter(rt, operator, 0, &LONG_ROW);
}

#[test]
fn pooled_long_filter(rt: HostRuntime) {
    world_stores_filter(&rt, &world_of(&rt, with_long_filter(&rt, rt.alloc(), 0)));
    on_table(
        &rt,
        with_long_filter(&rt, rt.alloc(), 0),
        operator_stores_filter,
    );
}

// Publishes the group with another filter, as the version of this number.
fn publishes(rt: &impl Abort, operator: &mut Operator, number: u32) {
    let next = with_long_filter(rt, *operator.config().allocator(), number);
    assert!(rt; published(rt, operator, next) == u64::from(number));
}

// The first three versions, and the first page of each.
static FIRST_PAGES: [(u32, u32); 3] = [(1, 256), (2, 512), (3, 768)];

fn takes_the_least_free_pages(rt: &impl Abort, operator: &mut Operator, _worker: &mut Worker) {
    for (number, first) in &FIRST_PAGES {
        publishes(rt, operator, *number);
        has_pages_from(rt, operator, *first, 256);
    }
    let reclaimed = operator.sweep();
    assert!(rt; (reclaimed.first, reclaimed.count) == (0, 3));
    publishes(rt, operator, 4);
    has_pages_from(rt, operator, 0, 256);
    // The least free row, row 0, has the entries of these pages.
    assert!(rt; operator.row_word(0, 265) == 0x0ffa_00ff);
}

// Each publication of another filter takes the least free pages: after those of the versions before, and those again
// when these are free.
#[test]
fn new_pages_are_the_least_free_ones(rt: HostRuntime) {
    on_table(
        &rt,
        with_long_filter(&rt, rt.alloc(), 0),
        takes_the_least_free_pages,
    );
}

// The row after a second member has joined: word 0; the filter's first page table entry, after one member record more; its last one;
// and the next word.
static JOINED_ROW: [(usize, u64); 4] = [
    (0, 0x100e_000e_0100),
    (14, 0x000e_0000),
    (269, 0x0ffe_00ff),
    (270, 0),
];

// A member without a filter joins: the long filter stays in its pages, and no other page is taken.
fn keeps_its_pages(rt: &impl Abort, operator: &mut Operator, _worker: &mut Worker) {
    let next = joined(rt, operator.config(), 1);
    assert!(rt; published(rt, operator, next) == 1);
    has_filter(rt, operator, 1, &JOINED_ROW);
    assert!(rt; operator.zeros_from(1) == 270);
}

#[test]
fn pooled_long_filter_and_join(rt: HostRuntime) {
    on_table(&rt, with_long_filter(&rt, rt.alloc(), 0), keeps_its_pages);
}
