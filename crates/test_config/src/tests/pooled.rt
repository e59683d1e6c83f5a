//! Rows in pooled form that were written down by hand, and the walk over programs.

ghost use Rattle.std.specs.Prelude.{◌≡◌, ◌+◌, ◌<◌, ◌≤◌, ◌-◌, length, take};
ghost use Rattle.member_group.specs.Charge.{charge_of};
ghost use Rattle.config_image.specs.declared.TheConstants.{ROW_WORDS};
ghost use Rattle.config_image.specs.Image.{programs_begin};
ghost use Rattle.config_image.specs.Pooled.{ArePages, parts};

use super::commands::{Act, RET_ONE, RET_ZERO, Returns, after_each};
use super::images::{IMAGES, ONE_SELECTOR, TWO_GROUPS};
use config_image::{
    PAGE_LIMIT, Programs, ROW_WORDS, WordSink, page_count, row_tells_its_parts, stored_word,
    write_pooled,
};
use member_group::Config;
use std::alloc::Global;
use std::process::Abort;

// The greatest first page of these tests.
const LAST_FIRST: u32 = 1000;

// A page for each part, from this page on.
fn pages_from(rt: &impl Abort, alloc: Global, config: &Config, first: u32) -> Vec<u32>
    requires { first ≤ LAST_FIRST }
    ensures pages { ArePages config.now result.items }
    ensures charge { charge_of config.now ≤ ROW_WORDS }
    ensures room { programs_begin config.now + length (parts config.now) ≤ ROW_WORDS }
{
    row_tells_its_parts();
    if config.charge() > ROW_WORDS as u64 {
        panic!(rt; "the row has room for the configuration");
    }
    let mut pages = Vec::new(alloc);
    for part in 0..page_count(config) {
        pages.push(first + part).expect(rt, "memory");
    }
    pages
}

// A walk lends these programs and no other.
fn lends(config: &Config, programs: &[&[u64]]) -> bool {
    let mut walk = Programs::of(config);
    for program in programs {
        if walk.next() != Some(*program) {
            return false;
        }
    }
    walk.next().is_none()
}

// The row with the pages from 0 on has these words from place `from` on.
fn has_words(rt: &impl Abort, alloc: Global, config: &Config, from: usize, words: &[u64]) -> bool
    requires from { from < ROW_WORDS }
    requires count { length words.now ≤ ROW_WORDS - from }
{
    let pages = pages_from(rt, alloc, config, 0);
    let mut same = true;
    for i in 0..words.len() {
        same = same && words[i] == stored_word(config, pages.as_slice(), from + i);
    }
    same
}

// A configuration, the number of its pages, the words at the beginning of its row, and its programs.
struct Row {
    acts: &'static [Act],
    pages: u32,
    words: &'static [u64; 8],
    programs: &'static [&'static [u64]],
}

fn begins_with(rt: &impl Abort, alloc: Global, config: &Config, words: &[u64; 8]) -> bool {
    has_words(rt, alloc, config, 0, words.as_slice())
}

fn is_row(rt: &impl Abort, alloc: Global, row: &Row) -> bool {
    let config = after_each(rt, alloc, row.acts);
    page_count(&config) == row.pages
        && begins_with(rt, alloc, &config, row.words)
        && lends(&config, row.programs)
}

// The selector before the filters; a member without filter adds nothing.
static ROWS: [Row; 3] = [
    Row {
        acts: &[],
        pages: 0,
        words: &[0x2_0002_0000, 0, 0, 0, 0, 0, 0, 0],
        programs: &[],
    },
    Row {
        acts: ONE_SELECTOR,
        pages: 1,
        words: &[
            0x7_0006_0001,
            1,
            0x0a00_0002_0035,
            6,
            0,
            0x6_0001,
            0x6_0000,
            0,
        ],
        programs: &[&[RET_ZERO]],
    },
    Row {
        acts: TWO_GROUPS,
        pages: 3,
        // As the image, except for the lengths in word 0: of the image, of its part before the programs, and of the page
        // table.
        words: &[
            0x16_0012_0003,
            2,
            0x0a00_0002_0035,
            10,
            0,
            0x12_0001,
            0x0a00_0002_0036,
            10,
        ],
        programs: &[&[RET_ZERO], &[RET_ZERO, RET_ONE], &[RET_ONE]],
    },
];

#[test]
fn pooled_rows_and_their_programs(rt: HostRuntime) {
    for row in &ROWS {
        assert!(rt; is_row(&rt, rt.alloc(), row));
    }
}

// One group, one member, a filter of 4096 instructions.
const LONG_FILTER: &[Act] = &[
    Act::Add(53),
    Act::Join(53, 1),
    Act::Filter(53, 1, Returns(4096, RET_ZERO)),
];

const SECOND_MEMBER: &[Act] = &[
    Act::Add(53),
    Act::Join(53, 1),
    Act::Filter(53, 1, Returns(4096, RET_ZERO)),
    Act::Join(53, 2),
];

// The page table entries of 256 pages from place 10 on, and zeros after them.
fn is_long_row(rt: &impl Abort, alloc: Global, config: &Config) -> bool {
    page_count(config) == 256
        && has_words(rt, alloc, config, 0, &[0x100a_000a_0100])
        && has_words(rt, alloc, config, 10, &[0xa_0000])
        && has_words(rt, alloc, config, 265, &[0xffa_00ff, 0])
}

// With a second member they begin four places later.
fn is_long_row_of_two(rt: &impl Abort, alloc: Global, config: &Config) -> bool {
    page_count(config) == 256
        && has_words(rt, alloc, config, 0, &[0x100e_000e_0100])
        && has_words(rt, alloc, config, 14, &[0xe_0000])
}

#[test]
fn pooled_long_filter(rt: HostRuntime) {
    let alloc = rt.alloc();
    assert!(rt; is_long_row(&rt, alloc, &after_each(&rt, alloc, LONG_FILTER)));
    assert!(rt; is_long_row_of_two(&rt, alloc, &after_each(&rt, alloc, SECOND_MEMBER)));
}

// Room for a row.
#[derive(Drop)]
struct RowSink {
    words: [u64; ROW_WORDS],
    count: usize,
}

impl WordSink for RowSink {
    ghost taken = { λ sink. take sink.count sink.words };

    ghost room = { λ sink. ROW_WORDS - sink.count };

    #[tactic(auto, using(std::proofs::lemmas::List::take_more_set))]
    fn put(&mut self, word: u64) {
        self.words[self.count] = word;
        self.count += 1;
    }
}

// The written row has the words that are read by their places, up to its last zeros.
fn is_written(rt: &impl Abort, alloc: Global, config: &Config, first: u32) -> bool
    requires { first ≤ LAST_FIRST }
{
    let pages = pages_from(rt, alloc, config, first);
    let mut sink = RowSink {
        words: [0; ROW_WORDS],
        count: 0,
    };
    write_pooled(config, pages.as_slice(), &mut sink);
    let mut same = true;
    for (i, word) in sink.words.iter().enumerate() {
        same = same && *word == stored_word(config, pages.as_slice(), i);
    }
    same
}

fn are_written(rt: &impl Abort, alloc: Global, acts: &[Act]) -> bool {
    let config = after_each(rt, alloc, acts);
    is_written(rt, alloc, &config, 0) && is_written(rt, alloc, &config, LAST_FIRST)
}

#[test]
fn rows_are_written(rt: HostRuntime) {
    for (acts, _) in &IMAGES {
        assert!(rt; are_written(&rt, rt.alloc(), acts));
    }
    let config = after_each(&rt, rt.alloc(), SECOND_MEMBER);
    assert!(rt; is_written(&rt, rt.alloc(), &config, 7));
}
