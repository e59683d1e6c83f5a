//! Extents: the number of words of a program that are ready at once, if its pages follow each other and if they do not.

ghost use Rattle.std.specs.Prelude.{◌≡◌};

use super::numbered::{applied, key_of, selected};
use super::tables::{has_pages, on_table, published};
use bpf_insn::{ReadyWords, Words};
use member_group::{Command, Config};
use read_section::{Operator, Worker};
use retire::Retire;
use std::alloc::Global;
use std::process::Abort;

// `ret #0`
const RETURN: u64 = 0x0006_0000_0000_0000;

// Gives a group a selector of `count` instructions: `ld #1`, `ld #2` and so on, and then `ret #0`.
fn selecting(rt: &impl Abort, config: &Config, group: u32, count: usize) -> Config {
    let mut words = Vec::new(*config.allocator());
    for k in 1..count {
        words.push(k as u64).expect(rt, "memory");
    }
    words.push(RETURN).expect(rt, "memory");
    selected(rt, config, key_of(group), words)
}

// Groups 1, 2 and 3, with selectors of these numbers of instructions.
fn three_groups(rt: &impl Abort, alloc: Global, counts: [usize; 3]) -> Config {
    let [first, second, third] = counts;
    let mut config = Config::new(alloc);
    for (group, count) in [(1u32, first), (2, second), (3, third)] {
        let key = key_of(group);
        config = applied(rt, &config, Command::AddGroup { key });
        config = selecting(rt, &config, group, count);
    }
    config
}

// The word of a program of loads at a place of the image, if the program has all places from the first to the last of
// these.
fn load_at(first: usize, last: usize, place: usize) -> u64 {
    if place == last {
        RETURN
    } else {
        place.wrapping_sub(first).wrapping_add(1) as u64
    }
}

// Makes word i of a program of loads ready, and counts the words that are ready from it on. 0 is for a word that is
// another one.
fn ready_count<W: Words>(words: &mut W, first: usize, last: usize, i: usize) -> usize
    ensures words_kept { W.words words.new ≡ W.words words.old }
{
    let count = words.count();
    if count <= i {
        return 0;
    }
    let Some(ReadyWords { shift, limit }) = words.make_ready(i) else {
        return 0;
    };
    let mut ready = 0usize;
    for place in i..count {
        if words.is_ready(place + shift, limit) {
            if words.ready_word(place + shift, shift) != load_at(first, last, place) {
                return 0;
            }
            ready = ready.saturating_add(1);
        }
    }
    ready
}

// Word `place` is that of a program of loads.
fn has_load<W: Words>(rt: &impl Abort, words: &mut W, first: usize, last: usize, place: usize) {
    assert!(rt; place < words.count() && words.word(place) == load_at(first, last, place));
}

// A program of loads begins at a place, and its extents have these lengths.
fn extents_are<W: Words>(rt: &impl Abort, words: &mut W, first: usize, lengths: &[usize]) {
    let mut end = first;
    for length in lengths {
        end = end.wrapping_add(*length);
    }
    let last = end.wrapping_sub(1);
    let mut at = first;
    for length in lengths {
        assert!(rt; ready_count(words, first, last, at) == *length);
        at = at.wrapping_add(*length);
    }
    for place in first..end {
        has_load(rt, words, first, last, place);
    }
}

// The same twice, each time in a section of its own, whether the words are searched for or cached.
fn reads_extents(rt: &impl Abort, worker: &mut Worker, first: usize, lengths: &[usize]) {
    for _ in 0..2 {
        let mut section = worker.enter();
        extents_are(rt, &mut section, first, lengths);
        section.leave();
    }
}

// The programs begin after 2 words and 4 for each group.
const FIRST: usize = 14;

fn are_one_extent(rt: &impl Abort, operator: &mut Operator, worker: &mut Worker) {
    has_pages(rt, operator, &[0, 1, 2, 3, 4, 5, 6, 7, 8]);
    reads_extents(rt, worker, FIRST, &[1]);
    reads_extents(rt, worker, FIRST + 1, &[100]);
    reads_extents(rt, worker, FIRST + 101, &[1]);
}

// Seven pages, one after the other: the extent ends with the program, though the next program's page follows.
#[test]
fn program_in_pages_one_behind_the_other(rt: HostRuntime) {
    let config = three_groups(&rt, rt.alloc(), [1, 100, 1]);
    on_table(&rt, config, are_one_extent);
}

// Publishes another selector of group 2, of `count` instructions.
fn selects(rt: &impl Abort, operator: &mut Operator, count: usize) {
    let next = selecting(rt, operator.config(), 2, count);
    published(rt, operator, next);
}

// Page 1 is free, and pages 2 and 3 are not: the program's second part is in page 4.
fn are_two_extents(rt: &impl Abort, operator: &mut Operator, worker: &mut Worker) {
    selects(rt, operator, 2);
    has_pages(rt, operator, &[0, 3, 2]);
    assert!(rt; operator.sweep().count == 1);
    selects(rt, operator, 100);
    has_pages(rt, operator, &[0, 1, 4, 5, 6, 7, 8, 9, 2]);
    reads_extents(rt, worker, FIRST, &[1]);
    reads_extents(rt, worker, FIRST + 1, &[16, 84]);
    reads_extents(rt, worker, FIRST + 101, &[1]);
}

#[test]
fn program_in_pages_that_lie_apart(rt: HostRuntime) {
    let config = three_groups(&rt, rt.alloc(), [1, 1, 1]);
    on_table(&rt, config, are_two_extents);
}

fn are_forgotten(rt: &impl Abort, operator: &mut Operator, worker: &mut Worker) {
    has_pages(rt, operator, &[0, 1, 2, 3, 4]);
    reads_extents(rt, worker, FIRST + 1, &[40]);
    selects(rt, operator, 30);
    has_pages(rt, operator, &[0, 5, 6, 4]);
    reads_extents(rt, worker, FIRST + 1, &[30]);
    reads_extents(rt, worker, FIRST + 31, &[1]);
}

// The cache of a version is not used for the next one, whose program is elsewhere.
#[test]
fn extents_of_the_version_before_are_forgotten(rt: HostRuntime) {
    let config = three_groups(&rt, rt.alloc(), [1, 40, 1]);
    on_table(&rt, config, are_forgotten);
}

// Among 34 entries a search needs six reads, or five for some places. The reads that are left of eleven are made for
// the parts after it.
fn are_several_extents(rt: &impl Abort, _operator: &mut Operator, worker: &mut Worker) {
    reads_extents(rt, worker, FIRST, &[96, 112, 112, 112, 68]);
}

#[test]
fn long_program_has_several_extents(rt: HostRuntime) {
    let config = three_groups(&rt, rt.alloc(), [500, 1, 1]);
    on_table(&rt, config, are_several_extents);
}
