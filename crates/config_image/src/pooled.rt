//! Rows in pooled form: the words of an image before its programs, and then a page table entry for each part of the programs
//! (docs/SWITCH.md, "The pooled form").

ghost use Rattle.std.specs.Prelude.{◌≡◌, ◌+◌, ◌*◌, ◌/◌, ◌<◌, ◌≤◌, ◌++◌, List, drop, flat_map, length, slice_index, take, ℕ};
ghost use Rattle.std.specs.List.{sum_by};
ghost use Rattle.member_group.specs.Charge.{charge_of};
ghost use Rattle.member_group.specs.Group.{IsConfig};
ghost use Rattle.config_image.specs.Image.{members_begin, programs_begin};
ghost use Rattle.config_image.specs.Pooled.{ArePages, form_word, page_entries, pages_for, parts, parts_of, pooled_row};

use crate::pages::{PageEntry, RowHeader, pages_for};
use crate::size::{members_in, words_in};
use crate::walk::Programs;
use crate::word::{PLACE_LIMIT, record_word};
use crate::writing::{WordSink, write_group_records, write_members, write_words};
use crate::{PAGE_WORDS, ROW_WORDS};
use bpf_verify::MAX_INSTRUCTIONS;
use member_group::{Config, GROUP_WORDS, Group, HEAD_WORDS, MEMBER_WORDS};
use std::alloc::Allocator;

// The first word of a row of `count` parts.
fn form_word<A: Allocator>(groups: &[Group<A>], programs_at: usize, count: usize) -> u64
    requires config { IsConfig groups.now }
    requires programs { programs_at ≡ programs_begin groups.now }
    requires counted { count ≡ length (parts groups.now) }
    ensures { result ≡ form_word groups.now }
{
    RowHeader::new(words_in(groups), programs_at, count).0
}

// The place of the first word of part `part`, if the programs begin at `programs_at`.
fn part_place<A: Allocator>(programs: Programs<'_, A>, part: usize, programs_at: usize) -> usize
    requires inside { part < length (flat_map parts_of programs) }
    requires limited { programs_at + sum_by (λ (words : List ℕ). length words) programs ≤ PLACE_LIMIT }
    ensures { result ≡ programs_at + sum_by (λ (words : List ℕ). length words) (take part (flat_map parts_of programs.entry)) }
{
    let mut left = part;
    let mut place = programs_at;
    for words in programs {
        let count = pages_for(words.len());
        if left < count {
            return place + left * PAGE_WORDS;
        }
        left -= count;
        place += words.len();
    }
    unreachable!()
}

fn stored<A: Allocator>(groups: &[Group<A>], pages: &[u32], i: usize) -> u64
    requires config { IsConfig groups.now }
    requires pages { ArePages groups.now pages.now }
    requires inside { i < ROW_WORDS }
    ensures { result ≡ slice_index (pooled_row groups.now pages.now) i }
{
    let members_at = HEAD_WORDS + GROUP_WORDS * groups.len();
    let programs_at = members_at + MEMBER_WORDS * members_in(groups);
    if i == 0 {
        form_word(groups, programs_at, pages.len())
    } else if i < programs_at {
        record_word(groups, i, members_at, programs_at)
    } else {
        let part = i - programs_at;
        let count = pages.len();
        if part < count {
            let place = part_place(Programs::of_groups(groups), part, programs_at);
            PageEntry::new(place, pages[part]).0
        } else {
            0
        }
    }
}

/// Returns word `i`, counted from 0, of the row of a configuration whose parts are in these pages.
///
/// Takes time for each group and each member, and none for the words of a program.
pub fn stored_word<A: Allocator>(config: &Config<A>, pages: &[u32], i: usize) -> u64
    requires pages { ArePages config.now pages.now }
    requires inside { i < ROW_WORDS }
    ensures word_exact { result ≡ slice_index (pooled_row config.now pages.now) i }
{
    stored(config.groups(), pages, i)
}

// Puts the page table entries of one program's parts, the first of which begins at `place`, and returns the pages that are left.
fn write_program_entries<'a, S: WordSink>(
    words: &[u64],
    place: usize,
    pages: &'a [u32],
    sink: &mut S,
) -> &'a [u32]
    requires enough { pages_for (length words.now) ≤ length pages.now }
    requires limited { place + length words.now ≤ PLACE_LIMIT }
    requires room { pages_for (length words.now) ≤ S.room sink.old }
    ensures left { result.now ≡ drop (pages_for (length words.now)) pages.now }
    ensures taken { S.taken sink.new ≡ S.taken sink.old ++ page_entries place (parts_of words.now) pages.now }
    ensures room { S.room sink.new + pages_for (length words.now) ≡ S.room sink.old }
{
    let (own, left) = pages.split_at(pages_for(words.len()));
    let mut part_at = place;
    for page in own {
        sink.put(PageEntry::new(part_at, *page).0);
        part_at += PAGE_WORDS;
    }
    left
}

fn write_entries<A: Allocator, S: WordSink>(
    programs: Programs<'_, A>,
    programs_at: usize,
    pages: &[u32],
    sink: &mut S,
)
    requires pages { length pages.now ≡ length (flat_map parts_of programs) }
    requires limited { programs_at + sum_by (λ (words : List ℕ). length words) programs ≤ PLACE_LIMIT }
    requires room { length pages.now ≤ S.room sink.old }
    ensures taken { S.taken sink.new ≡ S.taken sink.old ++ page_entries programs_at (flat_map parts_of programs.entry) pages.now }
    ensures room { S.room sink.new + length pages.now ≡ S.room sink.old }
{
    let mut left = pages;
    let mut place = programs_at;
    for words in programs {
        left = write_program_entries(words, place, left, sink);
        place += words.len();
    }
}

fn write_row<A: Allocator, S: WordSink>(groups: &[Group<A>], pages: &[u32], sink: &mut S)
    requires config { IsConfig groups.now }
    requires pages { ArePages groups.now pages.now }
    requires charge { charge_of groups.now ≤ ROW_WORDS }
    requires room { programs_begin groups.now + length (parts groups.now) ≤ S.room sink.old }
    ensures written { S.taken sink.new ≡ S.taken sink.old ++ take (programs_begin groups.now + length (parts groups.now)) (pooled_row groups.now pages.now) }
    ensures room { S.room sink.new + (programs_begin groups.now + length (parts groups.now)) ≡ S.room sink.old }
{
    let members_at = HEAD_WORDS + GROUP_WORDS * groups.len();
    let programs_at = members_at + MEMBER_WORDS * members_in(groups);
    let first = form_word(groups, programs_at, pages.len());
    write_words(&[first, groups.len() as u64], sink);
    write_group_records(groups, members_at, programs_at, sink);
    write_members(groups, programs_at, sink);
    write_entries(Programs::of_groups(groups), programs_at, pages, sink);
}

/// Puts the words of a row that are not its last zeros into a sink, each once and in order: all words before the programs, and a page
/// table entry for each part of a configuration whose parts are in these pages.
///
/// It takes time for each of these words, each group and each member.
pub fn write_pooled<A: Allocator, S: WordSink>(config: &Config<A>, pages: &[u32], sink: &mut S)
    requires pages { ArePages config.now pages.now }
    requires charge { charge_of config.now ≤ ROW_WORDS }
    requires room { programs_begin config.now + length (parts config.now) ≤ S.room sink.old }
    ensures written { S.taken sink.new ≡ S.taken sink.old ++ take (programs_begin config.now + length (parts config.now)) (pooled_row config.now pages.now) }
    ensures room { S.room sink.new + (programs_begin config.now + length (parts config.now)) ≡ S.room sink.old }
{
    write_row(config.groups(), pages, sink);
}
