//! Programs that stay in their pages from version to version: the pages that versions name, and sections that read them
//! meanwhile.

ghost use Rattle.std.specs.Prelude.{◌≡◌, ◌≤◌};

use super::beside::{Course, run_beside};
use super::numbered::{applied, key_of, selected};
use super::tables::{has_pages, on_table, published};
use bpf_insn::Words;
use member_group::{Command, Config};
use read_section::{Operator, Worker};
use retire::{PublishFault, Retire};
use std::alloc::Global;
use std::process::Abort;

// `ret #0`
const RETURN: u64 = 0x0006_0000_0000_0000;

// Gives a group a selector of one instruction, which returns this many bytes.
fn selecting(rt: &impl Abort, config: &Config, group: u32, bytes: u64) -> Config {
    let word = RETURN.wrapping_add(bytes);
    let words = vec![in *config.allocator(); word; 1].expect(rt, "memory");
    selected(rt, config, key_of(group), words)
}

// Groups 1, 2 and 3, whose selectors return 10, 11 and 12 bytes.
fn three_groups(rt: &impl Abort, alloc: Global) -> Config {
    let mut config = Config::new(alloc);
    for (group, bytes) in [(1u32, 10u64), (2, 11), (3, 12)] {
        let key = key_of(group);
        config = applied(rt, &config, Command::AddGroup { key });
        config = selecting(rt, &config, group, bytes);
    }
    config
}

// Publishes another selector of a group.
fn selects(rt: &impl Abort, operator: &mut Operator, group: u32, bytes: u64) {
    let next = selecting(rt, operator.config(), group, bytes);
    published(rt, operator, next);
}

// The group, the number that its selector then returns, and the pages that the version names. Pages 0, 1 and 2 are
// those of version 0, and stay in use; 19 is in one page at a time, and 12 is a new program if the version before has
// no such one.
static CHANGES: [(u32, u64, [u32; 3]); 5] = [
    (2, 19, [0, 3, 2]),
    (3, 19, [0, 3, 3]),
    (1, 19, [3, 3, 3]),
    (2, 17, [3, 4, 3]),
    (1, 12, [5, 4, 3]),
];

// Publishes a selector of groups 1 and 2 that neither had.
fn selects_for_both(rt: &impl Abort, operator: &mut Operator, bytes: u64) {
    let first = selecting(rt, operator.config(), 1, bytes);
    let both = selecting(rt, &first, 2, bytes);
    published(rt, operator, both);
}

fn removes(rt: &impl Abort, operator: &mut Operator, group: u32) {
    let key = key_of(group);
    let without = applied(rt, operator.config(), Command::RemoveGroup { key });
    published(rt, operator, without);
}

fn takes_equal_pages(rt: &impl Abort, operator: &mut Operator, _worker: &mut Worker) {
    for (group, bytes, pages) in &CHANGES {
        selects(rt, operator, *group, *bytes);
        has_pages(rt, operator, pages);
    }
    // The pages of the versions before are free, except those that the current version names.
    assert!(rt; operator.sweep().count == 5);
    selects(rt, operator, 3, 11);
    has_pages(rt, operator, &[5, 4, 0]);
    // Two equal programs that are new take a page each.
    selects_for_both(rt, operator, 30);
    has_pages(rt, operator, &[1, 2, 0]);
    // Without group 1 the selector of group 2 is found in the first page that has its words.
    removes(rt, operator, 1);
    has_pages(rt, operator, &[1, 0]);
}

#[test]
fn equal_programs_take_the_pages_of_the_version_before(rt: HostRuntime) {
    on_table(&rt, three_groups(&rt, rt.alloc()), takes_equal_pages);
}

// ---- ten thousand versions beside sections

const LAST: u64 = 10_000;

// The selector of a group in a version: each version changes one group's, often to one that another group had before
// it.
fn kind_of(number: u64, group: u64) -> u64 {
    number.wrapping_add(group) / 3 % 7
}

// The number of its instructions: from 1 to 55, so from one page to four.
fn len_of(kind: u64) -> u64 {
    kind.wrapping_mul(9).wrapping_add(1)
}

// Its instruction at a place: each returns another number of bytes.
fn instruction(kind: u64, place: u64) -> u64 {
    RETURN
        .wrapping_add(kind.wrapping_mul(64))
        .wrapping_add(place)
}

// Word i of the row with the image of a version (docs/SWITCH.md, "Image"): the length, three groups, for each its key,
// the place at which member records begin, no member and the place of its selector, and then the selectors.
fn expected(number: u64, i: u64) -> u64 {
    let mut record = 2u64;
    let mut begin = 14u64;
    for group in 0..3u64 {
        let kind = kind_of(number, group);
        let len = len_of(kind);
        if i >= begin && i - begin < len {
            return instruction(kind, i - begin);
        }
        if i >= record && i - record < 4 {
            let key = group.wrapping_add(1).wrapping_mul(65536).wrapping_add(53);
            let place = begin.wrapping_mul(65536).wrapping_add(len);
            return [key, 14, 0, place]
                .get((i - record) as usize)
                .copied()
                .unwrap_or(0);
        }
        record = record.wrapping_add(4);
        begin = begin.wrapping_add(len);
    }
    [begin, 3].get(i as usize).copied().unwrap_or(0)
}

// A configuration with the selector that a group has in a version.
fn with_kind(rt: &impl Abort, config: &Config, number: u64, group: u32) -> Config {
    let kind = kind_of(number, u64::from(group));
    let mut words = Vec::new(*config.allocator());
    for place in 0..len_of(kind) {
        words.push(instruction(kind, place)).expect(rt, "memory");
    }
    selected(rt, config, key_of(group.wrapping_add(1)), words)
}

fn first_version(rt: &impl Abort, alloc: Global) -> Config {
    let mut config = Config::new(alloc);
    for group in 0..3u32 {
        let key = key_of(group.wrapping_add(1));
        config = applied(rt, &config, Command::AddGroup { key });
        config = with_kind(rt, &config, 0, group);
    }
    config
}

// Publishes as soon as a row is free: readers end by themselves.
fn publish_at_last(rt: &impl Abort, operator: &mut Operator, config: Config) -> u64 {
    let mut next = config;
    for _ in 0..u64::MAX {
        match operator.publish(next) {
            Ok(number) => return number,
            Err((PublishFault::Busy, config)) => next = config,
            Err(_) => panic!(rt; "no refusal but busy"),
        }
    }
    panic!(rt; "never free")
}

// Publishes each version up to the last; returns the number of results that were not its number.
pub fn bad_publications(rt: &impl Abort, operator: &mut Operator) -> u32 {
    let mut bad = 0u32;
    for number in 1..=LAST {
        let group = 2u32.wrapping_sub((number.wrapping_add(2) % 3) as u32);
        let next = with_kind(rt, operator.config(), number, group);
        if publish_at_last(rt, operator, next) != number {
            bad = bad.wrapping_add(1);
        }
    }
    bad
}

// The number of words of a row that are compared: those of an image, at most 179, and zeros after it. Sections are
// short then, and delay no publication for long, however busy the machine is.
fn compared(count: usize) -> usize
    ensures { result ≤ count }
{
    if count < 256 { count } else { 256 }
}

// The number of words that differ from those of a version.
fn differing<W: Words>(words: &mut W, number: u64) -> usize
    ensures words_kept { W.words words.new ≡ W.words words.old }
    ensures rest_kept { W.rest words.new ≡ W.rest words.old }
{
    let mut count = 0usize;
    for i in 0..compared(words.count()) {
        if words.word(i) != expected(number, i as u64) {
            count = count.wrapping_add(1);
        }
    }
    count
}

// Reads the words of sections, up to one on the last version; returns the number of sections that were not whole.
pub fn bad_sections(worker: &mut Worker) -> u32 {
    let mut bad = 0u32;
    for _ in 0..1000u32 {
        let mut section = worker.enter();
        let number = section.number();
        let wrong = differing(&mut section, number);
        section.leave();
        if wrong != 0 {
            bad = bad.wrapping_add(1);
        }
        if number == LAST {
            break;
        }
    }
    bad
}

// Four workers read in threads of their own, each word of each section's image: no publication is wrong, and no
// section is.
#[test]
fn changed_programs_beside_sections(rt: HostRuntime) {
    let config = first_version(&rt, rt.alloc());
    let (bad_publications, bad_sections, last) = run_beside(&rt, config, Course::Programs);
    assert!(rt; bad_publications == 0);
    assert!(rt; last == LAST);
    assert!(rt; bad_sections == 0);
}
