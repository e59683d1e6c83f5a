//! Images that were written down by hand, and the groups, members and programs that are found in them again.

ghost use Rattle.std.specs.Prelude.{◌≡◌, ◌<◌, IfOk, length};
ghost use Rattle.config_image.specs.Image.{image};
ghost use Rattle.config_image.specs.Lookup.{BeginsWithImage};

use super::commands::{
    Act, LOCKED_BARE, MEMBER, ONE_MEMBER, RET_ONE, RET_ZERO, Returns, after_each,
};
use bpf_verify::Program;
use config_image::{
    FoundGroup, MemberEntry, ProgramPlace, filter_of, find_group, image_len, image_word, member_at,
    selector_of,
};
use member_group::Config;
use std::alloc::{AllocError, Global};
use std::process::Abort;

// The words of the image, each read by its place.
fn words_of(alloc: Global, config: &Config) -> Result<Vec<u64>, AllocError>
    ensures { IfOk result (λ words. words.items ≡ image config.now) }
{
    let mut words = Vec::new(alloc);
    for i in 0..image_len(config) {
        words.push(image_word(config, i))?;
    }
    Ok(words)
}

// The image has these words.
fn has_image(rt: &impl Abort, alloc: Global, config: &Config, words: &[u64]) {
    let image = words_of(alloc, config).expect(rt, "memory");
    assert!(rt; image.as_slice() == words);
}

// The group 10.0.0.2:53, its selector `ret #0`.
pub const ONE_SELECTOR: &[Act] = &[Act::Add(53), Act::Select(53, Returns(1, RET_ZERO))];

// Two groups, the first without members: both name one place of member records. Programs go group by group, the selector
// before the filters.
pub const TWO_GROUPS: &[Act] = &[
    Act::Add(53),
    Act::Select(53, Returns(1, RET_ZERO)),
    Act::Add(54),
    Act::Join(54, 7),
    Act::Join(54, 8),
    Act::Filter(54, 8, Returns(1, RET_ONE)),
    Act::Lock(54, 8),
    Act::Select(54, Returns(2, RET_ONE)),
];

const IMAGE_OF_TWO: &[u64] = &[
    22,
    2,
    0x0a00_0002_0035,
    10,
    0,
    0x12_0001,
    0x0a00_0002_0036,
    10,
    2,
    0x13_0002,
    7,
    0x7f00_0001_2329,
    0,
    0,
    8,
    0x7f00_0001_2329,
    0x15_0001,
    1,
    RET_ZERO,
    RET_ZERO,
    RET_ONE,
    RET_ONE,
];

// The configurations of these tests, and the image of each: without groups, with a selector, with two groups, with a
// member, and with a locked one.
pub static IMAGES: [(&[Act], &[u64]); 5] = [
    (&[], &[2, 0]),
    (
        ONE_SELECTOR,
        &[7, 1, 0x0a00_0002_0035, 6, 0, 0x6_0001, RET_ZERO],
    ),
    (TWO_GROUPS, IMAGE_OF_TWO),
    (
        ONE_MEMBER,
        &[10, 1, 0x0a00_0002_0035, 6, 1, 0, 1, 0x7f00_0001_2329, 0, 0],
    ),
    (
        LOCKED_BARE,
        &[10, 1, 0x0a00_0002_0035, 6, 1, 0, 1, 0x7f00_0001_2329, 0, 1],
    ),
];

#[test]
fn images_word_by_word(rt: HostRuntime) {
    for (acts, words) in &IMAGES {
        has_image(&rt, rt.alloc(), &after_each(&rt, rt.alloc(), acts), words);
    }
}

// The words at a place are a program's; there is no place if there is no program.
fn stands(words: &[u64], place: Option<ProgramPlace>, program: Option<&Program<Global>>) -> bool {
    match (place, program) {
        (None, None) => true,
        (Some(place), Some(program)) => {
            if place.from > words.len() || place.len > words.len() - place.from {
                return false;
            }
            let behind = &words[place.from..];
            &behind[..place.len] == program.words()
        }
        _ => false,
    }
}

// Everything in the groups of a configuration is found again in words that begin with its image.
fn finds_members(words: &[u64], config: &Config, index: usize) -> bool
    requires words { BeginsWithImage words.now config.now }
    requires inside { index < length config.now }
{
    let mut list = words;
    let group = &config.groups()[index];
    let members = group.members();
    for at in 0..members.len() {
        let member = &members[at];
        let entry = MemberEntry {
            id: member.id,
            to: member.to,
        };
        if member_at(&mut list, index, at) != entry {
            return false;
        }
        let filter = filter_of(&mut list, index, at);
        if !stands(words, filter, member.filter.as_ref()) {
            return false;
        }
    }
    true
}

fn finds_groups(words: &[u64], config: &Config) -> bool
    requires { BeginsWithImage words.now config.now }
{
    let mut list = words;
    // The key of no group.
    if find_group(&mut list, MEMBER).is_some() {
        return false;
    }
    let groups = config.groups();
    for index in 0..groups.len() {
        let group = &groups[index];
        let found = FoundGroup {
            index,
            members: group.members().len(),
        };
        if find_group(&mut list, group.key()) != Some(found) {
            return false;
        }
        let selector = selector_of(&mut list, index);
        if !stands(words, selector, group.selector()) || !finds_members(words, config, index) {
            return false;
        }
    }
    true
}

#[test]
fn found_again(rt: HostRuntime) {
    for (acts, _) in &IMAGES {
        let config = after_each(&rt, rt.alloc(), acts);
        let words = words_of(rt.alloc(), &config).expect(&rt, "memory");
        assert!(rt; finds_groups(words.as_slice(), &config));
    }
}
