//! Single words of an image.

ghost use Rattle.std.specs.Prelude.{◌≡◌, ◌+◌, ◌*◌, ◌/◌, ◌<◌, ◌≤◌, Some, length, slice_get};
ghost use Rattle.std.specs.List.{All};
ghost use Rattle.std.specs.Option.{option_map};
ghost use Rattle.member_group.specs.Charge.{members_of};
ghost use Rattle.member_group.specs.Group.{IsConfig, IsGroup};
ghost use Rattle.config_image.specs.Image.{all_member_records, filter_words, group_program_words, group_records, image, lock_word, member_records, members_begin, program_words, programs_begin, reference};

use crate::size::{members_in, programs_len, words, words_in};
use bpf_verify::{MAX_INSTRUCTIONS, Program};
use ipv4_fields::Endpoint;
use member_group::{
    Config, GROUP_LIMIT, GROUP_WORDS, Group, HEAD_WORDS, MEMBER_LIMIT, MEMBER_WORDS, Member,
};
use std::alloc::Allocator;

// Places of an image are less than half of this, also of an image that no row has room for: 64 groups with 65 programs of
// 4096 words each, and their records. On the way to the last group or member places grow by less than that again.
pub(crate) const PLACE_LIMIT: usize = 1 << 26;

pub(crate) fn program_reference<A: Allocator>(place: usize, program: Option<&Program<A>>) -> u64
    requires { place ≤ PLACE_LIMIT }
    ensures { result ≡ reference place (option_map (λ lent. lent.now) program.entry) }
{
    match program {
        Some(program) => place as u64 * 65536 + program.words().len() as u64,
        None => 0,
    }
}

pub(crate) fn lock_word(locked: bool) -> u64
    ensures { result ≡ lock_word locked }
{
    if locked { 1 } else { 0 }
}

// Word `word` of the groups' records, if member records begin at `members_at` and programs at `programs_at`.
fn group_word<A: Allocator>(
    groups: &[Group<A>],
    word: usize,
    members_at: usize,
    programs_at: usize,
) -> u64
    requires few { length groups.now ≤ GROUP_LIMIT }
    requires groups { All IsGroup groups.now }
    requires inside { word < GROUP_WORDS * length groups.now }
    requires members { members_at ≤ PLACE_LIMIT / 4 }
    requires programs { programs_at ≤ PLACE_LIMIT / 4 }
    ensures { slice_get (group_records members_at programs_at groups.now) word ≡ Some result }
{
    let mut left = word;
    let mut members = members_at;
    let mut place = programs_at;
    for group in groups {
        if left < GROUP_WORDS {
            return match left {
                0 => group.key().number(),
                1 => members as u64,
                2 => group.members().len() as u64,
                _ => program_reference(place, group.selector()),
            };
        }
        left -= GROUP_WORDS;
        members += MEMBER_WORDS * group.members().len();
        place += programs_len(group);
    }
    unreachable!()
}

// Word `word` of a group's member records, if the filters begin at `filters_at`.
fn member_word<A: Allocator>(members: &[Member<Program<A>>], word: usize, filters_at: usize) -> u64
    requires few { length members.now ≤ MEMBER_LIMIT }
    requires inside { word < MEMBER_WORDS * length members.now }
    requires filters { filters_at ≤ PLACE_LIMIT / 2 }
    ensures { slice_get (member_records filters_at members.now) word ≡ Some result }
{
    let mut left = word;
    let mut place = filters_at;
    for member in members {
        if left < MEMBER_WORDS {
            return match left {
                0 => u64::from(member.id),
                1 => member.to.number(),
                2 => program_reference(place, member.filter.as_ref()),
                _ => lock_word(member.locked),
            };
        }
        left -= MEMBER_WORDS;
        place += words(member.filter.as_ref()).len();
    }
    unreachable!()
}

// Word `word` of all member records, if the programs begin at `programs_at`.
fn members_word<A: Allocator>(groups: &[Group<A>], word: usize, programs_at: usize) -> u64
    requires few { length groups.now ≤ GROUP_LIMIT }
    requires groups { All IsGroup groups.now }
    requires inside { word < MEMBER_WORDS * members_of groups.now }
    requires programs { programs_at ≤ PLACE_LIMIT / 4 }
    ensures { slice_get (all_member_records programs_at groups.now) word ≡ Some result }
{
    let mut left = word;
    let mut place = programs_at;
    for group in groups {
        let records = MEMBER_WORDS * group.members().len();
        if left < records {
            return member_word(group.members(), left, place + words(group.selector()).len());
        }
        left -= records;
        place += programs_len(group);
    }
    unreachable!()
}

// Word `word` of a group's filters.
fn filter_word<A: Allocator>(members: &[Member<Program<A>>], word: usize) -> u64
    requires inside { word < length (filter_words members.now) }
    ensures { slice_get (filter_words members.now) word ≡ Some result }
{
    let mut left = word;
    for member in members {
        let filter = words(member.filter.as_ref());
        if left < filter.len() {
            return filter[left];
        }
        left -= filter.len();
    }
    unreachable!()
}

// Word `word` of a group's programs.
fn group_program_word<A: Allocator>(group: &Group<A>, word: usize) -> u64
    requires inside { word < length (group_program_words group.now) }
    ensures { slice_get (group_program_words group.now) word ≡ Some result }
{
    let selector = words(group.selector());
    if word < selector.len() {
        selector[word]
    } else {
        filter_word(group.members(), word - selector.len())
    }
}

// Word `word` of all programs.
fn program_word<A: Allocator>(groups: &[Group<A>], word: usize) -> u64
    requires groups { All IsGroup groups.now }
    requires inside { word < length (program_words groups.now) }
    ensures { slice_get (program_words groups.now) word ≡ Some result }
{
    let mut left = word;
    for group in groups {
        let len = programs_len(group);
        if left < len {
            return group_program_word(group, left);
        }
        left -= len;
    }
    unreachable!()
}

// Word `i` of an image, after the first and before the programs, if member records begin at `members_at` and programs at
// `programs_at`.
pub(crate) fn record_word<A: Allocator>(
    groups: &[Group<A>],
    i: usize,
    members_at: usize,
    programs_at: usize,
) -> u64
    requires config { IsConfig groups.now }
    requires members { members_at ≡ members_begin groups.now }
    requires programs { programs_at ≡ programs_begin groups.now }
    requires behind { 0 < i }
    requires before { i < programs_at }
    ensures { slice_get (image groups.now) i ≡ Some result }
{
    if i == 1 {
        groups.len() as u64
    } else if i < members_at {
        group_word(groups, i - HEAD_WORDS, members_at, programs_at)
    } else {
        members_word(groups, i - members_at, programs_at)
    }
}

fn word<A: Allocator>(groups: &[Group<A>], i: usize) -> u64
    requires config { IsConfig groups.now }
    requires inside { i < length (image groups.now) }
    ensures { slice_get (image groups.now) i ≡ Some result }
{
    let members_at = HEAD_WORDS + GROUP_WORDS * groups.len();
    let programs_at = members_at + MEMBER_WORDS * members_in(groups);
    if i == 0 {
        words_in(groups) as u64
    } else if i < programs_at {
        record_word(groups, i, members_at, programs_at)
    } else {
        program_word(groups, i - programs_at)
    }
}

/// Returns word `i` of the image of a configuration, counted from 0.
///
/// Takes time for each group and each member, and none for the words of a program.
pub fn image_word<A: Allocator>(config: &Config<A>, i: usize) -> u64
    requires { i < length (image config.now) }
    ensures word_exact { slice_get (image config.now) i ≡ Some result }
{
    word(config.groups(), i)
}
