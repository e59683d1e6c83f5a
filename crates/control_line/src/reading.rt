//! Lines that read the configuration back: a group, a member, or words of a program (docs/COMMANDS.md, "Control lines").

ghost use Rattle.std.specs.Prelude.{◌≡◌, ◌<◌, option_map, slice_index_or};
ghost use Rattle.member_group.specs.Group.{member_of};
ghost use Rattle.member_group.specs.declared.refusal.Refusal.TheVariants.{NoProgram};
ghost use Rattle.control_line.specs.Reading.{count_of, filter_words, group_at, member_at, or_refused, reading_answer, selector_words, window, words_answer};
ghost use Rattle.control_line.specs.body.Reading.{reading_of};
ghost use Rattle.control_line.specs.declared.reason.Reason.TheVariants.{Command};
ghost use Rattle.control_line.specs.declared.reply.LineAnswer.TheVariants as answer;

use crate::judging::judge_digits;
use crate::reason::Reason;
use crate::reply::{LineAnswer, WINDOW};
use bpf_verify::Program;
use ipv4_fields::Endpoint;
use member_group::{Group, Member, Refusal};
use packet_verdict::group_by_key;
use std::alloc::Global;

/// A line that reads the configuration back.
#[derive(Clone, Copy)]
pub(crate) enum Reading<'a> {
    /// The group at a place, in rising order of key.
    Group {
        index: u32,
    },
    /// The member at an index of a group.
    Member {
        key: Endpoint,
        index: u32,
    },
    /// Words of a group's selector, from a place on.
    Selector {
        key: Endpoint,
        place: u32,
    },
    /// Words of a member's filter, from a place on.
    Filter {
        key: Endpoint,
        member: u32,
        place: u32,
    },
    /// The verdict on the packet that digits spell.
    Judge {
        digits: &'a [u8],
    },
}

fn refused(refusal: Refusal) -> LineAnswer
    ensures { result ≡ answer.Refused (Command refusal) }
{
    LineAnswer::Refused(Reason::Command(refusal))
}

fn member_by_number(group: &Group<Global>, number: u32) -> Option<&Member<Program<Global>>>
    ensures { option_map (λ member. member.now) result ≡ member_of number group.now }
{
    for member in group.members() {
        if member.id == number {
            return Some(member);
        }
    }
    None
}

// How many instructions a program has; none has 0.
fn count_of(program: Option<&Program<Global>>) -> usize
    ensures { result ≡ count_of (λ program. program.words) (option_map (λ lent. lent.now) program.entry) }
{
    match program {
        Some(program) => program.words().len(),
        None => 0,
    }
}

fn word_or_zero(words: &[u64], place: usize) -> u64
    ensures { result ≡ slice_index_or words.now place 0 }
{
    if place < words.len() { words[place] } else { 0 }
}

fn window(words: &[u64], place: usize) -> [u64; WINDOW]
    requires { place < 4294967296 }
    ensures { result ≡ window words.now place }
{
    [
        word_or_zero(words, place),
        word_or_zero(words, place + 1),
        word_or_zero(words, place + 2),
        word_or_zero(words, place + 3),
        word_or_zero(words, place + 4),
    ]
}

fn words_from(version: u64, program: Option<&Program<Global>>, place: u32) -> LineAnswer
    ensures { result ≡ or_refused NoProgram (words_answer (λ program. program.words) version place) (option_map (λ lent. lent.now) program.entry) }
{
    let Some(program) = program else {
        return refused(Refusal::NoProgram);
    };
    LineAnswer::WordsRead {
        version,
        place,
        count: program.words().len(),
        words: window(program.words(), place as usize),
    }
}

fn read_group(version: u64, groups: &[Group<Global>], index: u32) -> LineAnswer
    ensures { result ≡ reading_answer (λ program. program.words) version groups.now (group_at index) }
{
    let Some(group) = groups.get(index as usize) else {
        return refused(Refusal::NoGroup);
    };
    LineAnswer::GroupRead {
        version,
        index,
        groups: groups.len(),
        key: group.key(),
        members: group.members().len(),
        selector: count_of(group.selector()),
    }
}

fn read_member(version: u64, groups: &[Group<Global>], key: Endpoint, index: u32) -> LineAnswer
    ensures { result ≡ reading_answer (λ program. program.words) version groups.now (member_at key index) }
{
    let Some(group) = group_by_key(groups, key) else {
        return refused(Refusal::NoGroup);
    };
    let Some(member) = group.members().get(index as usize) else {
        return refused(Refusal::NoMember);
    };
    LineAnswer::MemberRead {
        version,
        index,
        members: group.members().len(),
        id: member.id,
        to: member.to,
        filter: count_of(member.filter.as_ref()),
        locked: member.locked,
    }
}

fn read_selector(version: u64, groups: &[Group<Global>], key: Endpoint, place: u32) -> LineAnswer
    ensures { result ≡ reading_answer (λ program. program.words) version groups.now (selector_words key place) }
{
    let Some(group) = group_by_key(groups, key) else {
        return refused(Refusal::NoGroup);
    };
    words_from(version, group.selector(), place)
}

fn read_filter(
    version: u64,
    groups: &[Group<Global>],
    key: Endpoint,
    member: u32,
    place: u32,
) -> LineAnswer
    ensures { result ≡ reading_answer (λ program. program.words) version groups.now (filter_words key member place) }
{
    let Some(group) = group_by_key(groups, key) else {
        return refused(Refusal::NoGroup);
    };
    let Some(member) = member_by_number(group, member) else {
        return refused(Refusal::NoMember);
    };
    words_from(version, member.filter.as_ref(), place)
}

/// Reads the groups of a configuration, at its version, as a line asks.
pub(crate) fn read_back(version: u64, groups: &[Group<Global>], reading: Reading<'_>) -> LineAnswer
    ensures { result ≡ reading_answer (λ program. program.words) version groups.now (reading_of reading.entry) }
{
    match reading {
        Reading::Group { index } => read_group(version, groups, index),
        Reading::Member { key, index } => read_member(version, groups, key, index),
        Reading::Selector { key, place } => read_selector(version, groups, key, place),
        Reading::Filter { key, member, place } => {
            read_filter(version, groups, key, member, place)
        }
        Reading::Judge { digits } => judge_digits(version, groups, digits),
    }
}
