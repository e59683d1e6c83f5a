//! The diff of the next configuration and the current one: usually the words of one program.

ghost use Rattle.std.specs.Prelude.{◌≡◌, ◌+◌, ◌≤◌, ◌∷◌, IfSome, IsTrue, [], length};
ghost use Rattle.std.specs.Option.{option_map, option_to_list};
ghost use Rattle.config_image.specs.declared.TheConstants.{PAGE_LIMIT};
ghost use Rattle.config_image.specs.Pooled.{pages_for};
ghost use Rattle.config_image.specs.Walk.{words_of_programs};
ghost use Rattle.member_group.specs.Charge.{programs_of_group};
ghost use Rattle.retire.specs.body.Alike.{AllAlike, AreAlike, AreAlikeGroups, AreAlikeMembers, AreOfOneLength};
ghost use Rattle.retire.specs.body.Diff.{GoesOn, IsPassed, filters_in, pages_in, words_in};

use crate::current_pages::same_words;
use bpf_verify::Program;
use config_image::pages_for;
use member_group::{Config, Group, Member};
use std::alloc::Global;

/// A walk over two configurations side by side, as far as they are alike: the same keys, members and locks, programs of the same
/// lengths, and one program at most that has other words.
#[derive(Drop)]
pub(crate) struct Walk<'a> {
    // The number of pages of the programs that were passed.
    pages: usize,
    // The program that has other words, and the number of pages before its own.
    pub(crate) differs: Option<(&'a [u64], usize)>,
}

impl<'a> Walk<'a> {
    // Passes a program on both sides, and returns whether the walk goes on.
    #[inline(always)]
    fn pass(&mut self, words: &'a [u64], other: &[u64]) -> bool
        requires room { self.old.pages + pages_for (length words.now) ≤ PAGE_LIMIT }
        ensures sized { IsTrue result → length words.now ≡ length other.now }
        ensures goes_on { IsTrue result → GoesOn self.old self.new (words.now ∷ []) (other.now ∷ []) }
    {
        if !same_words(words, other) {
            if words.len() != other.len() || self.differs.is_some() {
                return false;
            }
            self.differs = Some((words, self.pages));
        }
        self.pages += pages_for(words.len());
        true
    }
}

#[inline(always)]
fn walk_program<'a>(
    program: Option<&'a Program<Global>>,
    other: Option<&Program<Global>>,
    walk: &mut Walk<'a>,
) -> bool
    requires room { walk.old.pages + pages_in (words_in (option_to_list (option_map (λ lent. lent.now) program))) ≤ PAGE_LIMIT }
    ensures alike { IsTrue result → AreOfOneLength (option_map (λ lent. lent.now) program.entry) (option_map (λ lent. lent.now) other.entry) }
    ensures goes_on { IsTrue result → GoesOn walk.old walk.new (words_in (option_to_list (option_map (λ lent. lent.now) program.entry))) (words_in (option_to_list (option_map (λ lent. lent.now) other.entry))) }
{
    match program {
        Some(program) => match other {
            Some(other) => walk.pass(program.words(), other.words()),
            None => false,
        },
        None => other.is_none(),
    }
}

#[inline(always)]
fn walk_member<'a>(
    member: &'a Member<Program<Global>>,
    other: &Member<Program<Global>>,
    walk: &mut Walk<'a>,
) -> bool
    requires room { walk.old.pages + pages_in (words_in (option_to_list member.now.filter)) ≤ PAGE_LIMIT }
    ensures alike { IsTrue result → AreAlikeMembers member.now other.now }
    ensures goes_on { IsTrue result → GoesOn walk.old walk.new (words_in (option_to_list member.now.filter)) (words_in (option_to_list other.now.filter)) }
{
    member.id == other.id
        && member.to == other.to
        && member.locked == other.locked
        && walk_program(member.filter.as_ref(), other.filter.as_ref(), walk)
}

#[inline(always)]
fn walk_members<'a>(
    members: &'a [Member<Program<Global>>],
    others: &[Member<Program<Global>>],
    walk: &mut Walk<'a>,
) -> bool
    requires room { walk.old.pages + pages_in (filters_in members.now) ≤ PAGE_LIMIT }
    ensures alike { IsTrue result → AllAlike AreAlikeMembers members.now others.now }
    ensures goes_on { IsTrue result → GoesOn walk.old walk.new (filters_in members.now) (filters_in others.now) }
{
    if members.len() != others.len() {
        return false;
    }
    for at in 0..members.len() {
        if !walk_member(&members[at], &others[at], walk) {
            return false;
        }
    }
    true
}

#[inline(always)]
fn walk_group<'a>(group: &'a Group<Global>, other: &Group<Global>, walk: &mut Walk<'a>) -> bool
    requires room { walk.old.pages + pages_in (words_in (programs_of_group group.now)) ≤ PAGE_LIMIT }
    ensures alike { IsTrue result → AreAlikeGroups group.now other.now }
    ensures goes_on { IsTrue result → GoesOn walk.old walk.new (words_in (programs_of_group group.now)) (words_in (programs_of_group other.now)) }
{
    group.key() == other.key()
        && walk_program(group.selector(), other.selector(), walk)
        && walk_members(group.members(), other.members(), walk)
}

#[inline(always)]
fn walk_groups<'a>(
    groups: &'a [Group<Global>],
    others: &[Group<Global>],
    walk: &mut Walk<'a>,
) -> bool
    requires room { walk.old.pages + pages_in (words_of_programs groups.now) ≤ PAGE_LIMIT }
    ensures alike { IsTrue result → AreAlike groups.now others.now }
    ensures goes_on { IsTrue result → GoesOn walk.old walk.new (words_of_programs groups.now) (words_of_programs others.now) }
{
    if groups.len() != others.len() {
        return false;
    }
    for at in 0..groups.len() {
        if !walk_group(&groups[at], &others[at], walk) {
            return false;
        }
    }
    true
}

/// Compares two configurations. Returns `None` if they are not alike, or if more than one program has other words.
///
/// If they are alike, their rows differ in the pages that they name, and in nothing else.
/// When it gives up: docs/INTERNALS.md, "A row is reused if one program alone changes".
pub(crate) fn compare<'a>(config: &'a Config, other: &Config) -> Option<Walk<'a>>
    requires room { pages_in (words_of_programs config.now) ≤ PAGE_LIMIT }
    ensures alike { IfSome result (λ walk. AreAlike config.now other.now) }
    ensures passed { IfSome result (λ walk. IsPassed walk (words_of_programs config.now) (words_of_programs other.now)) }
{
    let mut walk = Walk {
        pages: 0,
        differs: None,
    };
    if walk_groups(config.groups(), other.groups(), &mut walk) {
        return Some(walk);
    }
    None
}
