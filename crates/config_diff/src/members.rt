//! The commands that lead from the members of a group to others.

ghost use Rattle.std.specs.Prelude.{◌≡◌, ◌∷◌, ◌++◌, OnOk, [], map, flat_map, option_to_list, reverse};
ghost use Rattle.member_group.specs.declared.command.Command.TheVariants as command;
ghost use Rattle.config_diff.specs.Rules.{rules_of_member};
ghost use Rattle.config_diff.specs.body.Appended.{HasMore, words_member, words_program};
ghost use Rattle.config_diff.specs.body.Changes.{can_stay, filter_changes, lock_changes, member_changes, members_changes, replaced_members, same_words};

use crate::appending::append;
use crate::programs::is_same_program;
use bpf_verify::{OutOfMemory, Program};
use ipv4_fields::Endpoint;
use member_group::{Command, Member};
use std::alloc::Allocator;

fn can_stay<A: Allocator, B: Allocator>(
    one: &Member<Program<A>>,
    other: &Member<Program<B>>,
) -> bool
    ensures exact { result ≡ can_stay same_words (words_member one.now) (words_member other.now) }
{
    one.id == other.id
        && one.to == other.to
        && (!one.locked
            || other.locked && is_same_program(one.filter.as_ref(), other.filter.as_ref()))
}

fn append_filter<'a, A: Allocator, B: Allocator, C: Allocator>(
    changes: &mut Vec<Command<&'a Program<B>>, C>,
    key: Endpoint,
    member: u32,
    one: Option<&Program<A>>,
    other: Option<&'a Program<B>>,
) -> Result<(), OutOfMemory>
    ensures appended { OnOk result (HasMore changes.old.items changes.new.items (filter_changes same_words key member (words_program one.entry) (words_program other.entry))) }
{
    if is_same_program(one, other) {
        return Ok(());
    }
    match other {
        Some(program) => append(
            changes,
            Command::SetFilter {
                key,
                member,
                program,
            },
        ),
        None => append(changes, Command::ClearFilter { key, member }),
    }
}

fn append_lock<'a, B: Allocator, C: Allocator>(
    changes: &mut Vec<Command<&'a Program<B>>, C>,
    key: Endpoint,
    member: u32,
    one: bool,
    other: bool,
) -> Result<(), OutOfMemory>
    ensures appended { OnOk result (HasMore changes.old.items changes.new.items (lock_changes key member one other)) }
{
    if one || !other {
        return Ok(());
    }
    append(changes, Command::LockFilter { key, member })
}

fn append_member_changes<'a, A: Allocator, B: Allocator, C: Allocator>(
    changes: &mut Vec<Command<&'a Program<B>>, C>,
    key: Endpoint,
    one: &Member<Program<A>>,
    other: &'a Member<Program<B>>,
) -> Result<(), OutOfMemory>
    ensures appended { OnOk result (HasMore changes.old.items changes.new.items (member_changes same_words key (words_member one.now) (words_member other.now))) }
{
    append_filter(
        changes,
        key,
        one.id,
        one.filter.as_ref(),
        other.filter.as_ref(),
    )?;
    append_lock(changes, key, one.id, one.locked, other.locked)
}

fn append_filter_rule<'a, B: Allocator, C: Allocator>(
    changes: &mut Vec<Command<&'a Program<B>>, C>,
    key: Endpoint,
    member: u32,
    filter: Option<&'a Program<B>>,
) -> Result<(), OutOfMemory>
    ensures appended { OnOk result (HasMore changes.old.items changes.new.items (map (λ program. command.SetFilter key member program) (option_to_list (words_program filter.entry)))) }
{
    match filter {
        Some(program) => append(
            changes,
            Command::SetFilter {
                key,
                member,
                program,
            },
        ),
        None => Ok(()),
    }
}

fn append_rules_of_member<'a, B: Allocator, C: Allocator>(
    changes: &mut Vec<Command<&'a Program<B>>, C>,
    key: Endpoint,
    member: &'a Member<Program<B>>,
) -> Result<(), OutOfMemory>
    ensures appended { OnOk result (HasMore changes.old.items changes.new.items (rules_of_member key (words_member member.now))) }
{
    append(
        changes,
        Command::Join {
            key,
            member: member.id,
            to: member.to,
        },
    )?;
    append_filter_rule(changes, key, member.id, member.filter.as_ref())?;
    append_lock(changes, key, member.id, false, member.locked)
}

pub(crate) fn append_joins<'a, B: Allocator, C: Allocator>(
    changes: &mut Vec<Command<&'a Program<B>>, C>,
    key: Endpoint,
    members: &'a [Member<Program<B>>],
) -> Result<(), OutOfMemory>
    ensures appended { OnOk result (HasMore changes.old.items changes.new.items (flat_map (λ member. rules_of_member key member) (map words_member members.now))) }
{
    for member in members {
        append_rules_of_member(changes, key, member)?;
    }
    Ok(())
}

fn append_leaves<'a, A: Allocator, B: Allocator, C: Allocator>(
    changes: &mut Vec<Command<&'a Program<B>>, C>,
    key: Endpoint,
    members: &[Member<Program<A>>],
) -> Result<(), OutOfMemory>
    ensures appended { OnOk result (HasMore changes.old.items changes.new.items (map (λ member. command.Leave key member.id) (reverse (map words_member members.now)))) }
{
    for left in 0..members.len() {
        let last = members.len() - 1 - left;
        let member = members[last].id;
        append(changes, Command::Leave { key, member })?;
    }
    Ok(())
}

fn append_replaced_members<'a, A: Allocator, B: Allocator, C: Allocator>(
    changes: &mut Vec<Command<&'a Program<B>>, C>,
    key: Endpoint,
    from: &[Member<Program<A>>],
    to: &'a [Member<Program<B>>],
) -> Result<(), OutOfMemory>
    ensures appended { OnOk result (HasMore changes.old.items changes.new.items (replaced_members key (map words_member from.now) (map words_member to.now))) }
{
    append_leaves(changes, key, from)?;
    append_joins(changes, key, to)
}

pub(crate) fn append_members_changes<'a, A: Allocator, B: Allocator, C: Allocator>(
    changes: &mut Vec<Command<&'a Program<B>>, C>,
    key: Endpoint,
    from: &[Member<Program<A>>],
    to: &'a [Member<Program<B>>],
) -> Result<(), OutOfMemory>
    ensures appended { OnOk result (HasMore changes.old.items changes.new.items (members_changes same_words key (map words_member from.now) (map words_member to.now))) }
{
    let shared = from.len().min(to.len());
    for at in 0..shared {
        let one = &from[at];
        let other = &to[at];
        if !can_stay(one, other) {
            return append_replaced_members(changes, key, &from[at..], &to[at..]);
        }
        append_member_changes(changes, key, one, other)?;
    }
    append_replaced_members(changes, key, &from[shared..], &to[shared..])
}
