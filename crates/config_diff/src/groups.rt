//! The commands that lead from a group to another one of its key.

ghost use Rattle.std.specs.Prelude.{◌≡◌, ◌++◌, OnOk, map, option_map, option_to_list};
ghost use Rattle.member_group.specs.Group.{group_of};
ghost use Rattle.member_group.specs.declared.command.Command.TheVariants as command;
ghost use Rattle.config_diff.specs.Rules.{rules_of_group};
ghost use Rattle.config_diff.specs.Words.{words_config};
ghost use Rattle.config_diff.specs.body.Appended.{HasMore, words_group, words_program};
ghost use Rattle.config_diff.specs.body.Changes.{group_changes, removal, same_words, selector_changes};

use crate::appending::append;
use crate::members::{append_joins, append_members_changes};
use crate::programs::is_same_program;
use bpf_verify::{OutOfMemory, Program};
use ipv4_fields::Endpoint;
use member_group::{Command, Group};
use std::alloc::Allocator;

fn group_at<'a, A: Allocator>(groups: &'a [Group<A>], key: Endpoint) -> Option<&'a Group<A>>
    ensures found { option_map (λ group. group.now) result ≡ group_of key groups.now }
{
    let number = key.number();
    for group in groups {
        if group.key().number() == number {
            return Some(group);
        }
    }
    None
}

fn append_selector<'a, A: Allocator, B: Allocator, C: Allocator>(
    changes: &mut Vec<Command<&'a Program<B>>, C>,
    key: Endpoint,
    one: Option<&Program<A>>,
    other: Option<&'a Program<B>>,
) -> Result<(), OutOfMemory>
    ensures appended { OnOk result (HasMore changes.old.items changes.new.items (selector_changes same_words key (words_program one.entry) (words_program other.entry))) }
{
    if is_same_program(one, other) {
        return Ok(());
    }
    match other {
        Some(program) => append(changes, Command::SetSelector { key, program }),
        None => append(changes, Command::ClearSelector { key }),
    }
}

fn append_selector_rule<'a, B: Allocator, C: Allocator>(
    changes: &mut Vec<Command<&'a Program<B>>, C>,
    key: Endpoint,
    selector: Option<&'a Program<B>>,
) -> Result<(), OutOfMemory>
    ensures appended { OnOk result (HasMore changes.old.items changes.new.items (map (λ program. command.SetSelector key program) (option_to_list (words_program selector.entry)))) }
{
    match selector {
        Some(program) => append(changes, Command::SetSelector { key, program }),
        None => Ok(()),
    }
}

fn append_rules_of_group<'a, B: Allocator, C: Allocator>(
    changes: &mut Vec<Command<&'a Program<B>>, C>,
    group: &'a Group<B>,
) -> Result<(), OutOfMemory>
    ensures appended { OnOk result (HasMore changes.old.items changes.new.items (rules_of_group (words_group group.now))) }
{
    let key = group.key();
    append(changes, Command::AddGroup { key })?;
    append_selector_rule(changes, key, group.selector())?;
    append_joins(changes, key, group.members())
}

pub(crate) fn append_removal<'a, A: Allocator, B: Allocator, C: Allocator>(
    changes: &mut Vec<Command<&'a Program<B>>, C>,
    group: &Group<A>,
    to: &[Group<B>],
) -> Result<(), OutOfMemory>
    ensures appended { OnOk result (HasMore changes.old.items changes.new.items (removal (words_config to.now) (words_group group.now))) }
{
    let key = group.key();
    if group_at(to, key).is_some() {
        return Ok(());
    }
    append(changes, Command::RemoveGroup { key })
}

pub(crate) fn append_group_changes<'a, A: Allocator, B: Allocator, C: Allocator>(
    changes: &mut Vec<Command<&'a Program<B>>, C>,
    from: &[Group<A>],
    group: &'a Group<B>,
) -> Result<(), OutOfMemory>
    ensures appended { OnOk result (HasMore changes.old.items changes.new.items (group_changes same_words (group_of group.now.key (words_config from.now)) (words_group group.now))) }
{
    let key = group.key();
    let Some(one) = group_at(from, key) else {
        return append_rules_of_group(changes, group);
    };
    append_selector(changes, key, one.selector(), group.selector())?;
    append_members_changes(changes, key, one.members(), group.members())
}
