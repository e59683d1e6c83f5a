//! The diff of two configurations: the commands that lead from one to the other, applied one after another (docs/SWITCH.md,
//! "Groups, members, commands and refusals").
//!
//! Its clauses see each program by its words. The definitions are in `specs/`: `LeadTo` says when commands lead to a configuration, and
//! `commands_of` are the rules that a rules file has for one.
#![tactic(auto)]

ghost use Rattle.std.specs.Prelude.{◌≡◌, IfOk, []};
ghost use Rattle.config_diff.specs.Lead.{LeadTo};
ghost use Rattle.config_diff.specs.Rules.{RulesLeadToTheirConfig, commands_of};
ghost use Rattle.config_diff.specs.Untouched.{LeaveEqualBeginnings, LeaveEqualGroups};
ghost use Rattle.config_diff.specs.Words.{words_config, words_of_commands};

mod appending;
mod groups;
mod members;
mod programs;

use bpf_verify::{OutOfMemory, Program};
use groups::{append_group_changes, append_removal};
use member_group::{Command, Config};
use std::alloc::Allocator;

/// Returns the commands that lead from `from` to `to`. None of them is refused, and the members are in the order of `to` at the end.
///
/// First the groups that `to` lacks are removed. Then, in rising order of key, each group of `to` is added or changed. A member
/// stays if it has the number and endpoint of the one wanted at its index, and is not locked, or is to stay locked with the same
/// filter. From the first member of a group that cannot stay on, all leave, the last one first, and those wanted join.
///
/// Two programs of the same words are the same program, also if their charges differ. The commands borrow the programs of `to`: only
/// the list takes memory, from `alloc`. Apply the commands as one change, since a configuration on the way may have a greater charge
/// than both ends.
pub fn diff<'a, A: Allocator, B: Allocator, C: Allocator>(
    alloc: C,
    from: &Config<A>,
    to: &'a Config<B>,
) -> Result<Vec<Command<&'a Program<B>>, C>, OutOfMemory>
    ensures leads { IfOk result (λ changes. LeadTo (words_of_commands changes.items) (words_config from.now) (words_config to.now)) }
    ensures nothing_of_equal { words_config from.now ≡ words_config to.now → IfOk result (λ changes. changes.items ≡ []) }
    ensures equal_groups { IfOk result (λ changes. LeaveEqualGroups (words_of_commands changes.items) (words_config from.now) (words_config to.now)) }
    ensures equal_beginnings { IfOk result (λ changes. LeaveEqualBeginnings (words_of_commands changes.items) (words_config from.now) (words_config to.now)) }
    ensures of_nothing { from.now ≡ [] → IfOk result (λ changes. words_of_commands changes.items ≡ commands_of (words_config to.now)) }
{
    let there = from.groups();
    let wanted = to.groups();
    let mut changes = Vec::new(alloc);
    for group in there {
        append_removal(&mut changes, group, wanted)?;
    }
    for group in wanted {
        append_group_changes(&mut changes, there, group)?;
    }
    Ok(changes)
}

/// Law: the rules of a configuration lead from the empty configuration to it. It runs nothing.
#[tactic(auto, using(crate::proofs::ChangesLemmas::config_rules_lead))]
pub fn rules_lead()
    ensures { RulesLeadToTheirConfig }
{}
