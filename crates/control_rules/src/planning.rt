//! The lines that drain a member, by the configuration of a switch.

ghost use Rattle.std.specs.Prelude.{◌≡◌, ◌∷◌, [], IfNone, IfOk, IfSome, None, Some, option_map, slice_get};
ghost use Rattle.std.specs.List.{find};
ghost use Rattle.bpf_verify.specs.Program.{ProgramValue};
ghost use Rattle.config_diff.specs.Words.{words_config};
ghost use Rattle.member_group.specs.Group.{group_of, has_id};
ghost use Rattle.member_group.specs.declared.command.Command.TheVariants.{Leave, SetSelector};
ghost use Rattle.member_group.specs.declared.member.Member.{Member as MemberValue};
ghost use Rattle.control_rules.specs.Text.{changes_text};
ghost use Rattle.control_rules.specs.body.Draining.{IsGroupPlan, IsPlan, group_words};

use crate::change_text;
use crate::drain_refusal::DrainRefusal;
use bpf_verify::{OutOfMemory, Program};
use ipv4_fields::Endpoint;
use member_group::{Command, Config, Group, Member, Refusal};
use selector_buckets::{can_drain, drained, selector, table_of_program};
use std::alloc::Global;

/// The plan for a member that should be drained.
#[derive(Drop)]
pub(crate) enum Plan {
    /// These lines are sent.
    Lines(Vec<u8>),
    /// Nothing is.
    Refused(DrainRefusal),
}

fn group_at(groups: &[Group<Global>], key: Endpoint) -> Option<&Group<Global>>
    ensures found { option_map (λ group. group.now) result ≡ group_of key groups.now }
{
    let number = key.number();
    for group in groups {
        if group.key().number() == number {
            return Some(group);
        }
    }
    None
}

fn index_of(members: &[Member<Program<Global>>], id: u32) -> Option<usize>
    ensures found { IfSome result (λ index. (member : MemberValue ProgramValue) × (slice_get members.now index ≡ Some member) × (member.id ≡ id)) }
    ensures none { IfNone result (find (has_id id) members.now ≡ None) }
{
    for index in 0..members.len() {
        if members[index].id == id {
            return Some(index);
        }
    }
    None
}

// The lines of a selector and of a leave.
fn lines_of(
    alloc: Global,
    key: Endpoint,
    id: u32,
    program: &Program<Global>,
) -> Result<Vec<u8>, OutOfMemory>
    ensures { IfOk result (λ text. text.items ≡ changes_text (SetSelector key program.now.words ∷ Leave key id ∷ [])) }
{
    let select = Command::SetSelector { key, program };
    let leave = Command::Leave { key, member: id };
    change_text::changes_text(alloc, &[select, leave])
}

// The plan for the member at an index of a group.
fn plan_in_group(
    alloc: Global,
    group: &Group<Global>,
    index: usize,
    key: Endpoint,
    id: u32,
) -> Result<Plan, OutOfMemory>
    ensures { IfOk result (IsGroupPlan (group_words group.now) index key id) }
{
    let Some(program) = group.selector() else {
        return Ok(Plan::Refused(DrainRefusal::NotSpread));
    };
    let Some((by, buckets)) = table_of_program(alloc, program.words())? else {
        return Ok(Plan::Refused(DrainRefusal::NotSpread));
    };
    let count = group.members().len();
    if !can_drain(&buckets, index, count) {
        return Ok(Plan::Refused(DrainRefusal::NotSpread));
    }
    let rest = drained(alloc, &buckets, index, count)?;
    let program = selector(alloc, by, &rest)?;
    Ok(Plan::Lines(lines_of(alloc, key, id, &program)?))
}

/// Plans how the member of a number is drained.
pub(crate) fn planned(
    alloc: Global,
    config: &Config,
    key: Endpoint,
    id: u32,
) -> Result<Plan, OutOfMemory>
    ensures { IfOk result (IsPlan (words_config config.now) key id) }
{
    let Some(group) = group_at(config.groups(), key) else {
        return Ok(Plan::Refused(DrainRefusal::Unknown(Refusal::NoGroup)));
    };
    let Some(index) = index_of(group.members(), id) else {
        return Ok(Plan::Refused(DrainRefusal::Unknown(Refusal::NoMember)));
    };
    plan_in_group(alloc, group, index, key, id)
}
