//! Members of a group, and copies of them.

ghost use Rattle.std.specs.Prelude.{◌≡◌, ◌<◌, ◌++◌, IfOk, OnOk, length, slice_set};
ghost use Rattle.member_group.specs.Place.{last_in_gap};

use bpf_verify::{OutOfMemory, Program};
use ipv4_fields::Endpoint;
use std::alloc::Allocator;

/// A member of a group: its number, which no other member of the group has; the endpoint to which its packets are sent;
/// its filter, if it has one; and whether it is locked, so that no command changes or clears its filter.
#[derive(Drop)]
pub struct Member<P> {
    pub id: u32,
    pub to: Endpoint,
    pub filter: Option<P>,
    pub locked: bool,
}

pub(crate) fn copy_program<A: Allocator + Clone>(
    program: &Option<Program<A>>,
    alloc: &A,
) -> Result<Option<Program<A>>, OutOfMemory>
    ensures copied { IfOk result (λ copy. copy ≡ program.now) }
{
    match program {
        Some(program) => Ok(Some(program.clone_in(alloc.clone()?)?)),
        None => Ok(None),
    }
}

pub(crate) fn copy_member<A: Allocator + Clone>(
    member: &Member<Program<A>>,
    alloc: &A,
) -> Result<Member<Program<A>>, OutOfMemory>
    ensures copied { IfOk result (λ copy. copy ≡ member.now) }
{
    Ok(Member {
        id: member.id,
        to: member.to,
        filter: copy_program(&member.filter, alloc)?,
        locked: member.locked,
    })
}

pub(crate) fn append_members<A: Allocator + Clone>(
    to: &mut Vec<Member<Program<A>>, A>,
    from: &[Member<Program<A>>],
) -> Result<(), OutOfMemory>
    ensures appended { OnOk result (to.new.items ≡ to.old.items ++ from.now) }
{
    for member in from {
        let copy = copy_member(member, to.allocator())?;
        to.push(copy)?;
    }
    Ok(())
}

// Appends all members except the one at a place, with the last of them in the gap.
pub(crate) fn append_with_last_in_gap<A: Allocator + Clone>(
    to: &mut Vec<Member<Program<A>>, A>,
    from: &[Member<Program<A>>],
    at: usize,
) -> Result<(), OutOfMemory>
    requires inside { at < length from.now }
    ensures appended { OnOk result (to.new.items ≡ to.old.items ++ last_in_gap at from.now) }
{
    let last = from.len() - 1;
    append_members(to, &from[..at])?;
    if at >= last {
        return Ok(());
    }
    append_members(to, &from[last..])?;
    append_members(to, &from[at + 1..last])
}

// Appends all members, with another one at a place.
pub(crate) fn append_with_member_at<A: Allocator + Clone>(
    to: &mut Vec<Member<Program<A>>, A>,
    from: &[Member<Program<A>>],
    at: usize,
    member: Member<Program<A>>,
) -> Result<(), OutOfMemory>
    requires inside { at < length from.now }
    ensures appended { OnOk result (to.new.items ≡ to.old.items ++ slice_set from.now at member) }
{
    append_members(to, &from[..at])?;
    to.push(member)?;
    append_members(to, &from[at + 1..])?;
    Ok(())
}
