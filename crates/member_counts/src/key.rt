//! The keys by which outcomes are counted (docs/SWITCH.md, "Counters by member").

ghost use Rattle.std.specs.Prelude.{◌≡◌};
ghost use Rattle.std.specs.List.{list_any};
ghost use Rattle.member_group.specs.Group.{has_id};
ghost use Rattle.member_counts.specs.Key.{group_has, has};

use ipv4_fields::Endpoint;
use member_group::Group;
use std::alloc::Global;

/// The key that outcomes are counted by: a group's key with a member's number, or without one if the group had no member.
#[derive(Clone, Copy, Debug, PartialEq, Eq, PartialOrd, Ord)]
pub struct CountKey {
    pub group: Endpoint,
    pub member: Option<u32>,
}

fn has_member(group: &Group<Global>, id: u32) -> bool
    ensures { result ≡ list_any (has_id id) group.now.members }
{
    group.members().iter().any(|member| member.id == id)
}

fn group_has(group: &Group<Global>, key: &CountKey) -> bool
    ensures { result ≡ group_has key.now group.now }
{
    if key.group != group.key() {
        return false;
    }
    match key.member {
        None => true,
        Some(id) => has_member(group, id),
    }
}

/// Tests whether one of a configuration's groups has the key.
pub fn has(groups: &[Group<Global>], key: &CountKey) -> bool
    ensures { result ≡ has groups.now key.now }
{
    groups.iter().any(|group| group_has(group, key))
}
