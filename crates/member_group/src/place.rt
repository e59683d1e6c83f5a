//! Finding a group by its key, and a member by its number.

ghost use Rattle.std.specs.Prelude.{◌≡◌, ◌≢◌, IfErr, IfNone, IfOk, IfSome};
ghost use Rattle.std.specs.List.{AllPairs};
ghost use Rattle.ipv4_fields.specs.Endpoint.{endpoint_number};
ghost use Rattle.member_group.specs.Group.{IsConfig, has_id, has_key};
ghost use Rattle.member_group.specs.Place.{IsGapFor, IsNowhere, IsOnlyAt};

use crate::group::Group;
use crate::member::Member;
use bpf_verify::Program;
use ipv4_fields::Endpoint;
use std::alloc::Allocator;

// Returns the place of a key's group or, if there is none, the place where it would be inserted.
pub(crate) fn place_of_key<A: Allocator>(groups: &[Group<A>], key: Endpoint) -> Result<usize, usize>
    requires config { IsConfig groups.now }
    ensures found { IfOk result (IsOnlyAt (has_key key) groups.now) }
    ensures absent { IfErr result (IsGapFor key groups.now) }
{
    let number = key.number();
    for at in 0..groups.len() {
        let other = groups[at].key().number();
        if other == number {
            return Ok(at);
        }
        if other > number {
            return Err(at);
        }
    }
    Err(groups.len())
}

// Returns the place of the member with a number.
pub(crate) fn place_of_member<A: Allocator>(
    members: &[Member<Program<A>>],
    id: u32,
) -> Option<usize>
    requires distinct { AllPairs (λ member other. member.id ≢ other.id) members.now }
    ensures found { IfSome result (IsOnlyAt (has_id id) members.now) }
    ensures absent { IfNone result (IsNowhere (has_id id) members.now) }
{
    for at in 0..members.len() {
        if members[at].id == id {
            return Some(at);
        }
    }
    None
}
