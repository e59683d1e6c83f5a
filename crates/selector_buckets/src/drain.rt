//! The table after a member has left (docs/COMMANDS.md, "drain").

ghost use Rattle.std.specs.Prelude.{◌≡◌, ◌-◌, ◌<◌, ◌≤◌, ◌↔◌, IfOk, IsTrue, length, map};
ghost use Rattle.selector_buckets.specs.Drained.{AllAreTaken, CanDrain, GoToTheFewest, OthersStay, SharesGrow, drained, fewer, fewest, first_other, handed_over, index_after};
ghost use Rattle.selector_buckets.specs.Shares.{HasMembersOnly, share_of};

use crate::MEMBER_LIMIT;
use crate::buckets::Buckets;
use bpf_verify::OutOfMemory;
use std::alloc::{AllocError, Global};

/// Tests whether the member at index `gone` of `count` members can hand over its buckets: there are others, at most `MEMBER_LIMIT` in
/// all, and each bucket is a member's.
pub fn can_drain(buckets: &Buckets, gone: usize, count: usize) -> bool
    ensures { IsTrue result ↔ CanDrain count gone buckets.now.members }
{
    2 <= count
        && gone < count
        && count <= MEMBER_LIMIT
        && has_members_only(buckets.members(), count)
}

fn has_members_only(members: &[u8], count: usize) -> bool
    ensures { IsTrue result ↔ HasMembersOnly count members.now }
{
    for bucket in 0..members.len() {
        if members[bucket] as usize >= count {
            return false;
        }
    }
    true
}

/// Makes the table after the member at index `gone` of `count` members has left.
///
/// Its buckets go, one after the other, to the member that has fewest at that moment, of several to the first. Then the last member
/// has the index `gone`, as after `leave`. `can_drain` tests what is required. Fails if an allocation is refused.
pub fn drained(
    alloc: Global,
    buckets: &Buckets,
    gone: usize,
    count: usize,
) -> Result<Buckets, OutOfMemory>
    requires { CanDrain count gone buckets.now.members }
    ensures others_stay { IfOk result (λ made. OthersStay count gone buckets.now.members made.members) }
    ensures all_taken { IfOk result (λ made. AllAreTaken count gone buckets.now.members made.members) }
    ensures members_only { IfOk result (λ made. HasMembersOnly (count - 1) made.members) }
    ensures shares_grow { IfOk result (λ made. SharesGrow count gone buckets.now.members made.members) }
    ensures to_the_fewest { IfOk result (λ made. GoToTheFewest count gone buckets.now.members made.members) }
    ensures table { IfOk result (λ made. made ≡ record { depth = buckets.now.depth; members = drained count gone buckets.now.members }) }
{
    let (gone, count) = (gone as u8, count as u8);
    let handed = handed_over(alloc, buckets.members(), gone, count)?;
    let members = renumbered(alloc, &handed, gone, count)?;
    Ok(Buckets::new(buckets.depth(), members))
}

// Returns the number of buckets of a member.
fn share(members: &[u8], member: u8) -> usize
    ensures { result ≡ share_of members.now member }
{
    let mut share = 0;
    for other in members {
        if *other == member {
            share += 1;
        }
    }
    share
}

// Returns the one of two members that has fewer buckets.
fn fewer(members: &[u8], gone: u8, taker: u8, other: u8) -> u8
    ensures { result ≡ fewer members.now gone taker other }
{
    if other != gone && share(members, other) < share(members, taker) {
        other
    } else {
        taker
    }
}

fn first_other(gone: u8) -> u8
    ensures { result ≡ first_other gone }
{
    if gone == 0 { 1 } else { 0 }
}

// Returns the member that has fewest buckets, without the one that leaves.
fn fewest(members: &[u8], gone: u8, count: u8) -> u8
    ensures { result ≡ fewest members.now gone count }
{
    let mut taker = first_other(gone);
    for other in 0..count {
        taker = fewer(members, gone, taker, other);
    }
    taker
}

fn hand_over(members: &mut [u8], gone: u8, count: u8)
    ensures { members.new ≡ handed_over count gone (length members.old) members.old }
{
    for bucket in 0..members.len() {
        if members[bucket] == gone {
            members[bucket] = fewest(members, gone, count);
        }
    }
}

// The table whose buckets of the one that leaves were handed over.
fn handed_over(alloc: Global, members: &[u8], gone: u8, count: u8) -> Result<Vec<u8>, AllocError>
    ensures { IfOk result (λ made. made.items ≡ handed_over count gone (length members.now) members.now) }
{
    let mut made = Vec::from_slice(alloc, members)?;
    hand_over(&mut made, gone, count);
    Ok(made)
}

fn index_after(member: u8, gone: u8, count: u8) -> u8
    requires { 0 < count }
    ensures { result ≡ index_after count gone member }
{
    if member == count - 1 { gone } else { member }
}

fn renumbered(alloc: Global, members: &[u8], gone: u8, count: u8) -> Result<Vec<u8>, AllocError>
    requires { 0 < count }
    ensures { IfOk result (λ made. made.items ≡ map (index_after count gone) members.now) }
{
    members
        .iter()
        .map(|member| index_after(*member, gone, count))
        .collect(alloc)
}
