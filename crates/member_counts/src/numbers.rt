//! The member and the group of a key as two numbers, so that two keys are compared by two comparisons.

ghost use Rattle.std.specs.Prelude.{◌≡◌, ◌==◌, ◌&&◌, ◌<◌, ◌^◌};
ghost use Rattle.member_counts.specs.body.Runs.{group_number, number_of};

use ipv4_fields::Endpoint;

// The number of no member. A member's number has 32 bits.
pub(crate) const NO_MEMBER: u64 = 1 << 32;

// The member's number, in one comparison with another one.
pub(crate) fn number_of(member: Option<u32>) -> u64
    ensures { result ≡ number_of member }
{
    match member {
        None => NO_MEMBER,
        Some(number) => number as u64,
    }
}

// The group's key, in one comparison with another one. Both fields lie in the packet's verdict as one word of 64 bits, of which 16 are not
// used: the processor gets this number by one shift.
#[inline(always)]
pub(crate) fn group_number(group: &Endpoint) -> u64
    ensures number { result ≡ group_number group.now }
    ensures fits { group.now.address < 2 ^ 32 }
{
    u64::from(group.port) * 0x1_0000_0000_0000 + u64::from(group.address) * 0x1_0000
}

// Tests whether these are the numbers of the member's key.
#[inline(always)]
pub(crate) fn has_numbers(last_member: u64, last_group: u64, group: &Endpoint, member: u32) -> bool
    ensures same { result ≡ (last_member == member) && (last_group == group_number group.now) }
    ensures fits { group.now.address < 2 ^ 32 }
    ensures below { member < 2 ^ 32 }
{
    let number = group_number(group);
    last_member == member as u64 && last_group == number
}
