//! The counts of verdicts, and the texts of these counts (docs/SWITCH.md, "Counters by member").

ghost use Rattle.std.specs.Prelude.{◌+◌, ◌-◌, ◌≡◌, ◌^◌, Some};
ghost use Rattle.member_counts.specs.Counts.{capped, delivered_one, dropped_one, group_part, group_text, member_part, member_text, no_counts, plus};

use std::fmt;

/// The counts of one key, or of all keys that are gone. A count stays at 2^64 - 1 once it is there.
#[derive(Clone, Copy, Debug, PartialEq, Eq)]
pub struct Counts {
    /// Packets that were delivered.
    pub delivered: u64,
    /// Packets that a filter dropped.
    pub dropped: u64,
    /// Packets for a group without members.
    pub no_members: u64,
    /// Delivered packets whose send failed.
    pub send_failed: u64,
    /// The kept bytes of delivered packets.
    pub bytes: u64,
}

/// The counts of a member.
#[derive(Clone, Copy, Debug, PartialEq, Eq)]
pub struct MemberCounts {
    pub delivered: u64,
    pub dropped: u64,
    pub send_failed: u64,
    pub bytes: u64,
}

/// The counts of a group. They include those of members that left.
#[derive(Clone, Copy, Debug, PartialEq, Eq)]
pub struct GroupCounts {
    pub delivered: u64,
    pub dropped: u64,
    pub no_members: u64,
    pub send_failed: u64,
}

// The sum is stored before the test, so that it is added in memory by one instruction.
#[inline(always)]
fn add_capped(count: &mut u64, more: u64)
    ensures { count.new ≡ capped (count.old + more) }
{
    let (sum, is_over) = count.overflowing_add(more);
    *count = sum;
    if is_over {
        cap(count);
    }
}

#[cold]
#[inline(never)]
fn cap(count: &mut u64)
    ensures { count.new ≡ 2 ^ 64 - 1 }
{
    *count = u64::MAX;
}

impl Counts {
    /// Returns the counts of nothing.
    pub fn none() -> Counts
        ensures { result ≡ no_counts }
    {
        Counts {
            delivered: 0,
            dropped: 0,
            no_members: 0,
            send_failed: 0,
            bytes: 0,
        }
    }

    /// Returns the sums of two counts, each at most 2^64 - 1.
    pub fn plus(self, other: Counts) -> Counts
        ensures { result ≡ plus self other }
    {
        Counts {
            delivered: self.delivered.saturating_add(other.delivered),
            dropped: self.dropped.saturating_add(other.dropped),
            no_members: self.no_members.saturating_add(other.no_members),
            send_failed: self.send_failed.saturating_add(other.send_failed),
            bytes: self.bytes.saturating_add(other.bytes),
        }
    }

    // Adds other counts in place, each sum at most 2^64 - 1. It is inlined always, so that no zero is added.
    #[inline(always)]
    pub(crate) fn add(&mut self, other: &Counts)
        ensures { self.new ≡ plus self.old other.now }
    {
        add_capped(&mut self.delivered, other.delivered);
        add_capped(&mut self.dropped, other.dropped);
        add_capped(&mut self.no_members, other.no_members);
        add_capped(&mut self.send_failed, other.send_failed);
        add_capped(&mut self.bytes, other.bytes);
    }

    /// Returns the counts that a member has.
    pub fn member_part(self) -> MemberCounts
        ensures { result ≡ member_part self }
    {
        MemberCounts {
            delivered: self.delivered,
            dropped: self.dropped,
            send_failed: self.send_failed,
            bytes: self.bytes,
        }
    }

    /// Returns the counts that a group has.
    pub fn group_part(self) -> GroupCounts
        ensures { result ≡ group_part self }
    {
        GroupCounts {
            delivered: self.delivered,
            dropped: self.dropped,
            no_members: self.no_members,
            send_failed: self.send_failed,
        }
    }
}

// The counts of one delivered packet.
pub(crate) fn one_delivered(bytes: usize) -> Counts
    ensures counts { result ≡ delivered_one bytes }
    ensures bounded { plus no_counts result ≡ result }
{
    Counts {
        delivered: 1,
        bytes: bytes as u64,
        ..Counts::none()
    }
}

pub(crate) fn one_dropped() -> Counts
    ensures { result ≡ dropped_one }
{
    Counts {
        dropped: 1,
        ..Counts::none()
    }
}

/// Writes `delivered D dropped R sendfailed S bytes B`.
impl fmt::Display for MemberCounts {
    ghost output = { λ counts. Some (member_text counts) };

    fn fmt<W: fmt::Write>(&self, f: &mut fmt::Formatter<W>) -> fmt::Result {
        let MemberCounts {
            delivered,
            dropped,
            send_failed,
            bytes,
        } = *self;
        write!(
            f,
            "delivered {delivered} dropped {dropped} sendfailed {send_failed} bytes {bytes}"
        )
    }
}

/// Writes `delivered D dropped R nomembers X sendfailed S`.
impl fmt::Display for GroupCounts {
    ghost output = { λ counts. Some (group_text counts) };

    fn fmt<W: fmt::Write>(&self, f: &mut fmt::Formatter<W>) -> fmt::Result {
        let GroupCounts {
            delivered,
            dropped,
            no_members,
            send_failed,
        } = *self;
        write!(
            f,
            "delivered {delivered} dropped {dropped} nomembers {no_members} sendfailed {send_failed}"
        )
    }
}
