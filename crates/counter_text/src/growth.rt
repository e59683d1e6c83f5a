//! The growth of counts between two readings, and its rate a second (docs/COMMANDS.md, "top").

ghost use Rattle.std.specs.Prelude.{◌≡◌, ◌≤◌, ◌<◌, ◌^◌};
ghost use Rattle.counter_text.specs.Growth.{bytes_growth, group_again, group_before, group_growth, grown, member_again, member_before, member_growth, rate, share, totals_again, totals_grown};

use crate::counters::{GroupCount, MemberCount, Totals};

/// The packets of a group or a member between two readings.
#[derive(Clone, Copy)]
pub(crate) struct Growth {
    pub(crate) packets: u128,
    /// How many of the packets were not delivered.
    pub(crate) dropped: u128,
    /// How many of those delivered could not be sent.
    pub(crate) failed: u64,
}

fn grown(again: bool, earlier: u64, later: u64) -> u64
    ensures { result ≡ grown again earlier later }
{
    if again {
        later
    } else {
        later.saturating_sub(earlier)
    }
}

/// Tests whether a total fell, so that all of them began again.
pub fn totals_again(earlier: Totals, later: Totals) -> bool
    ensures { result ≡ totals_again earlier later }
{
    later.malformed < earlier.malformed
        || later.nogroup < earlier.nogroup
        || later.nomembers < earlier.nomembers
        || later.dropped < earlier.dropped
        || later.delivered < earlier.delivered
        || later.sendfailed < earlier.sendfailed
        || later.receivefailed < earlier.receivefailed
}

pub(crate) fn totals_grown(earlier: Totals, later: Totals) -> Totals
    ensures { result ≡ totals_grown earlier later }
{
    let again = totals_again(earlier, later);
    Totals {
        malformed: grown(again, earlier.malformed, later.malformed),
        nogroup: grown(again, earlier.nogroup, later.nogroup),
        nomembers: grown(again, earlier.nomembers, later.nomembers),
        dropped: grown(again, earlier.dropped, later.dropped),
        delivered: grown(again, earlier.delivered, later.delivered),
        sendfailed: grown(again, earlier.sendfailed, later.sendfailed),
        receivefailed: grown(again, earlier.receivefailed, later.receivefailed),
    }
}

/// Returns the earlier counts of the same group. A group that was not there may have counts of an earlier time, so it has not grown.
pub(crate) fn group_before(before: &[GroupCount], later: GroupCount) -> GroupCount
    ensures { result ≡ group_before before.now later }
{
    let mut left = before;
    while let [one, rest @ ..] = left {
        if one.key == later.key {
            return *one;
        }
        left = rest;
    }
    later
}

fn group_again(earlier: GroupCount, later: GroupCount) -> bool
    ensures { result ≡ group_again earlier later }
{
    later.delivered < earlier.delivered
        || later.dropped < earlier.dropped
        || later.nomembers < earlier.nomembers
        || later.sendfailed < earlier.sendfailed
}

pub(crate) fn group_growth(earlier: GroupCount, later: GroupCount) -> Growth
    ensures growth { result ≡ group_growth earlier later }
    ensures small { result.packets < 2 ^ 66 }
    ensures dropped { result.dropped ≤ result.packets }
{
    let again = group_again(earlier, later);
    let delivered = u128::from(grown(again, earlier.delivered, later.delivered));
    let dropped = u128::from(grown(again, earlier.dropped, later.dropped));
    let nomembers = u128::from(grown(again, earlier.nomembers, later.nomembers));
    let lost = dropped + nomembers;
    Growth {
        packets: delivered + lost,
        dropped: lost,
        failed: grown(again, earlier.sendfailed, later.sendfailed),
    }
}

/// Returns the earlier counts of the same member. A member that was not there has not grown, either.
pub(crate) fn member_before(before: &[MemberCount], later: MemberCount) -> MemberCount
    ensures { result ≡ member_before before.now later }
{
    let mut left = before;
    while let [one, rest @ ..] = left {
        if one.key == later.key && one.id == later.id {
            return *one;
        }
        left = rest;
    }
    later
}

fn member_again(earlier: MemberCount, later: MemberCount) -> bool
    ensures { result ≡ member_again earlier later }
{
    later.delivered < earlier.delivered
        || later.dropped < earlier.dropped
        || later.sendfailed < earlier.sendfailed
        || later.bytes < earlier.bytes
}

pub(crate) fn member_growth(earlier: MemberCount, later: MemberCount) -> Growth
    ensures growth { result ≡ member_growth earlier later }
    ensures small { result.packets < 2 ^ 66 }
    ensures dropped { result.dropped ≤ result.packets }
{
    let again = member_again(earlier, later);
    let delivered = u128::from(grown(again, earlier.delivered, later.delivered));
    let lost = u128::from(grown(again, earlier.dropped, later.dropped));
    Growth {
        packets: delivered + lost,
        dropped: lost,
        failed: grown(again, earlier.sendfailed, later.sendfailed),
    }
}

/// Returns by how much the bytes of a member grew.
pub(crate) fn bytes_growth(earlier: MemberCount, later: MemberCount) -> u64
    ensures { result ≡ bytes_growth earlier later }
{
    grown(member_again(earlier, later), earlier.bytes, later.bytes)
}

/// Returns the rate a second of a growth in `millis` milliseconds, rounded down.
pub(crate) fn rate(growth: u128, millis: u32) -> u128
    requires { 1000 ≤ millis }
    ensures rate { result ≡ rate growth millis }
    ensures within { result ≤ growth }
{
    let millis = u128::from(millis);
    growth / millis * 1000 + growth % millis * 1000 / millis
}

/// Returns a part of a whole in tenths of a percent, rounded down, and never above 100 percent.
pub(crate) fn share(part: u128, whole: u128) -> u128
    requires { part < 2 ^ 66 }
    ensures { result ≡ share part whole }
{
    if whole == 0 {
        return 0;
    }
    (part * 1000 / whole).min(1000)
}
