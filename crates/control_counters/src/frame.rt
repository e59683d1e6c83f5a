//! The groups and members of a switch, read without their counts.

ghost use Rattle.std.specs.Prelude.{◌≡◌, IfSome, IsTrue, MatchResult};
ghost use Rattle.ipv4_fields.specs.Endpoint.{IsEndpoint};
ghost use Rattle.control_rules.specs.Failing.{StopsAsking};
ghost use Rattle.control_rules.specs.History.{IsReadLine, Learns};
ghost use Rattle.control_rules.specs.Shown.{IsShownOf};
ghost use Rattle.control_counters.specs.Frame.{IsFrameOf};
ghost use Rattle.control_counters.specs.body.Framed.{AddsFirstGroups, AddsGroup, AddsSeats};

use crate::rows::push_row;
use control_client::Wire;
use control_rules::{AskFailure, Client, Shown, ask_group, ask_member};
use counter_text::{Counters, GroupCount, MemberCount, Totals};
use ipv4_fields::Endpoint;

// Adds the members of a group. Returns false if a reply is of another version, or shows no member.
fn push_seats<D: Wire + Drop>(
    client: &mut Client<D>,
    version: u64,
    key: Endpoint,
    members: u32,
    rows: &mut Vec<MemberCount>,
) -> Result<bool, AskFailure>
    requires { IsEndpoint key }
    ensures { MatchResult result
        (λ done. Learns client.old client.new (λ history.
        IsTrue done → AddsSeats (history version) key members rows.old.items rows.new.items))
        (λ failure. StopsAsking IsReadLine failure client.old client.new) }
{
    for index in 0..members {
        let Some(shown) = ask_member(client, key, index)? else {
            return Ok(false);
        };
        if shown.version != version {
            return Ok(false);
        }
        let row = MemberCount {
            key,
            id: shown.id,
            to: shown.to,
            delivered: 0,
            dropped: 0,
            sendfailed: 0,
            bytes: 0,
        };
        push_row(rows, row)?;
    }
    Ok(true)
}

// Adds a group with its members. Returns false if a reply is of another version, or shows no group or member.
fn push_group<D: Wire + Drop>(
    client: &mut Client<D>,
    version: u64,
    index: u32,
    groups: &mut Vec<GroupCount>,
    members: &mut Vec<MemberCount>,
) -> Result<bool, AskFailure>
    ensures { MatchResult result
        (λ done. Learns client.old client.new (λ history. IsTrue done →
        AddsGroup (history version) index groups.old.items groups.new.items members.old.items members.new.items))
        (λ failure. StopsAsking IsReadLine failure client.old client.new) }
{
    let Some(shown) = ask_group(client, index)? else {
        return Ok(false);
    };
    if shown.version != version {
        return Ok(false);
    }
    let row = GroupCount {
        key: shown.key,
        delivered: 0,
        dropped: 0,
        nomembers: 0,
        sendfailed: 0,
    };
    push_row(groups, row)?;
    push_seats(client, version, shown.key, shown.members, members)
}

// Adds the groups with their members.
fn push_groups<D: Wire + Drop>(
    client: &mut Client<D>,
    shown: Shown,
    groups: &mut Vec<GroupCount>,
    members: &mut Vec<MemberCount>,
) -> Result<bool, AskFailure>
    ensures { MatchResult result
        (λ done. Learns client.old client.new (λ history. IsTrue done →
        AddsFirstGroups (history shown.version) shown.groups groups.old.items groups.new.items members.old.items members.new.items))
        (λ failure. StopsAsking IsReadLine failure client.old client.new) }
{
    for index in 0..shown.groups {
        if !push_group(client, shown.version, index, groups, members)? {
            return Ok(false);
        }
    }
    Ok(true)
}

/// Reads the groups and members of the version that was shown. Returns `None` if the rules changed meanwhile.
pub(crate) fn read_frame<D: Wire + Drop>(
    client: &mut Client<D>,
    shown: Shown,
) -> Result<Option<Counters>, AskFailure>
    ensures { MatchResult result
        (λ answer. Learns client.old client.new (λ history. IsShownOf (history shown.version) shown →
        IfSome answer (λ frame. (frame.version ≡ shown.version) × IsFrameOf (history frame.version) frame)))
        (λ failure. StopsAsking IsReadLine failure client.old client.new) }
{
    let mut groups = Vec::new(client.allocator());
    let mut members = Vec::new(client.allocator());
    if !push_groups(client, shown, &mut groups, &mut members)? {
        return Ok(None);
    }
    Ok(Some(Counters {
        version: shown.version,
        charge: shown.charge,
        totals: Totals {
            malformed: 0,
            nogroup: 0,
            nomembers: 0,
            dropped: 0,
            delivered: 0,
            sendfailed: 0,
            receivefailed: 0,
        },
        groups,
        members,
    }))
}
