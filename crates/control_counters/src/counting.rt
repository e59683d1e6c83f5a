//! The counts of known groups and members.

ghost use Rattle.std.specs.Prelude.{◌≡◌, IfSome, MatchResult, map};
ghost use Rattle.control_rules.specs.Failing.{StopsAsking};
ghost use Rattle.control_counters.specs.Frame.{keys_of, seats_of};
ghost use Rattle.control_counters.specs.Counts.{count_exchanges, group_exchange, member_exchange};
ghost use Rattle.control_counters.specs.Watching.{IsWatchLine, Watches};
ghost use Rattle.control_counters.specs.body.Framed.{HasFrameOf};

use crate::asking::{ask_group_counts, ask_member_counts, ask_totals};
use crate::rows::push_row;
use control_client::Wire;
use control_rules::{AskFailure, Client};
use counter_text::{Counters, GroupCount, MemberCount};

fn count_groups<D: Wire + Drop>(
    client: &mut Client<D>,
    known: &[GroupCount],
) -> Result<Option<Vec<GroupCount>>, AskFailure>
    ensures { MatchResult result
        (λ answer. Watches client.old client.new (λ history told. IfSome answer (λ groups.
        (keys_of groups.items ≡ keys_of known.now) × (told ≡ map group_exchange groups.items))))
        (λ failure. StopsAsking IsWatchLine failure client.old client.new) }
{
    let mut groups = Vec::new(client.allocator());
    for group in known {
        let Some(counts) = ask_group_counts(client, group.key)? else {
            return Ok(None);
        };
        push_row(&mut groups, counts)?;
    }
    Ok(Some(groups))
}

fn count_members<D: Wire + Drop>(
    client: &mut Client<D>,
    known: &[MemberCount],
) -> Result<Option<Vec<MemberCount>>, AskFailure>
    ensures { MatchResult result
        (λ answer. Watches client.old client.new (λ history told. IfSome answer (λ members.
        (seats_of members.items ≡ seats_of known.now) × (told ≡ map member_exchange members.items))))
        (λ failure. StopsAsking IsWatchLine failure client.old client.new) }
{
    let mut members = Vec::new(client.allocator());
    for member in known {
        let Some(counts) = ask_member_counts(client, *member)? else {
            return Ok(None);
        };
        push_row(&mut members, counts)?;
    }
    Ok(Some(members))
}

/// Counts these groups and members anew. Returns `None` if a reply has no counts, for example because a group or member has gone.
pub(crate) fn counted<D: Wire + Drop>(
    client: &mut Client<D>,
    known: &Counters,
) -> Result<Option<Counters>, AskFailure>
    ensures { MatchResult result
        (λ answer. Watches client.old client.new (λ history told. IfSome answer (λ counters.
        HasFrameOf known.now counters × (told ≡ count_exchanges counters))))
        (λ failure. StopsAsking IsWatchLine failure client.old client.new) }
{
    let Some(totals) = ask_totals(client)? else {
        return Ok(None);
    };
    let Some(groups) = count_groups(client, &known.groups)? else {
        return Ok(None);
    };
    let Some(members) = count_members(client, &known.members)? else {
        return Ok(None);
    };
    Ok(Some(Counters {
        version: known.version,
        charge: known.charge,
        totals,
        groups,
        members,
    }))
}
