//! Lines that ask for counts, sent to a switch, and the counts in their replies. A result is `None` if a reply has no counts, such as
//! a refusal.

ghost use Rattle.std.specs.Prelude.{◌≡◌, ◌∷◌, [], IfSome, MatchResult};
ghost use Rattle.control_rules.specs.Failing.{StopsAsking};
ghost use Rattle.control_rules.specs.Shown.{IsShownOf};
ghost use Rattle.control_counters.specs.Frame.{seat_of};
ghost use Rattle.control_counters.specs.Counts.{group_exchange, group_line, member_exchange, member_line, totals_exchange};
ghost use Rattle.control_counters.specs.Reading.{IsNamed};
ghost use Rattle.control_counters.specs.Watching.{IsWatchLine, Watches};

use crate::replies::{read_group_counts, read_member_counts, read_totals};
use control_client::Wire;
use control_line::Reply;
use control_rules::{AskFailure, Client, Shown, read_shown};
use counter_text::{GroupCount, MemberCount, Totals};
use ipv4_fields::Endpoint;

const SHOW: &[u8] = b"show";

const TOTALS: &[u8] = b"totals";

/// Asks for the measures of the configuration.
pub(crate) fn ask_measures<D: Wire + Drop>(
    client: &mut Client<D>,
) -> Result<Option<Shown>, AskFailure>
    ensures { MatchResult result
        (λ answer. Watches client.old client.new (λ history told. IfSome answer (λ shown. IsShownOf (history shown.version) shown × IsNamed told shown.version)))
        (λ failure. StopsAsking IsWatchLine failure client.old client.new) }
{
    let reply = client.ask(SHOW)?;
    Ok(read_shown(&reply))
}

/// Asks for the totals.
pub(crate) fn ask_totals<D: Wire + Drop>(
    client: &mut Client<D>,
) -> Result<Option<Totals>, AskFailure>
    ensures { MatchResult result
        (λ answer. Watches client.old client.new (λ history told. IfSome answer (λ totals. told ≡ totals_exchange totals ∷ [])))
        (λ failure. StopsAsking IsWatchLine failure client.old client.new) }
{
    let reply = client.ask(TOTALS)?;
    Ok(read_totals(&reply))
}

fn group_line(key: Endpoint) -> Reply
    ensures { result ≡ group_line key }
{
    let mut line = Reply::empty();
    line.push("totals ");
    key.append_to(&mut line);
    line
}

/// Asks for the counts of the group at a key.
pub(crate) fn ask_group_counts<D: Wire + Drop>(
    client: &mut Client<D>,
    key: Endpoint,
) -> Result<Option<GroupCount>, AskFailure>
    ensures { MatchResult result
        (λ answer. Watches client.old client.new (λ history told. IfSome answer (λ group. (group.key ≡ key) × (told ≡ group_exchange group ∷ []))))
        (λ failure. StopsAsking IsWatchLine failure client.old client.new) }
{
    let line = group_line(key);
    let reply = client.ask(line.bytes())?;
    Ok(read_group_counts(&reply, key))
}

fn member_line(key: Endpoint, id: u32) -> Reply
    ensures { result ≡ member_line key id }
{
    let mut line = Reply::empty();
    line.push("totals ");
    key.append_to(&mut line);
    line.push(" ");
    line.push_number(u64::from(id));
    line
}

/// Asks for the counts of a member.
pub(crate) fn ask_member_counts<D: Wire + Drop>(
    client: &mut Client<D>,
    member: MemberCount,
) -> Result<Option<MemberCount>, AskFailure>
    ensures { MatchResult result
        (λ answer. Watches client.old client.new (λ history told. IfSome answer (λ counts. (seat_of counts ≡ seat_of member) × (told ≡ member_exchange counts ∷ []))))
        (λ failure. StopsAsking IsWatchLine failure client.old client.new) }
{
    let line = member_line(member.key, member.id);
    let reply = client.ask(line.bytes())?;
    Ok(read_member_counts(&reply, member))
}
