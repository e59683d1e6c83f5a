//! Lines that read, sent to a switch, and what their replies show. A result is `None` if a reply shows nothing, such as a refusal.

ghost use Rattle.std.specs.Prelude.{◌≡◌, ◌≤◌, ◌<◌, ◌++◌, ◌^◌, IfSome, MatchResult, codes, length, take};
ghost use Rattle.ipv4_fields.specs.Endpoint.{IsEndpoint};
ghost use Rattle.control_line.specs.Request.{Spells, read};
ghost use Rattle.control_line.specs.Reading.{group_at, member_at};
ghost use Rattle.control_rules.specs.Failing.{StopsAsking};
ghost use Rattle.control_rules.specs.History.{IsReadLine, Learns};
ghost use Rattle.control_rules.specs.Shown.{AreWordsAt, IsGroupAt, IsMemberAt, IsShownOf};
ghost use Rattle.control_rules.specs.body.Lines.{owner_text, words_reading};

use crate::ask_failure::AskFailure;
use crate::client::Client;
use crate::replies::{
    GroupShown, MemberShown, Shown, WordsShown, read_group, read_member, read_shown, read_words,
};
use control_client::Wire;
use control_line::Reply;
use ipv4_fields::Endpoint;

const SHOW: &[u8] = b"show";

/// Asks for the measures of the configuration.
pub(crate) fn ask_shown<D: Wire + Drop>(client: &mut Client<D>) -> Result<Option<Shown>, AskFailure>
    ensures { MatchResult result
        (λ answer. Learns client.old client.new (λ history. IfSome answer (λ shown. IsShownOf (history shown.version) shown)))
        (λ failure. StopsAsking IsReadLine failure client.old client.new) }
{
    let reply = client.ask(SHOW)?;
    Ok(read_shown(&reply))
}

fn group_line(index: u32) -> Reply
    ensures { Spells result (read (group_at index)) }
{
    let mut line = Reply::empty();
    line.push("group ");
    line.push_number(u64::from(index));
    line
}

/// Asks for the group at a place.
pub fn ask_group<D: Wire + Drop>(
    client: &mut Client<D>,
    index: u32,
) -> Result<Option<GroupShown>, AskFailure>
    ensures { MatchResult result
        (λ answer. Learns client.old client.new (λ history. IfSome answer (λ shown. IsGroupAt (history shown.version) index shown)))
        (λ failure. StopsAsking IsReadLine failure client.old client.new) }
{
    let line = group_line(index);
    let reply = client.ask(line.bytes())?;
    Ok(read_group(&reply))
}

fn member_line(key: Endpoint, index: u32) -> Reply
    requires { IsEndpoint key }
    ensures { Spells result (read (member_at key index)) }
{
    let mut line = Reply::empty();
    line.push("member ");
    key.append_to(&mut line);
    line.push(" ");
    line.push_number(u64::from(index));
    line
}

/// Asks for the member at an index of a group.
pub fn ask_member<D: Wire + Drop>(
    client: &mut Client<D>,
    key: Endpoint,
    index: u32,
) -> Result<Option<MemberShown>, AskFailure>
    requires { IsEndpoint key }
    ensures { MatchResult result
        (λ answer. Learns client.old client.new (λ history. IfSome answer (λ shown. IsMemberAt (history shown.version) key index shown)))
        (λ failure. StopsAsking IsReadLine failure client.old client.new) }
{
    let line = member_line(key, index);
    let reply = client.ask(line.bytes())?;
    Ok(read_member(&reply))
}

// Appends the field that names the program: `selector`, or the number of the member.
fn push_owner(line: &mut Reply, owner: Option<u32>)
    requires { length line.old ≤ 64 }
    ensures text { line.new ≡ line.old ++ owner_text owner }
    ensures short { length line.new ≤ 96 }
{
    match owner {
        None => line.push("selector"),
        Some(member) => line.push_number(u64::from(member)),
    }
}

fn words_line(key: Endpoint, owner: Option<u32>, place: u32) -> Reply
    requires { IsEndpoint key }
    ensures { Spells result (read (words_reading key owner place)) }
{
    let mut line = Reply::empty();
    line.push("words ");
    key.append_to(&mut line);
    line.push(" ");
    push_owner(&mut line, owner);
    line.push(" ");
    line.push_number(u64::from(place));
    line
}

/// Asks for words of a group's selector, or of the filter of a member, from a place on.
pub(crate) fn ask_words<D: Wire + Drop>(
    client: &mut Client<D>,
    program: (Endpoint, Option<u32>),
    place: u32,
) -> Result<Option<WordsShown>, AskFailure>
    requires { IsEndpoint program.0 }
    ensures { MatchResult result
        (λ answer. Learns client.old client.new (λ history. IfSome answer (λ shown. AreWordsAt (history shown.version) program.0 program.1 place shown)))
        (λ failure. StopsAsking IsReadLine failure client.old client.new) }
{
    let line = words_line(program.0, program.1, place);
    let reply = client.ask(line.bytes())?;
    Ok(read_words(client.allocator(), &reply)?)
}
