//! Requests for the counters of a group or of a member, `totals KEY` and `totals KEY ID` (docs/COMMANDS.md, "serve").

ghost use Rattle.std.specs.Prelude.{◌≡◌, ◌≢◌, ◌≤◌, ◌+◌, ◌++◌, IfSome, MatchOption, Option, decimal, length};
ghost use Rattle.member_counts.specs.Counts.{group_text, member_text};
ghost use Rattle.member_counts.specs.Table.{Table, group_counts, member_counts};
ghost use Rattle.control_line.specs.declared.reply.TheConstants.{REPLY_LIMIT};
ghost use Rattle.serve_control.specs.Members.{IsAskable, IsCountsReply, Settles, SettlesBy, asked_text, names_text};

use control_line::{Reason, Reply, is_word};
use ipv4_fields::{Endpoint, read_number, split_at};
use member_counts::{CountKey, GroupCounts, MemberCounts, MemberTable, has};
use member_group::{Config, Refusal};
use read_section::Operator;

/// The counters by member.
pub trait MemberTotals {
    /// The table of the counters, if it is known.
    ghost table: { Self → Option Table };

    /// If too many pairs of a group and a member are kept, those that the configuration lacks go.
    fn settle(&mut self, config: &Config)
        ensures settled { SettlesBy config.now (table self.old) (table self.new) };

    /// Returns the counters of a group.
    fn group(&mut self, key: Endpoint) -> GroupCounts
        ensures kept { table self.new ≡ table self.old }
        ensures counts { IfSome (table self.old) (λ counts. result ≡ group_counts key counts) };

    /// Returns the counters of a member.
    fn member(&mut self, key: Endpoint, id: u32) -> MemberCounts
        ensures kept { table self.new ≡ table self.old }
        ensures counts { IfSome (table self.old) (λ counts. result ≡ member_counts key id counts) };
}

impl MemberTotals for MemberTable {
    ghost use Rattle.std.specs.Prelude.{Some};

    ghost table = { λ table. Some table };

    fn settle(&mut self, config: &Config) {
        MemberTable::settle(self, config);
    }

    fn group(&mut self, key: Endpoint) -> GroupCounts {
        MemberTable::group(self, key)
    }

    fn member(&mut self, key: Endpoint, id: u32) -> MemberCounts {
        MemberTable::member(self, key, id)
    }
}

// Reads the names in a request for counters: a group's key, or a group's key and a member's number.
fn read_names(names: &[u8]) -> Option<CountKey>
    ensures { MatchOption result
        ((asked : CountKey) → IsAskable asked → names.now ≢ names_text asked)
        (λ asked. IsAskable asked × (names.now ≡ names_text asked)) }
{
    let Some((key, id)) = split_at(b' ', names) else {
        let group = Endpoint::from_text(names)?;
        return Some(CountKey {
            group,
            member: None,
        });
    };
    let group = Endpoint::from_text(key)?;
    let id = read_number(u32::MAX, id)?;
    Some(CountKey {
        group,
        member: Some(id),
    })
}

/// Reads a request for counters.
pub fn read_asked(text: &[u8]) -> Option<CountKey>
    ensures { MatchOption result
        ((asked : CountKey) → IsAskable asked → text.now ≢ asked_text asked)
        (λ asked. IsAskable asked × (text.now ≡ asked_text asked)) }
{
    let (word, names) = split_at(b' ', text)?;
    if !is_word(word, "totals") {
        return None;
    }
    read_names(names)
}

fn push_count(reply: &mut Reply, name: &str, count: u64)
    requires { length reply.old + length name.now + 20 ≤ REPLY_LIMIT }
    ensures appended { reply.new ≡ reply.old ++ (name.now ++ decimal count) }
    ensures len { length reply.new ≤ length reply.old + length name.now + 20 }
{
    reply.push(name);
    reply.push_number(count);
}

fn group_reply(counts: GroupCounts) -> Reply
    ensures { result ≡ group_text counts }
{
    let mut reply = Reply::empty();
    push_count(&mut reply, "delivered ", counts.delivered);
    push_count(&mut reply, " dropped ", counts.dropped);
    push_count(&mut reply, " nomembers ", counts.no_members);
    push_count(&mut reply, " sendfailed ", counts.send_failed);
    reply
}

fn member_reply(counts: MemberCounts) -> Reply
    ensures { result ≡ member_text counts }
{
    let mut reply = Reply::empty();
    push_count(&mut reply, "delivered ", counts.delivered);
    push_count(&mut reply, " dropped ", counts.dropped);
    push_count(&mut reply, " sendfailed ", counts.send_failed);
    push_count(&mut reply, " bytes ", counts.bytes);
    reply
}

/// Answers a request for counters from the current configuration. `refused G1` if it lacks the group, `refused G3` if it lacks the
/// member. Takes no memory.
pub fn counts_reply<M: MemberTotals>(asked: CountKey, operator: &Operator, members: &mut M) -> Reply
    ensures settled { Settles operator.now (M.table members.old) (M.table members.new) }
    ensures reply { IsCountsReply operator.now (M.table members.new) asked result }
{
    let config = operator.config();
    members.settle(config);
    let group = CountKey {
        group: asked.group,
        member: None,
    };
    if !has(config.groups(), &group) {
        return Reply::refused(Reason::Command(Refusal::NoGroup));
    }
    let Some(id) = asked.member else {
        return group_reply(members.group(asked.group));
    };
    if !has(config.groups(), &asked) {
        return Reply::refused(Reason::Command(Refusal::NoMember));
    }
    member_reply(members.member(asked.group, id))
}
