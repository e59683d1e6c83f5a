//! The reply to a packet: which version judged it, and the verdict (docs/COMMANDS.md, "Control lines" and "replay").

ghost use Rattle.std.specs.Prelude.{◌≡◌, ◌≤◌, ◌+◌, ◌++◌, codes, decimal, length};
ghost use Rattle.ipv4_fields.specs.Endpoint.{endpoint_text};
ghost use Rattle.control_line.specs.Reply.{judged_text, malformation_text, reply_text, verdict_text};
ghost use Rattle.control_line.specs.declared.reply.LineAnswer.TheVariants as answer;
ghost use Rattle.control_line.specs.declared.reply.TheConstants.{REPLY_LIMIT};

use crate::reply::{NUMBER_LIMIT, Reply};
use ipv4_fields::{ENDPOINT_LIMIT, Endpoint};
use packet_verdict::{Malformation, Verdict};

// The most bytes of a group with a member, and of a verdict, which begins with `deliver ` then.
const PLACE_LIMIT: usize = ENDPOINT_LIMIT + 1 + NUMBER_LIMIT;

const VERDICT_LIMIT: usize = 8 + PLACE_LIMIT + 1 + ENDPOINT_LIMIT + 1 + NUMBER_LIMIT;

fn push_place(reply: &mut Reply, group: Endpoint, member: u32)
    requires { length reply.old + PLACE_LIMIT ≤ REPLY_LIMIT }
    ensures appended { reply.new ≡ reply.old ++ (endpoint_text group ++ codes " " ++ decimal member) }
    ensures len { length reply.new ≤ length reply.old + PLACE_LIMIT }
{
    group.append_to(reply);
    reply.push(" ");
    reply.push_number(member as u64);
}

fn push_verdict(reply: &mut Reply, verdict: Verdict)
    requires { length reply.old + VERDICT_LIMIT ≤ REPLY_LIMIT }
    ensures { reply.new ≡ reply.old ++ verdict_text verdict }
{
    match verdict {
        Verdict::Malformed => reply.push("malformed"),
        Verdict::NoGroup => reply.push("nogroup"),
        Verdict::NoMembers => reply.push("nomembers"),
        Verdict::Dropped { group, member } => {
            reply.push("dropped ");
            push_place(reply, group, member);
        }
        Verdict::Deliver {
            group,
            member,
            to,
            bytes,
        } => {
            reply.push("deliver ");
            push_place(reply, group, member);
            reply.push(" ");
            to.append_to(reply);
            reply.push(" ");
            reply.push_number(bytes as u64);
        }
    }
}

/// Makes the reply to a packet: the version that judged it, and the verdict.
pub fn judged_reply(version: u64, verdict: Verdict) -> Reply
    ensures { result ≡ judged_text version verdict }
{
    let mut reply = Reply::empty();
    reply.push("version ");
    reply.push_number(version);
    reply.push(" ");
    push_verdict(&mut reply, verdict);
    reply
}

fn malformation_name(why: Malformation) -> &'static str
    ensures name { result.now ≡ malformation_text why }
    ensures short { length result.now ≤ 9 }
{
    match why {
        Malformation::Short => "short",
        Malformation::Version => "version",
        Malformation::Header => "header",
        Malformation::Length => "length",
        Malformation::Protocol => "protocol",
        Malformation::Fragment => "fragment",
        Malformation::UdpLength => "udplength",
    }
}

/// Makes the reply to `judge` for a malformed packet: the version, and the first rule that the packet breaks.
pub(crate) fn malformed_reply(version: u64, why: Malformation) -> Reply
    ensures { result ≡ reply_text (answer.PacketMalformed version why) }
{
    let mut reply = Reply::empty();
    reply.push("version ");
    reply.push_number(version);
    reply.push(" malformed ");
    reply.push(malformation_name(why));
    reply
}
