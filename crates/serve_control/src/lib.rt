//! Control datagrams (docs/COMMANDS.md, "serve"): `stop`, `totals`, counters by member, and every other text as a control line, one
//! answer each. A datagram that looks like a reply, or that comes from the switch itself, is ignored.
//!
//! Nothing here knows of a socket: a datagram is its sender's address and the bytes that it carried, and its answer the bytes to
//! send back.
#![tactic(auto)]

ghost use Rattle.std.specs.Prelude.{◌≡◌, ◌⊎◌, ◌+◌, ◌<◌, ◌≤◌, ◌++◌, IfSome, OnErr, OnOk, length, vec_capacity, vec_len};
ghost use Rattle.control_line.specs.declared.reply.TheConstants.{REPLY_LIMIT};
ghost use Rattle.serve_control.specs.Answer.{AnswersDatagram, AnswersText, IsTotals, RepliesToLine, bytes_of};
ghost use Rattle.serve_control.specs.Ignored.{IsAlwaysIgnored};
ghost use Rattle.serve_control.specs.Members.{Settles};

mod desk;
mod ignored;
mod log;
mod members;
mod shared_totals;

use control_line::{Reply, is_word, line};
pub use desk::{Desk, answer_from};
use dispatch::{Tally, Totals};
pub use ignored::BoundAddresses;
use ignored::is_ignored;
use ipv4_fields::Endpoint;
pub use log::{LOGGED_BYTES, Log, LogLines, NoLog, Peer};
pub use members::MemberTotals;
use members::{counts_reply, read_asked};
use read_section::Operator;
pub use shared_totals::SharedTotals;
use std::alloc::{AllocError, Global};

/// The answer to a control datagram.
#[derive(Drop)]
pub enum ControlAnswer {
    /// `ok stop`: the switch is asked to stop.
    Stop,
    /// The line of the totals so far.
    Totals(Totals),
    /// The reply to a control line or to a request for counters by member, or `failed E3`.
    Line(Reply),
}

impl ControlAnswer {
    /// Appends the bytes to send back, without LF.
    pub fn append_to(&self, bytes: &mut Vec<u8>) -> Result<(), AllocError>
        ensures appended { OnOk result (bytes.new.items ≡ bytes.old.items ++ bytes_of self.now) }
        ensures unchanged { OnErr result (bytes.new.items ≡ bytes.old.items) }
        ensures refused { OnErr result (IsTotals self.now ⊎ (vec_capacity bytes.old < vec_len bytes.old + REPLY_LIMIT)) }
    {
        match self {
            ControlAnswer::Stop => bytes.extend_from_slice(b"ok stop".as_slice()),
            ControlAnswer::Totals(totals) => {
                let text = format!(in *bytes.allocator(); "{totals}")?;
                bytes.extend_from_slice(text.as_bytes())
            }
            ControlAnswer::Line(reply) => bytes.extend_from_slice(reply.bytes()),
        }
    }
}

// The reply if an allocation is refused.
const NO_MEMORY: &str = "failed E3";

fn text_reply(text: &str) -> Reply
    requires { length text.now ≤ REPLY_LIMIT }
    ensures { result ≡ text.now }
{
    let mut reply = Reply::empty();
    reply.push(text);
    reply
}

// The reply of the control line, or `NO_MEMORY`.
fn line_reply(alloc: Global, text: &[u8], operator: &mut Operator) -> Reply
    ensures { RepliesToLine text.now operator.old operator.new result }
{
    match line(alloc, text, operator) {
        Ok(reply) => reply,
        Err(_) => text_reply(NO_MEMORY),
    }
}

// Does a control line, and returns its reply. Then the counters settle by the configuration that is current.
fn line_answer<M: MemberTotals>(
    alloc: Global,
    text: &[u8],
    operator: &mut Operator,
    members: &mut M,
) -> Reply
    ensures replied { RepliesToLine text.now operator.old operator.new result }
    ensures settled { Settles operator.new (M.table members.old) (M.table members.new) }
{
    let reply = line_reply(alloc, text, operator);
    members.settle(operator.config());
    reply
}

/// Answers a request, and does what it asks for.
///
/// `stop` changes nothing here: its caller stops. `totals` reads each total by one load, in the order of their line. `totals KEY` and
/// `totals KEY ID` read the counters of a group and of a member. Every other text is answered and done by `line`; if memory is refused
/// then, the reply is `failed E3` and nothing was changed.
pub fn answer_request<M: MemberTotals>(
    alloc: Global,
    text: &[u8],
    operator: &mut Operator,
    tally: &mut Tally,
    members: &mut M,
) -> ControlAnswer
    ensures answered { AnswersText text.now
        (record { operator = operator.old; tally = tally.old; members = M.table members.old })
        (record { operator = operator.new; tally = tally.new; members = M.table members.new }) result }
    ensures table { tally.new.table ≡ tally.old.table }
{
    if is_word(text, "stop") {
        return ControlAnswer::Stop;
    }
    if is_word(text, "totals") {
        return ControlAnswer::Totals(tally.totals());
    }
    if let Some(asked) = read_asked(text) {
        return ControlAnswer::Line(counts_reply(asked, operator, members));
    }
    ControlAnswer::Line(line_answer(alloc, text, operator, members))
}

/// Answers a control datagram, and does what it asks for. `None` if the datagram is ignored; then nothing was done.
///
/// A datagram is ignored if its text begins with a word that begins replies and a space, or if its sender is one of the switch's
/// two sockets. Each answer is such a text, so no switch answers an answer.
///
/// Every other datagram is answered as a request, by `answer_request`.
pub fn answer<M: MemberTotals>(
    alloc: Global,
    bound: &BoundAddresses,
    sender: Endpoint,
    text: &[u8],
    operator: &mut Operator,
    tally: &mut Tally,
    members: &mut M,
) -> Option<ControlAnswer>
    ensures answered { AnswersDatagram bound.now sender text.now
        (record { operator = operator.old; tally = tally.old; members = M.table members.old })
        (record { operator = operator.new; tally = tally.new; members = M.table members.new }) result }
    ensures no_loop { IfSome result (λ answer. IsAlwaysIgnored (bytes_of answer)) }
    ensures table { tally.new.table ≡ tally.old.table }
{
    if is_ignored(bound, sender, text) {
        return None;
    }
    Some(answer_request(alloc, text, operator, tally, members))
}
