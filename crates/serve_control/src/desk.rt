//! The desk at which requests are answered: the operator, the tally and the log, and who asks.

ghost use Rattle.std.specs.Prelude.{◌≡◌, ◌≤◌, IfSome, None, length};
ghost use Rattle.control_line.specs.declared.reply.TheConstants.{REPLY_LIMIT};
ghost use Rattle.serve_control.specs.Desk.{AnswersAtDesk, LogsExchange, after_of};
ghost use Rattle.serve_control.specs.Answer.{AnswersDatagram, AnswersText, bytes_of};
ghost use Rattle.serve_control.specs.Log.{TellsRequest};

use crate::ignored::BoundAddresses;
use crate::log::{Log, LogLines, Peer};
use crate::members::MemberTotals;
use crate::shared_totals::SharedTotals;
use crate::{ControlAnswer, answer, answer_request};
use control_line::{OutOfMemory, REPLY_LIMIT};
use dispatch::{NamedTally, TallyName};
use ipv4_fields::Endpoint;
use member_counts::MemberTable;
use read_section::Operator;
use serve_stream::{After, Answers, AnswersClients};
use std::alloc::Global;
use std::sync::{Mutex, Wait};

/// The operator, the tally, the counters and the log that answer the requests of a peer.
/// The reason: docs/INTERNALS.md, "The desk has the lock of the counters".
#[derive(Drop)]
pub struct Desk<'a, N: TallyName, L: LogLines, R: Wait> {
    pub rt: &'a R,
    pub alloc: Global,
    pub operator: &'a mut Operator,
    pub tally: &'a mut NamedTally<N>,
    pub counts: &'a Mutex<MemberTable>,
    pub log: &'a mut Log<L>,
    pub peer: Peer,
}

fn after_of(answer: &ControlAnswer) -> After
    ensures { result ≡ after_of answer.now }
{
    match answer {
        ControlAnswer::Stop => After::Stops,
        ControlAnswer::Totals(_) => After::GoesOn,
        ControlAnswer::Line(_) => After::GoesOn,
    }
}

// Logs a request whose reply needs no memory of the log.
fn tell_short<L: LogLines>(log: &mut Log<L>, peer: Peer, request: &[u8], reply: &[u8])
    requires { length reply.now ≤ REPLY_LIMIT }
    ensures { TellsRequest log.old log.new peer request.now reply.now }
{
    let Ok(()) = log.tell_request(peer, request, reply) else {
        unreachable!();
    };
}

// Logs a request and its answer.
fn tell_answer<L: LogLines>(log: &mut Log<L>, peer: Peer, request: &[u8], answer: &ControlAnswer)
    ensures { TellsRequest log.old log.new peer request.now (bytes_of answer.now) }
{
    match answer {
        ControlAnswer::Stop => tell_short(log, peer, request, b"ok stop".as_slice()),
        // A reading is not logged.
        ControlAnswer::Totals(_) => {}
        ControlAnswer::Line(reply) => tell_short(log, peer, request, reply.bytes()),
    }
}

/// Answers a control datagram, as `answer` does, and logs it.
pub fn answer_from<N: TallyName, L: LogLines, M: MemberTotals>(
    alloc: Global,
    bound: &BoundAddresses,
    sender: Endpoint,
    text: &[u8],
    operator: &mut Operator,
    named: &mut NamedTally<N>,
    members: &mut M,
    log: &mut Log<L>,
) -> Option<ControlAnswer>
    ensures answered { AnswersDatagram bound.now sender text.now
        (record { operator = operator.old; tally = named.old.tally; members = M.table members.old })
        (record { operator = operator.new; tally = named.new.tally; members = M.table members.new }) result }
    ensures logged { IfSome result (λ answer. TellsRequest log.old log.new (Peer.Udp sender) text.now (bytes_of answer)) }
    ensures passed_over { result ≡ None → log.new ≡ log.old }
{
    let answer = answer(
        alloc,
        bound,
        sender,
        text,
        operator,
        &mut named.tally,
        members,
    )?;
    tell_answer(log, Peer::Udp(sender), text, &answer);
    Some(answer)
}

// As `answer_request`, with a tally whose table is part of its type.
fn answer_named<N: TallyName, M: MemberTotals>(
    alloc: Global,
    request: &[u8],
    operator: &mut Operator,
    named: &mut NamedTally<N>,
    members: &mut M,
) -> ControlAnswer
    ensures { AnswersText request.now
        (record { operator = operator.old; tally = named.old.tally; members = M.table members.old })
        (record { operator = operator.new; tally = named.new.tally; members = M.table members.new }) result }
{
    answer_request(alloc, request, operator, &mut named.tally, members)
}

impl<N: TallyName, L: LogLines, R: Wait> Answers for Desk<'_, N, L, R> {
    ghost exchanges = { λ before after exchange.
        AnswersAtDesk
        (record { operator = before.operator.now; tally = before.tally.now.tally; members = None })
        (record { operator = after.operator.now; tally = after.tally.now.tally; members = None }) exchange
        × LogsExchange before.log.now after.log.now before.peer exchange × (after.peer ≡ before.peer) };

    ghost notes = { λ before after front reply.
        (length reply ≤ REPLY_LIMIT → TellsRequest before.log.now after.log.now before.peer front reply)
        × (after.operator.now ≡ before.operator.now) × (after.tally.now ≡ before.tally.now) × (after.peer ≡ before.peer) };

    fn answer(&mut self, request: &[u8], reply: &mut Vec<u8>) -> Result<After, OutOfMemory> {
        // The room is taken before anything is done.
        reply.reserve(REPLY_LIMIT)?;
        let mut totals = SharedTotals {
            rt: self.rt,
            counts: self.counts,
        };
        let answer = answer_named(self.alloc, request, self.operator, self.tally, &mut totals);
        answer.append_to(reply)?;
        tell_answer(self.log, self.peer, request, &answer);
        Ok(after_of(&answer))
    }

    fn not_held(&mut self, front: &[u8], reply: &[u8]) {
        // Only a reply that is longer than a control line's needs memory.
        let _ = self.log.tell_request(self.peer, front, reply);
    }
}

impl<N: TallyName, L: LogLines, R: Wait> AnswersClients for Desk<'_, N, L, R> {
    ghost use Rattle.serve_control.specs.declared.log.Peer.TheVariants as peers;

    ghost turns_to = { λ before after number.
        (after.peer ≡ peers.Unix number) × (after.operator.now ≡ before.operator.now) × (after.tally.now ≡ before.tally.now)
        × (after.log.now ≡ before.log.now) };

    fn turn_to(&mut self, number: u64) {
        self.peer = Peer::Unix(number);
    }
}
