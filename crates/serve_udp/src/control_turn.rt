//! Control over datagrams: each is answered by one datagram to its sender (docs/COMMANDS.md, "serve").

ghost use Rattle.std.specs.Prelude.{◌≡◌, ◌∷◌, List, Option, Some, [], length};
ghost use Rattle.dispatch.specs.Device.{Takes};
ghost use Rattle.serve_control.specs.Answer.{IsTotals};
ghost use Rattle.serve_udp.specs.Control.{CameBy, ControlEvent, IsControlTurn, IsWithin, is_stop, replied};
ghost use Rattle.serve_udp.specs.body.Turns.{AnswersOne, GoesOnBy, IsSentBack};

use dispatch::{NamedTally, TallyName};
use ipv4_fields::Endpoint;
use read_section::Operator;
use serve_control::{BoundAddresses, ControlAnswer, Log, LogLines, MemberTotals, answer_from};
use std::alloc::Global;

/// The number of datagrams, or turns of clients, that control has before the front has its turn.
pub const CONTROL_TURN: usize = 4;

/// The result of a receive of control.
#[derive(Clone, Copy)]
pub enum Asked {
    /// A datagram of `len` bytes.
    Datagram { from: Endpoint, len: usize },
    /// No datagram has come.
    Nothing,
    /// The receive failed, or the datagram has no IPv4 sender.
    Failed,
}

/// A wire that brings control datagrams and takes their replies. Contracts see both in their order, if they are known.
pub trait ControlWire {
    ghost log: { Self → Option (List ControlEvent) };

    /// Receives the next datagram into the front of `buf`, and does not wait. A longer one is cut to the buffer.
    fn receive(&mut self, buf: &mut [u8]) -> Asked
        ensures within { IsWithin (length buf.new) result }
        ensures logged { CameBy (log self.old) (log self.new) result buf.new };

    /// Sends a reply as one datagram. A failure is ignored.
    fn reply(&mut self, to: Endpoint, bytes: &[u8])
        ensures logged { Takes (log self.old) (log self.new) (replied to bytes.now ∷ []) };
}

/// The result of a turn of control, or of a part of it.
#[derive(Clone, Copy)]
pub enum Next {
    /// There may be more datagrams.
    Answered,
    /// None has come.
    Nothing,
    /// The switch is asked to stop.
    Stop,
}

// Sends the line of the totals, which is made in `room`.
fn send_totals<C: ControlWire>(
    wire: &mut C,
    room: &mut Vec<u8>,
    answer: &ControlAnswer,
    to: Endpoint,
)
    requires { IsTotals answer.now }
    ensures { IsSentBack (C.log wire.old) (C.log wire.new) to answer.now }
{
    room.clear();
    match answer.append_to(room) {
        Ok(()) => wire.reply(to, room),
        Err(_) => {}
    }
}

// Sends an answer back, by one datagram.
fn send_reply<C: ControlWire>(
    wire: &mut C,
    room: &mut Vec<u8>,
    answer: &ControlAnswer,
    to: Endpoint,
)
    ensures { IsSentBack (C.log wire.old) (C.log wire.new) to answer.now }
{
    match answer {
        ControlAnswer::Stop => wire.reply(to, b"ok stop".as_slice()),
        ControlAnswer::Totals(_) => send_totals(wire, room, answer, to),
        ControlAnswer::Line(reply) => wire.reply(to, reply.bytes()),
    }
}

// Whether the switch is to stop after this answer.
fn is_stop(answer: &ControlAnswer) -> bool
    ensures { result ≡ is_stop (Some answer.now) }
{
    match answer {
        ControlAnswer::Stop => true,
        ControlAnswer::Totals(_) => false,
        ControlAnswer::Line(_) => false,
    }
}

// Answers a datagram that came. True if it asked the switch to stop.
fn answer_one<C: ControlWire, N: TallyName, L: LogLines, M: MemberTotals>(
    alloc: Global,
    wire: &mut C,
    bound: &BoundAddresses,
    from: Endpoint,
    text: &[u8],
    room: &mut Vec<u8>,
    operator: &mut Operator,
    named: &mut NamedTally<N>,
    members: &mut M,
    log: &mut Log<L>,
) -> bool
    ensures { AnswersOne bound.now from text.now (C.log wire.old) (C.log wire.new)
        (record { operator = operator.old; tally = named.old.tally; members = M.table members.old })
        (record { operator = operator.new; tally = named.new.tally; members = M.table members.new }) result }
{
    let Some(answer) = answer_from(alloc, bound, from, text, operator, named, members, log) else {
        return false;
    };
    send_reply(wire, room, &answer, from);
    is_stop(&answer)
}

// Receives a datagram, and answers it.
fn answer_next<C: ControlWire, N: TallyName, L: LogLines, M: MemberTotals>(
    alloc: Global,
    wire: &mut C,
    bound: &BoundAddresses,
    buf: &mut [u8],
    room: &mut Vec<u8>,
    operator: &mut Operator,
    named: &mut NamedTally<N>,
    members: &mut M,
    log: &mut Log<L>,
) -> Next
    ensures { GoesOnBy (length buf.old) bound.now (C.log wire.old) (C.log wire.new)
        (record { operator = operator.old; tally = named.old.tally; members = M.table members.old })
        (record { operator = operator.new; tally = named.new.tally; members = M.table members.new }) result }
{
    match wire.receive(buf) {
        Asked::Datagram { from, len } => {
            let text = &buf[..len];
            let stops = answer_one(
                alloc, wire, bound, from, text, room, operator, named, members, log,
            );
            if stops { Next::Stop } else { Next::Answered }
        }
        Asked::Nothing => Next::Nothing,
        Asked::Failed => Next::Answered,
    }
}

/// Answers the next datagrams by one datagram each to their senders, except those that are ignored.
///
/// A turn ends if no datagram has come, at a request to stop, and after `CONTROL_TURN` receives. A receive that fails
/// is ignored.
pub fn answer_datagrams<C: ControlWire, N: TallyName, L: LogLines, M: MemberTotals>(
    alloc: Global,
    wire: &mut C,
    bound: &BoundAddresses,
    buf: &mut [u8],
    room: &mut Vec<u8>,
    operator: &mut Operator,
    named: &mut NamedTally<N>,
    members: &mut M,
    log: &mut Log<L>,
) -> Next
    ensures answered_each { IsControlTurn (length buf.old) bound.now (C.log wire.old) (C.log wire.new)
        (record { operator = operator.old; tally = named.old.tally; members = M.table members.old })
        (record { operator = operator.new; tally = named.new.tally; members = M.table members.new }) result }
{
    for _datagram in 0..CONTROL_TURN {
        match answer_next(alloc, wire, bound, buf, room, operator, named, members, log) {
            Next::Answered => {}
            Next::Nothing => return Next::Nothing,
            Next::Stop => return Next::Stop,
        }
    }
    Next::Answered
}
