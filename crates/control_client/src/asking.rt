//! One line: it is sent, and its reply received and printed.

ghost use Rattle.std.specs.Prelude.{◌≡◌, ◌≤◌, ◌⊎◌, IfErr, IfOk, List, OnErr, Option, length, take, ℕ};
ghost use Rattle.command_streams.specs.Failures.{OutputFails};
ghost use Rattle.control_client.specs.Exchange.{Asks, LineEndsBy};
ghost use Rattle.control_client.specs.Refused.{ShownOn};
ghost use Rattle.control_client.specs.Tell.{RequestTold};
ghost use Rattle.control_client.specs.body.Asking.{Hears, HearsNone};

use crate::carrying::unsent_reply;
use crate::device::{Peer, Wire, WireFailed};
use crate::printing::print_reply;
use crate::refused::{Explains, Places};
use command_line::Failure;
use command_streams::CountedWrite;
use std::io::Write;

/// The number of replies from elsewhere that ends the wait for a line's reply. Fewer are passed over.
pub const FOREIGN_LIMIT: usize = 4096;

/// The most bytes of a reply.
pub const LONGEST_DATAGRAM: usize = 65_535;

// Receives the reply of the switch into the front of `room`, and returns its size.
fn hear<D: Wire>(wire: &mut D, switch: Peer, room: &mut [u8]) -> Result<usize, Failure>
    ensures within { IfOk result (λ size. size ≤ length room.new) }
    ensures heard { IfOk result (λ size. Hears switch (take size room.new) (D.log wire.old) (D.log wire.new)) }
    ensures not_heard { IfErr result (λ fault. HearsNone fault switch (D.log wire.old) (D.log wire.new)) }
    ensures faults { IfErr result (λ fault. (fault ≡ Failure.NoAnswer) ⊎ (fault ≡ Failure.PollFailed)) }
{
    for _passed in 0..FOREIGN_LIMIT {
        match wire.receive(room) {
            Ok(Some(one)) if one.from.is(switch) => return Ok(one.len),
            Ok(Some(_)) => {}
            Ok(None) => return Err(Failure::NoAnswer),
            Err(WireFailed) => return Err(Failure::PollFailed),
        }
    }
    Err(Failure::NoAnswer)
}

/// Sends a line, and returns its reply, which is received into `room`. A line that the wire does not carry is not sent, and is
/// refused.
pub fn ask<'a, D: Wire>(
    wire: &mut D,
    switch: Peer,
    line: &[u8],
    room: &'a mut [u8],
) -> Result<&'a [u8], Failure>
    ensures asked { IfOk result (λ reply. Asks switch line.now reply.now (D.log wire.old) (D.log wire.new)) }
    ensures unasked { IfErr result (λ fault. (out : Option (List ℕ)) → LineEndsBy fault switch line.now (D.log wire.old) (D.log wire.new) out out) }
    ensures faults { IfErr result (λ fault. (fault ≡ Failure.NoAnswer) ⊎ (fault ≡ Failure.PollFailed)) }
{
    if let Some(reply) = unsent_reply(switch, line) {
        return Ok(reply);
    }
    if wire.send(switch, line).is_err() {
        return Err(Failure::NoAnswer);
    }
    let size = hear(wire, switch, room)?;
    Ok(&room[..size])
}

/// Sends the request, prints its reply, and shows the reply if the request was not done. Returns true if it was not done. `room` is
/// for the reply.
pub(crate) fn exchange<D: Wire, W: CountedWrite, E: Write, X: Explains>(
    wire: &mut D,
    switch: Peer,
    request: (&[u8], Places<'_>),
    room: &mut [u8],
    out: &mut W,
    errs: &mut E,
    explains: &X,
) -> Result<bool, Failure>
    ensures told { IfOk result (RequestTold (ShownOn E.contents X.shows) switch
        (record { head = request.entry.1.head; lines = request.entry.1.lines.now; text = request.entry.0.now })
        (D.log wire.old) (D.log wire.new) (W.contents out.old) (W.contents out.new) errs.old errs.new) }
    ensures stopped { IfErr result (λ fault.
        LineEndsBy fault switch request.entry.0.now (D.log wire.old) (D.log wire.new) (W.contents out.old) (W.contents out.new)) }
    ensures unshown { OnErr result (errs.new ≡ errs.old) }
    ensures device_failed { OutputFails result (W.failures out.old) (W.failures out.new) }
{
    let (text, places) = request;
    let reply = ask(wire, switch, text, room)?;
    if !print_reply(reply, out)? {
        return Ok(false);
    }
    explains.show(places, reply, errs);
    Ok(true)
}
