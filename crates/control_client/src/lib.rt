//! Sending control lines to a running switch (docs/COMMANDS.md, "tell").
//!
//! `tell` sends requests over any `Wire`, one at a time, and prints the replies; `tell_change` sends all lines as one change. Both show
//! people, by any `Explains`, which requests were not done. `SocketWire` is a wire over a UDP socket, or over the socket file of a
//! switch. The lines come from a script or from words.
#![tactic(auto)]

ghost use Rattle.std.specs.Prelude.{◌≡◌, IfErr, IfOk, None, OnErr};
ghost use Rattle.command_streams.specs.Failures.{OutputFails};
ghost use Rattle.control_client.specs.Lines.{LinesFail};
ghost use Rattle.control_client.specs.Refused.{ShownOn};
ghost use Rattle.control_client.specs.Wire.{peer_of};
ghost use Rattle.control_client.specs.Tell.{ChangeEndsBy, ChangeStopsOverSocket, StopsOverSocket, TellsAll, TellsChange, TellsFirst};

mod asking;
mod carrying;
mod connection;
mod device;
mod given_lines;
mod printing;
mod refused;
mod request;
mod socket_wire;
mod stream_lines;
mod trouble;
mod udp_device;
mod unix_device;
mod unread;

use asking::exchange;
pub use asking::{FOREIGN_LIMIT, LONGEST_DATAGRAM, ask};
pub use carrying::{LONGEST_LINE, unsent_reply};
use command_line::Failure;
use command_streams::CountedWrite;
pub use command_streams::FromRead;
pub use device::{Came, Peer, Wire, WireFailed};
pub use given_lines::{InputLines, Lines, WordLines};
pub use printing::is_refusal;
pub use refused::{Explains, Places};
pub use request::block_of;
use request::{next_request, numbered_block_of};
pub use socket_wire::{Reach, SocketWire};
use std::alloc::Global;
use std::io::Write;
use std::net::Net;
use std::time::Clock;
pub use trouble::{LONGEST_PATH, Trouble};
pub use udp_device::UdpWire;
pub use unix_device::UnixWire;

// How the first line of a change begins.
const CHANGE: &[u8] = b"all ";

/// Law: the limits, as numbers. It runs nothing.
pub fn limits_as_numbers()
    ensures line { LONGEST_LINE ≡ 65507 }
    ensures path { LONGEST_PATH ≡ 107 }
    ensures foreign { FOREIGN_LIMIT ≡ 4096 }
{}

/// Sends each request to the switch, and prints its reply with LF. A line is a request; the first line of a block takes the lines
/// of the block with it. A reply that begins with `refused ` or `failed ` says that its request was not done. Such a reply is shown
/// on `errs` too, and the result is true.
///
/// A request is sent after the reply to the one before was printed and flushed. The call goes on after a request that was not done,
/// and ends at the first request without a reply. So a late reply is never taken for another request's reply. A request that the
/// wire does not carry is not sent, and `unsent_reply` is its reply. At most 2^64 - 1 requests are sent.
pub fn tell<L: Lines, D: Wire, W: CountedWrite, E: Write, X: Explains>(
    alloc: Global,
    lines: &mut L,
    wire: &mut D,
    switch: Peer,
    out: &mut W,
    errs: &mut E,
    explains: &X,
) -> Result<bool, Failure>
    ensures all_told { IfOk result (TellsAll (ShownOn E.contents X.shows) switch (L.coming lines.old) (D.log wire.old) (D.log wire.new)
        (W.contents out.old) (W.contents out.new) errs.old errs.new) }
    ensures first_told { IfErr result (λ fault. TellsFirst (ShownOn E.contents X.shows) fault switch (L.coming lines.old)
        (D.log wire.old) (D.log wire.new) (W.contents out.old) (W.contents out.new) errs.old errs.new) }
    ensures device_failed { OutputFails result (W.failures out.old) (W.failures out.new) }
    ensures input_failed { LinesFail result (L.failures lines.old) (L.failures lines.new) }
{
    let mut room = vec![in alloc; 0; LONGEST_DATAGRAM]?;
    let mut line = Vec::new(alloc);
    let mut request = Vec::new(alloc);
    let mut numbers = Vec::new(alloc);
    let mut refused = false;
    for _request in 0..u64::MAX {
        let Some(number) = next_request(lines, &mut line, &mut request, &mut numbers)? else {
            return Ok(refused);
        };
        let places = Places {
            head: Some(number),
            lines: &numbers,
        };
        let asked = (request.as_slice(), places);
        if exchange(wire, switch, asked, &mut room, out, errs, explains)? {
            refused = true;
        }
    }
    Err(Failure::OutOfMemory)
}

/// Sends each request over its own socket, as `tell` does.
pub fn tell_over_socket<R: Clock + Net, L: Lines, W: CountedWrite, E: Write, X: Explains>(
    rt: &R,
    alloc: Global,
    reach: Reach<'_>,
    lines: &mut L,
    out: &mut W,
    errs: &mut E,
    explains: &X,
) -> Result<bool, Failure>
    ensures all_told { IfOk result (TellsAll (ShownOn E.contents X.shows) (peer_of reach.entry.address) (L.coming lines.old) None None
        (W.contents out.old) (W.contents out.new) errs.old errs.new) }
    ensures first_told { IfErr result (λ fault. StopsOverSocket (ShownOn E.contents X.shows) fault (peer_of reach.entry.address) (L.coming lines.old)
        (W.contents out.old) (W.contents out.new) errs.old errs.new) }
    ensures device_failed { OutputFails result (W.failures out.old) (W.failures out.new) }
    ensures input_failed { LinesFail result (L.failures lines.old) (L.failures lines.new) }
{
    let mut wire = SocketWire::open(rt, alloc, reach)?;
    tell(alloc, lines, &mut wire, reach.peer(), out, errs, explains)
}

/// Sends all lines to the switch as one change, `all N` and the N lines, and prints its reply with LF. Returns true if the reply
/// says that the change was not done; then the reply is shown on `errs` too.
///
/// A change that the wire does not carry is not sent, and `unsent_reply` is its reply.
pub fn tell_change<L: Lines, D: Wire, W: CountedWrite, E: Write, X: Explains>(
    alloc: Global,
    lines: &mut L,
    wire: &mut D,
    switch: Peer,
    out: &mut W,
    errs: &mut E,
    explains: &X,
) -> Result<bool, Failure>
    ensures change_told { IfOk result (TellsChange (ShownOn E.contents X.shows) switch (L.coming lines.old) (D.log wire.old) (D.log wire.new)
        (W.contents out.old) (W.contents out.new) errs.old errs.new) }
    ensures change_ended { IfErr result (λ fault.
        ChangeEndsBy fault switch (L.coming lines.old) (D.log wire.old) (D.log wire.new) (W.contents out.old) (W.contents out.new)) }
    ensures unshown { OnErr result (errs.new ≡ errs.old) }
    ensures device_failed { OutputFails result (W.failures out.old) (W.failures out.new) }
    ensures input_failed { LinesFail result (L.failures lines.old) (L.failures lines.new) }
{
    let mut numbers = Vec::new(alloc);
    let request = numbered_block_of(alloc, CHANGE, lines, &mut numbers)?;
    let mut room = vec![in alloc; 0; LONGEST_DATAGRAM]?;
    let places = Places {
        head: None,
        lines: &numbers,
    };
    let asked = (request.as_slice(), places);
    exchange(wire, switch, asked, &mut room, out, errs, explains)
}

/// Sends all lines as one change over its own socket, as `tell_change` does.
pub fn tell_change_over_socket<R: Clock + Net, L: Lines, W: CountedWrite, E: Write, X: Explains>(
    rt: &R,
    alloc: Global,
    reach: Reach<'_>,
    lines: &mut L,
    out: &mut W,
    errs: &mut E,
    explains: &X,
) -> Result<bool, Failure>
    ensures change_told { IfOk result (TellsChange (ShownOn E.contents X.shows) (peer_of reach.entry.address) (L.coming lines.old) None None
        (W.contents out.old) (W.contents out.new) errs.old errs.new) }
    ensures change_ended { IfErr result (λ fault.
        ChangeStopsOverSocket fault (peer_of reach.entry.address) (L.coming lines.old) (W.contents out.old) (W.contents out.new)) }
    ensures unshown { OnErr result (errs.new ≡ errs.old) }
    ensures device_failed { OutputFails result (W.failures out.old) (W.failures out.new) }
    ensures input_failed { LinesFail result (L.failures lines.old) (L.failures lines.new) }
{
    let mut wire = SocketWire::open(rt, alloc, reach)?;
    tell_change(alloc, lines, &mut wire, reach.peer(), out, errs, explains)
}
