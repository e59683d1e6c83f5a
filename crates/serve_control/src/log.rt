//! The log of control: a line for each request that changes something or is refused (docs/OPERATING.md, "The log").

ghost use Rattle.std.specs.Prelude.{◌≡◌, ◌++◌, ◌+◌, ◌<◌, ◌≤◌, IfOk, List, OnErr, OnOk, Option, codes, length, take, true, vec_capacity, vec_len, ℕ};
ghost use Rattle.control_line.specs.declared.reply.TheConstants.{REPLY_LIMIT};
ghost use Rattle.command_explain.specs.Shown.{shown_text};
ghost use Rattle.serve_control.specs.declared.log.TheConstants.{LOGGED_BYTES};
ghost use Rattle.serve_control.specs.Log.{IsLogLine, TellsLine, TellsRequest, is_logged, log_text, peer_text};

use command_explain::push_shown;
use control_line::Reply;
use ipv4_fields::Endpoint;
use std::alloc::{AllocError, Global};
use std::marker::Model;

/// The most bytes of a request that a line of the log shows.
pub const LOGGED_BYTES: usize = 256;

// No line whose reply is within `REPLY_LIMIT` needs more room.
const LINE_ROOM: usize = 2048;

/// The sender of a request.
#[derive(Clone, Copy, Debug, PartialEq, Eq)]
pub enum Peer {
    /// The sender of a datagram.
    Udp(Endpoint),
    /// A connection, by its number; the first one of a switch has 1.
    Unix(u64),
}

/// The receiver of a log's lines.
pub trait LogLines {
    /// The lines that were logged, if they are known. Nothing is known about a terminal or a file.
    ghost lines: { Self → Option (List (List ℕ)) };

    /// Takes a line of the log, which ends with LF.
    fn tell(&mut self, line: &[u8])
        requires { IsLogLine line.now }
        ensures { TellsLine (lines self.old) (lines self.new) line.now };
}

/// No log: each line is dropped.
#[derive(Clone, Copy, Drop)]
pub struct NoLog;

impl LogLines for NoLog {
    ghost use Rattle.std.specs.Prelude.{None};

    ghost lines = { λ _. None };

    fn tell(&mut self, _line: &[u8]) {}
}

// Tests whether a reply says that its request changed something or was not done.
fn is_logged(reply: &[u8]) -> bool
    ensures { result ≡ is_logged reply.now }
{
    reply.starts_with(b"ok ".as_slice())
        || reply.starts_with(b"refused ".as_slice())
        || reply.starts_with(b"failed ".as_slice())
}

/// A log, and room for a line of it.
#[derive(Drop)]
pub struct Log<L: LogLines> {
    lines: L,
    room: Vec<u8>,
}

impl<L: LogLines> Model for Log<L> {
    ghost use Rattle.std.specs.Prelude.{List, Option, vec_capacity, ℕ, ◌≤◌};

    ghost Value = { Option (List (List ℕ)) };

    ghost view = { λ log. L.lines log.lines };

    ghost invariant = { λ log. 2048 ≤ vec_capacity log.room };
}

fn peer_name(peer: Peer) -> Reply
    ensures { result ≡ peer_text peer }
{
    let mut name = Reply::empty();
    match peer {
        Peer::Udp(from) => from.append_to(&mut name),
        Peer::Unix(number) => {
            name.push("unix:");
            name.push_number(number);
        }
    }
    name
}

// The bytes of a request that are shown.
fn front_of(request: &[u8]) -> &[u8]
    ensures front { result.now ≡ take LOGGED_BYTES request.now }
    ensures short { length result.now ≤ LOGGED_BYTES }
{
    if request.len() <= LOGGED_BYTES {
        return request;
    }
    &request[..LOGGED_BYTES]
}

// Appends the sender of a request, and the reply.
fn push_front(line: &mut Vec<u8>, peer: Peer, reply: &[u8]) -> Result<(), AllocError>
    ensures appended { OnOk result (line.new.items ≡ line.old.items ++ (peer_text peer ++ (codes " " ++ reply.now))) }
    ensures at_most { OnOk result (vec_len line.new ≤ vec_len line.old + (129 + length reply.now)) }
    ensures capacity { vec_capacity line.old ≤ vec_capacity line.new }
    ensures full { OnErr result (vec_capacity line.old < vec_len line.old + (129 + length reply.now)) }
{
    line.extend_from_slice(peer_name(peer).bytes())?;
    line.extend_from_slice(b" ".as_slice())?;
    line.extend_from_slice(reply)
}

// Appends the request, as it is shown, and the end of the line.
fn push_end(line: &mut Vec<u8>, request: &[u8]) -> Result<(), AllocError>
    ensures appended { OnOk result (line.new.items ≡ line.old.items ++ (codes ": " ++ (shown_text (take LOGGED_BYTES request.now) ++ codes "\n"))) }
    ensures capacity { vec_capacity line.old ≤ vec_capacity line.new }
    ensures full { OnErr result (vec_capacity line.old < vec_len line.old + 1027) }
{
    line.extend_from_slice(b": ".as_slice())?;
    push_shown(line, front_of(request))?;
    line.extend_from_slice(b"\n".as_slice())
}

// Appends the line of a request and its reply.
fn push_line(line: &mut Vec<u8>, peer: Peer, request: &[u8], reply: &[u8]) -> Result<(), AllocError>
    ensures appended { OnOk result (line.new.items ≡ line.old.items ++ log_text peer request.now reply.now) }
    ensures capacity { vec_capacity line.old ≤ vec_capacity line.new }
    ensures full { OnErr result (vec_capacity line.old < vec_len line.old + (1156 + length reply.now)) }
{
    push_front(line, peer, reply)?;
    push_end(line, request)?;
    Ok(())
}

impl<L: LogLines> Log<L> {
    /// Takes the memory for a line.
    pub fn new(alloc: Global, lines: L) -> Result<Log<L>, AllocError>
    where
        L: Drop,
        ensures { IfOk result (λ log. log ≡ L.lines lines) }
    {
        Ok(Log {
            lines,
            room: Vec::with_capacity(alloc, LINE_ROOM)?,
        })
    }

    /// Logs a request and its reply in one line, if the request changed something or was not done. `Err` logs nothing;
    /// only a reply that is longer than a control line's needs memory.
    pub fn tell_request(
        &mut self,
        peer: Peer,
        request: &[u8],
        reply: &[u8],
    ) -> Result<(), AllocError>
        ensures told { OnOk result (TellsRequest self.old self.new peer request.now reply.now) }
        ensures untold { OnErr result (self.new ≡ self.old) }
        ensures logged { OnErr result (is_logged reply.now ≡ true) }
        ensures long { OnErr result (REPLY_LIMIT < length reply.now) }
    {
        if !is_logged(reply) {
            return Ok(());
        }
        self.room.clear();
        push_line(&mut self.room, peer, request, reply)?;
        self.lines.tell(&self.room);
        Ok(())
    }
}
