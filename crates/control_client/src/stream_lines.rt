//! Requests and replies on a stream: lines, each ended by LF.

ghost use Rattle.std.specs.Prelude.{◌≡◌, ◌↔◌, ◌++◌, IfOk, IsTrue, List, OnOk, codes, ℕ};
ghost use Rattle.std.specs.Io.KnownBytes.{Appends, Consumes};
ghost use Rattle.control_client.specs.Stream.{EndsLineAt, StaysOpen};

use crate::asking::LONGEST_DATAGRAM;
use control_line::is_word;
use memchr::memchr;
use std::io;
use std::io::{Read, Write};

/// Why no line was received.
#[derive(Drop)]
pub(crate) enum LineLost {
    /// The stream ended first.
    Ended,
    /// More bytes came than a reply has, and no LF.
    Endless,
    /// No more came in time.
    Late,
    Failed(io::Error),
}

/// Writes a request, and the LF that ends its last line.
pub(crate) fn write_request<S: Write>(to: &mut S, request: &[u8]) -> io::Result<()>
    ensures { OnOk result (Appends (S.contents to.old) (S.contents to.new) (request.now ++ codes "\n")) }
{
    to.write_all(request)?;
    to.write_all(b"\n".as_slice())
}

// Reads once, and adds what came.
fn read_more<S: Read>(from: &mut S, held: &mut Vec<u8>) -> Result<(), LineLost>
    ensures { OnOk result ((more : List ℕ) × (held.new.items ≡ held.old.items ++ more)
        × Consumes (S.remaining from.old) (S.remaining from.new) more) }
{
    let mut room = [0; 512];
    match from.read(&mut room) {
        Ok(0) => Err(LineLost::Ended),
        Ok(count) => match held.extend_from_slice(&room[..count]) {
            Ok(()) => Ok(()),
            Err(_) => Err(LineLost::Endless),
        },
        Err(error) if error.kind() == io::ErrorKind::TimedOut => Err(LineLost::Late),
        Err(error) => Err(LineLost::Failed(error)),
    }
}

/// Receives a line in place of what `held` has, and returns the line's length without LF. `held` may have bytes after the line,
/// too.
pub(crate) fn receive_line<S: Read>(from: &mut S, held: &mut Vec<u8>) -> Result<usize, LineLost>
    ensures line { IfOk result (λ len. EndsLineAt len held.new.items) }
    ensures taken { OnOk result (Consumes (S.remaining from.old) (S.remaining from.new) held.new.items) }
{
    held.clear();
    for _turn in 0..LONGEST_DATAGRAM {
        read_more(from, held)?;
        if let Some(len) = memchr(b'\n', held) {
            return Ok(len);
        }
        if held.len() > LONGEST_DATAGRAM {
            return Err(LineLost::Endless);
        }
    }
    Err(LineLost::Endless)
}

/// Tests whether the next request may be sent on a stream that returned this reply, and these bytes after the reply's LF.
///
/// A switch closes the stream if it does not know where a request ends, and refuses it. Bytes after a reply would be taken for the
/// reply to the next request.
pub(crate) fn stays_open(reply: &[u8], after: &[u8]) -> bool
    ensures { IsTrue result ↔ StaysOpen reply.now after.now }
{
    if is_word(reply, "refused C1") || is_word(reply, "refused C2") {
        return false;
    }
    after.is_empty()
}
