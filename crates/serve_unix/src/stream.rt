//! The stream to a client over a Unix socket, which does not block.

ghost use Rattle.std.specs.Prelude.{◌≢◌, ℕ};

use mio::net::UnixStream;
use serve_stream::{Arrived, Sent, Stream};
use std::io::{Error, ErrorKind, Read, Write};

/// A stream of which contracts see nothing.
#[derive(Drop)]
pub struct ClientStream {
    socket: UnixStream,
}

impl ClientStream {
    pub fn new(socket: UnixStream) -> ClientStream {
        ClientStream { socket }
    }

    /// Returns the socket, to be registered.
    pub(crate) fn socket(&mut self) -> &mut UnixStream {
        &mut self.socket
    }
}

fn unread(error: &Error) -> Arrived
    ensures { (count : ℕ) → result ≢ Arrived.Bytes count }
{
    match error.kind() {
        ErrorKind::WouldBlock => Arrived::NotYet,
        ErrorKind::Interrupted => Arrived::Interrupted,
        _ => Arrived::Failed,
    }
}

fn unsent(error: &Error) -> Sent
    ensures { (count : ℕ) → result ≢ Sent.Bytes count }
{
    match error.kind() {
        ErrorKind::WouldBlock => Sent::NotYet,
        ErrorKind::Interrupted => Sent::Interrupted,
        _ => Sent::Failed,
    }
}

impl Stream for ClientStream {
    ghost use Rattle.std.specs.Prelude.{None};

    ghost log = { λ _. None };

    fn read(&mut self, room: &mut [u8]) -> Arrived {
        match self.socket.read(room) {
            Ok(0) => Arrived::Ended,
            Ok(count) => Arrived::Bytes(count),
            Err(error) => unread(&error),
        }
    }

    fn write(&mut self, bytes: &[u8]) -> Sent {
        match self.socket.write(bytes) {
            Ok(0) => Sent::Failed,
            Ok(count) => Sent::Bytes(count),
            Err(error) => unsent(&error),
        }
    }
}
