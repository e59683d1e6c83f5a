//! The byte stream to a client: bytes come from it, and it takes bytes.

ghost use Rattle.std.specs.Prelude.{List, Option, length};
ghost use Rattle.serve_stream.specs.Stream.{Event, IsWithin, IsWithinSent, Logs, events_of_read, events_of_write};

/// The result of a read of a stream.
#[derive(Clone, Copy, Debug, PartialEq, Eq)]
pub enum Arrived {
    /// This many bytes came.
    Bytes(usize),
    /// None are there yet: the read would block.
    NotYet,
    /// The read was interrupted, and may be made again at once.
    Interrupted,
    /// The client has closed its side: no more bytes come.
    Ended,
    /// The stream failed.
    Failed,
}

/// The result of a write to a stream.
#[derive(Clone, Copy, Debug, PartialEq, Eq)]
pub enum Sent {
    /// The stream took this many of the bytes, from the first one on.
    Bytes(usize),
    /// The stream takes none yet: the write would block.
    NotYet,
    /// The write was interrupted, and may be made again at once.
    Interrupted,
    /// The stream failed. The client may have closed it.
    Failed,
}

/// A stream of bytes to a client and from it. No call of it waits.
/// The reason: docs/INTERNALS.md, "Relations for requests, logs for streams".
pub trait Stream {
    /// The events on the stream, if they are known. For a socket they are not known.
    ghost log: { Self → Option (List Event) };

    /// Reads bytes into the front of `room`.
    fn read(&mut self, room: &mut [u8]) -> Arrived
        ensures within { IsWithin (length room.new) result }
        ensures logged { Logs (log self.old) (log self.new) (events_of_read result room.new) };

    /// Writes the first of the bytes: of some bytes at least one, if it takes any.
    fn write(&mut self, bytes: &[u8]) -> Sent
        ensures within { IsWithinSent (length bytes.now) result }
        ensures logged { Logs (log self.old) (log self.new) (events_of_write result bytes.now) };
}
