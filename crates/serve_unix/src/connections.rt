//! Accepting clients, and closing their connections.

ghost use Rattle.std.specs.Prelude.{◌≡◌, ◌∷◌, List, Option, []};
ghost use Rattle.serve_unix.specs.Connections.{Connection, IsNewClient, Tells, accepted_by, closed, watched_by};

use serve_stream::Stream;

/// The result of an accept.
pub enum Accepted<S> {
    /// A client, by its stream.
    Client(S),
    /// The call was interrupted, and may be made again at once.
    Interrupted,
    /// No client waits, or none can be accepted now.
    NotYet,
}

/// The connections of clients, by their streams. No call of it waits.
pub trait Connections<S: Stream> {
    /// The clients that were accepted, watched and closed, in order, if they are known. For a socket they are not
    /// known.
    ghost log: { Self → Option (List Connection) };

    /// Accepts a client that waits, on whose stream nothing has happened.
    fn accept(&mut self) -> Accepted<S>
        ensures untouched { IsNewClient S.log result }
        ensures logged { Tells (log self.old) (log self.new) (accepted_by result) };

    /// Registers a client, so that its events name the place that it is to have. False if that fails.
    fn watch(&mut self, stream: &mut S, place: usize) -> bool
        ensures stream_kept { S.log stream.new ≡ S.log stream.old }
        ensures logged { Tells (log self.old) (log self.new) (watched_by result place) };

    /// Closes the connection of a client.
    /// The reason: docs/INTERNALS.md, "A closed stream is handed back".
    fn close(&mut self, stream: S)
        ensures logged { Tells (log self.old) (log self.new) (closed (S.log stream) ∷ []) };
}
