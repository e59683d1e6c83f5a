//! The wire to a switch: requests are sent, and replies come, from the switch or from elsewhere.

ghost use Rattle.std.specs.Prelude.{◌≡◌, ◌≤◌, ◌↔◌, IfOk, IfSome, IsTrue, List, Option, length};
ghost use Rattle.control_client.specs.Wire.{Event, Logs, came_by, sent_by};

use ipv4_fields::Endpoint;

/// The other end of a wire.
#[derive(Clone, Copy, Debug)]
pub enum Peer {
    /// The socket at this endpoint. A request is a datagram, and so is a reply.
    Udp(Endpoint),
    /// The other end of a stream. A request is one or more lines, and a reply is a line; each ends with LF.
    Unix,
}

impl Peer {
    /// Tests whether this is the other one.
    pub fn is(self, other: Peer) -> bool
        ensures { IsTrue result ↔ (self ≡ other) }
    {
        match (self, other) {
            (Peer::Udp(one), Peer::Udp(two)) => one == two,
            (Peer::Unix, Peer::Unix) => true,
            _ => false,
        }
    }
}

/// A wire failed.
#[derive(Clone, Copy, Debug, PartialEq, Eq, Drop)]
pub struct WireFailed;

/// A reply that came: who sent it, and how many bytes it has.
#[derive(Clone, Copy, Debug)]
pub struct Came {
    pub from: Peer,
    pub len: usize,
}

/// The destination of requests, and the source of their replies.
pub trait Wire {
    ghost log: { Self → Option (List Event) };

    /// Sends the bytes as one request. The time for its reply runs from here.
    fn send(&mut self, to: Peer, bytes: &[u8]) -> Result<(), WireFailed>
        ensures logged { Logs (log self.old) (log self.new) (sent_by result to bytes.now) };

    /// Receives the next reply into the front of `buf`. `None` if none came in the time for it.
    fn receive(&mut self, buf: &mut [u8]) -> Result<Option<Came>, WireFailed>
        ensures within { IfOk result (λ answer. IfSome answer (λ one. one.len ≤ length buf.new)) }
        ensures logged { Logs (log self.old) (log self.new) (came_by result buf.new) };
}
