//! Devices: where datagrams come from, and where they go (docs/SWITCH.md, "Devices").

ghost use Rattle.std.specs.Prelude.{◌≡◌, ◌≤◌, IfOk, IfSome, length};
ghost use Rattle.dispatch.specs.Device.{AreGivenAfter, CountsFailure, Gives, IsAtEnd, OutboxValue, SourceValue, Takes, given_in, taken_by};

use ipv4_fields::Endpoint;
use packet_verdict::Verdict;

/// A device failed.
#[derive(Clone, Copy, Debug, PartialEq, Eq, Drop)]
pub struct Failed;

/// A source of datagrams.
pub trait Source {
    ghost state: { Self → SourceValue };

    /// Writes the next datagram into the front of `buf`, and returns its size; a longer one is cut to the buffer. Returns `None` if no
    /// more come.
    fn next(&mut self, buf: &mut [u8]) -> Result<Option<usize>, Failed>
        ensures device_failed { CountsFailure result (state self.old).failures (state self.new).failures }
        ensures within { IfOk result (λ answer. IfSome answer (λ size. size ≤ length buf.new)) }
        ensures given_once { Gives (length buf.new) (state self.old).coming (state self.new).coming (given_in buf.new result) }
        ensures given_in_order { AreGivenAfter (length buf.new) (state self.old).given (state self.new).given (given_in buf.new result) }
        ensures end { result ≡ Ok None → IsAtEnd (state self.new).coming };

    /// Tests whether `next` must wait for a datagram now. Meanwhile the outbox should keep nothing back.
    fn would_wait(&mut self) -> bool
        ensures unchanged { state self.new ≡ state self.old }
    {
        false
    }
}

/// A destination of datagrams.
pub trait Outbox {
    ghost state: { Self → OutboxValue };

    /// Sends the bytes as one datagram.
    fn send(&mut self, to: Endpoint, bytes: &[u8]) -> Result<(), Failed>
        ensures device_failed { CountsFailure result (state self.old).failures (state self.new).failures }
        ensures sent_once { Takes (state self.old).taken (state self.new).taken (taken_by result to bytes.now) };

    /// Takes note of a verdict, after it was counted and before what it keeps is sent.
    fn judged(&mut self, _verdict: &Verdict)
        ensures unchanged { state self.new ≡ state self.old }
    {}

    /// Takes note of the group that has no member, after `judged` with such a verdict.
    fn no_members(&mut self, _group: Endpoint)
        ensures unchanged { state self.new ≡ state self.old }
    {}

    /// Hands on what it took note of, after each batch and before the source waits.
    fn hand_on(&mut self)
        ensures unchanged { state self.new ≡ state self.old }
    {}
}
