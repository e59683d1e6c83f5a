//! Devices for tests: in memory, and failing once.

ghost use Rattle.std.specs.Prelude.{Some};

use dispatch::{Datagrams, Failed, Kind, Outbox, Sends, Source, Tally};
use ipv4_fields::Endpoint;
use read_section::{Operator, WORKERS};
use std::alloc::Global;
use std::process::Abort;

/// A source that fails once, after this many calls.
#[derive(Drop)]
pub struct FailsAfter {
    pub calls: u8,
    pub failed: bool,
    pub datagrams: Datagrams,
}

impl Source for FailsAfter {
    ghost use Rattle.std.specs.Prelude.{None, Some};
    ghost use Rattle.dispatch.specs.Batch.{one_if};

    ghost state = { λ s. record { failures = one_if s.failed; coming = Some s.datagrams; given = None } };

    fn next(&mut self, buf: &mut [u8]) -> Result<Option<usize>, Failed> {
        if self.calls == 0 && !self.failed {
            self.failed = true;
            return Err(Failed);
        }
        self.calls = self.calls.saturating_sub(1);
        self.datagrams.next(buf)
    }
}

/// An outbox that fails at its first send.
#[derive(Drop)]
pub struct FailsFirst {
    pub failed: bool,
    pub sends: Sends,
}

impl Outbox for FailsFirst {
    ghost use Rattle.std.specs.Prelude.{◌+◌};
    ghost use Rattle.dispatch.specs.Batch.{one_if};
    ghost use Rattle.dispatch.specs.Memory.{told};

    ghost state = { λ s. record { failures = one_if s.failed + s.sends.failures; taken = told s.sends } };

    fn send(&mut self, to: Endpoint, bytes: &[u8]) -> Result<(), Failed> {
        if !self.failed {
            self.failed = true;
            return Err(Failed);
        }
        self.sends.send(to, bytes)
    }
}

/// An outbox that looks, at each send, whether the last worker of a table is outside, and how many packets were counted
/// as delivered.
#[derive(Drop)]
pub struct Looks {
    pub operator: Operator,
    pub tally: Tally,
    /// The number of sends at which the worker's read word was not 0.
    pub inside: u8,
    /// The count of the tally at the last send.
    pub delivered: u64,
    pub sends: Sends,
}

impl Outbox for Looks {
    ghost use Rattle.dispatch.specs.Memory.{told};

    ghost state = { λ s. record { failures = s.sends.failures; taken = told s.sends } };

    fn send(&mut self, to: Endpoint, bytes: &[u8]) -> Result<(), Failed> {
        if self.operator.scan(WORKERS - 1) != 0 {
            self.inside = self.inside.saturating_add(1);
        }
        self.delivered = self.tally.read(Kind::Delivered);
        self.sends.send(to, bytes)
    }
}

const PORT_53: Endpoint = Endpoint {
    address: 0x7f00_0001,
    port: 53,
};

/// Puts a datagram of these bytes after the others.
pub fn push(rt: &impl Abort, alloc: Global, datagrams: &mut Datagrams, bytes: &[u8]) {
    let datagram = Vec::from_slice(alloc, bytes).expect(rt, "a datagram's bytes");
    datagrams.push(datagram).expect(rt, "one datagram more");
}

// The next datagram has this length; none is at the end.
fn next_is(rt: &impl Abort, datagrams: &mut Datagrams, buf: &mut [u8], len: Option<usize>) {
    assert!(rt; datagrams.next(buf) == Ok(len));
}

#[test]
fn datagrams_come_in_order_and_cut(rt: HostRuntime) {
    let mut datagrams = Datagrams::new(rt.alloc());
    push(&rt, rt.alloc(), &mut datagrams, &[1, 2]);
    push(&rt, rt.alloc(), &mut datagrams, &[]);
    push(&rt, rt.alloc(), &mut datagrams, &[3, 4, 5, 6]);
    let mut buf = [0; 3];
    next_is(&rt, &mut datagrams, &mut buf, Some(2));
    assert!(rt; buf == [1, 2, 0]);
    next_is(&rt, &mut datagrams, &mut buf, Some(0));
    next_is(&rt, &mut datagrams, &mut buf, Some(3));
    assert!(rt; buf == [3, 4, 5]);
    next_is(&rt, &mut datagrams, &mut buf, None);
}

/// Room for `count` sends, and for `bytes` bytes in all of them.
pub fn sends(rt: &impl Abort, alloc: Global, count: usize, bytes: usize) -> Sends {
    Sends::with_room(alloc, count, bytes).expect(rt, "room for sends")
}

// A send of these bytes fails or not.
fn sends_so(rt: &impl Abort, sends: &mut Sends, bytes: &[u8], sent: Result<(), Failed>) {
    assert!(rt; sends.send(PORT_53, bytes) == sent);
}

#[test]
fn sends_past_the_room_fail(rt: HostRuntime) {
    let mut few = sends(&rt, rt.alloc(), 1, 9);
    sends_so(&rt, &mut few, &[1, 2], Ok(()));
    sends_so(&rt, &mut few, &[3], Err(Failed));
    assert!(rt; (few.count(), few.to(0), few.to(1)) == (1, Some(PORT_53), None));
    let mut short = sends(&rt, rt.alloc(), 9, 3);
    sends_so(&rt, &mut short, &[1, 2], Ok(()));
    sends_so(&rt, &mut short, &[3, 4], Err(Failed));
    sends_so(&rt, &mut short, &[5], Ok(()));
    assert!(rt; short.bytes() == [1, 2, 5].as_slice());
}
