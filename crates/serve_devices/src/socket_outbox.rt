//! The outbox of a worker: a UDP socket of its own.

ghost use Rattle.std.specs.Prelude.{◌≡◌, ◌≢◌};
ghost use Rattle.dispatch.specs.Device.{CountsFailure, Takes, taken_by};
ghost use Rattle.serve_devices.specs.Devices.{CountsCall, MOST_FAILURES, outbox_with};

use crate::egress::Egress;
use dispatch::{Failed, Outbox};
use ipv4_fields::Endpoint;
use std::marker::Model;

/// An outbox over an egress, such as a socket. A send fails if the egress fails, or takes fewer bytes than there are.
///
/// Contracts see how often it failed, and what was sent and how often the egress was called, if the egress shows it. After
/// 2^64 - 1 failures it sends no more, returns as if all were sent, and no longer shows what was sent.
#[derive(Drop)]
pub struct SocketOutbox<E: Egress + Drop> {
    egress: E,
    failures: u64,
}

impl<E: Egress + Drop> Model for SocketOutbox<E> {
    ghost use Rattle.serve_devices.specs.Devices.{SocketOutboxValue, outbox_with};

    ghost Value = { SocketOutboxValue };

    ghost view = { λ o. record { outbox = outbox_with o.failures (E.taken o.egress); calls = E.calls o.egress } };
}

// Sends, by one call. A datagram that was not taken whole is a send that failed.
fn transmit_whole<E: Egress>(egress: &mut E, to: Endpoint, bytes: &[u8]) -> Result<(), Failed>
    ensures sent { Takes (E.taken egress.old) (E.taken egress.new) (taken_by result to bytes.now) }
    ensures called { CountsCall (E.calls egress.old) (E.calls egress.new) }
{
    match egress.transmit(to, bytes) {
        Ok(size) if size == bytes.len() => Ok(()),
        _ => Err(Failed),
    }
}

impl<E: Egress + Drop> SocketOutbox<E> {
    /// Takes the egress, by which no send has failed yet.
    pub fn new(egress: E) -> SocketOutbox<E>
        ensures new { result ≡ record { outbox = outbox_with 0 (E.taken egress); calls = E.calls egress } }
    {
        SocketOutbox {
            egress,
            failures: 0,
        }
    }
}

impl<E: Egress + Drop> Outbox for SocketOutbox<E> {
    ghost state = { λ o. o.outbox };

    fn send(&mut self, to: Endpoint, bytes: &[u8]) -> Result<(), Failed>
        ensures device_failed { CountsFailure result self.old.outbox.failures self.new.outbox.failures }
        ensures sent_once { Takes self.old.outbox.taken self.new.outbox.taken (taken_by result to bytes.now) }
        ensures called { self.old.outbox.failures ≢ MOST_FAILURES → CountsCall self.old.calls self.new.calls }
        ensures full { self.old.outbox.failures ≡ MOST_FAILURES → self.new.calls ≡ self.old.calls }
    {
        if self.failures == u64::MAX {
            return Ok(());
        }
        let sent = transmit_whole(&mut self.egress, to, bytes);
        if sent.is_err() {
            self.failures += 1;
        }
        sent
    }
}
