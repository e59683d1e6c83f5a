//! Outboxes whose contracts show what they took note of (docs/SWITCH.md, "Devices").

ghost use Rattle.std.specs.Prelude.{◌≡◌, ◌∷◌, List, Option, []};
ghost use Rattle.dispatch.specs.Device.{CountsFailure, OutboxValue, Takes, taken_by};
ghost use Rattle.dispatch.specs.Told.{Told, judged_as, told_by_send};

use crate::device::{Failed, Outbox};
use ipv4_fields::{Endpoint, dispatchable};
use packet_verdict::Verdict;

/// An outbox, and what it took note of. Each `Outbox` is one, of whose notes nothing is known.
/// The reason: docs/INTERNALS.md, "Calls of an outbox that may do nothing".
pub trait VerdictOutbox {
    ghost state: { Self → OutboxValue };

    /// The verdicts and the failed sends that it took note of, in order, if they are known.
    ghost told: { Self → Option (List Told) };

    /// States that it has handed on all that it took note of.
    ghost IsHandedOn: { Self → Type 0 };

    /// Sends the bytes as one datagram.
    fn send_kept(&mut self, to: Endpoint, bytes: &[u8]) -> Result<(), Failed>
        ensures device_failed { CountsFailure result (state self.old).failures (state self.new).failures }
        ensures sent_once { Takes (state self.old).taken (state self.new).taken (taken_by result to bytes.now) }
        ensures told_once { Takes (told self.old) (told self.new) (told_by_send result) };

    /// Takes note of the verdict of a packet.
    fn tell(&mut self, verdict: Verdict, packet: &[u8])
        ensures unchanged { state self.new ≡ state self.old }
        ensures told_once { Takes (told self.old) (told self.new) (judged_as verdict packet.now ∷ []) };

    /// Hands on all that it took note of.
    fn hand_all_on(&mut self)
        ensures unchanged { state self.new ≡ state self.old }
        ensures told_kept { told self.new ≡ told self.old }
        ensures handed_on { IsHandedOn self.new };
}

impl<O: Outbox> VerdictOutbox for O {
    ghost use Rattle.std.specs.Prelude.{None};

    ghost state = { O.state };

    ghost told = { λ _. None };

    ghost IsHandedOn = { λ _. Unit {0} };

    fn send_kept(&mut self, to: Endpoint, bytes: &[u8]) -> Result<(), Failed> {
        self.send(to, bytes)
    }

    fn tell(&mut self, verdict: Verdict, packet: &[u8]) {
        self.judged(&verdict);
        if let Verdict::NoMembers = verdict {
            // The verdict says that there is one.
            if let Some(flow) = dispatchable(packet) {
                self.no_members(flow.destination);
            }
        }
    }

    fn hand_all_on(&mut self) {
        self.hand_on();
    }
}
