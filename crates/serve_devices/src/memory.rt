//! An ingress and an egress in memory, of which contracts see everything.

ghost use Rattle.std.specs.Prelude.{◌≡◌, ◌++◌, ◌∷◌, OnErr, OnOk, []};

use crate::egress::Egress;
use crate::given::Given;
use crate::ingress::Ingress;
use crate::received::Received;
use dispatch::{Failed, OutOfMemory, Outbox, Sends};
use ipv4_fields::Endpoint;
use std::alloc::Global;
use std::collections::VecDeque;
use std::marker::Model;

/// Receives in memory, which come in their order. Contracts see each: a datagram's bytes, or a failure.
#[derive(Drop)]
pub struct Receives {
    waiting: VecDeque<Received>,
}

impl Model for Receives {
    ghost use Rattle.std.specs.Prelude.{List};
    ghost use Rattle.serve_devices.specs.Ingress.{Receive};

    ghost Value = { List Receive };

    ghost view = { λ r. r.waiting.items };
}

impl Receives {
    pub fn new(alloc: Global) -> Receives
        ensures none { result ≡ [] }
    {
        Receives {
            waiting: VecDeque::new(alloc),
        }
    }

    /// Puts a receive after the others.
    pub fn push(&mut self, received: Received) -> Result<(), OutOfMemory>
        ensures last { OnOk result (self.new ≡ self.old ++ received ∷ []) }
        ensures kept { OnErr result (self.new ≡ self.old) }
    {
        self.waiting.push_back(received).map_err(|_| OutOfMemory)
    }
}

/// No more come once all were received.
impl Ingress for Receives {
    ghost use Rattle.std.specs.Prelude.{None, Some};

    ghost coming = { λ r. Some r };

    ghost past = { λ _. None };

    fn receive(&mut self, buf: &mut [u8]) -> Option<Result<usize, Failed>> {
        let received = self.waiting.pop_front()?;
        Some(received.open(buf))
    }

    fn try_receive(&mut self, buf: &mut [u8]) -> Option<Result<usize, Failed>> {
        self.receive(buf)
    }

    fn close(self) -> Given {
        Given::unknown()
    }
}

/// A send past the room fails.
impl Egress for Sends {
    ghost use Rattle.std.specs.Prelude.{◌+◌, length, option_map};
    ghost use Rattle.dispatch.specs.Memory.{told};

    ghost taken = { λ s. told s };

    ghost calls = { λ s. option_map (λ sent. length sent + s.failures) (told s) };

    fn transmit(&mut self, to: Endpoint, bytes: &[u8]) -> Result<usize, Failed> {
        self.send(to, bytes)?;
        Ok(bytes.len())
    }
}
