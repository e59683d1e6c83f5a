//! A client of a switch: it sends lines, and receives their replies.

ghost use Rattle.std.specs.Prelude.{◌≡◌, IfErr, IfOk};
ghost use Rattle.control_client.specs.Exchange.{Asks};
ghost use Rattle.control_rules.specs.Asked.{AskEndsBy};

use crate::ask_failure::AskFailure;
use control_client::{LONGEST_DATAGRAM, Peer, Wire, ask};
use std::alloc::Global;
use std::marker::Model;

/// A client of the switch at the other end of a wire.
#[derive(Drop)]
pub struct Client<D: Wire + Drop> {
    wire: D,
    switch: Peer,
    // Room for a reply.
    room: Vec<u8>,
    alloc: Global,
}

impl<D: Wire + Drop> Model for Client<D> {
    ghost use Rattle.control_rules.specs.History.{ClientValue};

    ghost Value = { ClientValue };

    ghost view = { λ client. record { switch = client.switch; log = D.log client.wire } };
}

impl<D: Wire + Drop> Client<D> {
    pub fn new(alloc: Global, wire: D, switch: Peer) -> Result<Client<D>, AskFailure>
        ensures switch { IfOk result (λ client. client.switch ≡ switch) }
        ensures log { IfOk result (λ client. client.log ≡ D.log wire) }
        ensures failed { IfErr result (λ failure. failure ≡ AskFailure.OutOfMemory) }
    {
        Ok(Client {
            wire,
            switch,
            room: vec![in alloc; 0; LONGEST_DATAGRAM]?,
            alloc,
        })
    }

    /// Returns the allocator that replies are kept in.
    pub fn allocator(&self) -> Global {
        self.alloc
    }

    /// Sends a line, and returns its reply.
    pub fn ask(&mut self, line: &[u8]) -> Result<Vec<u8>, AskFailure>
        ensures switch { self.new.switch ≡ self.old.switch }
        ensures asked { IfOk result (λ reply. Asks self.old.switch line.now reply.items self.old.log self.new.log) }
        ensures unasked { IfErr result (λ failure. AskEndsBy failure self.old.switch line.now self.old.log self.new.log) }
    {
        match ask(&mut self.wire, self.switch, line, &mut self.room) {
            Ok(reply) => Ok(Vec::from_slice(self.alloc, reply)?),
            Err(failure) => Err(AskFailure::of(failure)),
        }
    }
}
