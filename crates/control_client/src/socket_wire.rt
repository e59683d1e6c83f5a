//! The wire to a switch by its address: over a UDP socket, or over its socket file.

ghost use Rattle.std.specs.Prelude.{◌≡◌, IfErr};
ghost use Rattle.control_client.specs.Tell.{IsMakingFault};
ghost use Rattle.control_client.specs.Wire.{peer_of};

use crate::device::{Came, Peer, Wire, WireFailed};
use crate::trouble::Trouble;
use crate::udp_device::UdpWire;
use crate::unix_device::UnixWire;
use command_line::{ControlAddress, Failure};
use std::alloc::Global;
use std::cell::Cell;
use std::net::Net;
use std::time::Clock;

/// The way to reach a switch.
#[derive(Clone, Copy)]
pub struct Reach<'a> {
    pub address: ControlAddress<'a>,
    /// How long a request waits for its reply.
    pub seconds: u64,
    /// The record of what happened to a connection.
    pub trouble: &'a Cell<Option<Trouble>>,
}

impl Reach<'_> {
    /// Returns the other end of a wire to the switch.
    pub fn peer(self) -> Peer
        ensures { result ≡ peer_of self.entry.address }
    {
        match self.address {
            ControlAddress::Udp(endpoint) => Peer::Udp(endpoint),
            ControlAddress::Unix(_) => Peer::Unix,
        }
    }
}

/// A wire over its own socket. Contracts see nothing of what happens on it.
#[derive(Drop)]
pub enum SocketWire<'a, R: Clock + Net> {
    Udp(UdpWire<'a, R>),
    Unix(UnixWire<'a, R>),
}

impl<'a, R: Clock + Net> SocketWire<'a, R> {
    /// Makes a wire to a switch. The connection to a socket file is made for the first request.
    pub fn open(rt: &'a R, alloc: Global, reach: Reach<'a>) -> Result<SocketWire<'a, R>, Failure>
        ensures faults { IfErr result IsMakingFault }
    {
        match reach.address {
            ControlAddress::Udp(_) => Ok(SocketWire::Udp(UdpWire::bind(rt, alloc, reach.seconds)?)),
            ControlAddress::Unix(path) => {
                let wire = UnixWire::new(rt, alloc, reach.seconds, path, reach.trouble);
                Ok(SocketWire::Unix(wire))
            }
        }
    }
}

impl<R: Clock + Net> Wire for SocketWire<'_, R> {
    ghost use Rattle.std.specs.Prelude.{None};

    ghost log = { λ _. None };

    fn send(&mut self, to: Peer, bytes: &[u8]) -> Result<(), WireFailed> {
        match self {
            SocketWire::Udp(wire) => wire.send(to, bytes),
            SocketWire::Unix(wire) => wire.send(to, bytes),
        }
    }

    fn receive(&mut self, buf: &mut [u8]) -> Result<Option<Came>, WireFailed> {
        match self {
            SocketWire::Udp(wire) => wire.receive(buf),
            SocketWire::Unix(wire) => wire.receive(buf),
        }
    }
}
