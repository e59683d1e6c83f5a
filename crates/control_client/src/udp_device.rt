//! The wire over a UDP socket, which waits for a reply until the timeout.

ghost use Rattle.std.specs.Prelude.{IfErr};
ghost use Rattle.control_client.specs.Tell.{IsMakingFault};

use crate::device::{Came, Peer, Wire, WireFailed};
use command_line::Failure;
use ipv4_fields::Endpoint;
use mio::net::UdpSocket;
use mio::{Events, Interest, Poll, Token};
use std::alloc::Global;
use std::io::ErrorKind;
use std::net::Net;
use std::time::{Clock, Duration, Instant};

// A socket at any address of the system, at a port that it picks.
const ANY_PORT: Endpoint = Endpoint {
    address: 0,
    port: 0,
};

/// A wire over its own socket. Contracts see nothing of what happens on it.
/// Why it is not connected: docs/DECISIONS.md, "The client's socket is not connected".
#[derive(Drop)]
pub struct UdpWire<'a, R: Clock> {
    clock: &'a R,
    poll: Poll,
    events: Events,
    socket: UdpSocket,
    timeout: Duration,
    // The end of the time for the reply. `None` before a line was sent.
    deadline: Option<Instant>,
}

impl<'a, R: Clock + Net> UdpWire<'a, R> {
    /// Binds a socket. A line has `seconds` seconds for its reply.
    pub fn bind(rt: &'a R, alloc: Global, seconds: u64) -> Result<UdpWire<'a, R>, Failure>
        ensures faults { IfErr result IsMakingFault }
    {
        let events = Events::with_capacity(alloc, 1)?;
        let Ok(mut socket) = UdpSocket::bind(rt, ANY_PORT.socket_address()) else {
            return Err(Failure::BindFailed);
        };
        let Ok(poll) = Poll::new(rt) else {
            return Err(Failure::PollFailed);
        };
        let registered = poll
            .registry()
            .register(&mut socket, Token(0), Interest::READABLE);
        if registered.is_err() {
            return Err(Failure::PollFailed);
        }
        Ok(UdpWire {
            clock: rt,
            poll,
            events,
            socket,
            timeout: Duration::from_secs(seconds),
            deadline: None,
        })
    }
}

impl<R: Clock> UdpWire<'_, R> {
    // How much of the time for the reply is left.
    fn left(&self) -> Result<Duration, WireFailed> {
        let Some(deadline) = self.deadline else {
            return Err(WireFailed);
        };
        match Instant::now(self.clock) {
            Ok(now) => Ok(deadline.saturating_duration_since(now)),
            Err(_) => Err(WireFailed),
        }
    }

    // Waits until something may have come, or the time is out. Returns true if it was out before.
    fn wait(&mut self) -> Result<bool, WireFailed> {
        let left = self.left()?;
        if left.is_zero() {
            return Ok(true);
        }
        match self.poll.poll(&mut self.events, Some(left)) {
            Ok(()) => Ok(false),
            Err(_) => Err(WireFailed),
        }
    }
}

impl<R: Clock> Wire for UdpWire<'_, R> {
    ghost use Rattle.std.specs.Prelude.{None};

    ghost log = { λ _. None };

    fn send(&mut self, to: Peer, bytes: &[u8]) -> Result<(), WireFailed> {
        let Peer::Udp(to) = to else {
            return Err(WireFailed);
        };
        let Ok(now) = Instant::now(self.clock) else {
            return Err(WireFailed);
        };
        self.deadline = now.checked_add(self.timeout);
        match self.socket.send_to(bytes, to.socket_address()) {
            Ok(size) if size == bytes.len() => Ok(()),
            _ => Err(WireFailed),
        }
    }

    fn receive(&mut self, buf: &mut [u8]) -> Result<Option<Came>, WireFailed> {
        for _turn in 0..u64::MAX {
            match self.socket.recv_from(buf) {
                Ok((len, from)) => {
                    if let Some(from) = Endpoint::from_socket_address(from) {
                        return Ok(Some(Came {
                            from: Peer::Udp(from),
                            len,
                        }));
                    }
                }
                Err(error) if error.kind() == ErrorKind::WouldBlock => {
                    if self.wait()? {
                        return Ok(None);
                    }
                }
                // Another error is ignored, such as that an earlier datagram was refused.
                _ => {
                    if self.left()?.is_zero() {
                        return Ok(None);
                    }
                }
            }
        }
        Err(WireFailed)
    }
}
