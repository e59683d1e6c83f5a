//! Sending datagrams (docs/SWITCH.md, "Devices of a server").

ghost use Rattle.std.specs.Prelude.{◌≡◌, List, Option, ℕ};
ghost use Rattle.dispatch.specs.Device.{Sent, Takes};
ghost use Rattle.serve_devices.specs.Devices.{CountsCall, whole_of};

use dispatch::Failed;
use ipv4_fields::Endpoint;
use std::io;
use std::io::ErrorKind;
use std::net::UdpSocket;
use std::sync::Wait;
use std::sync::atomic::{AtomicBool, Ordering};
use std::time::Duration;

// The time that a send waits before the flag is read again, in milliseconds.
const SEND_TURN: u64 = 50;

/// A device that sends datagrams. Contracts see what was sent, if it is known, without the sends that failed or were cut. They also see
/// the number of calls, if it is known.
pub trait Egress {
    ghost taken: { Self → Option (List Sent) };

    ghost calls: { Self → Option ℕ };

    /// Sends the bytes as one datagram, and returns how many of them were taken.
    fn transmit(&mut self, to: Endpoint, bytes: &[u8]) -> Result<usize, Failed>
        ensures sent_once { Takes (taken self.old) (taken self.new) (whole_of result to bytes.now) }
        ensures called { CountsCall (calls self.old) (calls self.new) };
}

/// A UDP socket to send by. The datagrams that it took are not known.
///
/// A send fails if the socket refuses it. It waits for room in the socket's buffer
/// until a flag is set; from then on a send that would wait fails. A member on the same link that is down fills the
/// buffer for seconds at a time.
#[derive(Drop)]
pub struct SocketEgress<'a, R: Wait> {
    rt: &'a R,
    socket: UdpSocket,
    stopped: &'a AtomicBool,
}

impl<'a, R: Wait> SocketEgress<'a, R> {
    /// Takes the socket, whose sends wait from now on for 50 ms at most.
    pub fn new(
        rt: &'a R,
        socket: UdpSocket,
        stopped: &'a AtomicBool,
    ) -> io::Result<SocketEgress<'a, R>> {
        socket.set_write_timeout(Some(Duration::from_millis(SEND_TURN)))?;
        Ok(SocketEgress {
            rt,
            socket,
            stopped,
        })
    }

    // Tests whether a send that had to wait is to be given up. If so, later sends do not wait at all.
    fn gives_up(&self) -> bool {
        if !self.stopped.load(Ordering::SeqCst) {
            return false;
        }
        let _ = self.socket.set_nonblocking(true);
        true
    }
}

impl<'a, R: Wait> Egress for SocketEgress<'a, R> {
    ghost use Rattle.std.specs.Prelude.{None};

    ghost taken = { λ _. None };

    ghost calls = { λ _. None };

    fn transmit(&mut self, to: Endpoint, bytes: &[u8]) -> Result<usize, Failed> {
        for _ in self.rt.forever() {
            match self.socket.send_to(bytes, to.socket_address()) {
                Ok(size) => return Ok(size),
                Err(error) if error.kind() == ErrorKind::Interrupted => {}
                Err(error) if error.kind() == ErrorKind::WouldBlock => {
                    if self.gives_up() {
                        return Err(Failed);
                    }
                }
                _ => return Err(Failed),
            }
        }
        unreachable!()
    }
}
