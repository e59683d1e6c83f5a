//! A worker's own socket at the front, and the end of all such sockets (docs/SWITCH.md, "Devices of a server").

ghost use Rattle.std.specs.Prelude.{◌≡◌, ◌≤◌, IfOk, IfSome, length};

use crate::given::Given;
use crate::ingress::Ingress;
use dispatch::Failed;
use libc::net::{MSG_DONTWAIT, SHUT_RD, recv, shutdown};
use std::io::ErrorKind;
use std::net::UdpSocket;
use std::os::fd::AsRawFd;
use std::sync::Wait;
use std::sync::atomic::{AtomicBool, Ordering};

/// A UDP socket that waits in its receives. No more datagrams come once the flag is set. The receives to come are not
/// known.
///
/// The code that sets the flag then has to shut the socket down, as `StopReceiving` does. This ends a receive that
/// waits, now and later.
#[derive(Drop)]
pub struct SocketIngress<'a, R: Wait> {
    rt: &'a R,
    socket: &'a UdpSocket,
    stopped: &'a AtomicBool,
}

impl<'a, R: Wait> SocketIngress<'a, R> {
    pub fn new(rt: &'a R, socket: &'a UdpSocket, stopped: &'a AtomicBool) -> SocketIngress<'a, R> {
        SocketIngress {
            rt,
            socket,
            stopped,
        }
    }

    fn is_stopped(&self) -> bool {
        self.stopped.load(Ordering::SeqCst)
    }

    // Receives once, without waiting. `None` if there is nothing, also after an interrupt.
    fn poll(&self, buf: &mut [u8]) -> Option<Result<usize, Failed>>
        ensures within { IfSome result (λ received. IfOk received (λ size. size ≤ length buf.new)) }
    {
        let size = unsafe { recv(self.socket.as_raw_fd(), buf, MSG_DONTWAIT) };
        if size >= 0 {
            return Some(Ok(size as usize));
        }
        match os::errno() {
            libc::EAGAIN | libc::EINTR => None,
            _ => Some(Err(Failed)),
        }
    }
}

impl<'a, R: Wait> Ingress for SocketIngress<'a, R> {
    ghost use Rattle.std.specs.Prelude.{None};

    ghost coming = { λ _. None };

    ghost past = { λ _. None };

    // Once the socket is shut down and empty, a receive that waits ends as if an empty datagram had come, so the flag
    // is read again.
    fn receive(&mut self, buf: &mut [u8]) -> Option<Result<usize, Failed>> {
        for _ in self.rt.forever() {
            if self.is_stopped() {
                return None;
            }
            match self.socket.recv(buf) {
                Ok(0) if self.is_stopped() => return None,
                Ok(size) => return Some(Ok(size)),
                Err(error) if error.kind() == ErrorKind::Interrupted => {}
                Err(_) => return Some(Err(Failed)),
            }
        }
        unreachable!()
    }

    fn try_receive(&mut self, buf: &mut [u8]) -> Option<Result<usize, Failed>> {
        if self.is_stopped() {
            return None;
        }
        self.poll(buf)
    }

    fn close(self) -> Given {
        Given::unknown()
    }
}

/// Ends the sockets of all workers when it is dropped: it sets the flag, then shuts each socket down.
///
/// shutdown(2) of a UDP socket without a peer fails with ENOTCONN, but wakes what waits in a receive of it, now and later (Linux).
/// The reason: docs/INTERNALS.md, "Shutdown ends a receive that waits".
pub struct StopReceiving<'a> {
    pub stopped: &'a AtomicBool,
    pub sockets: &'a [UdpSocket],
}

impl Drop for StopReceiving<'_> {
    fn drop(self) {
        let StopReceiving { stopped, sockets } = self;
        stopped.store(true, Ordering::SeqCst);
        for socket in sockets {
            shutdown(socket.as_raw_fd(), SHUT_RD);
        }
    }
}
