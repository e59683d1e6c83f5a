//! The wire over the socket file of a switch, which connects for the first request, and anew if the switch closed the connection.

use crate::connection::Connection;
use crate::device::{Came, Peer, Wire, WireFailed};
use crate::stream_lines::{LineLost, receive_line, stays_open, write_request};
use crate::trouble::{LONGEST_PATH, Trouble};
use std::alloc::Global;
use std::cell::Cell;
use std::io::ErrorKind;
use std::net::Net;
use std::time::{Clock, Duration, Instant};

/// A wire over its own connections. Contracts see nothing of what happens on them.
#[derive(Drop)]
pub struct UnixWire<'a, R: Clock + Net> {
    rt: &'a R,
    alloc: Global,
    path: &'a str,
    timeout: Duration,
    // What happened if no reply came.
    trouble: &'a Cell<Option<Trouble>>,
    // The connection for the reply to the last request, or for the next request.
    connection: Option<Connection<'a, R>>,
    // What was received for the last request.
    held: Vec<u8>,
}

impl<'a, R: Clock + Net> UnixWire<'a, R> {
    /// Makes a wire to the switch at a path. A request has `seconds` seconds for its reply.
    pub fn new(
        rt: &'a R,
        alloc: Global,
        seconds: u64,
        path: &'a str,
        trouble: &'a Cell<Option<Trouble>>,
    ) -> UnixWire<'a, R> {
        UnixWire {
            rt,
            alloc,
            path,
            timeout: Duration::from_secs(seconds),
            trouble,
            connection: None,
            held: Vec::new(alloc),
        }
    }

    fn connect(&self, deadline: Instant) -> Result<Connection<'a, R>, WireFailed> {
        if self.path.len() > LONGEST_PATH {
            self.trouble.set(Some(Trouble::LongPath));
            return Err(WireFailed);
        }
        match Connection::open(self.rt, self.alloc, self.path, deadline) {
            Ok(connection) => Ok(connection),
            Err(error) => {
                self.trouble.set(Some(Trouble::at_connecting(&error)));
                Err(WireFailed)
            }
        }
    }

    // The connection of the last request if it may be used for one more, or a new one.
    fn connection(&mut self) -> Result<Connection<'a, R>, WireFailed> {
        let Ok(now) = Instant::now(self.rt) else {
            return Err(WireFailed);
        };
        let Some(deadline) = now.checked_add(self.timeout) else {
            return Err(WireFailed);
        };
        if let Some(mut last) = self.connection.take() {
            if last.is_quiet() {
                last.set_deadline(deadline);
                return Ok(last);
            }
        }
        self.connect(deadline)
    }
}

impl<R: Clock + Net> Wire for UnixWire<'_, R> {
    ghost use Rattle.std.specs.Prelude.{None};

    ghost log = { λ _. None };

    fn send(&mut self, to: Peer, bytes: &[u8]) -> Result<(), WireFailed> {
        let Peer::Unix = to else {
            return Err(WireFailed);
        };
        let mut connection = self.connection()?;
        match write_request(&mut connection, bytes) {
            Err(error) if error.kind() == ErrorKind::TimedOut => Err(WireFailed),
            // If the switch closed the connection, it may have sent the reply before.
            _ => {
                self.connection = Some(connection);
                Ok(())
            }
        }
    }

    fn receive(&mut self, buf: &mut [u8]) -> Result<Option<Came>, WireFailed> {
        let Some(mut connection) = self.connection.take() else {
            return Ok(None);
        };
        let len = match receive_line(&mut connection, &mut self.held) {
            Ok(len) if len <= buf.len() => len,
            Ok(_) | Err(LineLost::Endless) => {
                self.trouble.set(Some(Trouble::Endless));
                return Ok(None);
            }
            Err(LineLost::Late) => return Ok(None),
            Err(LineLost::Ended | LineLost::Failed(_)) => {
                self.trouble.set(Some(Trouble::Closed));
                return Ok(None);
            }
        };
        let reply = &self.held[..len];
        buf[..len].copy_from_slice(reply);
        if stays_open(reply, &self.held[len + 1..]) {
            self.connection = Some(connection);
        }
        Ok(Some(Came {
            from: Peer::Unix,
            len,
        }))
    }
}
