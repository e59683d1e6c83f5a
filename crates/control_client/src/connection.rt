//! A connection to the socket file of a switch. Its reads and writes wait until a deadline.

ghost use Rattle.std.specs.Io.{ReadsAtMost, WritesAtMost};

use mio::net::UnixStream;
use mio::{Events, Interest, Poll, Token};
use std::alloc::Global;
use std::io;
use std::io::{Error, ErrorKind, Read, Write};
use std::net::Net;
use std::time::{Clock, Instant};

#[derive(Drop)]
pub(crate) struct Connection<'a, R: Clock> {
    clock: &'a R,
    poll: Poll,
    events: Events,
    stream: UnixStream,
    deadline: Instant,
}

impl<'a, R: Clock + Net> Connection<'a, R> {
    pub(crate) fn open(
        rt: &'a R,
        alloc: Global,
        path: &str,
        deadline: Instant,
    ) -> io::Result<Connection<'a, R>> {
        let events = Events::with_capacity(alloc, 1)?;
        let mut stream = UnixStream::connect(rt, path)?;
        let poll = Poll::new(rt)?;
        let interest = Interest::READABLE | Interest::WRITABLE;
        poll.registry().register(&mut stream, Token(0), interest)?;
        Ok(Connection {
            clock: rt,
            poll,
            events,
            stream,
            deadline,
        })
    }
}

impl<R: Clock> Connection<'_, R> {
    pub(crate) fn set_deadline(&mut self, deadline: Instant) {
        self.deadline = deadline;
    }

    /// Tests whether the switch has neither closed the connection nor sent anything on it that was not asked for.
    pub(crate) fn is_quiet(&mut self) -> bool {
        let mut room = [0; 1];
        match self.stream.read(&mut room) {
            Err(error) => error.kind() == ErrorKind::WouldBlock,
            Ok(_) => false,
        }
    }

    // Waits until something may be read or written.
    fn wait(&mut self) -> io::Result<()> {
        let now = Instant::now(self.clock)?;
        let left = self.deadline.saturating_duration_since(now);
        if left.is_zero() {
            return Err(Error::from(ErrorKind::TimedOut));
        }
        self.poll.poll(&mut self.events, Some(left))
    }
}

impl<R: Clock> Read for Connection<'_, R> {
    fn read(&mut self, buf: &mut [u8]) -> io::Result<usize> {
        for _turn in 0..u64::MAX {
            match self.stream.read(buf) {
                Err(error) if error.kind() == ErrorKind::WouldBlock => self.wait()?,
                done => return done,
            }
        }
        Err(Error::from(ErrorKind::TimedOut))
    }
}

impl<R: Clock> Write for Connection<'_, R> {
    fn write(&mut self, buf: &[u8]) -> io::Result<usize> {
        for _turn in 0..u64::MAX {
            match self.stream.write(buf) {
                Err(error) if error.kind() == ErrorKind::WouldBlock => self.wait()?,
                done => return done,
            }
        }
        Err(Error::from(ErrorKind::TimedOut))
    }

    fn flush(&mut self) -> io::Result<()> {
        Ok(())
    }
}
