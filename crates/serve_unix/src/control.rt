//! The listening socket with its clients, and the events that wake them.

use crate::clients::{CLIENTS, Clients};
use crate::connections::{Accepted, Connections};
use crate::stream::ClientStream;
use mio::net::{UnixListener, UnixStream};
use mio::{Interest, Registry, Token};
use serve_stream::AnswersClients;
use std::alloc::Global;
use std::io;
use std::io::ErrorKind;

/// Control over a Unix socket.
#[derive(Drop)]
pub struct UnixControl {
    listener: UnixListener,
    clients: Clients<ClientStream>,
    // Not known to have no client that waits to be accepted.
    listener_ready: bool,
    // The token of the listener. Those of the clients follow it.
    first_token: usize,
}

// The connections of the listening socket, of which contracts see nothing.
#[derive(Drop)]
struct SocketConnections<'a> {
    listener: &'a UnixListener,
    registry: &'a Registry,
    listener_ready: bool,
    first_token: usize,
}

// Waits for what a client sends, and for room for what it is sent.
fn register(registry: &Registry, stream: &mut UnixStream, token: Token) -> io::Result<()> {
    registry.register(stream, token, Interest::READABLE | Interest::WRITABLE)
}

impl Connections<ClientStream> for SocketConnections<'_> {
    ghost use Rattle.std.specs.Prelude.{None};

    ghost log = { λ _. None };

    fn accept(&mut self) -> Accepted<ClientStream> {
        match self.listener.accept() {
            Ok((stream, _)) => Accepted::Client(ClientStream::new(stream)),
            Err(error) if error.kind() == ErrorKind::Interrupted => Accepted::Interrupted,
            // None waits, or there is no descriptor for it. The next client that comes gives an event.
            Err(_) => {
                self.listener_ready = false;
                Accepted::NotYet
            }
        }
    }

    fn watch(&mut self, stream: &mut ClientStream, place: usize) -> bool {
        let token = self.first_token.saturating_add(place).saturating_add(1);
        register(self.registry, stream.socket(), Token(token)).is_ok()
    }

    fn close(&mut self, stream: ClientStream) {
        drop(stream);
        // There may be a descriptor again for a client that could not be accepted.
        self.listener_ready = true;
    }
}

impl UnixControl {
    /// Waits for clients from now on. The listener has the first token, and its clients the `CLIENTS` tokens after it.
    pub fn open(
        alloc: Global,
        mut listener: UnixListener,
        registry: &Registry,
        first_token: Token,
    ) -> io::Result<UnixControl> {
        let clients = Clients::new(alloc)?;
        registry.register(&mut listener, first_token, Interest::READABLE)?;
        Ok(UnixControl {
            listener,
            clients,
            listener_ready: true,
            first_token: first_token.0,
        })
    }

    /// Notes an event.
    pub fn wake(&mut self, token: Token) {
        if token.0 == self.first_token {
            self.listener_ready = true;
            return;
        }
        if token.0 > self.first_token {
            self.clients.wake(token.0 - self.first_token - 1);
        }
    }

    /// Tests whether something may be done without waiting.
    pub fn is_ready(&self) -> bool {
        self.listener_ready || self.clients.is_active()
    }

    /// Accepts the clients that wait for it. One more than `CLIENTS` is closed at once.
    pub fn accept(&mut self, alloc: Global, registry: &Registry) {
        if !self.listener_ready {
            return;
        }
        let mut connections = SocketConnections {
            listener: &self.listener,
            registry,
            listener_ready: true,
            first_token: self.first_token,
        };
        self.clients.accept(alloc, &mut connections);
        self.listener_ready = connections.listener_ready;
    }

    /// Gives clients their turns, at most as many as `budget`. True if one of them asked the service to stop.
    pub fn turns<A: AnswersClients>(
        &mut self,
        answers: &mut A,
        registry: &Registry,
        budget: usize,
    ) -> bool {
        let mut connections = SocketConnections {
            listener: &self.listener,
            registry,
            listener_ready: self.listener_ready,
            first_token: self.first_token,
        };
        let stops = self.clients.turns(answers, &mut connections, budget);
        self.listener_ready = connections.listener_ready;
        stops
    }
}
