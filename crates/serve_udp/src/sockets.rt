//! The sockets of the service, and the turns that they get (docs/COMMANDS.md, "serve").

ghost use Rattle.std.specs.Prelude.{◌≡◌, None, false, length, true};
ghost use Rattle.serve_udp.specs.FrontTurn.{IsFrontTurn};

use crate::bound::BoundControl;
use crate::control_turn::{Asked, CONTROL_TURN, ControlWire, Next, answer_datagrams};
use crate::front_turn::{Arrived, FrontWire, hand_datagrams};
use crate::intake::{QueuedFront, Receiving};
use dispatch::{NamedTally, TallyName};
use ipv4_fields::Endpoint;
use mio::net::UdpSocket;
use mio::{Events, Interest, Poll, Registry, Token};
use read_section::Operator;
use serve_control::{BoundAddresses, Desk, Log, LogLines, Peer, SharedTotals};
use serve_devices::SharedCounts;
use serve_unix::{CLIENTS, UnixControl};
use std::alloc::{AllocError, Global};
use std::io;
use std::io::ErrorKind;
use std::net::Net;
use std::sync::Wait;
use std::time::Duration;

const FRONT: Token = Token(0);

// The token of control, or the first of those of control over a Unix socket.
const CONTROL: Token = Token(1);

// One event a socket: the front, control, and its clients.
const EVENTS: usize = 2 + CLIENTS;

/// The most bytes of a datagram: no UDP datagram over IPv4 has more.
pub const LONGEST_DATAGRAM: usize = 65_535;

// No reply is longer, so none takes memory.
const LONGEST_REPLY: usize = 256;

/// The memory that receiving needs besides the sockets.
#[derive(Drop)]
pub struct Room {
    events: Events,
    // For the longest datagram.
    buf: Vec<u8>,
    reply: Vec<u8>,
}

impl Room {
    pub fn new(alloc: Global) -> Result<Room, AllocError> {
        Ok(Room {
            events: Events::with_capacity(alloc, EVENTS)?,
            buf: vec![in alloc; 0; LONGEST_DATAGRAM]?,
            reply: Vec::with_capacity(alloc, LONGEST_REPLY)?,
        })
    }
}

// Control over a UDP socket.
#[derive(Drop)]
struct UdpControl {
    socket: UdpSocket,
    // Datagrams to control from these addresses are ignored.
    bound: BoundAddresses,
    // Not known to be empty.
    is_ready: bool,
}

// The socket of control. The datagrams that come and go are not known.
#[derive(Drop)]
struct SocketWire<'a> {
    socket: &'a UdpSocket,
}

impl ControlWire for SocketWire<'_> {
    ghost use Rattle.std.specs.Prelude.{None};

    ghost log = { λ _. None };

    fn receive(&mut self, buf: &mut [u8]) -> Asked {
        match self.socket.recv_from(buf) {
            Ok((len, sender)) => match Endpoint::from_socket_address(sender) {
                Some(from) => Asked::Datagram { from, len },
                None => Asked::Failed,
            },
            Err(error) if error.kind() == ErrorKind::WouldBlock => Asked::Nothing,
            Err(_) => Asked::Failed,
        }
    }

    fn reply(&mut self, to: Endpoint, bytes: &[u8]) {
        let _ = self.socket.send_to(bytes, to.socket_address());
    }
}

// The way by which control comes.
#[derive(Drop)]
enum Control {
    Udp(UdpControl),
    Unix(UnixControl),
}

/// The sockets, and the poll that waits for them.
///
/// An event reports that a socket has something, and it reports it once. Therefore a socket that is not known to be
/// empty is read until it would block.
/// The reason: docs/INTERNALS.md, "A socket is read until it would block".
#[derive(Drop)]
pub struct Sockets<'a> {
    poll: Poll,
    room: Room,
    receiving: Receiving<'a>,
    control: Control,
}

// The socket of the front. The datagrams that come are not known.
#[derive(Drop)]
struct SocketFront<'a> {
    socket: &'a UdpSocket,
}

impl FrontWire for SocketFront<'_> {
    ghost use Rattle.std.specs.Prelude.{None};

    ghost log = { λ _. None };

    fn receive(&mut self, buf: &mut [u8]) -> Arrived {
        match self.socket.recv(buf) {
            Ok(size) => Arrived::Datagram(size),
            Err(error) if error.kind() == ErrorKind::WouldBlock => Arrived::Nothing,
            Err(_) => Arrived::Failed,
        }
    }
}

impl QueuedFront {
    // Hands the next datagrams to the workers in turn, a failed receive too, unless the front is known to be empty.
    fn turn<R: Wait>(&mut self, rt: &R, buf: &mut [u8])
        ensures handed_on { self.old.is_ready ≡ true → IsFrontTurn (length buf.old) None None self.old.queues self.new.queues self.new.is_ready }
        ensures idle { self.old.is_ready ≡ false → (self.new.queues ≡ self.old.queues) × (self.new.is_ready ≡ false) }
    {
        if !self.is_ready {
            return;
        }
        let mut wire = SocketFront {
            socket: &self.socket,
        };
        self.is_ready = hand_datagrams(rt, &mut wire, &mut self.queues, buf);
    }
}

impl Receiving<'_> {
    // Waits for the front from now on, unless the workers do.
    fn register(&mut self, registry: &Registry) -> io::Result<()> {
        match &mut self.front {
            Some(front) => registry.register(&mut front.socket, FRONT, Interest::READABLE),
            None => Ok(()),
        }
    }

    fn is_ready(&self) -> bool {
        match &self.front {
            Some(front) => front.is_ready,
            None => false,
        }
    }

    // Notes an event.
    fn wake(&mut self) {
        if let Some(front) = &mut self.front {
            front.is_ready = true;
        }
    }
}

// Waits for control from now on.
fn open_control(
    alloc: Global,
    front: Endpoint,
    control: BoundControl,
    registry: &Registry,
) -> io::Result<Control> {
    match control {
        BoundControl::Udp(mut socket, address) => {
            registry.register(&mut socket, CONTROL, Interest::READABLE)?;
            Ok(Control::Udp(UdpControl {
                socket,
                bound: BoundAddresses {
                    front,
                    control: address,
                },
                is_ready: true,
            }))
        }
        BoundControl::Unix(listener) => Ok(Control::Unix(UnixControl::open(
            alloc, listener, registry, CONTROL,
        )?)),
    }
}

// Waits for the front, which is bound to the address, unless the workers receive from it, and for control.
fn open_poll<N: Net>(
    net: &N,
    alloc: Global,
    receiving: &mut Receiving,
    bound: (Endpoint, BoundControl),
) -> io::Result<(Poll, Control)> {
    let poll = Poll::new(net)?;
    receiving.register(poll.registry())?;
    let (address, control) = bound;
    let control = open_control(alloc, address, control, poll.registry())?;
    Ok((poll, control))
}

impl Control {
    fn is_ready(&self) -> bool {
        match self {
            Control::Udp(control) => control.is_ready,
            Control::Unix(control) => control.is_ready(),
        }
    }

    // Notes an event.
    fn wake(&mut self, token: Token) {
        match self {
            Control::Udp(control) => control.is_ready = true,
            Control::Unix(control) => control.wake(token),
        }
    }
}

impl UdpControl {
    // Answers the next datagrams. True if the switch is asked to stop.
    fn turn<N: TallyName, L: LogLines, R: Wait>(
        &mut self,
        alloc: Global,
        room: &mut Room,
        operator: &mut Operator,
        named: &mut NamedTally<N>,
        totals: &mut SharedTotals<'_, R>,
        log: &mut Log<L>,
    ) -> bool {
        let mut wire = SocketWire {
            socket: &self.socket,
        };
        let (buf, reply) = (&mut room.buf, &mut room.reply);
        match answer_datagrams(
            alloc,
            &mut wire,
            &self.bound,
            buf,
            reply,
            operator,
            named,
            totals,
            log,
        ) {
            Next::Answered => false,
            Next::Nothing => {
                self.is_ready = false;
                false
            }
            Next::Stop => true,
        }
    }
}

// Gives the next clients their turns, at a desk. True if the switch is asked to stop.
fn client_turns<'a, N: TallyName, L: LogLines, R: Wait>(
    control: &mut UnixControl,
    registry: &Registry,
    alloc: Global,
    rt: &'a R,
    counts: &'a SharedCounts,
    operator: &'a mut Operator,
    named: &'a mut NamedTally<N>,
    log: &'a mut Log<L>,
) -> bool {
    let mut desk = Desk {
        rt,
        alloc,
        operator,
        tally: named,
        counts,
        log,
        // Until the first of them has its turn.
        peer: Peer::Unix(0),
    };
    control.turns(&mut desk, registry, CONTROL_TURN)
}

impl<'a> Sockets<'a> {
    /// Waits for the front, which is bound to the address, unless the workers receive from it, and for control from now on.
    pub fn open<N: Net>(
        net: &N,
        alloc: Global,
        mut receiving: Receiving<'a>,
        bound: (Endpoint, BoundControl),
        room: Room,
    ) -> io::Result<Sockets<'a>> {
        let (poll, control) = open_poll(net, alloc, &mut receiving, bound)?;
        Ok(Sockets {
            poll,
            room,
            receiving,
            control,
        })
    }

    /// Waits until a socket has something; if one is not known to be empty it only looks.
    pub fn wait(&mut self) -> io::Result<()> {
        let timeout = if self.receiving.is_ready() || self.control.is_ready() {
            Some(Duration::ZERO)
        } else {
            None
        };
        self.poll.poll(&mut self.room.events, timeout)?;
        for event in &self.room.events {
            match event.token() {
                FRONT => self.receiving.wake(),
                token => self.control.wake(token),
            }
        }
        Ok(())
    }

    /// Gives the front its turn, unless the workers receive from it: each datagram goes to the workers in turn, a
    /// failed receive too.
    pub fn receive<R: Wait>(&mut self, rt: &R) {
        if let Some(front) = &mut self.receiving.front {
            front.turn(rt, &mut self.room.buf);
        }
    }

    /// Gives control its turn: requests are answered. True if the switch is asked to stop.
    pub fn answer_control<N: TallyName, L: LogLines, R: Wait>(
        &mut self,
        alloc: Global,
        operator: &mut Operator,
        named: &mut NamedTally<N>,
        totals: &mut SharedTotals<'_, R>,
        log: &mut Log<L>,
    ) -> bool {
        match &mut self.control {
            Control::Udp(control) => {
                control.is_ready
                    && control.turn(alloc, &mut self.room, operator, named, totals, log)
            }
            Control::Unix(control) => {
                let registry = self.poll.registry();
                control.accept(alloc, registry);
                let (rt, counts) = (totals.rt, totals.counts);
                client_turns(control, registry, alloc, rt, counts, operator, named, log)
            }
        }
    }
}
