//! The sockets at the front (docs/COMMANDS.md, "How it receives").

ghost use Rattle.std.specs.Prelude.{◌≡◌, IfOk, vec_len};
ghost use Rattle.serve_udp.specs.Front.{IsFront};

use crate::bound::BindFault;
use command_line::{ReceiveBuffer, ReceiveWay};
use ipv4_fields::Endpoint;
use libc::net::{
    _SS_SIZE, AF_INET, SO_RCVBUF, SO_REUSEPORT, SOCK_CLOEXEC, SOCK_DGRAM, SOL_SOCKET, setsockopt,
};
use mio::net::UdpSocket;
use os::FromRawFd;
use std::alloc::Global;
use std::io::ErrorKind;
use std::net::Net;
use std::os::fd::{AsRawFd, OwnedFd};
use std::{io, net};

// How many bytes an int has, and an IPv4 socket address (ip(7)).
const INT_SIZE: u32 = 4;

const ADDRESS_SIZE: u32 = 16;

/// The address of the front, and the way in which it receives.
#[derive(Clone, Copy)]
pub struct FrontRequest {
    pub address: Endpoint,
    pub way: ReceiveWay,
    /// The size of the receive buffer that each of its sockets asks for (SO_RCVBUF of socket(7)). The system may give
    /// less.
    pub buffer: Option<ReceiveBuffer>,
}

/// The sockets at the front, all bound to one address.
#[derive(Drop)]
pub(crate) enum BoundFront {
    /// One, whose receives do not wait.
    Queued(UdpSocket),
    /// One for each worker, whose receives wait.
    Direct(Vec<net::UdpSocket>),
}

fn check(status: i32) -> io::Result<()> {
    if status < 0 {
        return Err(io::Error::from_raw_os_error(os::errno()));
    }
    Ok(())
}

// The value of an option that is an int.
fn int_value(number: i32) -> [u8; 16] {
    let mut value = [0; 16];
    value[..4].copy_from_slice(&number.to_ne_bytes());
    value
}

// Lets more sockets of this user be bound to the socket's port.
fn share_port<S: AsRawFd>(socket: &S) -> io::Result<()> {
    let (fd, value) = (socket.as_raw_fd(), int_value(1));
    check(unsafe { setsockopt(fd, SOL_SOCKET, SO_REUSEPORT, &value, INT_SIZE) })
}

// Does so if there is more than one worker: a port that needs no other socket stays closed to them.
fn share_port_with<S: AsRawFd>(socket: &S, workers: usize) -> io::Result<()> {
    if workers > 1 {
        share_port(socket)?;
    }
    Ok(())
}

// Asks for a receive buffer, if one is wanted.
fn ask_for_buffer(socket: &net::UdpSocket, buffer: Option<ReceiveBuffer>) -> io::Result<()> {
    let Some(buffer) = buffer else {
        return Ok(());
    };
    let (fd, value) = (socket.as_raw_fd(), int_value(buffer.bytes as i32));
    check(unsafe { setsockopt(fd, SOL_SOCKET, SO_RCVBUF, &value, INT_SIZE) })
}

// The socket address as the system has it (ip(7)).
fn address_bytes(at: Endpoint) -> [u8; _SS_SIZE] {
    let mut address = [0; _SS_SIZE];
    address[..2].copy_from_slice(&(AF_INET as u16).to_ne_bytes());
    address[2..4].copy_from_slice(&at.port.to_be_bytes());
    address[4..8].copy_from_slice(&at.address.to_be_bytes());
    address
}

// Binds one more socket to a port that is shared.
fn bind_another(at: Endpoint, buffer: Option<ReceiveBuffer>) -> io::Result<net::UdpSocket> {
    let fd = unsafe { libc::net::socket(AF_INET, SOCK_DGRAM | SOCK_CLOEXEC, 0) };
    if fd < 0 {
        return Err(io::Error::from_raw_os_error(os::errno()));
    }
    let owned = unsafe { OwnedFd::from_raw_fd(fd) };
    share_port(&owned)?;
    check(unsafe { libc::net::bind(fd, &address_bytes(at), ADDRESS_SIZE) })?;
    let socket = net::UdpSocket::from(owned);
    ask_for_buffer(&socket, buffer)?;
    Ok(socket)
}

// Binds the first socket. No other one shares the port, and so it is an error if the port is in use.
// The reason: docs/DECISIONS.md, "The first socket of the front is bound alone".
fn bind_first<N: Net>(net: &N, front: FrontRequest) -> io::Result<(net::UdpSocket, Endpoint)> {
    let socket = net.bind_udp(front.address.socket_address())?;
    ask_for_buffer(&socket, front.buffer)?;
    match Endpoint::from_socket_address(socket.local_addr()?) {
        Some(address) => Ok((socket, address)),
        None => Err(io::Error::from(ErrorKind::InvalidInput)),
    }
}

// A socket for each worker: the first one, which shares its port from now on, and the others at its address.
fn bind_others(
    alloc: Global,
    first: net::UdpSocket,
    at: Endpoint,
    buffer: Option<ReceiveBuffer>,
    workers: usize,
) -> Result<Vec<net::UdpSocket>, BindFault>
    ensures { IfOk result (λ fronts. vec_len fronts ≡ workers) }
{
    if let Err(error) = share_port_with(&first, workers) {
        return Err(BindFault::Front(error));
    }
    let Ok(mut fronts) = Vec::with_capacity(alloc, workers) else {
        return Err(BindFault::OutOfMemory);
    };
    let mut first = Some(first);
    for _worker in 0..workers {
        let front = match first.take() {
            Some(front) => front,
            None => match bind_another(at, buffer) {
                Ok(front) => front,
                Err(error) => return Err(BindFault::Front(error)),
            },
        };
        let Ok(()) = fronts.push(front) else {
            return Err(BindFault::OutOfMemory);
        };
    }
    Ok(fronts)
}

// Makes the receives of a socket not wait.
fn without_waiting(socket: net::UdpSocket) -> io::Result<UdpSocket> {
    socket.set_nonblocking(true)?;
    Ok(UdpSocket::from_std(socket))
}

/// Binds the sockets at the front, and returns the address that they are bound to. If the port is 0, the system picks
/// one.
pub(crate) fn bind_front<N: Net>(
    net: &N,
    alloc: Global,
    front: FrontRequest,
    workers: usize,
) -> Result<(BoundFront, Endpoint), BindFault>
    ensures { IfOk result (λ bound. IsFront front.way workers bound.0) }
{
    let (first, address) = match bind_first(net, front) {
        Ok(bound) => bound,
        Err(error) => return Err(BindFault::Front(error)),
    };
    match front.way {
        ReceiveWay::Queued => match without_waiting(first) {
            Ok(socket) => Ok((BoundFront::Queued(socket), address)),
            Err(error) => Err(BindFault::Front(error)),
        },
        ReceiveWay::Direct => {
            let fronts = bind_others(alloc, first, address, front.buffer, workers)?;
            Ok((BoundFront::Direct(fronts), address))
        }
    }
}
