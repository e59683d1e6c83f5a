//! The sockets of the service, bound (docs/COMMANDS.md, "serve").

ghost use Rattle.std.specs.Prelude.{◌≡◌, IfOk, vec_len};
ghost use Rattle.serve_udp.specs.Front.{IsFront};

use crate::front::{BoundFront, FrontRequest, bind_front};
use command_line::ControlAddress;
use ipv4_fields::Endpoint;
use mio::net::{UdpSocket, UnixListener};
use serve_unix::{SocketFile, listen};
use std::alloc::Global;
use std::fs::Files;
use std::io::ErrorKind;
use std::net::Net;
use std::{io, net};

/// The socket of control: over UDP with the address that it is bound to, or over a Unix socket.
#[derive(Drop)]
pub(crate) enum BoundControl {
    Udp(UdpSocket, Endpoint),
    Unix(UnixListener),
}

/// The sockets of the front and of control, with the addresses that they are bound to, and a socket to send by for each worker.
#[derive(Drop)]
pub struct BoundSockets<'a> {
    pub(crate) front: BoundFront,
    pub(crate) address: Endpoint,
    pub(crate) control: BoundControl,
    pub(crate) place: ControlAddress<'a>,
    pub(crate) outlets: Vec<net::UdpSocket>,
}

/// A socket could not be bound.
#[derive(Drop)]
pub enum BindFault {
    Front(io::Error),
    Control(io::Error),
    /// The socket by which a worker sends.
    Worker(io::Error),
    /// Memory for the workers' sockets was refused.
    OutOfMemory,
}

// Binds a socket, and asks for the address that it is bound to.
fn bind_socket<N: Net>(net: &N, at: Endpoint) -> io::Result<(UdpSocket, Endpoint)> {
    let socket = UdpSocket::bind(net, at.socket_address())?;
    match Endpoint::from_socket_address(socket.local_addr()?) {
        Some(address) => Ok((socket, address)),
        None => Err(io::Error::from(ErrorKind::InvalidInput)),
    }
}

// Binds a socket for each worker, at the address and a port that the system picks.
fn bind_outlets<N: Net>(
    net: &N,
    alloc: Global,
    address: u32,
    workers: usize,
) -> Result<Vec<net::UdpSocket>, BindFault>
    ensures { IfOk result (λ outlets. vec_len outlets ≡ workers) }
{
    let any_port = Endpoint { address, port: 0 };
    let Ok(mut outlets) = Vec::with_capacity(alloc, workers) else {
        return Err(BindFault::OutOfMemory);
    };
    for _worker in 0..workers {
        let outlet = match net.bind_udp(any_port.socket_address()) {
            Ok(outlet) => outlet,
            Err(error) => return Err(BindFault::Worker(error)),
        };
        let Ok(()) = outlets.push(outlet) else {
            return Err(BindFault::OutOfMemory);
        };
    }
    Ok(outlets)
}

/// Binds the front, then control over UDP, then a socket for each worker to send by. If a port is 0, the system picks
/// one.
pub fn bind_udp<N: Net>(
    net: &N,
    alloc: Global,
    front: FrontRequest,
    control: Endpoint,
    workers: usize,
) -> Result<BoundSockets<'static>, BindFault>
    ensures outlets { IfOk result (λ bound. vec_len bound.outlets ≡ workers) }
    ensures front { IfOk result (λ bound. IsFront front.way workers bound.front) }
{
    let (front, address) = bind_front(net, alloc, front, workers)?;
    let (socket, bound) = match bind_socket(net, control) {
        Ok(bound) => bound,
        Err(error) => return Err(BindFault::Control(error)),
    };
    let outlets = bind_outlets(net, alloc, address.address, workers)?;
    Ok(BoundSockets {
        front,
        address,
        control: BoundControl::Udp(socket, bound),
        place: ControlAddress::Udp(bound),
        outlets,
    })
}

/// Binds the front, then makes the socket file of control at a path, then binds a socket for each worker to send by.
pub fn bind_unix<'a, R: Net + Files>(
    rt: &R,
    alloc: Global,
    front: FrontRequest,
    path: &'a str,
    workers: usize,
) -> Result<(BoundSockets<'a>, SocketFile<'a>), BindFault>
    ensures place { IfOk result (λ bound. bound.0.place ≡ ControlAddress.Unix path.entry) }
    ensures outlets { IfOk result (λ bound. vec_len bound.0.outlets ≡ workers) }
    ensures front { IfOk result (λ bound. IsFront front.way workers bound.0.front) }
{
    let (front, address) = bind_front(rt, alloc, front, workers)?;
    let (listener, file) = match listen(rt, path) {
        Ok(made) => made,
        Err(error) => return Err(BindFault::Control(error)),
    };
    let outlets = match bind_outlets(rt, alloc, address.address, workers) {
        Ok(outlets) => outlets,
        Err(fault) => {
            file.remove(rt);
            return Err(fault);
        }
    };
    Ok((
        BoundSockets {
            front,
            address,
            control: BoundControl::Unix(listener),
            place: ControlAddress::Unix(path),
            outlets,
        },
        file,
    ))
}
