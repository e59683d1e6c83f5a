//! A client of the switch over the loopback, and the output of the switch.

use command_line::{Failure, ReceiveWay, Workers};
use dispatch::Gate;
use ipv4_fields::Endpoint;
use serve_udp::{serve, serve_direct};
use std::alloc::Global;
use std::io::{ErrorKind, Write};
use std::net::{Ipv4Addr, Net, SocketAddr, SocketAddrV4, UdpSocket};
use std::process::Abort;
use std::sync::atomic::{AtomicU64, Ordering};
use std::sync::{Arc, Wait};
use std::thread::Threads;
use std::time::Duration;
use std::{io, thread};

/// 29 bytes of UDP over IPv4 from 10.0.0.1:5000 to 10.0.0.2:53, with the payload `a`.
pub const PACKET: [u8; 29] = [
    0x45, 0x00, 0x00, 0x1d, 0x00, 0x00, 0x00, 0x00, 0x40, 0x11, 0x00, 0x00, 0x0a, 0x00, 0x00, 0x01,
    0x0a, 0x00, 0x00, 0x02, 0x13, 0x88, 0x00, 0x35, 0x00, 0x09, 0x00, 0x00, 0x61,
];

// 127.0.0.1
const LOOPBACK: u32 = 0x7f00_0001;

pub fn at(port: u16) -> Endpoint {
    Endpoint {
        address: LOOPBACK,
        port,
    }
}

/// The most times that a test looks whether something has come.
pub const TURNS: u32 = 10_000_000;

/// The output of `serve` as far as it was flushed, and the ports in its ready line: the front's times 65,536, and control's. Before
/// that line is flushed it is 0.
#[derive(Drop)]
pub struct Output {
    pub bytes: Vec<u8>,
    unflushed: Vec<u8>,
    ports: Ports,
}

pub type Ports = Arc<AtomicU64, Global>;

pub fn new_output(rt: &impl Abort, alloc: Global) -> (Output, Ports) {
    let ports = Arc::new(alloc, AtomicU64::new(0)).ok().expect(rt, "memory");
    let output = Output {
        bytes: Vec::new(alloc),
        unflushed: Vec::new(alloc),
        ports: Arc::try_clone(&ports).expect(rt, "a second owner"),
    };
    (output, ports)
}

/// Serves at loopback ports that the system picks.
pub fn serve_by<R: Threads + Wait + Net + Sync, G: Gate + Sync, W: Write>(
    rt: &R,
    alloc: Global,
    way: ReceiveWay,
    workers: Workers,
    gate: &G,
    out: &mut W,
) -> Result<(), Failure> {
    let count = workers.count;
    match way {
        ReceiveWay::Queued => serve(rt, alloc, at(0), at(0), count, gate, out),
        ReceiveWay::Direct => serve_direct(rt, alloc, at(0), at(0), count, gate, out),
    }
}

fn port_of(word: Option<&str>) -> Option<u16> {
    let address = word?.parse::<SocketAddr>().ok()?;
    Some(address.port())
}

fn ports_in(line: &[u8]) -> Option<u64> {
    let mut words = str::from_utf8(line).ok()?.split_whitespace();
    if words.next() != Some("ready") {
        return None;
    }
    let front = port_of(words.next())?;
    let control = port_of(words.next())?;
    Some((u64::from(front) << 16) | u64::from(control))
}

impl Write for Output {
    fn write(&mut self, buf: &[u8]) -> io::Result<usize> {
        match self.unflushed.extend_from_slice(buf) {
            Ok(()) => Ok(buf.len()),
            Err(_) => Err(io::Error::from(ErrorKind::OutOfMemory)),
        }
    }

    fn flush(&mut self) -> io::Result<()> {
        if self.bytes.extend_from_slice(&self.unflushed).is_err() {
            return Err(io::Error::from(ErrorKind::OutOfMemory));
        }
        self.unflushed.clear();
        if let Some(ports) = ports_in(&self.bytes) {
            self.ports.store(ports, Ordering::SeqCst);
        }
        Ok(())
    }
}

/// A client of a switch that is ready.
#[derive(Drop)]
pub struct Client {
    pub socket: UdpSocket,
    pub front: SocketAddr,
    control: SocketAddr,
}

pub fn local(port: u64) -> SocketAddr {
    let [_, _, _, _, _, _, high, low] = port.to_be_bytes();
    SocketAddr::V4(SocketAddrV4::new(Ipv4Addr::from(LOOPBACK), u16::from_be_bytes([high, low])))
}

fn new_client<N: Net>(net: &N, ports: &Ports) -> io::Result<Client> {
    for _ in 0..TURNS {
        let both = ports.load(Ordering::SeqCst);
        if both != 0 {
            let socket = UdpSocket::bind(net, local(0))?;
            socket.set_read_timeout(Some(Duration::from_secs(5)))?;
            return Ok(Client {
                socket,
                front: local(both >> 16),
                control: local(both & 0xffff),
            });
        }
        thread::yield_now();
    }
    Err(io::Error::from(ErrorKind::TimedOut))
}

/// Serves, and asks the switch beside that.
pub fn ask_beside<
    R: Threads + Wait + Net + Sync + Abort,
    S: FnOnce() -> Result<(), Failure> + Send,
    A: FnOnce(&Client),
>(rt: &R, ports: &Ports, serve: S, ask: A)
    requires serves { S.IsAlwaysCallable serve }
    requires asks { A.IsAlwaysCallable ask }
{
    let (served, asked) = thread::join(
        rt,
        serve,
        move || -> io::Result<()>
            requires { A.IsAlwaysCallable ask }
        {
            let client = new_client(rt, ports)?;
            ask(&client);
            Ok(())
        },
    );
    assert!(rt; served == Ok(()), "{served:?}");
    asked.expect(rt, "a client");
}

/// A line, and its reply.
pub type Case = (&'static [u8], &'static [u8]);

impl Client {
    pub fn send(&self, rt: &impl Abort, datagram: &[u8]) {
        assert!(rt; self.socket.send_to(datagram, self.front).is_ok());
    }

    pub fn is_answered(&self, line: &[u8], reply: &[u8]) -> io::Result<bool> {
        let mut buf = [0u8; 512];
        self.socket.send_to(line, self.control)?;
        let size = self.socket.recv(&mut buf)?;
        Ok(&buf[..size] == reply)
    }

    pub fn expect(&self, rt: &impl Abort, line: &[u8], reply: &[u8]) {
        let answered = self.is_answered(line, reply).expect(rt, "a reply");
        assert!(rt; answered, "{line:?}");
    }

    pub fn expect_each(&self, rt: &impl Abort, cases: &[Case]) {
        for (line, reply) in cases {
            self.expect(rt, line, reply);
        }
    }

    /// This text gets no reply: the next reply is that to the case after it.
    pub fn expect_ignored(&self, rt: &impl Abort, text: &[u8], after: &Case) {
        assert!(rt; self.socket.send_to(text, self.control).is_ok());
        self.expect(rt, after.0, after.1);
    }

    /// Asks for the totals until they are these.
    pub fn expect_totals(&self, rt: &impl Abort, totals: &[u8]) {
        for _ in 0..10_000u32 {
            if self.is_answered(b"totals", totals).expect(rt, "a reply") {
                return;
            }
            thread::yield_now();
        }
        panic!(rt; "other totals");
    }
}
