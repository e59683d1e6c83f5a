//! The switch over the loopback: datagrams to two workers, control lines meanwhile, and its end.

use super::client::{Case, Client, Output, PACKET, TURNS, ask_beside, at, new_output, serve_by};
use command_line::{Failure, ReceiveWay, Workers};
use dispatch::{Gate, OpenGate};
use serve_udp::{serve, serve_direct};
use std::alloc::Global;
use std::net::{Net, SocketAddr, UdpSocket};
use std::process::Abort;
use std::sync::atomic::{AtomicU64, Ordering};
use std::thread;
use std::time::Duration;

// Two first batches and a client that wait for each other, each for `TURNS` turns at most.
#[derive(Drop)]
struct Meeting {
    came: AtomicU64,
    failures: AtomicU64,
}

impl Meeting {
    fn come(&self, mark: u64) {
        self.came.fetch_add(mark, Ordering::SeqCst);
        for _ in 0..TURNS {
            if self.came.load(Ordering::SeqCst) == 111 {
                return;
            }
            thread::yield_now();
        }
        self.failures.fetch_add(1, Ordering::SeqCst);
    }
}

impl Gate for Meeting {
    fn start(&self, batch: u64) {
        match batch {
            1 => self.come(1),
            2 => self.come(10),
            _ => {}
        }
    }

    fn done(&self, _batch: u64) {}
}

const RULES: [Case; 5] = [
    (b"show", b"version 0 groups 0 members 0 charge 2"),
    (b"add 10.0.0.2:53", b"ok version 1"),
    (b"join 10.0.0.2:53 1 127.0.0.1:9001", b"ok version 2"),
    (b"join 10.0.0.2:53 2 127.0.0.1:9002", b"ok version 3"),
    (b"join 10.0.0.2:53 3 127.0.0.1:9003", b"ok version 4"),
];

const STOP: [Case; 1] = [(b"stop", b"ok stop")];

const ALL: &[u8] =
    b"malformed 1 nogroup 1 nomembers 0 dropped 0 delivered 2 sendfailed 0 receivefailed 0";

// A member gets the packet whole; returns where it comes from.
fn receive(rt: &impl Abort, member: &UdpSocket) -> SocketAddr {
    let mut buf = [0u8; 64];
    let (size, from) = member.recv_from(&mut buf).expect(rt, "a datagram");
    assert!(rt; &buf[..size] == PACKET.as_slice());
    from
}

// The packets come to the member from two ports, or from one.
fn expect_judged(
    rt: &impl Abort,
    client: &Client,
    member: &UdpSocket,
    gate: &Meeting,
    two_ports: bool,
) {
    client.expect_each(rt, &RULES);
    gate.come(100);
    let mut other_port = PACKET;
    other_port[23] = 54;
    client.send(rt, &PACKET[..27]);
    client.send(rt, &other_port);
    client.send(rt, &PACKET);
    client.send(rt, &PACKET);
    let one = receive(rt, member);
    let other = receive(rt, member);
    assert!(rt; (one != other) == two_ports);
    // A verdict is counted before its packet is sent.
    client.expect(rt, b"totals", ALL);
    client.expect_each(rt, &STOP);
}

const WRITTEN: &str = "ready 127.0.0.1:47001 127.0.0.1:47002\n\
    malformed 1 nogroup 1 nomembers 0 dropped 0 delivered 2 sendfailed 0 receivefailed 0\n";

// A socket of a member, whose receives wait for 5 seconds at most.
fn new_member<R: Net + Abort>(rt: &R, address: &str) -> UdpSocket {
    let member = UdpSocket::bind(rt, address).expect(rt, "a member");
    let wait = Some(Duration::from_secs(5));
    member.set_read_timeout(wait).expect(rt, "a time limit");
    member
}

fn new_meeting() -> Meeting {
    Meeting {
        came: AtomicU64::new(0),
        failures: AtomicU64::new(0),
    }
}

fn expect_met(rt: &impl Abort, out: &Output, gate: &Meeting) {
    assert!(rt; str::from_utf8(&out.bytes) == Ok(WRITTEN));
    assert!(rt; gate.failures.load(Ordering::SeqCst) == 0);
}

// Both workers and the client wait for each other, so all run at once.
#[test]
fn serve_over_loopback(rt: HostRuntime) {
    let member = new_member(&rt, "127.0.0.1:9003");
    let gate = new_meeting();
    let (mut out, ports) = new_output(&rt, rt.alloc());
    ask_beside(
        &rt,
        &ports,
        || serve(&rt, rt.alloc(), at(47001), at(47002), 2, &gate, &mut out),
        |client| expect_judged(&rt, client, &member, &gate, true),
    );
    expect_met(&rt, &out, &gate);
}

// One sender's datagrams all go to one worker.
#[test]
fn serve_direct_over_loopback(rt: HostRuntime) {
    let member = new_member(&rt, "127.0.0.1:9003");
    let gate = new_meeting();
    let (mut out, ports) = new_output(&rt, rt.alloc());
    ask_beside(
        &rt,
        &ports,
        || serve_direct(&rt, rt.alloc(), at(47001), at(47002), 2, &gate, &mut out),
        |client| expect_judged(&rt, client, &member, &gate, false),
    );
    expect_met(&rt, &out, &gate);
}

#[test]
fn serve_on_one_address(rt: HostRuntime) {
    let (place, gate) = (at(47003), &OpenGate);
    let mut out = Vec::new(rt.alloc());
    let served = serve(&rt, rt.alloc(), place, place, 1, gate, &mut out);
    assert!(rt; served == Err(Failure::BindFailed));
    let served = serve_direct(&rt, rt.alloc(), place, place, 4, gate, &mut out);
    assert!(rt; served == Err(Failure::BindFailed));
    assert!(rt; out.is_empty());
}

// A reply of each kind.
const REPLIES: [&[u8]; 8] = [
    b"ok version 1",
    b"refused C1",
    b"failed E3",
    b"version 0 groups 0 members 0 charge 2",
    b"reclaimed 0 3",
    b"malformed 0 nogroup 0 nomembers 0 dropped 0 delivered 0 sendfailed 0 receivefailed 0",
    b"delivered 0 dropped 0 nomembers 0 sendfailed 0",
    b"ready 127.0.0.1:5300 127.0.0.1:5301",
];

const SHOW: Case = (b"show", b"version 0 groups 0 members 0 charge 2");

// After the replies, `ok` alone and then `stop` are answered.
const ALONE_AND_STOP: [Case; 2] = [(b"ok", b"refused C1"), (b"stop", b"ok stop")];

fn expect_unanswered(rt: &impl Abort, client: &Client) {
    for reply in &REPLIES {
        client.expect_ignored(rt, reply, &SHOW);
    }
    client.expect_each(rt, &ALONE_AND_STOP);
}

const WAYS: [ReceiveWay; 2] = [ReceiveWay::Queued, ReceiveWay::Direct];

#[test]
fn replies_are_not_answered(rt: HostRuntime) {
    for way in &WAYS {
        let (mut out, ports) = new_output(&rt, rt.alloc());
        ask_beside(
            &rt,
            &ports,
            || serve_by(
                &rt,
                rt.alloc(),
                *way,
                Workers { count: 1 },
                &OpenGate,
                &mut out,
            ),
            |client| expect_unanswered(&rt, client),
        );
    }
}

// A group whose first member gets the packets, until its selector picks the second, which has no port.
fn expect_rules(rt: &impl Abort, alloc: Global, client: &Client, member: &UdpSocket) {
    let port = member.local_addr().expect(rt, "an address").port();
    let first = format!(in alloc; "join 10.0.0.2:53 1 127.0.0.1:{port}").expect(rt, "memory");
    client.expect(rt, b"add 10.0.0.2:53", b"ok version 1");
    client.expect(rt, first.as_bytes(), b"ok version 2");
    client.expect_each(rt, &REST_OF_RULES);
}

const REST_OF_RULES: [Case; 2] = [
    (b"join 10.0.0.2:53 2 127.0.0.1:0", b"ok version 3"),
    (b"selector 10.0.0.2:53 asm ret #0", b"ok version 4"),
];

// The longest packet that a datagram carries, with an IPv4 header of 20 bytes, and a UDP header.
fn longest_packet(rt: &impl Abort, alloc: Global) -> Vec<u8> {
    let mut packet = vec![in alloc; 0x61u8; 65_507].expect(rt, "memory");
    let mut head = PACKET;
    head[2] = 0xff;
    head[3] = 0xe3;
    head[24] = 0xff;
    head[25] = 0xcf;
    for (place, byte) in head.iter().enumerate() {
        if let Some(there) = packet.get_mut(place) {
            *there = *byte;
        }
    }
    packet
}

const EMPTY_COUNTED: &[u8] =
    b"malformed 1 nogroup 0 nomembers 0 dropped 0 delivered 0 sendfailed 0 receivefailed 0";

const SEND_COUNTED: &[u8] =
    b"malformed 1 nogroup 0 nomembers 0 dropped 0 delivered 2 sendfailed 1 receivefailed 0";

// The member gets this packet whole.
fn expect_whole(
    rt: &impl Abort,
    client: &Client,
    member: &UdpSocket,
    packet: &[u8],
    buf: &mut [u8],
) {
    client.send(rt, packet);
    let size = member.recv(buf).expect(rt, "a datagram");
    assert!(rt; &buf[..size] == packet);
}

// An empty datagram, the longest packet, one that cannot be sent, and the longest control datagram.
fn expect_unusual(
    rt: &impl Abort,
    alloc: Global,
    client: &Client,
    member: &UdpSocket,
    packet: &[u8],
) {
    expect_rules(rt, alloc, client, member);
    client.send(rt, b"");
    client.expect_totals(rt, EMPTY_COUNTED);
    let mut buf = vec![in alloc; 0u8; 65_535].expect(rt, "memory");
    expect_whole(rt, client, member, packet, &mut buf);
    client.expect(rt, b"selector 10.0.0.2:53 asm ret #1", b"ok version 5");
    client.send(rt, &PACKET);
    client.expect_totals(rt, SEND_COUNTED);
    let no_line = vec![in alloc; b'z'; 65_507].expect(rt, "memory");
    client.expect(rt, &no_line, b"refused C1");
    client.expect_each(rt, &STOP);
}

// Sixty-four workers.
#[test]
fn unusual_datagrams(rt: HostRuntime) {
    let member = new_member(&rt, "127.0.0.1:0");
    let packet = longest_packet(&rt, rt.alloc());
    for way in &WAYS {
        let (mut out, ports) = new_output(&rt, rt.alloc());
        ask_beside(
            &rt,
            &ports,
            || serve_by(
                &rt,
                rt.alloc(),
                *way,
                Workers { count: 64 },
                &OpenGate,
                &mut out,
            ),
            |client| expect_unusual(&rt, rt.alloc(), client, &member, &packet),
        );
    }
}

// All workers wait in a receive when it is asked to stop, since no datagram came.
#[test]
fn workers_that_wait_end(rt: HostRuntime) {
    for way in &WAYS {
        let (mut out, ports) = new_output(&rt, rt.alloc());
        ask_beside(
            &rt,
            &ports,
            || serve_by(
                &rt,
                rt.alloc(),
                *way,
                Workers { count: 64 },
                &OpenGate,
                &mut out,
            ),
            |client| client.expect_each(&rt, &STOP),
        );
    }
}
