//! Sockets of workers: what an outbox sends, and what an ingress receives.

use super::devices::at_port;
use dispatch::{Failed, Outbox, Source};
use serve_devices::{
    Ingress, SocketEgress, SocketIngress, SocketOutbox, StopReceiving, WorkerSource,
};
use std::alloc::Global;
use std::net::{SocketAddr, UdpSocket};
use std::process::Abort;
use std::sync::Wait;
use std::sync::atomic::AtomicBool;
use std::time::Duration;

fn expect_sent_whole<O: Outbox>(
    rt: &impl Abort,
    member: &UdpSocket,
    outbox: &mut O,
    datagram: &[u8],
    buf: &mut [u8],
) {
    let to = at_port(member.local_addr().expect(rt, "an address").port());
    assert!(rt; outbox.send(to, datagram).is_ok());
    let size = member.recv(buf).expect(rt, "a datagram");
    assert!(rt; &buf[..size] == datagram);
}

// 65,507 bytes are the most that UDP over IPv4 takes. Nothing is sent to port 0.
fn datagrams_are_sent<O: Outbox>(
    rt: &impl Abort,
    member: &UdpSocket,
    outbox: &mut O,
    too_long: &[u8],
    buf: &mut [u8],
) {
    let to = at_port(member.local_addr().expect(rt, "an address").port());
    let longest = too_long.get(..65_507).expect(rt, "the longest");
    expect_sent_whole(rt, member, outbox, &[7; 29], buf);
    expect_sent_whole(rt, member, outbox, &[], buf);
    expect_sent_whole(rt, member, outbox, longest, buf);
    assert!(rt; outbox.send(to, too_long) == Err(Failed));
    assert!(rt; outbox.send(at_port(0), &[1]) == Err(Failed));
    expect_sent_whole(rt, member, outbox, &[1], buf);
}

#[test]
fn outbox_sends_whole_datagrams(rt: HostRuntime) {
    let member = UdpSocket::bind(&rt, "127.0.0.1:0").expect(&rt, "a socket");
    let wait = Some(Duration::from_secs(5));
    member.set_read_timeout(wait).expect(&rt, "a time limit");
    let stopped = AtomicBool::new(false);
    let socket = UdpSocket::bind(&rt, "127.0.0.1:0").expect(&rt, "a socket");
    let egress = SocketEgress::new(&rt, socket, &stopped).expect(&rt, "an egress");
    let mut outbox = SocketOutbox::new(egress);
    let too_long = vec![in rt.alloc(); 7; 65_508].expect(&rt, "memory");
    let mut buf = vec![in rt.alloc(); 0; 65_535].expect(&rt, "memory");
    datagrams_are_sent(&rt, &member, &mut outbox, &too_long, &mut buf);
}

// The result of a receive, and the buffer after it.
type ReceivedInto = (Option<Result<usize, Failed>>, [u8; 3]);

const NOTHING: ReceivedInto = (None, [0, 0, 0]);

fn expect_received<I: Ingress>(rt: &impl Abort, ingress: &mut I, wanted: ReceivedInto) {
    let mut buf = [0; 3];
    let result = ingress.receive(&mut buf);
    assert!(rt; (result, buf) == wanted);
}

fn expect_tried<I: Ingress>(rt: &impl Abort, ingress: &mut I, wanted: ReceivedInto) {
    let mut buf = [0; 3];
    let result = ingress.try_receive(&mut buf);
    assert!(rt; (result, buf) == wanted);
}

fn send(rt: &impl Abort, sender: &UdpSocket, datagram: &[u8], to: SocketAddr) {
    assert!(rt; sender.send_to(datagram, to).is_ok());
}

fn datagrams_are_received<I: Ingress>(
    rt: &impl Abort,
    ingress: &mut I,
    sender: &UdpSocket,
    to: SocketAddr,
) {
    expect_tried(rt, ingress, NOTHING);
    send(rt, sender, &[1, 2], to);
    expect_received(rt, ingress, (Some(Ok(2)), [1, 2, 0]));
    send(rt, sender, &[], to);
    expect_received(rt, ingress, (Some(Ok(0)), [0, 0, 0]));
    send(rt, sender, &[], to);
    expect_tried(rt, ingress, (Some(Ok(0)), [0, 0, 0]));
    send(rt, sender, &[3, 4, 5, 6], to);
    expect_tried(rt, ingress, (Some(Ok(3)), [3, 4, 5]));
    expect_tried(rt, ingress, NOTHING);
}

fn is_received_until_stopped<R: Abort + Wait>(rt: &R, sockets: &[UdpSocket], sender: &UdpSocket) {
    let socket = sockets.first().expect(rt, "a socket");
    let to = socket.local_addr().expect(rt, "an address");
    let stopped = AtomicBool::new(false);
    let mut ingress = SocketIngress::new(rt, socket, &stopped);
    datagrams_are_received(rt, &mut ingress, sender, to);
    send(rt, sender, &[7], to);
    drop(StopReceiving {
        stopped: &stopped,
        sockets,
    });
    expect_tried(rt, &mut ingress, NOTHING);
    expect_received(rt, &mut ingress, NOTHING);
}

// An empty datagram does not end it, and once it is ended a datagram that is there is not received.
#[test]
fn socket_receives_until_it_is_stopped(rt: HostRuntime) {
    let socket = UdpSocket::bind(&rt, "127.0.0.1:0").expect(&rt, "a socket");
    let sender = UdpSocket::bind(&rt, "127.0.0.1:0").expect(&rt, "a socket");
    is_received_until_stopped(&rt, &[socket], &sender);
}

fn receive_ahead_is_given<R: Abort + Wait>(
    rt: &R,
    alloc: Global,
    sockets: &[UdpSocket],
    sender: &UdpSocket,
) {
    let socket = sockets.first().expect(rt, "a socket");
    let to = socket.local_addr().expect(rt, "an address");
    let stopped = AtomicBool::new(false);
    let room = vec![in alloc; 0; 64].expect(rt, "memory");
    let mut source = WorkerSource::new(SocketIngress::new(rt, socket, &stopped), room);
    assert!(rt; source.would_wait());
    send(rt, sender, &[7, 8], to);
    assert!(rt; !source.would_wait());
    drop(StopReceiving {
        stopped: &stopped,
        sockets,
    });
    let mut buf = [0; 3];
    let answer = source.next(&mut buf);
    assert!(rt; (answer, buf) == (Ok(Some(2)), [7, 8, 0]));
    assert!(rt; source.would_wait());
    assert!(rt; source.next(&mut buf) == Ok(None));
}

// A receive ahead is still given.
#[test]
fn receive_ahead_outlasts_the_end(rt: HostRuntime) {
    let socket = UdpSocket::bind(&rt, "127.0.0.1:0").expect(&rt, "a socket");
    let sender = UdpSocket::bind(&rt, "127.0.0.1:0").expect(&rt, "a socket");
    receive_ahead_is_given(&rt, rt.alloc(), &[socket], &sender);
}
