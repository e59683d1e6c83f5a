//! The switch while it has much to do: its front is flooded, or datagrams wait for a worker when it is asked to stop.

use super::client::{
    Case, Client, PACKET, Ports, TURNS, ask_beside, at, local, new_output, serve_by,
};
use command_line::{ReceiveWay, Workers};
use dispatch::Gate;
use serve_udp::serve;
use std::net::UdpSocket;
use std::process::Abort;
use std::sync::Arc;
use std::sync::atomic::{AtomicU64, Ordering};
use std::thread;

// The number of datagrams that a batch adds to the flood: more than it judges at most.
const ADDED: u32 = 128;

// Each batch sends the front more datagrams than it judges, until the flood is ended, so that the front is never empty.
#[derive(Drop)]
struct Flood {
    socket: UdpSocket,
    ports: Ports,
    batches: AtomicU64,
    ended: AtomicU64,
}

impl Gate for Flood {
    fn start(&self, _batch: u64) {
        if self.ended.load(Ordering::SeqCst) != 0 {
            return;
        }
        let front = local(self.ports.load(Ordering::SeqCst) >> 16);
        for _ in 0..ADDED {
            let _ = self.socket.send_to(&PACKET[..27], front);
        }
        self.batches.fetch_add(1, Ordering::SeqCst);
    }

    fn done(&self, _batch: u64) {}
}

const SHOW: Case = (b"show", b"version 0 groups 0 members 0 charge 2");

const STOP: Case = (b"stop", b"ok stop");

// Begins the flood, and waits until it is under way.
fn begin(rt: &impl Abort, client: &Client, flood: &Flood) {
    client.send(rt, &PACKET[..27]);
    for _ in 0..TURNS {
        if flood.batches.load(Ordering::SeqCst) >= 100 {
            break;
        }
        thread::yield_now();
    }
}

// The number of times that `show` is answered, of 20.
fn times_answered(client: &Client) -> u32 {
    let mut answered = 0u32;
    for _ in 0..20u32 {
        if client.is_answered(SHOW.0, SHOW.1).unwrap_or(false) {
            answered = answered.saturating_add(1);
        }
    }
    answered
}

// `show` is answered each time while the flood lasts, and `stop` after it.
fn expect_beside(rt: &impl Abort, client: &Client, flood: &Flood) {
    begin(rt, client, flood);
    let answered = times_answered(client);
    flood.ended.store(1, Ordering::SeqCst);
    client.expect(rt, STOP.0, STOP.1);
    assert!(rt; answered == 20, "{answered}");
}

const WAYS: [ReceiveWay; 2] = [ReceiveWay::Queued, ReceiveWay::Direct];

#[test]
fn control_is_answered_beside_a_flood(rt: HostRuntime) {
    for way in &WAYS {
        let (mut out, ports) = new_output(&rt, rt.alloc());
        let flood = Flood {
            socket: UdpSocket::bind(&rt, local(0)).expect(&rt, "a socket"),
            ports: Arc::try_clone(&ports).expect(&rt, "a third owner"),
            batches: AtomicU64::new(0),
            ended: AtomicU64::new(0),
        };
        ask_beside(
            &rt,
            &ports,
            || serve_by(
                &rt,
                rt.alloc(),
                *way,
                Workers { count: 2 },
                &flood,
                &mut out,
            ),
            |client| expect_beside(&rt, client, &flood),
        );
        assert!(rt; flood.batches.load(Ordering::SeqCst) >= 100);
    }
}

// The first batch waits until it is let go, for `TURNS` turns at most.
#[derive(Drop)]
struct Held {
    let_go: AtomicU64,
    failures: AtomicU64,
}

impl Gate for Held {
    fn start(&self, batch: u64) {
        if batch != 1 {
            return;
        }
        for _ in 0..TURNS {
            if self.let_go.load(Ordering::SeqCst) != 0 {
                return;
            }
            thread::yield_now();
        }
        self.failures.fetch_add(1, Ordering::SeqCst);
    }

    fn done(&self, _batch: u64) {}
}

const EIGHT_AND_STOP: [Case; 9] = [SHOW, SHOW, SHOW, SHOW, SHOW, SHOW, SHOW, SHOW, STOP];

const QUEUED: &[u8] =
    b"malformed 40 nogroup 0 nomembers 0 dropped 0 delivered 0 sendfailed 0 receivefailed 0";

// Fills the queue, and lets its worker go once `stop` is answered. Of eight answers the last come in a later turn than the first, so all
// is received by then.
fn queue_and_stop(rt: &impl Abort, client: &Client, held: &Held) {
    for _ in 0..40u32 {
        client.send(rt, &PACKET[..27]);
    }
    client.expect_each(rt, &EIGHT_AND_STOP);
    held.let_go.store(1, Ordering::SeqCst);
}

// The ready line, and then that of the totals.
fn is_written(rt: &impl Abort, bytes: &[u8]) {
    let mut lines = bytes.split(|byte| *byte == b'\n');
    let ready = lines.next().expect(rt, "a line");
    assert!(rt; ready.starts_with(b"ready "));
    assert!(rt; lines.next() == Some(QUEUED));
    assert!(rt; lines.next() == Some(b"".as_slice()));
    assert!(rt; lines.next() == None);
}

#[test]
fn queued_datagrams_are_judged_after_stop(rt: HostRuntime) {
    let held = Held {
        let_go: AtomicU64::new(0),
        failures: AtomicU64::new(0),
    };
    let (mut out, ports) = new_output(&rt, rt.alloc());
    ask_beside(
        &rt,
        &ports,
        || serve(&rt, rt.alloc(), at(0), at(0), 1, &held, &mut out),
        |client| queue_and_stop(&rt, client, &held),
    );
    assert!(rt; held.failures.load(Ordering::SeqCst) == 0);
    is_written(&rt, &out.bytes);
}
