//! Queues of workers, and jobs over them.

use dispatch::{
    BatchDone, BatchFault, Counter, Done, Failed, Job, KINDS, OpenGate, Sends, Source, Tally,
    Totals, batch, run_workers,
};
use ipv4_fields::Endpoint;
use member_group::{Command, Config};
use read_section::{Worker, open};
use serve_devices::{
    ChannelReceiver, ChannelSender, QUEUE_PLACES, QueueIngress, Received, Receives, WorkerQueue,
    WorkerQueues, WorkerSource, open_channel, open_queue,
};
use std::alloc::Global;
use std::process::Abort;
use std::sync::Wait;

// 29 bytes of UDP over IPv4 from 10.0.0.1:5000 to 10.0.0.2:53, with the payload `a`.
const PACKET: [u8; 29] = [
    0x45, 0x00, 0x00, 0x1d, 0x00, 0x00, 0x00, 0x00, 0x40, 0x11, 0x00, 0x00, 0x0a, 0x00, 0x00, 0x01,
    0x0a, 0x00, 0x00, 0x02, 0x13, 0x88, 0x00, 0x35, 0x00, 0x09, 0x00, 0x00, 0x61,
];

// 10.0.0.2:53
const KEY: Endpoint = Endpoint {
    address: 0x0a00_0002,
    port: 53,
};

pub(super) fn at_port(port: u16) -> Endpoint {
    Endpoint {
        address: 0x7f00_0001,
        port,
    }
}

// The workers of a table whose one group has one member.
fn new_workers(rt: &impl Abort, alloc: Global) -> Vec<Worker> {
    let add: Command = Command::AddGroup { key: KEY };
    let join: Command = Command::Join {
        key: KEY,
        member: 1,
        to: at_port(9001),
    };
    let group = Config::new(alloc).apply(&add).expect(rt, "a group");
    let config = group.apply(&join).expect(rt, "a member");
    let (_operator, workers) = open(config).expect(rt, "a table");
    workers
}

fn expect_totals(rt: &impl Abort, tally: &mut Tally, wanted: [u64; KINDS]) {
    let Totals { counts } = tally.totals();
    assert!(rt; counts == wanted);
}

/// A source over the end of a queue.
type QueueSource<'a, R> = WorkerSource<QueueIngress<'a, R>>;

// A worker's queue, with a source that has room for 64 bytes.
fn new_queue<R: Abort + Wait>(rt: &R, alloc: Global) -> (QueueSource<'_, R>, WorkerQueue) {
    let (ingress, queue) = open_queue(rt, alloc).expect(rt, "a queue");
    let room = vec![in alloc; 0; 64].expect(rt, "memory");
    (WorkerSource::new(ingress, room), queue)
}

// The queues of one worker, and its source.
fn one_queue<R: Abort + Wait>(rt: &R, alloc: Global) -> (QueueSource<'_, R>, WorkerQueues) {
    let (source, queue) = new_queue(rt, alloc);
    let mut queues = Vec::new(alloc);
    queues.push(queue).expect(rt, "memory");
    (source, WorkerQueues::new(alloc, queues))
}

// Two packets, and between them a failed receive and bytes that are not a packet. Then the queues end.
fn put_packets<R: Wait>(rt: &R, mut queues: WorkerQueues) {
    queues.arrive(rt, Some(&PACKET));
    queues.arrive(rt, None);
    queues.arrive(rt, Some(&PACKET[..27]));
    queues.arrive(rt, Some(&PACKET));
}

fn rest_is_judged<R: Abort + Wait>(
    rt: &R,
    worker: &mut Worker,
    counter: &mut Counter,
    source: &mut QueueSource<'_, R>,
    outbox: &mut Sends,
    tally: &mut Tally,
) {
    let mut buf = [0; 64];
    let failed = batch(worker, counter, source, outbox, &mut buf, 10);
    assert!(rt; failed == Err(BatchFault::ReceiveFailed));
    let rest = batch(worker, counter, source, outbox, &mut buf, 10);
    let wanted = BatchDone {
        judged: 2,
        more: false,
    };
    assert!(rt; rest == Ok(wanted));
    expect_totals(rt, tally, [1, 0, 0, 0, 2, 0, 1]);
    assert!(rt; outbox.count() == 2);
}

#[test]
fn failed_receive_is_counted_and_the_rest_is_judged(rt: HostRuntime) {
    let (mut source, queues) = one_queue(&rt, rt.alloc());
    put_packets(&rt, queues);
    let mut outbox = Sends::with_room(rt.alloc(), 2, 58).expect(&rt, "memory");
    let (mut tally, mut counters) = Tally::open(rt.alloc()).expect(&rt, "a tally");
    let mut workers = new_workers(&rt, rt.alloc());
    rest_is_judged(
        &rt,
        workers.last_mut().expect(&rt, "a worker"),
        counters.last_mut().expect(&rt, "a counter"),
        &mut source,
        &mut outbox,
        &mut tally,
    );
}

fn put_bytes<R: Wait>(rt: &R, mut queues: WorkerQueues) {
    queues.arrive(rt, Some(&[1, 2]));
    queues.arrive(rt, Some(&[]));
    queues.arrive(rt, None);
    queues.arrive(rt, Some(&[3, 4, 5, 6]));
}

// The result of each receive, and the buffer after it.
const RECEIVES: [(Result<Option<usize>, Failed>, [u8; 3]); 6] = [
    (Ok(Some(2)), [1, 2, 0]),
    (Ok(Some(0)), [1, 2, 0]),
    (Err(Failed), [1, 2, 0]),
    (Ok(Some(3)), [3, 4, 5]),
    (Ok(None), [3, 4, 5]),
    (Ok(None), [3, 4, 5]),
];

fn come_in_order<S: Source>(rt: &impl Abort, source: &mut S) {
    let mut buf = [0; 3];
    for (place, wanted) in RECEIVES.iter().enumerate() {
        let answer = source.next(&mut buf);
        assert!(rt; (answer, buf) == *wanted, "receive {place}");
    }
}

#[test]
fn receives_come_in_order_and_cut(rt: HostRuntime) {
    let (mut source, queues) = one_queue(&rt, rt.alloc());
    put_bytes(&rt, queues);
    come_in_order(&rt, &mut source);
}

// The same receives in memory.
fn in_memory(rt: &impl Abort, alloc: Global) -> WorkerSource<Receives> {
    let mut receives = Receives::new(alloc);
    for datagram in [[1, 2].as_slice(), &[]] {
        let next = received(rt, alloc, datagram);
        receives.push(next).expect(rt, "memory");
    }
    receives.push(Received::new(alloc)).expect(rt, "memory");
    let last = received(rt, alloc, &[3, 4, 5, 6]);
    receives.push(last).expect(rt, "memory");
    let room = vec![in alloc; 0; 4].expect(rt, "memory");
    WorkerSource::new(receives, room)
}

#[test]
fn receives_in_memory_come_in_order(rt: HostRuntime) {
    let mut source = in_memory(&rt, rt.alloc());
    come_in_order(&rt, &mut source);
}

// It is asked twice before each receive whether it would wait.
#[test]
fn receives_ahead_come_in_order(rt: HostRuntime) {
    let mut source = in_memory(&rt, rt.alloc());
    let mut buf = [0; 3];
    for (place, wanted) in RECEIVES.iter().enumerate() {
        let waits = (source.would_wait(), source.would_wait());
        assert!(rt; waits == (place >= 4, place >= 4), "receive {place}");
        let answer = source.next(&mut buf);
        assert!(rt; (answer, buf) == *wanted, "receive {place}");
    }
}

fn received(rt: &impl Abort, alloc: Global, datagram: &[u8]) -> Received {
    let mut received = Received::new(alloc);
    received.fill(datagram).expect(rt, "memory");
    received
}

fn both_are_received<R: Abort + Wait>(
    rt: &R,
    alloc: Global,
    arriving: &mut ChannelSender<Received>,
    source: &mut QueueSource<'_, R>,
) {
    let mut buf = [0; 3];
    for datagram in &[[1, 2, 3], [4, 5, 6]] {
        assert!(rt; arriving.put(rt, received(rt, alloc, datagram)).is_ok());
        assert!(rt; source.next(&mut buf) == Ok(Some(3)));
        assert!(rt; buf == *datagram);
    }
}

fn is_used_again(rt: &impl Abort, again: &mut Received) {
    let mut buf = [0; 3];
    let size = again.open(&mut buf);
    assert!(rt; (size, buf) == (Ok(3), [1, 2, 3]));
    again.fill(&[7]).expect(rt, "memory");
    let size = again.open(&mut buf);
    assert!(rt; (size, buf) == (Ok(1), [7, 2, 3]));
    again.fail();
    assert!(rt; again.open(&mut buf) == Err(Failed));
}

fn first_comes_back<R: Abort + Wait>(rt: &R, opened: &mut ChannelReceiver<Received>) {
    let mut again = opened.poll(rt).expect(rt, "one came back");
    assert!(rt; opened.poll(rt).is_none());
    is_used_again(rt, &mut again);
}

// The way back has one place: the second receive finds none.
#[test]
fn opened_receives_come_back(rt: HostRuntime) {
    let (mut arriving, at_worker) = open_channel(rt.alloc(), 2).expect(&rt, "a channel");
    let (from_worker, mut opened) = open_channel(rt.alloc(), 1).expect(&rt, "a channel");
    let room = vec![in rt.alloc(); 0; 64].expect(&rt, "memory");
    let ingress = QueueIngress::new(&rt, at_worker, from_worker);
    let mut source = WorkerSource::new(ingress, room);
    both_are_received(&rt, rt.alloc(), &mut arriving, &mut source);
    first_comes_back(&rt, &mut opened);
}

// The queues of two workers, and their sources.
fn two_queues<R: Abort + Wait>(
    rt: &R,
    alloc: Global,
) -> (QueueSource<'_, R>, QueueSource<'_, R>, WorkerQueues) {
    let (first, one) = new_queue(rt, alloc);
    let (second, other) = new_queue(rt, alloc);
    let mut queues = Vec::new(alloc);
    queues.push(one).expect(rt, "memory");
    queues.push(other).expect(rt, "memory");
    (first, second, WorkerQueues::new(alloc, queues))
}

fn other_is_served<R: Abort + Wait>(
    rt: &R,
    queues: &mut WorkerQueues,
    source: &mut QueueSource<'_, R>,
) {
    let mut buf = [0; 3];
    for i in 1..=QUEUE_PLACES as u8 {
        queues.arrive(rt, Some(&[0]));
        queues.arrive(rt, Some(&[i, i]));
        let size = if i == 1 { 1 } else { 2 };
        assert!(rt; source.next(&mut buf) == Ok(Some(size)), "receive {i}");
    }
}

// More receives come for the worker that ended than its queue has places.
#[test]
fn worker_that_ended_is_not_waited_for(rt: HostRuntime) {
    let (ended, mut source, mut queues) = two_queues(&rt, rt.alloc());
    queues.arrive(&rt, Some(&[0]));
    queues.arrive(&rt, Some(&[1]));
    drop(ended);
    other_is_served(&rt, &mut queues, &mut source);
}

// The sample packet with this payload.
fn packet(payload: u8) -> [u8; 29] {
    let mut packet = PACKET;
    packet[28] = payload;
    packet
}

// The number of packets, which have their numbers as payload. After each comes a failed receive for each worker.
const ARRIVALS: u8 = 200;

fn receive_all<R: Wait>(rt: &R, mut queues: WorkerQueues) {
    for i in 0..ARRIVALS {
        queues.arrive(rt, Some(&packet(i)));
        queues.arrive(rt, None);
        queues.arrive(rt, None);
    }
}

fn new_job<R: Abort + Wait>(
    rt: &R,
    alloc: Global,
    worker: Worker,
    counter: Counter,
) -> (Job<QueueSource<'_, R>, Sends>, WorkerQueue) {
    let (source, queue) = new_queue(rt, alloc);
    let job = Job {
        worker,
        counter,
        source,
        outbox: Sends::with_room(alloc, 100, 2900).expect(rt, "memory"),
        buffer: vec![in alloc; 0; 64].expect(rt, "memory"),
        limit: 7,
    };
    (job, queue)
}

// The jobs of two workers, and their queues.
fn two_jobs<'a, R: Abort + Wait>(
    rt: &'a R,
    alloc: Global,
    counters: &mut Vec<Counter>,
) -> (Vec<Job<QueueSource<'a, R>, Sends>>, WorkerQueues) {
    let mut workers = new_workers(rt, alloc);
    let mut jobs = Vec::new(alloc);
    let mut queues = Vec::new(alloc);
    for _ in 0..2usize {
        let worker = workers.pop().expect(rt, "a worker");
        let counter = counters.pop().expect(rt, "a counter");
        let (job, queue) = new_job(rt, alloc, worker, counter);
        jobs.push(job).expect(rt, "memory");
        queues.push(queue).expect(rt, "memory");
    }
    assert!(rt; queues.len() == 2);
    (jobs, WorkerQueues::new(alloc, queues))
}

// A hundred packets, of every other number.
fn every_other_is_sent(rt: &impl Abort, outbox: &Sends, first: u8) {
    assert!(rt; outbox.count() == 100);
    let mut number = first;
    for sent in outbox.bytes().chunks(29) {
        assert!(rt; sent == packet(number).as_slice(), "{number}");
        number = number.wrapping_add(2);
    }
}

fn turns_were_taken<R: Abort + Wait>(
    rt: &R,
    tally: &mut Tally,
    dones: &[Done<QueueSource<'_, R>, Sends>],
) {
    expect_totals(rt, tally, [0, 0, 0, 0, 200, 0, 400]);
    let [one, other] = dones else {
        panic!(rt; "other than two jobs ended");
    };
    every_other_is_sent(rt, &one.outbox, 0);
    every_other_is_sent(rt, &other.outbox, 1);
}

#[test]
fn two_workers_take_turns(rt: HostRuntime) {
    let (mut tally, mut counters) = Tally::open(rt.alloc()).expect(&rt, "a tally");
    let (jobs, queues) = two_jobs(&rt, rt.alloc(), &mut counters);
    let runtime = &rt;
    let dones = run_workers(&rt, rt.alloc(), jobs, &OpenGate, move || {
        receive_all(runtime, queues)
    })
    .expect(&rt, "both jobs run");
    turns_were_taken(&rt, &mut tally, &dones);
}
