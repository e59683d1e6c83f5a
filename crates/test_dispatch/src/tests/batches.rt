//! Batches of four datagrams: two for the third of three members, one for no group, and one cut short.

use super::configurations::{PACKET, socket, three_members, worker_of};
use super::devices::{FailsAfter, FailsFirst, Looks, push, sends};
use dispatch::{
    BatchDone, BatchFault, Counter, Datagrams, KINDS, Outbox, Sends, Source, Tally, Totals, batch,
};
use read_section::{Worker, open};
use std::alloc::Global;
use std::process::Abort;

pub fn four_datagrams(rt: &impl Abort, alloc: Global) -> Datagrams {
    let mut other_port = PACKET;
    other_port[23] = 54;
    let mut datagrams = Datagrams::new(alloc);
    push(rt, alloc, &mut datagrams, &PACKET);
    push(rt, alloc, &mut datagrams, &PACKET);
    push(rt, alloc, &mut datagrams, &other_port);
    push(rt, alloc, &mut datagrams, &PACKET[..27]);
    datagrams
}

pub fn one_datagram(rt: &impl Abort, alloc: Global) -> Datagrams {
    let mut datagrams = Datagrams::new(alloc);
    push(rt, alloc, &mut datagrams, &PACKET);
    datagrams
}

pub fn new_worker(rt: &impl Abort, alloc: Global) -> Worker {
    worker_of(rt, three_members(rt, alloc))
}

// Room for the two sends of a batch.
pub fn two_sends(rt: &impl Abort, alloc: Global) -> Sends {
    sends(rt, alloc, 2, 58)
}

pub fn new_tally(rt: &impl Abort, alloc: Global) -> (Tally, Counter) {
    let (tally, mut counters) = Tally::open(alloc).expect(rt, "a tally opens");
    (tally, counters.pop().expect(rt, "a tally has counters"))
}

fn totals(tally: &mut Tally) -> [u64; KINDS] {
    let Totals { counts } = tally.totals();
    counts
}

pub fn has_totals(rt: &impl Abort, tally: &mut Tally, counts: &[u64; KINDS]) {
    assert!(rt; totals(tally) == *counts);
}

// A worker, and a tally with a counter.
#[derive(Drop)]
struct Bench {
    worker: Worker,
    tally: Tally,
    counter: Counter,
}

fn new_bench(rt: &impl Abort, alloc: Global) -> Bench {
    let (tally, counter) = new_tally(rt, alloc);
    Bench {
        worker: new_worker(rt, alloc),
        tally,
        counter,
    }
}

pub fn failing_after(rt: &impl Abort, alloc: Global, calls: u8) -> FailsAfter {
    FailsAfter {
        calls,
        failed: false,
        datagrams: four_datagrams(rt, alloc),
    }
}

// A batch of at most `limit` datagrams, by the bench's worker.
fn batch_of<S: Source, O: Outbox>(
    bench: &mut Bench,
    source: &mut S,
    outbox: &mut O,
    limit: u64,
) -> Result<BatchDone, BatchFault> {
    let mut buf = [0; 64];
    batch(
        &mut bench.worker,
        &mut bench.counter,
        source,
        outbox,
        &mut buf,
        limit,
    )
}

const fn judged(judged: u64, more: bool) -> Result<BatchDone, BatchFault> {
    Ok(BatchDone { judged, more })
}

// A batch of at most `limit` datagrams has this result.
fn batch_is<S: Source, O: Outbox>(
    bench: &mut Bench,
    source: &mut S,
    outbox: &mut O,
    limit: u64,
    wanted: Result<BatchDone, BatchFault>,
) -> bool {
    batch_of(bench, source, outbox, limit) == wanted
}

// Two datagrams were sent, both to the third member.
fn both_are_sent(sends: &Sends) -> bool {
    (sends.to(0), sends.to(1)) == (Some(socket(3)), Some(socket(3)))
        && (sends.count(), sends.bytes().len()) == (2, 58)
}

fn judges_all_four(
    rt: &impl Abort,
    bench: &mut Bench,
    source: &mut Datagrams,
    sends: &mut Sends,
    limit: u64,
    more: bool,
) {
    assert!(rt; batch_is(bench, source, sends, limit, judged(4, more)) && both_are_sent(sends));
    has_totals(rt, &mut bench.tally, &[1, 1, 0, 0, 2, 0, 0]);
}

fn are_judged(rt: &impl Abort, alloc: Global, bench: &mut Bench, limit: u64, more: bool) {
    let mut source = four_datagrams(rt, alloc);
    let mut sends = two_sends(rt, alloc);
    judges_all_four(rt, bench, &mut source, &mut sends, limit, more);
}

#[test]
fn batch_at_limit_and_at_end(rt: HostRuntime) {
    are_judged(&rt, rt.alloc(), &mut new_bench(&rt, rt.alloc()), 4, true);
    are_judged(&rt, rt.alloc(), &mut new_bench(&rt, rt.alloc()), 10, false);
}

fn none_is_asked(rt: &impl Abort, bench: &mut Bench, source: &mut FailsAfter, sends: &mut Sends) {
    assert!(rt; batch_is(bench, source, sends, 0, judged(0, true)) && !source.failed);
}

fn asks_nothing(rt: &impl Abort, alloc: Global, bench: &mut Bench) {
    let mut source = failing_after(rt, alloc, 0);
    let mut sends = two_sends(rt, alloc);
    none_is_asked(rt, bench, &mut source, &mut sends);
}

#[test]
fn batch_of_none_asks_nothing(rt: HostRuntime) {
    asks_nothing(&rt, rt.alloc(), &mut new_bench(&rt, rt.alloc()));
}

// The last worker of a table, and an outbox that looks at it and at a tally, with a counter of that.
#[derive(Drop)]
struct Watched {
    worker: Worker,
    counter: Counter,
    outbox: Looks,
}

fn new_watched(rt: &impl Abort, alloc: Global) -> Watched {
    let (operator, mut workers) = open(three_members(rt, alloc)).expect(rt, "a table opens");
    let worker = workers.pop().expect(rt, "a table has workers");
    let (tally, counter) = new_tally(rt, alloc);
    let outbox = Looks {
        operator,
        tally,
        inside: 0,
        delivered: 0,
        sends: two_sends(rt, alloc),
    };
    Watched {
        worker,
        counter,
        outbox,
    }
}

fn sends_from_outside(rt: &impl Abort, watched: &mut Watched, source: &mut Datagrams) {
    let mut buf = [0; 64];
    let done = batch(
        &mut watched.worker,
        &mut watched.counter,
        source,
        &mut watched.outbox,
        &mut buf,
        4,
    );
    assert!(rt; done == judged(4, true));
    let outbox = &watched.outbox;
    assert!(rt; (outbox.sends.count(), outbox.inside, outbox.delivered) == (2, 0, 2));
}

fn sees_a_worker_inside(rt: &impl Abort, watched: &mut Watched) {
    watched.worker.enter().abandon();
    let _ = watched.outbox.send(socket(1), &[]);
    assert!(rt; watched.outbox.inside == 1);
}

// A send that blocks holds no version, and its datagram is in the totals. A section that is abandoned shows that the outbox would
// see a worker that is inside.
#[test]
fn sent_after_leaving_and_counting(rt: HostRuntime) {
    let mut source = four_datagrams(&rt, rt.alloc());
    let mut watched = new_watched(&rt, rt.alloc());
    sends_from_outside(&rt, &mut watched, &mut source);
    sees_a_worker_inside(&rt, &mut watched);
}

fn first_send_fails(
    rt: &impl Abort,
    bench: &mut Bench,
    source: &mut Datagrams,
    outbox: &mut FailsFirst,
) {
    assert!(rt; batch_is(bench, source, outbox, 4, judged(4, true)) && outbox.sends.count() == 1);
    has_totals(rt, &mut bench.tally, &[1, 1, 0, 0, 2, 1, 0]);
}

fn fails_first(rt: &impl Abort, alloc: Global, bench: &mut Bench) {
    let mut source = four_datagrams(rt, alloc);
    let mut outbox = FailsFirst {
        failed: false,
        sends: two_sends(rt, alloc),
    };
    first_send_fails(rt, bench, &mut source, &mut outbox);
}

#[test]
fn outbox_fails_first(rt: HostRuntime) {
    fails_first(&rt, rt.alloc(), &mut new_bench(&rt, rt.alloc()));
}

fn third_receive_fails(
    rt: &impl Abort,
    bench: &mut Bench,
    source: &mut FailsAfter,
    sends: &mut Sends,
) {
    assert!(rt; batch_is(bench, source, sends, 10, Err(BatchFault::ReceiveFailed)));
    has_totals(rt, &mut bench.tally, &[0, 0, 0, 0, 2, 0, 1]);
    assert!(rt; batch_is(bench, source, sends, 10, judged(2, false)));
    has_totals(rt, &mut bench.tally, &[1, 1, 0, 0, 2, 0, 1]);
}

fn fails_third(rt: &impl Abort, alloc: Global, bench: &mut Bench) {
    let mut source = failing_after(rt, alloc, 2);
    let mut sends = two_sends(rt, alloc);
    third_receive_fails(rt, bench, &mut source, &mut sends);
}

#[test]
fn source_fails_third(rt: HostRuntime) {
    fails_third(&rt, rt.alloc(), &mut new_bench(&rt, rt.alloc()));
}
