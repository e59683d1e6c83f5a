//! A job of batches of one datagram, over a source that fails once.

use super::batches::{failing_after, has_totals, new_tally, new_worker, two_sends};
use super::devices::FailsAfter;
use dispatch::{Counter, Failed, Gate, Job, Sends, Source, finish};
use std::alloc::Global;
use std::cell::Cell;
use std::process::Abort;
use std::sync::Wait;

// Expects batches of these numbers, each to start and then to end.
#[derive(Drop)]
struct Expected {
    next: Cell<u64>,
    step: u64,
    // The numbers of starts, of ends, and of batches other than the expected one.
    started: Cell<u32>,
    ended: Cell<u32>,
    wrong: Cell<u32>,
}

fn add_one(count: &Cell<u32>) {
    count.set(count.get().wrapping_add(1));
}

impl Expected {
    fn compare(&self, batch: u64) {
        if batch != self.next.get() {
            add_one(&self.wrong);
        }
    }
}

impl Gate for Expected {
    fn start(&self, batch: u64) {
        self.compare(batch);
        add_one(&self.started);
    }

    fn done(&self, batch: u64) {
        self.compare(batch);
        add_one(&self.ended);
        self.next.set(self.next.get().wrapping_add(self.step));
    }
}

// Six batches started and ended, this one last, and no other.
fn ended(rt: &impl Abort, gate: &Expected, last: u64) {
    assert!(rt; (gate.started.get(), gate.ended.get(), gate.wrong.get()) == (6, 6, 0));
    assert!(rt; gate.next.get() == last.wrapping_add(3));
}

// A gate that expects this number first, and 3 more for each further batch.
fn expecting(first: u64) -> Expected {
    Expected {
        next: Cell::new(first),
        step: 3,
        started: Cell::new(0),
        ended: Cell::new(0),
        wrong: Cell::new(0),
    }
}

fn job<S: Source + Drop>(
    rt: &impl Abort,
    alloc: Global,
    counter: Counter,
    source: S,
) -> Job<S, Sends> {
    Job {
        worker: new_worker(rt, alloc),
        counter,
        source,
        outbox: two_sends(rt, alloc),
        buffer: vec![in alloc; 0; 64].expect(rt, "a buffer"),
        limit: 1,
    }
}

// Two batches of a datagram, one that fails to receive, two of a datagram, and one at the end.
fn runs_to_its_end(rt: &(impl Wait + Abort), alloc: Global, first: u64, last: u64) {
    let (mut tally, counter) = new_tally(rt, alloc);
    let job = job(rt, alloc, counter, failing_after(rt, alloc, 2));
    let gate = expecting(first);
    let sent = finish(rt, &gate, (first, 3), job).outbox.count();
    ended(rt, &gate, last);
    has_totals(rt, &mut tally, &[1, 1, 0, 0, 2, 0, 1]);
    assert!(rt; sent == 2);
}

#[test]
fn job_runs_to_its_end(rt: HostRuntime) {
    runs_to_its_end(&rt, rt.alloc(), 2, 17);
}

// The second of its batches is the last number, 2^64 - 1.
#[test]
fn numbers_of_batches_go_on_from_zero(rt: HostRuntime) {
    runs_to_its_end(&rt, rt.alloc(), 0xffff_ffff_ffff_fffc, 11);
}

// A source that looks, at each call, whether a batch has started and not ended.
#[derive(Drop)]
struct Looking<'a> {
    gate: &'a Expected,
    // The number of calls between batches.
    between: &'a Cell<u32>,
    source: FailsAfter,
}

impl Source for Looking<'_> {
    ghost use Rattle.std.specs.Prelude.{None, Some};
    ghost use Rattle.dispatch.specs.Batch.{one_if};

    ghost state = { λ s. record { failures = one_if s.source.failed; coming = Some s.source.datagrams; given = None } };

    fn next(&mut self, buf: &mut [u8]) -> Result<Option<usize>, Failed> {
        if self.gate.started.get() == self.gate.ended.get() {
            add_one(self.between);
        }
        self.source.next(buf)
    }
}

// Each batch runs after its start and before its end.
#[test]
fn source_is_asked_within_batches(rt: HostRuntime) {
    let (mut tally, counter) = new_tally(&rt, rt.alloc());
    let (gate, between) = (expecting(2), Cell::new(0));
    let source = Looking {
        gate: &gate,
        between: &between,
        source: failing_after(&rt, rt.alloc(), 2),
    };
    let sent = finish(&rt, &gate, (2, 3), job(&rt, rt.alloc(), counter, source))
        .outbox
        .count();
    ended(&rt, &gate, 17);
    has_totals(&rt, &mut tally, &[1, 1, 0, 0, 2, 0, 1]);
    assert!(rt; (sent, between.get()) == (2, 0));
}
