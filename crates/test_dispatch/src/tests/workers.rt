//! Two jobs in threads of their own, and the code that runs beside them.

ghost use Rattle.std.specs.Prelude.{◌≡◌, ◌≤◌};

use super::batches::{four_datagrams, has_totals, one_datagram, two_sends};
use super::configurations::{three_members, workers_of};
use dispatch::{Counter, Datagrams, Done, Gate, Job, Sends, Tally, run_counted, run_workers};
use read_section::Worker;
use std::alloc::Global;
use std::process::Abort;
use std::sync::atomic::{AtomicU64, Ordering};
use std::thread;

// A job over these datagrams, by the last worker and the last counter.
fn job(
    rt: &impl Abort,
    alloc: Global,
    workers: &mut Vec<Worker>,
    counters: &mut Vec<Counter>,
    source: Datagrams,
    limit: u64,
) -> Job<Datagrams, Sends>
    requires limit { 1 ≤ limit }
    ensures limit { result.limit ≡ limit }
{
    Job {
        worker: workers.pop().expect(rt, "a worker"),
        counter: counters.pop().expect(rt, "a counter"),
        source,
        outbox: two_sends(rt, alloc),
        buffer: vec![in alloc; 0; 64].expect(rt, "a buffer"),
        limit,
    }
}

// One over four datagrams and one over others, and their tally.
fn two_jobs(
    rt: &impl Abort,
    alloc: Global,
    others: Datagrams,
    limit: u64,
) -> (Tally, Vec<Job<Datagrams, Sends>>)
    requires { 1 ≤ limit }
{
    let mut workers = workers_of(rt, three_members(rt, alloc));
    let (tally, mut counters) = Tally::open(alloc).expect(rt, "a tally opens");
    let mut jobs = Vec::new(alloc);
    for source in [four_datagrams(rt, alloc), others] {
        let job = job(rt, alloc, &mut workers, &mut counters, source, limit);
        jobs.push(job).expect(rt, "one job more");
    }
    (tally, jobs)
}

// Each of the two jobs sent twice, and has its buffer still.
fn are_both_done(rt: &impl Abort, tally: &mut Tally, dones: &[Done<Datagrams, Sends>]) {
    assert!(rt; dones.len() == 2);
    has_totals(rt, tally, &[2, 2, 0, 0, 4, 0, 0]);
    for done in dones {
        assert!(rt; (done.outbox.count(), done.buffer.len()) == (2, 64));
    }
}

// Three that wait for each other, each for `TURNS` turns at most.
#[derive(Drop)]
struct Meeting {
    came: AtomicU64,
    failures: AtomicU64,
}

const TURNS: u32 = 10_000_000;

impl Meeting {
    fn come(&self, mark: u64) {
        self.came.fetch_add(mark, Ordering::SeqCst);
        for _ in 0..TURNS {
            if self.came.load(Ordering::SeqCst) == 111 {
                return;
            }
            thread::yield_now();
        }
        self.failures.fetch_add(1, Ordering::SeqCst);
    }
}

impl Gate for Meeting {
    fn start(&self, batch: u64) {
        match batch {
            1 => self.come(1),
            2 => self.come(10),
            _ => {
                self.failures.fetch_add(1, Ordering::SeqCst);
            }
        }
    }

    fn done(&self, _batch: u64) {}
}

#[test]
fn two_jobs_and_side_run_at_once(rt: HostRuntime) {
    let others = four_datagrams(&rt, rt.alloc());
    let (mut tally, jobs) = two_jobs(&rt, rt.alloc(), others, 10);
    let meeting = Meeting {
        came: AtomicU64::new(0),
        failures: AtomicU64::new(0),
    };
    let gate = &meeting;
    let dones = run_workers(&rt, rt.alloc(), jobs, gate, || gate.come(100)).expect(
        &rt,
        "both jobs run",
    );
    assert!(rt; meeting.failures.into_inner() == 0);
    are_both_done(&rt, &mut tally, &dones);
}

// The count of each number: in hexadecimal, digit n counts number n, from 1 to 9, and digit 0 any other.
#[derive(Drop)]
struct Numbers {
    started: AtomicU64,
    ended: AtomicU64,
}

fn digit(batch: u64) -> u64 {
    if batch <= 9 { 1 << (4 * batch) } else { 1 }
}

impl Gate for Numbers {
    fn start(&self, batch: u64) {
        self.started.fetch_add(digit(batch), Ordering::SeqCst);
    }

    fn done(&self, batch: u64) {
        self.ended.fetch_add(digit(batch), Ordering::SeqCst);
    }
}

fn no_numbers() -> Numbers {
    Numbers {
        started: AtomicU64::new(0),
        ended: AtomicU64::new(0),
    }
}

// The first job has four batches of a datagram, and one at the end: 1, 3, 5, 7 and 9. The second has one of each: 2 and 4.
fn are_both_numbered(rt: &impl Abort, numbers: Numbers) {
    assert!(rt; numbers.started.into_inner() == 0x10_1011_1110);
    assert!(rt; numbers.ended.into_inner() == 0x10_1011_1110);
}

#[test]
fn two_jobs_number_their_batches(rt: HostRuntime) {
    let one = one_datagram(&rt, rt.alloc());
    let (mut tally, jobs) = two_jobs(&rt, rt.alloc(), one, 1);
    let numbers = no_numbers();
    let dones = run_workers(&rt, rt.alloc(), jobs, &numbers, || {}).expect(&rt, "both jobs run");
    assert!(rt; dones.len() == 2);
    has_totals(&rt, &mut tally, &[1, 1, 0, 0, 3, 0, 0]);
    are_both_numbered(&rt, numbers);
}

#[test]
fn two_counted_jobs_number_their_batches(rt: HostRuntime) {
    let one = one_datagram(&rt, rt.alloc());
    let (mut tally, jobs) = two_jobs(&rt, rt.alloc(), one, 1);
    let numbers = no_numbers();
    let spare = Vec::new(rt.alloc());
    let counters = run_counted(&rt, rt.alloc(), jobs, spare, &numbers, || {}).expect(&rt, "both");
    assert!(rt; counters.len() == 2);
    has_totals(&rt, &mut tally, &[1, 1, 0, 0, 3, 0, 0]);
    are_both_numbered(&rt, numbers);
}

// Without jobs no thread is started, and `side` runs all the same.
#[test]
fn side_runs_without_jobs(rt: HostRuntime) {
    let jobs: Vec<Job<Datagrams, Sends>> = Vec::new(rt.alloc());
    let meeting = Meeting {
        came: AtomicU64::new(11),
        failures: AtomicU64::new(0),
    };
    let gate = &meeting;
    let dones = run_workers(&rt, rt.alloc(), jobs, gate, || gate.come(100)).expect(
        &rt,
        "there is nothing to start",
    );
    assert!(rt; dones.is_empty());
    assert!(rt; meeting.came.into_inner() == 111);
}
