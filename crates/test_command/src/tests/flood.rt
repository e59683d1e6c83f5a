//! `flood`: that its workers start together, its totals if it has no datagram, and its run by `main`.

use super::streams::{Sink, Source};
use super::{assert_wrote, run_as_main};
use command_line::Failure;
use command_waiting::flood;
use dispatch::{Gate, OpenGate};
use std::alloc::Global;
use std::process::Abort;
use std::sync::Wait;
use std::sync::atomic::{AtomicU64, Ordering};
use std::thread;
use std::thread::Threads;

const TOTALS: &str =
    "malformed 1024 nogroup 1024 nomembers 0 dropped 0 delivered 2048 sendfailed 0 receivefailed 0\n";

const FIVE: &str =
    "malformed 1 nogroup 1 nomembers 0 dropped 0 delivered 3 sendfailed 0 receivefailed 0\n";

const EIGHT: &str =
    "malformed 2 nogroup 2 nomembers 0 dropped 0 delivered 4 sendfailed 0 receivefailed 0\n";

const NONE: &str =
    "malformed 0 nogroup 0 nomembers 0 dropped 0 delivered 0 sendfailed 0 receivefailed 0\n";

// No line of words asks for no datagram.
#[test]
fn flood_of_few_datagrams(rt: HostRuntime) {
    let mut out = Sink::open(rt.alloc());
    let result = flood(&rt, rt.alloc(), 3, 0, &OpenGate, &mut out);
    assert!(rt; result == Ok(()));
    assert!(rt; out.text() == Some(NONE));
}

// Two first batches that wait for each other, each for this many turns at most.
#[derive(Drop)]
struct Meeting {
    came: AtomicU64,
    failures: AtomicU64,
}

const TURNS: u32 = 10_000_000;

impl Meeting {
    fn come(&self, place: u64) {
        self.came.fetch_add(place, Ordering::SeqCst);
        for _ in 0..TURNS {
            if self.came.load(Ordering::SeqCst) == 11 {
                return;
            }
            thread::yield_now();
        }
        self.failures.fetch_add(1, Ordering::SeqCst);
    }
}

impl Gate for Meeting {
    fn start(&self, batch: u64) {
        match batch {
            1 => self.come(1),
            2 => self.come(10),
            _ => {
                self.failures.fetch_add(1, Ordering::SeqCst);
            }
        }
    }

    fn done(&self, _batch: u64) {}
}

#[test]
fn two_flood_workers_start_together(rt: HostRuntime) {
    let gate = Meeting {
        came: AtomicU64::new(0),
        failures: AtomicU64::new(0),
    };
    let mut out = Sink::open(rt.alloc());
    let result = flood(&rt, rt.alloc(), 2, 5, &gate, &mut out);
    assert!(rt; result == Ok(()));
    assert!(rt; out.text() == Some(FIVE));
    assert!(rt; (gate.came.into_inner(), gate.failures.into_inner()) == (11, 0));
}

// After this many writes the next one fails, or the flush does.
fn assert_unwritten<R: Threads + Wait + Sync + Abort>(
    rt: &R,
    alloc: Global,
    limit: usize,
    flushes: bool,
) {
    let mut out = Sink::new(alloc, limit, flushes);
    let result = flood(rt, alloc, 1, 5, &OpenGate, &mut out);
    assert!(rt; result == Err(Failure::WriteFailed), "after {limit} writes");
}

#[test]
fn flood_that_is_not_written_is_e2(rt: HostRuntime) {
    let mut whole = Sink::open(rt.alloc());
    assert!(rt; flood(&rt, rt.alloc(), 1, 5, &OpenGate, &mut whole) == Ok(()));
    assert!(rt; whole.writes > 0);
    for limit in 0..whole.writes {
        assert_unwritten(&rt, rt.alloc(), limit, true);
    }
    assert_unwritten(&rt, rt.alloc(), whole.writes, false);
}

const FLOODS: [(&[&str], &str); 10] = [
    (&["flood", "--workers", "1"], TOTALS),
    (&["flood", "--workers", "64"], TOTALS),
    (&["flood", "--workers=4"], TOTALS),
    (&["flood", "--workers", "+4"], TOTALS),
    (&["flood", "--workers", "004"], TOTALS),
    (&["flood", "--workers", "4", "--datagrams", "4096"], TOTALS),
    (&["flood", "--workers", "2", "--datagrams", "8"], EIGHT),
    (&["flood", "--datagrams=+8", "--workers=1"], EIGHT),
    (&["flood", "--datagrams", "0005", "--workers", "4"], FIVE),
    (&["flood", "--workers", "64", "--datagrams", "5"], FIVE),
];

// As `main` runs it.
#[test]
fn flood_is_left_to_main(rt: HostRuntime) {
    for (words, text) in &FLOODS {
        let told = run_as_main(&rt, rt.alloc(), words, Source::open(b"", 1));
        assert_wrote(&rt, &told, 0, text, "");
    }
}
