//! Jobs in separate threads, and the counters that come back (docs/SWITCH.md, "Workers", "Tallies").

ghost use Rattle.std.specs.Prelude.{◌≡◌, ◌+◌, ◌++◌, ◌<◌, ◌≤◌, Err, IfOk, map, vec_capacity, vec_len};
ghost use Rattle.dispatch.specs.Counted.{AreCountersBack, AreGatedBack};
ghost use Rattle.dispatch.specs.declared.workers.RunFault.TheVariants.{SpawnFailed};

use crate::device::{Outbox, Source};
use crate::job::Gate;
use crate::tally::Counter;
use crate::worker_job::{Done, Job};
use crate::workers::{RunFault, run_workers};
use std::alloc::Global;
use std::sync::Wait;
use std::thread::Threads;

fn counter_of<S: Source + Drop, O: Outbox + Drop>(done: Done<S, O>) -> Counter
    ensures { result ≡ done.counter }
{
    let Done {
        worker: _,
        counter,
        source: _,
        outbox: _,
        buffer: _,
    } = done;
    counter
}

// Appends the counters of the jobs to the others. There is room for them.
fn take_back<S: Source + Drop, O: Outbox + Drop>(
    dones: Vec<Done<S, O>>,
    counters: &mut Vec<Counter>,
)
    requires room { vec_len counters.old + vec_len dones ≤ vec_capacity counters.old }
    ensures counters { counters.new.items ≡ counters.old.items ++ map (λ done. done.counter) dones.items }
{
    for done in dones {
        counters.push_reserved(counter_of(done));
    }
}

/// Runs each job to its end, as `run_workers` does with `side` beside them, and returns the counters: the spare ones, and then those
/// of the jobs, in their order.
///
/// Takes all memory but that of the threads before it starts one. May wait, as `run_workers` does.
pub fn run_counted<
    R: Threads + Wait + Sync,
    S: Source + Send + Drop,
    O: Outbox + Send + Drop,
    G: Gate + Sync,
    F: FnOnce() + Drop,
>(
    rt: &R,
    alloc: Global,
    jobs: Vec<Job<S, O>>,
    spare: Vec<Counter>,
    gate: &G,
    side: F,
) -> Result<Vec<Counter>, RunFault>
    requires side { F.pre side }
    ensures counters_back { IfOk result (λ counters. AreCountersBack S.Source O.Outbox jobs.items spare.items counters.items) }
    ensures gate_called { IfOk result (λ counters. AreGatedBack S.Source O.Outbox (G.called gate.now) (vec_len jobs) jobs.items spare.items counters.items) }
    ensures side_was_run { IfOk result (λ counters. F.post side tt) }
    ensures spawn_failed { result ≡ Err SpawnFailed → 0 < vec_len jobs }
{
    let mut counters = spare;
    let Ok(()) = counters.reserve(jobs.len()) else {
        return Err(RunFault::OutOfMemory);
    };
    let dones = run_workers(rt, alloc, jobs, gate, side)?;
    take_back(dones, &mut counters);
    Ok(counters)
}
