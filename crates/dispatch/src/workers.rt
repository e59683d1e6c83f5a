//! Workers' threads: one a job, beside the caller's own (docs/SWITCH.md, "Workers").

ghost use Rattle.std.specs.Prelude.{◌≡◌, ◌+◌, ◌++◌, ◌∷◌, ◌<◌, ◌≤◌, Err, IfErr, IfOk, [], false, map, true, vec_capacity, vec_len};
ghost use Rattle.dispatch.specs.declared.workers.RunFault.TheVariants.{OutOfMemory, SpawnFailed};
ghost use Rattle.dispatch.specs.Workers.{AreDone, AreGatedDone, IsDone, IsGatedDone};
ghost use Rattle.dispatch.specs.body.Starts.{AreEach, begun, numbered};

use crate::device::{Outbox, Source};
use crate::job::Gate;
use crate::worker_job::{Done, Job, finish};
use std::alloc::Global;
use std::snapshot::Snapshot;
use std::sync::Wait;
use std::thread;
use std::thread::{Promise, PromisedHandle, Scope, Threads};

/// Why jobs have no results.
#[derive(Clone, Copy, Debug, PartialEq, Eq)]
pub enum RunFault {
    /// J1: a thread could not be started.
    SpawnFailed,
    /// J2: there was no memory for the threads' handles and their results. No thread was started.
    OutOfMemory,
}

// Keeps what a thread is started with, as it is before: its job, the number of its first batch and the step from one batch to the next,
// and the gate. Promises that the thread returns the parts of that job, run to its end, and that the gate was called for each batch.
#[derive(Drop)]
struct Finishes<S: Source, O: Outbox, G> {
    job: Snapshot<Job<S, O>>,
    numbers: (u64, u64),
    gate: Snapshot<G>,
}

impl<S: Source, O: Outbox, G: Gate> Promise<Done<S, O>> for Finishes<S, O, G> {
    ghost kept_by = { λ promise done. IsDone S.Source O.Outbox promise.job.value done
        × IsGatedDone S.Source O.Outbox (G.called promise.gate.value) promise.numbers.1 promise.numbers.0 promise.job.value done };
}

// Starts a thread for a job. Returns false if it could not be started.
fn start_one<
    's,
    'e,
    R: Wait + Sync,
    S: Source + Send + Drop + 'e,
    O: Outbox + Send + Drop + 'e,
    G: Gate + Sync,
>(
    rt: &'e R,
    scope: &'s Scope<'s, &'e ()>,
    job: Job<S, O>,
    numbers: (u64, u64),
    gate: &'e G,
    handles: &mut Vec<PromisedHandle<Done<S, O>, Finishes<S, O, G>>>,
) -> bool
    requires room { vec_len handles.old < vec_capacity handles.old }
    ensures started { result ≡ true → map (λ h. begun h.promise.job.value h.promise.numbers.0 h.promise.numbers.1 h.promise.gate.value) handles.new.items
        ≡ map (λ h. begun h.promise.job.value h.promise.numbers.0 h.promise.numbers.1 h.promise.gate.value) handles.old.items ++ begun job numbers.0 numbers.1 gate.entry.now ∷ [] }
    ensures one_more { result ≡ true → vec_len handles.new ≡ vec_len handles.old + 1 }
    ensures no_more { result ≡ false → vec_len handles.new ≡ vec_len handles.old }
    ensures capacity { vec_capacity handles.new ≡ vec_capacity handles.old }
{
    let promise = Finishes {
        job: Snapshot::of(&job),
        numbers,
        gate: Snapshot::of(gate),
    };
    match scope.spawn_with(promise, move || finish(rt, gate, numbers, job)) {
        Ok(handle) => {
            handles.push_reserved(handle);
            true
        }
        Err(_) => false,
    }
}

// Starts a thread for each job, in their order. Returns false if one could not be started; those before it run.
fn start_each<
    's,
    'e,
    R: Wait + Sync,
    S: Source + Send + Drop + 'e,
    O: Outbox + Send + Drop + 'e,
    G: Gate + Sync,
>(
    rt: &'e R,
    scope: &'s Scope<'s, &'e ()>,
    jobs: Vec<Job<S, O>>,
    gate: &'e G,
    handles: &mut Vec<PromisedHandle<Done<S, O>, Finishes<S, O, G>>>,
) -> bool
    requires empty { handles.old.items ≡ [] }
    requires room { vec_len jobs ≤ vec_capacity handles.old }
    ensures started { result ≡ true → map (λ h. begun h.promise.job.value h.promise.numbers.0 h.promise.numbers.1 h.promise.gate.value) handles.new.items
        ≡ numbered (λ job number. begun job number (vec_len jobs) gate.entry.now) 1 jobs.items }
    ensures one_a_job { result ≡ true → vec_len handles.new ≡ vec_len jobs }
    ensures no_more { vec_len handles.new ≤ vec_len jobs }
    ensures spawn_failed { result ≡ false → 0 < vec_len jobs }
{
    let step = jobs.len() as u64;
    let mut number = 1u64;
    for job in jobs {
        if !start_one(rt, scope, job, (number, step), gate, handles) {
            return false;
        }
        number = number.wrapping_add(1);
    }
    true
}

// Waits for each thread, and returns their results in order. Each promise is kept.
fn join_each<R: Threads, T: Drop, P: Promise<T> + Drop>(
    rt: &R,
    handles: Vec<PromisedHandle<T, P>>,
    results: &mut Vec<T>,
)
    requires empty { results.old.items ≡ [] }
    requires room { vec_len handles ≤ vec_capacity results.old }
    ensures one_a_handle { vec_len results.new ≡ vec_len handles }
    ensures kept { AreEach P.kept_by (map (λ h. h.promise) handles.items) results.new.items }
{
    for handle in handles {
        results.push_reserved(handle.join(rt));
    }
}

// Room for the handles and the results of so many threads.
fn room_for<H: Drop, T: Drop>(alloc: Global, count: usize) -> Result<(Vec<H>, Vec<T>), RunFault>
    ensures handles { IfOk result (λ rooms. (rooms.0.items ≡ []) × (count ≤ vec_capacity rooms.0)) }
    ensures results { IfOk result (λ rooms. (rooms.1.items ≡ []) × (count ≤ vec_capacity rooms.1)) }
    ensures fault { IfErr result (λ fault. fault ≡ OutOfMemory) }
{
    let Ok(handles) = Vec::with_capacity(alloc, count) else {
        return Err(RunFault::OutOfMemory);
    };
    let Ok(results) = Vec::with_capacity(alloc, count) else {
        return Err(RunFault::OutOfMemory);
    };
    Ok((handles, results))
}

fn run_or_drop<F: FnOnce() + Drop>(is_run: bool, side: F)
    requires { F.pre side }
    ensures { is_run ≡ true → F.post side tt }
{
    if is_run {
        side();
    } else {
        drop(side);
    }
}

// Runs the jobs in the threads of a scope, and `side` beside them.
fn run_in<
    's,
    'e,
    R: Threads + Wait + Sync,
    S: Source + Send + Drop + 'e,
    O: Outbox + Send + Drop + 'e,
    G: Gate + Sync,
    F: FnOnce() + Drop,
>(
    rt: &'e R,
    scope: &'s Scope<'s, &'e ()>,
    alloc: Global,
    jobs: Vec<Job<S, O>>,
    gate: &'e G,
    side: F,
) -> Result<Vec<Done<S, O>>, RunFault>
    requires side { F.pre side }
    ensures one_done_a_job { IfOk result (λ dones. vec_len dones ≡ vec_len jobs) }
    ensures done { IfOk result (λ dones. AreDone S.Source O.Outbox jobs.items dones.items) }
    ensures gate_called { IfOk result (λ dones. AreGatedDone S.Source O.Outbox (G.called gate.entry.now) (vec_len jobs) 1 jobs.items dones.items) }
    ensures side_was_run { IfOk result (λ dones. F.post side tt) }
    ensures spawn_failed { result ≡ Err SpawnFailed → 0 < vec_len jobs }
{
    let (mut handles, mut results) = match room_for(alloc, jobs.len()) {
        Ok(rooms) => rooms,
        Err(fault) => return Err(fault),
    };
    let all_started = start_each(rt, scope, jobs, gate, &mut handles);
    run_or_drop(all_started, side);
    join_each(rt, handles, &mut results);
    if all_started {
        Ok(results)
    } else {
        Err(RunFault::SpawnFailed)
    }
}

/// Runs each job to its end in a separate thread, and `side` in the caller's thread meanwhile; returns once all have ended. The
/// results are in the order of the jobs. With `w` jobs, job `i` calls its batch `j` by the number `j * w + i + 1` modulo 2^64, both
/// counted from 0.
///
/// May wait, since nothing says that a source ever ends. Takes the memory of handles and results before it starts a thread. If a thread
/// cannot be started, drops `side` without running it, and waits for the threads that were started: let `side` own what ends their
/// sources.
pub fn run_workers<
    R: Threads + Wait + Sync,
    S: Source + Send + Drop,
    O: Outbox + Send + Drop,
    G: Gate + Sync,
    F: FnOnce() + Drop,
>(
    rt: &R,
    alloc: Global,
    jobs: Vec<Job<S, O>>,
    gate: &G,
    side: F,
) -> Result<Vec<Done<S, O>>, RunFault>
    requires side { F.pre side }
    ensures one_done_a_job { IfOk result (λ dones. vec_len dones ≡ vec_len jobs) }
    ensures done_by_batches { IfOk result (λ dones. AreDone S.Source O.Outbox jobs.items dones.items) }
    ensures gate_called { IfOk result (λ dones. AreGatedDone S.Source O.Outbox (G.called gate.now) (vec_len jobs) 1 jobs.items dones.items) }
    ensures side_was_run { IfOk result (λ dones. F.post side tt) }
    ensures spawn_failed { result ≡ Err SpawnFailed → 0 < vec_len jobs }
{
    thread::scope(
        thread::scope_env(),
        rt,
        move |scope| -> Result<Vec<Done<S, O>>, RunFault>
            requires { F.pre side }
            ensures one_done_a_job { IfOk result (λ dones. vec_len dones ≡ vec_len jobs) }
            ensures done { IfOk result (λ dones. AreDone S.Source O.Outbox jobs.items dones.items) }
            ensures gate_called { IfOk result (λ dones. AreGatedDone S.Source O.Outbox (G.called gate.entry.now) (vec_len jobs) 1 jobs.items dones.items) }
            ensures side_was_run { IfOk result (λ dones. F.post side tt) }
            ensures spawn_failed { result ≡ Err SpawnFailed → 0 < vec_len jobs }
        { run_in(rt, scope, alloc, jobs, gate, side) },
    )
}
