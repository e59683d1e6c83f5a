//! The threads: one for each job. All of them are waited for.

ghost use Rattle.std.specs.Prelude.{◌≡◌, ◌≤◌, IfOk, [], map, true, vec_capacity, vec_len};
ghost use Rattle.bench_threads.specs.Made.{AreMade};
ghost use Rattle.bench_threads.specs.Sections.{AreSections};

use crate::fault::Fault;
use crate::sections::make_sections;
use read_section::Worker;
use std::alloc::Global;
use std::snapshot::Snapshot;
use std::thread;
use std::thread::{Promise, PromisedHandle, Threads};

/// The data that a thread starts with: its worker, and the number of sections that this is to make.
#[derive(Drop)]
pub struct Job {
    pub worker: Worker,
    pub rounds: u32,
}

fn finish(job: Job) -> Worker
    ensures { AreSections job.rounds job.worker result }
{
    let Job { mut worker, rounds } = job;
    make_sections(&mut worker, rounds);
    worker
}

// A job as it is before its thread is started. It promises that the worker that the thread returns has made its
// sections.
#[derive(Drop)]
struct Finishes(Snapshot<Job>);

impl Promise<Worker> for Finishes {
    ghost kept_by = { λ promise worker. AreSections promise.0.value.rounds promise.0.value.worker worker };
}

// Starts a thread for each job, in their order. False if one could not be started; those before it run.
fn start_each<R: Threads>(
    rt: &R,
    jobs: Vec<Job>,
    handles: &mut Vec<PromisedHandle<Worker, Finishes>>,
) -> bool
    requires empty { handles.old.items ≡ [] }
    requires room { vec_len jobs ≤ vec_capacity handles.old }
    ensures started { result ≡ true → map (λ h. h.promise.0.value) handles.new.items ≡ jobs.items }
    ensures no_more { vec_len handles.new ≤ vec_len jobs }
{
    for job in jobs {
        match thread::spawn_with(rt, Finishes(Snapshot::of(&job)), move || finish(job)) {
            Ok(handle) => {
                let Ok(()) = handles.push(handle) else {
                    unreachable!()
                };
            }
            Err(_) => return false,
        }
    }
    true
}

// Waits for each thread, and returns their workers in order.
fn join_each<R: Threads>(
    rt: &R,
    handles: Vec<PromisedHandle<Worker, Finishes>>,
    workers: &mut Vec<Worker>,
)
    requires empty { workers.old.items ≡ [] }
    requires room { vec_len handles ≤ vec_capacity workers.old }
    ensures made { AreMade (map (λ h. h.promise.0.value) handles.items) workers.new.items }
{
    for handle in handles {
        let Ok(()) = workers.push(handle.join(rt)) else {
            unreachable!()
        };
    }
}

/// Runs each job in a thread of its own, and returns the workers, in the order of the jobs, once all threads have
/// ended.
///
/// The memory of handles and workers is taken before a thread is started. If one cannot be started, those before it are
/// waited for.
pub fn run_jobs<R: Threads>(rt: &R, alloc: Global, jobs: Vec<Job>) -> Result<Vec<Worker>, Fault>
    ensures made { IfOk result (λ workers. AreMade jobs.items workers.items) }
{
    let mut handles = Vec::with_capacity(alloc, jobs.len())?;
    let mut workers = Vec::with_capacity(alloc, jobs.len())?;
    let all_started = start_each(rt, jobs, &mut handles);
    join_each(rt, handles, &mut workers);
    if all_started {
        Ok(workers)
    } else {
        Err(Fault::SpawnFailed)
    }
}
