//! The jobs: a worker of one table for each thread, as the placing says.

ghost use Rattle.std.specs.Prelude.{◌≡◌, ◌<◌, ◌≤◌, IfOk, length, vec_len};
ghost use Rattle.versions.specs.declared.layout.TheConstants.{WORKERS};
ghost use Rattle.bench_threads.specs.Jobs.{AreJobs, AreTaken};

use crate::placing::Placing;
use crate::threads::Job;
use member_group::Config;
use read_section::{WORKERS, Worker, open_within};
use std::alloc::{AllocError, Global};

// Takes the workers of the jobs out of the table's, that of the highest number first.
fn take_jobs(
    alloc: Global,
    workers: &mut Vec<Worker>,
    threads: usize,
    rounds: u32,
    placing: Placing,
) -> Result<Vec<Job>, AllocError>
    requires some { 0 < threads }
    requires at_most { threads ≤ WORKERS }
    requires workers { vec_len workers.old ≡ WORKERS }
    ensures count { IfOk result (λ jobs. length jobs.items ≡ threads) }
    ensures taken { IfOk result (λ jobs. AreTaken placing threads rounds workers.old.items threads jobs.items) }
{
    let distance = placing.distance(threads);
    let mut above = placing.above(threads);
    let mut jobs = Vec::with_capacity(alloc, threads)?;
    for _thread in 0..threads {
        let worker = workers.remove(above - 1);
        jobs.push(Job { worker, rounds })?;
        above -= distance;
    }
    Ok(jobs)
}

/// Opens a table without groups, and makes a job of `rounds` rounds for each thread.
pub fn open_jobs(
    alloc: Global,
    threads: usize,
    rounds: u32,
    placing: Placing,
) -> Result<Vec<Job>, AllocError>
    requires some { 0 < threads }
    requires at_most { threads ≤ WORKERS }
    ensures { IfOk result (λ jobs. AreJobs placing threads rounds jobs.items) }
{
    let (_operator, mut workers) = open_within(Config::new(alloc))?;
    take_jobs(alloc, &mut workers, threads, rounds, placing)
}
