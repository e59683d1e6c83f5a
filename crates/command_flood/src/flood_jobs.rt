//! The jobs of `flood`: a worker, a counter and its share of the datagrams each (docs/COMMANDS.md, "flood").

ghost use Rattle.std.specs.Prelude.{◌≡◌, ◌+◌, ◌<◌, ◌≤◌, IfOk, OnOk, length, map, vec_len};
ghost use Rattle.std.specs.List.{All};
ghost use Rattle.atomic_table.specs.Seated.{TableId};
ghost use Rattle.dispatch.specs.Memory.{outbox_of};
ghost use Rattle.dispatch.specs.Counted.{IsNew, IsNewWorker};
ghost use Rattle.command_flood.specs.Flood.{AreStarts, HasRoom, empty_outbox, parts_of};
ghost use Rattle.command_flood.specs.FloodVersions.{opening_version};
ghost use Rattle.command_flood.specs.Traffic.{share_of};

use crate::traffic::share;
use command_line::SAMPLE_PACKET;
use dispatch::{Counter, Datagrams, Job, Sends};
use read_section::Worker;
use std::alloc::{AllocError, Global};

// No datagram is longer.
const BUFFER: usize = 64;

// How many datagrams a batch judges at most.
const LIMIT: u64 = 64;

// The job of worker `place` of so many.
fn job(
    alloc: Global,
    worker: Worker,
    counter: Counter,
    place: usize,
    workers: usize,
    datagrams: usize,
) -> Result<Job<Datagrams, Sends>, AllocError>
    requires { 0 < workers }
    ensures worker { IfOk result (λ job. job.worker ≡ worker) }
    ensures counter { IfOk result (λ job. job.counter ≡ counter) }
    ensures share { IfOk result (λ job. job.source ≡ share_of place workers datagrams) }
    ensures empty { IfOk result (λ job. outbox_of job.outbox ≡ empty_outbox) }
    ensures room { IfOk result (λ job. HasRoom (length job.buffer.items) job.limit) }
{
    let (source, count) = share(alloc, place, workers, datagrams)?;
    Ok(Job {
        worker,
        counter,
        source,
        outbox: Sends::with_room(alloc, count, count.saturating_mul(SAMPLE_PACKET.len()))?,
        buffer: vec![in alloc; 0; BUFFER]?,
        limit: LIMIT,
    })
}

/// Takes a worker and a counter for each job.
pub fn jobs(
    alloc: Global,
    seats: &mut Vec<Worker>,
    counters: &mut Vec<Counter>,
    workers: usize,
    datagrams: usize,
) -> Result<Vec<Job<Datagrams, Sends>>, AllocError>
    requires some { 0 < workers }
    requires seats { workers ≤ vec_len seats.old }
    requires counters { workers ≤ vec_len counters.old }
    ensures one_a_worker { IfOk result (λ jobs. vec_len jobs ≡ workers) }
    ensures starts { IfOk result (λ jobs. AreStarts workers datagrams (map (λ job. parts_of job.worker job.counter job.source job.outbox) jobs.items)) }
    ensures counters { (table : TableId) → All (IsNew table) counters.old.items
        → IfOk result (λ jobs. All (λ job. IsNew table job.counter) jobs.items) }
    ensures workers { (versions : TableId) → All (IsNewWorker opening_version versions) seats.old.items
        → IfOk result (λ jobs. All (λ job. IsNewWorker opening_version versions job.worker) jobs.items) }
    ensures buffers { IfOk result (λ jobs. All (λ job. HasRoom (length job.buffer.items) job.limit) jobs.items) }
    ensures left { OnOk result (vec_len counters.new + workers ≡ vec_len counters.old) }
    ensures new { (table : TableId) → All (IsNew table) counters.old.items → OnOk result (All (IsNew table) counters.new.items) }
{
    let mut jobs = Vec::with_capacity(alloc, workers)?;
    for place in 0..workers {
        let (Some(worker), Some(counter)) = (seats.pop(), counters.pop()) else {
            unreachable!()
        };
        jobs.push(job(alloc, worker, counter, place, workers, datagrams)?)?;
    }
    Ok(jobs)
}
