//! Jobs by value, as a worker's thread takes and returns them (docs/SWITCH.md, "Workers").

ghost use Rattle.std.specs.Prelude.{◌≡◌, ◌≤◌, length};
ghost use Rattle.bpf_machine.specs.declared.TheConstants.{MAX_PACKET};
ghost use Rattle.dispatch.specs.Job.{IsGatedJob, IsJob};

use crate::device::{Outbox, Source};
use crate::job::{Gate, run_job};
use crate::tally::Counter;
use read_section::Worker;
use std::sync::Wait;

/// The start of a worker's thread: its parts, the buffer that datagrams are received into, and how many datagrams a batch judges at
/// most.
#[derive(Drop)]
pub struct Job<S: Source, O: Outbox> {
    pub worker: Worker,
    pub counter: Counter,
    pub source: S,
    pub outbox: O,
    pub buffer: Vec<u8>,
    pub limit: u64,
    pub ghost fits: { length buffer.items ≤ MAX_PACKET },
    pub ghost at_least_one: { 1 ≤ limit },
}

/// The parts of a job that was run to its end.
#[derive(Drop)]
pub struct Done<S: Source, O: Outbox> {
    pub worker: Worker,
    pub counter: Counter,
    pub source: S,
    pub outbox: O,
    pub buffer: Vec<u8>,
}

/// Runs a job to its end, as `run_job` does, and returns its parts.
pub fn finish<R: Wait, S: Source, O: Outbox, G: Gate>(
    rt: &R,
    gate: &G,
    numbers: (u64, u64),
    job: Job<S, O>,
) -> Done<S, O>
    ensures done_by_batches { IsJob (length job.buffer.items) job.limit
        (record { worker = job.worker; counter = job.counter; source = S.state job.source; outbox = O.state job.outbox })
        (record { worker = result.worker; counter = result.counter; source = S.state result.source; outbox = O.state result.outbox }) }
    ensures gate_called { IsGatedJob (G.called gate.now) (length job.buffer.items) job.limit numbers.1 numbers.0
        (record { worker = job.worker; counter = job.counter; source = S.state job.source; outbox = O.state job.outbox })
        (record { worker = result.worker; counter = result.counter; source = S.state result.source; outbox = O.state result.outbox }) }
    ensures same_room { length result.buffer.items ≡ length job.buffer.items }
{
    let Job {
        mut worker,
        mut counter,
        mut source,
        mut outbox,
        mut buffer,
        limit,
    } = job;
    run_job(
        rt,
        gate,
        numbers,
        &mut worker,
        &mut counter,
        &mut source,
        &mut outbox,
        &mut buffer,
        limit,
    );
    Done {
        worker,
        counter,
        source,
        outbox,
        buffer,
    }
}
