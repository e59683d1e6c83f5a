//! The jobs of the service: a worker, a counter, a source and a socket of its own each (docs/COMMANDS.md, "serve").

ghost use Rattle.std.specs.Prelude.{◌≡◌, ◌≢◌, ◌+◌, ◌++◌, ◌∷◌, ◌<◌, ◌≤◌, IfErr, IfOk, List, None, [], length, reverse, vec_capacity, vec_len, ℕ};
ghost use Rattle.dispatch.specs.Tally.{CounterValue};
ghost use Rattle.read_section.specs.Worker.{WorkerValue};
ghost use Rattle.serve_devices.specs.Devices.{new_outbox};
ghost use Rattle.serve_udp.specs.Service.{HasRoom, IsServeFailure};
ghost use Rattle.serve_udp.specs.body.Jobs.{AreMade, sources_of};
ghost use Rattle.serve_udp.specs.declared.jobs.TheConstants.{LIMIT};

use crate::sockets::LONGEST_DATAGRAM;
use command_line::Failure;
use dispatch::{Counter, Job};
use read_section::Worker;
use serve_devices::{Ingress, MemberOutbox, SharedCounts, SocketEgress, WorkerSource};
use std::alloc::Global;
use std::net::{Net, UdpSocket};
use std::sync::Wait;
use std::sync::atomic::AtomicBool;

// The most datagrams that a batch judges.
const LIMIT: u64 = 64;

/// A job of the service.
pub type ServiceJob<'a, I, R> = Job<WorkerSource<I>, MemberOutbox<'a, SocketEgress<'a, R>, R>>;

// The parts of a job besides its worker and its counter.
struct Devices<'a, I: Ingress + Drop, R: Wait + Net> {
    source: WorkerSource<I>,
    outbox: MemberOutbox<'a, SocketEgress<'a, R>, R>,
    buffer: Vec<u8>,
}

// The devices of a job that has this source and sends by this socket.
fn open_devices<'a, I: Ingress + Drop, R: Wait + Net>(
    rt: &'a R,
    alloc: Global,
    counts: &'a SharedCounts,
    stopped: &'a AtomicBool,
    source: WorkerSource<I>,
    outlet: UdpSocket,
) -> Result<Devices<'a, I, R>, Failure>
    ensures source { IfOk result (λ devices. devices.source ≡ source) }
    ensures new { IfOk result (λ devices. devices.outbox ≡ new_outbox None) }
    ensures room { IfOk result (λ devices. HasRoom (length devices.buffer.items) LIMIT) }
    ensures no_input { IfErr result IsServeFailure }
    ensures no_output { IfErr result (λ failure. failure ≢ Failure.WriteFailed) }
{
    let Ok(buffer) = vec![in alloc; 0; LONGEST_DATAGRAM] else {
        return Err(Failure::OutOfMemory);
    };
    let Ok(egress) = SocketEgress::new(rt, outlet, stopped) else {
        return Err(Failure::PollFailed);
    };
    let Ok(outbox) = MemberOutbox::new(rt, alloc, egress, counts) else {
        return Err(Failure::OutOfMemory);
    };
    Ok(Devices {
        source,
        outbox,
        buffer,
    })
}

// Makes a job of the devices and the last worker and counter.
fn add_job<'a, I: Ingress + Drop, R: Wait + Net>(
    devices: Devices<'a, I, R>,
    seats: &mut Vec<Worker>,
    counters: &mut Vec<Counter>,
    jobs: &mut Vec<ServiceJob<'a, I, R>>,
)
    requires new { devices.outbox ≡ new_outbox None }
    requires room { HasRoom (length devices.buffer.items) LIMIT }
    requires seat { 0 < vec_len seats.old }
    requires counter { 0 < vec_len counters.old }
    requires place { vec_len jobs.old < vec_capacity jobs.old }
    ensures added { (many : ℕ) (all : List WorkerValue) (all_counters : List CounterValue)
        → AreMade many all seats.old.items all_counters counters.old.items jobs.old.items
        → AreMade (many + 1) all seats.new.items all_counters counters.new.items jobs.new.items }
    ensures source { sources_of jobs.new.items ≡ sources_of jobs.old.items ++ devices.entry.source ∷ [] }
    ensures capacity { vec_capacity jobs.old ≤ vec_capacity jobs.new }
{
    let Some(worker) = seats.pop() else {
        unreachable!()
    };
    let Some(counter) = counters.pop() else {
        unreachable!()
    };
    let Devices {
        source,
        outbox,
        buffer,
    } = devices;
    let job = Job {
        worker,
        counter,
        source,
        outbox,
        buffer,
        limit: LIMIT,
    };
    let Ok(()) = jobs.push(job) else {
        unreachable!()
    };
}

/// Takes a worker, a counter, a source and a socket for each job, from the last ones on, and returns the jobs. All
/// count by member in one table, and no send waits once the flag is set.
pub fn jobs<'a, I: Ingress + Drop, R: Wait + Net>(
    rt: &'a R,
    alloc: Global,
    counts: &'a SharedCounts,
    stopped: &'a AtomicBool,
    seats: &mut Vec<Worker>,
    counters: &mut Vec<Counter>,
    mut sources: Vec<WorkerSource<I>>,
    mut outlets: Vec<UdpSocket>,
    workers: usize,
) -> Result<Vec<ServiceJob<'a, I, R>>, Failure>
    requires seats { workers ≤ vec_len seats.old }
    requires counters { workers ≤ vec_len counters.old }
    requires sources { length sources.items ≡ workers }
    requires outlets { workers ≤ vec_len outlets }
    ensures made { IfOk result (λ jobs. AreMade workers seats.old.items seats.new.items counters.old.items counters.new.items jobs.items) }
    ensures sources { IfOk result (λ jobs. sources_of jobs.items ≡ reverse sources.items) }
    ensures no_input { IfErr result IsServeFailure }
    ensures no_output { IfErr result (λ failure. failure ≢ Failure.WriteFailed) }
{
    let Ok(mut jobs) = Vec::with_capacity(alloc, workers) else {
        return Err(Failure::OutOfMemory);
    };
    for _job in 0..workers {
        let Some(source) = sources.pop() else {
            unreachable!()
        };
        let Some(outlet) = outlets.pop() else {
            unreachable!()
        };
        let devices = open_devices(rt, alloc, counts, stopped, source, outlet)?;
        add_job(devices, seats, counters, &mut jobs);
    }
    Ok(jobs)
}
