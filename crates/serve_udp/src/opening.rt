//! The service before it receives: its jobs are made.

ghost use Rattle.std.specs.Prelude.{◌≡◌, ◌≢◌, ◌≤◌, IfErr, IfOk, List, Ok, length, vec_len};
ghost use Rattle.std.specs.List.{All};
ghost use Rattle.member_group.specs.Charge.{charge_of};
ghost use Rattle.versions.specs.declared.layout.TheConstants.{CHARGE_LIMIT, WORKERS};
ghost use Rattle.config_image.specs.Image.{Group};
ghost use Rattle.dispatch.specs.Counted.{IsNewWorker};
ghost use Rattle.dispatch.specs.Tally.{AreOpenedCounters};
ghost use Rattle.serve_udp.specs.Service.{IsServeFailure};
ghost use Rattle.serve_udp.specs.body.Jobs.{AreMade, AreOpened, HaveNewWorkers};

use crate::bound::BoundControl;
use crate::intake::{Intake, Receiving};
use crate::jobs::{ServiceJob, jobs};
use crate::receiving::Receiver;
use crate::sockets::{Room, Sockets};
use command_line::Failure;
use dispatch::{Counter, Tally};
use ipv4_fields::Endpoint;
use member_group::Config;
use read_section::{Operator, WORKERS, Worker, open_within, spread};
use serve_devices::{Ingress, SharedCounts};
use std::alloc::{AllocError, Global};
use std::net::{Net, UdpSocket};
use std::sync::Wait;

/// The parts of the service besides its jobs.
#[derive(Drop)]
pub struct Service<'a> {
    pub tally: Tally,
    /// The counters that no job has.
    pub spare: Vec<Counter>,
    pub receiver: Receiver<'a>,
}

/// The address of the front, control, and a socket for each worker to send by.
#[derive(Drop)]
pub struct ServiceSockets {
    pub address: Endpoint,
    pub control: BoundControl,
    pub outlets: Vec<UdpSocket>,
}

// A table with the configuration as version 0, and its workers in the order in which they are to be taken, from the last on.
fn open_table(config: Config) -> Result<(Operator, Vec<Worker>), AllocError>
    requires within { charge_of config ≤ CHARGE_LIMIT }
    ensures workers { IfOk result (λ opened. vec_len opened.1 ≡ WORKERS) }
    ensures opening { IfOk result (λ opened. All (IsNewWorker config opened.0.table) opened.1.items) }
{
    let (operator, mut workers) = open_within(config)?;
    spread(&mut workers);
    Ok((operator, workers))
}

// Waits for the front, unless the workers receive for themselves, and for control from now on.
fn open_sockets<'a, N: Net>(
    net: &N,
    alloc: Global,
    receiving: Receiving<'a>,
    address: Endpoint,
    control: BoundControl,
) -> Result<Sockets<'a>, Failure>
    ensures no_input { IfErr result IsServeFailure }
    ensures no_output { IfErr result (λ failure. failure ≢ Failure.WriteFailed) }
    ensures bound { IfErr result (λ failure. failure ≢ Failure.BindFailed) }
{
    let Ok(room) = Room::new(alloc) else {
        return Err(Failure::OutOfMemory);
    };
    match Sockets::open(net, alloc, receiving, (address, control), room) {
        Ok(sockets) => Ok(sockets),
        Err(_) => Err(Failure::PollFailed),
    }
}

// The ends of the table and of the tally: places and counters for all workers.
#[derive(Drop)]
struct Ends {
    operator: Operator,
    seats: Vec<Worker>,
    tally: Tally,
    counters: Vec<Counter>,
}

fn open_ends(config: Config) -> Result<Ends, Failure>
    requires within { charge_of config ≤ CHARGE_LIMIT }
    ensures workers { IfOk result (λ ends. vec_len ends.seats ≡ WORKERS) }
    ensures opening { IfOk result (λ ends. All (IsNewWorker config ends.operator.table) ends.seats.items) }
    ensures counters { IfOk result (λ ends. AreOpenedCounters ends.tally.table ends.counters.items) }
    ensures no_input { IfErr result IsServeFailure }
    ensures no_output { IfErr result (λ failure. failure ≢ Failure.WriteFailed) }
{
    let alloc = *config.allocator();
    let Ok((operator, seats)) = open_table(config) else {
        return Err(Failure::OutOfMemory);
    };
    let Ok((tally, counters)) = Tally::open(alloc) else {
        return Err(Failure::OutOfMemory);
    };
    Ok(Ends {
        operator,
        seats,
        tally,
        counters,
    })
}

// The jobs and the sockets, if both were made. They come untested, so that the caller may own much and fail at one place.
fn both<'a, I: Ingress + Drop, R: Wait + Net>(
    jobs: Result<Vec<ServiceJob<'a, I, R>>, Failure>,
    sockets: Result<Sockets<'a>, Failure>,
) -> Result<(Vec<ServiceJob<'a, I, R>>, Sockets<'a>), Failure>
    ensures jobs { IfOk result (λ both. jobs.entry ≡ Ok both.0) }
    ensures no_input { IfErr jobs.entry IsServeFailure → IfErr sockets.entry IsServeFailure → IfErr result IsServeFailure }
    ensures no_output { IfErr jobs.entry (λ failure. failure ≢ Failure.WriteFailed) → IfErr sockets.entry (λ failure. failure ≢ Failure.WriteFailed)
        → IfErr result (λ failure. failure ≢ Failure.WriteFailed) }
{
    let jobs = jobs?;
    Ok((jobs, sockets?))
}

// The same as `open_service`, over the ends of the table and of the tally.
fn open_over<'a, I: Ingress + Drop, R: Wait + Net>(
    rt: &'a R,
    alloc: Global,
    counts: &'a SharedCounts,
    ends: Ends,
    intake: Intake<'a, I>,
    sockets: ServiceSockets,
    workers: usize,
) -> Result<(Vec<ServiceJob<'a, I, R>>, Service<'a>), Failure>
    requires places { vec_len ends.seats ≡ WORKERS }
    requires counters { AreOpenedCounters ends.tally.table ends.counters.items }
    requires at_most { workers ≤ WORKERS }
    requires sources { length intake.sources.items ≡ workers }
    requires outlets { workers ≤ vec_len sockets.outlets }
    ensures one_a_worker { IfOk result (λ opened. vec_len opened.0 ≡ workers) }
    ensures new_workers { (opening : List Group) → All (IsNewWorker opening ends.operator.table) ends.seats.items
        → IfOk result (λ opened. HaveNewWorkers opening opened.1.receiver.operator.table opened.0.items) }
    ensures opened { IfOk result (λ opened. AreOpened opened.1.tally.table opened.1.spare.items intake.entry.sources.items opened.0.items) }
    ensures no_input { IfErr result IsServeFailure }
    ensures no_output { IfErr result (λ failure. failure ≢ Failure.WriteFailed) }
{
    let Intake { sources, receiving } = intake;
    let ServiceSockets {
        address,
        control,
        outlets,
    } = sockets;
    let Ends {
        operator,
        mut seats,
        tally,
        counters: mut spare,
    } = ends;
    let stopped = receiving.stop.stopped;
    let jobs = jobs(
        rt, alloc, counts, stopped, &mut seats, &mut spare, sources, outlets, workers,
    );
    let sockets = open_sockets(rt, alloc, receiving, address, control);
    let (jobs, sockets) = both(jobs, sockets)?;
    let receiver = Receiver { sockets, operator };
    Ok((
        jobs,
        Service {
            tally,
            spare,
            receiver,
        },
    ))
}

/// Makes `workers` jobs, and all that they and receiving need. The jobs have new workers of the operator's table, which
/// opens with the configuration, and new counters of the tally. They count by member in the shared table.
pub fn open_service<'a, I: Ingress + Drop, R: Wait + Net>(
    rt: &'a R,
    counts: &'a SharedCounts,
    config: Config,
    intake: Intake<'a, I>,
    sockets: ServiceSockets,
    workers: usize,
) -> Result<(Vec<ServiceJob<'a, I, R>>, Service<'a>), Failure>
    requires within { charge_of config ≤ CHARGE_LIMIT }
    requires at_most { workers ≤ WORKERS }
    requires sources { length intake.sources.items ≡ workers }
    requires outlets { workers ≤ vec_len sockets.outlets }
    ensures one_a_worker { IfOk result (λ opened. vec_len opened.0 ≡ workers) }
    ensures new_workers { IfOk result (λ opened. HaveNewWorkers config opened.1.receiver.operator.table opened.0.items) }
    ensures opened { IfOk result (λ opened. AreOpened opened.1.tally.table opened.1.spare.items intake.entry.sources.items opened.0.items) }
    ensures no_input { IfErr result IsServeFailure }
    ensures no_output { IfErr result (λ failure. failure ≢ Failure.WriteFailed) }
{
    let alloc = *config.allocator();
    let ends = open_ends(config)?;
    open_over(rt, alloc, counts, ends, intake, sockets, workers)
}
