//! The command `flood`: datagrams over worker threads, while versions are replaced (docs/COMMANDS.md, "flood").

ghost use Rattle.std.specs.Prelude.{◌≡◌, ◌≢◌, ◌↔◌, ◌≤◌, IfErr, IfOk, OnOk, map, vec_len};
ghost use Rattle.std.specs.List.{All};
ghost use Rattle.versions.specs.declared.layout.TheConstants.{WORKERS};
ghost use Rattle.dispatch.specs.Counted.{IsNewWorker};
ghost use Rattle.command_streams.specs.Failures.{OutputFails};
ghost use Rattle.command_flood.specs.Failing.{IsRunFailure};
ghost use Rattle.command_flood.specs.Flood.{BeginsFlood, IsFlooded, WritesFlood};
ghost use Rattle.command_flood.specs.FloodVersions.{opening_version, successor_at};
ghost use Rattle.command_flood.specs.Publications.{AreTried};
ghost use Rattle.command_flood.specs.Traffic.{numbers_below};
ghost use Rattle.command_flood.specs.body.Jobs.{AreTotalsOf, HaveNewCounters};
ghost use Rattle.command_flood.specs.declared.flood_versions.TheConstants.{PUBLICATIONS};

use crate::flood_jobs::jobs;
use crate::flood_versions::{opening, successors};
use command_line::Failure;
use command_streams::{CountedWrite, CountedWriter};
use command_totals::write_totals;
use dispatch::{
    Counter, Datagrams, Gate, Job, RunFault, Sends, Tally, Totals, gather, run_counted,
};
use member_group::Config;
use read_section::{Operator, WORKERS, Worker, open_within, spread};
use retire::Retire;
use std::alloc::{AllocError, Global};
use std::io::Write;
use std::sync::Wait;
use std::thread::Threads;

// The table at its opening version, and the versions that follow.
fn open_versions(alloc: Global) -> Result<(Operator, Vec<Worker>, Vec<Config>), AllocError>
    ensures workers { IfOk result (λ opened. vec_len opened.1 ≡ WORKERS) }
    ensures opening { IfOk result (λ opened. All (IsNewWorker opening_version opened.0.table) opened.1.items) }
    ensures successors { IfOk result (λ opened. opened.2.items ≡ map successor_at (numbers_below PUBLICATIONS)) }
{
    let opening = opening(alloc)?;
    let successors = successors(alloc, &opening)?;
    let (operator, workers) = open_within(opening)?;
    Ok((operator, workers, successors))
}

// Tries to publish each. If no row is free, goes on with the next one.
fn publish_each(operator: &mut Operator, successors: Vec<Config>)
    ensures tried { AreTried successors.items operator.old operator.new }
{
    for successor in successors {
        let _ = operator.publish(successor);
    }
}

fn failed(fault: RunFault) -> Failure
    ensures spawn_failed { result ≡ Failure.SpawnFailed ↔ fault ≡ RunFault.SpawnFailed }
    ensures run_fault { IsRunFailure result }
{
    match fault {
        RunFault::SpawnFailed => Failure::SpawnFailed,
        RunFault::OutOfMemory => Failure::OutOfMemory,
    }
}

// Runs the jobs, and tries the publications beside them. Then sums up what the jobs counted.
fn count_jobs<R: Threads + Wait + Sync, G: Gate + Sync>(
    rt: &R,
    alloc: Global,
    jobs: Vec<Job<Datagrams, Sends>>,
    counters: (Tally, Vec<Counter>),
    updates: (Operator, Vec<Config>),
    gate: &G,
) -> Result<Totals, Failure>
    requires counters { HaveNewCounters counters.0.table counters.1.items jobs.items }
    ensures totals { IfOk result (AreTotalsOf jobs.items) }
    ensures run_fault { IfErr result IsRunFailure }
{
    let (tally, spare) = counters;
    let (mut operator, successors) = updates;
    match run_counted(rt, alloc, jobs, spare, gate, move || {
        publish_each(&mut operator, successors);
    }) {
        Ok(counters) => Ok(gather(tally, counters)),
        Err(fault) => Err(failed(fault)),
    }
}

fn count_all<R: Threads + Wait + Sync, G: Gate + Sync>(
    rt: &R,
    alloc: Global,
    workers: usize,
    datagrams: usize,
    gate: &G,
) -> Result<Totals, Failure>
    requires at_least_one { 1 ≤ workers }
    requires at_most { workers ≤ WORKERS }
    ensures totals { IfOk result (IsFlooded workers datagrams) }
    ensures run_fault { IfErr result IsRunFailure }
{
    let (operator, mut seats, successors) = open_versions(alloc)?;
    let (tally, mut spare) = Tally::open(alloc)?;
    spread(&mut seats);
    let jobs = jobs(alloc, &mut seats, &mut spare, workers, datagrams)?;
    count_jobs(
        rt,
        alloc,
        jobs,
        (tally, spare),
        (operator, successors),
        gate,
    )
}

/// Judges the datagrams, as `flood` does, and writes the totals to an output whose failures are counted.
pub fn flood_over<R: Threads + Wait + Sync, G: Gate + Sync, W: CountedWrite>(
    rt: &R,
    alloc: Global,
    workers: usize,
    datagrams: usize,
    gate: &G,
    out: &mut W,
) -> Result<(), Failure>
    requires at_least_one { 1 ≤ workers }
    requires at_most { workers ≤ WORKERS }
    ensures totals_line { OnOk result (WritesFlood workers datagrams (W.contents out.old) (W.contents out.new)) }
    ensures nothing_written { IfErr result (λ failure. failure ≢ Failure.WriteFailed → out.new ≡ out.old) }
    ensures begun { IfErr result (λ failure. failure ≡ Failure.WriteFailed → BeginsFlood workers datagrams (W.contents out.old) (W.contents out.new)) }
    ensures no_input { IfErr result (λ failure. (failure ≢ Failure.ReadFailed) × (failure ≢ Failure.NoAnswer) × (failure ≢ Failure.RulesChanged)) }
    ensures no_socket { IfErr result (λ failure. (failure ≢ Failure.BindFailed) × (failure ≢ Failure.PollFailed)) }
    ensures device_failed { OutputFails result (W.failures out.old) (W.failures out.new) }
{
    let totals = count_all(rt, alloc, workers, datagrams, gate)?;
    write_totals(&totals, out)
}

/// Judges `datagrams` datagrams in the threads of `workers` workers, while the caller's thread tries to publish 64 versions. Then writes
/// the line of the totals. Datagram `i` goes to worker `i mod workers`.
///
/// Takes all memory but that of the threads before it starts one. May wait, as `run_workers` does.
pub fn flood<R: Threads + Wait + Sync, G: Gate + Sync, W: Write>(
    rt: &R,
    alloc: Global,
    workers: usize,
    datagrams: usize,
    gate: &G,
    out: &mut W,
) -> Result<(), Failure>
    requires at_least_one { 1 ≤ workers }
    requires at_most { workers ≤ WORKERS }
    ensures totals_line { OnOk result (WritesFlood workers datagrams (W.contents out.old) (W.contents out.new)) }
    ensures nothing_written { IfErr result (λ failure. failure ≢ Failure.WriteFailed → out.new ≡ out.old) }
    ensures begun { IfErr result (λ failure. failure ≡ Failure.WriteFailed → BeginsFlood workers datagrams (W.contents out.old) (W.contents out.new)) }
    ensures no_input { IfErr result (λ failure. (failure ≢ Failure.ReadFailed) × (failure ≢ Failure.NoAnswer) × (failure ≢ Failure.RulesChanged)) }
    ensures no_socket { IfErr result (λ failure. (failure ≢ Failure.BindFailed) × (failure ≢ Failure.PollFailed)) }
{
    let mut results = CountedWriter::new(out);
    let ended = flood_over(rt, alloc, workers, datagrams, gate, &mut results);
    let _ = results.into_inner();
    ended
}
