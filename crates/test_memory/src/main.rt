//! The calls that open a table and a tally, and the one that runs workers, each repeated until no memory is refused to it.
//!
//! `examples/memory/run` refuses one request for memory after another. The program prints a line for each call: what it returned in
//! the end, and how often it was refused before. It gives up after `TRIES` times.
#![tactic(auto)]

use dispatch::{Counter, Datagrams, Done, Job, OpenGate, RunFault, Sends, Tally, run_workers};
use member_group::Config;
use read_section::{OpenFault, Worker, open};
use std::alloc::{AllocError, Global};
use std::io;
use std::io::Write;
use std::sync::Wait;
use std::thread::Threads;

const TRIES: u32 = 16;

// The result of a call.
#[derive(Clone, Copy)]
enum Outcome {
    Returned(usize),
    NoArguments,
    NoMemory,
    NoThread,
}

// The refusals of a call: for lack of memory, while its arguments were made, and for lack of a thread.
#[derive(Clone, Copy)]
struct Refusals {
    memory: u32,
    arguments: u32,
    threads: u32,
}

fn workers_of(alloc: Global) -> Result<Vec<Worker>, OpenFault> {
    let (_operator, workers) = open(Config::new(alloc))?;
    Ok(workers)
}

fn counters_of(alloc: Global) -> Result<Vec<Counter>, AllocError> {
    let (_tally, counters) = Tally::open(alloc)?;
    Ok(counters)
}

fn open_outcome(alloc: Global) -> Outcome {
    match workers_of(alloc) {
        Ok(workers) => Outcome::Returned(workers.len()),
        Err(OpenFault::OutOfMemory) => Outcome::NoMemory,
        Err(OpenFault::TooBig) => Outcome::Returned(0),
    }
}

fn tally_outcome(alloc: Global) -> Outcome {
    match counters_of(alloc) {
        Ok(counters) => Outcome::Returned(counters.len()),
        Err(_) => Outcome::NoMemory,
    }
}

fn job_of(
    alloc: Global,
    worker: Worker,
    counter: Counter,
) -> Result<Job<Datagrams, Sends>, AllocError> {
    Ok(Job {
        worker,
        counter,
        source: Datagrams::new(alloc),
        outbox: Sends::with_room(alloc, 0, 0)?,
        buffer: Vec::new(alloc),
        limit: 1,
    })
}

// A job without datagrams for each worker.
fn jobs_of(
    alloc: Global,
    workers: Vec<Worker>,
    counters: Vec<Counter>,
) -> Result<Vec<Job<Datagrams, Sends>>, AllocError> {
    let mut jobs = Vec::new(alloc);
    for (worker, counter) in workers.into_iter().zip(counters) {
        jobs.push(job_of(alloc, worker, counter)?)?;
    }
    Ok(jobs)
}

// Two jobs without datagrams.
fn two_jobs(alloc: Global) -> Option<Vec<Job<Datagrams, Sends>>> {
    let mut workers = workers_of(alloc).ok()?;
    workers.truncate(2);
    let counters = counters_of(alloc).ok()?;
    jobs_of(alloc, workers, counters).ok()
}

fn outcome_of(ran: Result<Vec<Done<Datagrams, Sends>>, RunFault>) -> Outcome {
    match ran {
        Ok(dones) => Outcome::Returned(dones.len()),
        Err(RunFault::OutOfMemory) => Outcome::NoMemory,
        Err(RunFault::SpawnFailed) => Outcome::NoThread,
    }
}

fn run_outcome<R: Threads + Wait + Sync>(rt: &R, alloc: Global) -> Outcome {
    match two_jobs(alloc) {
        Some(jobs) => outcome_of(run_workers(rt, alloc, jobs, &OpenGate, || {})),
        None => Outcome::NoArguments,
    }
}

// Adds a refusal. Returns what the call returned, if it was not refused.
fn count(outcome: Outcome, refusals: &mut Refusals) -> Option<usize> {
    let refused = match outcome {
        Outcome::Returned(count) => return Some(count),
        Outcome::NoArguments => &mut refusals.arguments,
        Outcome::NoMemory => &mut refusals.memory,
        Outcome::NoThread => &mut refusals.threads,
    };
    *refused = refused.saturating_add(1);
    None
}

// Makes a call until it is not refused, and prints its line.
fn write_outcome<W: Write, F: FnMut() -> Outcome>(
    out: &mut W,
    name: &str,
    mut call: F,
) -> io::Result<()>
    requires { F.IsAlwaysCallable call }
{
    let mut refusals = Refusals {
        memory: 0,
        arguments: 0,
        threads: 0,
    };
    for _ in 0..TRIES {
        if let Some(given) = count(call(), &mut refusals) {
            let Refusals {
                memory,
                arguments,
                threads,
            } = refusals;
            return writeln!(
                out,
                "{name}: {given}; refused: {memory} memory, {arguments} arguments, {threads} threads"
            );
        }
    }
    writeln!(out, "{name}: refused each time")
}

fn main(rt: HostRuntime) -> io::Result<()> {
    let mut out = rt.stdout();
    write_outcome(&mut out, "open", || open_outcome(rt.alloc()))?;
    write_outcome(&mut out, "Tally::open", || tally_outcome(rt.alloc()))?;
    write_outcome(&mut out, "run_workers", || run_outcome(&rt, rt.alloc()))
}
