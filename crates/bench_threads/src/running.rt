//! The program's run: the sections that its words ask for, and the line that reports them.

ghost use Rattle.std.specs.Prelude.{◌≡◌, ◌<◌, ◌≤◌, IfOk, OnOk, is_some, map, string_bytes};
ghost use Rattle.versions.specs.declared.layout.TheConstants.{WORKERS};
ghost use Rattle.bench_threads.specs.Request.{IsRequest};
ghost use Rattle.bench_threads.specs.Running.{IsCarriedOut, Tells};
ghost use Rattle.bench_threads.specs.declared.request.Request.{Request};

use crate::fault::{Fault, Status, refuse_words};
use crate::jobs::open_jobs;
use crate::line::write_line;
use crate::request::{Request, read_request};
use crate::threads::run_jobs;
use std::alloc::Global;
use std::io::Write;
use std::thread::Threads;
use std::time::{Clock, Instant};

fn nanoseconds_since<R: Clock>(rt: &R, start: Instant) -> Result<u64, Fault> {
    let time = start.elapsed(rt).map_err(|_| Fault::ClockFailed)?;
    u64::try_from(time.as_nanos()).map_err(|_| Fault::ClockFailed)
}

// Opens a table, runs the threads and, if that is asked for, returns the time from before the first is started until
// after the last has ended.
fn carry_out<R: Threads + Clock>(
    rt: &R,
    alloc: Global,
    request: &Request,
) -> Result<Option<u64>, Fault>
    requires some { 0 < request.now.threads }
    requires at_most { request.now.threads ≤ WORKERS }
    ensures carried_out { IfOk result (λ _. IsCarriedOut request.now) }
    ensures timed { IfOk result (λ time. is_some time ≡ request.now.is_timed) }
{
    let jobs = open_jobs(alloc, request.threads, request.rounds, request.placing)?;
    if !request.is_timed {
        run_jobs(rt, alloc, jobs)?;
        return Ok(None);
    }
    let start = Instant::now(rt).map_err(|_| Fault::ClockFailed)?;
    run_jobs(rt, alloc, jobs)?;
    Ok(Some(nanoseconds_since(rt, start)?))
}

fn run_request<R: Threads + Clock, W: Write>(
    rt: &R,
    alloc: Global,
    request: &Request,
    out: &mut W,
) -> Result<(), Fault>
    requires some { 0 < request.now.threads }
    requires at_most { request.now.threads ≤ WORKERS }
    ensures { OnOk result (Tells request.now (W.contents out.old) (W.contents out.new)) }
{
    let nanoseconds = carry_out(rt, alloc, request)?;
    write_line(request, nanoseconds, out)
}

/// Does what the words ask for, and returns the exit status.
pub fn run<R: Threads + Clock, W: Write, E: Write>(
    rt: &R,
    alloc: Global,
    words: &[String],
    out: &mut W,
    errs: &mut E,
) -> Status
    ensures done { result ≡ Status.Done
        → (request : Request) × IsRequest (map string_bytes words.now) request × Tells request (W.contents out.old) (W.contents out.new) }
    ensures misused { result ≡ Status.Misused → (request : Request) → IsRequest (map string_bytes words.now) request → ⊥ }
    ensures refused { ((request : Request) → IsRequest (map string_bytes words.now) request → ⊥) → result ≡ Status.Misused }
    ensures no_errors { result ≡ Status.Done → errs.new ≡ errs.old }
    ensures nothing_written { result ≡ Status.Misused → out.new ≡ out.old }
{
    let Some(request) = read_request(words) else {
        return refuse_words(errs);
    };
    match run_request(rt, alloc, &request, out) {
        Ok(()) => Status::Done,
        Err(fault) => fault.report(errs),
    }
}
