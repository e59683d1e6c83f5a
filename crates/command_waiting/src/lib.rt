//! The commands that run worker threads or await replies, so that they may wait (docs/COMMANDS.md, "flood", "serve", "tell",
//! "rules", "load", "drain", "metrics", "top").
//!
//! `run_waiting` runs one: `flood` of command_flood, `serve` of serve_udp, or one of command_operating.
#![tactic(auto)]

ghost use Rattle.std.specs.Prelude.{◌≡◌, ◌⊎◌};
ghost use Rattle.command_line.specs.CommandLine.{waiting_of};
ghost use Rattle.command_operating.specs.Files.{system_files};
ghost use Rattle.command_waiting.specs.Waiting.{EndsInWaitingFailure, ShowsNoRefusal, WritesFor, WritesRefusal};

mod logging;
mod serving;

use command_flood::run_flood;
pub use command_flood::{DATAGRAMS, flood};
use command_line::{Status, Waiting};
use command_operating::{
    Draining, Loading, ReadFiles, SystemFiles, Watching, run_drain, run_load, run_metrics,
    run_rules, run_tell, run_top,
};
use command_streams::{CountedWrite, CountedWriter, FromRead, Input};
use logging::ServeLog;
pub use serve_udp::{serve, serve_direct, serve_with};
use serving::run_serve;
use std::alloc::Global;
use std::fs::Files;
use std::io::{Read, Write};
use std::net::Net;
use std::sync::Wait;
use std::thread::Threads;
use std::time::Clock;

/// Runs a command that may wait, and returns its exit status. `tell` without lines reads its lines from the input. `serve --log`
/// writes the lines of its log to `log`, which is standard error. `top` clears the screen if `terminal` says that results go to
/// one.
pub fn run_waiting<
    R: Threads + Wait + Net + Clock + Files + Sync,
    I: Read + Drop,
    W: Write,
    E: Write,
    L: Write + Drop,
>(
    rt: &R,
    alloc: Global,
    command: Waiting<'_>,
    input: I,
    log: L,
    terminal: bool,
    out: &mut W,
    errs: &mut E,
) -> Status
    ensures done { result ≡ Status.Done → WritesFor system_files terminal (waiting_of command.entry) (I.remaining input) (W.contents out.old) (W.contents out.new)
        (E.contents errs.old) (E.contents errs.new) }
    ensures refused { result ≡ Status.Refused → WritesRefusal system_files (waiting_of command.entry) (I.remaining input) (W.contents out.old) (W.contents out.new)
        (E.contents errs.old) (E.contents errs.new) }
    ensures no_errors { (result ≡ Status.Done) ⊎ ((result ≡ Status.Refused) × ShowsNoRefusal (waiting_of command.entry)) → errs.new ≡ errs.old }
    ensures never_misused { result ≡ Status.Misused → ⊥ }
    ensures failed { result ≡ Status.Failed
        → EndsInWaitingFailure system_files terminal (waiting_of command.entry) (I.remaining input) (W.contents out.old) (W.contents out.new)
        (E.contents errs.old) (E.contents errs.new) }
{
    let mut read = FromRead::new(input);
    let mut files = SystemFiles::new(rt);
    let mut results = CountedWriter::new(out);
    let status = run_over(
        rt,
        alloc,
        command,
        &mut read,
        &mut files,
        log,
        terminal,
        &mut results,
        errs,
    );
    let _ = results.into_inner();
    status
}

// Runs a command that may wait over an input, files and an output whose failures are counted.
fn run_over<
    R: Threads + Wait + Net + Clock + Files + Sync,
    I: Input,
    F: ReadFiles,
    W: CountedWrite,
    E: Write,
    L: Write + Drop,
>(
    rt: &R,
    alloc: Global,
    command: Waiting<'_>,
    input: &mut I,
    files: &mut F,
    log: L,
    terminal: bool,
    out: &mut W,
    errs: &mut E,
) -> Status
    ensures done { result ≡ Status.Done → WritesFor (F.contents files.old) terminal (waiting_of command.entry) (I.state input.old).coming (W.contents out.old) (W.contents out.new)
        (E.contents errs.old) (E.contents errs.new) }
    ensures refused { result ≡ Status.Refused → WritesRefusal (F.contents files.old) (waiting_of command.entry) (I.state input.old).coming (W.contents out.old) (W.contents out.new)
        (E.contents errs.old) (E.contents errs.new) }
    ensures no_errors { (result ≡ Status.Done) ⊎ ((result ≡ Status.Refused) × ShowsNoRefusal (waiting_of command.entry)) → errs.new ≡ errs.old }
    ensures never_misused { result ≡ Status.Misused → ⊥ }
    ensures failed { result ≡ Status.Failed
        → EndsInWaitingFailure (F.contents files.old) terminal (waiting_of command.entry) (I.state input.old).coming (W.contents out.old) (W.contents out.new)
        (E.contents errs.old) (E.contents errs.new) }
    ensures borrow_kept { (W.failures out.new).borrow ≡ (W.failures out.old).borrow }
{
    match command {
        Waiting::Flood { workers, datagrams } => {
            run_flood(rt, alloc, workers, datagrams, out, errs)
        }
        Waiting::Serve {
            front,
            control,
            workers,
            rules,
            log: logs,
            receive,
            buffer,
        } => run_serve(
            rt,
            alloc,
            (front, control),
            workers,
            (receive, buffer),
            rules,
            ServeLog::new(logs, log),
            files,
            out,
            errs,
        ),
        Waiting::Tell {
            control,
            timeout,
            all,
            lines,
        } => {
            let told = (control, timeout, all);
            let words = lines.as_slice();
            run_tell(rt, alloc, told, words, input, out, errs)
        }
        Waiting::Rules { control, timeout } => { run_rules(rt, alloc, control, timeout, out, errs) }
        Waiting::Load {
            control,
            timeout,
            file,
            check,
            diff,
        } => {
            let loading = Loading {
                control,
                timeout,
                file,
                check,
                diff,
            };
            run_load(rt, alloc, loading, files, out, errs)
        }
        Waiting::Drain {
            control,
            timeout,
            key,
            member,
        } => {
            let draining = Draining {
                control,
                timeout,
                key,
                member,
            };
            run_drain(rt, alloc, draining, out, errs)
        }
        Waiting::Metrics {
            control,
            front,
            timeout,
        } => {
            let addresses = (control, front);
            run_metrics(rt, alloc, addresses, timeout, files, out, errs)
        }
        Waiting::Top {
            control,
            interval,
            count,
            timeout,
        } => {
            let watching = Watching {
                control,
                interval,
                count,
                timeout,
                clears: terminal,
            };
            run_top(rt, alloc, watching, out, errs)
        }
    }
}
