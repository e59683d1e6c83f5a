//! The command `serve`: the switch on its sockets (docs/COMMANDS.md, "serve").

ghost use Rattle.std.specs.Prelude.{◌≡◌, ◌≤◌, ◌⊎◌, IfOk, List, None, option_map, vec_len, ℕ};
ghost use Rattle.config_image.specs.Image.{Group};
ghost use Rattle.member_group.specs.Charge.{charge_of};
ghost use Rattle.versions.specs.declared.layout.TheConstants.{CHARGE_LIMIT};
ghost use Rattle.command_line.specs.Ending.{AppendsBeginning};
ghost use Rattle.command_streams.specs.Endings.{EndsByCause, EndsByOneCause};
ghost use Rattle.serve_udp.specs.Front.{HasFronts};
ghost use Rattle.serve_udp.specs.Service.{WritesServedFrom};
ghost use Rattle.command_waiting.specs.Serving.{EndsServing, FailsServing, IsBindLine, socket_name};
ghost use Rattle.command_waiting.specs.Waiting.{EndsInServeFailure, RefusesService, ServeFails, WritesService};

use crate::logging::ServeLog;
use command_line::{
    ControlAddress, Failure, ReceiveBuffer, ReceiveWay, Status, Workers, write_whole,
};
use command_operating::{ReadFiles, opening, refuse_address};
use command_streams::CountedWrite;
use dispatch::OpenGate;
use ipv4_fields::Endpoint;
use member_group::Config;
use serve_control::Log;
use serve_udp::{BindFault, BoundSockets, FrontRequest, bind_udp, bind_unix, serve_bound};
use std::alloc::{AllocError, Global};
use std::fs::Files;
use std::io::Write;
use std::net::Net;
use std::sync::Wait;
use std::thread::Threads;

// The socket that was not bound.
fn socket_name(fault: &BindFault) -> &'static str
    ensures { result.now ≡ socket_name fault.now }
{
    match fault {
        BindFault::Front(_) => "--front",
        BindFault::Control(_) => "--control",
        BindFault::Worker(_) => "a worker's socket",
        BindFault::OutOfMemory => "",
    }
}

// Why it was not bound, as the system says it.
fn cause_text(alloc: Global, fault: &BindFault) -> Result<String, AllocError> {
    match fault {
        BindFault::Front(error) | BindFault::Control(error) | BindFault::Worker(error) => {
            format!(in alloc; ": {error}\n")
        }
        BindFault::OutOfMemory => Err(AllocError),
    }
}

// Which socket was not bound, and why.
fn bind_line(alloc: Global, fault: &BindFault) -> Result<Vec<u8>, AllocError>
    ensures { IfOk result (λ line. IsBindLine fault.now line.items) }
{
    let cause = cause_text(alloc, fault)?;
    let mut line = Vec::new(alloc);
    line.extend_from_slice(b"cannot bind ".as_slice())?;
    line.extend_from_slice(socket_name(fault).as_bytes())?;
    line.extend_from_slice(cause.as_bytes())?;
    Ok(line)
}

// Shows people why a socket was not bound. If memory or a write fails, that is left out.
fn show_bind_fault<E: Write>(alloc: Global, fault: &BindFault, errs: &mut E)
    ensures { (line : _) × IsBindLine fault.now line × AppendsBeginning (E.contents errs.old) (E.contents errs.new) line }
{
    if let Ok(line) = bind_line(alloc, fault) {
        let _ = write_whole(&line, errs);
        let _ = errs.flush();
    }
}

fn report_bind<W: CountedWrite, E: Write>(
    alloc: Global,
    fault: &BindFault,
    out: &mut W,
    errs: &mut E,
) -> Status
    ensures failed { result ≡ Status.Failed }
    ensures told { (opening : List Group) (workers : ℕ)
        → EndsServing opening workers (W.contents out.old) (W.contents out.new) (E.contents errs.old) (E.contents errs.new) }
    ensures device_failed { (opening : List Group) (workers : ℕ)
        → EndsByCause (FailsServing opening workers (W.contents out.old) (W.contents out.new) (E.contents errs.old) (E.contents errs.new)) result
        (W.failures out.old) (W.failures out.new) }
{
    match fault {
        BindFault::OutOfMemory => Failure::OutOfMemory.report(errs),
        _ => {
            show_bind_fault(alloc, fault, errs);
            Failure::BindFailed.report(errs)
        }
    }
}

// Serves on bound sockets.
fn serve_on<R: Threads + Wait + Net + Sync, W: CountedWrite, E: Write, L: Write + Drop>(
    rt: &R,
    config: Config,
    sockets: BoundSockets<'_>,
    workers: Workers,
    lines: ServeLog<L>,
    out: &mut W,
    errs: &mut E,
) -> Status
    requires within { charge_of config ≤ CHARGE_LIMIT }
    requires outlets { workers.count ≤ vec_len sockets.outlets }
    requires fronts { HasFronts workers.count sockets.front }
    ensures done { result ≡ Status.Done → WritesServedFrom config workers.count (W.contents out.old) (W.contents out.new) }
    ensures no_errors { result ≡ Status.Done → errs.new ≡ errs.old }
    ensures done_or_failed { (result ≡ Status.Done) ⊎ (result ≡ Status.Failed) }
    ensures failed { result ≡ Status.Failed
        → EndsServing config workers.count (W.contents out.old) (W.contents out.new) (E.contents errs.old) (E.contents errs.new) }
    ensures device_failed { EndsByCause
        (FailsServing config workers.count (W.contents out.old) (W.contents out.new) (E.contents errs.old) (E.contents errs.new)) result
        (W.failures out.old) (W.failures out.new) }
{
    let Ok(mut log) = Log::new(*config.allocator(), lines) else {
        return Failure::OutOfMemory.report(errs);
    };
    match serve_bound(rt, config, sockets, workers.count, &OpenGate, out, &mut log) {
        Ok(()) => Status::Done,
        Err(failure) => failure.report(errs),
    }
}

// Binds the sockets, and serves. A socket file is removed at the end.
fn serve_at<R: Threads + Wait + Net + Files + Sync, W: CountedWrite, E: Write, L: Write + Drop>(
    rt: &R,
    config: Config,
    places: (FrontRequest, ControlAddress<'_>),
    workers: Workers,
    lines: ServeLog<L>,
    out: &mut W,
    errs: &mut E,
) -> Status
    requires { charge_of config ≤ CHARGE_LIMIT }
    ensures done { result ≡ Status.Done → WritesServedFrom config workers.count (W.contents out.old) (W.contents out.new) }
    ensures no_errors { result ≡ Status.Done → errs.new ≡ errs.old }
    ensures done_or_failed { (result ≡ Status.Done) ⊎ (result ≡ Status.Failed) }
    ensures failed { result ≡ Status.Failed
        → EndsServing config workers.count (W.contents out.old) (W.contents out.new) (E.contents errs.old) (E.contents errs.new) }
    ensures device_failed { EndsByCause
        (FailsServing config workers.count (W.contents out.old) (W.contents out.new) (E.contents errs.old) (E.contents errs.new)) result
        (W.failures out.old) (W.failures out.new) }
{
    let (alloc, count) = (*config.allocator(), workers.count);
    match places.1 {
        ControlAddress::Udp(control) => match bind_udp(rt, alloc, places.0, control, count) {
            Ok(sockets) => serve_on(rt, config, sockets, workers, lines, out, errs),
            Err(fault) => report_bind(alloc, &fault, out, errs),
        },
        ControlAddress::Unix(path) => match bind_unix(rt, alloc, places.0, path, count) {
            Ok((sockets, file)) => {
                let status = serve_on(rt, config, sockets, workers, lines, out, errs);
                file.remove(rt);
                status
            }
            Err(fault) => report_bind(alloc, &fault, out, errs),
        },
    }
}

/// Runs `serve` with the texts of both addresses, how the front receives, the name of a rules file if there is one, and the
/// destination of the log's lines.
pub(crate) fn run_serve<
    R: Threads + Wait + Net + Files + Sync,
    F: ReadFiles,
    W: CountedWrite,
    E: Write,
    L: Write + Drop,
>(
    rt: &R,
    alloc: Global,
    addresses: (&str, &str),
    workers: Workers,
    receive: (ReceiveWay, Option<ReceiveBuffer>),
    file: Option<&str>,
    lines: ServeLog<L>,
    files: &mut F,
    out: &mut W,
    errs: &mut E,
) -> Status
    ensures done { result ≡ Status.Done
        → WritesService (F.contents files.old) addresses.entry.0.now addresses.entry.1.now workers.count (option_map (λ name. name.now) file.entry)
        (W.contents out.old) (W.contents out.new) }
    ensures refused { result ≡ Status.Refused
        → RefusesService (F.contents files.old) addresses.entry.0.now addresses.entry.1.now (option_map (λ name. name.now) file.entry)
        (W.contents out.old) (W.contents out.new) }
    ensures no_errors { (result ≡ Status.Done) ⊎ ((result ≡ Status.Refused) × (file.entry ≡ None)) → errs.new ≡ errs.old }
    ensures never_misused { result ≡ Status.Misused → ⊥ }
    ensures failed { result ≡ Status.Failed
        → EndsInServeFailure (F.contents files.old) addresses.entry.0.now addresses.entry.1.now workers.count (option_map (λ name. name.now) file.entry)
        (W.contents out.old) (W.contents out.new) (E.contents errs.old) (E.contents errs.new) }
    ensures device_failed { EndsByOneCause
        (ServeFails (F.contents files.old) addresses.entry.0.now addresses.entry.1.now workers.count (option_map (λ name. name.now) file.entry)
        (W.contents out.old) (W.contents out.new) (E.contents errs.old) (E.contents errs.new)) result
        (F.failures files.old) (F.failures files.new) (W.failures out.old) (W.failures out.new) }
{
    let Some(address) = Endpoint::from_text(addresses.0.as_bytes()) else {
        return refuse_address(out, errs);
    };
    let Some(control) = ControlAddress::from_text(addresses.1) else {
        return refuse_address(out, errs);
    };
    let config = match opening(alloc, file, files, out, errs) {
        Ok(config) => config,
        Err(status) => return status,
    };
    let (way, buffer) = receive;
    let front = FrontRequest {
        address,
        way,
        buffer,
    };
    serve_at(rt, config, (front, control), workers, lines, out, errs)
}
