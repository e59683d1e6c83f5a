//! The switch over UDP (docs/COMMANDS.md, "serve"; docs/OPERATING.md): datagrams that come to the front are judged by worker threads
//! and sent on to members, while control requests change the rules.
//!
//! The workers receive from the front for themselves, or the caller's thread hands them the datagrams in turn. The
//! caller's thread answers control itself, by serve_control: over UDP, or over a Unix socket by serve_unix.
#![tactic(auto)]

ghost use Rattle.std.specs.Prelude.{◌≡◌, ◌≢◌, ◌⊎◌, ◌↔◌, ◌≤◌, Err, IfErr, IfOk, OnOk, length, vec_len};
ghost use Rattle.member_group.specs.Charge.{charge_of};
ghost use Rattle.versions.specs.declared.layout.TheConstants.{CHARGE_LIMIT, WORKERS};
ghost use Rattle.command_streams.specs.Failures.{OutputFails};
ghost use Rattle.serve_udp.specs.declared.front_turn.TheConstants.{FRONT_TURN};
ghost use Rattle.serve_udp.specs.declared.jobs.TheConstants.{LIMIT};
ghost use Rattle.serve_udp.specs.Service.{AreStartsOf, BeginsCounted, BeginsServed, BeginsServedAt, BeginsServedFrom, HasReady, IsServeFailure, WritesCounted, WritesReadyOrNothing, WritesServed, WritesServedAt, WritesServedFrom};
ghost use Rattle.serve_udp.specs.Front.{HasFronts};
ghost use Rattle.serve_udp.specs.body.Jobs.{AreTotalsOf, HaveNewCounters};

mod bound;
mod control_turn;
mod front;
mod front_turn;
mod intake;
mod jobs;
mod opening;
mod ready;
mod receiving;
mod sockets;

pub use bound::{BindFault, BoundSockets, bind_udp, bind_unix};
use command_line::{ControlAddress, Failure, ReceiveWay};
use command_streams::{CountedWrite, CountedWriter};
use command_totals::write_totals;
use dispatch::{Gate, NamedTally, RunFault, TallyName, Totals, gather, run_counted};
use front::BoundFront;
pub use front::FrontRequest;
pub use front_turn::{Arrived, FRONT_TURN, FrontWire, hand_datagrams};
use intake::{Intake, direct_intake, queued_intake};
use ipv4_fields::Endpoint;
use jobs::ServiceJob;
use member_counts::MemberTable;
use member_group::Config;
use opening::{Service, ServiceSockets, open_service};
use read_section::WORKERS;
use ready::write_ready;
use receiving::Ended;
use serve_control::{Log, LogLines, NoLog};
use serve_devices::{Ingress, SharedCounts};
pub use sockets::LONGEST_DATAGRAM;
use std::alloc::Global;
use std::io::Write;
use std::marker::Brand;
use std::net::Net;
use std::sync::atomic::AtomicBool;
use std::sync::{Mutex, Wait};
use std::thread::Threads;

/// Law: the limits, as numbers. It runs nothing.
pub fn limits_as_numbers()
    ensures datagram { LONGEST_DATAGRAM ≡ 65535 }
    ensures batch { LIMIT ≡ 64 }
    ensures front { FRONT_TURN ≡ 64 }
{}

fn failed(fault: RunFault) -> Failure
    ensures spawn_failed { result ≡ Failure.SpawnFailed ↔ fault ≡ RunFault.SpawnFailed }
    ensures run_fault { (result ≡ Failure.SpawnFailed) ⊎ (result ≡ Failure.OutOfMemory) }
{
    match fault {
        RunFault::SpawnFailed => Failure::SpawnFailed,
        RunFault::OutOfMemory => Failure::OutOfMemory,
    }
}

// Receives beside the jobs until it is asked to stop, and then counts what they judged.
fn count_served<
    N: TallyName,
    L: LogLines,
    I: Ingress + Drop + Send,
    R: Threads + Wait + Sync,
    G: Gate + Sync,
>(
    rt: &R,
    alloc: Global,
    jobs: Vec<ServiceJob<'_, I, R>>,
    service: Service<'_>,
    counts: &SharedCounts,
    gate: &G,
    log: &mut Log<L>,
) -> Result<Totals, Failure>
    requires named { service.tally.table ≡ N.table }
    requires counters { HaveNewCounters service.tally.table service.spare.items jobs.items }
    ensures totals { IfOk result (λ totals. AreTotalsOf jobs.entry.items totals) }
    ensures bound { IfErr result (λ failure. failure ≢ Failure.BindFailed) }
    ensures no_input { IfErr result IsServeFailure }
    ensures no_output { IfErr result (λ failure. failure ≢ Failure.WriteFailed) }
{
    let mut named = NamedTally::<N>::new(service.tally);
    let mut ended = Ended::PollFailed;
    let lent = &mut named;
    let told = &mut ended;
    let mut receiver = service.receiver;
    let counters = match run_counted(rt, alloc, jobs, service.spare, gate, move || {
        *told = receiver.receive(rt, alloc, lent, counts, log);
    }) {
        Ok(counters) => counters,
        Err(fault) => return Err(failed(fault)),
    };
    match ended {
        Ended::Stopped => Ok(gather(named.tally, counters)),
        Ended::PollFailed => Err(Failure::PollFailed),
    }
}

// Runs the service once it is known who receives. If it is known what the sources give, their jobs judged and counted
// it.
fn serve_intake<
    'a,
    I: Ingress + Drop + Send,
    R: Threads + Wait + Net + Sync,
    G: Gate + Sync,
    W: CountedWrite,
    L: LogLines,
>(
    rt: &'a R,
    config: Config,
    counts: &'a SharedCounts,
    intake: Intake<'a, I>,
    sockets: ServiceSockets,
    control: ControlAddress<'_>,
    workers: usize,
    gate: &G,
    out: &mut W,
    log: &mut Log<L>,
) -> Result<(), Failure>
    requires within { charge_of config ≤ CHARGE_LIMIT }
    requires at_most { workers ≤ WORKERS }
    requires sources { length intake.sources.items ≡ workers }
    requires outlets { workers ≤ vec_len sockets.outlets }
    ensures served { OnOk result (WritesCounted control.entry config (AreStartsOf intake.entry.sources.items) (W.contents out.old) (W.contents out.new)) }
    ensures no_input { IfErr result IsServeFailure }
    ensures not_bound { result ≡ Err Failure.BindFailed → out.new ≡ out.old }
    ensures ready_or_nothing { IfErr result (λ failure. failure ≢ Failure.WriteFailed → WritesReadyOrNothing (W.contents out.old) (W.contents out.new)) }
    ensures quiet { IfErr result (λ failure. failure ≡ Failure.WriteFailed → (log.new ≡ log.old) ⊎ HasReady sockets.address control.entry (W.contents out.old) (W.contents out.new)) }
    ensures begun { IfErr result (λ failure. failure ≡ Failure.WriteFailed → BeginsCounted control.entry config (AreStartsOf intake.entry.sources.items) (W.contents out.old) (W.contents out.new)) }
    ensures device_failed { OutputFails result (W.failures out.old) (W.failures out.new) }
{
    let alloc = *config.allocator();
    let front = sockets.address;
    let (jobs, service) = open_service(rt, counts, config, intake, sockets, workers)?;
    if let Err(failure) = write_ready(front, control, out) {
        return Err(failure);
    }
    let totals = count_served::<Brand, L, I, R, G>(rt, alloc, jobs, service, counts, gate, log)?;
    write_totals(&totals, out)
}

/// Runs the switch on its sockets until a control request says `stop`, and then writes the line of the totals.
///
/// Version 0 is the configuration. The line `ready FRONT CONTROL` has the addresses bound, and is flushed before a datagram is
/// received. Each of the switch's workers receives from one of the sockets of the front, or is handed datagrams in turn, as the sockets were
/// bound, and sends by one of the sockets for workers. Each control request that changes something or is not done is a line of the log.
///
/// All memory except that of the threads, of queued datagrams, of control and of counters by member is taken before the
/// line `ready`, from the configuration's allocator. The call may wait, since nothing says that it is ever asked to
/// stop.
pub fn serve_bound<R: Threads + Wait + Net + Sync, G: Gate + Sync, W: CountedWrite, L: LogLines>(
    rt: &R,
    config: Config,
    sockets: BoundSockets<'_>,
    workers: usize,
    gate: &G,
    out: &mut W,
    log: &mut Log<L>,
) -> Result<(), Failure>
    requires within { charge_of config ≤ CHARGE_LIMIT }
    requires at_least_one { 1 ≤ workers }
    requires at_most { workers ≤ WORKERS }
    requires outlets { workers ≤ vec_len sockets.outlets }
    requires fronts { HasFronts workers sockets.front }
    ensures served { OnOk result (WritesServedAt sockets.entry.place config workers (W.contents out.old) (W.contents out.new)) }
    ensures no_input { IfErr result IsServeFailure }
    ensures not_bound { result ≡ Err Failure.BindFailed → out.new ≡ out.old }
    ensures ready_or_nothing { IfErr result (λ failure. failure ≢ Failure.WriteFailed → WritesReadyOrNothing (W.contents out.old) (W.contents out.new)) }
    ensures quiet { IfErr result (λ failure. failure ≡ Failure.WriteFailed → (log.new ≡ log.old) ⊎ HasReady sockets.entry.address sockets.entry.place (W.contents out.old) (W.contents out.new)) }
    ensures begun { IfErr result (λ failure. failure ≡ Failure.WriteFailed → BeginsServedAt sockets.entry.place config workers (W.contents out.old) (W.contents out.new)) }
    ensures device_failed { OutputFails result (W.failures out.old) (W.failures out.new) }
{
    let alloc = *config.allocator();
    let counts = Mutex::new(MemberTable::new(alloc));
    let BoundSockets {
        front,
        address,
        control,
        place,
        outlets,
    } = sockets;
    let rest = ServiceSockets {
        address,
        control,
        outlets,
    };
    let stopped = AtomicBool::new(false);
    match front {
        BoundFront::Queued(socket) => {
            let intake = queued_intake(rt, alloc, socket, &stopped, workers)?;
            serve_intake(
                rt, config, &counts, intake, rest, place, workers, gate, out, log,
            )
        }
        BoundFront::Direct(fronts) => {
            let intake = direct_intake(rt, alloc, &fronts, &stopped, workers)?;
            serve_intake(
                rt, config, &counts, intake, rest, place, workers, gate, out, log,
            )
        }
    }
}

/// Runs the switch, as `serve_with` does, but receives at the front as `front` says. The failures of the output are counted.
pub fn serve_over<R: Threads + Wait + Net + Sync, G: Gate + Sync, W: CountedWrite>(
    rt: &R,
    config: Config,
    front: FrontRequest,
    control: Endpoint,
    workers: usize,
    gate: &G,
    out: &mut W,
) -> Result<(), Failure>
    requires within { charge_of config ≤ CHARGE_LIMIT }
    requires at_least_one { 1 ≤ workers }
    requires at_most { workers ≤ WORKERS }
    ensures served { OnOk result (WritesServedFrom config workers (W.contents out.old) (W.contents out.new)) }
    ensures no_input { IfErr result IsServeFailure }
    ensures not_bound { result ≡ Err Failure.BindFailed → out.new ≡ out.old }
    ensures ready_or_nothing { IfErr result (λ failure. failure ≢ Failure.WriteFailed → WritesReadyOrNothing (W.contents out.old) (W.contents out.new)) }
    ensures begun { IfErr result (λ failure. failure ≡ Failure.WriteFailed → BeginsServedFrom config workers (W.contents out.old) (W.contents out.new)) }
    ensures device_failed { OutputFails result (W.failures out.old) (W.failures out.new) }
{
    let alloc = *config.allocator();
    let Ok(mut log) = Log::new(alloc, NoLog) else {
        return Err(Failure::OutOfMemory);
    };
    let sockets = match bind_udp(rt, alloc, front, control, workers) {
        Ok(sockets) => sockets,
        Err(BindFault::OutOfMemory) => return Err(Failure::OutOfMemory),
        Err(_) => return Err(Failure::BindFailed),
    };
    serve_bound(rt, config, sockets, workers, gate, out, &mut log)
}

// Runs the switch, as `serve_over` does, over a writer.
fn serve_by<R: Threads + Wait + Net + Sync, G: Gate + Sync, W: Write>(
    rt: &R,
    config: Config,
    front: FrontRequest,
    control: Endpoint,
    workers: usize,
    gate: &G,
    out: &mut W,
) -> Result<(), Failure>
    requires within { charge_of config ≤ CHARGE_LIMIT }
    requires at_least_one { 1 ≤ workers }
    requires at_most { workers ≤ WORKERS }
    ensures served { OnOk result (WritesServedFrom config workers (W.contents out.old) (W.contents out.new)) }
    ensures no_input { IfErr result IsServeFailure }
    ensures not_bound { result ≡ Err Failure.BindFailed → out.new ≡ out.old }
    ensures ready_or_nothing { IfErr result (λ failure. failure ≢ Failure.WriteFailed → WritesReadyOrNothing (W.contents out.old) (W.contents out.new)) }
    ensures begun { IfErr result (λ failure. failure ≡ Failure.WriteFailed → BeginsServedFrom config workers (W.contents out.old) (W.contents out.new)) }
{
    let mut results = CountedWriter::new(out);
    let ended = serve_over(rt, config, front, control, workers, gate, &mut results);
    let _ = results.into_inner();
    ended
}

/// Runs the switch, as `serve_bound` does, on two UDP sockets that it binds, without a log. A port 0 lets the system pick one.
pub fn serve_with<R: Threads + Wait + Net + Sync, G: Gate + Sync, W: Write>(
    rt: &R,
    config: Config,
    front: Endpoint,
    control: Endpoint,
    workers: usize,
    gate: &G,
    out: &mut W,
) -> Result<(), Failure>
    requires within { charge_of config ≤ CHARGE_LIMIT }
    requires at_least_one { 1 ≤ workers }
    requires at_most { workers ≤ WORKERS }
    ensures served { OnOk result (WritesServedFrom config workers (W.contents out.old) (W.contents out.new)) }
    ensures no_input { IfErr result IsServeFailure }
    ensures not_bound { result ≡ Err Failure.BindFailed → out.new ≡ out.old }
    ensures ready_or_nothing { IfErr result (λ failure. failure ≢ Failure.WriteFailed → WritesReadyOrNothing (W.contents out.old) (W.contents out.new)) }
    ensures begun { IfErr result (λ failure. failure ≡ Failure.WriteFailed → BeginsServedFrom config workers (W.contents out.old) (W.contents out.new)) }
{
    let front = FrontRequest {
        address: front,
        way: ReceiveWay::Queued,
        buffer: None,
    };
    serve_by(rt, config, front, control, workers, gate, out)
}

/// Runs the switch, as `serve_with` does, at a configuration without groups.
pub fn serve<R: Threads + Wait + Net + Sync, G: Gate + Sync, W: Write>(
    rt: &R,
    alloc: Global,
    front: Endpoint,
    control: Endpoint,
    workers: usize,
    gate: &G,
    out: &mut W,
) -> Result<(), Failure>
    requires at_least_one { 1 ≤ workers }
    requires at_most { workers ≤ WORKERS }
    ensures served { OnOk result (WritesServed workers (W.contents out.old) (W.contents out.new)) }
    ensures no_input { IfErr result IsServeFailure }
    ensures not_bound { result ≡ Err Failure.BindFailed → out.new ≡ out.old }
    ensures ready_or_nothing { IfErr result (λ failure. failure ≢ Failure.WriteFailed → WritesReadyOrNothing (W.contents out.old) (W.contents out.new)) }
    ensures begun { IfErr result (λ failure. failure ≡ Failure.WriteFailed → BeginsServed workers (W.contents out.old) (W.contents out.new)) }
{
    let config = Config::new(alloc);
    serve_with(rt, config, front, control, workers, gate, out)
}

/// Runs the switch, as `serve` does, but each worker receives from a socket of its own at the front's address. The system gives the datagrams
/// of one sender to one worker (SO_REUSEPORT of socket(7)).
pub fn serve_direct<R: Threads + Wait + Net + Sync, G: Gate + Sync, W: Write>(
    rt: &R,
    alloc: Global,
    front: Endpoint,
    control: Endpoint,
    workers: usize,
    gate: &G,
    out: &mut W,
) -> Result<(), Failure>
    requires at_least_one { 1 ≤ workers }
    requires at_most { workers ≤ WORKERS }
    ensures served { OnOk result (WritesServed workers (W.contents out.old) (W.contents out.new)) }
    ensures no_input { IfErr result IsServeFailure }
    ensures not_bound { result ≡ Err Failure.BindFailed → out.new ≡ out.old }
    ensures ready_or_nothing { IfErr result (λ failure. failure ≢ Failure.WriteFailed → WritesReadyOrNothing (W.contents out.old) (W.contents out.new)) }
    ensures begun { IfErr result (λ failure. failure ≡ Failure.WriteFailed → BeginsServed workers (W.contents out.old) (W.contents out.new)) }
{
    let front = FrontRequest {
        address: front,
        way: ReceiveWay::Direct,
        buffer: None,
    };
    serve_by(rt, Config::new(alloc), front, control, workers, gate, out)
}
