//! The command `metrics`: the counters of a running switch, for Prometheus (docs/COMMANDS.md, "metrics").

ghost use Rattle.std.specs.Prelude.{◌≡◌, ◌≢◌, ◌⊎◌, IfErr, IfOk, MatchResult, None, OnErr, OnOk, Some, codes, option_map};
ghost use Rattle.std.specs.Io.KnownBytes.{Appends};
ghost use Rattle.command_line.specs.ControlAddress.{IsNoControlAddress};
ghost use Rattle.control_client.specs.Wire.{peer_of};
ghost use Rattle.control_counters.specs.Reading.{AreCountersOf};
ghost use Rattle.command_streams.specs.Failures.{OutputFails};
ghost use Rattle.command_operating.specs.Measured.{AreDropsBy, EndsByCauseOrTable, IsNoFront, MayFailMeasuring, PrintsMetrics, WatchesOf, WritesMetrics, sockets_file};
ghost use Rattle.command_operating.specs.Printing.{Begins, EndsInPrintFailure, IsAskFault, PrintFails};
ghost use Rattle.command_operating.specs.body.Front.{FailsByTable, IsFrontOf, IsGivenFront, WritesCounters};

use crate::files::ReadFiles;
use crate::reaching::{ask_failure, client_of};
use crate::refuse_address;
use crate::reporting::report;
use command_line::{ControlAddress, Failure, Status};
use command_streams::{CountedWrite, write_through};
use control_client::{Reach, Wire};
use control_counters::read_counters;
use control_rules::{AskFailure, Client};
use counter_text::{Counters, FrontDrops, drops_at, metrics_text};
use ipv4_fields::Endpoint;
use std::alloc::Global;
use std::cell::Cell;
use std::io::Write;
use std::net::Net;
use std::time::Clock;

// The kernel's table of UDP sockets.
const SOCKETS: &str = "/proc/net/udp";

// The counters of a client's switch.
fn read_all<R: Clock, D: Wire + Drop>(
    rt: &R,
    client: &mut Client<D>,
) -> Result<Counters, AskFailure>
    ensures { IfOk result (λ counters. WatchesOf client.old.switch (λ history told. AreCountersOf history told counters)) }
{
    match read_counters(rt, client, None)? {
        Some(reading) => Ok(reading.counters),
        None => Err(AskFailure::RulesChanged),
    }
}

// The counters of the switch at an address.
fn counters_of<R: Net + Clock>(
    rt: &R,
    alloc: Global,
    reach: Reach<'_>,
) -> Result<Counters, AskFailure>
    ensures { IfOk result (λ counters. WatchesOf (peer_of reach.entry.address) (λ history told. AreCountersOf history told counters)) }
{
    let mut client = client_of(rt, alloc, reach)?;
    read_all(rt, &mut client)
}

// How many datagrams the kernel dropped at a front.
fn drops_of<F: ReadFiles>(
    files: &mut F,
    alloc: Global,
    front: Endpoint,
) -> Result<FrontDrops, Failure>
    ensures front { IfOk result (λ it. it.front ≡ front) }
    ensures drops { IfOk result (AreDropsBy (F.contents files.old sockets_file)) }
    ensures cause { IfErr result (λ failure. (failure ≡ Failure.ReadFailed) ⊎ (failure ≡ Failure.OutOfMemory)) }
    ensures no_output { IfErr result (λ failure. failure ≢ Failure.WriteFailed) }
    ensures input_failed { FailsByTable result (F.contents files.old sockets_file) (Some front) (F.failures files.old) (F.failures files.new) }
{
    let table = files.read(alloc, SOCKETS, None)?;
    match drops_at(alloc, &table, front)? {
        Some(drops) => Ok(FrontDrops { front, drops }),
        None => Err(Failure::ReadFailed),
    }
}

// The same, if a front is given.
#[tactic(auto, using(crate::proofs::MeasuringLemmas::table_passed))]
fn front_drops<F: ReadFiles>(
    files: &mut F,
    alloc: Global,
    front: Option<Endpoint>,
) -> Result<Option<FrontDrops>, Failure>
    ensures drops { IfOk result (IsFrontOf (F.contents files.old sockets_file) front) }
    ensures cause { IfErr result (λ failure. (failure ≡ Failure.ReadFailed) ⊎ (failure ≡ Failure.OutOfMemory)) }
    ensures given { OnErr result (front ≢ None) }
    ensures no_output { IfErr result (λ failure. failure ≢ Failure.WriteFailed) }
    ensures input_failed { FailsByTable result (F.contents files.old sockets_file) front (F.failures files.old) (F.failures files.new) }
{
    match front {
        None => Ok(None),
        Some(front) => Ok(Some(drops_of(files, alloc, front)?)),
    }
}

// The front of this text, if there is one. `Err` if the text is no endpoint.
fn front_of(front: Option<&str>) -> Result<Option<Endpoint>, ()>
    ensures { MatchResult result (IsGivenFront (option_map (λ text. text.now) front.entry)) (λ _. IsNoFront (option_map (λ text. text.now) front.entry)) }
{
    match front {
        None => Ok(None),
        Some(text) => match Endpoint::from_text(text.as_bytes()) {
            Some(endpoint) => Ok(Some(endpoint)),
            None => Err(()),
        },
    }
}

// Reads everything, and writes it.
#[tactic(auto, using(crate::proofs::MeasuringLemmas::table_passed, crate::proofs::MeasuringLemmas::table_then))]
fn print_metrics<R: Net + Clock, F: ReadFiles, W: CountedWrite>(
    rt: &R,
    alloc: Global,
    reach: Reach<'_>,
    front: Option<Endpoint>,
    files: &mut F,
    out: &mut W,
) -> Result<(), Failure>
    ensures printed { OnOk result
        (WritesCounters (peer_of reach.entry.address) (F.contents files.old sockets_file) front (W.contents out.old) (W.contents out.new)) }
    ensures unwritten { IfErr result (λ failure. failure ≢ Failure.WriteFailed → out.new ≡ out.old) }
    ensures begun { IfErr result (λ failure. failure ≡ Failure.WriteFailed
        → Begins (WritesCounters (peer_of reach.entry.address) (F.contents files.old sockets_file) front) (W.contents out.old) (W.contents out.new)) }
    ensures fault { IfErr result (IsAskFault (front ≢ None) reach.entry.address) }
    ensures device_failed { OutputFails result (W.failures out.old) (W.failures out.new) }
    ensures input_failed { FailsByTable result (F.contents files.old sockets_file) front (F.failures files.old) (F.failures files.new) }
{
    let counters = match counters_of(rt, alloc, reach) {
        Ok(counters) => counters,
        Err(failure) => return Err(ask_failure(failure, reach.address)),
    };
    let drops = front_drops(files, alloc, front)?;
    let text = metrics_text(alloc, &counters, drops)?;
    write_through(text.as_bytes(), out)
}

/// Runs `metrics` with the text of the switch's address, that of a front or none, and the seconds for a reply.
pub fn run_metrics<R: Net + Clock, F: ReadFiles, W: CountedWrite, E: Write>(
    rt: &R,
    alloc: Global,
    addresses: (&str, Option<&str>),
    seconds: u64,
    files: &mut F,
    out: &mut W,
    errs: &mut E,
) -> Status
    ensures done { result ≡ Status.Done
        → WritesMetrics addresses.entry.0.now (F.contents files.old sockets_file) (option_map (λ text. text.now) addresses.entry.1)
        (W.contents out.old) (W.contents out.new) }
    ensures refused { result ≡ Status.Refused
        → (IsNoControlAddress addresses.entry.0.now ⊎ IsNoFront (option_map (λ text. text.now) addresses.entry.1))
        × Appends (W.contents out.old) (W.contents out.new) (codes "refused C1\n") }
    ensures no_errors { (result ≡ Status.Done) ⊎ (result ≡ Status.Refused) → errs.new ≡ errs.old }
    ensures never_misused { result ≡ Status.Misused → ⊥ }
    ensures failed { result ≡ Status.Failed
        → EndsInPrintFailure (PrintsMetrics addresses.entry.0.now (F.contents files.old sockets_file) (option_map (λ text. text.now) addresses.entry.1))
        (MayFailMeasuring addresses.entry.0.now (option_map (λ text. text.now) addresses.entry.1)) (Some addresses.entry.0.now)
        (W.contents out.old) (W.contents out.new) (E.contents errs.old) (E.contents errs.new) }
    ensures device_failed { EndsByCauseOrTable
        (PrintFails (PrintsMetrics addresses.entry.0.now (F.contents files.old sockets_file) (option_map (λ text. text.now) addresses.entry.1))
        (MayFailMeasuring addresses.entry.0.now (option_map (λ text. text.now) addresses.entry.1)) (Some addresses.entry.0.now)
        (W.contents out.old) (W.contents out.new) (E.contents errs.old) (E.contents errs.new))
        (F.contents files.old sockets_file) (option_map (λ text. text.now) addresses.entry.1) result
        (F.failures files.old) (F.failures files.new) (W.failures out.old) (W.failures out.new) }
{
    let (control, front) = addresses;
    let Some(address) = ControlAddress::from_text(control) else {
        return refuse_address(out, errs);
    };
    let Ok(front) = front_of(front) else {
        return refuse_address(out, errs);
    };
    let trouble = Cell::new(None);
    let reach = Reach {
        address,
        seconds,
        trouble: &trouble,
    };
    match print_metrics(rt, alloc, reach, front, files, out) {
        Ok(()) => Status::Done,
        Err(failure) => report(alloc, failure, control, reach, errs),
    }
}
