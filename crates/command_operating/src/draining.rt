//! The command `drain`: a member out of a group of a running switch (docs/COMMANDS.md, "drain").

ghost use Rattle.std.specs.Prelude.{◌≡◌, ◌≢◌, ◌⊎◌, ◌++◌, IfErr, IfOk, MatchOption, OnErr, OnOk, Some, codes, string_bytes};
ghost use Rattle.std.specs.Io.KnownBytes.{Appends};
ghost use Rattle.fault_code.specs.Code.{code_text};
ghost use Rattle.control_client.specs.Wire.{peer_of};
ghost use Rattle.control_rules.specs.Drain.{drain_code};
ghost use Rattle.control_rules.specs.declared.draining.Drained.{Drained as DrainedValue};
ghost use Rattle.command_streams.specs.Endings.{EndsByCause};
ghost use Rattle.command_streams.specs.Failures.{OutputFails};
ghost use Rattle.command_operating.specs.Draining.{DrainsFrom, MayFailDraining, NamesMember, NamesNoMember, PrintsDrain, RefusesDrain, WritesDrain, drained_line, drained_status};
ghost use Rattle.command_operating.specs.Printing.{EndsInPrintFailure, IsAskFault, PrintFails};
ghost use Rattle.command_operating.specs.body.Asked.{IsUnasked};
ghost use Rattle.command_operating.specs.body.Drained.{BeginsDrained};

use crate::loading::version_line;
use crate::printing::print_line;
use crate::reaching::{ask_failure, client_of};
use crate::refuse_address;
use crate::reporting::reported;
use command_line::{ControlAddress, Failure, Status};
use command_streams::CountedWrite;
use control_client::Reach;
use control_rules::{AskFailure, DrainRefusal, Drained, drain};
use ipv4_fields::{Endpoint, read_number};
use std::alloc::{AllocError, Global};
use std::cell::Cell;
use std::io::Write;
use std::net::Net;
use std::time::Clock;

/// The arguments of `drain`.
#[derive(Clone, Copy)]
pub struct Draining<'a> {
    /// The text of the switch's address.
    pub control: &'a str,
    /// The seconds for a reply.
    pub timeout: u64,
    pub key: &'a str,
    pub member: &'a str,
}

// The key of a group and the ID of a member.
fn named_member(key: &str, member: &str) -> Option<(Endpoint, u32)>
    ensures { MatchOption result (NamesNoMember key.now member.now) (λ named. NamesMember key.now member.now named.0 named.1) }
{
    let endpoint = Endpoint::from_text(key.as_bytes())?;
    let id = read_number(u32::MAX, member.as_bytes())?;
    Some((endpoint, id))
}

fn refusal_line(alloc: Global, refusal: DrainRefusal) -> Result<String, AllocError>
    ensures { IfOk result (λ line. string_bytes line ≡ codes "refused " ++ code_text (drain_code refusal)) }
{
    format!(in alloc; "refused {}", refusal.code())
}

// Prints how the draining ended.
fn print_drained<W: CountedWrite>(
    alloc: Global,
    drained: &Drained,
    out: &mut W,
) -> Result<Status, Failure>
    ensures status { IfOk result (λ status. status ≡ drained_status drained.now) }
    ensures done_or_refused { IfOk result (λ status. (status ≡ Status.Done) ⊎ (status ≡ Status.Refused)) }
    ensures printed { OnOk result (Appends (W.contents out.old) (W.contents out.new) (drained_line drained.now ++ codes "\n")) }
    ensures unwritten { IfErr result (λ failure. failure ≢ Failure.WriteFailed → out.new ≡ out.old) }
    ensures begun { IfErr result (λ failure. failure ≡ Failure.WriteFailed → BeginsDrained drained.now (W.contents out.old) (W.contents out.new)) }
    ensures fault { IfErr result IsUnasked }
    ensures device_failed { OutputFails result (W.failures out.old) (W.failures out.new) }
{
    match drained {
        Drained::Published { version } => {
            print_line(version_line(*version, "").bytes(), out)?;
            Ok(Status::Done)
        }
        Drained::Refused(reply) => {
            print_line(reply, out)?;
            Ok(Status::Refused)
        }
        Drained::Unsent(refusal) => {
            let line = refusal_line(alloc, *refusal)?;
            print_line(line.as_bytes(), out)?;
            Ok(Status::Refused)
        }
        Drained::Changed => Err(Failure::RulesChanged),
    }
}

// Drains a member of a switch.
fn drained_from<R: Net + Clock>(
    rt: &R,
    alloc: Global,
    reach: Reach<'_>,
    member: (Endpoint, u32),
) -> Result<Drained, AskFailure>
    ensures drained { IfOk result (DrainsFrom (peer_of reach.entry.address) member.0 member.1) }
{
    let mut client = client_of(rt, alloc, reach)?;
    drain(rt, &mut client, member.0, member.1)
}

// Drains a member of a switch, and prints how that ended.
fn drain_printed<R: Net + Clock, W: CountedWrite>(
    rt: &R,
    alloc: Global,
    reach: Reach<'_>,
    member: (Endpoint, u32),
    out: &mut W,
) -> Result<Status, Failure>
    ensures printed { IfOk result (λ status. (drained : DrainedValue) × (status ≡ drained_status drained)
        × DrainsFrom (peer_of reach.entry.address) member.0 member.1 drained
        × Appends (W.contents out.old) (W.contents out.new) (drained_line drained ++ codes "\n")) }
    ensures done_or_refused { IfOk result (λ status. (status ≡ Status.Done) ⊎ (status ≡ Status.Refused)) }
    ensures unwritten { IfErr result (λ failure. failure ≢ Failure.WriteFailed → out.new ≡ out.old) }
    ensures begun { IfErr result (λ failure. failure ≡ Failure.WriteFailed → (drained : DrainedValue)
        × DrainsFrom (peer_of reach.entry.address) member.0 member.1 drained × BeginsDrained drained (W.contents out.old) (W.contents out.new)) }
    ensures fault { IfErr result (IsAskFault ⊥ reach.entry.address) }
    ensures device_failed { OutputFails result (W.failures out.old) (W.failures out.new) }
{
    let drained = match drained_from(rt, alloc, reach, member) {
        Ok(drained) => drained,
        Err(failure) => return Err(ask_failure(failure, reach.address)),
    };
    print_drained(alloc, &drained, out)
}

/// Runs `drain`.
pub fn run_drain<R: Net + Clock, W: CountedWrite, E: Write>(
    rt: &R,
    alloc: Global,
    draining: Draining<'_>,
    out: &mut W,
    errs: &mut E,
) -> Status
    ensures done { result ≡ Status.Done → WritesDrain draining.entry.control.now draining.entry.key.now draining.entry.member.now
        (W.contents out.old) (W.contents out.new) }
    ensures refused { result ≡ Status.Refused → RefusesDrain draining.entry.control.now draining.entry.key.now draining.entry.member.now
        (W.contents out.old) (W.contents out.new) }
    ensures no_errors { (result ≡ Status.Done) ⊎ (result ≡ Status.Refused) → errs.new ≡ errs.old }
    ensures never_misused { result ≡ Status.Misused → ⊥ }
    ensures failed { result ≡ Status.Failed
        → EndsInPrintFailure (PrintsDrain draining.entry.control.now draining.entry.key.now draining.entry.member.now)
        (MayFailDraining draining.entry.control.now draining.entry.key.now draining.entry.member.now) (Some draining.entry.control.now)
        (W.contents out.old) (W.contents out.new) (E.contents errs.old) (E.contents errs.new) }
    ensures device_failed { EndsByCause
        (PrintFails (PrintsDrain draining.entry.control.now draining.entry.key.now draining.entry.member.now)
        (MayFailDraining draining.entry.control.now draining.entry.key.now draining.entry.member.now) (Some draining.entry.control.now)
        (W.contents out.old) (W.contents out.new) (E.contents errs.old) (E.contents errs.new)) result (W.failures out.old) (W.failures out.new) }
{
    let Draining {
        control,
        timeout,
        key,
        member,
    } = draining;
    let Some(address) = ControlAddress::from_text(control) else {
        return refuse_address(out, errs);
    };
    let Some(named) = named_member(key, member) else {
        return refuse_address(out, errs);
    };
    let trouble = Cell::new(None);
    let reach = Reach {
        address,
        seconds: timeout,
        trouble: &trouble,
    };
    let ended = drain_printed(rt, alloc, reach, named, out);
    reported(alloc, ended, control, reach, errs)
}
