//! The command `top`: what comes to each group and member of a running switch (docs/COMMANDS.md, "top").

ghost use Rattle.std.specs.Prelude.{◌≡◌, ◌≢◌, ◌≤◌, ◌⊎◌, ◌++◌, IfErr, IfOk, OnOk, Some, codes};
ghost use Rattle.std.specs.Io.KnownBytes.{Appends};
ghost use Rattle.command_line.specs.ControlAddress.{IsNoControlAddress};
ghost use Rattle.command_line.specs.Ending.{AppendsBeginning};
ghost use Rattle.control_client.specs.Wire.{peer_of};
ghost use Rattle.control_counters.specs.Reading.{AreCountersOf, IsKnown};
ghost use Rattle.control_counters.specs.Watching.{Watches};
ghost use Rattle.counter_text.specs.Screen.{screen_text};
ghost use Rattle.command_streams.specs.Endings.{EndsByCause};
ghost use Rattle.command_streams.specs.Failures.{OutputFails};
ghost use Rattle.command_operating.specs.Measured.{EndsInTopFailure, TopFails, WritesScreens, WritesTop, clear_text};
ghost use Rattle.command_operating.specs.Printing.{IsAskFault};
ghost use Rattle.command_operating.specs.body.Asked.{IsUnasked};
ghost use Rattle.command_operating.specs.body.Screens.{BeginsMore, BeginsScreens, Shows, ShowsFewer, ShowsMore};

use crate::reaching::{ask_failure, client_of, unasked};
use crate::refuse_address;
use crate::reporting::report;
use command_line::{ControlAddress, Failure, Status};
use command_streams::{CountedWrite, write_through, write_whole};
use control_client::{Reach, Wire};
use control_counters::{Reading, read_counters};
use control_rules::Client;
use counter_text::{Counters, screen_text};
use std::alloc::Global;
use std::cell::Cell;
use std::io::Write;
use std::net::Net;
use std::thread::sleep;
use std::time::{Clock, Duration, Instant};

/// The arguments of `top`.
#[derive(Clone, Copy)]
pub struct Watching<'a> {
    /// The text of the switch's address.
    pub control: &'a str,
    /// The seconds from one screen to the next.
    pub interval: u64,
    pub count: u64,
    /// The seconds for a reply.
    pub timeout: u64,
    /// Whether a screen takes the place of the one before.
    pub clears: bool,
}

// The prefix of a screen that takes the place of the one before.
const CLEAR: &[u8] = b"\x1b[H\x1b[J";

// Waits until so many seconds have passed.
fn wait<R: Clock>(clock: &R, begun: Instant, seconds: u64) -> Result<(), Failure>
    ensures { IfErr result (λ failure. failure ≡ Failure.PollFailed) }
{
    let Ok(now) = Instant::now(clock) else {
        return Err(Failure::PollFailed);
    };
    let passed = now.saturating_duration_since(begun);
    sleep(clock, Duration::from_secs(seconds).saturating_sub(passed));
    Ok(())
}

// The milliseconds from one time to another, of 32 bits and at least 1000.
fn millis_between(begun: Instant, next: Instant) -> u32
    ensures { 1000 ≤ result }
{
    let passed = next.saturating_duration_since(begun).as_millis();
    passed.min(u32::MAX as u128).max(1000) as u32
}

fn reading<R: Clock, D: Wire + Drop>(
    clock: &R,
    client: &mut Client<D>,
    earlier: Option<&Counters>,
) -> Result<Reading, Failure>
    ensures read { IfOk result (λ reading. Watches client.old client.new (λ history told. IsKnown history earlier.entry → AreCountersOf history told reading.counters)) }
    ensures fault { IfErr result IsUnasked }
    ensures no_output { IfErr result (λ failure. failure ≢ Failure.WriteFailed) }
{
    let reading = match read_counters(clock, client, earlier) {
        Ok(reading) => reading,
        Err(failure) => return Err(unasked(failure)),
    };
    match reading {
        Some(reading) => Ok(reading),
        None => Err(Failure::RulesChanged),
    }
}

fn print_screen<W: CountedWrite>(
    alloc: Global,
    clears: bool,
    readings: (&Counters, &Counters),
    millis: u32,
    out: &mut W,
) -> Result<(), Failure>
    requires { 1000 ≤ millis }
    ensures printed { OnOk result (Appends (W.contents out.old) (W.contents out.new)
        (clear_text clears ++ screen_text readings.entry.0.now readings.entry.1.now millis)) }
    ensures unwritten { IfErr result (λ failure. failure ≢ Failure.WriteFailed → out.new ≡ out.old) }
    ensures beginning { AppendsBeginning (W.contents out.old) (W.contents out.new)
        (clear_text clears ++ screen_text readings.entry.0.now readings.entry.1.now millis) }
    ensures fault { IfErr result IsUnasked }
    ensures device_failed { OutputFails result (W.failures out.old) (W.failures out.new) }
{
    let (earlier, later) = readings;
    let text = screen_text(alloc, earlier, later, millis)?;
    if clears {
        write_whole(CLEAR, out)?;
    }
    write_through(text.as_bytes(), out)
}

// Reads the counters again after the interval, and prints a screen.
fn next_screen<R: Clock, D: Wire + Drop, W: CountedWrite>(
    rt: &R,
    alloc: Global,
    client: &mut Client<D>,
    watching: Watching<'_>,
    earlier: (&Counters, Instant),
    out: &mut W,
) -> Result<Reading, Failure>
    ensures shown { IfOk result (λ later. ShowsMore watching.entry.clears earlier.entry.0 client.old client.new (W.contents out.old) (W.contents out.new) later.counters) }
    ensures unwritten { IfErr result (λ failure. failure ≢ Failure.WriteFailed → out.new ≡ out.old) }
    ensures begun { IfErr result (λ failure. failure ≡ Failure.WriteFailed
        → BeginsMore watching.entry.clears earlier.entry.0 client.old client.new (W.contents out.old) (W.contents out.new)) }
    ensures fault { IfErr result IsUnasked }
    ensures device_failed { OutputFails result (W.failures out.old) (W.failures out.new) }
{
    let (earlier, begun) = earlier;
    wait(rt, begun, watching.interval)?;
    let later = reading(rt, client, Some(earlier))?;
    let millis = millis_between(begun, later.begun);
    print_screen(
        alloc,
        watching.clears,
        (earlier, &later.counters),
        millis,
        out,
    )?;
    Ok(later)
}

// Prints the screens after a first reading.
fn print_screens<R: Clock, D: Wire + Drop, W: CountedWrite>(
    rt: &R,
    alloc: Global,
    client: &mut Client<D>,
    watching: Watching<'_>,
    out: &mut W,
) -> Result<(), Failure>
    ensures shown { OnOk result (Shows watching.entry.clears watching.entry.count client.old client.new (W.contents out.old) (W.contents out.new)) }
    ensures fewer { IfErr result (λ failure. failure ≢ Failure.WriteFailed
        → ShowsFewer watching.entry.clears watching.entry.count client.old.switch (W.contents out.old) (W.contents out.new)) }
    ensures begun { IfErr result (λ failure. failure ≡ Failure.WriteFailed
        → BeginsScreens watching.entry.clears watching.entry.count client.old.switch (W.contents out.old) (W.contents out.new)) }
    ensures fault { IfErr result IsUnasked }
    ensures device_failed { OutputFails result (W.failures out.old) (W.failures out.new) }
{
    let mut earlier = reading(rt, client, None)?;
    for _screen in 0..watching.count {
        let before = (&earlier.counters, earlier.begun);
        let later = next_screen(rt, alloc, client, watching, before, out)?;
        earlier = later;
    }
    Ok(())
}

fn print_top<R: Net + Clock, W: CountedWrite>(
    rt: &R,
    alloc: Global,
    reach: Reach<'_>,
    watching: Watching<'_>,
    out: &mut W,
) -> Result<(), Failure>
    ensures shown { OnOk result (WritesScreens (peer_of reach.entry.address) watching.entry.clears watching.entry.count
        (W.contents out.old) (W.contents out.new)) }
    ensures fewer { IfErr result (λ failure. failure ≢ Failure.WriteFailed
        → ShowsFewer watching.entry.clears watching.entry.count (peer_of reach.entry.address) (W.contents out.old) (W.contents out.new)) }
    ensures begun { IfErr result (λ failure. failure ≡ Failure.WriteFailed
        → BeginsScreens watching.entry.clears watching.entry.count (peer_of reach.entry.address) (W.contents out.old) (W.contents out.new)) }
    ensures fault { IfErr result (IsAskFault ⊥ reach.entry.address) }
    ensures device_failed { OutputFails result (W.failures out.old) (W.failures out.new) }
{
    let mut client = match client_of(rt, alloc, reach) {
        Ok(client) => client,
        Err(failure) => return Err(ask_failure(failure, reach.address)),
    };
    print_screens(rt, alloc, &mut client, watching, out)
}

/// Runs `top`.
pub fn run_top<R: Net + Clock, W: CountedWrite, E: Write>(
    rt: &R,
    alloc: Global,
    watching: Watching<'_>,
    out: &mut W,
    errs: &mut E,
) -> Status
    ensures done { result ≡ Status.Done
        → WritesTop watching.entry.control.now watching.entry.clears watching.entry.count (W.contents out.old) (W.contents out.new) }
    ensures refused { result ≡ Status.Refused
        → IsNoControlAddress watching.entry.control.now × Appends (W.contents out.old) (W.contents out.new) (codes "refused C1\n") }
    ensures no_errors { (result ≡ Status.Done) ⊎ (result ≡ Status.Refused) → errs.new ≡ errs.old }
    ensures never_misused { result ≡ Status.Misused → ⊥ }
    ensures failed { result ≡ Status.Failed → EndsInTopFailure watching.entry.control.now watching.entry.clears watching.entry.count
        (W.contents out.old) (W.contents out.new) (E.contents errs.old) (E.contents errs.new) }
    ensures device_failed { EndsByCause (TopFails watching.entry.control.now watching.entry.clears watching.entry.count
        (W.contents out.old) (W.contents out.new) (E.contents errs.old) (E.contents errs.new)) result (W.failures out.old) (W.failures out.new) }
{
    let control = watching.control;
    let Some(address) = ControlAddress::from_text(control) else {
        return refuse_address(out, errs);
    };
    let trouble = Cell::new(None);
    let reach = Reach {
        address,
        seconds: watching.timeout,
        trouble: &trouble,
    };
    match print_top(rt, alloc, reach, watching, out) {
        Ok(()) => Status::Done,
        Err(failure) => report(alloc, failure, control, reach, errs),
    }
}
