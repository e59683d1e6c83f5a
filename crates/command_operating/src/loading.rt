//! The command `load`: the rules of a file for a running switch (docs/COMMANDS.md, "load").

ghost use Rattle.std.specs.Prelude.{◌≡◌, ◌≢◌, ◌≤◌, ◌⊎◌, ◌++◌, IfErr, IfOk, MatchOption, None, OnErr, OnOk, Some, codes, length, option_map, true, ℕ};
ghost use Rattle.std.specs.Io.KnownBytes.{Appends};
ghost use Rattle.control_client.specs.Wire.{peer_of};
ghost use Rattle.control_line.specs.Rules.{IsConfigOf};
ghost use Rattle.command_explain.specs.Meaning.{file_line};
ghost use Rattle.command_line.specs.ControlAddress.{SpellsControlAddress};
ghost use Rattle.command_line.specs.Ending.{AppendsBeginning};
ghost use Rattle.command_line.specs.declared.ending.Failure.TheVariants as failure;
ghost use Rattle.command_streams.specs.Endings.{EndsByOneCause};
ghost use Rattle.command_streams.specs.Failures.{OutputFails};
ghost use Rattle.command_operating.specs.Printing.{Begins, EndsInPrintFailure, IsAskFault, PrintFails};
ghost use Rattle.command_operating.specs.Showing.{IsNoSwitch, LoadsInto, MayFailLoading, PrintsLoad, RefusesLoad, ShowsFileRefusal, WritesLoad, loaded_line, loaded_status, measures_line, version_line};
ghost use Rattle.command_operating.specs.body.Asked.{IsAsked, IsUnasked};
ghost use Rattle.command_operating.specs.body.Changes.{BeginsLoaded, BeginsReplaced, PrintsChanges, PrintsLoaded, ReplacesAs};

use crate::files::ReadFiles;
use crate::printing::print_line;
use crate::reaching::{ask_failure, client_of, unasked};
use crate::refuse_address;
use crate::refused::write_flushed;
use crate::reporting::reported;
use crate::rules_file::{RulesFile, open_file};
use command_explain::{file_fault_text, shown_code};
use command_line::{ControlAddress, Failure, Status};
use command_streams::{CountedWrite, write_through};
use control_client::{Reach, Wire};
use control_line::Reply;
use control_rules::{AskFailure, Client, Loaded, differences, load};
use member_group::Config;
use std::alloc::Global;
use std::cell::Cell;
use std::io::Write;
use std::net::Net;
use std::time::Clock;

/// The arguments of `load`.
#[derive(Clone, Copy)]
pub struct Loading<'a> {
    /// The text of the switch's address.
    pub control: Option<&'a str>,
    /// The seconds for a reply.
    pub timeout: u64,
    pub file: &'a str,
    pub check: bool,
    pub diff: bool,
}

// The text of a switch's address, and the address.
fn switch_of<'a>(control: Option<&'a str>) -> Option<(&'a str, ControlAddress<'a>)>
    ensures { MatchOption result (IsNoSwitch (option_map (λ address. address.now) control.entry))
        (λ asked. IsAsked (option_map (λ address. address.now) control.entry) asked.0.now asked.1) }
{
    let control = control?;
    Some((control, ControlAddress::from_text(control)?))
}

fn measures(config: &Config) -> Reply
    ensures { result ≡ measures_line config.now }
{
    let mut line = Reply::empty();
    line.push("groups ");
    line.push_number(config.groups().len() as u64);
    line.push(" members ");
    line.push_number(config.members() as u64);
    line.push(" charge ");
    line.push_number(config.charge());
    line
}

pub(crate) fn version_line(version: u64, rest: &str) -> Reply
    requires { length rest.now ≤ 16 }
    ensures { result ≡ version_line version rest.now }
{
    let mut line = Reply::empty();
    line.push("version ");
    line.push_number(version);
    line.push(rest);
    line
}

// Prints the lines that lead from the rules of a client's switch to a configuration.
fn print_differences<D: Wire + Drop, W: CountedWrite>(
    client: &mut Client<D>,
    config: &Config,
    out: &mut W,
) -> Result<Status, Failure>
    ensures done { IfOk result (λ status. status ≡ Status.Done) }
    ensures shown { OnOk result (PrintsChanges client.old.switch config.now (W.contents out.old) (W.contents out.new)) }
    ensures unwritten { IfErr result (λ failure. failure ≢ Failure.WriteFailed → out.new ≡ out.old) }
    ensures begun { IfErr result (λ failure. failure ≡ Failure.WriteFailed
        → Begins (PrintsChanges client.old.switch config.now) (W.contents out.old) (W.contents out.new)) }
    ensures fault { IfErr result IsUnasked }
    ensures device_failed { OutputFails result (W.failures out.old) (W.failures out.new) }
{
    let changes = match differences(client, config) {
        Ok(changes) => changes,
        Err(failure) => return Err(unasked(failure)),
    };
    let Some(changes) = changes else {
        return Err(Failure::RulesChanged);
    };
    write_through(&changes, out)?;
    Ok(Status::Done)
}

// The same for the switch at an address.
fn print_changes<R: Net + Clock, W: CountedWrite>(
    rt: &R,
    alloc: Global,
    reach: Reach<'_>,
    config: &Config,
    out: &mut W,
) -> Result<Status, Failure>
    ensures done { IfOk result (λ status. status ≡ Status.Done) }
    ensures shown { OnOk result (PrintsChanges (peer_of reach.entry.address) config.now (W.contents out.old) (W.contents out.new)) }
    ensures unwritten { IfErr result (λ failure. failure ≢ Failure.WriteFailed → out.new ≡ out.old) }
    ensures begun { IfErr result (λ failure. failure ≡ Failure.WriteFailed
        → Begins (PrintsChanges (peer_of reach.entry.address) config.now) (W.contents out.old) (W.contents out.new)) }
    ensures fault { IfErr result (IsAskFault ⊥ reach.entry.address) }
    ensures device_failed { OutputFails result (W.failures out.old) (W.failures out.new) }
{
    let mut client = match client_of(rt, alloc, reach) {
        Ok(client) => client,
        Err(failure) => return Err(ask_failure(failure, reach.address)),
    };
    print_differences(&mut client, config, out)
}

fn show_changes<R: Net + Clock, W: CountedWrite, E: Write>(
    rt: &R,
    alloc: Global,
    asked: (&str, Reach<'_>),
    config: &Config,
    out: &mut W,
    errs: &mut E,
) -> Status
    requires { SpellsControlAddress asked.0.now asked.1.address }
    ensures done { result ≡ Status.Done → PrintsChanges (peer_of asked.entry.1.address) config.now (W.contents out.old) (W.contents out.new) }
    ensures done_or_failed { (result ≡ Status.Done) ⊎ (result ≡ Status.Failed) }
    ensures no_errors { result ≡ Status.Done → errs.new ≡ errs.old }
    ensures failed { result ≡ Status.Failed
        → EndsInPrintFailure (PrintsChanges (peer_of asked.entry.1.address) config.now) (IsAskFault ⊥ asked.entry.1.address) (Some asked.entry.0.now)
        (W.contents out.old) (W.contents out.new) (E.contents errs.old) (E.contents errs.new) }
    ensures device_failed { (read : ℕ) → EndsByOneCause
        (PrintFails (PrintsChanges (peer_of asked.entry.1.address) config.now) (IsAskFault ⊥ asked.entry.1.address) (Some asked.entry.0.now)
        (W.contents out.old) (W.contents out.new) (E.contents errs.old) (E.contents errs.new)) result read read (W.failures out.old) (W.failures out.new) }
{
    let (control, reach) = asked;
    let ended = print_changes(rt, alloc, reach, config, out);
    reported(alloc, ended, control, reach, errs)
}

// Prints how the replacing of the rules ended.
fn print_loaded<W: CountedWrite>(loaded: &Loaded, out: &mut W) -> Result<Status, Failure>
    ensures status { IfOk result (λ status. status ≡ loaded_status loaded.now) }
    ensures done_or_refused { IfOk result (λ status. (status ≡ Status.Done) ⊎ (status ≡ Status.Refused)) }
    ensures printed { OnOk result (Appends (W.contents out.old) (W.contents out.new) (loaded_line loaded.now ++ codes "\n")) }
    ensures unwritten { IfErr result (λ failure. failure ≢ Failure.WriteFailed → out.new ≡ out.old) }
    ensures begun { IfErr result (λ failure. failure ≡ Failure.WriteFailed → BeginsLoaded loaded.now (W.contents out.old) (W.contents out.new)) }
    ensures fault { IfErr result IsUnasked }
    ensures device_failed { OutputFails result (W.failures out.old) (W.failures out.new) }
{
    match loaded {
        Loaded::Unchanged { version } => {
            print_line(version_line(*version, " unchanged").bytes(), out)?;
            Ok(Status::Done)
        }
        Loaded::Published { version } => {
            print_line(version_line(*version, "").bytes(), out)?;
            Ok(Status::Done)
        }
        Loaded::Refused(reply) => {
            print_line(reply, out)?;
            Ok(Status::Refused)
        }
        Loaded::Changed => Err(Failure::RulesChanged),
    }
}

// Makes the rules of a switch those of the file.
fn replaced<R: Net + Clock>(
    rt: &R,
    alloc: Global,
    reach: Reach<'_>,
    file: &RulesFile,
) -> Result<Loaded, AskFailure>
    requires { IsConfigOf file.now.text.items file.now.config }
    ensures loaded { IfOk result (LoadsInto (peer_of reach.entry.address) file.now.text.items file.now.config) }
{
    let mut client = client_of(rt, alloc, reach)?;
    load(rt, &mut client, &file.text, &file.config)
}

// Writes what a code means for a file of this name.
fn write_meaning<E: Write>(
    alloc: Global,
    name: &str,
    code: &str,
    errs: &mut E,
) -> Result<(), Failure>
    ensures written { OnOk result (Appends (E.contents errs.old) (E.contents errs.new) (file_line name.now code.now)) }
    ensures beginning { AppendsBeginning (E.contents errs.old) (E.contents errs.new) (file_line name.now code.now) }
{
    let text = file_fault_text(alloc, name, code)?;
    write_flushed(&text, errs)
}

// Shows people why a switch refuses the rules of a file of this name. If memory or a write fails, that is left out.
fn show_refusal<E: Write>(alloc: Global, name: &str, reply: &[u8], errs: &mut E)
    ensures { ShowsFileRefusal name.now reply.now (E.contents errs.old) (E.contents errs.new) }
{
    match shown_code(reply) {
        Some(shown) => {
            let _ = write_meaning(alloc, name, shown.code, errs);
        }
        None => {}
    }
}

// Makes the rules of a switch those of the file of this name, and prints how that ended.
fn print_replaced<R: Net + Clock, W: CountedWrite, E: Write>(
    rt: &R,
    alloc: Global,
    reach: Reach<'_>,
    named: (&str, &RulesFile),
    out: &mut W,
    errs: &mut E,
) -> Result<Status, Failure>
    requires { IsConfigOf named.1.now.text.items named.1.now.config }
    ensures printed { IfOk result (ReplacesAs (peer_of reach.entry.address) named.entry.1.now.text.items named.entry.1.now.config
        (W.contents out.old) (W.contents out.new)) }
    ensures done_or_refused { IfOk result (λ status. (status ≡ Status.Done) ⊎ (status ≡ Status.Refused)) }
    ensures no_errors { IfOk result (λ status. status ≡ Status.Done → errs.new ≡ errs.old) }
    ensures unshown { OnErr result (errs.new ≡ errs.old) }
    ensures unwritten { IfErr result (λ failure. failure ≢ Failure.WriteFailed → out.new ≡ out.old) }
    ensures begun { IfErr result (λ failure. failure ≡ Failure.WriteFailed
        → BeginsReplaced (peer_of reach.entry.address) named.entry.1.now.text.items named.entry.1.now.config (W.contents out.old) (W.contents out.new)) }
    ensures fault { IfErr result (IsAskFault ⊥ reach.entry.address) }
    ensures device_failed { OutputFails result (W.failures out.old) (W.failures out.new) }
{
    let (name, file) = named;
    let loaded = match replaced(rt, alloc, reach, file) {
        Ok(loaded) => loaded,
        Err(failure) => return Err(ask_failure(failure, reach.address)),
    };
    let status = print_loaded(&loaded, out)?;
    match loaded {
        Loaded::Refused(reply) => {
            show_refusal(alloc, name, &reply, errs);
            Ok(status)
        }
        _ => Ok(status),
    }
}

fn replace<R: Net + Clock, W: CountedWrite, E: Write>(
    rt: &R,
    alloc: Global,
    asked: (&str, Reach<'_>),
    named: (&str, &RulesFile),
    out: &mut W,
    errs: &mut E,
) -> Status
    requires config { IsConfigOf named.1.now.text.items named.1.now.config }
    requires address { SpellsControlAddress asked.0.now asked.1.address }
    ensures printed { (result ≡ Status.Failed → ⊥) → ReplacesAs (peer_of asked.entry.1.address) named.entry.1.now.text.items named.entry.1.now.config
        (W.contents out.old) (W.contents out.new) result }
    ensures no_errors { result ≡ Status.Done → errs.new ≡ errs.old }
    ensures never_misused { result ≡ Status.Misused → ⊥ }
    ensures failed { result ≡ Status.Failed
        → EndsInPrintFailure (PrintsLoaded (peer_of asked.entry.1.address) named.entry.1.now.text.items named.entry.1.now.config) (IsAskFault ⊥ asked.entry.1.address) (Some asked.entry.0.now)
        (W.contents out.old) (W.contents out.new) (E.contents errs.old) (E.contents errs.new) }
    ensures device_failed { (read : ℕ) → EndsByOneCause
        (PrintFails (PrintsLoaded (peer_of asked.entry.1.address) named.entry.1.now.text.items named.entry.1.now.config) (IsAskFault ⊥ asked.entry.1.address) (Some asked.entry.0.now)
        (W.contents out.old) (W.contents out.new) (E.contents errs.old) (E.contents errs.new)) result read read (W.failures out.old) (W.failures out.new) }
{
    let (control, reach) = asked;
    let ended = print_replaced(rt, alloc, reach, named, out, errs);
    reported(alloc, ended, control, reach, errs)
}

// Prints the measures of a file, and asks no switch.
fn check_file<F: ReadFiles, W: CountedWrite, E: Write>(
    alloc: Global,
    loading: Loading<'_>,
    files: &mut F,
    out: &mut W,
    errs: &mut E,
) -> Status
    ensures done { result ≡ Status.Done → WritesLoad (option_map (λ address. address.now) loading.entry.control) (F.contents files.old loading.entry.file.now)
        (W.contents out.old) (W.contents out.new) true loading.entry.diff }
    ensures refused { result ≡ Status.Refused → RefusesLoad (option_map (λ address. address.now) loading.entry.control) (F.contents files.old loading.entry.file.now)
        (W.contents out.old) (W.contents out.new) true loading.entry.diff }
    ensures no_errors { result ≡ Status.Done → errs.new ≡ errs.old }
    ensures never_misused { result ≡ Status.Misused → ⊥ }
    ensures failed { result ≡ Status.Failed → EndsInPrintFailure
        (PrintsLoad (option_map (λ address. address.now) loading.entry.control) (F.contents files.old loading.entry.file.now) true loading.entry.diff)
        (MayFailLoading (option_map (λ address. address.now) loading.entry.control) true) (option_map (λ address. address.now) loading.entry.control)
        (W.contents out.old) (W.contents out.new) (E.contents errs.old) (E.contents errs.new) }
    ensures device_failed { EndsByOneCause (PrintFails
        (PrintsLoad (option_map (λ address. address.now) loading.entry.control) (F.contents files.old loading.entry.file.now) true loading.entry.diff)
        (MayFailLoading (option_map (λ address. address.now) loading.entry.control) true) (option_map (λ address. address.now) loading.entry.control)
        (W.contents out.old) (W.contents out.new) (E.contents errs.old) (E.contents errs.new)) result
        (F.failures files.old) (F.failures files.new) (W.failures out.old) (W.failures out.new) }
{
    let file = match open_file(alloc, loading.file, files, out, errs) {
        Ok(file) => file,
        Err(status) => return status,
    };
    match print_line(measures(&file.config).bytes(), out) {
        Ok(()) => Status::Done,
        Err(failure) => failure.report(errs),
    }
}

/// Runs `load`.
pub fn run_load<R: Net + Clock, F: ReadFiles, W: CountedWrite, E: Write>(
    rt: &R,
    alloc: Global,
    loading: Loading<'_>,
    files: &mut F,
    out: &mut W,
    errs: &mut E,
) -> Status
    ensures done { result ≡ Status.Done → WritesLoad (option_map (λ address. address.now) loading.entry.control) (F.contents files.old loading.entry.file.now)
        (W.contents out.old) (W.contents out.new) loading.entry.check loading.entry.diff }
    ensures refused { result ≡ Status.Refused → RefusesLoad (option_map (λ address. address.now) loading.entry.control) (F.contents files.old loading.entry.file.now)
        (W.contents out.old) (W.contents out.new) loading.entry.check loading.entry.diff }
    ensures no_errors { result ≡ Status.Done → errs.new ≡ errs.old }
    ensures never_misused { result ≡ Status.Misused → ⊥ }
    ensures failed { result ≡ Status.Failed → EndsInPrintFailure
        (PrintsLoad (option_map (λ address. address.now) loading.entry.control) (F.contents files.old loading.entry.file.now) loading.entry.check loading.entry.diff)
        (MayFailLoading (option_map (λ address. address.now) loading.entry.control) loading.entry.check) (option_map (λ address. address.now) loading.entry.control)
        (W.contents out.old) (W.contents out.new) (E.contents errs.old) (E.contents errs.new) }
    ensures device_failed { EndsByOneCause (PrintFails
        (PrintsLoad (option_map (λ address. address.now) loading.entry.control) (F.contents files.old loading.entry.file.now) loading.entry.check loading.entry.diff)
        (MayFailLoading (option_map (λ address. address.now) loading.entry.control) loading.entry.check) (option_map (λ address. address.now) loading.entry.control)
        (W.contents out.old) (W.contents out.new) (E.contents errs.old) (E.contents errs.new)) result
        (F.failures files.old) (F.failures files.new) (W.failures out.old) (W.failures out.new) }
{
    if loading.check {
        return check_file(alloc, loading, files, out, errs);
    }
    let Some((control, address)) = switch_of(loading.control) else {
        return refuse_address(out, errs);
    };
    let trouble = Cell::new(None);
    let reach = Reach {
        address,
        seconds: loading.timeout,
        trouble: &trouble,
    };
    let file = match open_file(alloc, loading.file, files, out, errs) {
        Ok(file) => file,
        Err(status) => return status,
    };
    if loading.diff {
        return show_changes(rt, alloc, (control, reach), &file.config, out, errs);
    }
    let named = (loading.file, &file);
    replace(rt, alloc, (control, reach), named, out, errs)
}
