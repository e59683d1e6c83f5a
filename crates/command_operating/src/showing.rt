//! The command `rules`: the rules of a running switch (docs/COMMANDS.md, "rules").

ghost use Rattle.std.specs.Prelude.{◌≡◌, ◌⊎◌, IfOk, Some, codes};
ghost use Rattle.std.specs.Io.KnownBytes.{Appends};
ghost use Rattle.command_line.specs.ControlAddress.{IsNoControlAddress};
ghost use Rattle.command_streams.specs.Endings.{EndsByCause};
ghost use Rattle.command_operating.specs.Printing.{EndsInPrintFailure, MayFailAsking, PrintFails};
ghost use Rattle.command_operating.specs.Showing.{IsRulesOf, PrintsRules, WritesRules};
ghost use Rattle.control_client.specs.Wire.{peer_of};

use crate::reaching::{ask_failure, client_of};
use crate::refuse_address;
use crate::reporting::report;
use command_line::{ControlAddress, Status};
use command_streams::{CountedWrite, write_through};
use control_client::{Reach, Wire};
use control_rules::{AskFailure, Client, read_rules};
use std::alloc::Global;
use std::cell::Cell;
use std::io::Write;
use std::net::Net;
use std::time::Clock;

// The rules of a client's switch, as a rules file.
fn rules_text<D: Wire + Drop>(client: &mut Client<D>) -> Result<Vec<u8>, AskFailure>
    ensures { IfOk result (λ text. IsRulesOf client.old.switch text.items) }
{
    match read_rules(client)? {
        Some(rules) => Ok(rules.text),
        None => Err(AskFailure::RulesChanged),
    }
}

// The same of the switch at an address.
fn rules_of<R: Net + Clock>(rt: &R, alloc: Global, reach: Reach<'_>) -> Result<Vec<u8>, AskFailure>
    ensures { IfOk result (λ text. IsRulesOf (peer_of reach.entry.address) text.items) }
{
    let mut client = client_of(rt, alloc, reach)?;
    rules_text(&mut client)
}

/// Runs `rules` with the text of the switch's address, and the seconds for a reply.
pub fn run_rules<R: Net + Clock, W: CountedWrite, E: Write>(
    rt: &R,
    alloc: Global,
    control: &str,
    seconds: u64,
    out: &mut W,
    errs: &mut E,
) -> Status
    ensures done { result ≡ Status.Done → WritesRules control.now (W.contents out.old) (W.contents out.new) }
    ensures refused { result ≡ Status.Refused
        → IsNoControlAddress control.now × Appends (W.contents out.old) (W.contents out.new) (codes "refused C1\n") }
    ensures no_errors { (result ≡ Status.Done) ⊎ (result ≡ Status.Refused) → errs.new ≡ errs.old }
    ensures never_misused { result ≡ Status.Misused → ⊥ }
    ensures failed { result ≡ Status.Failed
        → EndsInPrintFailure (PrintsRules control.now) (MayFailAsking ⊥ control.now) (Some control.now)
        (W.contents out.old) (W.contents out.new) (E.contents errs.old) (E.contents errs.new) }
    ensures device_failed { EndsByCause
        (PrintFails (PrintsRules control.now) (MayFailAsking ⊥ control.now) (Some control.now)
        (W.contents out.old) (W.contents out.new) (E.contents errs.old) (E.contents errs.new)) result (W.failures out.old) (W.failures out.new) }
{
    let Some(address) = ControlAddress::from_text(control) else {
        return refuse_address(out, errs);
    };
    let trouble = Cell::new(None);
    let reach = Reach {
        address,
        seconds,
        trouble: &trouble,
    };
    let text = match rules_of(rt, alloc, reach) {
        Ok(text) => text,
        Err(failure) => return report(alloc, ask_failure(failure, address), control, reach, errs),
    };
    match write_through(&text, out) {
        Ok(()) => Status::Done,
        Err(failure) => report(alloc, failure, control, reach, errs),
    }
}
