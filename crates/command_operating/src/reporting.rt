//! How a command that asks a switch fails: what happened to the connection, for people, and the line of the failure.

ghost use Rattle.std.specs.Prelude.{◌≡◌, IfErr, IfOk, IsSome, OnErr, OnOk, Some};
ghost use Rattle.command_line.specs.ControlAddress.{SpellsControlAddress};
ghost use Rattle.command_line.specs.Ending.{AppendsBeginning};
ghost use Rattle.command_operating.specs.Reported.{IsTold};
ghost use Rattle.command_operating.specs.Printing.{IsPath};
ghost use Rattle.control_client.specs.Trouble.{IsTroubleLine};

use command_line::{ControlAddress, Failure, Status, write_whole};
use control_client::{Reach, Trouble};
use std::alloc::Global;
use std::io::Write;

// Shows people what happened to a connection. If memory or a write fails, that is left out.
fn show_trouble<E: Write>(alloc: Global, trouble: Trouble, control: &str, errs: &mut E)
    ensures { (line : _) × IsTroubleLine control.now trouble line × AppendsBeginning (E.contents errs.old) (E.contents errs.new) line }
{
    if let Ok(line) = trouble.line(alloc, control) {
        let _ = write_whole(line.as_bytes(), errs);
        let _ = errs.flush();
    }
}

// The trouble with the connection to a path, if no reply came over it.
fn trouble_behind(failure: Failure, reach: Reach<'_>) -> Option<Trouble>
    ensures { IsSome result → (failure ≡ Failure.NoAnswer) × IsPath reach.entry.address }
{
    if failure != Failure::NoAnswer {
        return None;
    }
    match reach.address {
        ControlAddress::Udp(_) => None,
        ControlAddress::Unix(_) => reach.trouble.get(),
    }
}

/// Reports a failure of a command that asked the switch at an address.
pub(crate) fn report<E: Write>(
    alloc: Global,
    failure: Failure,
    control: &str,
    reach: Reach<'_>,
    errs: &mut E,
) -> Status
    requires { SpellsControlAddress control.now reach.address }
    ensures failed { result ≡ Status.Failed }
    ensures told { IsTold (Some control.now) failure (E.contents errs.old) (E.contents errs.new) }
{
    if let Some(trouble) = trouble_behind(failure, reach) {
        show_trouble(alloc, trouble, control, errs);
    }
    failure.report(errs)
}

/// Returns the status that such a command ended with. A failure is reported.
pub(crate) fn reported<E: Write>(
    alloc: Global,
    ended: Result<Status, Failure>,
    control: &str,
    reach: Reach<'_>,
    errs: &mut E,
) -> Status
    requires { SpellsControlAddress control.now reach.address }
    ensures status { IfOk ended (λ status. result ≡ status) }
    ensures untold { OnOk ended (errs.new ≡ errs.old) }
    ensures failed { OnErr ended (result ≡ Status.Failed) }
    ensures told { IfErr ended (λ failure. IsTold (Some control.now) failure (E.contents errs.old) (E.contents errs.new)) }
{
    match ended {
        Ok(status) => status,
        Err(failure) => report(alloc, failure, control, reach, errs),
    }
}
