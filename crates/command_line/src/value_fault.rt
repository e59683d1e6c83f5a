//! The fault of a value that `clap` accepts, but that is invalid.

ghost use Rattle.std.specs.Prelude.{◌≡◌, IfOk};
ghost use Rattle.clap.specs.Words.{kind_of};

use crate::builders::{serve_command, spread_command};
use crate::found::{value_of, values_of};
use crate::shares;
use clap::error::ErrorKind;
use clap::{ArgMatches, Command, Error};
use std::alloc::{AllocError, Global};

// The fault of a value, with the help of the command, if memory for it was found.
fn fault_of(
    command: Result<Command, AllocError>,
    name: &str,
    message: &str,
) -> Result<Error, AllocError>
    ensures { IfOk result (λ fault. kind_of fault ≡ ErrorKind.InvalidValue) }
{
    let mut command = command?.bin_name(name)?;
    command.error(ErrorKind::InvalidValue, message)
}

// The fault of a text that names no way to receive.
fn way_fault(alloc: Global, text: &str) -> Result<Error, AllocError>
    ensures { IfOk result (λ fault. kind_of fault ≡ ErrorKind.InvalidValue) }
{
    let message = format!(in alloc;
        "invalid value '{text}' for '--receive <WAY>'\n  [possible values: queued, direct]"
    )?;
    fault_of(serve_command(alloc), "dswitch serve", message.as_str())
}

// The fault of a value of `spread`.
fn spread_fault(alloc: Global, found: &ArgMatches) -> Result<Error, AllocError>
    ensures { IfOk result (λ fault. kind_of fault ≡ ErrorKind.InvalidValue) }
{
    let words = values_of(alloc, found, "ID=WEIGHT")?;
    let buckets = value_of(found, "buckets");
    let by = value_of(found, "by");
    let message = shares::fault_text(alloc, buckets, by, &words)?;
    fault_of(spread_command(alloc), "dswitch spread", message.as_str())
}

// The fault of a value that `clap` accepts, but that is invalid.
pub(crate) fn value_fault(
    alloc: Global,
    name: &str,
    found: &ArgMatches,
) -> Result<Error, AllocError>
    ensures { IfOk result (λ fault. kind_of fault ≡ ErrorKind.InvalidValue) }
{
    if name == "spread" {
        return spread_fault(alloc, found);
    }
    way_fault(alloc, value_of(found, "receive"))
}
