//! The operator's commands: `tell`, `rules`, `load`, `drain`, `metrics` and `top` ask a running switch over its address of control, and
//! change or show what it has (docs/COMMANDS.md).
//!
//! Each is a function from the command's arguments to its exit status. `opening` also reads the rules file of `serve`. Files are read by
//! `ReadFiles`, which counts their failures.
#![tactic(auto)]

ghost use Rattle.std.specs.Prelude.{◌≡◌, codes};
ghost use Rattle.std.specs.Io.KnownBytes.{Appends};
ghost use Rattle.command_line.specs.Ending.{AppendsBeginning, line_of};
ghost use Rattle.command_line.specs.declared.ending.Failure.TheVariants as failure;
ghost use Rattle.command_streams.specs.Endings.{EndsByCause};

mod draining;
mod files;
mod loading;
mod measuring;
mod printing;
mod reaching;
mod refused;
mod reporting;
mod rules_file;
mod showing;
mod telling;
mod watching;

use command_line::Status;
use command_streams::{CountedWrite, write_through};
pub use draining::{Draining, run_drain};
pub use files::{ReadFiles, SystemFiles};
pub use loading::{Loading, run_load};
pub use measuring::run_metrics;
pub use rules_file::opening;
pub use showing::run_rules;
use std::io::Write;
pub use telling::run_tell;
pub use watching::{Watching, run_top};

/// Refuses a text that is no address: prints `refused C1`.
pub fn refuse_address<W: CountedWrite, E: Write>(out: &mut W, errs: &mut E) -> Status
    ensures refused { result ≡ Status.Refused → Appends (W.contents out.old) (W.contents out.new) (codes "refused C1\n") }
    ensures beginning { AppendsBeginning (W.contents out.old) (W.contents out.new) (codes "refused C1\n") }
    ensures no_errors { result ≡ Status.Refused → errs.new ≡ errs.old }
    ensures never_done { result ≡ Status.Done → ⊥ }
    ensures never_misused { result ≡ Status.Misused → ⊥ }
    ensures failed { result ≡ Status.Failed → AppendsBeginning (E.contents errs.old) (E.contents errs.new) (line_of failure.WriteFailed) }
    ensures device_failed { EndsByCause (λ cause. cause ≡ failure.WriteFailed) result (W.failures out.old) (W.failures out.new) }
{
    match write_through(b"refused C1\n".as_slice(), out) {
        Ok(()) => Status::Refused,
        Err(failure) => failure.report(errs),
    }
}
