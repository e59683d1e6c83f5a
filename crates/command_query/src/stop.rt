//! Why a command has no result: a refusal (docs/COMMANDS.md, "Refusals"), or a failure.

ghost use Rattle.std.specs.Prelude.{◌≡◌};
ghost use Rattle.command_query.specs.body.Stop.{stop_of_format, stop_of_text};
ghost use Rattle.command_line.specs.declared.ending.Failure.TheVariants.{OutOfMemory};
ghost use Rattle.command_query.specs.declared.stop.Stop.TheVariants.{Failed};

use bpf_formats::FormatFault;
use command_line::Failure;
use control_line::Reason;
use filter_program::TextFault;
use std::alloc::AllocError;

/// Why a command has no result.
#[derive(Clone, Copy)]
pub enum Stop {
    Refused(Reason),
    /// The text of a program is not in its format. It is never `OutOfMemory`.
    Misformed(FormatFault),
    Failed(Failure),
}

impl From<AllocError> for Stop {
    ghost from_gives = { λ _ stop. stop ≡ Failed OutOfMemory };

    fn from(_error: AllocError) -> Stop {
        Stop::Failed(Failure::OutOfMemory)
    }
}

impl From<Failure> for Stop {
    ghost from_gives = { λ failure stop. stop ≡ Failed failure };

    fn from(failure: Failure) -> Stop {
        Stop::Failed(failure)
    }
}

impl From<TextFault> for Stop {
    ghost from_gives = { λ fault stop. stop ≡ stop_of_text fault };

    fn from(fault: TextFault) -> Stop {
        match Reason::of_text(fault) {
            Some(reason) => Stop::Refused(reason),
            None => Stop::Failed(Failure::OutOfMemory),
        }
    }
}

impl From<FormatFault> for Stop {
    ghost from_gives = { λ fault stop. stop ≡ stop_of_format fault };

    fn from(fault: FormatFault) -> Stop {
        match fault {
            FormatFault::OutOfMemory => Stop::Failed(Failure::OutOfMemory),
            fault => Stop::Misformed(fault),
        }
    }
}
