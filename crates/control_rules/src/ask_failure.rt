//! Why a switch could not be asked.

ghost use Rattle.std.specs.Prelude.{◌≡◌, ◌≢◌};
ghost use Rattle.control_rules.specs.Asked.{failure_of};
ghost use Rattle.control_rules.specs.declared.ask_failure.AskFailure.TheVariants.{OutOfMemory};
ghost use Rattle.command_line.specs.declared.ending.Failure.TheVariants as failure;

use command_line::Failure;
use std::alloc::AllocError;

/// Why a switch could not be asked. No results are written meanwhile, so it is never that a write failed.
#[derive(Clone, Copy, Debug, PartialEq, Eq)]
pub enum AskFailure {
    /// The lines to send could not be read.
    ReadFailed,
    OutOfMemory,
    /// A socket could not be bound.
    BindFailed,
    /// Waiting for the socket failed.
    PollFailed,
    /// A line had no reply.
    NoAnswer,
    /// The rules changed while they were read, each time.
    RulesChanged,
}

impl AskFailure {
    /// Returns why a call failed that writes no results and starts no thread.
    pub fn of(failure: Failure) -> AskFailure
        requires unwritten { failure ≢ Failure.WriteFailed }
        requires no_thread { failure ≢ Failure.SpawnFailed }
        ensures { failure_of result ≡ failure }
    {
        match failure {
            Failure::ReadFailed => AskFailure::ReadFailed,
            Failure::OutOfMemory => AskFailure::OutOfMemory,
            Failure::BindFailed => AskFailure::BindFailed,
            Failure::PollFailed => AskFailure::PollFailed,
            Failure::NoAnswer => AskFailure::NoAnswer,
            Failure::RulesChanged => AskFailure::RulesChanged,
            Failure::WriteFailed | Failure::SpawnFailed => unreachable!(),
        }
    }
}

impl From<AllocError> for AskFailure {
    ghost from_gives = { λ _ failure. failure ≡ OutOfMemory };

    fn from(_error: AllocError) -> AskFailure {
        AskFailure::OutOfMemory
    }
}

impl From<AskFailure> for Failure {
    ghost from_gives = { λ asked given. (given ≡ failure_of asked) × (given ≢ failure.WriteFailed) };

    fn from(failure: AskFailure) -> Failure {
        match failure {
            AskFailure::ReadFailed => Failure::ReadFailed,
            AskFailure::OutOfMemory => Failure::OutOfMemory,
            AskFailure::BindFailed => Failure::BindFailed,
            AskFailure::PollFailed => Failure::PollFailed,
            AskFailure::NoAnswer => Failure::NoAnswer,
            AskFailure::RulesChanged => Failure::RulesChanged,
        }
    }
}
