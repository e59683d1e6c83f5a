//! Faults of a replay.

ghost use Rattle.std.specs.Prelude.{◌≡◌};
ghost use Rattle.control.specs.declared.fault.ReplayFault.TheVariants as replay_fault;

use std::alloc::AllocError;
use thiserror::Error;

/// Why a script was not replayed to its end.
#[derive(Clone, Copy, Debug, PartialEq, Eq, Error)]
pub enum ReplayFault {
    /// E1: a read failed.
    #[error("the script could not be read")]
    ReadFailed,
    /// E2: a write failed.
    #[error("a reply could not be written")]
    WriteFailed,
    /// E3: memory was refused.
    #[error("memory was refused")]
    OutOfMemory,
}

impl From<AllocError> for ReplayFault {
    ghost from_gives = { λ _ fault. fault ≡ replay_fault.OutOfMemory };

    fn from(_error: AllocError) -> ReplayFault {
        ReplayFault::OutOfMemory
    }
}
