//! Why a world refuses.

ghost use Rattle.std.specs.Prelude.{◌≡◌};
ghost use Rattle.versions.specs.declared.fault.StepFault.TheVariants.{OutOfMemory};

use std::alloc::AllocError;

/// Why a world was not made, or made no step. The world is then as before.
#[derive(Clone, Copy, Debug, PartialEq, Eq)]
pub enum StepFault {
    /// The step is not legal here, whatever word it would load or store.
    NotLegal,
    /// An allocation was refused, and nothing was changed.
    OutOfMemory,
    /// The configuration's charge is above `CHARGE_LIMIT`.
    TooBig,
}

impl From<AllocError> for StepFault {
    ghost from_gives = { λ _ fault. fault ≡ OutOfMemory };

    fn from(_error: AllocError) -> StepFault {
        StepFault::OutOfMemory
    }
}
