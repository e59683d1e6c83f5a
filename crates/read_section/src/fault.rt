//! Why a table is not opened.

ghost use Rattle.std.specs.Prelude.{◌≡◌};
ghost use Rattle.read_section.specs.declared.fault.OpenFault.TheVariants.{OutOfMemory};

use std::alloc::AllocError;

/// Why `open` made no table.
#[derive(Clone, Copy, Debug, PartialEq, Eq)]
pub enum OpenFault {
    /// O1: the configuration's charge is above `CHARGE_LIMIT`.
    TooBig,
    /// O2: an allocation was refused.
    OutOfMemory,
}

impl From<AllocError> for OpenFault {
    ghost from_gives = { λ _ fault. fault ≡ OutOfMemory };

    fn from(_: AllocError) -> OpenFault {
        OpenFault::OutOfMemory
    }
}
