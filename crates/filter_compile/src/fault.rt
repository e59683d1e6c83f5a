//! Why an expression is not compiled.

ghost use Rattle.std.specs.Prelude.{◌≡◌};
ghost use Rattle.filter_compile.specs.Code.{compile_code};
ghost use Rattle.filter_compile.specs.declared.fault.CompileFault.TheVariants.{OutOfMemory};

use fault_code::Code;
use std::alloc::AllocError;

/// Why an expression was not compiled.
#[derive(Clone, Copy, Debug, PartialEq, Eq)]
pub enum CompileFault {
    /// F1: its cells, the most that its program uses, are above 16.
    CellsExceeded,
    /// F2: its size is above 4096.
    TooLong,
    /// F3: an allocation was refused.
    OutOfMemory,
}

impl CompileFault {
    /// Returns the code (docs/COMMANDS.md, "Refusals").
    pub fn code(self) -> Code
        ensures { result ≡ compile_code self }
    {
        match self {
            CompileFault::CellsExceeded => Code::plain('F', 1),
            CompileFault::TooLong => Code::plain('F', 2),
            CompileFault::OutOfMemory => Code::plain('F', 3),
        }
    }
}

impl From<AllocError> for CompileFault {
    ghost from_gives = { λ _ fault. fault ≡ OutOfMemory };

    fn from(_error: AllocError) -> CompileFault {
        CompileFault::OutOfMemory
    }
}
