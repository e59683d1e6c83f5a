//! Why a text is not assembled.

ghost use Rattle.std.specs.Prelude.{◌≡◌};
ghost use Rattle.bpf_asm.specs.Code.{asm_code};
ghost use Rattle.bpf_asm.specs.declared.fault.AsmFault.TheVariants.{OutOfMemory};

use fault_code::Code;
use std::alloc::{AllocError, AllocFailed};

/// Why a text is not assembled. Lines are counted from 1, empty ones included.
#[derive(Clone, Copy, Debug, PartialEq, Eq)]
pub enum AsmFault {
    /// A1: the first line that is in no form of docs/MACHINE.md, "Assembly text".
    Syntax { line: usize },
    /// A2: a jump of the line goes to a name that no line defines.
    UnknownLabel { line: usize },
    /// A3: the first line that defines a name which an earlier line defines.
    DoubleLabel { line: usize },
    /// A4: a jump of the line goes to a label at its own instruction or before it.
    BackwardJump { line: usize },
    /// A5: an offset of the line is above 255 in a conditional jump, or above 4294967295 in `ja`.
    TooFar { line: usize },
    /// A6: memory for the labels or the words was refused.
    OutOfMemory,
}

impl AsmFault {
    /// Returns the code (docs/COMMANDS.md, "Refusals").
    pub fn code(self) -> Code
        ensures { result ≡ asm_code self }
    {
        match self {
            AsmFault::Syntax { line } => Code::at('A', 1, line),
            AsmFault::UnknownLabel { line } => Code::at('A', 2, line),
            AsmFault::DoubleLabel { line } => Code::at('A', 3, line),
            AsmFault::BackwardJump { line } => Code::at('A', 4, line),
            AsmFault::TooFar { line } => Code::at('A', 5, line),
            AsmFault::OutOfMemory => Code::plain('A', 6),
        }
    }
}

impl From<AllocError> for AsmFault {
    ghost from_gives = { λ _ fault. fault ≡ OutOfMemory };

    fn from(_error: AllocError) -> AsmFault {
        AsmFault::OutOfMemory
    }
}

impl<T: Drop> From<AllocFailed<T>> for AsmFault {
    ghost from_gives = { λ _ fault. fault ≡ OutOfMemory };

    fn from(_error: AllocFailed<T>) -> AsmFault {
        AsmFault::OutOfMemory
    }
}
