//! Why a text is no list of words.

ghost use Rattle.std.specs.Prelude.{◌≡◌};
ghost use Rattle.bpf_formats.specs.Code.{format_code};
ghost use Rattle.bpf_formats.specs.declared.fault.FormatFault.TheVariants.{OutOfMemory};

use fault_code::Code;
use std::alloc::{AllocError, AllocFailed};

/// Why a text is no list of words. Lines are counted from 1, empty ones included; a comma ends one as LF does.
#[derive(Clone, Copy, Debug, PartialEq, Eq)]
pub enum FormatFault {
    /// K1: the first line that is not in the form of docs/MACHINE.md, "Programs as numbers".
    Syntax { line: usize },
    /// K2: the count in the first line is not the number of words.
    Count,
    /// K3: memory for the words was refused.
    OutOfMemory,
}

impl FormatFault {
    /// Returns the code (docs/COMMANDS.md, "Refusals").
    pub fn code(self) -> Code
        ensures { result ≡ format_code self }
    {
        match self {
            FormatFault::Syntax { line } => Code::at('K', 1, line),
            FormatFault::Count => Code::plain('K', 2),
            FormatFault::OutOfMemory => Code::plain('K', 3),
        }
    }
}

impl From<AllocError> for FormatFault {
    ghost from_gives = { λ _ fault. fault ≡ OutOfMemory };

    fn from(_error: AllocError) -> FormatFault {
        FormatFault::OutOfMemory
    }
}

impl<T: Drop> From<AllocFailed<T>> for FormatFault {
    ghost from_gives = { λ _ fault. fault ≡ OutOfMemory };

    fn from(_error: AllocFailed<T>) -> FormatFault {
        FormatFault::OutOfMemory
    }
}
