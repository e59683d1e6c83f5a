//! Why a text is not a filter expression.

ghost use Rattle.std.specs.Prelude.{◌≡◌};
ghost use Rattle.filter_parse.specs.Code.{parse_code};

use fault_code::Code;
use std::alloc::{AllocError, AllocFailed};

/// Why a text is not a filter expression, and where: `at` counts bytes from the text's first. If something is missing
/// at the end, `at` is the text's length.
#[derive(Clone, Copy, Debug, PartialEq, Eq)]
pub enum ParseFault {
    /// P1: no expression begins with the tokens up to and including this one.
    Syntax { at: usize },
    /// P2: a number above the limit of its place.
    NumberTooBig { at: usize },
    /// P3: an address that is not four decimal numbers of 0 to 255 without leading zeros.
    BadAddress { at: usize },
    /// P4: a number of prefix bits above 32, or past which a bit of the address is set.
    BadPrefix { at: usize },
    /// P5: a bracket with which more than `MAX_DEPTH` are open, or a tree that is deeper.
    TooDeep { at: usize },
    /// P6: an allocation was refused.
    OutOfMemory,
}

impl ParseFault {
    /// Returns the code (docs/COMMANDS.md, "Refusals").
    pub fn code(self) -> Code
        ensures { result ≡ parse_code self }
    {
        match self {
            ParseFault::Syntax { at } => Code::at('P', 1, at),
            ParseFault::NumberTooBig { at } => Code::at('P', 2, at),
            ParseFault::BadAddress { at } => Code::at('P', 3, at),
            ParseFault::BadPrefix { at } => Code::at('P', 4, at),
            ParseFault::TooDeep { at } => Code::at('P', 5, at),
            ParseFault::OutOfMemory => Code::plain('P', 6),
        }
    }
}

impl From<AllocError> for ParseFault {
    ghost use Rattle.std.specs.Prelude.{◌≡◌};
    ghost use Rattle.filter_parse.specs.declared.fault.ParseFault.TheVariants.{OutOfMemory};

    ghost from_gives = { λ _ e. e ≡ OutOfMemory };

    fn from(_e: AllocError) -> ParseFault {
        ParseFault::OutOfMemory
    }
}

impl<T: Drop> From<AllocFailed<T>> for ParseFault {
    ghost use Rattle.std.specs.Prelude.{◌≡◌};
    ghost use Rattle.filter_parse.specs.declared.fault.ParseFault.TheVariants.{OutOfMemory};

    ghost from_gives = { λ _ e. e ≡ OutOfMemory };

    fn from(_e: AllocFailed<T>) -> ParseFault {
        ParseFault::OutOfMemory
    }
}
