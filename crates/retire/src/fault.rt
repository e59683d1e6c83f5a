//! Why a configuration is not published.

ghost use Rattle.std.specs.Prelude.{◌≡◌};
ghost use Rattle.retire.specs.Code.{publish_code};

use fault_code::Code;

/// Why `publish` published nothing.
#[derive(Clone, Copy, Debug, PartialEq, Eq)]
pub enum PublishFault {
    /// B1: the configuration's charge is above `CHARGE_LIMIT`.
    TooBig,
    /// B3: the current version has the last number.
    Exhausted,
    /// B2: no row is free, even after a scan of each read word.
    Busy,
}

impl PublishFault {
    /// Returns the code (docs/COMMANDS.md, "Refusals").
    pub fn code(self) -> Code
        ensures { result ≡ publish_code self }
    {
        match self {
            PublishFault::TooBig => Code::plain('B', 1),
            PublishFault::Busy => Code::plain('B', 2),
            PublishFault::Exhausted => Code::plain('B', 3),
        }
    }
}
