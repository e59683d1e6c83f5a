//! Why a member is not drained (docs/COMMANDS.md, "drain").

ghost use Rattle.std.specs.Prelude.{◌≡◌};
ghost use Rattle.control_rules.specs.Drain.{drain_code};

use fault_code::Code;
use member_group::Refusal;

/// Why a member is not drained. Nothing was sent but lines that read.
#[derive(Clone, Copy, Debug, PartialEq, Eq)]
pub enum DrainRefusal {
    /// G1 or G3: there is no such group or member, so `leave` is refused.
    Unknown(Refusal),
    /// H1: the selector of the group is not one that `spread` makes for its members, or the group has no other member.
    NotSpread,
}

impl DrainRefusal {
    /// Returns the code.
    pub fn code(self) -> Code
        ensures { result ≡ drain_code self }
    {
        match self {
            DrainRefusal::Unknown(refusal) => refusal.code(),
            DrainRefusal::NotSpread => Code::plain('H', 1),
        }
    }
}
