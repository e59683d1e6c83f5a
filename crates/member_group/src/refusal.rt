//! Why a command is refused.

ghost use Rattle.std.specs.Prelude.{◌≡◌};
ghost use Rattle.member_group.specs.Code.{command_code};
ghost use Rattle.member_group.specs.declared.refusal.Refusal.TheVariants.{OutOfMemory};

use fault_code::Code;
use std::alloc::{AllocError, AllocFailed};

/// Why a command is refused. A variant says what is wrong with the command; if several are true, docs/SWITCH.md gives
/// their order for each command.
#[derive(Clone, Copy, Debug, PartialEq, Eq)]
pub enum Refusal {
    /// There is no group with the key.
    NoGroup,
    /// There is a group with the key already.
    GroupExists,
    /// The group has no member with the number.
    NoMember,
    /// The group has a member with the number already.
    MemberExists,
    /// There are `GROUP_LIMIT` groups already.
    TooManyGroups,
    /// The group has `MEMBER_LIMIT` members already.
    GroupFull,
    /// The member is locked.
    Locked,
    /// There is no program to clear.
    NoProgram,
    /// An allocation for the new configuration was refused.
    OutOfMemory,
}

impl Refusal {
    /// Returns the code (docs/COMMANDS.md, "Refusals").
    pub fn code(self) -> Code
        ensures { result ≡ command_code self }
    {
        match self {
            Refusal::NoGroup => Code::plain('G', 1),
            Refusal::GroupExists => Code::plain('G', 2),
            Refusal::NoMember => Code::plain('G', 3),
            Refusal::MemberExists => Code::plain('G', 4),
            Refusal::TooManyGroups => Code::plain('G', 5),
            Refusal::GroupFull => Code::plain('G', 6),
            Refusal::NoProgram => Code::plain('G', 7),
            Refusal::OutOfMemory => Code::plain('G', 8),
            Refusal::Locked => Code::plain('G', 9),
        }
    }
}

impl From<AllocError> for Refusal {
    ghost from_gives = { λ _ refusal. refusal ≡ OutOfMemory };

    fn from(_error: AllocError) -> Refusal {
        Refusal::OutOfMemory
    }
}

impl<T: Drop> From<AllocFailed<T>> for Refusal {
    ghost from_gives = { λ _ refusal. refusal ≡ OutOfMemory };

    fn from(_error: AllocFailed<T>) -> Refusal {
        Refusal::OutOfMemory
    }
}
