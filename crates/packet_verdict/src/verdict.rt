//! The verdicts on packets (docs/SWITCH.md, "Verdicts").

ghost use Rattle.std.specs.Prelude.{◌≡◌};
ghost use Rattle.packet_verdict.specs.Kind.{kind_of};

use crate::kind::Kind;
use ipv4_fields::Endpoint;

/// The verdict on a packet. `group` is the group's key, `member` the member's number in it.
#[derive(Clone, Copy, Debug, PartialEq, Eq)]
pub enum Verdict {
    /// It is not one whole UDP datagram.
    Malformed,
    /// No group has its destination for a key.
    NoGroup,
    /// The group has no member.
    NoMembers,
    /// The member's filter keeps no byte of it.
    Dropped {
        group: Endpoint,
        member: u32,
    },
    /// Its first `bytes` bytes go to the member's endpoint.
    Deliver {
        group: Endpoint,
        member: u32,
        to: Endpoint,
        bytes: usize,
    },
}

impl Verdict {
    /// Returns the kind by which it is counted.
    pub fn kind(self) -> Kind
        ensures { result ≡ kind_of self }
    {
        match self {
            Verdict::Malformed => Kind::Malformed,
            Verdict::NoGroup => Kind::NoGroup,
            Verdict::NoMembers => Kind::NoMembers,
            Verdict::Dropped { .. } => Kind::Dropped,
            Verdict::Deliver { .. } => Kind::Delivered,
        }
    }
}
