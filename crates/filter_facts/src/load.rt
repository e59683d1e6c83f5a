//! The number that A is known to have.

ghost use Rattle.std.specs.Prelude.{◌≡◌, List, Some, ℕ};
ghost use Rattle.filter_facts.specs.Known.{IsInA};

/// A number of a packet's headers that is loaded whole.
#[derive(Clone, Copy, PartialEq, Eq)]
pub enum Loaded {
    /// The number of the protocol.
    Protocol,
    /// The source address.
    Source,
    /// The destination address.
    Destination,
    /// The source port.
    SourcePort,
    /// The destination port.
    DestinationPort,
}

pub(crate) fn join_loads(one: Option<Loaded>, other: Option<Loaded>) -> Option<Loaded>
    ensures of_one { (packet : List ℕ) (a : ℕ) → IsInA one packet a → IsInA result packet a }
    ensures of_other { (packet : List ℕ) (a : ℕ) → IsInA other packet a → IsInA result packet a }
    ensures both { (loaded : Loaded) → one ≡ Some loaded → other ≡ Some loaded → result ≡ Some loaded }
{
    match (one, other) {
        (Some(m), Some(n)) if m == n => one,
        _ => None,
    }
}
