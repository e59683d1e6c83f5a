//! The facts known before a part of a program, their join, and what follows from them.

ghost use Rattle.std.specs.Prelude.{◌≡◌, ◌&&◌, IsTrue, List, Some, false, true, ℕ};
ghost use Rattle.ipv4_fields.specs.declared.header.Field.TheVariants.{Protocol as ProtocolField};
ghost use Rattle.ipv4_fields.specs.Field.{field_of};
ghost use Rattle.filter_tree.specs.declared.primitive.Transport.{Transport};
ghost use Rattle.filter_tree.specs.declared.primitive.Transport.TheVariants.{Unnamed};
ghost use Rattle.filter_tree.specs.declared.truth.Truth.TheVariants.{Yes};
ghost use Rattle.filter_tree.specs.Outcome.{tested};
ghost use Rattle.filter_tree.specs.Primitive.{has_ports, is_first_fragment, is_ip, is_protocol};
ghost use Rattle.filter_facts.specs.Known.{Holds, IsInA, Knows, Settles};
ghost use Rattle.filter_facts.specs.Told.{agreed, first_fragment_of, header_in_x_of, in_a_of, ip_of, knows_number, protocol_of, transport_of};

use crate::header::{Header, Protocol, join_headers, ports};
use crate::load::{Loaded, join_loads};
use filter_tree::Transport;

/// The facts known about a packet, about X (whether it has the length of the IPv4 header) and about A.
/// The reason: docs/INTERNALS.md, "What is known is a few facts".
#[derive(Clone, Copy)]
pub struct Known {
    pub(crate) header: Header,
    pub(crate) header_in_x: bool,
    pub(crate) in_a: Option<Loaded>,
}

impl Known {
    /// Returns no facts.
    pub fn nothing() -> Known
        ensures holds { (packet : List ℕ) (a x : ℕ) → Holds result packet a x }
    {
        Known {
            header: Header::Any,
            header_in_x: false,
            in_a: None,
        }
    }

    /// Returns the facts known after two branches join: those that hold on both. Two different protocols join to no
    /// protocol, but if both are known to have ports, that stays known. A number that is excluded on both branches
    /// stays excluded, unless both branches know their protocol by number.
    pub fn join(self, other: Known) -> Known
        ensures of_self { (packet : List ℕ) (a x : ℕ) → Holds self packet a x → Holds result packet a x }
        ensures of_other { (packet : List ℕ) (a x : ℕ) → Holds other packet a x → Holds result packet a x }
        ensures ip { ip_of result ≡ agreed (ip_of self) (ip_of other) }
        ensures protocol { (n : ℕ) → protocol_of self n ≡ Some true → protocol_of other n ≡ Some true → protocol_of result n ≡ Some true }
        ensures excluded { (n : ℕ) → protocol_of self n ≡ Some false → protocol_of other n ≡ Some false → (knows_number self && knows_number other) ≡ false → protocol_of result n ≡ Some false }
        ensures transport { (transport : Transport) → transport_of self transport ≡ Some true → transport_of other transport ≡ Some true → transport_of result transport ≡ Some true }
        ensures first_fragment { first_fragment_of result ≡ (first_fragment_of self && first_fragment_of other) }
        ensures header_in_x { header_in_x_of result ≡ (header_in_x_of self && header_in_x_of other) }
        ensures in_a { (loaded : Loaded) → in_a_of self ≡ Some loaded → in_a_of other ≡ Some loaded → in_a_of result ≡ Some loaded }
    {
        let in_a = join_loads(self.in_a, other.in_a);
        Known {
            header: join_headers(self.header, other.header),
            header_in_x: self.header_in_x && other.header_in_x,
            in_a,
        }
    }

    /// Returns whether the packet is IPv4, `None` if that is not known.
    pub fn ip(self) -> Option<bool>
        ensures exact { result ≡ ip_of self }
        ensures known { (packet : List ℕ) (a x : ℕ) → Holds self packet a x → Settles result (is_ip packet) }
    {
        match self.header {
            Header::Any => None,
            Header::NotIpv4 => Some(false),
            Header::Ipv4(_, _, _) => Some(true),
        }
    }

    /// Returns whether the protocol has this number, `None` if that is not known. It is known only if the packet is
    /// known to be IPv4.
    pub fn protocol(self, n: u8) -> Option<bool>
        ensures exact { result ≡ protocol_of self n }
        ensures known { (packet : List ℕ) (a x : ℕ) → Holds self packet a x → Settles result (is_protocol n packet) }
    {
        match self.header {
            Header::Ipv4(Protocol::Is(m), _, _) => Some(m == n),
            Header::Ipv4(Protocol::IsNot(m), _, _) if m == n => Some(false),
            _ => None,
        }
    }

    /// Returns whether the protocol is the named one or, if none is named, TCP, UDP or SCTP; `None` if that is not
    /// known. It is known only if the packet is known to be IPv4.
    pub fn transport(self, transport: Transport) -> Option<bool>
        ensures exact { result ≡ transport_of self transport }
        ensures known { (packet : List ℕ) (a x : ℕ) → Holds self packet a x → Settles result (tested (has_ports transport) (field_of ProtocolField packet)) }
    {
        match transport {
            Transport::Tcp => self.protocol(6),
            Transport::Udp => self.protocol(17),
            Transport::Unnamed => self.ports(),
        }
    }

    fn ports(self) -> Option<bool>
        ensures exact { result ≡ transport_of self Unnamed }
        ensures known { (packet : List ℕ) (a x : ℕ) → Holds self packet a x → Settles result (tested (has_ports Unnamed) (field_of ProtocolField packet)) }
    {
        match self.header {
            Header::Ipv4(protocol, with_ports, _) => ports(protocol, with_ports),
            _ => None,
        }
    }

    /// Tests whether the packet is known to have the beginning of the datagram. This is known only if the packet is
    /// known to be IPv4.
    pub fn first_fragment(self) -> bool
        ensures exact { result ≡ first_fragment_of self }
        ensures known { IsTrue result → (packet : List ℕ) (a x : ℕ) → Holds self packet a x → is_first_fragment packet ≡ Yes }
    {
        match self.header {
            Header::Ipv4(_, _, first) => first,
            _ => false,
        }
    }

    /// Tests whether X is known to have the length of the header.
    pub fn header_in_x(self) -> bool
        ensures exact { result ≡ header_in_x_of self }
        ensures known { IsTrue result → (packet : List ℕ) (a x : ℕ) → Holds self packet a x → Knows true packet x }
    {
        self.header_in_x
    }

    /// Returns the number that A is known to have, `None` if that is not known.
    pub fn in_a(self) -> Option<Loaded>
        ensures exact { result ≡ in_a_of self }
        ensures known { (packet : List ℕ) (a x : ℕ) → Holds self packet a x → IsInA result packet a }
    {
        self.in_a
    }
}
