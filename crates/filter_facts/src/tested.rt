//! The facts known after a test, on its two sides.

ghost use Rattle.std.specs.Prelude.{◌≡◌, List, None, Some, false, true, ℕ};
ghost use Rattle.ipv4_fields.specs.declared.header.Field.TheVariants.{Protocol as ProtocolField};
ghost use Rattle.ipv4_fields.specs.Field.{field_of};
ghost use Rattle.filter_tree.specs.declared.primitive.Transport.{Transport};
ghost use Rattle.filter_tree.specs.declared.primitive.Transport.TheVariants.{Unnamed};
ghost use Rattle.filter_tree.specs.declared.truth.Truth.TheVariants.{No, Yes};
ghost use Rattle.filter_tree.specs.Outcome.{tested};
ghost use Rattle.filter_tree.specs.Primitive.{has_ports, is_first_fragment, is_ip, is_protocol};
ghost use Rattle.filter_facts.specs.Known.{Holds, IsInA, Knows};
ghost use Rattle.filter_facts.specs.Told.{first_fragment_of, header_in_x_of, header_of, IsNamed, in_a_of, ip_of, knows_protocol, protocol_of, transport_of};

use crate::header::{Header, Protocol};
use crate::known::Known;
use crate::load::Loaded;
use filter_tree::Transport;

// Facts known before stay known.
impl Known {
    /// Adds that the packet is IPv4.
    pub fn with_ip(self) -> Known
        ensures holds { (packet : List ℕ) (a x : ℕ) → Holds self packet a x → is_ip packet ≡ Yes → Holds result packet a x }
        ensures kept { (packet : List ℕ) (a x : ℕ) → Holds result packet a x → Holds self packet a x }
        ensures learned { ip_of self ≡ None → ip_of result ≡ Some true }
        ensures same_transport { (transport : Transport) → transport_of result transport ≡ transport_of self transport }
        ensures same_x { header_in_x_of result ≡ header_in_x_of self }
        ensures same_a { in_a_of result ≡ in_a_of self }
    {
        match self.header {
            Header::Any => Known {
                header: Header::Ipv4(Protocol::Any, false, false),
                ..self
            },
            _ => self,
        }
    }

    /// Adds that the packet is not IPv4.
    pub fn without_ip(self) -> Known
        ensures holds { (packet : List ℕ) (a x : ℕ) → Holds self packet a x → is_ip packet ≡ No → Holds result packet a x }
        ensures kept { (packet : List ℕ) (a x : ℕ) → Holds result packet a x → Holds self packet a x }
        ensures learned { ip_of self ≡ None → ip_of result ≡ Some false }
        ensures same_x { header_in_x_of result ≡ header_in_x_of self }
        ensures same_a { in_a_of result ≡ in_a_of self }
    {
        match self.header {
            Header::Any => Known {
                header: Header::NotIpv4,
                ..self
            },
            _ => self,
        }
    }

    /// Adds that the protocol has this number, if the packet is known to be IPv4.
    pub fn with_protocol(self, n: u8) -> Known
        ensures holds { (packet : List ℕ) (a x : ℕ) → Holds self packet a x → is_protocol n packet ≡ Yes → Holds result packet a x }
        ensures kept { (packet : List ℕ) (a x : ℕ) → Holds result packet a x → Holds self packet a x }
        ensures learned { ip_of self ≡ Some true → protocol_of self n ≡ None → protocol_of result n ≡ Some true }
        ensures same_x { header_in_x_of result ≡ header_in_x_of self }
        ensures same_a { in_a_of result ≡ in_a_of self }
    {
        let is = Protocol::Is(n);
        match self.header {
            Header::Ipv4(Protocol::Any, with_ports, first) => Known {
                header: Header::Ipv4(is, with_ports, first),
                ..self
            },
            Header::Ipv4(Protocol::IsNot(m), with_ports, first) if m != n => Known {
                header: Header::Ipv4(is, with_ports, first),
                ..self
            },
            _ => self,
        }
    }

    /// Adds that the protocol has another number, if the packet is known to be IPv4. Only one excluded number is kept,
    /// the first.
    pub fn without_protocol(self, n: u8) -> Known
        ensures holds { (packet : List ℕ) (a x : ℕ) → Holds self packet a x → is_protocol n packet ≡ No → Holds result packet a x }
        ensures kept { (packet : List ℕ) (a x : ℕ) → Holds result packet a x → Holds self packet a x }
        ensures learned { ip_of self ≡ Some true → knows_protocol self ≡ false → protocol_of result n ≡ Some false }
        ensures same_x { header_in_x_of result ≡ header_in_x_of self }
        ensures same_a { in_a_of result ≡ in_a_of self }
    {
        match self.header {
            Header::Ipv4(Protocol::Any, with_ports, first) => Known {
                header: Header::Ipv4(Protocol::IsNot(n), with_ports, first),
                ..self
            },
            _ => self,
        }
    }

    /// Adds that the protocol is the named one or, if none is named, TCP, UDP or SCTP.
    pub fn with_transport(self, transport: Transport) -> Known
        ensures holds { (packet : List ℕ) (a x : ℕ) → Holds self packet a x → tested (has_ports transport) (field_of ProtocolField packet) ≡ Yes → Holds result packet a x }
        ensures kept { (packet : List ℕ) (a x : ℕ) → Holds result packet a x → Holds self packet a x }
        ensures learned { ip_of self ≡ Some true → transport_of self transport ≡ None → transport_of result transport ≡ Some true }
        ensures same_x { header_in_x_of result ≡ header_in_x_of self }
        ensures same_a { in_a_of result ≡ in_a_of self }
    {
        match transport {
            Transport::Tcp => self.with_protocol(6),
            Transport::Udp => self.with_protocol(17),
            Transport::Unnamed => self.with_ports(),
        }
    }

    fn with_ports(self) -> Known
        ensures holds { (packet : List ℕ) (a x : ℕ) → Holds self packet a x → tested (has_ports Unnamed) (field_of ProtocolField packet) ≡ Yes → Holds result packet a x }
        ensures kept { (packet : List ℕ) (a x : ℕ) → Holds result packet a x → Holds self packet a x }
        ensures learned { ip_of self ≡ Some true → transport_of self Unnamed ≡ None → transport_of result Unnamed ≡ Some true }
        ensures same_x { header_in_x_of result ≡ header_in_x_of self }
        ensures same_a { in_a_of result ≡ in_a_of self }
    {
        match self.header {
            Header::Ipv4(protocol, false, first) => Known {
                header: Header::Ipv4(protocol, true, first),
                ..self
            },
            _ => self,
        }
    }

    /// Adds that the protocol is not the named one. If none is named, it is none of TCP, UDP and SCTP, and only the
    /// exclusion of SCTP is kept.
    pub fn without_transport(self, transport: Transport) -> Known
        ensures holds { (packet : List ℕ) (a x : ℕ) → Holds self packet a x → tested (has_ports transport) (field_of ProtocolField packet) ≡ No → Holds result packet a x }
        ensures kept { (packet : List ℕ) (a x : ℕ) → Holds result packet a x → Holds self packet a x }
        ensures learned { ip_of self ≡ Some true → knows_protocol self ≡ false → IsNamed transport → transport_of result transport ≡ Some false }
        ensures no_sctp { ip_of self ≡ Some true → knows_protocol self ≡ false → transport ≡ Unnamed → protocol_of result 132 ≡ Some false }
        ensures same_x { header_in_x_of result ≡ header_in_x_of self }
        ensures same_a { in_a_of result ≡ in_a_of self }
    {
        match transport {
            Transport::Tcp => self.without_protocol(6),
            Transport::Udp => self.without_protocol(17),
            Transport::Unnamed => self.without_protocol(132),
        }
    }

    /// Adds that the packet has the beginning of the datagram, if it is known to be IPv4.
    pub fn with_first_fragment(self) -> Known
        ensures holds { (packet : List ℕ) (a x : ℕ) → Holds self packet a x → is_first_fragment packet ≡ Yes → Holds result packet a x }
        ensures kept { (packet : List ℕ) (a x : ℕ) → Holds result packet a x → Holds self packet a x }
        ensures learned { ip_of self ≡ Some true → first_fragment_of result ≡ true }
        ensures same_transport { (transport : Transport) → transport_of result transport ≡ transport_of self transport }
        ensures same_x { header_in_x_of result ≡ header_in_x_of self }
        ensures same_a { in_a_of result ≡ in_a_of self }
    {
        match self.header {
            Header::Ipv4(protocol, with_ports, _) => Known {
                header: Header::Ipv4(protocol, with_ports, true),
                ..self
            },
            _ => self,
        }
    }

    /// Returns the same facts about the packet and A after X was written: `held` is whether X now has the length of the
    /// header.
    pub fn with_header_in_x(self, held: bool) -> Known
        ensures holds { (packet : List ℕ) (a x x' : ℕ) → Holds self packet a x → Knows held packet x' → Holds result packet a x' }
        ensures kept { (packet : List ℕ) (a x x' : ℕ) → Holds result packet a x' → Knows (header_in_x_of self) packet x → Holds self packet a x }
        ensures learned { header_in_x_of result ≡ held }
        ensures same_a { in_a_of result ≡ in_a_of self }
    {
        Known {
            header: self.header,
            header_in_x: held,
            in_a: self.in_a,
        }
    }

    /// Returns the same facts about the packet and X after A was written: `loaded` is the number that A now has, `None`
    /// if that is not known.
    pub fn with_in_a(self, loaded: Option<Loaded>) -> Known
        ensures holds { (packet : List ℕ) (a a' x : ℕ) → Holds self packet a x → IsInA loaded packet a' → Holds result packet a' x }
        ensures kept { (packet : List ℕ) (a a' x : ℕ) → Holds result packet a' x → IsInA (in_a_of self) packet a → Holds self packet a x }
        ensures learned { in_a_of result ≡ loaded }
        ensures same_packet { header_of result ≡ header_of self }
        ensures same_x { header_in_x_of result ≡ header_in_x_of self }
    {
        Known {
            in_a: loaded,
            ..self
        }
    }
}
