//! The facts known about a packet's IPv4 header (RFC 791, section 3.1).

ghost use Rattle.std.specs.Prelude.{◌≡◌, ◌&&◌, Bool, List, Some, false, true, ℕ};
ghost use Rattle.filter_facts.specs.Known.{IsHeader, IsProtocol};
ghost use Rattle.filter_facts.specs.Told.{agreed, first_in, ip_told, is_number, number_told, ports_in, ports_told, protocol_in};

/// The facts known about the protocol's number.
#[derive(Clone, Copy)]
pub(crate) enum Protocol {
    /// Nothing, not even that the packet has the byte.
    Any,
    /// It is this number.
    Is(u8),
    /// It is another number.
    IsNot(u8),
}

/// The facts known about the header. Protocol and fragment are known only if the packet is known to be IPv4.
#[derive(Clone, Copy)]
pub(crate) enum Header {
    /// Nothing.
    Any,
    /// The version is there and is not 4.
    NotIpv4,
    /// The version is 4: the protocol, whether it is known to be one that has ports (TCP, UDP or SCTP), and whether the
    /// fragment offset is known to be 0.
    Ipv4(Protocol, bool, bool),
}

fn join_protocols(one: Protocol, other: Protocol) -> Protocol
    ensures of_one { (packet : List ℕ) → IsProtocol one packet → IsProtocol result packet }
    ensures of_other { (packet : List ℕ) → IsProtocol other packet → IsProtocol result packet }
    ensures number { (n : ℕ) → number_told one n ≡ Some true → number_told other n ≡ Some true → number_told result n ≡ Some true }
    ensures ports { (a b : Bool) → ports_told one a ≡ Some true → ports_told other b ≡ Some true → ports_told result true ≡ Some true }
    ensures excluded { (n : ℕ) → number_told one n ≡ Some false → number_told other n ≡ Some false → (is_number one && is_number other) ≡ false → number_told result n ≡ Some false }
{
    match (one, other) {
        (Protocol::Is(m), Protocol::Is(n)) if m == n => one,
        (Protocol::IsNot(m), Protocol::IsNot(n)) if m == n => one,
        (Protocol::Is(m), Protocol::IsNot(n)) if m != n => other,
        (Protocol::IsNot(m), Protocol::Is(n)) if m != n => one,
        _ => Protocol::Any,
    }
}

/// Returns whether the protocol has ports, `None` if that is not known.
pub(crate) fn ports(protocol: Protocol, with_ports: bool) -> Option<bool>
    ensures { result ≡ ports_told protocol with_ports }
{
    match protocol {
        Protocol::Is(n) => Some(n == 6 || n == 17 || n == 132),
        _ if with_ports => Some(true),
        _ => None,
    }
}

fn are_true(one: Option<bool>, other: Option<bool>) -> bool
    ensures told { result ≡ true → (one ≡ Some true) × (other ≡ Some true) }
    ensures both { one ≡ Some true → other ≡ Some true → result ≡ true }
{
    matches!((one, other), (Some(true), Some(true)))
}

pub(crate) fn join_headers(one: Header, other: Header) -> Header
    ensures of_one { (packet : List ℕ) → IsHeader one packet → IsHeader result packet }
    ensures of_other { (packet : List ℕ) → IsHeader other packet → IsHeader result packet }
    ensures ip { ip_told result ≡ agreed (ip_told one) (ip_told other) }
    ensures number { (n : ℕ) → number_told (protocol_in one) n ≡ Some true → number_told (protocol_in other) n ≡ Some true → number_told (protocol_in result) n ≡ Some true }
    ensures excluded { (n : ℕ) → number_told (protocol_in one) n ≡ Some false → number_told (protocol_in other) n ≡ Some false → (is_number (protocol_in one) && is_number (protocol_in other)) ≡ false → number_told (protocol_in result) n ≡ Some false }
    ensures ports { ports_in one ≡ Some true → ports_in other ≡ Some true → ports_in result ≡ Some true }
    ensures first { first_in result ≡ (first_in one && first_in other) }
{
    match (one, other) {
        (Header::NotIpv4, Header::NotIpv4) => Header::NotIpv4,
        (Header::Ipv4(p, a, f), Header::Ipv4(q, b, g)) => {
            let with_ports = are_true(ports(p, a), ports(q, b));
            Header::Ipv4(join_protocols(p, q), with_ports, f && g)
        }
        _ => Header::Any,
    }
}
