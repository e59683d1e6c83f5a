//! The ends of a UDP datagram, as numbers and as socket addresses.

ghost use Rattle.std.specs.Prelude.{◌≡◌, ◌<◌, ◌^◌, IfSome, IsNone, true};
ghost use Rattle.std.specs.Net.Addr.{is_ipv6};
ghost use Rattle.std.specs.Net.Socket.{socket_ip, socket_port};
ghost use Rattle.std.specs.Ordering.{nat_cmp};
ghost use Rattle.ipv4_fields.specs.Endpoint.{HasBytesOf, IsEndpoint, endpoint_number};

use std::net::{IpAddr, Ipv4Addr, SocketAddr};

/// An IPv4 address with a UDP port, in host order. Endpoints are ordered by `address * 65536 + port`.
#[derive(Clone, Copy, Debug, PartialEq, Eq, PartialOrd, Ord)]
pub struct Endpoint {
    pub address: u32,
    pub port: u16,
}

impl Endpoint {
    /// Returns the number by which endpoints are ordered, `address * 65536 + port`.
    pub fn number(self) -> u64
        ensures { result ≡ endpoint_number self }
    {
        u64::from(self.address) * 65536 + u64::from(self.port)
    }

    /// Returns the endpoint of a number.
    pub fn from_number(number: u64) -> Endpoint
        requires { number < 2 ^ 48 }
        ensures number { endpoint_number result ≡ number }
        ensures fits { IsEndpoint result }
    {
        Endpoint {
            address: (number >> 16) as u32,
            port: (number & 0xffff) as u16,
        }
    }

    /// Returns the endpoint as a socket address.
    pub fn socket_address(self) -> SocketAddr
        ensures address { HasBytesOf self (socket_ip result) }
        ensures port { socket_port result ≡ self.port }
    {
        SocketAddr::new(IpAddr::V4(Ipv4Addr::from(self.address)), self.port)
    }

    /// Returns the endpoint of a socket address, `None` if it is IPv6.
    pub fn from_socket_address(address: SocketAddr) -> Option<Endpoint>
        ensures address { IfSome result (λ endpoint. HasBytesOf endpoint (socket_ip address)) }
        ensures port { IfSome result (λ endpoint. endpoint.port ≡ socket_port address) }
        ensures none { IsNone result → is_ipv6 (socket_ip address) ≡ true }
    {
        match address {
            SocketAddr::V4(address) => Some(Endpoint {
                address: u32::from_be_bytes(address.ip().octets()),
                port: address.port(),
            }),
            SocketAddr::V6(_) => None,
        }
    }
}

/// The source and the destination of a datagram.
#[derive(Clone, Copy, Debug, PartialEq, Eq)]
pub struct Flow {
    pub source: Endpoint,
    pub destination: Endpoint,
}

/// Law: two endpoints compare as their numbers do, `address * 65536 + port`. It runs nothing.
pub fn ordered_by_number(left: Endpoint, right: Endpoint)
    ensures { ⟦<Endpoint as Ord>⟧.cmp left right ≡ nat_cmp (endpoint_number left) (endpoint_number right) }
{}
