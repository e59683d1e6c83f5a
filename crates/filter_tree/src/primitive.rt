//! Primitives without arithmetic (pcap-filter(7), "Primitives").

use crate::prefix::Prefix;

/// The end of a packet that a primitive tests.
#[derive(Clone, Copy, Debug, PartialEq, Eq)]
pub enum Direction {
    /// `src`.
    Source,
    /// `dst`.
    Destination,
    /// `src or dst`, also the default if no direction is written.
    Either,
    /// `src and dst`.
    Both,
}

/// The protocol that `port` or `portrange` names.
#[derive(Clone, Copy, Debug, PartialEq, Eq)]
pub enum Transport {
    /// `tcp`.
    Tcp,
    /// `udp`.
    Udp,
    /// No protocol is written: TCP, UDP or SCTP.
    Unnamed,
}

/// A primitive without arithmetic. Addresses and ports are in host order.
#[derive(Clone, Copy, Debug, PartialEq, Eq)]
pub enum Primitive {
    /// `ip`.
    Ip,
    /// `ip proto n`; `tcp`, `udp` and `icmp` alone are its numbers 6, 17 and 1.
    Proto(u8),
    /// `host a`.
    Host(Direction, u32),
    /// `net a/l`.
    Net(Direction, Prefix),
    /// `port n`.
    Port(Transport, Direction, u16),
    /// `portrange n-m`, the two numbers as they are written.
    PortRange(Transport, Direction, u16, u16),
    /// `less n`: the packet has at most n bytes.
    AtMost(u32),
    /// `greater n`: the packet has at least n bytes.
    AtLeast(u32),
}
