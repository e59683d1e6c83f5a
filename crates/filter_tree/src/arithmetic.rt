//! Arithmetic expressions (pcap-filter(7), "expr1 relop expr2").

use std::alloc::Allocator;

/// The protocol whose data a packet accessor reads.
#[derive(Clone, Copy, Debug, PartialEq, Eq)]
pub enum Protocol {
    /// `ip`: the index counts from the packet's first byte.
    Ip,
    /// `tcp`: the index counts from the first byte after the IPv4 header, as for the two below.
    Tcp,
    /// `udp`.
    Udp,
    /// `icmp`.
    Icmp,
}

/// The number of bytes that a packet accessor reads, as a big-endian number.
#[derive(Clone, Copy, Debug, PartialEq, Eq)]
pub enum Size {
    One,
    Two,
    Four,
}

/// An operator on two 32-bit numbers. Sums, differences, products and shifts are modulo 2^32.
#[derive(Clone, Copy, Debug, PartialEq, Eq)]
pub enum Operator {
    /// `|`.
    Or,
    /// `^`.
    ExclusiveOr,
    /// `&`.
    And,
    /// `<<`; a shift by 32 or more gives 0.
    ShiftLeft,
    /// `>>`; a shift by 32 or more gives 0.
    ShiftRight,
    /// `+`.
    Add,
    /// `-`.
    Subtract,
    /// `*`.
    Multiply,
    /// `/`; a division by 0 fails.
    Divide,
    /// `%`; a division by 0 fails.
    Modulo,
}

/// An arithmetic expression.
#[derive(Drop)]
pub enum Arith<A: Allocator> {
    /// A number.
    Number(u32),
    /// `len`: the packet's number of bytes.
    Length,
    /// `udp[8 : 2]`: a number of bytes of a protocol's data, from an index on.
    Accessor(Protocol, Box<Arith<A>, A>, Size),
    /// An operation on its left and its right side.
    Operation(Box<Arith<A>, A>, Operator, Box<Arith<A>, A>),
}
