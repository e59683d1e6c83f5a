//! The header fields of a UDP datagram over IPv4 (RFC 791, section 3.1; RFC 768, "Format").

/// A field of the IPv4 header or of the UDP header after it.
#[derive(Clone, Copy, Debug, PartialEq, Eq)]
pub enum Field {
    /// The high four bits of byte 0.
    Version,
    /// The low four bits of byte 0: how many words of four bytes the IPv4 header has.
    Ihl,
    /// Bytes 2 and 3: how many bytes the datagram has, its header included.
    TotalLength,
    /// The flag of value 0x20 in byte 6, as 0 or 1.
    MoreFragments,
    /// The low 13 bits of bytes 6 and 7, counted in units of eight bytes.
    FragmentOffset,
    /// Byte 9; UDP is 17.
    Protocol,
    /// Bytes 12 to 15: the source address.
    Source,
    /// Bytes 16 to 19: the destination address.
    Destination,
    /// The two bytes at place 4 * IHL.
    SourcePort,
    /// The two bytes at place 4 * IHL + 2.
    DestinationPort,
    /// The two bytes at place 4 * IHL + 4: how many bytes the UDP header and its data have.
    UdpLength,
}
