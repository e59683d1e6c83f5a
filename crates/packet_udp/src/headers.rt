//! The headers of a packet of UDP over IPv4 (RFC 791, section 3.1; RFC 768, "Format").

ghost use Rattle.std.specs.Prelude.{◌≡◌, ◌≢◌, ◌+◌, ◌%◌, ◌<◌, ◌≤◌, length, ℕ};
ghost use Rattle.packet_udp.specs.body.Bytes.{address_sum, ipv4_header, udp_header, word_sum};
ghost use Rattle.packet_udp.specs.body.Checked.{IsIpv4Checksum, IsUdpChecksum};

use crate::checksum::{address_sum, checksum_of, word_sum};
use ipv4_fields::Endpoint;

/// The number of bytes of the IPv4 header, without options.
pub(crate) const IPV4_HEADER: usize = 20;

/// The number of bytes of the UDP header.
pub(crate) const UDP_HEADER: usize = 8;

const PROTOCOL: u8 = 17;

const TIME_TO_LIVE: u8 = 64;

// The first byte: version 4, and a header of five words.
const VERSION_AND_IHL: u8 = 0x45;

// DF is set, so the identification may be 0 (RFC 6864, section 4.1).
const FLAGS: u8 = 0x40;

/// Returns the IPv4 header of a packet with this total length.
pub(crate) fn ipv4_header(source: u32, destination: u32, total: u16) -> [u8; IPV4_HEADER]
    ensures { (checksum : ℕ) × IsIpv4Checksum source destination total checksum × (result ≡ ipv4_header source destination total checksum) }
{
    let words = 0x4500 + u64::from(total) + 0x4000 + 0x4011;
    let sum = words + address_sum(source) + address_sum(destination);
    let [c0, c1] = checksum_of(sum).to_be_bytes();
    let [t0, t1] = total.to_be_bytes();
    let [s0, s1, s2, s3] = source.to_be_bytes();
    let [d0, d1, d2, d3] = destination.to_be_bytes();
    [
        VERSION_AND_IHL,
        0,
        t0,
        t1,
        0,
        0,
        FLAGS,
        0,
        TIME_TO_LIVE,
        PROTOCOL,
        c0,
        c1,
        s0,
        s1,
        s2,
        s3,
        d0,
        d1,
        d2,
        d3,
    ]
}

/// Returns the UDP header of a datagram with this payload.
pub(crate) fn udp_header(
    from: Endpoint,
    to: Endpoint,
    datagram: u16,
    payload: &[u8],
) -> [u8; UDP_HEADER]
    requires { datagram ≡ 8 + length payload.now }
    ensures { (checksum : ℕ) × IsUdpChecksum from to datagram payload.now checksum × (result ≡ udp_header from.port to.port datagram checksum) }
{
    let checksum = udp_checksum(from, to, datagram, payload);
    let [s0, s1] = from.port.to_be_bytes();
    let [d0, d1] = to.port.to_be_bytes();
    let [u0, u1] = datagram.to_be_bytes();
    let [c0, c1] = checksum.to_be_bytes();
    [s0, s1, d0, d1, u0, u1, c0, c1]
}

// The checksum over the pseudo header, the header and the payload. The UDP length is in both headers.
fn udp_checksum(from: Endpoint, to: Endpoint, datagram: u16, payload: &[u8]) -> u16
    requires { datagram ≡ 8 + length payload.now }
    ensures { IsUdpChecksum from to datagram payload.now result }
{
    let pseudo = address_sum(from.address) + address_sum(to.address) + 17 + u64::from(datagram);
    let header = u64::from(from.port) + u64::from(to.port) + u64::from(datagram);
    let checksum = checksum_of(pseudo + header + word_sum(payload));
    // In a datagram 0 says that there is no checksum (RFC 768, "Fields").
    if checksum == 0 { 0xffff } else { checksum }
}
