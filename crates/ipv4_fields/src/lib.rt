//! The header fields of UDP datagrams over IPv4, and the test whether a packet is dispatched (RFC 791, section 3.1; RFC
//! 768, "Format"; docs/SWITCH.md, "Which packets are dispatched"). Also endpoints as numbers, as socket addresses and
//! as texts, with the decimal numbers of these texts. No call takes memory.
#![tactic(auto)]

ghost use Rattle.std.specs.Prelude.{◌≡◌, ◌≤◌, ◌+◌, length};
ghost use Rattle.ipv4_fields.specs.Field.{behind_header, field_of, ihl_of, number_at};

mod datagram;
mod endpoint;
mod header;
mod text;

use byteorder::{ByteOrder, NetworkEndian};
pub use datagram::dispatchable;
pub use endpoint::{Endpoint, Flow, ordered_by_number};
pub use header::Field;
pub use text::{ENDPOINT_LIMIT, TextBuffer, read_number, split_at};

/// Reads a header field of a packet. `None` if and only if the packet lacks a byte of the field.
///
/// `packet` begins with the first byte of the IPv4 header; addresses and ports are in host order. The ports and the UDP
/// length are read from place 4 * IHL on, whatever the IHL and the other fields are.
#[tactic(auto, unfolding(crate::specs::Field::field_of))]
pub fn field(name: Field, packet: &[u8]) -> Option<u32>
    ensures field_exact { result ≡ field_of name packet.now }
{
    match name {
        Field::Version => byte_at(packet, 0).map(|byte| u32::from(byte >> 4)),
        Field::Ihl => ihl(packet).map(u32::from),
        Field::TotalLength => half_at(packet, 2).map(u32::from),
        Field::MoreFragments => byte_at(packet, 6).map(|byte| u32::from((byte >> 5) & 1)),
        Field::FragmentOffset => half_at(packet, 6).map(|half| u32::from(half & 0x1fff)),
        Field::Protocol => byte_at(packet, 9).map(u32::from),
        Field::Source => word_at(packet, 12),
        Field::Destination => word_at(packet, 16),
        Field::SourcePort => behind_header(packet, 0).map(u32::from),
        Field::DestinationPort => behind_header(packet, 2).map(u32::from),
        Field::UdpLength => behind_header(packet, 4).map(u32::from),
    }
}

#[inline(always)]
fn behind_header(packet: &[u8], offset: usize) -> Option<u16>
    requires { offset ≤ 4 }
    ensures { result ≡ behind_header packet.now offset }
{
    let ihl = ihl(packet)?;
    half_at(packet, 4 * ihl as usize + offset)
}

#[inline(always)]
fn ihl(packet: &[u8]) -> Option<u8>
    ensures { result ≡ ihl_of packet.now }
{
    byte_at(packet, 0).map(|byte| byte & 0xf)
}

#[inline(always)]
fn byte_at(packet: &[u8], place: usize) -> Option<u8>
    requires { place ≤ 64 }
    ensures { result ≡ number_at 1 packet.now place }
{
    if place + 1 <= packet.len() {
        Some(packet[place])
    } else {
        None
    }
}

#[inline(always)]
fn half_at(packet: &[u8], place: usize) -> Option<u16>
    requires { place ≤ 64 }
    ensures { result ≡ number_at 2 packet.now place }
{
    if place + 2 <= packet.len() {
        Some(NetworkEndian::read_u16(&packet[place..]))
    } else {
        None
    }
}

#[inline(always)]
fn word_at(packet: &[u8], place: usize) -> Option<u32>
    requires { place ≤ 64 }
    ensures { result ≡ number_at 4 packet.now place }
{
    if place + 4 <= packet.len() {
        Some(NetworkEndian::read_u32(&packet[place..]))
    } else {
        None
    }
}
