//! The test whether a packet is one whole UDP datagram (RFC 791, section 3.1; RFC 768, "Format").

ghost use Rattle.std.specs.Prelude.{◌≡◌, ◌<◌, ◌≤◌, ◌+◌, ◌*◌, ◌↔◌, IfSome, IsSome, length};
ghost use Rattle.ipv4_fields.specs.declared.header.Field.TheVariants.{Destination, DestinationPort, FragmentOffset, Ihl, MoreFragments, Protocol, Source, SourcePort, TotalLength, UdpLength, Version};
ghost use Rattle.ipv4_fields.specs.Dispatchable.{IsDispatchable, IsFlowOf, field_value, flow_of, header_length};

use crate::endpoint::{Endpoint, Flow};
use byteorder::{ByteOrder, NetworkEndian};

/// Returns the two ends of a packet that is one whole UDP datagram over IPv4 by its own length fields (RFC 791, section
/// 3.1; RFC 768, "Format").
///
/// `packet` begins with the first byte of the IPv4 header; addresses and ports are in host order. Reads no checksum.
#[tactic(auto, using(crate::proofs::FlowLemmas::flow_exact, crate::proofs::FlowLemmas::ends))]
pub fn dispatchable(packet: &[u8]) -> Option<Flow>
    ensures flow_exact { IsSome result ↔ IsDispatchable packet.now }
    ensures ends { IfSome result (IsFlowOf packet.now) }
    ensures flow { result ≡ flow_of packet.now }
{
    flow(packet)
}

#[inline(always)]
#[tactic(auto, using(crate::proofs::FlowLemmas::no_flow, crate::proofs::FlowLemmas::has_flow))]
fn flow(packet: &[u8]) -> Option<Flow>
    ensures { result ≡ flow_of packet.now }
{
    if packet.len() < 20 {
        return None;
    }
    let (version, ihl) = version_and_ihl(packet);
    let udp = 4 * ihl;
    let total_length = total_length(packet);
    if version != 4 || ihl < 5 || total_length != packet.len() || total_length < udp + 8 {
        return None;
    }
    if more_and_offset(packet) != 0 || protocol(packet) != 17 {
        return None;
    }
    let udp_length = udp_length(packet, udp);
    if udp_length < 8 || udp_length > total_length - udp {
        return None;
    }
    Some(Flow {
        source: source(packet, udp),
        destination: destination(packet, udp),
    })
}

#[inline(always)]
#[tactic(auto, unfolding(crate::specs::Field::field_of))]
fn version_and_ihl(packet: &[u8]) -> (u8, usize)
    requires { 20 ≤ length packet.now }
    ensures version { result.0 ≡ field_value Version packet.now }
    ensures ihl { result.1 ≡ field_value Ihl packet.now }
    ensures fits { result.1 < 16 }
{
    let first = packet[0];
    (first >> 4, (first & 0xf) as usize)
}

#[inline(always)]
#[tactic(auto, unfolding(crate::specs::Field::field_of))]
fn total_length(packet: &[u8]) -> usize
    requires { 20 ≤ length packet.now }
    ensures { result ≡ field_value TotalLength packet.now }
{
    NetworkEndian::read_u16(&packet[2..]) as usize
}

#[inline(always)]
#[tactic(auto, unfolding(crate::specs::Field::field_of))]
fn more_and_offset(packet: &[u8]) -> u16
    requires { 20 ≤ length packet.now }
    ensures { result ≡ 8192 * field_value MoreFragments packet.now + field_value FragmentOffset packet.now }
{
    NetworkEndian::read_u16(&packet[6..]) & 0x3fff
}

#[inline(always)]
#[tactic(auto, unfolding(crate::specs::Field::field_of))]
fn protocol(packet: &[u8]) -> u8
    requires { 20 ≤ length packet.now }
    ensures { result ≡ field_value Protocol packet.now }
{
    packet[9]
}

#[inline(always)]
#[tactic(auto, unfolding(crate::specs::Field::field_of))]
fn udp_length(packet: &[u8], udp: usize) -> usize
    requires header { 1 ≤ length packet.now }
    requires place { udp ≡ header_length packet.now }
    requires udp_header { udp + 8 ≤ length packet.now }
    ensures { result ≡ field_value UdpLength packet.now }
{
    NetworkEndian::read_u16(&packet[udp + 4..]) as usize
}

#[inline(always)]
#[tactic(auto, unfolding(crate::specs::Field::field_of))]
fn source(packet: &[u8], udp: usize) -> Endpoint
    requires header { 20 ≤ length packet.now }
    requires place { udp ≡ header_length packet.now }
    requires udp_header { udp + 8 ≤ length packet.now }
    ensures address { result.address ≡ field_value Source packet.now }
    ensures port { result.port ≡ field_value SourcePort packet.now }
{
    Endpoint {
        address: NetworkEndian::read_u32(&packet[12..]),
        port: NetworkEndian::read_u16(&packet[udp..]),
    }
}

#[inline(always)]
#[tactic(auto, unfolding(crate::specs::Field::field_of))]
fn destination(packet: &[u8], udp: usize) -> Endpoint
    requires header { 20 ≤ length packet.now }
    requires place { udp ≡ header_length packet.now }
    requires udp_header { udp + 8 ≤ length packet.now }
    ensures address { result.address ≡ field_value Destination packet.now }
    ensures port { result.port ≡ field_value DestinationPort packet.now }
{
    Endpoint {
        address: NetworkEndian::read_u32(&packet[16..]),
        port: NetworkEndian::read_u16(&packet[udp + 2..]),
    }
}
