//! Packets of UDP over IPv4: made of their endpoints and payload, and opened again (RFC 791, section 3.1; RFC 768, "Format").
//!
//! `udp_packet` makes a packet with its lengths and checksums. `payload_to` finds the payload of a datagram to a port.
#![tactic(auto)]

ghost use Rattle.std.specs.Prelude.{◌≡◌, ◌≤◌, IfOk, Some, length};
ghost use Rattle.ipv4_fields.specs.Dispatchable.{flow_of};
ghost use Rattle.packet_udp.specs.Packet.{IsUdpPacket};
ghost use Rattle.packet_udp.specs.Payload.{payload_to};

mod checksum;
mod headers;
mod payload;

use headers::{IPV4_HEADER, UDP_HEADER, ipv4_header, udp_header};
use ipv4_fields::Endpoint;
pub use payload::payload_to;
use std::alloc::{AllocError, Global};

/// The most bytes of a payload: as many as a total length of 65,535 has room for.
pub const MAX_PAYLOAD: usize = 65507;

/// Makes a packet of UDP over IPv4 that carries the payload from one endpoint to another.
///
/// The IPv4 header has 20 bytes, identification 0, DF and a time to live of 64. Both checksums are right; a UDP checksum of 0 is sent
/// as 65,535.
pub fn udp_packet(
    alloc: Global,
    from: Endpoint,
    to: Endpoint,
    payload: &[u8],
) -> Result<Vec<u8>, AllocError>
    requires { length payload.now ≤ MAX_PAYLOAD }
    ensures packet { IfOk result (λ packet. IsUdpPacket from to payload.now packet.items) }
{
    let datagram = (UDP_HEADER + payload.len()) as u16;
    let total = (IPV4_HEADER + UDP_HEADER + payload.len()) as u16;
    let mut packet = Vec::with_capacity(alloc, total as usize)?;
    packet.extend_from_slice(&ipv4_header(from.address, to.address, total))?;
    packet.extend_from_slice(&udp_header(from, to, datagram, payload))?;
    packet.extend_from_slice(payload)?;
    Ok(packet)
}

/// Law: such a packet is dispatched, by its two endpoints. It runs nothing.
pub fn packed_is_dispatched(from: Endpoint, to: Endpoint, payload: &[u8], packet: &[u8])
    requires { IsUdpPacket from to payload.now packet.now }
    ensures { flow_of packet.now ≡ Some (record { source = from; destination = to }) }
{}

/// Law: the payload of such a packet is found again. It runs nothing.
pub fn packed_is_unpacked(from: Endpoint, to: Endpoint, payload: &[u8], packet: &[u8])
    requires { IsUdpPacket from to payload.now packet.now }
    ensures { payload_to to.port packet.now ≡ Some payload.now }
{}
