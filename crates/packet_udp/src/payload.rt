//! The payload of a UDP datagram (RFC 768, "Format").

ghost use Rattle.std.specs.Prelude.{◌≡◌};
ghost use Rattle.std.specs.Option.{option_map};
ghost use Rattle.packet_udp.specs.Payload.{payload_to};

use crate::headers::UDP_HEADER;
use ipv4_fields::{Field, dispatchable, field};

/// Returns the payload of a packet that is one whole UDP datagram to this port, `None` for any other packet.
///
/// `packet` begins with the first byte of the IPv4 header. A fragment is no whole datagram. Bytes after the UDP length are padding, and
/// left out. Reads no checksum.
pub fn payload_to(port: u16, packet: &[u8]) -> Option<&[u8]>
    ensures { option_map (λ payload. payload.now) result ≡ payload_to port packet.now }
{
    let flow = dispatchable(packet)?;
    if flow.destination.port != port {
        return None;
    }
    let udp = 4 * field(Field::Ihl, packet)? as usize;
    let length = field(Field::UdpLength, packet)? as usize;
    Some(&packet[udp + UDP_HEADER..udp + length])
}
