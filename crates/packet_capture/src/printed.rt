//! The printed bytes of a packet (docs/COMMANDS.md, "packets").

ghost use Rattle.std.specs.Prelude.{◌≡◌};
ghost use Rattle.std.specs.Option.{option_map};
ghost use Rattle.packet_capture.specs.Capture.{printed_packet};

use packet_udp::payload_to;

/// Returns the packet itself. If a port is given, returns the payload of a datagram to this port, and `None` for
/// another packet.
pub(crate) fn printed_packet(unwrap: Option<u16>, packet: &[u8]) -> Option<&[u8]>
    ensures { option_map (λ printed. printed.now) result ≡ printed_packet unwrap packet.now }
{
    match unwrap {
        None => Some(packet),
        Some(port) => payload_to(port, packet),
    }
}
