//! The order of endpoints, and packets of UDP.

ghost use Rattle.std.specs.Prelude.{◌≤◌, length};

use ipv4_fields::Endpoint;
use packet_udp::{payload_to, udp_packet};
use std::alloc::Global;
use std::process::Abort;

const SOURCE: Endpoint = Endpoint {
    address: 0x0a00_0001,
    port: 5000,
};

const DESTINATION: Endpoint = Endpoint {
    address: 0x0a00_0002,
    port: 53,
};

#[test]
fn endpoints_are_ordered_by_address_first(rt: HostRuntime) {
    let low = Endpoint {
        address: 1,
        port: 65_535,
    };
    let high = Endpoint {
        address: 2,
        port: 0,
    };
    assert!(rt; low < high);
    assert!(rt; SOURCE < DESTINATION);
}

// UDP from the source to the destination, by hand after RFC 791 and RFC 768: with the payload `a`, and with two bytes for which the
// UDP checksum would be 0.
static PACKED: [u8; 29] = [
    0x45, 0x00, 0x00, 0x1d, 0x00, 0x00, 0x40, 0x00, 0x40, 0x11, 0x26, 0xce, 0x0a, 0x00, 0x00, 0x01,
    0x0a, 0x00, 0x00, 0x02, 0x13, 0x88, 0x00, 0x35, 0x00, 0x09, 0x77, 0x1c, 0x61,
];

static FULL_SUM: [u8; 30] = [
    0x45, 0x00, 0x00, 0x1e, 0x00, 0x00, 0x40, 0x00, 0x40, 0x11, 0x26, 0xcd, 0x0a, 0x00, 0x00, 0x01,
    0x0a, 0x00, 0x00, 0x02, 0x13, 0x88, 0x00, 0x35, 0x00, 0x0a, 0xff, 0xff, 0xd8, 0x1a,
];

fn is_packed(rt: &impl Abort, alloc: Global, payload: &[u8], wanted: &[u8]) -> bool
    requires { length payload.now ≤ 64 }
{
    let packet = udp_packet(alloc, SOURCE, DESTINATION, payload).expect(rt, "memory");
    packet.as_slice() == wanted
}

#[test]
fn packets_of_udp(rt: HostRuntime) {
    assert!(rt; is_packed(&rt, rt.alloc(), b"a".as_slice(), &PACKED));
    assert!(rt; is_packed(&rt, rt.alloc(), b"\xd8\x1a".as_slice(), &FULL_SUM));
}

#[test]
fn payloads_by_port(rt: HostRuntime) {
    assert!(rt; payload_to(53, &PACKED) == Some(b"a".as_slice()));
    assert!(rt; payload_to(5000, &PACKED) == None);
    assert!(rt; payload_to(53, &PACKED[..28]) == None);
}
