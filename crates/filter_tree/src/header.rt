//! Tests on the fields of a packet's header.

ghost use Rattle.std.specs.Prelude.{◌≡◌, ◌==◌};
ghost use Rattle.ipv4_fields.specs.declared.header.Field.TheVariants.{Protocol as ProtocolField};
ghost use Rattle.ipv4_fields.specs.Field.{field_of};
ghost use Rattle.filter_tree.specs.Outcome.{tested};
ghost use Rattle.filter_tree.specs.Primitive.{has_ports, is_first_fragment, is_ip, is_protocol};

use crate::primitive::Transport;
use crate::truth::Truth;
use ipv4_fields::{Field, field};

pub fn is_equal(value: Option<u32>, n: u32) -> Truth
    ensures { result ≡ tested (λ v. v == n) value }
{
    match value {
        Some(value) => Truth::answer(value == n),
        None => Truth::Fails,
    }
}

pub fn is_ip(packet: &[u8]) -> Truth
    ensures { result ≡ is_ip packet.now }
{
    is_equal(field(Field::Version, packet), 4)
}

pub fn is_protocol(n: u8, packet: &[u8]) -> Truth
    ensures { result ≡ is_protocol n packet.now }
{
    is_equal(field(Field::Protocol, packet), n as u32)
}

pub fn is_first_fragment(packet: &[u8]) -> Truth
    ensures { result ≡ is_first_fragment packet.now }
{
    is_equal(field(Field::FragmentOffset, packet), 0)
}

pub fn has_ports(transport: Transport, packet: &[u8]) -> Truth
    ensures { result ≡ tested (has_ports transport) (field_of ProtocolField packet.now) }
{
    match field(Field::Protocol, packet) {
        Some(protocol) => Truth::answer(match transport {
            Transport::Tcp => protocol == 6,
            Transport::Udp => protocol == 17,
            Transport::Unnamed => protocol == 6 || protocol == 17 || protocol == 132,
        }),
        None => Truth::Fails,
    }
}
