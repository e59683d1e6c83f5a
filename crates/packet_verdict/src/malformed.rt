//! Why a packet is malformed: the first rule that it breaks (docs/SWITCH.md, "Which packets are dispatched").

ghost use Rattle.std.specs.Prelude.{◌≡◌, ◌<◌, ◌^◌, ◌↔◌, IsNone, IsSome, List, ℕ};
ghost use Rattle.config_image.specs.Image.{Group};
ghost use Rattle.ipv4_fields.specs.Dispatchable.{IsDispatchable, field_value};
ghost use Rattle.packet_verdict.specs.Malformed.{is_no_fragment, lengths_fit, malformation_of, udp_length_fits};
ghost use Rattle.packet_verdict.specs.Verdict.{value_of, verdict};
ghost use Rattle.packet_verdict.specs.declared.verdict.Verdict.TheVariants.{Malformed};

use ipv4_fields::{Field, field};

/// The first rule that a malformed packet breaks, in the order in which the rules are tested.
#[derive(Clone, Copy, Debug, PartialEq, Eq)]
pub enum Malformation {
    /// It has fewer than 20 bytes.
    Short,
    /// Its version is not 4.
    Version,
    /// Its IHL is below 5.
    Header,
    /// Its total length is not the number of its bytes, or is too small for a UDP header.
    Length,
    /// Its protocol is not UDP.
    Protocol,
    /// It is a fragment.
    Fragment,
    /// Its UDP length is below 8, or above what the total length leaves for it.
    UdpLength,
}

fn value(name: Field, packet: &[u8]) -> usize
    ensures value { result ≡ field_value name packet.now }
    ensures bounded { result < 2 ^ 32 }
{
    field(name, packet).unwrap_or(0) as usize
}

#[tactic(auto, unfolding(crate::specs::Malformed::lengths_fit))]
fn lengths_fit(packet: &[u8]) -> bool
    ensures { result ≡ lengths_fit packet.now }
{
    let header_length = 4 * value(Field::Ihl, packet);
    let total_length = value(Field::TotalLength, packet);
    total_length == packet.len() && header_length + 8 <= total_length
}

#[tactic(auto, unfolding(crate::specs::Malformed::is_no_fragment))]
fn is_no_fragment(packet: &[u8]) -> bool
    ensures { result ≡ is_no_fragment packet.now }
{
    value(Field::MoreFragments, packet) == 0 && value(Field::FragmentOffset, packet) == 0
}

#[tactic(auto, unfolding(crate::specs::Malformed::udp_length_fits))]
fn udp_length_fits(packet: &[u8]) -> bool
    ensures { result ≡ udp_length_fits packet.now }
{
    let header_length = 4 * value(Field::Ihl, packet);
    let udp_length = value(Field::UdpLength, packet);
    udp_length >= 8 && header_length + udp_length <= value(Field::TotalLength, packet)
}

/// Returns the first rule that a packet breaks, `None` if it is dispatched. Takes no memory.
#[tactic(auto, using(crate::proofs::MalformedLemmas::at_short, crate::proofs::MalformedLemmas::at_version, crate::proofs::MalformedLemmas::at_header, crate::proofs::MalformedLemmas::at_length, crate::proofs::MalformedLemmas::at_protocol, crate::proofs::MalformedLemmas::at_fragment, crate::proofs::MalformedLemmas::at_udp_length, crate::proofs::MalformedLemmas::at_none))]
pub fn malformation_of(packet: &[u8]) -> Option<Malformation>
    ensures { result ≡ malformation_of packet.now }
{
    if packet.len() < 20 {
        return Some(Malformation::Short);
    }
    if value(Field::Version, packet) != 4 {
        return Some(Malformation::Version);
    }
    if value(Field::Ihl, packet) < 5 {
        return Some(Malformation::Header);
    }
    if !lengths_fit(packet) {
        return Some(Malformation::Length);
    }
    if value(Field::Protocol, packet) != 17 {
        return Some(Malformation::Protocol);
    }
    if !is_no_fragment(packet) {
        return Some(Malformation::Fragment);
    }
    if !udp_length_fits(packet) {
        return Some(Malformation::UdpLength);
    }
    None
}

/// Law: a packet breaks none of the rules exactly if it is dispatched, and its verdict is `Malformed` exactly if it breaks one. It
/// runs nothing.
#[tactic(auto, using(crate::proofs::MalformedLemmas::breaks_none, crate::proofs::MalformedLemmas::breaks_one))]
pub fn malformed_exactly()
    ensures dispatched { (packet : List ℕ) → IsNone (malformation_of packet) ↔ IsDispatchable packet }
    ensures verdict { (config : List Group) (packet : List ℕ) → (verdict value_of config packet ≡ Malformed) ↔ IsSome (malformation_of packet) }
{}
