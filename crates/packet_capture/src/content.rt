//! The content of a record: an IPv4 packet, one that was cut, or something else (docs/COMMANDS.md, "packets").

ghost use Rattle.std.specs.Prelude.{◌≡◌, ◌≤◌, ◌↔◌, IfSome, IsTrue};
ghost use Rattle.packet_capture.specs.Content.{HasOneContent, IsContent};
ghost use Rattle.packet_capture.specs.LinkLayer.{MayHoldIpv4};
ghost use Rattle.packet_capture.specs.Packet.{IsIpv4SoFar, ReachesHeader};
ghost use Rattle.packet_capture.specs.body.Front.{IsFront};
ghost use Rattle.ipv4_fields.specs.Field.{field_of};
ghost use Rattle.ipv4_fields.specs.declared.header.Field.TheVariants.{Ihl, Version};

use crate::link_type::LinkType;
use crate::order::Order;
use ipv4_fields::{Field, field};

/// The content of a record.
#[derive(Clone, Copy, Debug, PartialEq, Eq)]
pub enum Content<'a> {
    /// A whole IPv4 packet, without the bytes after its end.
    Packet(&'a [u8]),
    /// The record ends before its IPv4 packet does, or before its content can be recognized.
    Cut,
    /// Not an IPv4 packet.
    Other,
}

/// Returns the content of a record, from its captured bytes.
///
/// The total length in a packet's header is its length (RFC 791, section 3.1), so a packet has at most 65,535 bytes. If
/// the frame of a record was cut after the packet's end, the packet is whole.
pub fn content_of<'a>(link_type: LinkType, order: Order, captured: &'a [u8]) -> Content<'a>
    ensures { IsContent link_type order captured.entry.now result }
{
    if !may_hold_ipv4(link_type, order, captured) {
        return Content::Other;
    }
    let start = link_type.header_length(captured).min(captured.len());
    front(&captured[start..])
}

fn may_hold_ipv4(link_type: LinkType, order: Order, captured: &[u8]) -> bool
    ensures { IsTrue result ↔ MayHoldIpv4 link_type order captured.now }
{
    match link_type.protocol(order, captured) {
        Some(number) => number == link_type.ipv4_number(),
        None => true,
    }
}

// Returns the content at the front of the bytes after a link header.
fn front(bytes: &[u8]) -> Content<'_>
    ensures { IsFront bytes.now result }
{
    if !is_ipv4_so_far(bytes) {
        return Content::Other;
    }
    match field(Field::TotalLength, bytes) {
        Some(total) if total as usize <= bytes.len() => Content::Packet(&bytes[..total as usize]),
        _ => Content::Cut,
    }
}

fn is_ipv4_so_far(bytes: &[u8]) -> bool
    ensures { IsTrue result ↔ IsIpv4SoFar bytes.now }
{
    has_version(bytes) && has_header(bytes) && reaches_header(bytes)
}

fn has_version(bytes: &[u8]) -> bool
    ensures { IsTrue result ↔ IfSome (field_of Version bytes.now) (λ version. version ≡ 4) }
{
    match field(Field::Version, bytes) {
        Some(version) => version == 4,
        None => true,
    }
}

fn has_header(bytes: &[u8]) -> bool
    ensures { IsTrue result ↔ IfSome (field_of Ihl bytes.now) (λ ihl. 5 ≤ ihl) }
{
    match field(Field::Ihl, bytes) {
        Some(ihl) => ihl >= 5,
        None => true,
    }
}

// Whether the total length reaches to the header's end.
fn reaches_header(bytes: &[u8]) -> bool
    ensures { IsTrue result ↔ ReachesHeader bytes.now }
{
    match (field(Field::Ihl, bytes), field(Field::TotalLength, bytes)) {
        (Some(ihl), Some(total)) => ihl <= total / 4,
        _ => true,
    }
}

/// Law: a record has one content. It runs nothing.
pub fn one_content(link_type: LinkType, order: Order, captured: &[u8])
    ensures { HasOneContent link_type order captured.now }
{}
