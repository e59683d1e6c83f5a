//! The supported link types, and the bytes before the packet of a record (tcpdump.org/linktypes.html).

ghost use Rattle.std.specs.Prelude.{◌≡◌, ◌≤◌};
ghost use Rattle.packet_capture.specs.Header.{link_type_of};
ghost use Rattle.packet_capture.specs.LinkLayer.{header_length, ipv4_number, is_tag, protocol_of, tags_of};
ghost use Rattle.packet_capture.specs.Number.{field_at};
ghost use Rattle.packet_capture.specs.declared.order.Order.TheVariants.{Big};

use crate::order::Order;

/// The bytes before a packet in the records of a file.
#[derive(Clone, Copy, Debug, PartialEq, Eq)]
pub enum LinkType {
    /// LINKTYPE_NULL, 0: the protocol family in four bytes, in the file's byte order; BSD's loopback.
    Null,
    /// LINKTYPE_ETHERNET, 1: two addresses, at most two tags, and the EtherType.
    Ethernet,
    /// LINKTYPE_RAW, 101, LINKTYPE_IPV4, 228, and 12 and 14, which some systems write for raw IP: nothing.
    Raw,
    /// LINKTYPE_LOOP, 108: the protocol family in four bytes, the high byte first; OpenBSD's loopback.
    Loop,
    /// LINKTYPE_LINUX_SLL, 113: sixteen bytes, of which the last two are the protocol.
    LinuxCooked,
    /// LINKTYPE_LINUX_SLL2, 276: twenty bytes, of which the first two are the protocol.
    LinuxCookedV2,
}

impl LinkType {
    /// Returns the link type of a number, `None` if it is not supported.
    pub fn from_number(number: u16) -> Option<LinkType>
        ensures { result ≡ link_type_of number }
    {
        match number {
            0 => Some(LinkType::Null),
            1 => Some(LinkType::Ethernet),
            12 | 14 | 101 | 228 => Some(LinkType::Raw),
            108 => Some(LinkType::Loop),
            113 => Some(LinkType::LinuxCooked),
            276 => Some(LinkType::LinuxCookedV2),
            _ => None,
        }
    }

    #[tactic(auto, unfolding(crate::specs::LinkLayer::header_length))]
    pub(crate) fn header_length(self, captured: &[u8]) -> usize
        ensures { result ≡ header_length self captured.now }
    {
        match self {
            LinkType::Null => 4,
            LinkType::Ethernet => 14 + 4 * tags(captured),
            LinkType::Raw => 0,
            LinkType::Loop => 4,
            LinkType::LinuxCooked => 16,
            LinkType::LinuxCookedV2 => 20,
        }
    }

    #[tactic(auto, unfolding(crate::specs::LinkLayer::protocol_of))]
    pub(crate) fn protocol(self, order: Order, captured: &[u8]) -> Option<u32>
        ensures { result ≡ protocol_of self order captured.now }
    {
        match self {
            LinkType::Null => order.word_field(captured, 0),
            LinkType::Ethernet => Order::Big.half_field(captured, 12 + 4 * tags(captured)),
            LinkType::Raw => None,
            LinkType::Loop => Order::Big.word_field(captured, 0),
            LinkType::LinuxCooked => Order::Big.half_field(captured, 14),
            LinkType::LinuxCookedV2 => Order::Big.half_field(captured, 0),
        }
    }

    #[tactic(auto, unfolding(crate::specs::LinkLayer::ipv4_number))]
    pub(crate) fn ipv4_number(self) -> u32
        ensures { result ≡ ipv4_number self }
    {
        match self {
            LinkType::Null | LinkType::Loop => 2,
            LinkType::Ethernet | LinkType::Raw | LinkType::LinuxCooked | LinkType::LinuxCookedV2 =>
                0x0800,
        }
    }
}

// Returns the number of tags after the addresses of a frame; at most two are read.
fn tags(frame: &[u8]) -> usize
    ensures tags { result ≡ tags_of frame.now }
    ensures most { result ≤ 2 }
{
    match (has_tag_at(frame, 12), has_tag_at(frame, 16)) {
        (false, _) => 0,
        (true, false) => 1,
        (true, true) => 2,
    }
}

fn has_tag_at(frame: &[u8], place: usize) -> bool
    requires { place ≤ 64 }
    ensures { result ≡ is_tag (field_at Big 2 frame.now place) }
{
    match Order::Big.half_field(frame, place) {
        Some(number) => number == 0x8100 || number == 0x88a8 || number == 0x9100,
        None => false,
    }
}
