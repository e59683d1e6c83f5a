//! The byte order of a capture file, and its numbers (draft-ietf-opsawg-pcap, section 4).

ghost use Rattle.std.specs.Prelude.{◌≡◌, ◌+◌, ◌≤◌, length};
ghost use Rattle.packet_capture.specs.Number.{field_at, number_at};

use byteorder::{BigEndian, ByteOrder, LittleEndian};

/// The order of the bytes of the numbers in a file: that of the machine which wrote it.
#[derive(Clone, Copy, Debug, PartialEq, Eq)]
pub enum Order {
    /// The high byte first.
    Big,
    /// The low byte first.
    Little,
}

impl Order {
    // Returns the number in the two bytes at a place.
    #[tactic(auto, unfolding(crate::specs::Number::number_at))]
    pub(crate) fn half_at(self, bytes: &[u8], place: usize) -> u16
        requires { place + 2 ≤ length bytes.now }
        ensures { result ≡ number_at self 2 bytes.now place }
    {
        match self {
            Order::Big => BigEndian::read_u16(&bytes[place..]),
            Order::Little => LittleEndian::read_u16(&bytes[place..]),
        }
    }

    // Returns the number in the four bytes at a place.
    #[tactic(auto, unfolding(crate::specs::Number::number_at))]
    pub(crate) fn word_at(self, bytes: &[u8], place: usize) -> u32
        requires { place + 4 ≤ length bytes.now }
        ensures { result ≡ number_at self 4 bytes.now place }
    {
        match self {
            Order::Big => BigEndian::read_u32(&bytes[place..]),
            Order::Little => LittleEndian::read_u32(&bytes[place..]),
        }
    }

    // The same, `None` if a byte is missing.
    pub(crate) fn half_field(self, bytes: &[u8], place: usize) -> Option<u32>
        requires { place ≤ 64 }
        ensures { result ≡ field_at self 2 bytes.now place }
    {
        if place + 2 <= bytes.len() {
            Some(u32::from(self.half_at(bytes, place)))
        } else {
            None
        }
    }

    pub(crate) fn word_field(self, bytes: &[u8], place: usize) -> Option<u32>
        requires { place ≤ 64 }
        ensures { result ≡ field_at self 4 bytes.now place }
    {
        if place + 4 <= bytes.len() {
            Some(self.word_at(bytes, place))
        } else {
            None
        }
    }
}
