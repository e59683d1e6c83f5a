//! The header of a capture file (draft-ietf-opsawg-pcap, section 4).

ghost use Rattle.std.specs.Prelude.{◌≡◌, ◌≤◌, IfErr, IfOk, length};
ghost use Rattle.packet_capture.specs.Fault.{HasOneHeader, IsHeaderFault, IsVersion, magic_of};
ghost use Rattle.packet_capture.specs.Header.{IsFileHeader, link_number, order_of};

use crate::fault::HeaderFault;
use crate::link_type::LinkType;
use crate::order::Order;

/// The number of bytes of the header.
pub const FILE_HEADER: usize = 24;

/// The facts about the records in the header of a file.
#[derive(Clone, Copy, Debug, PartialEq, Eq)]
pub struct FileHeader {
    pub order: Order,
    pub link_type: LinkType,
}

/// Reads the header of a capture file: the magic number, the version and the link type.
///
/// `bytes` is the file, or its beginning. Times in microseconds and in nanoseconds are read alike. The snapshot length
/// is ignored, and so are the high 16 bits of the last field, which describe frame check sequences.
pub fn read_header(bytes: &[u8]) -> Result<FileHeader, HeaderFault>
    ensures header { IfOk result (IsFileHeader bytes.now) }
    ensures fault { IfErr result (IsHeaderFault bytes.now) }
{
    let order = read_order(bytes)?;
    if bytes.len() < FILE_HEADER {
        return Err(HeaderFault::Cut);
    }
    if order.half_at(bytes, 4) != 2 || order.half_at(bytes, 6) != 4 {
        return Err(HeaderFault::Version);
    }
    let number = (order.word_at(bytes, 20) % 0x1_0000) as u16;
    match LinkType::from_number(number) {
        Some(link_type) => Ok(FileHeader { order, link_type }),
        None => Err(HeaderFault::LinkType(number)),
    }
}

// Returns the byte order of the magic number.
fn read_order(bytes: &[u8]) -> Result<Order, HeaderFault>
    ensures order { IfOk result (λ order. (4 ≤ length bytes.now) × (order_of (magic_of bytes.now) ≡ Some order)) }
    ensures fault { IfErr result (IsHeaderFault bytes.now) }
{
    if bytes.len() < 4 {
        return Err(HeaderFault::Cut);
    }
    match Order::Big.word_at(bytes, 0) {
        0xa1b2_c3d4 | 0xa1b2_3c4d => Ok(Order::Big),
        0xd4c3_b2a1 | 0x4d3c_b2a1 => Ok(Order::Little),
        0x0a0d_0d0a => Err(HeaderFault::Pcapng),
        _ => Err(HeaderFault::Magic),
    }
}

/// Law: bytes have at most one header and at most one fault, and never both. It runs nothing.
pub fn one_header(bytes: &[u8])
    ensures { HasOneHeader bytes.now }
{}
