//! The lines of a script that have a packet (docs/COMMANDS.md, "replay").

ghost use Rattle.std.specs.Prelude.{IfOk, MatchOption};
ghost use Rattle.control.specs.PacketLine.{HasNoPacket, IsPacketRead};
ghost use Rattle.control.specs.body.Packet.{IsReadInto};

use control_line::{LINE_LIMIT, OutOfMemory, Reason, read_packet};
use std::alloc::Global;

/// The content of a script's line with good digits: a packet, or too many bytes for one.
#[derive(Drop)]
pub enum PacketLine {
    Packet(Vec<u8>),
    TooLong,
}

/// The same for a line whose packet was read into a buffer.
#[derive(Clone, Copy)]
pub(crate) enum PacketSize {
    Whole,
    TooLong,
}

/// Reads the packet of a script's line that is not too long and has good digits. Returns `None` for any other line, which is a
/// control line.
pub fn read_packet_line(alloc: Global, text: &[u8]) -> Result<Option<PacketLine>, OutOfMemory>
    ensures read { IfOk result (λ line. MatchOption line (HasNoPacket text.now) (IsPacketRead text.now)) }
{
    let mut packet = Vec::new(alloc);
    match read_packet_into(text, &mut packet)? {
        None => Ok(None),
        Some(PacketSize::Whole) => Ok(Some(PacketLine::Packet(packet))),
        Some(PacketSize::TooLong) => Ok(Some(PacketLine::TooLong)),
    }
}

/// Reads the packet as `read_packet_line` does, but into a buffer that is used again.
pub(crate) fn read_packet_into(
    text: &[u8],
    packet: &mut Vec<u8>,
) -> Result<Option<PacketSize>, OutOfMemory>
    ensures read { IfOk result (λ line. MatchOption line (HasNoPacket text.now) (IsReadInto text.now packet.new.items)) }
{
    if text.len() > LINE_LIMIT {
        return Ok(None);
    }
    let Some(digits) = text.strip_prefix(b"packet ") else {
        return Ok(None);
    };
    match read_packet(digits, packet)? {
        Ok(()) => Ok(Some(PacketSize::Whole)),
        Err(Reason::PacketTooLong) => Ok(Some(PacketSize::TooLong)),
        Err(_) => Ok(None),
    }
}
