//! Numbers from a packet's bytes.

ghost use Rattle.std.specs.Prelude.{◌≡◌, ◌<◌, ◌≤◌, ◌^◌, length};
ghost use Rattle.bpf_insn.specs.declared.instruction.Size.TheVariants.{Byte};
ghost use Rattle.bpf_machine.specs.Packet.{packet_number};
ghost use Rattle.bpf_machine.specs.Meaning.{header_length};

use crate::MAX_PACKET;
use bpf_insn::Size;

#[inline(always)]
pub fn number(packet: &[u8], size: Size, place: u64) -> Option<u32>
    requires packet { length packet.now ≤ MAX_PACKET }
    requires place { place < 2 ^ 33 }
    ensures { result ≡ packet_number packet.now size place }
{
    let len = packet.len() as u64;
    match size {
        Size::Word => {
            if place + 4 <= len {
                let i = place as usize;
                Some(u32::from_be_bytes([packet[i], packet[i + 1], packet[i + 2], packet[i + 3]]))
            } else {
                None
            }
        }
        Size::Half => {
            if place + 2 <= len {
                let i = place as usize;
                Some(u16::from_be_bytes([packet[i], packet[i + 1]]) as u32)
            } else {
                None
            }
        }
        Size::Byte => {
            if place < len {
                Some(packet[place as usize] as u32)
            } else {
                None
            }
        }
    }
}

#[inline(always)]
pub fn header_length(packet: &[u8], place: u64) -> Option<u32>
    requires packet { length packet.now ≤ MAX_PACKET }
    requires place { place < 2 ^ 33 }
    ensures { result ≡ header_length (packet_number packet.now Byte place) }
{
    match number(packet, Size::Byte, place) {
        Some(byte) => Some(4 * (byte % 16)),
        None => None,
    }
}
