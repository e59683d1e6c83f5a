//! The records of a capture file (draft-ietf-opsawg-pcap, section 5).

ghost use Rattle.std.specs.Prelude.{MatchOption};
ghost use Rattle.packet_capture.specs.Record.{HasNoRecord, IsRecord};

use crate::order::Order;

/// The number of bytes of the header of a record.
pub const RECORD_HEADER: usize = 16;

/// Splits off the first record: returns its captured bytes, and the bytes after the record.
///
/// `None` if the bytes end in a record, or if there are none. The captured length alone decides where a record ends; it
/// may be above the snapshot length and above the packet's own length.
pub fn first_record(order: Order, bytes: &[u8]) -> Option<(&[u8], &[u8])>
    ensures { MatchOption result (HasNoRecord order bytes.now) (λ parts. IsRecord order bytes.now parts.0.now parts.1.now) }
{
    if bytes.len() < RECORD_HEADER {
        return None;
    }
    let captured = order.word_at(bytes, 8) as usize;
    let behind = &bytes[RECORD_HEADER..];
    if behind.len() < captured {
        return None;
    }
    Some(behind.split_at(captured))
}
