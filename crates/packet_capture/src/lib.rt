//! Capture files of libpcap, and the IPv4 packets in them (draft-ietf-opsawg-pcap; docs/COMMANDS.md, "packets").
//!
//! A file is read record by record: `read_header` reads its header, `first_record` splits off a record, and
//! `content_of` returns its content. Both byte orders are read, times in microseconds and in nanoseconds, and the link
//! types of `LinkType`.
//!
//! `summarize` counts the records of a file, and finds where it is cut. `print_packets` writes a line of a script for
//! each packet, and the refusal if the file is not a capture file or is cut. Both use the packets carried by datagrams
//! to a port, if a port is given. No other call takes memory.
#![tactic(auto)]

ghost use Rattle.std.specs.Prelude.{◌≡◌, ◌+◌, ◌<◌, ◌^◌, IfErr, IfOk, None};
ghost use Rattle.packet_capture.specs.Capture.{IsSummary};
ghost use Rattle.packet_capture.specs.Fault.{IsHeaderFault};
ghost use Rattle.packet_capture.specs.Record.{HasNoRecord};
ghost use Rattle.packet_capture.specs.body.Progress.{CountsOne, IsCounted};

mod content;
mod counts;
mod fault;
mod header;
mod line;
mod link_type;
mod order;
mod packet_lines;
mod printed;
mod record;
mod refusal;

pub use content::{Content, content_of, one_content};
pub use fault::HeaderFault;
pub use header::{FILE_HEADER, FileHeader, one_header, read_header};
pub use link_type::LinkType;
pub use order::Order;
pub use packet_lines::print_packets;
use printed::printed_packet;
pub use record::{RECORD_HEADER, first_record};

/// The header of a file, the numbers of its records by content, and the place where it is cut.
#[derive(Clone, Copy, Debug, PartialEq, Eq)]
pub struct Summary {
    pub header: FileHeader,
    /// Whole IPv4 packets; with a port, the packets carried by datagrams to it.
    pub whole: usize,
    /// IPv4 packets that were cut, and records that end before their content can be recognized.
    pub cut: usize,
    /// Records with another content; with a port, other packets too.
    pub other: usize,
    /// The place of the first byte after the last whole record, counted from 0, if there is such a byte.
    pub cut_at: Option<usize>,
}

/// Counts the records of a capture file by their content, and finds where it is cut.
///
/// `file` is the whole file. `unwrap` is the port whose datagrams are replaced by the packets that they carry, if one
/// is given. `Err` is the first fault of the header.
pub fn summarize(unwrap: Option<u16>, file: &[u8]) -> Result<Summary, HeaderFault>
    ensures summary { IfOk result (IsSummary unwrap file.now) }
    ensures fault { IfErr result (IsHeaderFault file.now) }
{
    let header = read_header(file)?;
    let (mut summary, rest) = count_records(unwrap, header, &file[FILE_HEADER..]);
    if !rest.is_empty() {
        summary.cut_at = Some(file.len() - rest.len());
    }
    Ok(summary)
}

// Counts the records, and returns the bytes after them.
fn count_records(unwrap: Option<u16>, header: FileHeader, bytes: &[u8]) -> (Summary, &[u8])
    ensures header { result.0.header ≡ header }
    ensures counted { IsCounted unwrap header bytes.entry.now result.0 result.1.now }
    ensures no_more { HasNoRecord header.order result.1.now }
    ensures uncut { result.0.cut_at ≡ None }
{
    let mut summary = Summary {
        header,
        whole: 0,
        cut: 0,
        other: 0,
        cut_at: None,
    };
    let mut rest = bytes;
    while let Some((captured, behind)) = first_record(header.order, rest) {
        count(
            unwrap,
            &content_of(header.link_type, header.order, captured),
            &mut summary,
        );
        rest = behind;
    }
    (summary, rest)
}

fn count(unwrap: Option<u16>, content: &Content<'_>, summary: &mut Summary)
    requires room { summary.old.whole + summary.old.cut + summary.old.other < 2 ^ 63 }
    ensures { CountsOne unwrap content.now summary.old summary.new }
{
    match content {
        Content::Packet(packet) => match printed_packet(unwrap, packet) {
            Some(_) => summary.whole += 1,
            None => summary.other += 1,
        },
        Content::Cut => summary.cut += 1,
        Content::Other => summary.other += 1,
    }
}
