//! The packets of a capture file as lines of a script, and its counts (docs/COMMANDS.md, "packets").

ghost use Rattle.std.specs.Prelude.{◌≡◌, ◌≢◌, ◌++◌, ◌∷◌, ◌⊎◌, [], Err, IfErr, IfOk, Ok, OnErr, OnOk, Some, codes, drop, string_bytes};
ghost use Rattle.std.specs.Io.KnownBytes.{Appends};
ghost use Rattle.packet_capture.specs.Header.{IsFileHeader};
ghost use Rattle.packet_capture.specs.Record.{HasNoRecord};
ghost use Rattle.command_line.specs.Ending.{AppendsBeginning};
ghost use Rattle.command_streams.specs.Failures.{OutputFails};
ghost use Rattle.packet_capture.specs.Packets.{TellsCounts, WritesBeginning, WritesFirst, WritesText, counts_text, cut_text, header_fault_text, packet_line, packet_lines};
ghost use Rattle.packet_capture.specs.body.Progress.{BeginsCapture, BeginsRecords, WritesRecords, WritesSome};

use crate::content::{Content, content_of};
use crate::fault::HeaderFault;
use crate::header::{FILE_HEADER, FileHeader};
use crate::line::write_line;
use crate::printed::printed_packet;
use crate::record::first_record;
use crate::refusal::write_fault;
use crate::{Summary, summarize};
use command_line::{Failure, Status, write_whole};
use command_streams::CountedWrite;
use itoa::Buffer;
use std::alloc::{AllocError, Global};
use std::io::Write;

/// Writes the packets of a capture file as lines, and then its counts to `errs`. Errors of `errs` are ignored.
///
/// `file` is the whole file. `unwrap` is the port whose datagrams are replaced by the packets that they carry, if one
/// is given. If the file is cut in a record, the refusal comes after the packets before that record. If the header is
/// refused, nothing else is written. After a failure a prefix of this was written; after `OutOfMemory`, the whole lines
/// of zero or more first packets.
pub fn print_packets<W: CountedWrite, E: Write>(
    alloc: Global,
    unwrap: Option<u16>,
    file: &[u8],
    out: &mut W,
    errs: &mut E,
) -> Result<Status, Failure>
    ensures written { IfOk result (λ status. WritesText unwrap file.now status (W.contents out.old) (W.contents out.new)) }
    ensures counted { OnOk result (TellsCounts unwrap file.now (E.contents errs.old) (E.contents errs.new)) }

    ensures failed { IfErr result (λ failure. (failure ≡ Failure.WriteFailed) ⊎ (failure ≡ Failure.OutOfMemory)) }
    ensures device_failed { OutputFails result (W.failures out.old) (W.failures out.new) }
    ensures no_memory { result ≡ Err Failure.OutOfMemory → WritesFirst unwrap file.now (W.contents out.old) (W.contents out.new) }
    ensures beginning { OnErr result (WritesBeginning unwrap file.now (W.contents out.old) (W.contents out.new)) }
    ensures untold { OnErr result (errs.new ≡ errs.old) }
{
    let summary = match summarize(unwrap, file) {
        Ok(summary) => summary,
        Err(fault) => return write_refusal(fault, out),
    };
    // Made before anything is written, so that lack of memory for it comes first.
    let counts = counts_line(alloc, summary)?;
    let status = write_capture(alloc, unwrap, summary.header, file, out)?;
    let _ = write_whole(counts.as_bytes(), errs);
    let _ = errs.flush();
    Ok(status)
}

fn counts_line(alloc: Global, summary: Summary) -> Result<String, AllocError>
    ensures { IfOk result (λ text. string_bytes text ≡ counts_text summary) }
{
    summary.to_string(alloc)
}

fn write_refusal<W: CountedWrite>(fault: HeaderFault, out: &mut W) -> Result<Status, Failure>
    ensures failed { IfErr result (λ failure. failure ≡ Failure.WriteFailed) }
    ensures device_failed { OutputFails result (W.failures out.old) (W.failures out.new) }
    ensures refused { IfOk result (λ status. status ≡ Status.Refused) }
    ensures written { OnOk result (Appends (W.contents out.old) (W.contents out.new) (header_fault_text fault ++ codes "\n")) }
    ensures beginning { OnErr result (AppendsBeginning (W.contents out.old) (W.contents out.new) (header_fault_text fault ++ codes "\n")) }
{
    write_fault(fault, out)?;
    out.flush().map_err(|_| Failure::WriteFailed)?;
    Ok(Status::Refused)
}

// Writes the packets of a file with this header, and the place where it is cut.
fn write_capture<W: CountedWrite>(
    alloc: Global,
    unwrap: Option<u16>,
    header: FileHeader,
    file: &[u8],
    out: &mut W,
) -> Result<Status, Failure>
    requires { IsFileHeader file.now header }
    ensures failed { IfErr result (λ failure. (failure ≡ Failure.WriteFailed) ⊎ (failure ≡ Failure.OutOfMemory)) }
    ensures device_failed { OutputFails result (W.failures out.old) (W.failures out.new) }
    ensures no_memory { result ≡ Err Failure.OutOfMemory → WritesSome unwrap header (drop 24 file.now) (W.contents out.old) (W.contents out.new) }
    ensures beginning { OnErr result (BeginsCapture unwrap header file.now (W.contents out.old) (W.contents out.new)) }
    ensures written { IfOk result (λ status. WritesText unwrap file.now status (W.contents out.old) (W.contents out.new)) }
{
    let rest = write_packets(alloc, unwrap, header, &file[FILE_HEADER..], out)?;
    let status = write_cut(file.len() - rest.len(), rest, out)?;
    out.flush().map_err(|_| Failure::WriteFailed)?;
    Ok(status)
}

// Writes the packets of the records, and returns the bytes after them.
fn write_packets<'a, W: CountedWrite>(
    alloc: Global,
    unwrap: Option<u16>,
    header: FileHeader,
    records: &'a [u8],
    out: &mut W,
) -> Result<&'a [u8], Failure>
    ensures failed { IfErr result (λ failure. (failure ≡ Failure.WriteFailed) ⊎ (failure ≡ Failure.OutOfMemory)) }
    ensures device_failed { OutputFails result (W.failures out.old) (W.failures out.new) }
    ensures no_memory { result ≡ Err Failure.OutOfMemory → WritesSome unwrap header records.entry.now (W.contents out.old) (W.contents out.new) }
    ensures beginning { OnErr result (BeginsRecords unwrap header records.entry.now (W.contents out.old) (W.contents out.new)) }
    ensures written { IfOk result (λ rest. WritesRecords unwrap header records.entry.now rest.now (W.contents out.old) (W.contents out.new)) }
    ensures no_more { IfOk result (λ rest. HasNoRecord header.order rest.now) }
{
    let mut rest = records;
    while let Some((captured, behind)) = first_record(header.order, rest) {
        write_content(
            alloc,
            unwrap,
            &content_of(header.link_type, header.order, captured),
            out,
        )?;
        rest = behind;
    }
    Ok(rest)
}

fn write_content<W: CountedWrite>(
    alloc: Global,
    unwrap: Option<u16>,
    content: &Content<'_>,
    out: &mut W,
) -> Result<(), Failure>
    ensures failed { IfErr result (λ failure. (failure ≡ Failure.WriteFailed) ⊎ (failure ≡ Failure.OutOfMemory)) }
    ensures device_failed { OutputFails result (W.failures out.old) (W.failures out.new) }
    ensures no_memory { result ≡ Err Failure.OutOfMemory → out.new ≡ out.old }
    ensures beginning { OnErr result (AppendsBeginning (W.contents out.old) (W.contents out.new) (packet_lines unwrap (content.now ∷ []))) }
    ensures written { OnOk result (Appends (W.contents out.old) (W.contents out.new) (packet_lines unwrap (content.now ∷ []))) }
{
    match content {
        Content::Packet(packet) => match printed_packet(unwrap, packet) {
            Some(printed) => write_packet(alloc, printed, out),
            None => Ok(()),
        },
        Content::Cut | Content::Other => Ok(()),
    }
}

fn write_packet<W: CountedWrite>(alloc: Global, packet: &[u8], out: &mut W) -> Result<(), Failure>
    ensures failed { IfErr result (λ failure. (failure ≡ Failure.WriteFailed) ⊎ (failure ≡ Failure.OutOfMemory)) }
    ensures device_failed { OutputFails result (W.failures out.old) (W.failures out.new) }
    ensures no_memory { result ≡ Err Failure.OutOfMemory → out.new ≡ out.old }
    ensures beginning { OnErr result (AppendsBeginning (W.contents out.old) (W.contents out.new) (packet_line packet.now)) }
    ensures written { OnOk result (Appends (W.contents out.old) (W.contents out.new) (packet_line packet.now)) }
{
    let digits = hex::encode(alloc, packet)?;
    write_line(b"packet ".as_slice(), digits.as_bytes(), out)
}

// If there are bytes after the last whole record, the file is cut at their place.
fn write_cut<W: CountedWrite>(place: usize, rest: &[u8], out: &mut W) -> Result<Status, Failure>
    ensures failed { IfErr result (λ failure. failure ≡ Failure.WriteFailed) }
    ensures device_failed { OutputFails result (W.failures out.old) (W.failures out.new) }
    ensures status { IfOk result (λ status. (status ≡ Status.Done) ⊎ (status ≡ Status.Refused)) }
    ensures whole { result ≡ Ok Status.Done → (rest.now ≡ []) × (out.new ≡ out.old) }
    ensures cut { result ≡ Ok Status.Refused
        → (rest.now ≢ []) × Appends (W.contents out.old) (W.contents out.new) (cut_text (Some place)) }
    ensures beginning { OnErr result ((rest.now ≢ []) × AppendsBeginning (W.contents out.old) (W.contents out.new) (cut_text (Some place))) }
{
    if rest.is_empty() {
        return Ok(Status::Done);
    }
    let mut buffer = Buffer::new();
    write_line(
        b"refused L5 ".as_slice(),
        buffer.format(place).as_bytes(),
        out,
    )?;
    Ok(Status::Refused)
}
