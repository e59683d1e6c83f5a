//! The command `packets`: the packets of a capture file on standard input (docs/COMMANDS.md, "packets").

ghost use Rattle.std.specs.Prelude.{◌≡◌, IfErr, IfOk, OnErr, OnOk};
ghost use Rattle.command_line.specs.CommandLine.{packets};
ghost use Rattle.command_streams.specs.Failures.{HasCause, known_after};
ghost use Rattle.command_query.specs.Query.{MayFail};
ghost use Rattle.command_returning.specs.Request.{TellsCountsOf, WritesBefore, WritesPackets};

use command_line::{Failure, Status};
use command_streams::{CountedWrite, Input, read_all};
use packet_capture::print_packets;
use std::alloc::Global;
use std::io::Write;

/// Writes the packets of the capture file on the input, or those that datagrams to a port carry. Writes the file's counts to
/// `errs`.
pub fn run_packets<R: Input, W: CountedWrite, E: Write>(
    alloc: Global,
    unwrap: Option<u16>,
    input: &mut R,
    out: &mut W,
    errs: &mut E,
) -> Result<Status, Failure>
    ensures failed { IfErr result (MayFail (packets unwrap)) }
    ensures device_failed { HasCause result (R.state input.old).failures (R.state input.new).failures (W.failures out.old) (W.failures out.new) }
    ensures failed_written { IfErr result (λ failure.
        WritesBefore (packets unwrap) failure (known_after (R.state input.old) (R.state input.new)) (W.contents out.old) (W.contents out.new)) }
    ensures written { IfOk result (λ status. WritesPackets unwrap (R.state input.old).coming status (W.contents out.old) (W.contents out.new)) }
    ensures counted { OnOk result (TellsCountsOf unwrap (R.state input.old).coming (E.contents errs.old) (E.contents errs.new)) }
    ensures untold { OnErr result (errs.new ≡ errs.old) }
{
    let file = read_all(alloc, input)?;
    print_packets(alloc, unwrap, &file, out, errs)
}
