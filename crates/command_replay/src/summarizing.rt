//! Replaying a script whose replies are counted (docs/COMMANDS.md, "replay").

ghost use Rattle.std.specs.Prelude.{◌≡◌, ◌⊎◌, Err, IfErr, IfOk, OnOk, false, true};
ghost use Rattle.std.specs.Io.KnownBytes.{Appends};
ghost use Rattle.command_streams.specs.Failures.{HasCause, OutputFails, known_after};
ghost use Rattle.command_replay.specs.Replaying.{AreRepliesTo, HasCauseThenFlush, RepliesBefore, ReplayMayFail, ReplayWritesBefore, WritesScript};
ghost use Rattle.command_replay.specs.body.Summarizing.{WritesSummary, BeginsSummary};

use crate::counted_output::CountedOutput;
use crate::replaying::failure_of;
use crate::reply_output::Opened;
use crate::unwritten::count_replies;
use command_line::{Failure, Status};
use command_streams::{CountedWrite, write_through};
use control::{Input, replay};
use control_summary::ReplyCounts;
use std::alloc::Global;
use std::marker::Brand;

/// Writes one reply to each request of the input, and the summary of the replies after them.
pub fn summarize_replies<R: Input, W: CountedWrite>(
    alloc: Global,
    input: &mut R,
    out: &mut W,
) -> Result<Status, Failure>
    ensures failed { IfErr result (ReplayMayFail) }
    ensures device_failed { HasCauseThenFlush result (R.state input.old).failures (R.state input.new).failures
        (W.failures out.old) (W.failures out.new) }
    ensures failed_written { IfErr result (λ failure.
        ReplayWritesBefore true false failure (known_after (R.state input.old) (R.state input.new)) (W.contents out.old) (W.contents out.new)) }
    ensures written { IfOk result (λ status. WritesScript true false (R.state input.old).coming status (W.contents out.old) (W.contents out.new)) }
{
    let counts = count_written::<Brand, R, W>(alloc, input, out)?;
    write_summary(&counts, out)
}

/// Replays each request of the input, and writes the summary of the replies in their place.
pub fn summarize_alone<R: Input, W: CountedWrite>(
    alloc: Global,
    input: &mut R,
    out: &mut W,
) -> Result<Status, Failure>
    ensures failed { IfErr result (ReplayMayFail) }
    ensures device_failed { HasCause result (R.state input.old).failures (R.state input.new).failures (W.failures out.old) (W.failures out.new) }
    ensures failed_written { IfErr result (λ failure.
        ReplayWritesBefore true true failure (known_after (R.state input.old) (R.state input.new)) (W.contents out.old) (W.contents out.new)) }
    ensures written { IfOk result (λ status. WritesScript true true (R.state input.old).coming status (W.contents out.old) (W.contents out.new)) }
{
    let counts = count_replies(alloc, input)?;
    write_summary(&counts, out)
}

// Writes one reply to each request, and counts the replies.
fn count_written<L: Opened, R: Input, W: CountedWrite>(
    alloc: Global,
    input: &mut R,
    out: &mut W,
) -> Result<ReplyCounts, Failure>
    requires contents { L.contents ≡ W.contents out.old }
    requires failures { L.failures ≡ W.failures out.old }
    ensures failed { IfErr result (ReplayMayFail) }
    ensures device_failed { HasCauseThenFlush result (R.state input.old).failures (R.state input.new).failures
        (W.failures out.old) (W.failures out.new) }
    ensures failed_written { IfErr result (λ failure.
        RepliesBefore failure (known_after (R.state input.old) (R.state input.new)) (W.contents out.old) (W.contents out.new)) }
    ensures replied { IfOk result (AreRepliesTo (R.state input.old).coming) }
    ensures written { IfOk result (Appends (W.contents out.old) (W.contents out.new)) }
{
    let mut output = CountedOutput::<W, L>::new(alloc, out);
    let answer = replay(alloc, input, &mut output);
    let (written, counts) = output.into_parts();
    if written.flush().is_err() {
        return Err(Failure::WriteFailed);
    }
    match answer {
        Ok(()) => Ok(counts),
        Err(fault) => Err(failure_of(fault)),
    }
}

fn write_summary<W: CountedWrite>(counts: &ReplyCounts, out: &mut W) -> Result<Status, Failure>
    ensures failed { IfErr result (λ failure. (failure ≡ Failure.WriteFailed) ⊎ (failure ≡ Failure.OutOfMemory)) }
    ensures device_failed { OutputFails result (W.failures out.old) (W.failures out.new) }
    ensures no_memory { result ≡ Err Failure.OutOfMemory → out.new ≡ out.old }
    ensures beginning { result ≡ Err Failure.WriteFailed → BeginsSummary counts.now (W.contents out.old) (W.contents out.new) }
    ensures done { IfOk result (λ status. status ≡ Status.Done) }
    ensures written { OnOk result (WritesSummary counts.now (W.contents out.old) (W.contents out.new)) }
{
    let summary = counts.summary()?;
    write_through(&summary, out)?;
    Ok(Status::Done)
}
