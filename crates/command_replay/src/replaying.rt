//! The command `replay`: a script on standard input, its replies on standard output (docs/COMMANDS.md, "replay").

ghost use Rattle.std.specs.Prelude.{◌≡◌, IfErr, IfOk, false};
ghost use Rattle.command_streams.specs.Failures.{known_after};
ghost use Rattle.command_replay.specs.Replaying.{HasCauseThenFlush, RepliesBefore, ReplayHasCause, ReplayMayFail, ReplayWritesBefore, WritesScript};
ghost use Rattle.command_replay.specs.body.Failing.{failure_of_replay};

use crate::reply_output::{Opened, ReplyOutput};
use crate::summarizing::{summarize_alone, summarize_replies};
use crate::unwritten::replay_unwritten;
use command_line::{Failure, Status};
use command_streams::CountedWrite;
use control::{Input, ReplayFault, replay};
use std::alloc::Global;
use std::marker::Brand;

/// Writes one reply to each request of the input. With `summary`, writes the summary after the replies. With `quiet`, writes no
/// replies.
pub fn run_replay<R: Input, W: CountedWrite>(
    alloc: Global,
    summary: bool,
    quiet: bool,
    input: &mut R,
    out: &mut W,
) -> Result<Status, Failure>
    ensures failed { IfErr result (ReplayMayFail) }
    ensures device_failed { ReplayHasCause quiet result (R.state input.old).failures (R.state input.new).failures
        (W.failures out.old) (W.failures out.new) }
    ensures failed_written { IfErr result (λ failure.
        ReplayWritesBefore summary quiet failure (known_after (R.state input.old) (R.state input.new)) (W.contents out.old) (W.contents out.new)) }
    ensures written { IfOk result (λ status.
        WritesScript summary quiet (R.state input.old).coming status (W.contents out.old) (W.contents out.new)) }
{
    match (summary, quiet) {
        (false, false) => replay_written::<Brand, R, W>(alloc, input, out),
        (false, true) => replay_unwritten(alloc, input),
        (true, false) => summarize_replies(alloc, input, out),
        (true, true) => summarize_alone(alloc, input, out),
    }
}

// Without options.
fn replay_written<L: Opened, R: Input, W: CountedWrite>(
    alloc: Global,
    input: &mut R,
    out: &mut W,
) -> Result<Status, Failure>
    requires { L.failures ≡ W.failures out.old }
    ensures failed { IfErr result (ReplayMayFail) }
    ensures device_failed { HasCauseThenFlush result (R.state input.old).failures (R.state input.new).failures
        (W.failures out.old) (W.failures out.new) }
    ensures failed_written { IfErr result (λ failure.
        RepliesBefore failure (known_after (R.state input.old) (R.state input.new)) (W.contents out.old) (W.contents out.new)) }
    ensures written { IfOk result (λ status.
        WritesScript false false (R.state input.old).coming status (W.contents out.old) (W.contents out.new)) }
{
    let mut output = ReplyOutput::<W, L>::new(out);
    let answer = replay(alloc, input, &mut output);
    if output.into_inner().flush().is_err() {
        return Err(Failure::WriteFailed);
    }
    match answer {
        Ok(()) => Ok(Status::Done),
        Err(fault) => Err(failure_of(fault)),
    }
}

pub(crate) fn failure_of(fault: ReplayFault) -> Failure
    ensures { result ≡ failure_of_replay fault }
{
    match fault {
        ReplayFault::ReadFailed => Failure::ReadFailed,
        ReplayFault::WriteFailed => Failure::WriteFailed,
        ReplayFault::OutOfMemory => Failure::OutOfMemory,
    }
}
