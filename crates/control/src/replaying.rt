//! Replaying a script: each request of an input has one line as its reply (docs/COMMANDS.md, "replay").

ghost use Rattle.std.specs.Prelude.{◌≡◌, Err, OnOk};
ghost use Rattle.control.specs.declared.fault.ReplayFault.TheVariants as replay_fault;
ghost use Rattle.control.specs.Replay.{AnsweredAllLines, AnsweredFirstLines, FailedBy, IsReplayed, WroteBeginning};

use crate::fault::ReplayFault;
use crate::script::Script;
use crate::streams::{Input, Output};
use dispatch::Failed;
use std::alloc::Global;

// How many bytes are read at once.
const CHUNK: usize = 8192;

/// Writes one reply to each request of the reader, beginning with the configuration without groups. A request is a line, or a
/// block: a first line such as `all 3` and the lines that it counts.
///
/// A reply is written before the next read. If a request is too long, only enough is kept to show that. All workers meet the operator
/// after each request, so no publication is busy. The replay ends at the first read of 0 bytes, or at the first fault. At
/// `ReadFailed`, each request that was read whole has its reply. At `WriteFailed`, a beginning of the replies was written. At
/// `OutOfMemory`, the replies to some first requests were written.
pub fn replay<R: Input, W: Output>(
    alloc: Global,
    reader: &mut R,
    writer: &mut W,
) -> Result<(), ReplayFault>
    ensures script_text { OnOk result (IsReplayed (R.state reader.old) (R.state reader.new) (W.state writer.old) (W.state writer.new)) }
    ensures text_before_failed_read { result ≡ Err replay_fault.ReadFailed
        → AnsweredAllLines (R.state reader.old) (R.state reader.new) (W.state writer.old) (W.state writer.new) }
    ensures text_before_failed_write { result ≡ Err replay_fault.WriteFailed
        → WroteBeginning (R.state reader.old) (R.state reader.new) (W.state writer.old) (W.state writer.new) }
    ensures text_before_no_memory { result ≡ Err replay_fault.OutOfMemory
        → AnsweredFirstLines (R.state reader.old) (R.state reader.new) (W.state writer.old) (W.state writer.new) }
    ensures device_failed { FailedBy result (R.state reader.old) (R.state reader.new) (W.state writer.old) (W.state writer.new) }
    ensures rest_kept { W.rest writer.new ≡ W.rest writer.old }
{
    let mut script = Script::open(alloc)?;
    let mut chunk = [0; CHUNK];
    loop {
        let size = match reader.read(&mut chunk) {
            Ok(size) => size,
            Err(Failed) => return Err(ReplayFault::ReadFailed),
        };
        if size == 0 {
            return script.end(alloc, writer);
        }
        script.take(alloc, &chunk[..size], writer)?;
    }
}
