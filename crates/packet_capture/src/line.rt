//! Writing a line; if a write fails, a prefix of the line was written.

ghost use Rattle.std.specs.Prelude.{◌≡◌, ◌++◌, IfErr, OnOk, codes};
ghost use Rattle.std.specs.Io.KnownBytes.{Appends};
ghost use Rattle.command_line.specs.Ending.{AppendsBeginning};
ghost use Rattle.command_streams.specs.Failures.{OutputFails};

use command_line::Failure;
use command_streams::{CountedWrite, write_whole};

/// Writes the two texts and LF.
pub(crate) fn write_line<W: CountedWrite>(
    front: &[u8],
    rest: &[u8],
    out: &mut W,
) -> Result<(), Failure>
    ensures failed { IfErr result (λ failure. failure ≡ Failure.WriteFailed) }
    ensures written { OnOk result (Appends (W.contents out.old) (W.contents out.new) (front.now ++ rest.now ++ codes "\n")) }
    ensures beginning { AppendsBeginning (W.contents out.old) (W.contents out.new) (front.now ++ rest.now ++ codes "\n") }
    ensures device_failed { OutputFails result (W.failures out.old) (W.failures out.new) }
{
    write_whole(front, out)?;
    write_whole(rest, out)?;
    write_whole(b"\n".as_slice(), out)
}
