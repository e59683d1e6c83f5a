//! Printing the results of commands about the rules of a switch.

ghost use Rattle.std.specs.Prelude.{◌≡◌, ◌++◌, IfErr, OnOk, codes};
ghost use Rattle.std.specs.Io.KnownBytes.{Appends};
ghost use Rattle.command_line.specs.Ending.{AppendsBeginning};
ghost use Rattle.command_streams.specs.Failures.{OutputFails};

use command_line::Failure;
use command_streams::{CountedWrite, write_through, write_whole};

/// Prints a line with its LF, and flushes it.
pub(crate) fn print_line<W: CountedWrite>(line: &[u8], out: &mut W) -> Result<(), Failure>
    ensures printed { OnOk result (Appends (W.contents out.old) (W.contents out.new) (line.now ++ codes "\n")) }
    ensures beginning { AppendsBeginning (W.contents out.old) (W.contents out.new) (line.now ++ codes "\n") }
    ensures cause { IfErr result (λ failure. failure ≡ Failure.WriteFailed) }
    ensures device_failed { OutputFails result (W.failures out.old) (W.failures out.new) }
{
    write_whole(line, out)?;
    write_through(b"\n".as_slice(), out)
}
