//! Writing whole texts to a destination that may take a part of them at a time.

ghost use Rattle.std.specs.Prelude.{◌≡◌, IfErr, OnOk};
ghost use Rattle.std.specs.Io.KnownBytes.{Appends};
ghost use Rattle.command_line.specs.Ending.{AppendsBeginning};
ghost use Rattle.command_streams.specs.Failures.{OutputFails};

use crate::counted_write::CountedWrite;
use command_line::Failure;
use control::Failed;

/// Writes a whole text, or a beginning of it if a write fails.
pub fn write_whole<W: CountedWrite>(bytes: &[u8], out: &mut W) -> Result<(), Failure>
    ensures written { OnOk result (Appends (W.contents out.old) (W.contents out.new) bytes.now) }
    ensures beginning { AppendsBeginning (W.contents out.old) (W.contents out.new) bytes.now }
    ensures failed { IfErr result (λ failure. failure ≡ Failure.WriteFailed) }
    ensures device_failed { OutputFails result (W.failures out.old) (W.failures out.new) }
{
    let mut rest = bytes;
    while !rest.is_empty() {
        match out.write(rest) {
            Ok(size) => rest = rest.split_at(size).1,
            Err(Failed) => return Err(Failure::WriteFailed),
        }
    }
    Ok(())
}

/// Writes a whole text, or a beginning of it if a write fails, and flushes the destination.
pub fn write_through<W: CountedWrite>(bytes: &[u8], out: &mut W) -> Result<(), Failure>
    ensures written { OnOk result (Appends (W.contents out.old) (W.contents out.new) bytes.now) }
    ensures beginning { AppendsBeginning (W.contents out.old) (W.contents out.new) bytes.now }
    ensures failed { IfErr result (λ failure. failure ≡ Failure.WriteFailed) }
    ensures device_failed { OutputFails result (W.failures out.old) (W.failures out.new) }
{
    write_whole(bytes, out)?;
    out.flush().map_err(|_| Failure::WriteFailed)
}
