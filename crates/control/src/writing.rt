//! Writing whole texts to an output that may take a part of them at a time.

ghost use Rattle.std.specs.Prelude.{◌≡◌, OnErr, OnOk};
ghost use Rattle.std.specs.Io.KnownBytes.{Appends};
ghost use Rattle.dispatch.specs.Device.{CountsFailure};
ghost use Rattle.control.specs.body.Writing.{IsWrittenInPart};

use crate::streams::Output;
use dispatch::Failed;

/// Writes all of the bytes.
pub(crate) fn write_all<W: Output>(writer: &mut W, bytes: &[u8]) -> Result<(), Failed>
    ensures written { OnOk result (Appends (W.state writer.old).taken (W.state writer.new).taken bytes.now) }
    ensures beginning { OnErr result (IsWrittenInPart (W.state writer.new).failures (W.state writer.old).taken (W.state writer.new).taken bytes.now) }
    ensures device_failed { CountsFailure result (W.state writer.old).failures (W.state writer.new).failures }
    ensures rest_kept { W.rest writer.new ≡ W.rest writer.old }
{
    let mut left = bytes;
    while !left.is_empty() {
        let size = writer.write(left)?;
        left = &left[size..];
    }
    Ok(())
}
