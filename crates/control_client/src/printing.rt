//! Printing replies. If a write fails, a beginning of the reply was written.

ghost use Rattle.std.specs.Prelude.{◌≡◌, IfErr, IfOk, OnErr, OnOk};
ghost use Rattle.std.specs.Io.KnownBytes.{Appends};
ghost use Rattle.command_line.specs.Ending.{AppendsBeginning};
ghost use Rattle.command_streams.specs.Failures.{OutputFails};
ghost use Rattle.control_client.specs.Exchange.{is_refusal, reply_line};

use command_line::Failure;
use command_streams::{CountedWrite, write_through, write_whole};

/// Tests whether a reply says that its request was not done.
pub fn is_refusal(reply: &[u8]) -> bool
    ensures { result ≡ is_refusal reply.now }
{
    reply.starts_with(b"refused ".as_slice()) || reply.starts_with(b"failed ".as_slice())
}

/// Prints the reply with LF, and flushes it. Returns true if the reply is a refusal.
pub(crate) fn print_reply<W: CountedWrite>(reply: &[u8], out: &mut W) -> Result<bool, Failure>
    ensures printed { OnOk result (Appends (W.contents out.old) (W.contents out.new) (reply_line reply.now)) }
    ensures refused { IfOk result (λ refused. refused ≡ is_refusal reply.now) }
    ensures beginning { OnErr result (AppendsBeginning (W.contents out.old) (W.contents out.new) (reply_line reply.now)) }
    ensures fault { IfErr result (λ fault. fault ≡ Failure.WriteFailed) }
    ensures device_failed { OutputFails result (W.failures out.old) (W.failures out.new) }
{
    write_whole(reply, out)?;
    write_through(b"\n".as_slice(), out)?;
    Ok(is_refusal(reply))
}
