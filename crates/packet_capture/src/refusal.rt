//! The line that refuses the header of a capture file (docs/COMMANDS.md, "Refusals").

ghost use Rattle.std.specs.Prelude.{◌≡◌, ◌++◌, IfErr, OnOk, codes};
ghost use Rattle.std.specs.Io.KnownBytes.{Appends};
ghost use Rattle.command_line.specs.Ending.{AppendsBeginning};
ghost use Rattle.command_streams.specs.Failures.{OutputFails};
ghost use Rattle.packet_capture.specs.Packets.{header_fault_text};

use crate::fault::HeaderFault;
use crate::line::write_line;
use command_line::Failure;
use command_streams::CountedWrite;
use itoa::Buffer;

/// Writes the refusal as a line.
pub(crate) fn write_fault<W: CountedWrite>(fault: HeaderFault, out: &mut W) -> Result<(), Failure>
    ensures failed { IfErr result (λ failure. failure ≡ Failure.WriteFailed) }
    ensures written { OnOk result (Appends (W.contents out.old) (W.contents out.new) (header_fault_text fault ++ codes "\n")) }
    ensures beginning { AppendsBeginning (W.contents out.old) (W.contents out.new) (header_fault_text fault ++ codes "\n") }
    ensures device_failed { OutputFails result (W.failures out.old) (W.failures out.new) }
{
    match fault {
        HeaderFault::Magic => write_line(b"refused L1".as_slice(), &[], out),
        HeaderFault::Pcapng => write_line(b"refused L2".as_slice(), &[], out),
        HeaderFault::Version => write_line(b"refused L3".as_slice(), &[], out),
        HeaderFault::LinkType(number) => {
            let mut buffer = Buffer::new();
            write_line(
                b"refused L4 ".as_slice(),
                buffer.format(number).as_bytes(),
                out,
            )
        }
        HeaderFault::Cut => write_line(b"refused L5 0".as_slice(), &[], out),
    }
}
