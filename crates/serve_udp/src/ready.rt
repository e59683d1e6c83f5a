//! The line that says that the service is ready (docs/COMMANDS.md, "serve").

ghost use Rattle.std.specs.Prelude.{◌≡◌, ◌++◌, IfErr, OnOk, codes};
ghost use Rattle.std.specs.Io.KnownBytes.{Appends};
ghost use Rattle.command_line.specs.ControlAddress.{address_text};
ghost use Rattle.command_line.specs.Ending.{AppendsBeginning};
ghost use Rattle.command_streams.specs.Failures.{OutputFails};
ghost use Rattle.ipv4_fields.specs.Endpoint.{endpoint_text};
ghost use Rattle.serve_udp.specs.Service.{WritesReady, ready_front, ready_text};

use command_line::{ControlAddress, Failure};
use command_streams::{CountedWrite, write_through, write_whole};
use control_line::Reply;
use ipv4_fields::Endpoint;

// The line up to the address of control.
fn ready_front(front: Endpoint) -> Reply
    ensures { result ≡ ready_front front }
{
    let mut line = Reply::empty();
    line.push("ready ");
    front.append_to(&mut line);
    line.push(" ");
    line
}

fn write_endpoint<W: CountedWrite>(endpoint: Endpoint, out: &mut W) -> Result<(), Failure>
    ensures failed { IfErr result (λ failure. failure ≡ Failure.WriteFailed) }
    ensures written { OnOk result (Appends (W.contents out.old) (W.contents out.new) (endpoint_text endpoint)) }
    ensures beginning { AppendsBeginning (W.contents out.old) (W.contents out.new) (endpoint_text endpoint) }
    ensures device_failed { OutputFails result (W.failures out.old) (W.failures out.new) }
{
    let mut text = Reply::empty();
    endpoint.append_to(&mut text);
    write_whole(text.bytes(), out)
}

fn write_path<W: CountedWrite>(path: &str, out: &mut W) -> Result<(), Failure>
    ensures failed { IfErr result (λ failure. failure ≡ Failure.WriteFailed) }
    ensures written { OnOk result (Appends (W.contents out.old) (W.contents out.new) (codes "unix:" ++ path.now)) }
    ensures beginning { AppendsBeginning (W.contents out.old) (W.contents out.new) (codes "unix:" ++ path.now) }
    ensures device_failed { OutputFails result (W.failures out.old) (W.failures out.new) }
{
    write_whole(b"unix:".as_slice(), out)?;
    write_whole(path.as_bytes(), out)
}

fn write_address<W: CountedWrite>(control: ControlAddress<'_>, out: &mut W) -> Result<(), Failure>
    ensures failed { IfErr result (λ failure. failure ≡ Failure.WriteFailed) }
    ensures written { OnOk result (Appends (W.contents out.old) (W.contents out.new) (address_text control.entry)) }
    ensures beginning { AppendsBeginning (W.contents out.old) (W.contents out.new) (address_text control.entry) }
    ensures device_failed { OutputFails result (W.failures out.old) (W.failures out.new) }
{
    match control {
        ControlAddress::Udp(endpoint) => write_endpoint(endpoint, out),
        ControlAddress::Unix(path) => write_path(path, out),
    }
}

/// Writes the line with the addresses of both sockets, and flushes it.
pub fn write_ready<W: CountedWrite>(
    front: Endpoint,
    control: ControlAddress<'_>,
    out: &mut W,
) -> Result<(), Failure>
    ensures failed { IfErr result (λ failure. failure ≡ Failure.WriteFailed) }
    ensures written { OnOk result (WritesReady front control.entry (W.contents out.old) (W.contents out.new)) }
    ensures beginning { AppendsBeginning (W.contents out.old) (W.contents out.new) (ready_text front control.entry) }
    ensures device_failed { OutputFails result (W.failures out.old) (W.failures out.new) }
{
    write_whole(ready_front(front).bytes(), out)?;
    write_address(control, out)?;
    write_through(b"\n".as_slice(), out)
}
