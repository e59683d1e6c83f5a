//! The datagrams of `flood`, and which worker each goes to (docs/COMMANDS.md, "flood").

ghost use Rattle.std.specs.Prelude.{◌≡◌, ◌<◌, IfOk, length};
ghost use Rattle.command_flood.specs.Traffic.{datagram_at, share_of};

use command_line::SAMPLE_PACKET;
use dispatch::Datagrams;
use std::alloc::{AllocError, Global};

// The low byte of the destination port.
const PORT_BYTE: usize = 23;

const OTHER_PORT: u8 = 54;

const CUT_LENGTH: usize = 27;

fn datagram(alloc: Global, i: usize) -> Result<Vec<u8>, AllocError>
    ensures { IfOk result (λ datagram. datagram.items ≡ datagram_at i) }
{
    let mut datagram = Vec::from_slice(alloc, SAMPLE_PACKET)?;
    match i % 4 {
        2 => datagram[PORT_BYTE] = OTHER_PORT,
        3 => datagram.truncate(CUT_LENGTH),
        _ => {}
    }
    Ok(datagram)
}

/// Makes the datagrams that go to one of `workers` workers, and counts them.
pub fn share(
    alloc: Global,
    worker: usize,
    workers: usize,
    datagrams: usize,
) -> Result<(Datagrams, usize), AllocError>
    requires { 0 < workers }
    ensures share { IfOk result (λ share. share.0 ≡ share_of worker workers datagrams) }
    ensures count { IfOk result (λ share. share.1 ≡ length (share_of worker workers datagrams)) }
{
    let mut share = Datagrams::new(alloc);
    let mut count = 0;
    let first = if worker < workers { worker } else { datagrams };
    for i in (first..datagrams).step_by(workers) {
        share.push(datagram(alloc, i)?)?;
        count += 1;
    }
    Ok((share, count))
}
