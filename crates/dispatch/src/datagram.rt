//! One datagram: judged in its own section, counted, and sent.

ghost use Rattle.std.specs.Prelude.{◌≡◌, ◌≤◌, OnErr, OnOk, length};
ghost use Rattle.bpf_machine.specs.declared.TheConstants.{MAX_PACKET};
ghost use Rattle.dispatch.specs.Batch.{IsFull};
ghost use Rattle.dispatch.specs.body.Datagram.{IsDelivered, IsHandled, IsNotCounted, IsUndelivered, JudgesInSection, KeepsNoMore};

use crate::device::Failed;
use crate::tally::{CountFull, Counter};
use crate::told::VerdictOutbox;
use packet_verdict::{Kind, Verdict, judge};
use read_section::Worker;

// One whole section, in which the packet is judged. Not inlined: in a function that does no more, the section's state lies in registers
// while a program runs. The verdict is written where the caller wants it, so that the caller loads no field that it does not read.
#[inline(never)]
fn judge_in_section(worker: &mut Worker, packet: &[u8], judged: &mut Verdict)
    requires packet { length packet.now ≤ MAX_PACKET }
    ensures judged { JudgesInSection worker.old worker.new packet.now judged.new }
    ensures kept { KeepsNoMore judged.new packet.now }
{
    let mut section = worker.enter();
    let verdict = judge(&mut section, packet);
    *judged = verdict;
    section.leave();
}

// Sends what the verdict keeps of the packet, if the verdict delivers it. A failed send is counted.
fn deliver<O: VerdictOutbox>(
    verdict: Verdict,
    packet: &[u8],
    counter: &mut Counter,
    outbox: &mut O,
) -> Result<(), CountFull>
    requires { KeepsNoMore verdict packet.now }
    ensures delivered { OnOk result (IsDelivered verdict packet.now counter.old counter.new
        (O.state outbox.old) (O.state outbox.new) (O.told outbox.old) (O.told outbox.new)) }
    ensures undelivered { OnErr result (IsUndelivered counter.old counter.new
        (O.state outbox.old) (O.state outbox.new) (O.told outbox.old) (O.told outbox.new)) }
{
    let Verdict::Deliver {
        group: _,
        member: _,
        to,
        bytes,
    } = verdict
    else {
        return Ok(());
    };
    match outbox.send_kept(to, &packet[..bytes]) {
        Ok(()) => Ok(()),
        Err(Failed) => counter.count(Kind::SendFailed),
    }
}

// Judges a datagram, counts its verdict, passes the verdict to the outbox, and then sends what the verdict delivers.
pub fn handle<O: VerdictOutbox>(
    worker: &mut Worker,
    counter: &mut Counter,
    outbox: &mut O,
    packet: &[u8],
) -> Result<(), CountFull>
    requires packet { length packet.now ≤ MAX_PACKET }
    ensures handled { OnOk result (IsHandled worker.old worker.new counter.old counter.new
        (O.state outbox.old) (O.state outbox.new) (O.told outbox.old) (O.told outbox.new) packet.now) }
    ensures not_counted { OnErr result (IsNotCounted worker.old worker.new counter.old counter.new
        (O.state outbox.old) (O.state outbox.new) (O.told outbox.old) (O.told outbox.new) packet.now) }
{
    let mut verdict = Verdict::Malformed;
    judge_in_section(worker, packet, &mut verdict);
    counter.count(verdict.kind())?;
    outbox.tell(verdict, packet);
    deliver(verdict, packet, counter, outbox)
}
