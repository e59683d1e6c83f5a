//! Batches: datagrams from a source, each judged, counted and sent (docs/SWITCH.md, "Batches").

ghost use Rattle.std.specs.Prelude.{◌≡◌, ◌≤◌, IfErr, IfOk, IfSome, length};
ghost use Rattle.bpf_machine.specs.declared.TheConstants.{MAX_PACKET};
ghost use Rattle.dispatch.specs.Batch.{IsBatch};
ghost use Rattle.dispatch.specs.Device.{AreGivenAfter, CountsFailure, Gives, IsAtEnd, given_in};
ghost use Rattle.dispatch.specs.Told.{IsToldBatch};
ghost use Rattle.dispatch.specs.WorkerSteps.{AddsOwnSteps};
ghost use Rattle.read_section.specs.Worker.{IsOutside};

use crate::datagram::handle;
use crate::device::{Failed, Outbox, Source};
use crate::tally::{CountFull, Counter};
use crate::told::VerdictOutbox;
use packet_verdict::Kind;
use read_section::Worker;

/// How a batch ended.
#[derive(Clone, Copy, Debug, PartialEq, Eq)]
pub struct BatchDone {
    /// How many datagrams it judged.
    pub judged: u64,
    /// True if its limit was reached; false if the source reported that no more come.
    pub more: bool,
}

/// Why a batch ended early.
#[derive(Clone, Copy, Debug, PartialEq, Eq)]
pub enum BatchFault {
    /// X1: the source failed, which was counted.
    ReceiveFailed,
    /// X2: the counter is full. The event that it refused is counted nowhere.
    CountFull,
}

impl From<CountFull> for BatchFault {
    ghost use Rattle.dispatch.specs.declared.batches.BatchFault.TheVariants as batch_fault;

    ghost from_gives = { λ full fault. fault ≡ batch_fault.CountFull };

    fn from(_: CountFull) -> BatchFault {
        BatchFault::CountFull
    }
}

// Receives a datagram. Before the source waits, the outbox hands on what it took note of.
fn receive<S: Source, O: VerdictOutbox>(
    source: &mut S,
    outbox: &mut O,
    buf: &mut [u8],
) -> Result<Option<usize>, Failed>
    ensures device_failed { CountsFailure result (S.state source.old).failures (S.state source.new).failures }
    ensures within { IfOk result (λ answer. IfSome answer (λ size. size ≤ length buf.new)) }
    ensures given_once { Gives (length buf.new) (S.state source.old).coming (S.state source.new).coming (given_in buf.new result) }
    ensures given_in_order { AreGivenAfter (length buf.new) (S.state source.old).given (S.state source.new).given (given_in buf.new result) }
    ensures end { result ≡ Ok None → IsAtEnd (S.state source.new).coming }
    ensures outbox_kept { O.state outbox.new ≡ O.state outbox.old }
    ensures told_kept { O.told outbox.new ≡ O.told outbox.old }
{
    if source.would_wait() {
        outbox.hand_all_on();
    }
    source.next(buf)
}

// Judges the datagrams of a batch. The outbox may not have handed on what it took note of last.
fn run_batch<S: Source, O: VerdictOutbox>(
    worker: &mut Worker,
    counter: &mut Counter,
    source: &mut S,
    outbox: &mut O,
    buf: &mut [u8],
    limit: u64,
) -> Result<BatchDone, BatchFault>
    requires buffer { length buf.old ≤ MAX_PACKET }
    ensures batch { IsToldBatch (length buf.old) limit
        (record { worker = worker.old; counter = counter.old; source = S.state source.old; outbox = O.state outbox.old })
        (record { worker = worker.new; counter = counter.new; source = S.state source.new; outbox = O.state outbox.new }) result
        (O.told outbox.old) (O.told outbox.new) }
    ensures outside { IsOutside worker.old.view.stage → IsOutside worker.new.view.stage }
    ensures only_own_steps { AddsOwnSteps worker.old worker.new }
{
    for judged in 0..limit {
        let size = match receive(source, outbox, buf) {
            Ok(Some(size)) => size,
            Ok(None) => {
                return Ok(BatchDone {
                    judged,
                    more: false,
                });
            }
            Err(Failed) => {
                counter.count(Kind::ReceiveFailed)?;
                return Err(BatchFault::ReceiveFailed);
            }
        };
        handle(worker, counter, outbox, &buf[..size])?;
    }
    Ok(BatchDone {
        judged: limit,
        more: true,
    })
}

/// Judges up to `limit` datagrams, as `batch` does. The outbox takes note of each verdict once, after the verdict was counted, and of
/// each failed send. Before the source waits, and at the end, the outbox hands on what it took note of.
pub fn batch_told<S: Source, O: VerdictOutbox>(
    worker: &mut Worker,
    counter: &mut Counter,
    source: &mut S,
    outbox: &mut O,
    buf: &mut [u8],
    limit: u64,
) -> Result<BatchDone, BatchFault>
    requires buffer { length buf.old ≤ MAX_PACKET }
    ensures batch { IsToldBatch (length buf.old) limit
        (record { worker = worker.old; counter = counter.old; source = S.state source.old; outbox = O.state outbox.old })
        (record { worker = worker.new; counter = counter.new; source = S.state source.new; outbox = O.state outbox.new }) result
        (O.told outbox.old) (O.told outbox.new) }
    ensures handed_on { O.IsHandedOn outbox.new }

    // Whatever the result is.
    ensures outside { IsOutside worker.old.view.stage → IsOutside worker.new.view.stage }
    ensures only_own_steps { AddsOwnSteps worker.old worker.new }
{
    let answer = run_batch(worker, counter, source, outbox, buf, limit);
    outbox.hand_all_on();
    answer
}

/// Judges up to `limit` datagrams, each in its own section, by the newest version that the worker sees then. After the
/// section the verdict is counted; then the kept bytes are sent. A failed send is counted, and the batch goes on.
///
/// Each datagram is received into `buf`. Takes no memory; waits when the source or the outbox does.
pub fn batch<S: Source, O: Outbox>(
    worker: &mut Worker,
    counter: &mut Counter,
    source: &mut S,
    outbox: &mut O,
    buf: &mut [u8],
    limit: u64,
) -> Result<BatchDone, BatchFault>
    requires buffer { length buf.old ≤ MAX_PACKET }
    ensures batch { IsBatch (length buf.old) limit
        (record { worker = worker.old; counter = counter.old; source = S.state source.old; outbox = O.state outbox.old })
        (record { worker = worker.new; counter = counter.new; source = S.state source.new; outbox = O.state outbox.new }) result }

    // Whatever the result is.
    ensures outside { IsOutside worker.old.view.stage → IsOutside worker.new.view.stage }
    ensures only_own_steps { AddsOwnSteps worker.old worker.new }
{
    batch_told(worker, counter, source, outbox, buf, limit)
}
