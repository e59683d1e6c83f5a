//! Jobs: batches until a worker's source has no more (docs/SWITCH.md, "Workers").

ghost use Rattle.std.specs.Prelude.{◌≡◌, ◌≤◌, ◌∷◌, List, Option, [], false, length, true};
ghost use Rattle.bpf_machine.specs.declared.TheConstants.{MAX_PACKET};
ghost use Rattle.dispatch.specs.Device.{Takes};
ghost use Rattle.dispatch.specs.Job.{EachJudgesAll, EndsWith, GateEvent, GoesOn, IsGatedJob, IsJob, IsToldJob, ended, started};

use crate::batches::{BatchDone, BatchFault, batch};
use crate::device::{Outbox, Source};
use crate::tally::Counter;
use read_section::Worker;
use std::sync::Wait;

/// Is called when each batch of a job begins and ends, with the batch's number.
///
/// `called` is a fact about an event that only a call for it makes known, unless an implementor gives it another meaning. So a contract
/// that has the fact says that the gate was called.
pub trait Gate {
    ghost called: { Self → GateEvent → Type 0 } = { λ gate event. Unit {0} };

    fn start(&self, batch: u64)
        ensures called { called self.now (started batch) };

    fn done(&self, batch: u64)
        ensures called { called self.now (ended batch) };
}

/// Lets each batch begin at once.
pub struct OpenGate;

impl Gate for OpenGate {
    fn start(&self, _batch: u64) {}

    fn done(&self, _batch: u64) {}
}

/// Is called when each batch of one worker's job begins and ends, with the batch's number. Contracts see the numbers in their order, if
/// they are known, and of each number that the gate was called, as `Gate` has it.
pub trait WorkerGate {
    ghost log: { Self → Option (List GateEvent) };

    ghost called: { Self → GateEvent → Type 0 } = { λ gate event. Unit {0} };

    fn start(&mut self, batch: u64)
        ensures logged { Takes (log self.old) (log self.new) (started batch ∷ []) }
        ensures called { called self.old (started batch) }
        ensures same_gate { (event : GateEvent) → called self.new event → called self.old event };

    fn done(&mut self, batch: u64)
        ensures logged { Takes (log self.old) (log self.new) (ended batch ∷ []) }
        ensures called { called self.old (ended batch) }
        ensures same_gate { (event : GateEvent) → called self.new event → called self.old event };
}

// The gate of all workers, as one of them knows it. Others pass numbers to it meanwhile, so contracts do not know their order.
#[derive(Drop)]
struct SharedGate<'a, G: Gate> {
    gate: &'a G,
}

impl<G: Gate> WorkerGate for SharedGate<'_, G> {
    ghost use Rattle.std.specs.Prelude.{None};

    ghost log = { λ _. None };

    ghost called = { λ g event. G.called g.gate.now event };

    fn start(&mut self, batch: u64) {
        self.gate.start(batch);
    }

    fn done(&mut self, batch: u64) {
        self.gate.done(batch);
    }
}

// Tests whether a job goes on after a batch that ended so.
fn goes_on(answer: &Result<BatchDone, BatchFault>) -> bool
    ensures goes_on { result ≡ true → GoesOn answer.now }
    ensures ends { result ≡ false → EndsWith answer.now }
{
    match answer {
        Ok(done) => done.more,
        Err(BatchFault::ReceiveFailed) => true,
        Err(BatchFault::CountFull) => false,
    }
}

/// Runs batches of at most `limit` datagrams, until the source reports that no more come, or the counter is full. If the source failed,
/// goes on. The first batch has the number `first`, each further one `step` more, modulo 2^64.
///
/// May wait, since nothing says that the source ever ends. A batch of no datagrams would ask the source nothing, and the job would go
/// on for ever, so the limit is at least 1.
pub fn run_job<R: Wait, S: Source, O: Outbox, G: Gate>(
    rt: &R,
    gate: &G,
    numbers: (u64, u64),
    worker: &mut Worker,
    counter: &mut Counter,
    source: &mut S,
    outbox: &mut O,
    buf: &mut [u8],
    limit: u64,
)
    requires buffer { length buf.old ≤ MAX_PACKET }
    requires at_least_one { 1 ≤ limit }
    ensures done_by_batches { IsJob (length buf.old) limit
        (record { worker = worker.old; counter = counter.old; source = S.state source.old; outbox = O.state outbox.old })
        (record { worker = worker.new; counter = counter.new; source = S.state source.new; outbox = O.state outbox.new }) }
    ensures gate_called { IsGatedJob (G.called gate.now) (length buf.old) limit numbers.1 numbers.0
        (record { worker = worker.old; counter = counter.old; source = S.state source.old; outbox = O.state outbox.old })
        (record { worker = worker.new; counter = counter.new; source = S.state source.new; outbox = O.state outbox.new }) }
{
    let mut gate = SharedGate { gate };
    run_told_job(
        rt, &mut gate, numbers, worker, counter, source, outbox, buf, limit,
    )
}

/// Law: what all batches of a job do together. They judge the datagrams that its source gives meanwhile, in order, each once, and count
/// each; the outbox is sent what their verdicts deliver, in order. It runs nothing.
pub fn whole_job()
    ensures { EachJudgesAll }
{}

/// Runs a job as `run_job` does, with a gate of this worker alone.
pub fn run_told_job<R: Wait, S: Source, O: Outbox, G: WorkerGate>(
    rt: &R,
    gate: &mut G,
    numbers: (u64, u64),
    worker: &mut Worker,
    counter: &mut Counter,
    source: &mut S,
    outbox: &mut O,
    buf: &mut [u8],
    limit: u64,
)
    requires buffer { length buf.old ≤ MAX_PACKET }
    requires at_least_one { 1 ≤ limit }
    ensures told { IsToldJob (length buf.old) limit numbers.1 numbers.0 (G.log gate.old) (G.log gate.new)
        (record { worker = worker.old; counter = counter.old; source = S.state source.old; outbox = O.state outbox.old })
        (record { worker = worker.new; counter = counter.new; source = S.state source.new; outbox = O.state outbox.new }) }
    ensures gate_called { IsGatedJob (G.called gate.old) (length buf.old) limit numbers.1 numbers.0
        (record { worker = worker.old; counter = counter.old; source = S.state source.old; outbox = O.state outbox.old })
        (record { worker = worker.new; counter = counter.new; source = S.state source.new; outbox = O.state outbox.new }) }
{
    let (mut number, step) = numbers;
    for _ in rt.forever() {
        gate.start(number);
        let answer = batch(worker, counter, source, outbox, buf, limit);
        gate.done(number);
        if !goes_on(&answer) {
            return;
        }
        number = number.wrapping_add(step);
    }
    unreachable!()
}
