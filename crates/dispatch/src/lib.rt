//! Dispatching: the handling of the datagrams that a worker receives (docs/SWITCH.md, "Batches", "Workers"), each judged in its own
//! section, and tallies of the results ("Tallies"). No call takes memory but `Tally::open`, `Datagrams::push`, `Sends::with_room`,
//! `run_workers` and `run_counted`.
#![tactic(auto)]

mod batches;
mod counted_jobs;
mod datagram;
mod device;
mod job;
mod kind;
mod memory;
mod named_tally;
mod tally;
mod tally_rule;
mod told;
mod worker_job;
mod workers;

pub use batches::{BatchDone, BatchFault, batch, batch_told};
pub use counted_jobs::run_counted;
pub use device::{Failed, Outbox, Source};
pub use job::{Gate, OpenGate, WorkerGate, run_job, run_told_job, whole_job};
pub use kind::{KINDS, Totals, write_totals};
pub use memory::{Datagrams, Sends};
pub use named_tally::{NamedTally, TallyName};
pub use packet_verdict::{Kind, Verdict, judge};
pub use tally::{COUNT_LIMIT, COUNTERS, CountFull, Counter, Tally, gather, limits_as_numbers};
pub use tally_rule::{CountView, Load, TallyRule};
pub use told::VerdictOutbox;
pub use worker_job::{Done, Job, finish};
pub use workers::{RunFault, run_workers};

/// The error of a call that was refused memory.
pub use std::alloc::AllocError as OutOfMemory;
