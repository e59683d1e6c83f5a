//! Devices of worker threads that serve (docs/SWITCH.md, "Devices of a server"): each worker receives through a queue or from a socket
//! at the front, and sends by a socket.
//!
//! `open_queue` makes the end of a worker's queue and the queue that fills it; `WorkerQueues` hands receives to the
//! workers in turn. `WorkerSource` is the source over such an end, or over a `SocketIngress`. `MemberOutbox` counts by
//! member.
//!
//! Only these calls take memory: `open_channel`, `open_queue`, `MemberOutbox::new`, `Receives::push`, `Received::fill`
//! and, by it, `WorkerQueues::arrive`. The table also takes memory, for new members, when a log is handed on.
#![tactic(auto)]

mod channel;
mod egress;
mod given;
mod ingress;
mod member_outbox;
mod memory;
mod queue_ingress;
mod received;
mod socket_ingress;
mod socket_outbox;
mod worker_queues;
mod worker_source;

pub use channel::{ChannelReceiver, ChannelSender, Gone, Taken, open_channel, taken_first};
pub use egress::{Egress, SocketEgress};
pub use given::Given;
pub use ingress::Ingress;
pub use member_outbox::{LOG_ROOM, MemberOutbox, SharedCounts};
pub use memory::Receives;
pub use queue_ingress::QueueIngress;
pub use received::Received;
pub use socket_ingress::{SocketIngress, StopReceiving};
pub use socket_outbox::SocketOutbox;
pub use worker_queues::{
    QUEUE_PLACES, WorkerQueue, WorkerQueues, given_first, limits_as_numbers, open_queue,
};
pub use worker_source::{RECEIVE_LIMIT, WorkerSource};
