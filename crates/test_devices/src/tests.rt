//! Queues, outboxes and sockets of workers, and control datagrams, without a switch.

mod control_datagrams;
mod cut_sends;
mod device_sockets;
mod devices;
mod queue_law;
mod worker_order;
