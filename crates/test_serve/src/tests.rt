//! The switch over the loopback.

mod beginning;
mod busy;
mod client;
mod front;
mod loopback;
