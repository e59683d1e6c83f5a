//! The counters of a running switch, read line by line (docs/COMMANDS.md, "metrics", "top").
#![tactic(auto)]

mod asking;
mod counting;
mod frame;
mod reading;
mod replies;
mod rows;

pub use reading::{Reading, read_counters};
