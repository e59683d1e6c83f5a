//! The counters of a switch as texts: Prometheus' metrics, and a screen of rates (docs/COMMANDS.md, "metrics", "top").
//!
//! `metrics_text` writes counters as they were read, and `screen_text` how much they grew between two readings. `drops_at` reads the
//! kernel's table of UDP sockets.
#![tactic(auto)]

mod counters;
mod growth;
mod labels;
mod metrics;
mod screen;
mod sockets;

pub use counters::{Counters, FrontDrops, GroupCount, MemberCount, Totals};
pub use growth::totals_again;
pub use metrics::{CHARGE_LIMIT, limit_as_number, metrics_text};
pub use screen::screen_text;
pub use sockets::drops_at;
