//! Verdicts counted by group and member, whatever the versions that judged them (docs/SWITCH.md, "Counters by member").
//!
//! A worker counts its verdicts in its own `VerdictLog`. `MemberTable::count` adds a log to the table that all workers share.
#![tactic(auto)]

ghost use Rattle.std.specs.Prelude.{◌≡◌};

mod counts;
mod key;
mod log;
mod numbers;
mod packed;
mod table;

pub use counts::{Counts, GroupCounts, MemberCounts};
pub use key::{CountKey, has};
pub use log::{Run, VerdictLog};
pub use table::MemberTable;

/// The greatest number of keys that `settle` leaves.
pub const KEPT_LIMIT: usize = 8192;

/// The greatest number of keys that a table keeps between two calls of `settle`.
pub const ROOM_LIMIT: usize = 16384;

/// Law: the limits, as numbers. It runs nothing.
pub fn limits_as_numbers()
    ensures kept { KEPT_LIMIT ≡ 8192 }
    ensures room { ROOM_LIMIT ≡ 16384 }
{}
