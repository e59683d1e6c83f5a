//! The number of replies in a text with each verdict, and of refusals with each code (docs/COMMANDS.md, "replay").
//!
//! A `ReplyCounts` takes the text in pieces, and makes its summary: a line for each of these kinds of reply, with its count.
#![tactic(auto)]

ghost use Rattle.control_summary.specs.Summary.{HasOneSummary};

mod counted;
mod counts;
mod kind;
mod put_text;
mod row;
mod verdict;

pub use counts::ReplyCounts;
pub use kind::reply_kind;
pub use verdict::verdict_of;

/// Law: a text of replies has one summary. It runs nothing.
pub fn one_summary()
    ensures { HasOneSummary }
{}
