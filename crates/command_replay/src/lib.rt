//! The command `replay`: a script's replies and their summary, over any input and output (docs/COMMANDS.md, "replay").
//!
//! `run_replay` passes the script to `control::replay`, and counts the replies if a summary is asked for.
#![tactic(auto)]

ghost use Rattle.command_replay.specs.Counted.{ChangesAreNotCounted, MalformationsAreCounted, ReadsAreNotCounted, RefusalsAreCounted, ShowsAreNotCounted, SweepsAreNotCounted, VerdictsAreCounted};
ghost use Rattle.command_replay.specs.Lines.{LinesAreReplies};

mod counted_output;
mod replaying;
mod reply_output;
mod summarizing;
mod unwritten;

pub use replaying::run_replay;

/// Law: the kind of the reply to a packet is its verdict, also if a line judges the packet. The kind of a reply that refuses a
/// request is its code, and other replies have no kind. The lines of a script's text, which a summary counts by their kinds, are
/// the replies to the script's requests, one to each, in their order. Verdicts are those of versions below 2^64, of keys that are
/// endpoints, and of IDs below 2^32. It runs nothing.
pub fn replies_are_counted()
    ensures verdicts { VerdictsAreCounted }
    ensures malformations { MalformationsAreCounted }
    ensures refusals { RefusalsAreCounted }
    ensures changes { ChangesAreNotCounted }
    ensures shows { ShowsAreNotCounted }
    ensures reads { ReadsAreNotCounted }
    ensures sweeps { SweepsAreNotCounted }
    ensures lines { LinesAreReplies }
{}
