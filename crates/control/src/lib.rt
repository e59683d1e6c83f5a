//! Scripts of control lines and of packets, and their text (docs/COMMANDS.md, "replay"), over control lines (`line`).
//!
//! `replay` passes the lines of an `Input` to its own switch, and writes the replies to an `Output`. `FromRead` and `ToWrite`
//! implement both over the standard library's readers and writers.
#![tactic(auto)]

ghost use Rattle.control.specs.Judged.{JudgesAsPacket, SaysWhyMalformed};
ghost use Rattle.control.specs.Script.{HasOneText, HasOneTextBy};

mod fault;
mod held;
mod packet_line;
mod replaying;
mod replies;
mod script;
mod std_streams;
mod streams;
mod switch;
mod writing;

pub use control_line::{
    LINE_LIMIT, OutOfMemory, REPLY_LIMIT, Reason, Reply, empty_agrees, judged_reply, line,
    one_reply, one_request, packet_of_hex,
};
pub use dispatch::Failed;
pub use fault::ReplayFault;
pub use packet_line::{PacketLine, read_packet_line};
pub use replaying::replay;
pub use std_streams::{FromRead, READ_LIMIT, ToWrite, limits_as_numbers};
pub use streams::{Input, Output};

/// Law: a script without lines that read has one text. With a compiler that makes the same words of an expression each time, every
/// script has one text. It runs nothing.
pub fn one_text()
    ensures texts { HasOneText }
    ensures compiled { HasOneTextBy }
{
    one_reply();
}

/// Law: the reply to `judge` is the reply to `packet`, if the configurations agree. For a malformed packet it says why, too. It
/// runs nothing.
#[tactic(auto, using(crate::proofs::JudgeLemmas::judges_as_packet, crate::proofs::JudgeLemmas::says_why_malformed))]
pub fn judged_as_packet()
    ensures same { JudgesAsPacket }
    ensures malformed { SaysWhyMalformed }
{}
