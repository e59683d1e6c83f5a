//! The rules of a running switch: read back, written as a rules file, and replaced, and a member drained (docs/COMMANDS.md, "rules",
//! "load", "drain").
//!
//! A `Client` asks a switch, and `ask_group` and `ask_member` ask it for parts of its configuration.
#![tactic(auto)]

ghost use Rattle.control_rules.specs.Rules.{RulesMakeNothingElse, RulesMakeTheirConfig};

mod ask_failure;
mod asking;
mod change_text;
mod client;
mod drain_refusal;
mod draining;
mod fields;
mod loading;
mod planning;
mod reading;
mod replies;

pub use ask_failure::AskFailure;
pub use asking::{ask_group, ask_member};
pub use change_text::changes_text;
pub use client::Client;
pub use drain_refusal::DrainRefusal;
pub use draining::{Drained, drain};
pub use fields::Fields;
pub use loading::{Loaded, differences, load};
pub use reading::{AGAIN, RulesRead, read_rules};
pub use replies::{GroupShown, MemberShown, Shown, read_shown};

/// Law: the rules that are read of a configuration, as a rules file, make the same configuration, by the words of their programs, and
/// no other. It runs nothing.
#[tactic(auto, using(crate::proofs::MeaningLemmas::rules_make))]
pub fn rules_make_their_configuration()
    ensures made { RulesMakeTheirConfig }
    ensures nothing_else { RulesMakeNothingElse }
{
    control_line::one_request();
    bpf_asm::one_value();
}
