//! The configuration of the switch: groups of members, named by a destination address and port, with their selector and
//! filter programs, and the commands that change it (socket(7); docs/SWITCH.md, "Groups, members, commands and refusals").
//!
//! `Config::apply` makes the next configuration from one that does not change, and `Config::change` changes one in
//! place. Only these two and `Config::copy` take memory.
#![tactic(auto)]

ghost use Rattle.std.specs.Prelude.{◌≡◌};

mod command;
mod config;
mod counted;
mod group;
mod member;
mod place;
mod refusal;

pub use command::Command;
pub use config::{Config, configurations_are_maps};
pub use group::Group;
pub use member::Member;
pub use refusal::Refusal;

/// The greatest number of groups of a configuration.
pub const GROUP_LIMIT: usize = 64;

/// The greatest number of members of a group.
pub const MEMBER_LIMIT: usize = 64;

/// The charge of a configuration for itself, in words of its image.
pub const HEAD_WORDS: usize = 2;

/// The charge of a group, without its members and programs.
pub const GROUP_WORDS: usize = 4;

/// The charge of a member, without its filter.
pub const MEMBER_WORDS: usize = 4;

/// Law: the limits and the charges, as numbers. It runs nothing.
pub fn limits_as_numbers()
    ensures groups { GROUP_LIMIT ≡ 64 }
    ensures members { MEMBER_LIMIT ≡ 64 }
    ensures head_words { HEAD_WORDS ≡ 2 }
    ensures group_words { GROUP_WORDS ≡ 4 }
    ensures member_words { MEMBER_WORDS ≡ 4 }
{}
