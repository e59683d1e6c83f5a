//! The facts that a filter compiler knows about a packet, about A and about X before a part of a program.
//!
//! A fact says that a load was made and which number it loaded. A test whose truth follows from the facts can be left
//! out; no facts imply a truth that fails.
#![tactic(auto)]

mod decided;
mod header;
mod known;
mod load;
mod tested;

pub use known::Known;
pub use load::Loaded;
