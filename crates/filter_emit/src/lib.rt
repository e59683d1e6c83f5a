//! A classic BPF program that is written from its first instruction to its last. A jump is written before its target is
//! known: it is a fixup of the label that it goes to, and is patched when the label is bound.
#![tactic(auto)]

mod code;
mod fixup;
mod label;

pub use code::Code;
pub use fixup::{Fixup, Side};
pub use label::Label;
