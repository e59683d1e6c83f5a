//! Instructions of classic BPF, the 64-bit words that encode them, and lists of words that are read one at a time (McCanne and
//! Jacobson 1993; networking/filter.rst; docs/MACHINE.md).
//!
//! `Insn::from_word` decodes a word, or returns why it is no instruction. No call takes memory.
#![tactic(auto)]

mod decoding;
mod encoding;
mod instruction;
mod word_list;

pub use decoding::instruction_words;
pub use instruction::{Insn, Offsets, Operand, Operation, Size, Test, WordFault};
pub use word_list::{ReadyWords, Words};
