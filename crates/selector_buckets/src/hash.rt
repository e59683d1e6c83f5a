//! The hash of a packet's source, and its instructions.

ghost use Rattle.std.specs.Prelude.{◌≡◌, ◌++◌, ◌∷◌, [], OnOk};
ghost use Rattle.bpf_insn.specs.Word.{word_of};
ghost use Rattle.selector_buckets.specs.Words.{hash_words, multiply_words, port_words};

use crate::MULTIPLIER;
use bpf_insn::{Insn, Operand, Operation, Size};
use std::alloc::{AllocError, Global};

/// The part of a packet's source that is hashed.
#[derive(Clone, Copy, Debug, PartialEq, Eq)]
pub enum HashBy {
    /// The source address.
    Addresses,
    /// The source port.
    Ports,
    /// The source address and the source port.
    Both,
}

/// The place of the source address in an IPv4 header.
pub const SOURCE: u32 = 12;

fn push(words: &mut Vec<u64>, insn: Insn) -> Result<(), AllocError>
    ensures pushed { OnOk result (words.new.items ≡ words.old.items ++ word_of insn ∷ []) }
{
    words.push(insn.to_word())?;
    Ok(())
}

/// Writes the instructions that bring the hash into A.
pub fn push_hash(words: &mut Vec<u64>, by: HashBy) -> Result<(), AllocError>
    ensures pushed { OnOk result (words.new.items ≡ words.old.items ++ hash_words by) }
{
    match by {
        HashBy::Addresses => {
            push(words, Insn::LoadAbsolute(Size::Word, SOURCE))?;
        }
        HashBy::Ports => {
            push_port(words)?;
        }
        HashBy::Both => {
            push_port(words)?;
            push_multiply(words)?;
            push(words, Insn::CopyToX)?;
            push(words, Insn::LoadAbsolute(Size::Word, SOURCE))?;
            push(words, Insn::Alu(Operation::Add, Operand::X))?;
        }
    }
    push_multiply(words)
}

// The source port is loaded: X is the length of the IPv4 header.
fn push_port(words: &mut Vec<u64>) -> Result<(), AllocError>
    ensures pushed { OnOk result (words.new.items ≡ words.old.items ++ port_words) }
{
    push(words, Insn::LoadXHeader(0))?;
    push(words, Insn::LoadIndexed(Size::Half, 0))
}

fn push_multiply(words: &mut Vec<u64>) -> Result<(), AllocError>
    ensures pushed { OnOk result (words.new.items ≡ words.old.items ++ multiply_words) }
{
    push(words, Insn::Alu(Operation::Mul, Operand::K(MULTIPLIER)))
}
