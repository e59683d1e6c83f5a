//! The tree of comparisons, from a hash to the return of its bucket.

ghost use Rattle.std.specs.Prelude.{◌≡◌, ◌+◌, ◌*◌, ◌++◌, ◌-◌, ◌<◌, ◌≤◌, ◌^◌, OnOk, length};
ghost use Rattle.bpf_insn.specs.declared.instruction.Insn.TheVariants.{JumpIf};
ghost use Rattle.bpf_insn.specs.declared.instruction.Operand.TheVariants.{K};
ghost use Rattle.bpf_insn.specs.declared.instruction.Test.TheVariants.{GreaterOrEqual};
ghost use Rattle.bpf_insn.specs.Table.{offsets};
ghost use Rattle.selector_buckets.specs.declared.TheConstants.{DEPTH_LIMIT};
ghost use Rattle.selector_buckets.specs.Words.{tree_words};

use bpf_insn::{Insn, Offsets, Operand, Test};
use std::alloc::AllocError;

/// Writes the tree of 2^depth buckets, of which the first one has the hashes from `low` on.
/// The reason: docs/INTERNALS.md, "The tree compares the hash itself".
pub fn push_tree(
    words: &mut Vec<u64>,
    depth: u32,
    low: u64,
    width: u64,
    members: &[u8],
) -> Result<(), AllocError>
    requires limited { depth ≤ DEPTH_LIMIT }
    requires whole { length members.now ≡ 2 ^ depth }
    requires width { 0 < width }
    requires fits { low + 2 ^ depth * width ≤ 2 ^ 32 }
    ensures pushed { OnOk result (words.new.items ≡ words.old.items ++ tree_words depth low width members.now) }
{
    if depth == 0 {
        words.push(Insn::ReturnConstant(members[0] as u32).to_word())?;
        return Ok(());
    }
    let half = members.len() / 2;
    let middle = low + half as u64 * width;
    let (first, second) = (&members[..half], &members[half..]);
    words.push(test(middle, half).to_word())?;
    push_tree(words, depth - 1, low, width, first)?;
    push_tree(words, depth - 1, middle, width, second)
}

// The test whether a hash is in the second half: its jump passes over the words of the first half.
fn test(middle: u64, half: usize) -> Insn
    requires middle { middle < 2 ^ 32 }
    requires half { (0 < half) × (half ≤ 128) }
    ensures { result ≡ JumpIf GreaterOrEqual (K middle) (offsets (2 * half - 1) 0) }
{
    let offsets = Offsets {
        jt: (2 * half - 1) as u8,
        jf: 0,
    };
    Insn::JumpIf(Test::GreaterOrEqual, Operand::K(middle as u32), offsets)
}
