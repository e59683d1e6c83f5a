//! Reading back the table of a program that is a selector.

ghost use Rattle.std.specs.Prelude.{◌≡◌, ◌∷◌, ◌++◌, ◌+◌, ◌*◌, ◌^◌, ◌≤◌, IfNone, IfOk, IfSome, OnOk, drop, length, ℕ};
ghost use Rattle.selector_buckets.specs.declared.TheConstants.{DEPTH_LIMIT};
ghost use Rattle.selector_buckets.specs.declared.hash.HashBy.{HashBy as HashByValue};
ghost use Rattle.selector_buckets.specs.Buckets.{BucketsValue};
ghost use Rattle.selector_buckets.specs.Reading.{IsSelectorOf};
ghost use Rattle.selector_buckets.specs.Words.{hash_words};
ghost use Rattle.selector_buckets.specs.body.Reading.{by_of, leaves};

use crate::buckets::Buckets;
use crate::depth_of;
use crate::hash::{self, HashBy};
use bpf_insn::{Insn, Size};
use std::alloc::{AllocError, Global};

/// Returns the table of words that are a selector. For other words, returns any table or `None`.
pub fn candidate(alloc: Global, words: &[u64]) -> Result<Option<(HashBy, Buckets)>, AllocError>
    ensures some { IfOk result (λ read. IfSome read (λ found. (by : HashByValue) (buckets : BucketsValue) → IsSelectorOf words.now by buckets → (found.0 ≡ by) × (found.1 ≡ buckets))) }
    ensures none { IfOk result (λ read. IfNone read ((by : HashByValue) (buckets : BucketsValue) → IsSelectorOf words.now by buckets → ⊥)) }
{
    let by = hash_by(words);
    let first = hash_len(by);
    if words.len() <= first {
        return Ok(None);
    }
    let tree = &words[first..];
    let Some(depth) = tree_depth(tree) else {
        return Ok(None);
    };
    let mut members = Vec::new(alloc);
    read_members(&mut members, depth, tree)?;
    Ok(Some((by, Buckets::new(depth, members))))
}

// Returns what is hashed, from the instructions of the hash.
fn hash_by(words: &[u64]) -> HashBy
    ensures { result ≡ by_of words.now }
{
    if words.len() > 0 && words[0] == Insn::LoadAbsolute(Size::Word, hash::SOURCE).to_word() {
        HashBy::Addresses
    } else if words.len() > 3 && words[3] == Insn::CopyToX.to_word() {
        HashBy::Both
    } else {
        HashBy::Ports
    }
}

// Returns the number of instructions of the hash.
fn hash_len(by: HashBy) -> usize
    ensures { result ≡ length (hash_words by) }
{
    match by {
        HashBy::Addresses => 2,
        HashBy::Ports => 3,
        HashBy::Both => 7,
    }
}

// Returns the depth of a tree with this number of words.
fn tree_depth(tree: &[u64]) -> Option<u32>
    ensures some { IfSome result (λ depth. (depth ≤ DEPTH_LIMIT) × (length tree.now + 1 ≡ 2 * 2 ^ depth)) }
    ensures none { IfNone result ((depth : ℕ) → depth ≤ DEPTH_LIMIT → length tree.now + 1 ≡ 2 * 2 ^ depth → ⊥) }
{
    if tree.len() % 2 == 0 || tree.len() > 511 {
        return None;
    }
    depth_of(tree.len() as u32 / 2 + 1)
}

// Reads the members at the leaves.
fn read_members(members: &mut Vec<u8>, depth: u32, tree: &[u64]) -> Result<(), AllocError>
    requires depth { depth ≤ DEPTH_LIMIT }
    requires whole { length tree.now + 1 ≡ 2 * 2 ^ depth }
    ensures read { OnOk result (members.new.items ≡ members.old.items ++ leaves depth tree.now) }
{
    if depth == 0 {
        members.push((tree[0] % 256) as u8)?;
        return Ok(());
    }
    let half = tree.len() / 2;
    let (first, second) = (&tree[1..1 + half], &tree[1 + half..]);
    read_members(members, depth - 1, first)?;
    read_members(members, depth - 1, second)
}
