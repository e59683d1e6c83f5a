//! Selectors that spread packets by weight: a program that hashes a packet into one of up to 256 buckets, and returns the index of the
//! bucket's member (Eisenbud et al., "Maglev: A Fast and Reliable Software Network Load Balancer", NSDI 2016, section 3.4;
//! docs/DECISIONS.md, "selector_buckets").
#![tactic(auto)]

ghost use Rattle.std.specs.Prelude.{◌≡◌, ◌≢◌, ◌+◌, ◌*◌, ◌^◌, ◌<◌, ◌≤◌, IfNone, IfOk, IfSome, MatchOption, length, ℕ};
ghost use Rattle.selector_buckets.specs.declared.hash.HashBy.{HashBy as HashByValue};
ghost use Rattle.selector_buckets.specs.Buckets.{BucketsValue};
ghost use Rattle.selector_buckets.specs.Hash.{Selects};
ghost use Rattle.selector_buckets.specs.Reading.{HasOneTable, IsSelectorOf};
ghost use Rattle.selector_buckets.specs.Shares.{CanShare, HasMembersOnly, IsShared, ids_of, weights_of};
ghost use Rattle.selector_buckets.specs.Turns.{table_of};
ghost use Rattle.selector_buckets.specs.Words.{selector_words};

mod buckets;
mod drain;
mod hash;
mod reading;
mod share;
mod tree;
mod turns;

pub use bpf_verify::OutOfMemory;
use bpf_verify::Program;
pub use buckets::Buckets;
pub use drain::{can_drain, drained};
pub use hash::HashBy;
pub use share::{Share, can_share};
use std::alloc::Global;

/// The greatest depth of a table: it has 2^depth buckets.
pub const DEPTH_LIMIT: u32 = 8;

/// The greatest number of members.
pub const MEMBER_LIMIT: usize = 64;

/// The odd number by which a key is multiplied, modulo 2^32 (the golden ratio of 2^32).
pub const MULTIPLIER: u32 = 2_654_435_761;

// The odd number by which a member's ID is multiplied for its skip, modulo 2^32.
const SKIP_MULTIPLIER: u32 = 2_246_822_519;

// The value of a free bucket, in place of a member's index.
const FREE: u8 = 255;

/// Makes a table of 2^depth buckets that the members share by weight.
///
/// The members are numbered from 0, in the order given. `can_share` tests what is required of them. Fails if an allocation is refused.
pub fn spread(alloc: Global, shares: &[Share], depth: u32) -> Result<Buckets, OutOfMemory>
    requires depth { depth ≤ DEPTH_LIMIT }
    requires can_share { CanShare shares.now }
    ensures shared { IfOk result (λ buckets. IsShared (weights_of shares.now) buckets.members) }
    ensures members_only { IfOk result (λ buckets. HasMembersOnly (length shares.now) buckets.members) }
    ensures depth { IfOk result (λ buckets. buckets.depth ≡ depth) }
    ensures count { IfOk result (λ buckets. length buckets.members ≡ 2 ^ depth) }
    ensures table { IfOk result (λ buckets. buckets.members ≡ table_of (ids_of shares.now) (weights_of shares.now) (2 ^ depth)) }
{
    let count = count_of(depth);
    let weights = share::weights(alloc, shares)?;
    let ids = share::ids(alloc, shares)?;
    let quotas = share::quotas(alloc, &weights, count)?;
    let members = turns::filled(alloc, &ids, &quotas, count)?;
    Ok(Buckets::new(depth, members))
}

/// Returns the depth of a table of `count` buckets, `None` if their number is not one of 1, 2, 4 .. 256.
pub fn depth_of(count: u32) -> Option<u32>
    ensures { MatchOption result ((depth : ℕ) → depth ≤ DEPTH_LIMIT → count ≢ 2 ^ depth) (λ depth. (depth ≤ DEPTH_LIMIT) × (count ≡ 2 ^ depth)) }
{
    for depth in 0..DEPTH_LIMIT + 1 {
        if count == count_of(depth) {
            return Some(depth);
        }
    }
    None
}

fn count_of(depth: u32) -> u32
    requires { depth ≤ DEPTH_LIMIT }
    ensures count { result ≡ 2 ^ depth }
    ensures some { 0 < result }
    ensures limited { result ≤ 2 ^ 8 }
{
    1 << depth
}

/// Makes the selector of a table: it returns the index of the packet's bucket in the table.
///
/// It has at most 16 instructions beside two for each bucket. Fails if an allocation is refused.
pub fn selector(
    alloc: Global,
    by: HashBy,
    buckets: &Buckets,
) -> Result<Program<Global>, OutOfMemory>
    ensures selects { IfOk result (λ program. Selects by buckets.now.members program.words) }
    ensures words { IfOk result (λ program. program.words ≡ selector_words by buckets.now) }
    ensures within_length { IfOk result (λ program. length program.words ≤ 2 * length buckets.now.members + 16) }
    ensures charge { IfOk result (λ program. program.charge ≡ length program.words) }
{
    let mut words = Vec::new(alloc);
    hash::push_hash(&mut words, by)?;
    tree::push_tree(
        &mut words,
        buckets.depth(),
        0,
        buckets.width(),
        buckets.members(),
    )?;
    let charge = words.len() as u32;
    Ok(Program::charged(words, charge))
}

/// Reads the table of a selector that `selector` made. `None` if and only if the words are not such a selector.
///
/// Fails if an allocation is refused.
/// The reason: docs/INTERNALS.md, "The table is read by writing it again".
pub fn table_of_program(
    alloc: Global,
    words: &[u64],
) -> Result<Option<(HashBy, Buckets)>, OutOfMemory>
    ensures table { IfOk result (λ read. IfSome read (λ found. IsSelectorOf words.now found.0 found.1)) }
    ensures none { IfOk result (λ read. IfNone read ((by : HashByValue) (buckets : BucketsValue) → IsSelectorOf words.now by buckets → ⊥)) }
{
    match reading::candidate(alloc, words)? {
        None => Ok(None),
        Some((by, buckets)) => written_again(alloc, by, buckets, words),
    }
}

// The table, if its selector is these words.
fn written_again(
    alloc: Global,
    by: HashBy,
    buckets: Buckets,
    words: &[u64],
) -> Result<Option<(HashBy, Buckets)>, OutOfMemory>
    ensures table { IfOk result (λ read. IfSome read (λ found. IsSelectorOf words.now found.0 found.1)) }
    ensures none { IfOk result (λ read. IfNone read (IsSelectorOf words.now by buckets → ⊥)) }
{
    let program = selector(alloc, by, &buckets)?;
    if program.words() == words {
        Ok(Some((by, buckets)))
    } else {
        Ok(None)
    }
}

/// Law: words are the selector of one table at most. It runs nothing.
#[tactic(auto, using(crate::proofs::ReadingLemmas::one_table))]
pub fn one_table()
    ensures { HasOneTable }
{}
