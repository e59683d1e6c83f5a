//! The number of buckets of each member, by weight.

ghost use Rattle.std.specs.Prelude.{◌≡◌, ◌+◌, ◌*◌, ◌^◌, ◌<◌, ◌≤◌, ◌↔◌, All, IfOk, IsTrue, length, map, sum};
ghost use Rattle.selector_buckets.specs.Shares.{CanShare, given_more, greatest, ids_of, quotas_of, remainder, weights_of, whole_share};

use crate::MEMBER_LIMIT;
use std::alloc::{AllocError, Global};

/// The member of a selector with this ID, and its weight relative to the others.
#[derive(Clone, Copy, Debug, PartialEq, Eq)]
pub struct Share {
    pub id: u32,
    pub weight: u16,
}

/// Tests whether members can share a table: there are at most `MEMBER_LIMIT`, and one has a weight above 0.
pub fn can_share(shares: &[Share]) -> bool
    ensures { IsTrue result ↔ CanShare shares.now }
{
    shares.len() <= MEMBER_LIMIT && total_weight(shares) > 0
}

fn total_weight(shares: &[Share]) -> u32
    requires { length shares.now ≤ MEMBER_LIMIT }
    ensures { result ≡ sum (weights_of shares.now) }
{
    let mut total = 0;
    for share in shares {
        total += share.weight as u32;
    }
    total
}

/// Lists the weights.
pub fn weights(alloc: Global, shares: &[Share]) -> Result<Vec<u32>, AllocError>
    ensures weights { IfOk result (λ weights. weights.items ≡ weights_of shares.now) }
    ensures bounded { IfOk result (λ weights. sum weights.items ≤ 65535 * length shares.now) }
{
    let mut weights = Vec::with_capacity(alloc, shares.len())?;
    for share in shares {
        weights.push(share.weight as u32)?;
    }
    Ok(weights)
}

/// Lists the IDs.
pub fn ids(alloc: Global, shares: &[Share]) -> Result<Vec<u32>, AllocError>
    ensures { IfOk result (λ ids. ids.items ≡ ids_of shares.now) }
{
    shares.iter().map(|share| share.id).collect(alloc)
}

/// Computes how many of `count` buckets each member gets.
pub fn quotas(alloc: Global, weights: &[u32], count: u32) -> Result<Vec<u32>, AllocError>
    requires count { count ≤ 2 ^ 8 }
    requires few { length weights.now ≤ MEMBER_LIMIT }
    requires bounded { sum weights.now < 2 ^ 23 }
    requires some { 0 < sum weights.now }
    ensures { IfOk result (λ quotas. quotas.items ≡ quotas_of weights.now count) }
{
    let total = sum_of(weights);
    let mut quotas = whole_shares(alloc, weights, count, total)?;
    let mut remainders = remainders(alloc, weights, count, total)?;
    let given = sum_of(&quotas);
    give(&mut quotas, &mut remainders, count - given);
    Ok(quotas)
}

fn sum_of(numbers: &[u32]) -> u32
    requires { sum numbers.now < 2 ^ 32 }
    ensures { result ≡ sum numbers.now }
{
    numbers.iter().sum()
}

fn whole_shares(
    alloc: Global,
    weights: &[u32],
    count: u32,
    total: u32,
) -> Result<Vec<u32>, AllocError>
    requires count { count ≤ 2 ^ 8 }
    requires weights { All (λ weight. weight < 2 ^ 23) weights.now }
    requires some { 0 < total }
    ensures { IfOk result (λ quotas. quotas.items ≡ map (λ weight. whole_share count total weight) weights.now) }
{
    weights
        .iter()
        .map(|weight| count * *weight / total)
        .collect(alloc)
}

fn remainders(
    alloc: Global,
    weights: &[u32],
    count: u32,
    total: u32,
) -> Result<Vec<u32>, AllocError>
    requires count { count ≤ 2 ^ 8 }
    requires weights { All (λ weight. weight < 2 ^ 23) weights.now }
    requires some { 0 < total }
    ensures { IfOk result (λ remainders. remainders.items ≡ map (λ weight. remainder count total weight) weights.now) }
{
    weights
        .iter()
        .map(|weight| count * *weight % total)
        .collect(alloc)
}

// Gives `more` further buckets, each to the member with the greatest remainder.
fn give(quotas: &mut [u32], remainders: &mut [u32], more: u32)
    requires some { 0 < length remainders.old }
    requires each { length quotas.old ≡ length remainders.old }
    requires bounded { sum quotas.old + more < 2 ^ 16 }
    ensures { given_more more (record { quotas = quotas.old; remainders = remainders.old }) ≡ record { quotas = quotas.new; remainders = remainders.new } }
{
    for _given in 0..more {
        let member = greatest(remainders);
        quotas[member] += 1;
        remainders[member] = 0;
    }
}

fn greatest(numbers: &[u32]) -> usize
    requires { 0 < length numbers.now }
    ensures greatest { result ≡ greatest numbers.now (length numbers.now) }
    ensures inside { result < length numbers.now }
{
    let mut place = 0;
    for i in 0..numbers.len() {
        if numbers[place] < numbers[i] {
            place = i;
        }
    }
    place
}
