//! The member of each bucket: the members take turns.

ghost use Rattle.std.specs.Prelude.{◌≡◌, ◌^◌, ◌<◌, ◌≤◌, IfOk, length, replicate};
ghost use Rattle.selector_buckets.specs.declared.TheConstants.{FREE, MEMBER_LIMIT};
ghost use Rattle.selector_buckets.specs.Turns.{next_free, offset_of, rounds, skip_of, turns};

use crate::{FREE, MULTIPLIER, SKIP_MULTIPLIER};
use std::alloc::{AllocError, Global};

fn offset(id: u32) -> u32
    ensures offset { result ≡ offset_of id }
    ensures small { result < 2 ^ 16 }
{
    id.wrapping_mul(MULTIPLIER) >> 16
}

// The reason: docs/INTERNALS.md, "An odd skip".
fn skip(id: u32) -> u32
    ensures skip { result ≡ skip_of id }
    ensures small { result < 2 ^ 17 }
{
    (id.wrapping_mul(SKIP_MULTIPLIER) >> 16) * 2 + 1
}

// The next free bucket of a member in its permutation.
fn next_free(table: &[u8], id: u32) -> usize
    requires some { 0 < length table.now }
    requires limited { length table.now ≤ 2 ^ 8 }
    ensures next { result ≡ next_free table.now id }
    ensures inside { result < length table.now }
{
    let count = table.len();
    let skip = skip(id) as usize;
    let mut bucket = offset(id) as usize % count;
    for _tried in 0..count {
        if table[bucket] == FREE {
            return bucket;
        }
        bucket = (bucket + skip) % count;
    }
    bucket
}

// One round: each member that has not yet got all its buckets takes one.
fn take_turns(table: &mut [u8], ids: &[u32], quotas: &[u32], round: u32)
    requires some { 0 < length table.old }
    requires limited { length table.old ≤ 2 ^ 8 }
    requires few { length ids.now ≤ MEMBER_LIMIT }
    requires each { length quotas.now ≡ length ids.now }
    ensures { table.new ≡ turns ids.now quotas.now round (length ids.now) table.old }
{
    for member in 0..ids.len() {
        if round < quotas[member] {
            table[next_free(table, ids[member])] = member as u8;
        }
    }
}

/// Makes a table of `count` buckets: in each of as many rounds, the members take turns.
pub fn filled(alloc: Global, ids: &[u32], quotas: &[u32], count: u32) -> Result<Vec<u8>, AllocError>
    requires some { 0 < count }
    requires limited { count ≤ 2 ^ 8 }
    requires few { length ids.now ≤ MEMBER_LIMIT }
    requires each { length quotas.now ≡ length ids.now }
    ensures { IfOk result (λ table. table.items ≡ rounds ids.now quotas.now count (replicate count FREE)) }
{
    let mut table = vec![in alloc; FREE; count as usize]?;
    fill(&mut table, ids, quotas);
    Ok(table)
}

fn fill(table: &mut [u8], ids: &[u32], quotas: &[u32])
    requires some { 0 < length table.old }
    requires limited { length table.old ≤ 2 ^ 8 }
    requires few { length ids.now ≤ MEMBER_LIMIT }
    requires each { length quotas.now ≡ length ids.now }
    ensures { table.new ≡ rounds ids.now quotas.now (length table.old) table.old }
{
    let count = table.len() as u32;
    for round in 0..count {
        take_turns(table, ids, quotas, round);
    }
}
