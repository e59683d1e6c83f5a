//! Reading what `spread` is given: the number of buckets, what is hashed, and the members with their weights (docs/COMMANDS.md,
//! "spread").

ghost use Rattle.std.specs.Prelude.{◌≡◌, ◌≤◌, IfOk, IfSome, IsTrue, map, option_map};
ghost use Rattle.clap.specs.Lexer.{name_and_value};
ghost use Rattle.command_line.specs.Shares.{are_distinct, can_share, depth_named, has_share, hash_named, members_among, number_to, share_in, shares_in, spreading_in};
ghost use Rattle.selector_buckets.specs.Shares.{CanShare};
ghost use Rattle.selector_buckets.specs.declared.TheConstants.{DEPTH_LIMIT};

use crate::spreading::Spreading;
use selector_buckets::{HashBy, MEMBER_LIMIT, Share, can_share};
use std::alloc::{AllocError, Global};

// The depth of a table with so many buckets.
fn depth_named(text: &str) -> Option<u32>
    ensures depth { result ≡ depth_named text.now }
    ensures limited { IfSome result (λ depth. depth ≤ DEPTH_LIMIT) }
{
    match text {
        "1" => Some(0),
        "2" => Some(1),
        "4" => Some(2),
        "8" => Some(3),
        "16" => Some(4),
        "32" => Some(5),
        "64" => Some(6),
        "128" => Some(7),
        "256" => Some(8),
        _ => None,
    }
}

fn hash_named(text: &str) -> Option<HashBy>
    ensures { result ≡ hash_named text.now }
{
    match text {
        "addresses" => Some(HashBy::Addresses),
        "ports" => Some(HashBy::Ports),
        "both" => Some(HashBy::Both),
        _ => None,
    }
}

// Reads the number of a text, `None` if it is above `most`.
fn number_to(most: u64, text: &str) -> Option<u64>
    ensures number { result ≡ number_to most text.now }
    ensures in_range { IfSome result (λ number. number ≤ most) }
{
    match text.parse::<u64>() {
        Ok(number) if number <= most => Some(number),
        _ => None,
    }
}

// The text before the first `=`, and the text after it if there is one.
fn parts_of(word: &str) -> (&str, Option<&str>)
    ensures { (result.0.now, option_map (λ part. part.now) result.1) ≡ name_and_value word.now }
{
    match word.split_once('=') {
        Some((id, weight)) => (id, Some(weight)),
        None => (word, None),
    }
}

// Reads `ID=WEIGHT`.
fn share_in(word: &str) -> Option<Share>
    ensures { result ≡ share_in word.now }
{
    let (id, weight) = parts_of(word);
    let weight = weight?;
    let id = number_to(u32::MAX as u64, id)? as u32;
    let weight = number_to(u16::MAX as u64, weight)? as u16;
    Some(Share { id, weight })
}

fn shares_in(alloc: Global, words: &[&str]) -> Result<Option<Vec<Share>>, AllocError>
    ensures { IfOk result (λ read. option_map (λ shares. shares.items) read ≡ shares_in (map (λ word. word.now) words.now)) }
{
    let mut shares = Vec::new(alloc);
    let mut left = words;
    while let [word, rest @ ..] = left {
        let Some(share) = share_in(*word) else {
            return Ok(None);
        };
        shares.push(share)?;
        left = rest;
    }
    Ok(Some(shares))
}

fn has_share(shares: &[Share], id: u32) -> bool
    ensures { result ≡ has_share id shares.now }
{
    shares.iter().any(|share| share.id == id)
}

// Tests whether no ID is there twice.
fn are_distinct(shares: &[Share]) -> bool
    ensures { result ≡ are_distinct shares.now }
{
    let mut left = shares;
    while let [share, rest @ ..] = left {
        if has_share(rest, share.id) {
            return false;
        }
        left = rest;
    }
    true
}

// Tests whether members can share a table.
fn are_members(shares: &[Share]) -> bool
    ensures members { result ≡ can_share shares.now }
    ensures shared { IsTrue result → CanShare shares.now }
{
    can_share(shares)
}

// The members, if they can share a table, and no ID is there twice.
fn members_among(shares: Vec<Share>) -> Option<Vec<Share>>
    ensures members { option_map (λ members. members.items) result ≡ members_among shares.items }
    ensures shared { IfSome result (λ members. CanShare members.items) }
{
    if are_members(&shares) && are_distinct(&shares) {
        Some(shares)
    } else {
        None
    }
}

/// Reads what `spread` is given. Returns `None` if a word is invalid.
pub(crate) fn spreading_in(
    alloc: Global,
    buckets: &str,
    by: &str,
    words: &[&str],
) -> Result<Option<Spreading>, AllocError>
    ensures { IfOk result (λ read. option_map (λ asked. (asked.depth, asked.by, asked.shares.items)) read
        ≡ spreading_in buckets.now by.now (map (λ word. word.now) words.now)) }
{
    let Some(depth) = depth_named(buckets) else {
        return Ok(None);
    };
    let Some(by) = hash_named(by) else {
        return Ok(None);
    };
    let Some(shares) = shares_in(alloc, words)? else {
        return Ok(None);
    };
    let Some(shares) = members_among(shares) else {
        return Ok(None);
    };
    Ok(Some(Spreading { depth, by, shares }))
}

// The message about the first invalid word among those of members.
fn share_fault_text(alloc: Global, words: &[&str]) -> Result<String, AllocError> {
    let mut seen = Vec::new(alloc);
    for word in words {
        let word = *word;
        let Some(share) = share_in(word) else {
            return format!(in alloc;
                "invalid value '{word}' for '<ID=WEIGHT>...': it is not an ID from 0 to 4294967295, `=`, and a weight from 0 to 65535"
            );
        };
        if has_share(&seen, share.id) {
            return format!(in alloc;
                "invalid value '{word}' for '<ID=WEIGHT>...': a member has this ID already"
            );
        }
        if seen.len() == MEMBER_LIMIT {
            return format!(in alloc;
                "invalid value '{word}' for '<ID=WEIGHT>...': there are 64 members already"
            );
        }
        seen.push(share)?;
    }
    String::from_str(
        alloc,
        "invalid values for '<ID=WEIGHT>...': one weight has to be above 0",
    )
}

/// Returns the message about the first invalid value of `spread`.
pub(crate) fn fault_text(
    alloc: Global,
    buckets: &str,
    by: &str,
    words: &[&str],
) -> Result<String, AllocError> {
    if depth_named(buckets).is_none() {
        return format!(in alloc;
            "invalid value '{buckets}' for '--buckets <B>'\n  [possible values: 1, 2, 4, 8, 16, 32, 64, 128, 256]"
        );
    }
    if hash_named(by).is_none() {
        return format!(in alloc;
            "invalid value '{by}' for '--by <FIELDS>'\n  [possible values: addresses, ports, both]"
        );
    }
    share_fault_text(alloc, words)
}
