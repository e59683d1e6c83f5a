//! The pages of the pool: how many a configuration takes; the page table of a row, with the search in it and the cache of what was
//! found.

ghost use Rattle.std.specs.Prelude.{◌≡◌, ◌+◌, ◌*◌, ◌<◌, ◌≤◌, ◌^◌, length};
ghost use Rattle.std.specs.List.{sum_by};
ghost use Rattle.std.specs.Option.{option_map};
ghost use Rattle.member_group.specs.Charge.{charge_of};
ghost use Rattle.member_group.specs.Group.{IsConfig, IsGroup};
ghost use Rattle.config_image.specs.Image.{words_of};
ghost use Rattle.config_image.specs.Pooled.{pages_for, parts};

use crate::size::words;
use crate::{PAGE_LIMIT, PAGE_WORDS, ROW_WORDS};
use bpf_verify::{MAX_INSTRUCTIONS, Program};
use member_group::{Config, Group, MEMBER_LIMIT, Member};
use std::alloc::Allocator;

mod cache;
mod search;
mod table;

pub use cache::{Extent, ExtentCache};
pub use search::{FoundPart, Search};
pub use table::{PageEntry, RowHeader};

/// Returns the number of pages that a program of `len` words takes: one for each `PAGE_WORDS` words, and one for the rest.
#[inline(always)]
pub fn pages_for(len: usize) -> usize
    requires { len + PAGE_WORDS < 2 ^ 64 }
    ensures { result ≡ pages_for len }
{
    (len + (PAGE_WORDS - 1)) / PAGE_WORDS
}

// How many pages a program takes, none if there is no program.
fn program_pages<A: Allocator>(program: Option<&Program<A>>) -> u32
    ensures pages { result ≡ pages_for (length (words_of (option_map (λ lent. lent.now) program.entry))) }
    ensures limited { result ≤ pages_for MAX_INSTRUCTIONS }
{
    pages_for(words(program).len()) as u32
}

fn filters_pages<A: Allocator>(members: &[Member<Program<A>>]) -> u32
    requires { length members.now ≤ MEMBER_LIMIT }
    ensures pages { result ≡ sum_by (λ member. pages_for (length (words_of member.filter))) members.now }
    ensures limited { result ≤ MEMBER_LIMIT * pages_for MAX_INSTRUCTIONS }
{
    let mut pages = 0;
    for member in members {
        pages += program_pages(member.filter.as_ref());
    }
    pages
}

fn group_pages<A: Allocator>(group: &Group<A>) -> u32
    requires { IsGroup group.now }
    ensures pages { result ≡ pages_for (length (words_of group.now.selector))
        + sum_by (λ member. pages_for (length (words_of member.filter))) group.now.members }
    ensures limited { result ≤ (1 + MEMBER_LIMIT) * pages_for MAX_INSTRUCTIONS }
{
    program_pages(group.selector()) + filters_pages(group.members())
}

fn pages_in<A: Allocator>(groups: &[Group<A>]) -> u32
    requires { IsConfig groups.now }
    ensures pages { result ≡ length (parts groups.now) }
{
    let mut pages = 0;
    for group in groups {
        pages += group_pages(group);
    }
    pages
}

/// Returns the number of pages that the programs of a configuration take, by `pages_for`.
///
/// Takes time for each group and each member, and none for the words of a program.
#[tactic(auto, using(crate::proofs::PooledLemmas::few_pages))]
pub fn page_count<A: Allocator>(config: &Config<A>) -> u32
    ensures exact { result ≡ length (parts config.now) }
    ensures within { charge_of config.now ≤ ROW_WORDS → result ≤ PAGE_LIMIT }
{
    pages_in(config.groups())
}
