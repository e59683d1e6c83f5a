//! Pages of the pool: allocating them to a configuration's programs, and filling them.

ghost use Rattle.std.specs.Prelude.{◌≡◌, ◌+◌, ◌<◌, ◌≤◌, ◌↔◌, IfNone, IfSome, IsTrue, Some, [], drop, length, slice_get, take, ℕ};
ghost use Rattle.std.specs.List.{flat_map};
ghost use Rattle.config_image.specs.declared.TheConstants.{PAGE_LIMIT};
ghost use Rattle.config_image.specs.Pooled.{pages_for, parts, parts_of};
ghost use Rattle.config_image.specs.Walk.{words_of_programs};
ghost use Rattle.versions.specs.Free.{IsFreePage};
ghost use Rattle.versions.specs.Table.{the_shape};
ghost use Rattle.read_section.specs.Operator.{HasFreeRow};
ghost use Rattle.retire.specs.body.Filling.{AreFreeBelow, AreFreePages, AreReady, FillsLast, FillsNew, FillsParts, IsReady};
ghost use Rattle.retire.specs.body.Alike.{IsLikeCurrent};
ghost use Rattle.retire.specs.body.Allocation.{IsAllocation, ChoosesPages, IsBehindNoneFree, IsCounted, IsPassing, NoneFree, ReplacesOne, TakesOneMore};

use crate::allocation::Allocation;
use crate::current_pages::Current;
use config_image::{PAGE_WORDS, Programs, pages_for};
use member_group::Config;
use read_section::Operator;
use std::alloc::Global;

// Shares the pages of an equal program of the current version, or allocates free ones.
fn take_for<const N: usize>(
    operator: &Operator,
    current: &mut Current<'_>,
    allocation: &mut Allocation<N>,
    words: &[u64],
)
    requires row { HasFreeRow operator.now.view }
    requires passing { IsPassing (words_of_programs current.old.config.now) current.old.pages.now current.old.left.programs current.old.left.pages.now }
    requires held { NoneFree operator.now.view current.old.pages.now }
    requires room { length allocation.old.pages + pages_for (length words.now) ≤ N }
    requires limit { N ≤ PAGE_LIMIT }
    requires allocation { IsAllocation operator.now.view allocation.old }
    ensures same { (current.new.config ≡ current.old.config) × (current.new.pages ≡ current.old.pages) }
    ensures passing { IsPassing (words_of_programs current.old.config.now) current.old.pages.now current.new.left.programs current.new.left.pages.now }
    ensures allocation { IsAllocation operator.now.view allocation.new }
    ensures one_more { TakesOneMore operator.now.view (words_of_programs current.old.config.now) current.old.pages.now words.now allocation.old allocation.new }
{
    match current.find_equal(words) {
        Some(own) => allocation.share(own),
        None => allocation.allocate(operator, pages_for(words.len())),
    }
}

// Chooses pages program by program, without the diff. Returns the last program before which no free page was allocated, and the
// number of pages before its own: if one program alone is new, it is that one.
fn choose_each<'a, const N: usize>(
    operator: &Operator,
    config: &'a Config,
    allocation: &mut Allocation<N>,
) -> Option<(&'a [u64], usize)>
    requires row { HasFreeRow operator.now.view }
    requires enough { length (parts config.now) ≤ N }
    requires limit { N ≤ PAGE_LIMIT }
    requires none { allocation.old ≡ record { pages = []; from = 0 } }
    ensures chosen { ChoosesPages operator.now.view config.now allocation.new.pages }
    ensures below { AreFreeBelow operator.now.view allocation.new.pages allocation.new.from }
    ensures first { IfSome result (λ first. IsBehindNoneFree operator.now.view (words_of_programs config.now) allocation.new.pages first.0.now first.1) }
{
    let mut current = Current::of(operator);
    let mut programs = Programs::of(config);
    let mut first = None;
    while let Some(words) = current.share_equal(&mut programs, allocation) {
        if allocation.end() == 0 {
            first = Some((words, allocation.count()));
        }
        take_for(operator, &mut current, allocation, words);
    }
    first
}

// Shares all pages of the current version but those of one program, for which `take_for` chooses: its words replace a program of the
// same length, whose pages begin at index `at`.
fn replace_one<const N: usize>(
    operator: &Operator,
    current: &mut Current<'_>,
    allocation: &mut Allocation<N>,
    words: &[u64],
    at: usize,
)
    requires row { HasFreeRow operator.now.view }
    requires passing { IsPassing (words_of_programs current.old.config.now) current.old.pages.now current.old.left.programs current.old.left.pages.now }
    requires held { NoneFree operator.now.view current.old.pages.now }
    requires room { length current.old.pages.now ≤ N }
    requires limit { N ≤ PAGE_LIMIT }
    requires inside { at + pages_for (length words.now) ≤ length current.old.pages.now }
    requires none { allocation.old ≡ record { pages = []; from = 0 } }
    ensures replaced { ReplacesOne operator.now.view (words_of_programs current.old.config.now) current.old.pages.now words.now at allocation.new }
{
    let pages = current.pages();
    allocation.share(&pages[..at]);
    take_for(operator, current, allocation, words);
    allocation.share(&pages[at + pages_for(words.len())..]);
}

/// Results of choosing the pages of a version, besides the pages.
#[derive(Drop)]
pub(crate) struct Chosen<'a> {
    /// A program, and the number of pages before its own, of which none is free. If one program alone is new, it is that one.
    pub(crate) first: Option<(&'a [u64], usize)>,
    /// The diff found the configuration to be like the current one.
    pub(crate) is_like: bool,
}

// Chooses pages by the diff, if the configuration is like the current one and at most one program has other words. Otherwise nothing
// is allocated.
fn choose_alike<'a, const N: usize>(
    operator: &Operator,
    config: &'a Config,
    allocation: &mut Allocation<N>,
) -> Option<Chosen<'a>>
    requires row { HasFreeRow operator.now.view }
    requires enough { length (parts config.now) ≤ N }
    requires limit { N ≤ PAGE_LIMIT }
    requires none { allocation.old ≡ record { pages = []; from = 0 } }
    ensures chosen { IfSome result (λ chosen. ChoosesPages operator.now.view config.now allocation.new.pages) }
    ensures below { IfSome result (λ chosen. AreFreeBelow operator.now.view allocation.new.pages allocation.new.from) }
    ensures first { IfSome result (λ chosen. IfSome chosen.first (λ first. IsBehindNoneFree operator.now.view (words_of_programs config.now) allocation.new.pages first.0.now first.1)) }
    ensures like { IfSome result (λ chosen. IsLikeCurrent operator.now.view config.now) }
    ensures none { IfNone result (allocation.new ≡ allocation.old) }
{
    let mut current = Current::of(operator);
    let Some(walk) = current.compare(config) else {
        return None;
    };
    match walk.differs {
        Some((words, at)) => replace_one(operator, &mut current, allocation, words, at),
        None => allocation.share(current.pages()),
    }
    Some(Chosen {
        first: walk.differs,
        is_like: true,
    })
}

// The pages of the next version's programs: those of equal programs of the current version, otherwise the least free
// ones, in order. They go into the caller's `allocation`: as a result they would be copied.
pub(crate) fn choose_pages<'a, const N: usize>(
    operator: &Operator,
    config: &'a Config,
    allocation: &mut Allocation<N>,
) -> Chosen<'a>
    requires row { HasFreeRow operator.now.view }
    requires enough { length (parts config.now) ≤ N }
    requires limit { N ≤ PAGE_LIMIT }
    requires none { allocation.old ≡ record { pages = []; from = 0 } }
    ensures chosen { ChoosesPages operator.now.view config.now allocation.new.pages }
    ensures below { AreFreeBelow operator.now.view allocation.new.pages allocation.new.from }
    ensures first { IfSome result.first (λ first. IsBehindNoneFree operator.now.view (words_of_programs config.now) allocation.new.pages first.0.now first.1) }
    ensures like { IsTrue result.is_like → IsLikeCurrent operator.now.view config.now }
{
    match choose_alike(operator, config, allocation) {
        Some(chosen) => chosen,
        None => Chosen {
            first: choose_each(operator, config, allocation),
            is_like: false,
        },
    }
}

// Fills free pages with the words of a program.
fn fill_program(operator: &mut Operator, words: &[u64], own: &[u32])
    requires free { AreFreePages operator.old own.now }
    requires counted { length own.now ≡ pages_for (length words.now) }
    ensures { FillsParts operator.old operator.new own.now (parts_of words.now) }
{
    for place in 0..words.len() {
        let page = own[place / PAGE_WORDS] as usize;
        operator.fill_page(page, place % PAGE_WORDS, words[place]);
    }
}

// Tests whether the first of these pages is free.
fn begins_free(operator: &Operator, own: &[u32]) -> bool
    ensures { IsTrue result ↔ ((page : ℕ) × (slice_get own.now 0 ≡ Some page) × IsFreePage the_shape operator.now.view page) }
{
    if own.is_empty() {
        return false;
    }
    operator.page_is_free(own[0] as usize)
}

// Fills the first pages with the words of a program, unless it is there already. Returns these pages if they were
// filled, otherwise none; and the pages that are left.
fn fill_new<'a>(operator: &mut Operator, words: &[u64], pages: &'a [u32]) -> (&'a [u32], &'a [u32])
    requires enough { pages_for (length words.now) ≤ length pages.now }
    requires ready { IsReady operator.old words.now (take (pages_for (length words.now)) pages.now) }
    ensures fills { FillsNew operator.old operator.new words.now (take (pages_for (length words.now)) pages.now) }
    ensures filled { (index page : ℕ) → slice_get result.0.now index ≡ Some page → (slice_get pages.now index ≡ Some page) × (index < pages_for (length words.now)) × IsFreePage the_shape operator.old.view page }
    ensures left { result.1.now ≡ drop (pages_for (length words.now)) pages.now }
{
    let (own, left) = pages.split_at(pages_for(words.len()));
    if begins_free(operator, own) {
        fill_program(operator, words, own);
        return (own, left);
    }
    (&[], left)
}

// Tests whether the last of these pages is the one before `end`.
fn ends_before(own: &[u32], end: usize) -> bool
    ensures { IsTrue result → (index : ℕ) × (page : ℕ) × (slice_get own.now index ≡ Some page) × (page + 1 ≡ end) }
{
    let len = own.len();
    len > 0 && own[len - 1] as usize + 1 == end
}

// Stops after the last of the pages that were free, which is the one before `end`.
// Why it stops at `end`: docs/INTERNALS.md, "Which programs are filled".
fn fill_programs(operator: &mut Operator, programs: Programs<'_, Global>, pages: &[u32], end: usize)
    requires ready { AreReady operator.old programs pages.now }
    requires counted { IsCounted programs pages.now }
    requires below { AreFreeBelow operator.old.view pages.now end }
    ensures { FillsParts operator.old operator.new pages.now (flat_map parts_of programs.entry) }
{
    let mut left = pages;
    for words in programs {
        let (filled, others) = fill_new(operator, words, left);
        left = others;
        if ends_before(filled, end) {
            return;
        }
    }
}

// Fills a program into its pages if these have the last page that is free, and returns whether it did.
fn fill_last(operator: &mut Operator, words: &[u64], own: &[u32], end: usize) -> bool
    requires counted { length own.now ≡ pages_for (length words.now) }
    requires ready { IsReady operator.old words.now own.now }
    ensures filled { IsTrue result → FillsLast operator.old operator.new words.now own.now end }
    ensures kept { (IsTrue result → ⊥) → operator.new ≡ operator.old }
{
    if !begins_free(operator, own) || !ends_before(own, end) {
        return false;
    }
    fill_program(operator, words, own);
    true
}

// Fills those pages that are free with the words of a configuration's programs, each program from the first word of a
// page on. No free page is `end` or after it, and none is before those of the program `first`.
pub(crate) fn fill_pages(
    operator: &mut Operator,
    config: &Config,
    pages: &[u32],
    end: usize,
    first: Option<(&[u64], usize)>,
)
    requires ready { AreReady operator.old (words_of_programs config.now) pages.now }
    requires counted { IsCounted (words_of_programs config.now) pages.now }
    requires below { AreFreeBelow operator.old.view pages.now end }
    requires first { IfSome first (λ first. IsBehindNoneFree operator.old.view (words_of_programs config.now) pages.now first.0.now first.1) }
    ensures { FillsParts operator.old operator.new pages.now (flat_map parts_of (words_of_programs config.now)) }
{
    if end == 0 {
        return;
    }
    if let Some((words, at)) = first {
        let own = &pages[at..at + pages_for(words.len())];
        if fill_last(operator, words, own, end) {
            return;
        }
    }
    fill_programs(operator, Programs::of(config), pages, end);
}
