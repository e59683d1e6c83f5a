//! The programs of the current version, and their pages.

ghost use Rattle.std.specs.Prelude.{◌≡◌, ◌+◌, ◌-◌, ◌<◌, ◌≤◌, ◌^◌, ◌↔◌, ◌∷◌, IfNone, IfSome, IsTrue, List, [], length, slice_index, ℕ};
ghost use Rattle.std.specs.List.{Contains, flat_map};
ghost use Rattle.config_image.specs.declared.TheConstants.{PAGE_LIMIT, PAGE_WORDS};
ghost use Rattle.config_image.specs.Pooled.{pages_for, parts_of};
ghost use Rattle.config_image.specs.Walk.{words_of_programs};
ghost use Rattle.retire.specs.Publish.{HasPages};
ghost use Rattle.read_section.specs.Operator.{IsCurrent, StandsIn};
ghost use Rattle.retire.specs.body.Alike.{AreAlike};
ghost use Rattle.retire.specs.body.Diff.{IsPassed, pages_in};
ghost use Rattle.retire.specs.body.Allocation.{IsBehind, IsCounted, IsNext, IsPassing, Passes, SharesRun};

use crate::allocation::Allocation;
use crate::diff::{Walk, compare};
use config_image::{Programs, pages_for};
use member_group::Config;
use read_section::Operator;
use std::alloc::Global;

/// Programs that are left of a version, and their pages, one program after the other.
#[derive(Drop)]
pub(crate) struct PagedPrograms<'a> {
    programs: Programs<'a, Global>,
    pages: &'a [u32],
}

// Tests up to three words.
fn same_few(words: &[u64], other: &[u64]) -> bool
    requires same { length words.now ≡ length other.now }
    requires few { length words.now < 4 }
    ensures { IsTrue result ↔ (words.now ≡ other.now) }
{
    let len = words.len();
    (len < 1 || words[0] == other[0])
        && (len < 2 || words[1] == other[1])
        && (len < 3 || words[2] == other[2])
}

// Tests four words, without a jump between them: the compiler tests two at once then.
#[inline(always)]
fn same_four(words: &[u64], other: &[u64], at: usize) -> bool
    requires words { at + 4 ≤ length words.now }
    requires other { at + 4 ≤ length other.now }
    ensures { IsTrue result ↔ ((i : ℕ) → at ≤ i → i < at + 4 → slice_index words.now i ≡ slice_index other.now i) }
{
    (words[at] == other[at])
        & (words[at + 1] == other[at + 1])
        & (words[at + 2] == other[at + 2])
        & (words[at + 3] == other[at + 3])
}

// Most programs are short, and equal, so four words are tested at once, without a call. The last four of them may have
// been tested before in part.
// The reason: docs/INTERNALS.md, "Words are compared four at a time".
#[inline(always)]
pub(crate) fn same_words(words: &[u64], other: &[u64]) -> bool
    ensures { IsTrue result ↔ (words.now ≡ other.now) }
{
    if words.len() != other.len() {
        return false;
    }
    if words.len() < 4 {
        return same_few(words, other);
    }
    let last = words.len() - 4;
    let mut at = 0;
    while at < last {
        if !same_four(words, other, at) {
            return false;
        }
        at += 4;
    }
    same_four(words, other, last)
}

impl<'a> PagedPrograms<'a> {
    /// Returns all programs of a configuration, in these pages.
    pub(crate) fn of(config: &'a Config, pages: &'a [u32]) -> PagedPrograms<'a>
        requires counted { IsCounted (words_of_programs config.now) pages.now }
        ensures programs { result.programs ≡ words_of_programs config.now }
        ensures pages { result.pages.now ≡ pages.now }
    {
        PagedPrograms {
            programs: Programs::of(config),
            pages,
        }
    }

    fn next(&mut self) -> Option<(&'a [u64], &'a [u32])>
        requires counted { IsCounted self.old.programs self.old.pages.now }
        ensures some { IfSome result (λ t. IsNext self.old.programs self.old.pages.now t.0.now t.1.now self.new.programs self.new.pages.now) }
        ensures none { IfNone result ((self.old.programs ≡ []) × (self.new ≡ self.old)) }
    {
        let Some(words) = self.programs.next() else {
            return None;
        };
        let (own, left) = self.pages.split_at(pages_for(words.len()));
        self.pages = left;
        Some((words, own))
    }

    // Passes the next program, and returns its pages if it has these words.
    fn next_equal(&mut self, words: &[u64]) -> Option<&'a [u32]>
        requires counted { IsCounted self.old.programs self.old.pages.now }
        ensures some { IfSome result (λ own. IsNext self.old.programs self.old.pages.now words.now own.now self.new.programs self.new.pages.now) }
        ensures behind { IsBehind self.old.programs self.old.pages.now self.new.programs self.new.pages.now }
        ensures counted { IsCounted self.new.programs self.new.pages.now }
    {
        let Some((passed, own)) = self.next() else {
            return None;
        };
        if same_words(words, passed) {
            return Some(own);
        }
        None
    }

    // Passes programs as long as they have the words of the next ones here, and returns the pages of these. Also
    // returns the first program that differs: it was passed, and so was the next one here.
    // The reason: docs/INTERNALS.md, "Programs are passed in runs".
    fn pass_equal<'b>(
        &mut self,
        programs: &mut Programs<'b, Global>,
    ) -> (&'a [u32], Option<&'b [u64]>)
        requires counted { IsCounted self.old.programs self.old.pages.now }
        ensures some { IfSome result.1 (λ words. Passes programs.old self.old.programs self.old.pages.now result.0.now (words.now ∷ programs.new)) }
        ensures none { IfNone result.1 (Passes programs.old self.old.programs self.old.pages.now result.0.now []) }
        ensures behind { IsBehind self.old.programs self.old.pages.now self.new.programs self.new.pages.now }
        ensures counted { IsCounted self.new.programs self.new.pages.now }
    {
        let pages = self.pages;
        let mut count = 0;
        while let Some(words) = programs.next() {
            let Some(own) = self.next_equal(words) else {
                return (&pages[..count], Some(words));
            };
            count += own.len();
        }
        (&pages[..count], None)
    }

    // Passes programs up to the first one that has these words, and returns its pages.
    fn find(&mut self, words: &[u64]) -> Option<&'a [u32]>
        requires counted { IsCounted self.old.programs self.old.pages.now }
        ensures some { IfSome result (λ own. HasPages self.old.programs self.old.pages.now words.now own.now) }
        ensures none { IfNone result (Contains self.old.programs words.now → ⊥) }
        ensures behind { IsBehind self.old.programs self.old.pages.now self.new.programs self.new.pages.now }
        ensures counted { IsCounted self.new.programs self.new.pages.now }
    {
        while let Some((other, own)) = self.next() {
            if same_words(words, other) {
                return Some(own);
            }
        }
        None
    }
}

/// The current version: its configuration and pages, and those of its programs that were not passed yet.
#[derive(Drop)]
pub(crate) struct Current<'a> {
    config: &'a Config,
    pages: &'a [u32],
    left: PagedPrograms<'a>,
}

impl<'a> Current<'a> {
    /// Returns the operator's current version, with no program passed.
    pub(crate) fn of(operator: &'a Operator) -> Current<'a>
        ensures current { IsCurrent operator.now.view result.config.now }
        ensures stands { StandsIn operator.now.view result.config.now result.pages.now }
        ensures none_passed { IsPassing (words_of_programs result.config.now) result.pages.now result.left.programs result.left.pages.now }
    {
        let config = operator.config();
        let pages = operator.current_pages();
        Current {
            config,
            pages,
            left: PagedPrograms::of(config, pages),
        }
    }

    /// Lends its pages.
    pub(crate) fn pages(&self) -> &'a [u32]
        ensures { result.now ≡ self.now.pages.now }
    {
        self.pages
    }

    /// Compares another configuration with the current one, as `diff::compare` does.
    pub(crate) fn compare<'b>(&self, config: &'b Config) -> Option<Walk<'b>>
        requires room { pages_in (words_of_programs config.now) ≤ PAGE_LIMIT }
        ensures alike { IfSome result (λ walk. AreAlike config.now self.now.config.now) }
        ensures passed { IfSome result (λ walk. IsPassed walk (words_of_programs config.now) (words_of_programs self.now.config.now)) }
    {
        compare(config, self.config)
    }

    /// Shares the pages of programs as long as they have the words of the next programs of the current version. Returns
    /// the first program that differs. If few programs change, nearly all are passed at once.
    pub(crate) fn share_equal<'b, const N: usize>(
        &mut self,
        programs: &mut Programs<'b, Global>,
        allocation: &mut Allocation<N>,
    ) -> Option<&'b [u64]>
        requires passing { IsPassing (words_of_programs self.old.config.now) self.old.pages.now self.old.left.programs self.old.left.pages.now }
        requires room { length allocation.old.pages + length (flat_map parts_of programs.old) ≤ N }
        ensures some { IfSome result (λ words. SharesRun (words_of_programs self.old.config.now) self.old.pages.now programs.old (words.now ∷ programs.new) allocation.old allocation.new) }
        ensures none { IfNone result (SharesRun (words_of_programs self.old.config.now) self.old.pages.now programs.old [] allocation.old allocation.new) }
        ensures same { (self.new.config ≡ self.old.config) × (self.new.pages ≡ self.old.pages) }
        ensures passing { IsPassing (words_of_programs self.old.config.now) self.old.pages.now self.new.left.programs self.new.left.pages.now }
    {
        let (own, differs) = self.left.pass_equal(programs);
        allocation.share(own);
        differs
    }

    /// Returns the pages of a program of the current version that has these words, `None` if there is none.
    ///
    /// The program is searched for among all of them, and the programs after it are compared next.
    pub(crate) fn find_equal(&mut self, words: &[u64]) -> Option<&'a [u32]>
        requires passing { IsPassing (words_of_programs self.old.config.now) self.old.pages.now self.old.left.programs self.old.left.pages.now }
        ensures some { IfSome result (λ own. HasPages (words_of_programs self.old.config.now) self.old.pages.now words.now own.now) }
        ensures none { IfNone result (Contains (words_of_programs self.old.config.now) words.now → ⊥) }
        ensures same { (self.new.config ≡ self.old.config) × (self.new.pages ≡ self.old.pages) }
        ensures passing { IsPassing (words_of_programs self.old.config.now) self.old.pages.now self.new.left.programs self.new.left.pages.now }
    {
        let mut all = PagedPrograms::of(self.config, self.pages);
        let Some(own) = all.find(words) else {
            return None;
        };
        self.left = all;
        Some(own)
    }
}
