//! The allocation of pages to the programs of a version, one program after the other.

ghost use Rattle.std.specs.Prelude.{◌≡◌, ◌+◌, ◌++◌, ◌<◌, ◌≤◌, ◌∷◌, [], length};
ghost use Rattle.config_image.specs.declared.TheConstants.{PAGE_LIMIT};
ghost use Rattle.read_section.specs.Operator.{HasFreeRow};
ghost use Rattle.retire.specs.body.Allocation.{IsAllocation, AllocatesFree};

use read_section::Operator;
use std::marker::Model;

/// The pages that are allocated so far, at most `N` of them, and the place at which the search for the next free page
/// begins.
#[derive(Drop)]
pub(crate) struct Allocation<const N: usize> {
    pages: [u32; N],
    len: usize,
    from: usize,
}

impl<const N: usize> Model for Allocation<N> {
    ghost use Rattle.std.specs.Prelude.{◌≡◌, ◌≤◌, length, take};
    ghost use Rattle.retire.specs.body.Allocation.{AllocationValue};

    ghost Value = { AllocationValue };

    ghost view = { λ allocation. record { pages = take allocation.len allocation.pages; from = allocation.from } };

    ghost invariant = { λ allocation. allocation.len ≤ N };
}

impl<const N: usize> Allocation<N> {
    #[inline(always)]
    pub(crate) fn none() -> Allocation<N>
        ensures { result ≡ record { pages = []; from = 0 } }
    {
        Allocation {
            pages: [0; N],
            len: 0,
            from: 0,
        }
    }

    fn push(&mut self, page: u32, from: usize)
        requires { length self.old.pages < N }
        ensures { self.new ≡ record { pages = self.old.pages ++ page ∷ []; from = from } }
    {
        self.pages[self.len] = page;
        self.len += 1;
        self.from = from;
    }

    /// Shares pages that a program of the current version has.
    pub(crate) fn share(&mut self, own: &[u32])
        requires room { length self.old.pages + length own.now ≤ N }
        ensures { self.new ≡ record { pages = self.old.pages ++ own.now; from = self.old.from } }
    {
        let end = self.len + own.len();
        let pages = &mut self.pages[..];
        pages[self.len..end].copy_from_slice(own);
        self.len = end;
    }

    /// Allocates `count` free pages, the least ones that are left.
    pub(crate) fn allocate(&mut self, operator: &Operator, count: usize)
        requires row { HasFreeRow operator.now.view }
        requires room { length self.old.pages + count ≤ N }
        requires limit { N ≤ PAGE_LIMIT }
        requires allocation { IsAllocation operator.now.view self.old }
        ensures allocation { IsAllocation operator.now.view self.new }
        ensures free { AllocatesFree operator.now.view self.old self.new count }
    {
        for _index in 0..count {
            let Some(page) = operator.free_page(self.from) else {
                unreachable!()
            };
            self.push(page as u32, page + 1);
        }
    }

    /// Returns the number of pages.
    pub(crate) fn count(&self) -> usize
        ensures { result ≡ length self.now.pages }
    {
        self.len
    }

    /// Returns the page after the last free page that was allocated, or 0.
    pub(crate) fn end(&self) -> usize
        ensures { result ≡ self.now.from }
    {
        self.from
    }

    pub(crate) fn as_slice(&self) -> &[u32]
        ensures { result.now ≡ self.now.pages }
    {
        &self.pages[..self.len]
    }
}
