//! The last version that named a page, for each page of the pool.

ghost use Rattle.std.specs.Prelude.{◌≡◌, ◌<◌, IfOk, length, replicate, slice_index, slice_set};
ghost use Rattle.versions.specs.declared.layout.TheConstants.{PAGES};
ghost use Rattle.versions.specs.Table.{the_shape};

use crate::layout::PAGES;
use std::alloc::{AllocError, Allocator, Global};
use std::marker::Model;

/// For each page one more than the number of the last version that named it, 0 if none did.
#[derive(Drop)]
pub struct PageUses<A: Allocator = Global> {
    uses: Vec<u64, A>,
}

impl<A: Allocator> Model for PageUses<A> {
    ghost use Rattle.std.specs.Prelude.{◌≡◌, List, length, ℕ};
    ghost use Rattle.versions.specs.declared.layout.TheConstants.{PAGES};

    ghost Value = { List ℕ };

    ghost view = { λ uses. uses.uses.items };

    ghost invariant = { λ uses. length uses.uses.items ≡ PAGES };
}

impl<A: Allocator> PageUses<A> {
    /// Returns the uses of a pool in which no page was named yet.
    pub(crate) fn none(alloc: A) -> Result<PageUses<A>, AllocError>
        ensures none { IfOk result (λ uses. uses ≡ replicate the_shape.pages 0) }
    {
        let mut uses = Vec::with_capacity(alloc, PAGES)?;
        uses.resize(PAGES, 0)?;
        Ok(PageUses { uses })
    }

    pub(crate) fn last_use(&self, page: usize) -> u64
        requires { page < PAGES }
        ensures { result ≡ slice_index self.now page }
    {
        self.uses[page]
    }

    pub(crate) fn name(&mut self, page: usize, number: u64)
        requires { page < PAGES }
        ensures { self.new ≡ slice_set self.old page number }
    {
        self.uses[page] = number;
    }
}
