//! The pages of the current version, in memory with room for as many as a version may name.

ghost use Rattle.std.specs.Prelude.{◌≡◌, ◌≤◌, IfOk, length, map};
ghost use Rattle.config_image.specs.PageTable.{page_of};
ghost use Rattle.versions.specs.World.{first_pages};

use config_image::{PAGE_LIMIT, PageEntry};
use std::alloc::{AllocError, Global};
use std::marker::Model;

/// The pages that the current version's row names, in its order.
#[derive(Drop)]
pub struct CurrentPages {
    pages: Vec<u32, Global>,
}

impl Model for CurrentPages {
    ghost use Rattle.std.specs.Prelude.{◌≤◌, List, ℕ, vec_capacity};
    ghost use Rattle.config_image.specs.declared.TheConstants.{PAGE_LIMIT};

    ghost Value = { List ℕ };

    ghost view = { λ current. current.pages.items };

    ghost invariant = { λ current. PAGE_LIMIT ≤ vec_capacity current.pages };
}

impl CurrentPages {
    /// Returns the first `count` pages, those of version 0.
    pub(crate) fn first(alloc: Global, count: usize) -> Result<CurrentPages, AllocError>
        requires { count ≤ PAGE_LIMIT }
        ensures { IfOk result (λ current. current ≡ first_pages count) }
    {
        let mut pages = Vec::with_capacity(alloc, PAGE_LIMIT)?;
        for page in 0..count {
            pages.push_reserved(page as u32);
        }
        Ok(CurrentPages { pages })
    }

    /// Replaces the pages by those of these names. Takes no memory.
    pub(crate) fn replace(&mut self, names: &[u64])
        requires { length names.now ≤ PAGE_LIMIT }
        ensures { self.new ≡ map page_of names.now }
    {
        self.pages.clear();
        for name in names {
            self.pages.push_reserved(PageEntry(*name).page() as u32);
        }
    }

    pub(crate) fn as_slice(&self) -> &[u32]
        ensures { result.now ≡ self.now }
    {
        &self.pages
    }
}
