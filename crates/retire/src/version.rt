//! Making a version: its pages and then its row are filled.

ghost use Rattle.std.specs.Prelude.{◌≡◌, ◌≤◌, List, length, ℕ};
ghost use Rattle.member_group.specs.Charge.{charge_of};
ghost use Rattle.config_image.specs.declared.TheConstants.{PAGE_LIMIT};
ghost use Rattle.config_image.specs.Pooled.{parts};
ghost use Rattle.versions.specs.Free.{IsFreeRow};
ghost use Rattle.versions.specs.Table.{the_shape};
ghost use Rattle.read_section.specs.Layout.{IsPublishable};
ghost use Rattle.retire.specs.body.Filling.{FillsVersion};

use crate::allocation::Allocation;
use crate::pages::{choose_pages, fill_pages};
use crate::row::fill_row;
use config_image::PAGE_LIMIT;
use member_group::Config;
use read_section::Operator;

// Most configurations take no more pages than these. Room for them is made ready in less time than room for all.
const FEW_PAGES: usize = 800;

// Up to this charge the pages are few, since each page costs four words of the image at least.
const FEW_CHARGE: u64 = 4 * FEW_PAGES as u64;

// Chooses pages, at most N of them, and fills the free ones and a free row, so that they contain the configuration.
fn fill_by<const N: usize>(operator: &mut Operator, row: usize, config: &Config)
    requires free { IsFreeRow the_shape operator.old.view row }
    requires publishable { IsPublishable config.now }
    requires enough { length (parts config.now) ≤ N }
    requires limit { N ≤ PAGE_LIMIT }
    ensures { (pages : List ℕ) × FillsVersion operator.old operator.new row config.now pages }
{
    let mut allocation = Allocation::<N>::none();
    let chosen = choose_pages(operator, config, &mut allocation);
    let pages = allocation.as_slice();
    fill_pages(operator, config, pages, allocation.end(), chosen.first);
    fill_row(operator, row, config, pages, chosen.is_like);
}

// The same, of a configuration with this charge.
// Why there are two rooms: docs/INTERNALS.md, "Room for few pages".
pub(crate) fn fill_version(operator: &mut Operator, row: usize, config: &Config, charge: u64)
    requires free { IsFreeRow the_shape operator.old.view row }
    requires publishable { IsPublishable config.now }
    requires charge { charge ≡ charge_of config.now }
    ensures { (pages : List ℕ) × FillsVersion operator.old operator.new row config.now pages }
{
    if charge <= FEW_CHARGE {
        fill_by::<FEW_PAGES>(operator, row, config)
    } else {
        fill_by::<PAGE_LIMIT>(operator, row, config)
    }
}
