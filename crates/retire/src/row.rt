//! Free rows: finding one, and filling it.

ghost use Rattle.std.specs.Prelude.{◌≡◌, ◌+◌, IfNone, IfSome, IsTrue, length};
ghost use Rattle.config_image.specs.Image.{programs_begin};
ghost use Rattle.config_image.specs.Pooled.{ArePages, parts, pooled_row};
ghost use Rattle.versions.specs.Free.{IsFreeRow};
ghost use Rattle.versions.specs.Table.{the_shape};
ghost use Rattle.read_section.specs.Layout.{IsPublishable};
ghost use Rattle.read_section.specs.Operator.{HasFreeRow};
ghost use Rattle.retire.specs.Publish.{IsBusy, IsLeastFreeRow, LooksForRow, ScansEach};
ghost use Rattle.retire.specs.body.Alike.{IsLikeCurrent};
ghost use Rattle.retire.specs.body.Filling.{FillsRow, HoldsFront, HoldsRow};

use crate::row_reuse::{copy_front, fill_names};
use crate::sink::{fill_front, fill_other};
use config_image::RowHeader;
use member_group::Config;
use read_section::Operator;
use std::marker::Brand;
use versions::{ROWS, WORKERS};

pub(crate) fn scan_each(operator: &mut Operator)
    ensures { ScansEach operator.old operator.new }
{
    for worker in 0..WORKERS {
        operator.scan(worker);
    }
}

fn free_row(operator: &Operator) -> Option<usize>
    ensures some { IfSome result (IsLeastFreeRow operator.now) }
    ensures none { IfNone result (HasFreeRow operator.now.view → ⊥) }
{
    for row in 0..ROWS {
        if operator.is_free(row) {
            return Some(row);
        }
    }
    None
}

// The least free row. If there is none at first, each read word is scanned once.
pub(crate) fn look_for_row(operator: &mut Operator) -> Option<usize>
    ensures some { IfSome result (IsLeastFreeRow operator.new) }
    ensures looked { IfSome result (λ row. LooksForRow operator.old operator.new) }
    ensures none { IfNone result (IsBusy operator.old operator.new) }
{
    if let Some(row) = free_row(operator) {
        return Some(row);
    }
    scan_each(operator);
    free_row(operator)
}

// Fills the words of a row before its last zeros, and returns how many there are. If the configuration is like the current one, the
// words of the current row are reused, which has as many page table entries. Otherwise they are made anew.
fn fill_words(
    operator: &mut Operator,
    row: usize,
    config: &Config,
    pages: &[u32],
    is_like: bool,
) -> usize
    requires free { IsFreeRow the_shape operator.old.view row }
    requires publishable { IsPublishable config.now }
    requires pages { ArePages config.now pages.now }
    requires like { IsTrue is_like → IsLikeCurrent operator.old.view config.now }
    ensures fills { FillsRow operator.old operator.new row config.now pages.now }
    ensures front { HoldsFront operator.new row (pooled_row config.now pages.now) result }
    ensures len { result ≡ programs_begin config.now + length (parts config.now) }
{
    if !is_like {
        return fill_front::<Brand>(operator, row, config, pages);
    }
    let names = operator.current_pages().len();
    let from = operator.current_row();
    let begin = RowHeader(operator.row_word(from, 0)).programs_at();
    copy_front(operator, row, from, begin);
    fill_names(operator, row, from, begin, pages);
    begin + names
}

// Fills a row until it is the configuration's, with its parts in these pages. Words that are there already are left
// alone.
pub(crate) fn fill_row(
    operator: &mut Operator,
    row: usize,
    config: &Config,
    pages: &[u32],
    is_like: bool,
)
    requires free { IsFreeRow the_shape operator.old.view row }
    requires publishable { IsPublishable config.now }
    requires pages { ArePages config.now pages.now }
    requires like { IsTrue is_like → IsLikeCurrent operator.old.view config.now }
    ensures fills { FillsRow operator.old operator.new row config.now pages.now }
    ensures holds { HoldsRow operator.new row (pooled_row config.now pages.now) }
{
    let len = fill_words(operator, row, config, pages, is_like);
    let end = operator.zeros_from(row);
    for place in len..end {
        fill_other(operator, row, end - 1 - (place - len), 0);
    }
}
