//! Reuse of the words of another row, with other pages in its page table entries.

ghost use Rattle.std.specs.Prelude.{◌≡◌, ◌≢◌, ◌+◌, ◌*◌, ◌<◌, ◌≤◌, IsTrue, List, length, slice_index, ℕ};
ghost use Rattle.config_image.specs.declared.TheConstants.{ROW_WORDS};
ghost use Rattle.config_image.specs.Image.{Group};
ghost use Rattle.config_image.specs.Pooled.{ArePages};
ghost use Rattle.versions.specs.declared.layout.TheConstants.{ROWS};
ghost use Rattle.versions.specs.Free.{IsFreeRow};
ghost use Rattle.versions.specs.Table.{the_shape};
ghost use Rattle.retire.specs.body.Filling.{CopiesFront, FillsNames};

use crate::sink::fill_other;
use config_image::PageEntry;
use read_section::Operator;

// Tests whether all words are the same. They mostly are, so none is left out: the compiler then tests several at once.
fn all_same(words: &[u64], other: &[u64]) -> bool
    requires { length words.now ≡ length other.now }
    ensures { IsTrue result → (i : ℕ) → i < length words.now → slice_index words.now i ≡ slice_index other.now i }
{
    let mut same = true;
    for at in 0..words.len() {
        if words[at] != other[at] {
            same = false;
        }
    }
    same
}

// Tests whether the first words of two rows are the same.
fn same_front(operator: &Operator, row: usize, from: usize, count: usize) -> bool
    requires rows { (row < ROWS) × (from < ROWS) }
    requires inside { count ≤ ROW_WORDS }
    ensures { IsTrue result → (i : ℕ) → i < count → slice_index operator.now.view.stored (row * ROW_WORDS + i) ≡ slice_index operator.now.view.stored (from * ROW_WORDS + i) }
{
    let words = operator.row_words(row);
    let other = operator.row_words(from);
    all_same(&words[..count], &other[..count])
}

// Fills the first words of a free row by those of another row.
pub(crate) fn copy_front(operator: &mut Operator, row: usize, from: usize, count: usize)
    requires free { IsFreeRow the_shape operator.old.view row }
    requires from { from < ROWS }
    requires other { from ≢ row }
    requires inside { count ≤ ROW_WORDS }
    ensures { CopiesFront operator.old operator.new row from count }
{
    if same_front(operator, row, from, count) {
        return;
    }
    for place in 0..count {
        let word = operator.row_word(from, place);
        fill_other(operator, row, place, word);
    }
}

// Fills page table entries, from a place of a free row on, by those of another row with other pages.
pub(crate) fn fill_names(
    operator: &mut Operator,
    row: usize,
    from: usize,
    begin: usize,
    pages: &[u32],
)
    requires free { IsFreeRow the_shape operator.old.view row }
    requires from { from < ROWS }
    requires other { from ≢ row }
    requires inside { begin + length pages.now ≤ ROW_WORDS }
    requires pages { (config : List Group) × ArePages config pages.now }
    ensures { FillsNames operator.old operator.new row from begin pages.now }
{
    for index in 0..pages.len() {
        let name = PageEntry(operator.row_word(from, begin + index));
        let renamed = PageEntry::new(name.start(), pages[index]);
        fill_other(operator, row, begin + index, renamed.0);
    }
}
