//! A row as a sink of words: the row of a configuration in the pooled form is written into it in one pass.

ghost use Rattle.std.specs.Prelude.{◌≡◌, ◌+◌, ◌-◌, ◌<◌, length, take, ℕ};
ghost use Rattle.config_image.specs.declared.TheConstants.{ROW_WORDS};
ghost use Rattle.config_image.specs.Image.{programs_begin};
ghost use Rattle.config_image.specs.Pooled.{ArePages, parts, pooled_row};
ghost use Rattle.versions.specs.Free.{IsFreeRow};
ghost use Rattle.versions.specs.Table.{the_shape};
ghost use Rattle.read_section.specs.Layout.{IsPublishable};
ghost use Rattle.read_section.specs.Operator.{OperatorValue};
ghost use Rattle.retire.specs.body.Filling.{FillsFront, FillsOther};
ghost use Rattle.retire.specs.body.Sink.{taken_of};

use config_image::{ROW_WORDS, WordSink, write_pooled};
use member_group::Config;
use read_section::Operator;
use std::marker::{Brand, Model, PhantomData};

/// The operator as it was when it was lent to a sink. It is part of a sink's type, since a caller that writes into a
/// sink learns only which words the sink took.
pub(crate) trait Lent {
    ghost operator: { OperatorValue };
}

impl Lent for Brand {
    ghost use Rattle.retire.specs.body.Sink.{no_operator};

    ghost operator = { no_operator };
}

// Takes the words of a row by fills, from its first place on. Contracts see the operator behind the borrow, and its name.
struct RowSink<'a, L: Lent> {
    operator: &'a mut Operator,
    row: usize,
    place: usize,
    lent: PhantomData<L>,
}

impl<'a, L: Lent> Model for RowSink<'a, L> {
    ghost use Rattle.retire.specs.body.Sink.{IsFilling, SinkValue};

    ghost Value = { SinkValue };

    ghost view = { λ s. record { borrow = s.operator.ghost_name; operator = s.operator.now; row = s.row; place = s.place } };

    ghost invariant = { λ s. IsFilling L.operator s.operator.now s.row s.place };
}

impl<L: Lent> WordSink for RowSink<'_, L> {
    ghost taken = { taken_of };

    ghost room = { λ sink. ROW_WORDS - sink.place };

    fn put(&mut self, word: u64) {
        fill_other(self.operator, self.row, self.place, word);
        self.place += 1;
    }
}

// Stores a word at a place of a free row, unless it is there already.
pub(crate) fn fill_other(operator: &mut Operator, row: usize, place: usize, word: u64)
    requires free { IsFreeRow the_shape operator.old.view row }
    requires place { place < ROW_WORDS }
    ensures { FillsOther operator.old operator.new row place word }
{
    if operator.row_word(row, place) != word {
        operator.fill(row, place, word);
    }
}

// Fills the first places of a free row with the words of a configuration's row that are not its last zeros, and returns
// their number.
pub(crate) fn fill_front<L: Lent>(
    operator: &mut Operator,
    row: usize,
    config: &Config,
    pages: &[u32],
) -> usize
    requires lent { L.operator ≡ operator.old }
    requires free { IsFreeRow the_shape operator.old.view row }
    requires publishable { IsPublishable config.now }
    requires pages { ArePages config.now pages.now }
    ensures front { FillsFront operator.old operator.new row (take (programs_begin config.now + length (parts config.now)) (pooled_row config.now pages.now)) }
    ensures len { result ≡ programs_begin config.now + length (parts config.now) }
{
    let mut sink = RowSink::<L> {
        operator,
        row,
        place: 0,
        lent: PhantomData,
    };
    write_pooled(config, pages, &mut sink);
    let len = sink.place;
    let RowSink {
        operator: _operator,
        row: _,
        place: _,
        lent: _,
    } = sink;
    len
}
