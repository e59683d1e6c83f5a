//! The table of a tally, the rule on it, and its steps: one word a kind, to which counters add 1 by `fetch_add`.

use atomic_table::{Join, Play, Seat, Split, Table, TableRule};
use std::alloc::Global;
use std::collections::LinkedList;

/// A load of a word, and its result. No value of this type is made.
pub struct Load {
    pub place: usize,
    pub word: u64,
}

/// The knowledge of a seat at the table of a tally. No value of this type is made.
pub struct CountView {
    /// The words to each of which it added 1, the newest first.
    pub added: LinkedList<usize>,
    /// How many counters step by the seat, or will still get their own seats.
    pub counters: usize,
    /// Its loads, the newest first.
    pub loads: LinkedList<Load>,
}

/// The rule on the table: each word is how often the counters added to it.
pub struct TallyRule;

impl TableRule<u8, CountView, u8> for TallyRule {
    ghost use Rattle.dispatch.specs.body.TallyRule.{IsTallied, opening_view};

    ghost holds = { λ _. IsTallied };

    ghost first = { λ _. opening_view };
}

// No slot of the table is used: it has none.
pub(crate) type TallyTable = Table<u8, CountView, u8, TallyRule, Global>;

pub(crate) type TallySeat = Seat<u8, CountView>;

pub(crate) struct Count;

impl Play<u8, CountView> for Count {
    ghost use Rattle.dispatch.specs.body.TallyRule.{counts};

    ghost then = { counts };
}

pub(crate) struct Read;

impl Play<u8, CountView> for Read {
    ghost use Rattle.dispatch.specs.body.TallyRule.{Reads};

    ghost then = { Reads };
}

pub(crate) struct SeatCounter;

impl Split<CountView> for SeatCounter {
    ghost use Rattle.dispatch.specs.body.TallyRule.{new_counter, without_counter};

    ghost left = { without_counter };

    ghost right = { new_counter };
}

pub(crate) struct TakeCounter;

impl Join<CountView> for TakeCounter {
    ghost use Rattle.dispatch.specs.body.TallyRule.{spent_seat, with_counter};

    ghost both = { with_counter };

    ghost spent = { spent_seat };
}
