//! The table that the workers and the operator share, and the rule on it (docs/TABLE.md, "The rule").

ghost use Rattle.read_section.specs.Held.{FetchesHeldWord, HeldWordsStand, HeldWordsStay, HeldWordsUnfilled};

use atomic_table::{Seat, Table, TableRule};
use member_group::Config;
use std::alloc::Global;
use std::collections::LinkedList;
use versions::{OperatorView, WorkerView};

/// The knowledge of a seat at the table, over configurations `C`. No value of it is made.
pub struct SeatView<C> {
    /// The worker that steps by the seat.
    pub worker: Option<WorkerView<C>>,
    /// The operator, if it steps by the seat.
    pub operator: Option<OperatorView<C>>,
    /// The workers from this number on made no step, and have no seat of their own yet.
    pub spare: usize,
    /// Versions that the seat learned of.
    pub told: LinkedList<C>,
}

/// The rule on the table: its words are those that a legal trace of `versions` left. The rule is true between any two
/// accesses.
pub struct VersionsRule;

impl TableRule<u8, SeatView<Config>, Config> for VersionsRule {
    ghost use Rattle.read_section.specs.VersionsRule.{IsAllowedState};
    ghost use Rattle.read_section.specs.body.SeatView.{first_seat};
    ghost use Rattle.versions.specs.Table.{the_shape};
    ghost use Rattle.versions.specs.World.{opening_stored};

    ghost holds = { IsAllowedState };

    ghost first = { λ config. first_seat the_shape config (opening_stored config) };
}

// No slot of the table is used: it has none.
pub(crate) type SharedTable = Table<u8, SeatView<Config>, Config, VersionsRule, Global>;

pub(crate) type TableSeat = Seat<u8, SeatView<Config>>;

/// Law: no word of a version is overwritten while a worker holds the version. The rule is true between any two accesses
/// of the table, so it allows each state of the table. In each state, from the worker's pin to its leave, the words of
/// the version's row and pages are those of its configuration, a fetch of any of them loads that word, and none may be
/// filled. It runs nothing.
pub fn held_words_stand()
    ensures words_stand { HeldWordsStand }
    ensures words_stay { HeldWordsStay }
    ensures fetch_exact { FetchesHeldWord }
    ensures not_filled { HeldWordsUnfilled }
{}
