//! A tally whose type names its table (docs/SWITCH.md, "Tallies").

ghost use Rattle.std.specs.Prelude.{◌≡◌};
ghost use Rattle.atomic_table.specs.Seated.{TableId};

use crate::tally::Tally;
use std::marker::{Brand, PhantomData};

/// The name of a tally, which names its table too. Each call that passes `Brand` picks it.
pub trait TallyName {
    ghost table: { TableId };
}

impl TallyName for Brand {
    ghost use Rattle.std.specs.Prelude.{[]};

    ghost table = { record { words = 0; slots = 0; views_name = 0; atom = 0; block = 0; offset = 0; slot_names = [] } };
}

/// A tally whose type names its table, so that the table is known also through a `&mut` that a closure held.
#[derive(Drop)]
pub struct NamedTally<N: TallyName> {
    pub tally: Tally,
    of: PhantomData<N>,
    pub ghost is_named: { tally.table ≡ N.table },
}

impl<N: TallyName> NamedTally<N> {
    pub fn new(tally: Tally) -> NamedTally<N>
        requires { tally.table ≡ N.table }
        ensures { result.tally ≡ tally }
    {
        NamedTally {
            tally,
            of: PhantomData,
        }
    }
}
