//! Labels: later places of a program.

ghost use Rattle.std.specs.Prelude.{◌≡◌, ◌++◌, ◌∷◌, [], OnOk};
ghost use Rattle.filter_emit.specs.Fixups.{fixup_at};

use crate::fixup::{Fixup, Side};
use smallvec::SmallVec;
use std::alloc::{AllocError, Allocator};
use std::marker::Model;

/// A place after the code written so far: the jumps that will lead there, and the last place that it can be.
///
/// Contracts see it as a `LabelValue`: its list of fixups, and `by`.
/// The reason: docs/INTERNALS.md, "A program is compiled forward".
#[derive(Drop)]
pub struct Label<'a, A: Allocator> {
    fixups: SmallVec<Fixup, 8, &'a A>,
    by: u32,
}

impl<'a, A: Allocator> Model for Label<'a, A> {
    ghost use Rattle.filter_emit.specs.Fixups.{LabelValue};

    ghost Value = { LabelValue };

    ghost view = { λ l. record { fixups = l.fixups.items; by = l.by } };
}

impl<'a, A: Allocator> Label<'a, A> {
    pub(crate) fn new(lists: &'a A, by: u32) -> Label<'a, A>
        ensures empty { result.fixups ≡ [] }
        ensures by { result.by ≡ by }
    {
        Label {
            fixups: SmallVec::new(lists),
            by,
        }
    }

    pub(crate) fn fixups(&self) -> &[Fixup]
        ensures fixups { result.now ≡ self.now.fixups }
    {
        self.fixups.as_slice()
    }

    pub(crate) fn by(&self) -> u32
        ensures by { result ≡ self.now.by }
    {
        self.by
    }

    pub(crate) fn add(&mut self, place: u32, side: Side) -> Result<(), AllocError>
        ensures fixups { OnOk result (self.new.fixups ≡ self.old.fixups ++ fixup_at place side ∷ []) }
        ensures by { self.new.by ≡ self.old.by }
    {
        self.fixups.push(Fixup { place, side })?;
        Ok(())
    }
}
