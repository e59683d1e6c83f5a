//! The facts known after a part of a program.

ghost use Rattle.std.specs.Prelude.{◌≡◌, ◌+◌, ◌≤◌, IfOk, List, None, Option, length, ℕ};
ghost use Rattle.bpf_verify.specs.declared.TheConstants.{MAX_INSTRUCTIONS};
ghost use Rattle.filter_facts.specs.Known.{Holds};
ghost use Rattle.filter_compile.specs.body.Sides.{BranchesAlways, HoldsWhere};

use filter_emit::{Code, Label};
use filter_facts::Known;
use std::alloc::{AllocError, Allocator};

/// The facts known if a test is true, and if it is false.
#[derive(Clone, Copy)]
pub(crate) struct Sides {
    pub(crate) yes: Known,
    pub(crate) no: Known,
}

impl Sides {
    /// The same on both sides.
    pub(crate) fn both(known: Known) -> Sides
        ensures yes { result.yes ≡ known }
        ensures no { result.no ≡ known }
    {
        Sides {
            yes: known,
            no: known,
        }
    }
}

/// Writes the code of a test whose truth is known: it always goes to one label.
pub(crate) fn settled<'a, A: Allocator>(
    code: &mut Code<'a, A>,
    known: Known,
    label: &mut Label<'a, A>,
) -> Result<Sides, AllocError>
    requires room { length code.old + 1 ≤ MAX_INSTRUCTIONS }
    ensures branches_always { IfOk result (λ sides. BranchesAlways known sides code.old code.new label.old label.new) }
{
    code.branch_always(label)?;
    Ok(Sides::both(known))
}

/// The facts known after guards, and the facts known at no after one of them fails: `None` if none ever does.
/// The reason: docs/INTERNALS.md, "Guards cost little if they write nothing".
#[derive(Clone, Copy)]
pub(crate) struct Passed {
    pub(crate) on: Known,
    pub(crate) no: Option<Known>,
}

impl Passed {
    /// Nothing is written.
    pub(crate) fn at_once(known: Known) -> Passed
        ensures on { result.on ≡ known }
        ensures no { result.no ≡ None }
    {
        Passed {
            on: known,
            no: None,
        }
    }

    /// Adds a guard: `on` is known after it, and `no` is known at no if it fails.
    #[inline(always)]
    pub(crate) fn learn(&mut self, on: Known, no: Known)
        ensures on { self.new.on ≡ on }
        ensures of_self { (packet : List ℕ) (a x : ℕ) → HoldsWhere self.old.no packet a x → HoldsWhere self.new.no packet a x }
        ensures of_no { (packet : List ℕ) (a x : ℕ) → Holds no packet a x → HoldsWhere self.new.no packet a x }
    {
        let no = self.or_no(no);
        self.on = on;
        self.no = Some(no);
    }

    /// Returns the facts known at no, which is reached from one of the guards or from a later test.
    pub(crate) fn or_no(self, no: Known) -> Known
        ensures of_self { (packet : List ℕ) (a x : ℕ) → HoldsWhere self.no packet a x → Holds result packet a x }
        ensures of_no { (packet : List ℕ) (a x : ℕ) → Holds no packet a x → Holds result packet a x }
    {
        match self.no {
            Some(missed) => missed.join(no),
            None => no,
        }
    }
}
