//! The code of a relation: the tests before its accessors, its two sides, and their comparison.

ghost use Rattle.std.specs.Prelude.{◌≡◌, ◌+◌, ◌≤◌, IfOk, OnOk, Option, length, List, ℕ};
ghost use Rattle.bpf_verify.specs.declared.TheConstants.{CELLS, MAX_INSTRUCTIONS};
ghost use Rattle.filter_emit.specs.Checks.{Checks};
ghost use Rattle.filter_emit.specs.Pieces.{Writes};
ghost use Rattle.bpf_machine.specs.Meaning.{operand_value};
ghost use Rattle.filter_tree.specs.Arithmetic.{value_of_arith};
ghost use Rattle.filter_tree.specs.Measure.{cells_of, cells_of_arith, weight_of_arith};
ghost use Rattle.filter_tree.specs.Tree.{relation as relation_tree};
ghost use Rattle.filter_tree.specs.Truth.{guards, holds, truth_of, used_by};
ghost use Rattle.filter_tree.specs.View.{arith_tree_of};
ghost use Rattle.filter_facts.specs.Known.{Holds};
ghost use Rattle.filter_compile.specs.body.Piece.{Compares, Tests, compared_with};
ghost use Rattle.filter_compile.specs.body.Sides.{Adds};
ghost use Rattle.filter_compile.specs.body.Weight.{weight_of_guards_under, weight_under};

use crate::arithmetic::{Simple, arithmetic, pair, simple_of};
use crate::guard::{guard_first_fragment, guard_ip, guard_protocol};
use crate::sides::{Passed, Sides, settled};
use bpf_insn::{Insn, Operand, Test};
use filter_emit::{Code, Label};
use filter_facts::Known;
use filter_tree::{Accesses, Arith, Relation};
use std::alloc::{AllocError, Allocator};

// Writes the tests that come before accessors of these protocols.
fn guards<'a, A: Allocator>(
    code: &mut Code<'a, A>,
    used: Accesses,
    passed: &mut Passed,
    no: &mut Label<'a, A>,
) -> Result<(), AllocError>
    requires room { length code.old + weight_of_guards_under passed.old.on (used_by used) ≤ MAX_INSTRUCTIONS }
    ensures adds { OnOk result (Adds (guards (used_by used)) (weight_of_guards_under passed.old.on (used_by used)) code.old code.new passed.old passed.new no.old no.new) }
{
    guard_ip(code, used.any(), passed, no)?;
    guard_protocol(code, used.tcp, 6, passed, no)?;
    guard_protocol(code, used.udp, 17, passed, no)?;
    guard_protocol(code, used.icmp, 1, passed, no)?;
    guard_first_fragment(code, used.any_transport(), passed, no)
}

// A has the left value; the operand is the right one.
fn compare<'a, A: Allocator>(
    code: &mut Code<'a, A>,
    relation: Relation,
    right: Operand,
    yes: &mut Label<'a, A>,
    no: &mut Label<'a, A>,
) -> Result<(), AllocError>
    requires room { length code.old + 3 ≤ MAX_INSTRUCTIONS }
    ensures writes { OnOk result (Writes (Checks (λ a. a) (λ a x. holds relation a (operand_value right x))) 3 code.old code.new yes.old yes.new no.old no.new) }
{
    match relation {
        Relation::Greater => code.branch(Test::Greater, right, yes, no),
        Relation::Less => code.branch(Test::GreaterOrEqual, right, no, yes),
        Relation::GreaterOrEqual => code.branch(Test::GreaterOrEqual, right, yes, no),
        Relation::LessOrEqual => code.branch(Test::Greater, right, no, yes),
        Relation::Equal => code.branch(Test::Equal, right, yes, no),
        Relation::NotEqual => code.branch(Test::Equal, right, no, yes),
    }
}

// A has the left value. Returns whether X still has the header's length.
fn compare_with<'a, A: Allocator, B: Allocator>(
    code: &mut Code<'a, A>,
    relation: Relation,
    right: &Arith<B>,
    held: bool,
    yes: &mut Label<'a, A>,
    no: &mut Label<'a, A>,
) -> Result<bool, AllocError>
    requires cells { 1 + cells_of_arith (arith_tree_of right.now) ≤ CELLS }
    requires room { length code.old + (weight_of_arith (arith_tree_of right.now) + 6) ≤ MAX_INSTRUCTIONS }
    ensures writes { IfOk result (λ after. Writes (Compares (compared_with relation (value_of_arith (arith_tree_of right.now))) held after) (weight_of_arith (arith_tree_of right.now) + 6) code.old code.new yes.old yes.new no.old no.new) }
{
    match simple_of(right) {
        Some(Simple::Number(n)) => {
            compare(code, relation, Operand::K(n), yes, no)?;
            Ok(held)
        }
        Some(Simple::Length) => {
            code.push(Insn::LoadXLength)?;
            compare(code, relation, Operand::X, yes, no)?;
            Ok(false)
        }
        None => {
            pair(code, right, 0, held)?;
            compare(code, relation, Operand::X, yes, no)?;
            Ok(false)
        }
    }
}

// Separate from the recursion, since each of its levels would reserve stack for this function.
// The reason: docs/INTERNALS.md, "Inlining is by count".
#[inline(never)]
pub(crate) fn relation<'a, A: Allocator, B: Allocator>(
    code: &mut Code<'a, A>,
    left: &Arith<B>,
    relation: Relation,
    right: &Arith<B>,
    known: Known,
    yes: &mut Label<'a, A>,
    no: &mut Label<'a, A>,
) -> Result<Sides, AllocError>
    requires cells { cells_of (relation_tree (arith_tree_of left.now) relation (arith_tree_of right.now)) ≤ CELLS }
    requires room { length code.old + weight_under known (relation_tree (arith_tree_of left.now) relation (arith_tree_of right.now)) ≤ MAX_INSTRUCTIONS }
    ensures writes { IfOk result (λ sides. Writes (Tests (Holds known) (Holds sides.yes) (Holds sides.no) (truth_of (relation_tree (arith_tree_of left.now) relation (arith_tree_of right.now))))
        (weight_under known (relation_tree (arith_tree_of left.now) relation (arith_tree_of right.now))) code.old code.new yes.old yes.new no.old no.new) }
{
    let used = Accesses::of_both(left, right);
    if known.excludes_guards(used) {
        return settled(code, known, no);
    }
    let mut before = Passed::at_once(known);
    guards(code, used, &mut before, no)?;
    let held = arithmetic(code, left, 0, before.on.header_in_x())?;
    let held = compare_with(code, relation, right, held, yes, no)?;
    let on = before.on.with_header_in_x(held).with_in_a(None);
    Ok(Sides {
        yes: on,
        no: before.or_no(on),
    })
}
