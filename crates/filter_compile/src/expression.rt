//! The code of an expression. The code of its parts is in sequence: each part begins with the facts known after the one
//! before, and jumps to where its truth leads.

ghost use Rattle.std.specs.Prelude.{◌≡◌, ◌+◌, ◌≤◌, IfOk, Some, length};
ghost use Rattle.bpf_verify.specs.declared.TheConstants.{CELLS, MAX_INSTRUCTIONS};
ghost use Rattle.filter_emit.specs.Pieces.{Writes};
ghost use Rattle.filter_emit.specs.Guards.{Guards};
ghost use Rattle.filter_tree.specs.Measure.{cells_of, weight_of};
ghost use Rattle.filter_tree.specs.Tree.{conjunction as conjunction_tree, disjunction as disjunction_tree};
ghost use Rattle.filter_tree.specs.Truth.{truth_of};
ghost use Rattle.filter_tree.specs.View.{tree_of};
ghost use Rattle.filter_facts.specs.Known.{Holds};
ghost use Rattle.filter_compile.specs.body.NonIpv4.{non_ipv4};
ghost use Rattle.filter_compile.specs.body.Front.{BeginsWith, MayAsk};
ghost use Rattle.filter_compile.specs.body.Piece.{Tests};
ghost use Rattle.filter_compile.specs.body.Weight.{weight_under};

use crate::SHORT;
use crate::front::{Front, ask, in_front};
use crate::primitive::primitive;
use crate::relation::relation;
use crate::sides::Sides;
use filter_emit::{Code, Label};
use filter_facts::Known;
use filter_tree::Expr;
use std::alloc::{AllocError, Allocator};

// The last place where the code of the first of two parts can end. If no jump can be far, the end of both is near
// enough, and the second part need not be weighed.
fn first_end<B: Allocator>(end: u32, right: &Expr<B>) -> u32
    requires room { weight_of (tree_of right.now) ≤ end }
    ensures behind { end ≤ result + weight_of (tree_of right.now) }
    ensures within { result ≤ end }
{
    if end < SHORT {
        return end;
    }
    end - right.weight()
}

/// Writes the code of an expression, which ends at the place `end` at the latest. A primitive or a relation needs no
/// test in front.
#[cycle(expression)]
pub(crate) fn expression<'a, A: Allocator, B: Allocator>(
    code: &mut Code<'a, A>,
    expr: &Expr<B>,
    known: Known,
    end: u32,
    yes: &mut Label<'a, A>,
    no: &mut Label<'a, A>,
) -> Result<Sides, AllocError>
    requires cells { cells_of (tree_of expr.now) ≤ CELLS }
    requires room { length code.old + weight_under known (tree_of expr.now) ≤ end }
    requires limit { end ≤ MAX_INSTRUCTIONS }
    requires yes_behind { end ≤ yes.old.by }
    requires no_behind { end ≤ no.old.by }
    ensures writes { IfOk result (λ sides. Writes (Tests (Holds known) (Holds sides.yes) (Holds sides.no) (truth_of (tree_of expr.now))) (weight_under known (tree_of expr.now)) code.old code.new yes.old yes.new no.old no.new) }
{
    match expr {
        Expr::Primitive(one) => primitive(code, *one, known, yes, no),
        Expr::Relation(left, relator, right) => {
            relation(code, left, *relator, right, known, yes, no)
        }
        _ => compound(code, expr, known, end, yes, no),
    }
}

// If the expression has the same truth on all packets that fail its first tests, these are written once before it.
#[inline(never)]
#[cycle(expression)]
fn compound<'a, A: Allocator, B: Allocator>(
    code: &mut Code<'a, A>,
    expr: &Expr<B>,
    known: Known,
    end: u32,
    yes: &mut Label<'a, A>,
    no: &mut Label<'a, A>,
) -> Result<Sides, AllocError>
    requires cells { cells_of (tree_of expr.now) ≤ CELLS }
    requires room { length code.old + weight_under known (tree_of expr.now) ≤ end }
    requires limit { end ≤ MAX_INSTRUCTIONS }
    requires yes_behind { end ≤ yes.old.by }
    requires no_behind { end ≤ no.old.by }
    ensures writes { IfOk result (λ sides. Writes (Tests (Holds known) (Holds sides.yes) (Holds sides.no) (truth_of (tree_of expr.now))) (weight_under known (tree_of expr.now)) code.old code.new yes.old yes.new no.old no.new) }
{
    match in_front(expr, known) {
        Some(front) => behind_guard(code, expr, front, known, end, yes, no),
        None => parts(code, expr, known, end, yes, no),
    }
}

// Writes the tests in front of an expression, and then the expression. Not inlined: it is called at most twice on a way
// down the tree, but each level of the recursion would reserve stack for it.
#[inline(never)]
#[cycle(expression)]
fn behind_guard<'a, A: Allocator, B: Allocator>(
    code: &mut Code<'a, A>,
    expr: &Expr<B>,
    front: Front,
    known: Known,
    end: u32,
    yes: &mut Label<'a, A>,
    no: &mut Label<'a, A>,
) -> Result<Sides, AllocError>
    requires settled { non_ipv4 (tree_of expr.now) ≡ Some front.truth }
    requires may_ask { MayAsk front.guard known }
    requires begins { BeginsWith front.guard (tree_of expr.now) }
    requires cells { cells_of (tree_of expr.now) ≤ CELLS }
    requires room { length code.old + weight_under known (tree_of expr.now) ≤ end }
    requires limit { end ≤ MAX_INSTRUCTIONS }
    requires yes_behind { end ≤ yes.old.by }
    requires no_behind { end ≤ no.old.by }
    ensures writes { IfOk result (λ sides. Writes (Tests (Holds known) (Holds sides.yes) (Holds sides.no) (truth_of (tree_of expr.now))) (weight_under known (tree_of expr.now)) code.old code.new yes.old yes.new no.old no.new) }
{
    if front.truth {
        let passed = ask(code, front.guard, known, yes)?;
        let sides = parts(code, expr, passed.on, end, yes, no)?;
        return Ok(Sides {
            yes: passed.or_no(sides.yes),
            no: sides.no,
        });
    }
    let passed = ask(code, front.guard, known, no)?;
    let sides = parts(code, expr, passed.on, end, yes, no)?;
    Ok(Sides {
        yes: sides.yes,
        no: passed.or_no(sides.no),
    })
}

// Writes the code of the parts; the first begins with what is known. The functions that join two parts are separate,
// since they need more stack.
#[inline(always)]
#[cycle(expression)]
fn parts<'a, A: Allocator, B: Allocator>(
    code: &mut Code<'a, A>,
    expr: &Expr<B>,
    known: Known,
    end: u32,
    yes: &mut Label<'a, A>,
    no: &mut Label<'a, A>,
) -> Result<Sides, AllocError>
    requires cells { cells_of (tree_of expr.now) ≤ CELLS }
    requires room { length code.old + weight_under known (tree_of expr.now) ≤ end }
    requires limit { end ≤ MAX_INSTRUCTIONS }
    requires yes_behind { end ≤ yes.old.by }
    requires no_behind { end ≤ no.old.by }
    ensures writes { IfOk result (λ sides. Writes (Tests (Holds known) (Holds sides.yes) (Holds sides.no) (truth_of (tree_of expr.now))) (weight_under known (tree_of expr.now)) code.old code.new yes.old yes.new no.old no.new) }
{
    match expr {
        Expr::Primitive(one) => primitive(code, *one, known, yes, no),
        Expr::Relation(left, relator, right) => {
            relation(code, left, *relator, right, known, yes, no)
        }
        Expr::Not(inner) => {
            let sides = expression(code, inner, known, end, no, yes)?;
            Ok(Sides {
                yes: sides.no,
                no: sides.yes,
            })
        }
        Expr::And(left, right) => conjunction(code, left, right, known, end, yes, no),
        Expr::Or(left, right) => disjunction(code, left, right, known, end, yes, no),
    }
}

#[inline(never)]
#[cycle(expression)]
fn conjunction<'a, A: Allocator, B: Allocator>(
    code: &mut Code<'a, A>,
    left: &Expr<B>,
    right: &Expr<B>,
    known: Known,
    end: u32,
    yes: &mut Label<'a, A>,
    no: &mut Label<'a, A>,
) -> Result<Sides, AllocError>
    requires cells { cells_of (conjunction_tree (tree_of left.now) (tree_of right.now)) ≤ CELLS }
    requires room { length code.old + weight_under known (conjunction_tree (tree_of left.now) (tree_of right.now)) ≤ end }
    requires limit { end ≤ MAX_INSTRUCTIONS }
    requires yes_behind { end ≤ yes.old.by }
    requires no_behind { end ≤ no.old.by }
    ensures writes { IfOk result (λ sides. Writes (Tests (Holds known) (Holds sides.yes) (Holds sides.no) (truth_of (conjunction_tree (tree_of left.now) (tree_of right.now)))) (weight_under known (conjunction_tree (tree_of left.now) (tree_of right.now))) code.old code.new yes.old yes.new no.old no.new) }
{
    let first = left_of_and(code, left, known, first_end(end, right), no)?;
    let second = expression(code, right, first.yes, end, yes, no)?;
    Ok(Sides {
        yes: second.yes,
        no: first.no.join(second.no),
    })
}

#[inline(never)]
#[cycle(expression)]
fn disjunction<'a, A: Allocator, B: Allocator>(
    code: &mut Code<'a, A>,
    left: &Expr<B>,
    right: &Expr<B>,
    known: Known,
    end: u32,
    yes: &mut Label<'a, A>,
    no: &mut Label<'a, A>,
) -> Result<Sides, AllocError>
    requires cells { cells_of (disjunction_tree (tree_of left.now) (tree_of right.now)) ≤ CELLS }
    requires room { length code.old + weight_under known (disjunction_tree (tree_of left.now) (tree_of right.now)) ≤ end }
    requires limit { end ≤ MAX_INSTRUCTIONS }
    requires yes_behind { end ≤ yes.old.by }
    requires no_behind { end ≤ no.old.by }
    ensures writes { IfOk result (λ sides. Writes (Tests (Holds known) (Holds sides.yes) (Holds sides.no) (truth_of (disjunction_tree (tree_of left.now) (tree_of right.now)))) (weight_under known (disjunction_tree (tree_of left.now) (tree_of right.now))) code.old code.new yes.old yes.new no.old no.new) }
{
    let first = left_of_or(code, left, known, first_end(end, right), yes)?;
    let second = expression(code, right, first.no, end, yes, no)?;
    Ok(Sides {
        yes: first.yes.join(second.yes),
        no: second.no,
    })
}

// Falls through if it is true.
#[cycle(expression)]
fn left_of_and<'a, A: Allocator, B: Allocator>(
    code: &mut Code<'a, A>,
    left: &Expr<B>,
    known: Known,
    end: u32,
    no: &mut Label<'a, A>,
) -> Result<Sides, AllocError>
    requires cells { cells_of (tree_of left.now) ≤ CELLS }
    requires room { length code.old + weight_under known (tree_of left.now) ≤ end }
    requires limit { end ≤ MAX_INSTRUCTIONS }
    requires behind { end ≤ no.old.by }
    ensures guards { IfOk result (λ sides. Guards (Tests (Holds known) (Holds sides.yes) (Holds sides.no) (truth_of (tree_of left.now))) (weight_under known (tree_of left.now)) code.old code.new no.old no.new) }
{
    let mut on = code.label(end);
    let sides = expression(code, left, known, end, &mut on, no)?;
    code.bind(&on);
    Ok(sides)
}

// Falls through if it is false.
#[cycle(expression)]
fn left_of_or<'a, A: Allocator, B: Allocator>(
    code: &mut Code<'a, A>,
    left: &Expr<B>,
    known: Known,
    end: u32,
    yes: &mut Label<'a, A>,
) -> Result<Sides, AllocError>
    requires cells { cells_of (tree_of left.now) ≤ CELLS }
    requires room { length code.old + weight_under known (tree_of left.now) ≤ end }
    requires limit { end ≤ MAX_INSTRUCTIONS }
    requires behind { end ≤ yes.old.by }
    ensures guards { IfOk result (λ sides. Guards (λ at_no at_yes words. Tests (Holds known) (Holds sides.yes) (Holds sides.no) (truth_of (tree_of left.now)) at_yes at_no words) (weight_under known (tree_of left.now)) code.old code.new yes.old yes.new) }
{
    let mut on = code.label(end);
    let sides = expression(code, left, known, end, yes, &mut on)?;
    code.bind(&on);
    Ok(sides)
}
