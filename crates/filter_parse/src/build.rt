//! The tree of an expression in postfix order: the last part is taken first, and then its own parts.

ghost use Rattle.std.specs.Prelude.{◌≡◌, ◌∷◌, [], IfOk, MatchOption, OnOk, reverse};
ghost use Rattle.filter_tree.specs.View.{arith_tree_of, tree_of};
ghost use Rattle.filter_parse.specs.declared.item.Item.TheVariants.{Number, Primitive as IsPrimitive, Relate};
ghost use Rattle.filter_parse.specs.body.Place.{IsBlank, IsBlankArithmetic};
ghost use Rattle.filter_parse.specs.body.Postfix.{HasArithmetic, HasTree, arith_parts, tree_parts};

use crate::OutOfMemory;
use crate::item::Item;
use filter_tree::{Arith, Expr, Primitive, Relation};
use std::alloc::Allocator;
use std::mem;

fn take_last(parts: &mut &[Item]) -> Option<Item>
    ensures { MatchOption result
        (reverse parts.old.now ≡ [])
        (λ item. reverse parts.old.now ≡ item ∷ reverse parts.new.now) }
{
    match parts.split_last() {
        Some((last, others)) => {
            *parts = others;
            Some(*last)
        }
        None => None,
    }
}

// Takes the last part if it is a number.
fn take_number(parts: &mut &[Item]) -> Option<u32>
    ensures { MatchOption result
        (parts.new.now ≡ parts.old.now)
        (λ n. reverse parts.old.now ≡ Number n ∷ reverse parts.new.now) }
{
    match parts.split_last() {
        Some((Item::Number(n), others)) => {
            *parts = others;
            Some(*n)
        }
        _ => None,
    }
}

fn take_primitive(parts: &mut &[Item]) -> Option<Primitive>
    ensures { MatchOption result
        (parts.new.now ≡ parts.old.now)
        (λ p. reverse parts.old.now ≡ IsPrimitive p ∷ reverse parts.new.now) }
{
    match parts.split_last() {
        Some((Item::Primitive(primitive), others)) => {
            *parts = others;
            Some(*primitive)
        }
        _ => None,
    }
}

fn take_relator(parts: &mut &[Item]) -> Option<Relation>
    ensures { MatchOption result
        (parts.new.now ≡ parts.old.now)
        (λ relator. reverse parts.old.now ≡ Relate relator ∷ reverse parts.new.now) }
{
    match parts.split_last() {
        Some((Item::Relate(relator), others)) => {
            *parts = others;
            Some(*relator)
        }
        _ => None,
    }
}

// Each part is made in its final place. Otherwise each level of the recursions would reserve stack for the whole parts
// that it returns.

#[inline(always)]
fn boxed<A: Allocator + Clone, T: Drop>(alloc: &A, value: T) -> Result<Box<T, A>, OutOfMemory>
    ensures { IfOk result (λ made. made.value ≡ value) }
{
    Ok(Box::new(alloc.clone()?, value)?)
}

// A place is filled once. Its old value has no parts, so nothing is read there to be dropped.

// Why parts are written in place: docs/INTERNALS.md, "A tree is taken from its last part".
#[inline(always)]
fn put_arithmetic<A: Allocator>(to: &mut Arith<A>, made: Arith<A>)
    requires { IsBlankArithmetic to.old }
    ensures { to.new ≡ made }
{
    match mem::replace(to, made) {
        Arith::Length => {}
        _ => unreachable!(),
    }
}

#[inline(always)]
fn put<A: Allocator>(to: &mut Expr<A>, made: Expr<A>)
    requires { IsBlank to.old }
    ensures { to.new ≡ made }
{
    match mem::replace(to, made) {
        Expr::Primitive(_) => {}
        _ => unreachable!(),
    }
}

// Usually an operand is a number, which is made without a call to `arithmetic`.
#[inline(always)]
#[cycle(arithmetic)]
fn operand<A: Allocator + Clone>(
    alloc: &A,
    parts: &mut &[Item],
) -> Result<Box<Arith<A>, A>, OutOfMemory>
    requires { HasArithmetic (reverse parts.old.now) }
    ensures { IfOk result (λ made. reverse parts.old.now ≡ arith_parts (arith_tree_of made.value) (reverse parts.new.now)) }
{
    if let Some(n) = take_number(parts) {
        return boxed(alloc, Arith::Number(n));
    }
    let mut made = boxed(alloc, Arith::Length)?;
    arithmetic(alloc, parts, &mut made)?;
    Ok(made)
}

#[cycle(arithmetic)]
fn arithmetic<A: Allocator + Clone>(
    alloc: &A,
    parts: &mut &[Item],
    to: &mut Arith<A>,
) -> Result<(), OutOfMemory>
    requires parts { HasArithmetic (reverse parts.old.now) }
    requires blank { IsBlankArithmetic to.old }
    ensures { OnOk result (reverse parts.old.now ≡ arith_parts (arith_tree_of to.new) (reverse parts.new.now)) }
{
    match take_last(parts) {
        Some(Item::Number(n)) => {
            put_arithmetic(to, Arith::Number(n));
            Ok(())
        }
        Some(Item::Length) => {
            put_arithmetic(to, Arith::Length);
            Ok(())
        }
        Some(Item::Access(protocol, size)) => {
            let index = operand(alloc, parts)?;
            put_arithmetic(to, Arith::Accessor(protocol, index, size));
            Ok(())
        }
        Some(Item::Operate(operator)) => {
            let right = operand(alloc, parts)?;
            let left = operand(alloc, parts)?;
            put_arithmetic(to, Arith::Operation(left, operator, right));
            Ok(())
        }
        Some(Item::Primitive(_)) => unreachable!(),
        Some(Item::Relate(_)) => unreachable!(),
        Some(Item::Negate) => unreachable!(),
        Some(Item::Conjoin) => unreachable!(),
        Some(Item::Disjoin) => unreachable!(),
        None => unreachable!(),
    }
}

// A side of a relation: usually a number, which is made without a call.
#[inline(always)]
fn side<A: Allocator + Clone>(
    alloc: &A,
    parts: &mut &[Item],
    to: &mut Arith<A>,
) -> Result<(), OutOfMemory>
    requires parts { HasArithmetic (reverse parts.old.now) }
    requires blank { IsBlankArithmetic to.old }
    ensures { OnOk result (reverse parts.old.now ≡ arith_parts (arith_tree_of to.new) (reverse parts.new.now)) }
{
    if let Some(n) = take_number(parts) {
        put_arithmetic(to, Arith::Number(n));
        return Ok(());
    }
    arithmetic(alloc, parts, to)
}

// Fills a place with a relation, whose own part was taken already. A function of its own: it needs the largest frame.
#[inline(never)]
fn relation<A: Allocator + Clone>(
    alloc: &A,
    parts: &mut &[Item],
    relator: Relation,
    to: &mut Expr<A>,
) -> Result<(), OutOfMemory>
    requires parts { HasTree (Relate relator ∷ reverse parts.old.now) }
    requires blank { IsBlank to.old }
    ensures { OnOk result (Relate relator ∷ reverse parts.old.now ≡ tree_parts (tree_of to.new) (reverse parts.new.now)) }
{
    put(to, Expr::Relation(Arith::Length, relator, Arith::Length));
    match to {
        Expr::Relation(left, _, right) => {
            side(alloc, parts, right)?;
            side(alloc, parts, left)
        }
        _ => unreachable!(),
    }
}

#[cycle(build)]
fn part<A: Allocator + Clone>(
    alloc: &A,
    parts: &mut &[Item],
) -> Result<Box<Expr<A>, A>, OutOfMemory>
    requires { HasTree (reverse parts.old.now) }
    ensures { IfOk result (λ made. reverse parts.old.now ≡ tree_parts (tree_of made.value) (reverse parts.new.now)) }
{
    if let Some(primitive) = take_primitive(parts) {
        return boxed(alloc, Expr::Primitive(primitive));
    }
    if let Some(relator) = take_relator(parts) {
        let mut made = boxed(alloc, Expr::Primitive(Primitive::Ip))?;
        relation(alloc, parts, relator, &mut made)?;
        return Ok(made);
    }
    joined(alloc, parts)
}

// The other parts, which have parts of the same kind. Stack for these is reserved here, and not for a primitive or a
// relation.
#[inline(always)]
#[cycle(build)]
fn joined<A: Allocator + Clone>(
    alloc: &A,
    parts: &mut &[Item],
) -> Result<Box<Expr<A>, A>, OutOfMemory>
    requires { HasTree (reverse parts.old.now) }
    ensures { IfOk result (λ made. reverse parts.old.now ≡ tree_parts (tree_of made.value) (reverse parts.new.now)) }
{
    let mut made = boxed(alloc, Expr::Primitive(Primitive::Ip))?;
    build(alloc, parts, &mut made)?;
    Ok(made)
}

/// Takes the last tree from some parts, and writes it to its place.
#[inline(always)]
#[cycle(build)]
pub(crate) fn build<A: Allocator + Clone>(
    alloc: &A,
    parts: &mut &[Item],
    to: &mut Expr<A>,
) -> Result<(), OutOfMemory>
    requires parts { HasTree (reverse parts.old.now) }
    requires blank { IsBlank to.old }
    ensures { OnOk result (reverse parts.old.now ≡ tree_parts (tree_of to.new) (reverse parts.new.now)) }
{
    match take_last(parts) {
        Some(Item::Primitive(primitive)) => {
            put(to, Expr::Primitive(primitive));
            Ok(())
        }
        Some(Item::Relate(relator)) => relation(alloc, parts, relator, to),
        Some(Item::Negate) => {
            put(to, Expr::Not(part(alloc, parts)?));
            Ok(())
        }
        Some(Item::Conjoin) => {
            let right = part(alloc, parts)?;
            put(to, Expr::And(part(alloc, parts)?, right));
            Ok(())
        }
        Some(Item::Disjoin) => {
            let right = part(alloc, parts)?;
            put(to, Expr::Or(part(alloc, parts)?, right));
            Ok(())
        }
        Some(Item::Number(_)) => unreachable!(),
        Some(Item::Length) => unreachable!(),
        Some(Item::Access(_, _)) => unreachable!(),
        Some(Item::Operate(_)) => unreachable!(),
        None => unreachable!(),
    }
}
