//! Copies of an expression, placed by another allocator.

ghost use Rattle.std.specs.Prelude.{◌≡◌, IfOk, Ok};
ghost use Rattle.filter_tree.specs.View.{arith_tree_of, tree_of};

use crate::OutOfMemory;
use crate::arithmetic::Arith;
use crate::expression::Expr;
use std::alloc::Allocator;

// Places a copied part.
fn placed<T: Drop, B: Allocator + Clone>(
    alloc: &B,
    part: Result<T, OutOfMemory>,
) -> Result<Box<T, B>, OutOfMemory>
    ensures { IfOk result (λ placed. part ≡ Ok placed.value) }
{
    let part = part?;
    Ok(Box::new(alloc.clone()?, part)?)
}

impl<A: Allocator> Arith<A> {
    /// Makes a copy, with its parts placed by clones of `alloc`.
    pub fn clone_in<B: Allocator + Clone>(&self, alloc: B) -> Result<Arith<B>, OutOfMemory>
        ensures same_tree { IfOk result (λ copy. arith_tree_of copy ≡ arith_tree_of self.now) }
    {
        self.copied(&alloc)
    }

    fn copied<B: Allocator + Clone>(&self, alloc: &B) -> Result<Arith<B>, OutOfMemory>
        ensures same_tree { IfOk result (λ copy. arith_tree_of copy ≡ arith_tree_of self.now) }
    {
        match self {
            Arith::Number(n) => Ok(Arith::Number(*n)),
            Arith::Length => Ok(Arith::Length),
            Arith::Accessor(protocol, index, size) => {
                let index = placed(alloc, index.copied(alloc))?;
                Ok(Arith::Accessor(*protocol, index, *size))
            }
            Arith::Operation(left, operator, right) => {
                let left = placed(alloc, left.copied(alloc))?;
                let right = placed(alloc, right.copied(alloc))?;
                Ok(Arith::Operation(left, *operator, right))
            }
        }
    }
}

impl<A: Allocator> Expr<A> {
    /// Makes a copy, with its parts placed by clones of `alloc`.
    pub fn clone_in<B: Allocator + Clone>(&self, alloc: B) -> Result<Expr<B>, OutOfMemory>
        ensures same_tree { IfOk result (λ copy. tree_of copy ≡ tree_of self.now) }
    {
        self.copied(&alloc)
    }

    fn copied<B: Allocator + Clone>(&self, alloc: &B) -> Result<Expr<B>, OutOfMemory>
        ensures same_tree { IfOk result (λ copy. tree_of copy ≡ tree_of self.now) }
    {
        match self {
            Expr::Primitive(primitive) => Ok(Expr::Primitive(*primitive)),
            Expr::Relation(left, relation, right) => {
                let left = left.copied(alloc)?;
                Ok(Expr::Relation(left, *relation, right.copied(alloc)?))
            }
            Expr::Not(inner) => Ok(Expr::Not(placed(alloc, inner.copied(alloc))?)),
            Expr::And(left, right) => {
                let left = placed(alloc, left.copied(alloc))?;
                Ok(Expr::And(left, placed(alloc, right.copied(alloc))?))
            }
            Expr::Or(left, right) => {
                let left = placed(alloc, left.copied(alloc))?;
                Ok(Expr::Or(left, placed(alloc, right.copied(alloc))?))
            }
        }
    }
}
