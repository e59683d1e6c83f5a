//! Filter expressions (pcap-filter(7)).

use crate::arithmetic::Arith;
use crate::primitive::Primitive;
use std::alloc::Allocator;

/// The comparison of a relation's two sides, as unsigned numbers.
#[derive(Clone, Copy, Debug, PartialEq, Eq)]
pub enum Relation {
    /// `>`.
    Greater,
    /// `<`.
    Less,
    /// `>=`.
    GreaterOrEqual,
    /// `<=`.
    LessOrEqual,
    /// `=`.
    Equal,
    /// `!=`.
    NotEqual,
}

/// A filter expression.
#[derive(Drop)]
pub enum Expr<A: Allocator> {
    /// A primitive without arithmetic.
    Primitive(Primitive),
    /// A relation between its left and its right side.
    Relation(Arith<A>, Relation, Arith<A>),
    /// `not`.
    Not(Box<Expr<A>, A>),
    /// `and`.
    And(Box<Expr<A>, A>, Box<Expr<A>, A>),
    /// `or`.
    Or(Box<Expr<A>, A>, Box<Expr<A>, A>),
}
