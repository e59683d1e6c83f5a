//! The measures of an expression (docs/EXPRESSIONS.md, "Measures").

ghost use Rattle.std.specs.Prelude.{◌≡◌, ◌≤◌, min};
ghost use Rattle.filter_tree.specs.Measure.{by_direction, cells_of, cells_of_arith, depth_of, depth_of_arith, size_of, weight_of, weight_of_guards, weight_of_primitive, weight_where};
ghost use Rattle.filter_tree.specs.Truth.{used_by};
ghost use Rattle.filter_tree.specs.View.{arith_tree_of, tree_of};

use crate::arithmetic::Arith;
use crate::expression::Expr;
use crate::primitive::{Direction, Primitive, Transport};
use crate::sides::Accesses;
use std::alloc::Allocator;

impl<A: Allocator> Arith<A> {
    /// Returns the depth: 1 for a number and `len`, otherwise 1 more than the depth of the deepest part. Takes no
    /// memory.
    pub fn depth(&self) -> u32
        ensures depth_exact { result ≡ min (depth_of_arith (arith_tree_of self.now)) u32.MAX }
    {
        match self {
            Arith::Number(_) => 1,
            Arith::Length => 1,
            Arith::Accessor(_, index, _) => index.depth().saturating_add(1),
            Arith::Operation(left, _, right) => left.depth().max(right.depth()).saturating_add(1),
        }
    }

    /// Returns the cells: the most scratch cells that its program uses. Takes no memory.
    pub fn cells(&self) -> u32
        ensures cells_exact { result ≡ min (cells_of_arith (arith_tree_of self.now)) u32.MAX }
    {
        match self {
            Arith::Number(_) => 0,
            Arith::Length => 0,
            Arith::Accessor(_, index, _) => index.cells(),
            Arith::Operation(left, _, right) => left.cells().max(right.cells().saturating_add(1)),
        }
    }
}

impl<A: Allocator> Expr<A> {
    /// Returns the depth: 1 for a primitive without arithmetic, otherwise 1 more than the depth of the deepest part.
    /// Takes no memory.
    pub fn depth(&self) -> u32
        ensures depth_exact { result ≡ min (depth_of (tree_of self.now)) u32.MAX }
    {
        match self {
            Expr::Primitive(_) => 1,
            Expr::Relation(left, _, right) => left.depth().max(right.depth()).saturating_add(1),
            Expr::Not(inner) => inner.depth().saturating_add(1),
            Expr::And(left, right) => left.depth().max(right.depth()).saturating_add(1),
            Expr::Or(left, right) => left.depth().max(right.depth()).saturating_add(1),
        }
    }

    /// Returns the cells: the most scratch cells that its program uses. Takes no memory.
    pub fn cells(&self) -> u32
        ensures cells_exact { result ≡ min (cells_of (tree_of self.now)) u32.MAX }
    {
        match self {
            Expr::Primitive(_) => 0,
            Expr::Relation(left, _, right) => left.cells().max(right.cells().saturating_add(1)),
            Expr::Not(inner) => inner.cells(),
            Expr::And(left, right) => left.cells().max(right.cells()),
            Expr::Or(left, right) => left.cells().max(right.cells()),
        }
    }

    /// Returns the size: the most instructions that its program has, and its charge. Takes no memory.
    pub fn size(&self) -> u32
        ensures size_exact { result ≡ min (size_of (tree_of self.now)) u32.MAX }
    {
        self.weight().saturating_add(2)
    }

    /// Returns the weight: the size without the two instructions that return. Takes no memory.
    pub fn weight(&self) -> u32
        ensures weight_exact { result ≡ min (weight_of (tree_of self.now)) u32.MAX }
    {
        match self {
            Expr::Primitive(primitive) => weight_of_primitive(*primitive),
            Expr::Relation(left, _, right) => {
                let (used, sides) = Accesses::weigh_both(left, right);
                sides.saturating_add(6 + weight_of_guards(used))
            }
            Expr::Not(inner) => inner.weight(),
            Expr::And(left, right) => left.weight().saturating_add(right.weight()),
            Expr::Or(left, right) => left.weight().saturating_add(right.weight()),
        }
    }
}

fn weight_of_primitive(primitive: Primitive) -> u32
    ensures { result ≡ weight_of_primitive primitive }
{
    match primitive {
        Primitive::Ip => 5,
        Primitive::Proto(_) => 9,
        Primitive::Host(direction, _) => by_direction(direction, 9, 13),
        Primitive::Net(direction, _) => by_direction(direction, 10, 15),
        Primitive::Port(Transport::Unnamed, direction, _) => by_direction(direction, 24, 28),
        Primitive::Port(_, direction, _) => by_direction(direction, 18, 22),
        Primitive::PortRange(Transport::Unnamed, direction, _, _) => by_direction(
            direction, 27, 34,
        ),
        Primitive::PortRange(_, direction, _, _) => by_direction(direction, 21, 28),
        Primitive::AtMost(_) => 4,
        Primitive::AtLeast(_) => 4,
    }
}

fn by_direction(direction: Direction, one: u32, two: u32) -> u32
    ensures { result ≡ by_direction direction one two }
{
    match direction {
        Direction::Source => one,
        Direction::Destination => one,
        Direction::Either => two,
        Direction::Both => two,
    }
}

fn weight_of_guards(used: Accesses) -> u32
    ensures weight { result ≡ weight_of_guards (used_by used) }
    ensures small { result ≤ 21 }
{
    let ip = weight_where(used.any(), 5);
    let tcp = weight_where(used.tcp, 4);
    let udp = weight_where(used.udp, 4);
    let icmp = weight_where(used.icmp, 4);
    ip + tcp + udp + icmp + weight_where(used.any_transport(), 4)
}

fn weight_where(cause: bool, n: u32) -> u32
    ensures { result ≡ weight_where cause n }
{
    if cause { n } else { 0 }
}
