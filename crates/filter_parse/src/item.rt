//! An expression in postfix order: its parts as they were read, each after its own parts.

use filter_tree::{Operator, Primitive, Protocol, Relation, Size};

/// A part of an expression, which takes its own parts from those before it.
#[derive(Clone, Copy, Default)]
pub(crate) enum Item {
    #[default]
    Length,
    Number(u32),
    Access(Protocol, Size),
    Operate(Operator),
    Primitive(Primitive),
    Relate(Relation),
    Negate,
    Conjoin,
    Disjoin,
}
