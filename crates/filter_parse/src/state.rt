//! The parser's state and the pending entries on its stack, in the terms of operator-precedence parsing.
//!
//! - Lookahead: the token at hand. To shift it is to take it, which sets the state and may push a pending entry.
//! - State: the last shift, and so what may come next.
//! - Stack: operators, relations, `not`, `and`, `or` and brackets whose right sides are still to come.
//! - To reduce is to pop an entry whose right side is complete, and to append it to the output. Before the lookahead is
//!   shifted, the operators that bind at least as tightly as it are reduced: its precedence decides.
//! - Output: the parts of the expression in postfix order, each after its own parts.

use crate::token::Connective;
use filter_tree::{Direction, Operator, Protocol, Relation, Size, Transport};

/// The last shift.
#[derive(Clone, Copy)]
pub(crate) enum State {
    /// Nothing, or a token that an operand or an expression must follow.
    Expects,
    /// An arithmetic expression, which may go on.
    Number,
    /// An expression, which may go on.
    Truth,
    /// A protocol's name, which may be an expression, or begin one or an accessor.
    Named(Protocol),
    /// The protocol and direction of a primitive.
    Directed(Transport, Direction),
    /// `src or`, `src and`, which make this direction.
    Widened(Transport, Direction),
    /// `ip proto`.
    WantsProtocol,
    /// `host`.
    WantsAddress(Direction),
    /// `net`.
    WantsNetwork(Direction),
    /// `net` and an address.
    WantsSlash(Direction, u32),
    /// `net`, an address and `/`.
    WantsBits(Direction, u32),
    /// `port`.
    WantsPort(Transport, Direction),
    /// `portrange`.
    WantsFirst(Transport, Direction),
    /// `portrange` and a number.
    WantsDash(Transport, Direction, u16),
    /// `portrange`, a number and `-`.
    WantsLast(Transport, Direction, u16),
    /// `less`.
    WantsMost,
    /// `greater`.
    WantsLeast,
    /// An accessor up to `:`.
    WantsSize(Protocol),
    /// An accessor up to its size.
    WantsEnd(Protocol, Size),
}

/// An entry that is pending on the stack until its right side is complete.
#[derive(Clone, Copy, Default)]
pub(crate) enum Pending {
    /// An expression and `and` or `or`.
    Joined(Connective),
    /// `not`.
    #[default]
    Negated,
    /// `(`, and whether only an arithmetic expression is allowed in it.
    /// The reason: docs/INTERNALS.md, "One kind of open bracket".
    Bracket(bool),
    /// An arithmetic expression and a relation.
    Compared(Relation),
    /// An arithmetic expression and an operator.
    Operated(Operator),
    /// A protocol's name and `[`.
    Index(Protocol),
}
