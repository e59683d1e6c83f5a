//! Filter expressions as trees (pcap-filter(7); docs/EXPRESSIONS.md), for every allocator: their outcome on a packet,
//! their measures, their copies and their printed text.
//!
//! These calls recurse, one call for each level of a tree, so the maker of a tree has to bound its depth. Contracts see
//! a tree without its allocator.
#![tactic(auto)]

ghost use Rattle.std.specs.Prelude.{◌≡◌};

mod arithmetic;
mod copies;
mod expression;
mod header;
mod meaning;
mod measures;
mod prefix;
mod primitive;
mod printing;
mod sides;
mod truth;
mod value;

pub use arithmetic::{Arith, Operator, Protocol, Size};
pub use expression::{Expr, Relation};
pub use prefix::Prefix;
pub use primitive::{Direction, Primitive, Transport};
pub use sides::Accesses;
pub use truth::Truth;

/// The most bytes of a packet: an IPv4 header's total length has 16 bits (RFC 791, section 3.1).
pub const MAX_PACKET: usize = 65_535;

/// Law: the limit, as a number. It runs nothing.
pub fn limits_as_numbers()
    ensures { MAX_PACKET ≡ 65535 }
{}

/// The error of a call whose allocation was refused.
pub use std::alloc::AllocError as OutOfMemory;
