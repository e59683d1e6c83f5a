//! The truth of an expression on packets that are not IPv4, if it is the same on all of them; and whether its first
//! part is the primitive `ip`.

ghost use Rattle.std.specs.Prelude.{◌≡◌};
ghost use Rattle.filter_tree.specs.Truth.{used_by};
ghost use Rattle.filter_tree.specs.View.{tree_of};
ghost use Rattle.filter_compile.specs.body.NonIpv4.{accesses_non_ipv4, begins_with_ip, non_ipv4, not_non_ipv4, primitive_non_ipv4};

use filter_tree::{Accesses, Expr, Primitive};
use std::alloc::Allocator;

fn primitive_non_ipv4(primitive: Primitive) -> Option<bool>
    ensures { result ≡ primitive_non_ipv4 primitive }
{
    match primitive {
        Primitive::AtMost(_) => None,
        Primitive::AtLeast(_) => None,
        _ => Some(false),
    }
}

fn accesses_non_ipv4(used: Accesses) -> Option<bool>
    ensures { result ≡ accesses_non_ipv4 (used_by used) }
{
    if used.any() { Some(false) } else { None }
}

fn opposite(told: Option<bool>) -> Option<bool>
    ensures { result ≡ not_non_ipv4 told }
{
    match told {
        Some(truth) => Some(!truth),
        None => None,
    }
}

/// The right part counts only if the left one leads to it.
pub(crate) fn non_ipv4<B: Allocator>(expr: &Expr<B>) -> Option<bool>
    ensures { result ≡ non_ipv4 (tree_of expr.now) }
{
    match expr {
        Expr::Primitive(primitive) => primitive_non_ipv4(*primitive),
        Expr::Relation(left, _, right) => accesses_non_ipv4(Accesses::of_both(left, right)),
        Expr::Not(inner) => opposite(non_ipv4(inner)),
        Expr::And(left, right) => match non_ipv4(left) {
            Some(true) => non_ipv4(right),
            told => told,
        },
        Expr::Or(left, right) => match non_ipv4(left) {
            Some(false) => non_ipv4(right),
            told => told,
        },
    }
}

/// If the version is known, `ip` still takes a jump, so it saves less than the test in front costs.
pub(crate) fn begins_with_ip<B: Allocator>(expr: &Expr<B>) -> bool
    ensures { result ≡ begins_with_ip (tree_of expr.now) }
{
    match expr {
        Expr::Primitive(primitive) => matches!(primitive, Primitive::Ip),
        Expr::Relation(_, _, _) => false,
        Expr::Not(inner) => begins_with_ip(inner),
        Expr::And(left, _) => begins_with_ip(left),
        Expr::Or(left, _) => begins_with_ip(left),
    }
}
