//! The tests that are written once in front of an expression: the version, or every test that comes before ports if its
//! parts are only ports of one transport.

ghost use Rattle.std.specs.Prelude.{◌≡◌, ◌≢◌, ◌+◌, ◌≤◌, IfOk, IfSome, Some, false, length, true};
ghost use Rattle.bpf_verify.specs.declared.TheConstants.{MAX_INSTRUCTIONS};
ghost use Rattle.filter_emit.specs.Guards.{Guards};
ghost use Rattle.filter_tree.specs.View.{tree_of};
ghost use Rattle.filter_facts.specs.Known.{Holds};
ghost use Rattle.filter_facts.specs.Told.{ip_of, transport_of};
ghost use Rattle.filter_compile.specs.body.NonIpv4.{non_ipv4};
ghost use Rattle.filter_compile.specs.body.Front.{BeginsWith, IsLearned, MayAsk, guard_truth, guard_weight, has_only_ports, is_ports, is_same};
ghost use Rattle.filter_compile.specs.body.Piece.{Tests};
ghost use Rattle.filter_compile.specs.body.Sides.{HoldsWhere};

use crate::guard::ask_ip;
use crate::non_ipv4::{begins_with_ip, non_ipv4};
use crate::primitive::guard_ports;
use crate::sides::Passed;
use filter_emit::{Code, Label};
use filter_facts::Known;
use filter_tree::{Expr, Primitive, Transport};
use std::alloc::{AllocError, Allocator};

/// The tests in front.
#[derive(Clone, Copy)]
pub(crate) enum Guard {
    Version,
    /// The version, the protocol and the fragment.
    Ports(Transport),
}

/// The tests in front, and the truth of the expression on the packets that fail them.
#[derive(Clone, Copy)]
pub(crate) struct Front {
    pub(crate) guard: Guard,
    pub(crate) truth: bool,
}

fn is_same(one: Transport, other: Transport) -> bool
    ensures { result ≡ is_same one other }
{
    match (one, other) {
        (Transport::Tcp, Transport::Tcp) => true,
        (Transport::Udp, Transport::Udp) => true,
        (Transport::Unnamed, Transport::Unnamed) => true,
        _ => false,
    }
}

fn is_ports(transport: Transport, primitive: Primitive) -> bool
    ensures { result ≡ is_ports transport primitive }
{
    match primitive {
        Primitive::Port(other, _, _) => is_same(transport, other),
        Primitive::PortRange(other, _, _, _) => is_same(transport, other),
        _ => false,
    }
}

fn has_only_ports<B: Allocator>(transport: Transport, expr: &Expr<B>) -> bool
    ensures { result ≡ has_only_ports transport (tree_of expr.now) }
{
    match expr {
        Expr::Primitive(primitive) => is_ports(transport, *primitive),
        Expr::Relation(_, _, _) => false,
        Expr::Not(inner) => has_only_ports(transport, inner),
        Expr::And(left, right) => has_only_ports(transport, left)
            && has_only_ports(transport, right),
        Expr::Or(left, right) => has_only_ports(transport, left)
            && has_only_ports(transport, right),
    }
}

// The transport of the first part, if it is one with ports.
fn first_transport<B: Allocator>(expr: &Expr<B>) -> Option<Transport> {
    match expr {
        Expr::Primitive(Primitive::Port(transport, _, _)) => Some(*transport),
        Expr::Primitive(Primitive::PortRange(transport, _, _, _)) => Some(*transport),
        Expr::Primitive(_) => None,
        Expr::Relation(_, _, _) => None,
        Expr::Not(inner) => first_transport(inner),
        Expr::And(left, _) => first_transport(left),
        Expr::Or(left, _) => first_transport(left),
    }
}

// If the fragment is known to be the first, ports were tested before.
fn common_ports<B: Allocator>(expr: &Expr<B>, known: Known) -> Option<Transport>
    ensures only { IfSome result (λ transport. has_only_ports transport (tree_of expr.now) ≡ true) }
    ensures ip { IfSome result (λ transport. ip_of known ≢ Some false) }
    ensures transport { IfSome result (λ transport. transport_of known transport ≢ Some false) }
{
    if known.first_fragment() || matches!(known.ip(), Some(false)) {
        return None;
    }
    match first_transport(expr) {
        Some(transport) if matches!(known.transport(transport), Some(false)) => None,
        Some(transport) if has_only_ports(transport, expr) => Some(transport),
        _ => None,
    }
}

// The reason: docs/INTERNALS.md, "The version is tested once before alternatives".
fn first_guard<B: Allocator>(expr: &Expr<B>, known: Known) -> Option<Guard>
    ensures may_ask { IfSome result (λ guard. MayAsk guard known) }
    ensures begins { IfSome result (λ guard. BeginsWith guard (tree_of expr.now)) }
{
    if let Some(transport) = common_ports(expr, known) {
        return Some(Guard::Ports(transport));
    }
    if known.ip().is_some() || begins_with_ip(expr) {
        return None;
    }
    Some(Guard::Version)
}

// Whether packets that fail the first test of the left part go on to the right one, which would repeat that test. If
// they do not, the right part begins with what the left part shows of the other packets.
fn asks_again<B: Allocator>(expr: &Expr<B>) -> bool {
    match expr {
        Expr::And(left, _) => match left.as_ref() {
            Expr::Primitive(_) => false,
            Expr::Relation(_, _, _) => false,
            left => matches!(non_ipv4(left), Some(true)),
        },
        Expr::Or(left, _) => matches!(non_ipv4(left), Some(false)),
        _ => false,
    }
}

/// Returns the tests to write in front of an expression, so that its parts need not repeat them. The expression begins
/// with these tests and has one truth on all packets that fail them, and it is not known whether a packet passes them.
pub(crate) fn in_front<B: Allocator>(expr: &Expr<B>, known: Known) -> Option<Front>
    ensures settled { IfSome result (λ front. non_ipv4 (tree_of expr.now) ≡ Some front.truth) }
    ensures may_ask { IfSome result (λ front. MayAsk front.guard known) }
    ensures begins { IfSome result (λ front. BeginsWith front.guard (tree_of expr.now)) }
{
    if !asks_again(expr) {
        return None;
    }
    let guard = first_guard(expr, known)?;
    let truth = non_ipv4(expr)?;
    Some(Front { guard, truth })
}

/// Writes the test.
pub(crate) fn ask<'a, A: Allocator>(
    code: &mut Code<'a, A>,
    guard: Guard,
    known: Known,
    no: &mut Label<'a, A>,
) -> Result<Passed, AllocError>
    requires room { length code.old + guard_weight guard known ≤ MAX_INSTRUCTIONS }
    requires behind { length code.old + guard_weight guard known ≤ no.old.by }
    ensures guards { IfOk result (λ passed. Guards (Tests (Holds known) (Holds passed.on) (HoldsWhere passed.no) (guard_truth guard)) (guard_weight guard known) code.old code.new no.old no.new) }
    ensures learned { IfOk result (λ passed. MayAsk guard known → IsLearned guard passed.on) }
{
    let mut passed = Passed::at_once(known);
    match guard {
        Guard::Version => ask_ip(code, &mut passed, no)?,
        Guard::Ports(transport) => guard_ports(code, transport, &mut passed, no)?,
    }
    Ok(passed)
}
