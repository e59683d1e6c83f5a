//! The outcome of an expression on a packet (pcap-filter(7); docs/EXPRESSIONS.md, "What an expression means"): the
//! plain evaluator, by the cases of the definition.

ghost use Rattle.std.specs.Prelude.{◌≡◌, ◌↔◌, IsTrue};
ghost use Rattle.ipv4_fields.specs.declared.header.Field.TheVariants.{Protocol as ProtocolField};
ghost use Rattle.ipv4_fields.specs.Field.{field_of};
ghost use Rattle.filter_tree.specs.Outcome.{◌and_then◌, tested, where_so};
ghost use Rattle.filter_tree.specs.Prefix.{covers};
ghost use Rattle.filter_tree.specs.Primitive.{at_ends, has_ports, is_between, is_first_fragment, is_ip, truth_of_primitive};
ghost use Rattle.filter_tree.specs.Truth.{accepts, compared, guards, holds, truth_of, used_by};
ghost use Rattle.filter_tree.specs.View.{tree_of};

use crate::expression::{Expr, Relation};
use crate::header::{has_ports, is_equal, is_first_fragment, is_ip, is_protocol};
use crate::prefix::Prefix;
use crate::primitive::{Direction, Primitive, Transport};
use crate::sides::Accesses;
use crate::truth::Truth;
use ipv4_fields::{Field, field};
use std::alloc::Allocator;

impl<A: Allocator> Expr<A> {
    /// Tests whether the expression accepts a packet, which begins with the first byte of its IPv4 header. Takes no memory.
    ///
    /// This is a slow plain evaluator, to compare compiled programs with.
    pub fn accepts(&self, packet: &[u8]) -> bool
        ensures accepts { IsTrue result ↔ accepts (tree_of self.now) packet.now }
    {
        matches!(self.truth(packet), Truth::Yes)
    }

    /// Returns the outcome of the expression on a packet, which begins with the first byte of its IPv4 header. Takes no
    /// memory.
    ///
    /// This is a slow plain evaluator, to compare compiled programs with.
    pub fn truth(&self, packet: &[u8]) -> Truth
        ensures truth { result ≡ truth_of (tree_of self.now) packet.now }
    {
        match self {
            Expr::Primitive(primitive) => truth_of_primitive(*primitive, packet),
            Expr::Relation(left, relation, right) => {
                let guards = guards(Accesses::of_both(left, right), packet);
                guards.and_then(compare(*relation, left.value(packet), right.value(packet)))
            }
            Expr::Not(inner) => inner.truth(packet).opposite(),
            Expr::And(left, right) => left.truth(packet).and_then(right.truth(packet)),
            Expr::Or(left, right) => left.truth(packet).or_else(right.truth(packet)),
        }
    }
}

fn truth_of_primitive(primitive: Primitive, packet: &[u8]) -> Truth
    ensures { result ≡ truth_of_primitive primitive packet.now }
{
    let source = field(Field::Source, packet);
    let destination = field(Field::Destination, packet);
    let source_port = field(Field::SourcePort, packet);
    let destination_port = field(Field::DestinationPort, packet);
    match primitive {
        Primitive::Ip => is_ip(packet),
        Primitive::Proto(n) => is_ip(packet).and_then(is_protocol(n, packet)),
        Primitive::Host(direction, address) => {
            let source = is_equal(source, address);
            let destination = is_equal(destination, address);
            is_ip(packet).and_then(at_ends(direction, source, destination))
        }
        Primitive::Net(direction, prefix) => {
            let source = is_covered(source, prefix);
            let destination = is_covered(destination, prefix);
            is_ip(packet).and_then(at_ends(direction, source, destination))
        }
        Primitive::Port(transport, direction, n) => {
            let source = is_equal(source_port, n as u32);
            let destination = is_equal(destination_port, n as u32);
            has_port_numbers(transport, packet).and_then(at_ends(direction, source, destination))
        }
        Primitive::PortRange(transport, direction, n, m) => {
            let source = is_between(source_port, n, m);
            let destination = is_between(destination_port, n, m);
            has_port_numbers(transport, packet).and_then(at_ends(direction, source, destination))
        }
        Primitive::AtMost(n) => Truth::answer(packet.len() <= n as usize),
        Primitive::AtLeast(n) => Truth::answer(packet.len() >= n as usize),
    }
}

fn at_ends(direction: Direction, source: Truth, destination: Truth) -> Truth
    ensures { result ≡ at_ends direction source destination }
{
    match direction {
        Direction::Source => source,
        Direction::Destination => destination,
        Direction::Either => source.or_else(destination),
        Direction::Both => source.and_then(destination),
    }
}

fn is_covered(address: Option<u32>, prefix: Prefix) -> Truth
    ensures { result ≡ tested (covers prefix) address }
{
    match address {
        Some(address) => Truth::answer(prefix.covers(address)),
        None => Truth::Fails,
    }
}

fn is_between(port: Option<u32>, n: u16, m: u16) -> Truth
    ensures { result ≡ tested (is_between n m) port }
{
    match port {
        Some(port) => Truth::answer(n.min(m) as u32 <= port && port <= n.max(m) as u32),
        None => Truth::Fails,
    }
}

fn has_port_numbers(transport: Transport, packet: &[u8]) -> Truth
    ensures { result ≡ (is_ip packet.now and_then tested (has_ports transport) (field_of ProtocolField packet.now) and_then is_first_fragment packet.now) }
{
    is_ip(packet)
        .and_then(has_ports(transport, packet))
        .and_then(is_first_fragment(packet))
}

fn guards(used: Accesses, packet: &[u8]) -> Truth
    ensures { result ≡ guards (used_by used) packet.now }
{
    where_so(used.any(), is_ip(packet))
        .and_then(where_so(used.tcp, is_protocol(6, packet)))
        .and_then(where_so(used.udp, is_protocol(17, packet)))
        .and_then(where_so(used.icmp, is_protocol(1, packet)))
        .and_then(where_so(used.any_transport(), is_first_fragment(packet)))
}

fn where_so(cause: bool, test: Truth) -> Truth
    ensures { result ≡ where_so cause test }
{
    if cause { test } else { Truth::Yes }
}

fn compare(relation: Relation, left: Option<u32>, right: Option<u32>) -> Truth
    ensures { result ≡ compared relation left right }
{
    match (left, right) {
        (Some(a), Some(b)) => Truth::answer(holds(relation, a, b)),
        (_, _) => Truth::Fails,
    }
}

fn holds(relation: Relation, a: u32, b: u32) -> bool
    ensures { result ≡ holds relation a b }
{
    match relation {
        Relation::Greater => a > b,
        Relation::Less => a < b,
        Relation::GreaterOrEqual => a >= b,
        Relation::LessOrEqual => a <= b,
        Relation::Equal => a == b,
        Relation::NotEqual => a != b,
    }
}
