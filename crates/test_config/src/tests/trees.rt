//! Trees built by hand: their texts, measures and copies, and their outcomes on the sample packet.

mod memory;

use super::assert_numbered;
use super::built::{
    PORT_53, SAMPLE_PACKET, UDP, accessor, and, byte_is, compared, is_arith_printed, is_tree_of,
    load_or_ip, net, not, not_a_load, operation, or, packet_with, udp_or_ip_and_port_53,
};
use Direction::{Both, Destination, Either, Source};
use Transport::{Tcp, Udp, Unnamed};
use filter_tree::{
    Arith, Direction, Expr, Operator, Prefix, Primitive, Protocol, Relation, Size, Transport, Truth,
};
use std::alloc::Global;
use std::process::Abort;

/// `not udp or ip and port 53`.
fn connected(rt: &impl Abort, alloc: Global) -> Expr<Global> {
    let not_udp = not(rt, alloc, Expr::Primitive(UDP));
    and(rt, alloc, or(rt, alloc, not_udp, Primitive::Ip), PORT_53)
}

/// `1+2*len`.
fn sum(rt: &impl Abort, alloc: Global) -> Arith<Global> {
    let product = operation(
        rt,
        alloc,
        Arith::Number(2),
        Operator::Multiply,
        Arith::Length,
    );
    operation(rt, alloc, Arith::Number(1), Operator::Add, product)
}

/// `1+2*len == ip[0 : 2]`.
fn computed(rt: &impl Abort, alloc: Global) -> Expr<Global> {
    let sum = sum(rt, alloc);
    let half = accessor(rt, alloc, Protocol::Ip, Arith::Number(0), Size::Two);
    Expr::Relation(sum, Relation::Equal, half)
}

/// `(1 << len) / 3`.
fn third(rt: &impl Abort, alloc: Global) -> Arith<Global> {
    let power = operation(
        rt,
        alloc,
        Arith::Number(1),
        Operator::ShiftLeft,
        Arith::Length,
    );
    operation(rt, alloc, power, Operator::Divide, Arith::Number(3))
}

/// `udp[(1 << len) / 3 : 4] = 97`.
fn divided(rt: &impl Abort, alloc: Global) -> Expr<Global> {
    let word = accessor(rt, alloc, Protocol::Udp, third(rt, alloc), Size::Four);
    compared(word, Relation::Equal, 97)
}

/// `udp and less 28`.
fn short_udp(rt: &impl Abort, alloc: Global) -> Expr<Global> {
    and(rt, alloc, Expr::Primitive(UDP), Primitive::AtMost(28))
}

/// `(1 << len) / 3 = 7`.
fn third_is_seven(rt: &impl Abort, alloc: Global) -> Expr<Global> {
    compared(third(rt, alloc), Relation::Equal, 7)
}

// A question about a tree, with the answer.
#[derive(Clone, Copy)]
enum Asked<'a> {
    // Its text, and its depth, cells and size.
    Text(&'a str, u32, u32, u32),
    // Its outcome on the sample packet with this byte at a place.
    Truth(usize, u8, Truth),
    // From how many of the sample packet's bytes on it accepts them, and up to how many.
    Lengths(usize, usize),
}

// Whether the packet's beginnings of these numbers of bytes are accepted, and no others.
fn is_accepted(tree: &Expr<Global>, least: usize, most: usize) -> bool {
    for len in 0..30 {
        let is_within = least <= len && len <= most;
        if tree.accepts(&SAMPLE_PACKET[..len]) != is_within {
            return false;
        }
    }
    true
}

fn is_answered(alloc: Global, tree: &Expr<Global>, asked: Asked) -> bool {
    match asked {
        Asked::Text(text, depth, cells, size) => {
            is_tree_of(alloc, tree, text, &(depth, cells, size))
        }
        Asked::Truth(place, byte, truth) => tree.truth(&packet_with(place, byte)) == truth,
        Asked::Lengths(least, most) => is_accepted(tree, least, most),
    }
}

fn is_so(alloc: Global, tree: Expr<Global>, asked: Asked) -> bool {
    is_answered(alloc, &tree, asked)
}

fn expect_so(rt: &impl Abort, alloc: Global, tree: Expr<Global>, asked: Asked) {
    assert!(rt; is_so(alloc, tree, asked));
}

const CONNECTED: &str = "( ( not ip proto 17 or ip ) and port 53 )";

const SUM: &str = "( 1 + ( 2 * len ) )";

const COMPUTED: &str = "( 1 + ( 2 * len ) ) = ip[0:2]";

const SHORT_UDP: &str = "( ip proto 17 and less 28 )";

const THIRD_IS_SEVEN: &str = "( ( 1 << len )/3 ) = 7";

const DIVIDED: &str = "udp[((1<<len)/3):4] = 97";

// The sizes are sums of the table's weights in docs/EXPRESSIONS.md, "Measures".
#[test]
fn printed_trees_and_their_measures(rt: HostRuntime) {
    let alloc = rt.alloc();
    let payload = byte_is(&rt, alloc, Protocol::Udp, 8, 0x61);
    expect_so(&rt, alloc, payload, Asked::Text("udp[8:1] = 97", 3, 1, 27));
    expect_so(
        &rt,
        alloc,
        connected(&rt, alloc),
        Asked::Text(CONNECTED, 4, 0, 44),
    );
    expect_so(
        &rt,
        alloc,
        computed(&rt, alloc),
        Asked::Text(COMPUTED, 4, 2, 27),
    );
    expect_so(
        &rt,
        alloc,
        short_udp(&rt, alloc),
        Asked::Text(SHORT_UDP, 2, 0, 15),
    );
    let seven = third_is_seven(&rt, alloc);
    expect_so(&rt, alloc, seven, Asked::Text(THIRD_IS_SEVEN, 4, 1, 20));
    expect_so(
        &rt,
        alloc,
        divided(&rt, alloc),
        Asked::Text(DIVIDED, 5, 1, 37),
    );
}

fn is_printed_alone(alloc: Global, arith: Arith<Global>, text: &str) -> bool {
    is_arith_printed(&arith, alloc, text).unwrap_or(false)
}

// An arithmetic expression by itself has the text of a relation's side.
#[test]
fn printed_arithmetic(rt: HostRuntime) {
    let alloc = rt.alloc();
    let word = accessor(&rt, alloc, Protocol::Tcp, Arith::Length, Size::Four);
    assert!(rt; is_printed_alone(alloc, sum(&rt, alloc), SUM));
    assert!(rt; is_printed_alone(alloc, third(&rt, alloc), "( ( 1 << len )/3 )"));
    assert!(rt; is_printed_alone(alloc, word, "tcp[len:4]"));
}

// A primitive, its text and size. The sizes are those of the table in docs/EXPRESSIONS.md, "Measures", and 2 more.
fn primitive_at(place: u64) -> Option<(Primitive, &'static str, u32)> {
    Some(match place {
        0 => (Primitive::Ip, "ip", 7),
        1 => (UDP, "ip proto 17", 11),
        2 => (
            Primitive::Host(Both, 0x0a00_ff01),
            "src and dst host 10.0.255.1",
            15,
        ),
        3 => (PORT_53, "port 53", 30),
        4 => (
            Primitive::Port(Udp, Destination, 65535),
            "udp dst port 65535",
            20,
        ),
        5 => (
            Primitive::Port(Tcp, Both, 65535),
            "tcp src and dst port 65535",
            24,
        ),
        6 => (
            Primitive::PortRange(Unnamed, Source, 60, 50),
            "src portrange 60-50",
            29,
        ),
        7 => (
            Primitive::PortRange(Unnamed, Either, 60, 50),
            "portrange 60-50",
            36,
        ),
        8 => (
            Primitive::PortRange(Udp, Source, 60, 50),
            "udp src portrange 60-50",
            23,
        ),
        9 => (
            Primitive::PortRange(Tcp, Either, 60, 50),
            "tcp portrange 60-50",
            30,
        ),
        10 => (Primitive::AtMost(28), "less 28", 6),
        11 => (Primitive::AtLeast(4294967295), "greater 4294967295", 6),
        12 => (net(Source, 0x0a00_0000, 8)?, "src net 10.0.0.0/8", 12),
        13 => (net(Either, 0, 0)?, "net 0.0.0.0/0", 17),
        _ => return None,
    })
}

fn is_primitive(alloc: Global, place: u64) -> bool {
    match primitive_at(place) {
        Some((primitive, text, size)) => {
            is_so(
                alloc,
                Expr::Primitive(primitive),
                Asked::Text(text, 1, 0, size),
            )
        }
        None => false,
    }
}

#[test]
fn primitives_and_their_sizes(rt: HostRuntime) {
    for place in 0..14 {
        assert_numbered(&rt, is_primitive(rt.alloc(), place), place);
    }
}

#[derive(Clone, Copy)]
enum Shape {
    Primitive(Primitive),
    // `protocol[index] = value`.
    Byte(Protocol, u32, u32),
}

const AT_NONE: (usize, usize) = (1, 0);

// A tree, from how many of the packet's bytes on and up to how many it accepts them, and the same for `not` of it.
fn lengths_at(place: u64) -> Option<(Shape, (usize, usize), (usize, usize))> {
    Some(match place {
        0 => (Shape::Primitive(Primitive::Ip), (1, 29), AT_NONE),
        1 => (Shape::Primitive(UDP), (10, 29), AT_NONE),
        2 => (Shape::Primitive(Primitive::Proto(6)), AT_NONE, (10, 29)),
        3 => (
            Shape::Primitive(Primitive::Host(Either, 0x0a00_0001)),
            (16, 29),
            AT_NONE,
        ),
        4 => (
            Shape::Primitive(Primitive::Host(Either, 0x0a00_0002)),
            (20, 29),
            AT_NONE,
        ),
        5 => (
            Shape::Primitive(Primitive::Port(Unnamed, Source, 5000)),
            (22, 29),
            AT_NONE,
        ),
        6 => (Shape::Primitive(PORT_53), (24, 29), AT_NONE),
        7 => (
            Shape::Primitive(Primitive::PortRange(Unnamed, Either, 50, 60)),
            (24, 29),
            AT_NONE,
        ),
        8 => (Shape::Primitive(Primitive::AtLeast(29)), (29, 29), (0, 28)),
        9 => (Shape::Primitive(Primitive::AtMost(28)), (0, 28), (29, 29)),
        10 => (
            Shape::Primitive(net(Either, 0x0a00_0000, 8)?),
            (16, 29),
            AT_NONE,
        ),
        11 => (Shape::Byte(Protocol::Ip, 0, 0x45), (1, 29), AT_NONE),
        12 => (Shape::Byte(Protocol::Icmp, 0, 0), AT_NONE, (10, 29)),
        13 => (Shape::Byte(Protocol::Udp, 8, 0x61), (29, 29), AT_NONE),
        _ => return None,
    })
}

fn shaped(rt: &impl Abort, alloc: Global, shape: &Shape) -> Expr<Global> {
    match shape {
        Shape::Primitive(primitive) => Expr::Primitive(*primitive),
        Shape::Byte(protocol, index, value) => byte_is(rt, alloc, *protocol, *index, *value),
    }
}

fn has_lengths(
    rt: &impl Abort,
    alloc: Global,
    row: &(Shape, (usize, usize), (usize, usize)),
) -> bool {
    let negated = not(rt, alloc, shaped(rt, alloc, &row.0));
    is_so(alloc, negated, Asked::Lengths(row.2.0, row.2.1))
        && is_so(
            alloc,
            shaped(rt, alloc, &row.0),
            Asked::Lengths(row.1.0, row.1.1),
        )
}

fn is_accepted_and_negated(rt: &impl Abort, alloc: Global, place: u64) -> bool {
    match lengths_at(place) {
        Some(row) => has_lengths(rt, alloc, &row),
        None => false,
    }
}

#[test]
fn prefixes_of_k(rt: HostRuntime) {
    for place in 0..14 {
        assert_numbered(&rt, is_accepted_and_negated(&rt, rt.alloc(), place), place);
    }
    let whole = compared(Arith::Length, Relation::Equal, 29);
    expect_so(&rt, rt.alloc(), whole, Asked::Lengths(29, 29));
}

#[test]
fn not_keeps_a_failed_load(rt: HostRuntime) {
    let alloc = rt.alloc();
    expect_so(
        &rt,
        alloc,
        not_a_load(&rt, alloc),
        Asked::Truth(0, 0x45, Truth::Fails),
    );
    expect_so(
        &rt,
        alloc,
        not_a_load(&rt, alloc),
        Asked::Truth(9, 6, Truth::Yes),
    );
}

#[test]
fn and_and_or_bind_alike(rt: HostRuntime) {
    let alloc = rt.alloc();
    let yes = Asked::Truth(0, 0x45, Truth::Yes);
    expect_so(&rt, alloc, udp_or_ip_and_port_53(&rt, alloc), yes);
    let no = Asked::Truth(23, 99, Truth::No);
    expect_so(&rt, alloc, udp_or_ip_and_port_53(&rt, alloc), no);
}

fn primitive_is_yes(alloc: Global, primitive: Primitive) -> bool {
    is_so(
        alloc,
        Expr::Primitive(primitive),
        Asked::Truth(0, 0x45, Truth::Yes),
    )
}

#[test]
fn length_bounds_and_payload_byte(rt: HostRuntime) {
    let alloc = rt.alloc();
    assert!(rt; primitive_is_yes(alloc, Primitive::AtMost(29)));
    assert!(rt; primitive_is_yes(alloc, Primitive::AtLeast(29)));
    let payload = byte_is(&rt, alloc, Protocol::Udp, 8, 0x61);
    expect_so(&rt, alloc, payload, Asked::Truth(0, 0x45, Truth::Yes));
    expect_so(
        &rt,
        alloc,
        load_or_ip(&rt, alloc),
        Asked::Truth(0, 0x45, Truth::Fails),
    );
}

static PREFIXES: [(u32, u32, bool); 7] = [
    (0, 0, true),
    (1 << 31, 0, false),
    (1 << 31, 1, true),
    (4294967295, 32, true),
    (4294967295, 31, false),
    (0, 33, false),
    (0, 4294967295, false),
];

// Whether a prefix is made of them if and only if that is expected, with this address and this length.
fn is_made(address: u32, length: u32, is_prefix: bool) -> bool {
    match Prefix::new(address, length) {
        Some(made) => is_prefix && made.address() == address && made.length() == length,
        None => !is_prefix,
    }
}

#[test]
fn prefixes(rt: HostRuntime) {
    for (place, row) in PREFIXES.iter().enumerate() {
        assert_numbered(&rt, is_made(row.0, row.1, row.2), place as u64);
    }
}
