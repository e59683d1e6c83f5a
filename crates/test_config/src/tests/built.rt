//! Things that the tests of trees and of the compiler build: trees by hand, the sample packet, and arenas of few bytes.

ghost use Rattle.std.specs.Prelude.{◌≤◌, length};
ghost use Rattle.bpf_verify.specs.Program.{IsProgram};

use bpf_machine::{MAX_PACKET, run};
use bpf_verify::Program;
use bumpalo::Bump;
use filter_tree::{
    Arith, Direction, Expr, Operator, Prefix, Primitive, Protocol, Relation, Size, Transport,
};
use std::alloc::{Allocator, Global};
use std::process::Abort;

/// 29 bytes of UDP over IPv4 from 10.0.0.1:5000 to 10.0.0.2:53, with one byte of payload.
pub static SAMPLE_PACKET: [u8; 29] = [
    0x45, 0x00, 0x00, 0x1d, 0x00, 0x00, 0x00, 0x00, 0x40, 0x11, 0x00, 0x00, 0x0a, 0x00, 0x00, 0x01,
    0x0a, 0x00, 0x00, 0x02, 0x13, 0x88, 0x00, 0x35, 0x00, 0x09, 0x00, 0x00, 0x61,
];

/// The sample packet with one byte changed.
pub fn packet_with(place: usize, byte: u8) -> [u8; 29] {
    let mut packet = SAMPLE_PACKET;
    if let Some(changed) = packet.get_mut(place) {
        *changed = byte;
    }
    packet
}

pub const UDP: Primitive = Primitive::Proto(17);

pub const PORT_53: Primitive = Primitive::Port(Transport::Unnamed, Direction::Either, 53);

fn boxed(rt: &impl Abort, alloc: Global, tree: Expr<Global>) -> Box<Expr<Global>> {
    Box::new(alloc, tree).expect(rt, "memory")
}

pub fn not(rt: &impl Abort, alloc: Global, inner: Expr<Global>) -> Expr<Global> {
    Expr::Not(boxed(rt, alloc, inner))
}

pub fn and(rt: &impl Abort, alloc: Global, left: Expr<Global>, right: Primitive) -> Expr<Global> {
    let left = boxed(rt, alloc, left);
    Expr::And(left, boxed(rt, alloc, Expr::Primitive(right)))
}

pub fn or(rt: &impl Abort, alloc: Global, left: Expr<Global>, right: Primitive) -> Expr<Global> {
    let left = boxed(rt, alloc, left);
    Expr::Or(left, boxed(rt, alloc, Expr::Primitive(right)))
}

/// `udp or ip and port 53`.
pub fn udp_or_ip_and_port_53(rt: &impl Abort, alloc: Global) -> Expr<Global> {
    let udp_or_ip = or(rt, alloc, Expr::Primitive(UDP), Primitive::Ip);
    and(rt, alloc, udp_or_ip, PORT_53)
}

pub fn compared(left: Arith<Global>, relation: Relation, right: u32) -> Expr<Global> {
    Expr::Relation(left, relation, Arith::Number(right))
}

fn boxed_arith(rt: &impl Abort, alloc: Global, arith: Arith<Global>) -> Box<Arith<Global>> {
    Box::new(alloc, arith).expect(rt, "memory")
}

pub fn operation(
    rt: &impl Abort,
    alloc: Global,
    left: Arith<Global>,
    operator: Operator,
    right: Arith<Global>,
) -> Arith<Global> {
    let left = boxed_arith(rt, alloc, left);
    Arith::Operation(left, operator, boxed_arith(rt, alloc, right))
}

pub fn accessor(
    rt: &impl Abort,
    alloc: Global,
    protocol: Protocol,
    index: Arith<Global>,
    size: Size,
) -> Arith<Global> {
    Arith::Accessor(protocol, boxed_arith(rt, alloc, index), size)
}

/// `protocol[index] = value`.
pub fn byte_is(
    rt: &impl Abort,
    alloc: Global,
    protocol: Protocol,
    index: u32,
    value: u32,
) -> Expr<Global> {
    let byte = accessor(rt, alloc, protocol, Arith::Number(index), Size::One);
    compared(byte, Relation::Equal, value)
}

/// `not udp[100] = 1`.
pub fn not_a_load(rt: &impl Abort, alloc: Global) -> Expr<Global> {
    not(rt, alloc, byte_is(rt, alloc, Protocol::Udp, 100, 1))
}

/// `udp[9] = 0 or ip`, in which the load fails before `or`.
pub fn load_or_ip(rt: &impl Abort, alloc: Global) -> Expr<Global> {
    let load = byte_is(rt, alloc, Protocol::Udp, 9, 0);
    or(rt, alloc, load, Primitive::Ip)
}

pub fn net(direction: Direction, address: u32, length: u32) -> Option<Primitive> {
    Some(Primitive::Net(direction, Prefix::new(address, length)?))
}

/// Whether the tree is printed so in an allocator's memory; none if memory is refused.
pub fn is_printed<A: Allocator, B: Allocator>(
    tree: &Expr<A>,
    alloc: B,
    text: &str,
) -> Option<bool> {
    match tree.print(alloc) {
        Ok(printed) => Some(printed.as_str() == text),
        Err(_) => None,
    }
}

/// Whether an arithmetic expression alone is printed so in an allocator's memory; none if memory is refused.
pub fn is_arith_printed<B: Allocator>(arith: &Arith<Global>, alloc: B, text: &str) -> Option<bool> {
    match arith.print(alloc) {
        Ok(printed) => Some(printed.as_str() == text),
        Err(_) => None,
    }
}

/// Whether a copy by an allocator is printed so; none if memory is refused.
pub fn is_copied<B: Allocator + Clone>(
    tree: &Expr<Global>,
    alloc: Global,
    copies: B,
    text: &str,
) -> Option<bool> {
    match tree.clone_in(copies) {
        Ok(copy) => is_printed(&copy, alloc, text),
        Err(_) => None,
    }
}

fn has_text(alloc: Global, arena: &Bump<Global>, tree: &Expr<Global>, text: &str) -> bool {
    is_printed(tree, alloc, text).unwrap_or(false)
        && is_printed(tree, arena, text).unwrap_or(false)
        && is_copied(tree, alloc, alloc, text).unwrap_or(false)
        && is_copied(tree, alloc, arena, text).unwrap_or(false)
}

/// Whether the tree has this text and these measures, and its copies the text, one of them by another kind of allocator.
pub fn is_tree_of(
    alloc: Global,
    tree: &Expr<Global>,
    text: &str,
    measures: &(u32, u32, u32),
) -> bool {
    (tree.depth(), tree.cells(), tree.size()) == *measures
        && has_text(alloc, &Bump::new(alloc), tree, text)
}

/// Whether the program ends with this value on a packet.
pub fn answers<A: Allocator>(program: &Program<A>, packet: &[u8], value: u32) -> bool {
    if packet.len() > MAX_PACKET {
        return false;
    }
    let mut words = program.words();
    let count = words.len();
    run(&mut words, 0, count, packet).value == value
}

/// Whether a result may come with more memory than the one before: it is not wrong, and not refused if that one was
/// not.
pub fn follows(before: Option<bool>, now: Option<bool>) -> bool {
    match now {
        Some(is_right) => is_right,
        None => before.is_none(),
    }
}

pub const ARENA: usize = 1024;

/// An arena that has this many bytes left, and gets no more.
pub fn arena_with(rt: &impl Abort, alloc: Global, room: usize) -> Bump<Global> {
    let arena = Bump::try_with_capacity(alloc, ARENA).expect(rt, "memory");
    arena.set_allocation_limit(Some(arena.allocated_bytes()));
    for _ in 0..arena.chunk_capacity().saturating_sub(room) {
        arena.try_alloc(0u8).expect(rt, "a byte of the arena");
    }
    arena
}
