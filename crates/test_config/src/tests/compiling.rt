//! Compiling a tree that is deeper than that of any text, and compiling if memory is refused.

use super::assert_numbered;
use super::built::{ARENA, PORT_53, SAMPLE_PACKET, answers, arena_with, follows, or};
use bumpalo::Bump;
use filter_compile::{CompileFault, compile};
use filter_tree::{Direction, Expr, Primitive, Transport};
use std::alloc::Global;
use std::process::Abort;

// `count` port ranges, joined by `or`.
fn port_ranges(rt: &impl Abort, alloc: Global, count: u16) -> Expr<Global> {
    let first = Primitive::PortRange(Transport::Unnamed, Direction::Either, 1, 2);
    let mut tree = Expr::Primitive(first);
    for n in 1..count {
        let next = Primitive::PortRange(Transport::Unnamed, Direction::Either, n, 200);
        tree = or(rt, alloc, tree, next);
    }
    tree
}

// The charge of the tree's program, 0 if the program does not accept the sample packet.
fn charge_of(alloc: Global, tree: &Expr<Global>) -> Result<u32, CompileFault> {
    match compile(alloc, tree) {
        Ok(program) if answers(&program, &SAMPLE_PACKET, 65_535) => Ok(program.charge()),
        Ok(_) => Ok(0),
        Err(fault) => Err(fault),
    }
}

fn has_charge(rt: &impl Abort, alloc: Global, count: u16, charge: Result<u32, CompileFault>) {
    let tree = port_ranges(rt, alloc, count);
    assert!(rt; charge_of(alloc, &tree) == charge);
}

// 121 have a size of 4116.
#[test]
fn hundred_and_twenty_port_ranges(rt: HostRuntime) {
    has_charge(&rt, rt.alloc(), 120, Ok(4082));
    has_charge(&rt, rt.alloc(), 121, Err(CompileFault::TooLong));
}

// Whether the tree's program, in the arena's memory, is right; none if memory is refused.
fn is_compiled_in(arena: &Bump<Global>, tree: &Expr<Global>) -> Option<bool> {
    match compile(arena, tree) {
        Ok(program) => Some(answers(&program, &SAMPLE_PACKET, 65_535)),
        Err(CompileFault::OutOfMemory) => None,
        Err(_) => Some(false),
    }
}

// The fewest bytes left in an arena in which the tree's program has room; it has room in each greater number too. The
// tree's memory and the program's are of unlike allocators.
fn least_room(rt: &impl Abort, alloc: Global, tree: Expr<Global>) -> usize {
    let mut least = ARENA;
    let mut before = None;
    for room in 0..ARENA {
        let compiled = is_compiled_in(&arena_with(rt, alloc, room), &tree);
        assert_numbered(rt, follows(before, compiled), room as u64);
        if before.is_none() && compiled.is_some() {
            least = room;
        }
        before = compiled;
    }
    assert!(rt; before.is_some());
    least
}

// `greater 30 or greater 30 or .. or greater 29` with `count` parts: a jump of each leads to yes.
fn alternatives(rt: &impl Abort, alloc: Global, count: u32) -> Expr<Global> {
    let mut tree = Expr::Primitive(Primitive::AtLeast(30));
    for _ in 2..count {
        tree = or(rt, alloc, tree, Primitive::AtLeast(30));
    }
    or(rt, alloc, tree, Primitive::AtLeast(29))
}

#[test]
fn each_allocation_refused_in_turn(rt: HostRuntime) {
    // 30 words, and the lists of jumps stay within the frame.
    let room = least_room(&rt, rt.alloc(), Expr::Primitive(PORT_53));
    assert_numbered(&rt, 240 <= room && room < 304, room as u64);
}

#[test]
fn growing_list_of_jumps_refused_in_turn(rt: HostRuntime) {
    // 38 words, and a list of nine jumps of eight bytes each, one more than the frame holds.
    let room = least_room(&rt, rt.alloc(), alternatives(&rt, rt.alloc(), 9));
    assert_numbered(&rt, 376 <= room && room < ARENA, room as u64);
}
