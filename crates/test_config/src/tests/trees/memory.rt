//! Texts and copies of trees in arenas of few bytes.

use super::{COMPUTED, CONNECTED, SUM, computed, connected, sum};
use crate::tests::assert_numbered;
use crate::tests::built::{ARENA, arena_with, follows, is_arith_printed, is_copied, is_printed};
use bumpalo::Bump;
use filter_tree::{Arith, Expr};
use std::alloc::Global;
use std::process::Abort;

// A copy or a text that is made in an arena.
#[derive(Clone, Copy)]
enum Made<'a> {
    // A tree's copy; its text shows what it is.
    Copy(&'a Expr<Global>),
    // A tree's text.
    Text(&'a Expr<Global>),
    // The text of an arithmetic expression alone.
    ArithText(&'a Arith<Global>),
}

// Whether the copy or text that is made in an arena has this text; none if memory is refused.
fn is_made_in(alloc: Global, arena: &Bump<Global>, made: Made, text: &str) -> Option<bool> {
    match made {
        Made::Copy(tree) => is_copied(tree, alloc, arena, text),
        Made::Text(tree) => is_printed(tree, arena, text),
        Made::ArithText(arith) => is_arith_printed(arith, arena, text),
    }
}

// From no room in an arena on, byte by byte, each allocation is once the first that is refused.
fn is_refused_in_turn(rt: &impl Abort, alloc: Global, made: Made, text: &str) {
    let mut before = is_made_in(alloc, &arena_with(rt, alloc, 0), made, text);
    assert!(rt; before.is_none());
    for room in 1..ARENA {
        let now = is_made_in(alloc, &arena_with(rt, alloc, room), made, text);
        assert_numbered(rt, follows(before, now), room as u64);
        before = now;
    }
    assert!(rt; before.is_some());
}

fn is_refused_for(rt: &impl Abort, alloc: Global, tree: Expr<Global>, text: &str) {
    is_refused_in_turn(rt, alloc, Made::Copy(&tree), text);
    is_refused_in_turn(rt, alloc, Made::Text(&tree), text);
}

fn is_arith_refused(rt: &impl Abort, alloc: Global, arith: Arith<Global>, text: &str) {
    is_refused_in_turn(rt, alloc, Made::ArithText(&arith), text);
}

#[test]
fn each_allocation_refused_in_turn(rt: HostRuntime) {
    let alloc = rt.alloc();
    is_refused_for(&rt, alloc, connected(&rt, alloc), CONNECTED);
    is_refused_for(&rt, alloc, computed(&rt, alloc), COMPUTED);
    is_arith_refused(&rt, alloc, sum(&rt, alloc), SUM);
}
