//! Parsing an expression if memory is refused.

use super::built::is_printed;
use super::heaps::steps_in_heaps;
use filter_parse::{ParseFault, parse};
use filter_tree::Expr;
use linked_list_allocator::LocalHeap;
use std::alloc::Global;
use std::process::Abort;

const TEXT: &[u8] = b"not (udp[1 + 2] = 3 or net 10.0.0.0/8) and port 53";

const PRINTED: &str = "( not ( udp[(1+2):1] = 3 or net 10.0.0.0/8 ) and port 53 )";

// 1 if the tree is the text's; none if it is another one.
fn compared(tree: &Expr<&LocalHeap>, alloc: Global) -> Option<usize> {
    match is_printed(tree, alloc, PRINTED) {
        Some(true) => Some(1),
        _ => None,
    }
}

// 1 if the text's tree is read, 0 if the heap has no memory for it. None if another fault is returned, or the tree is
// wrong.
fn read_within<R: Abort>(_rt: &R, alloc: Global, heap: &LocalHeap) -> Option<usize> {
    match parse(heap, TEXT) {
        Ok(tree) => compared(&tree, alloc),
        Err(ParseFault::OutOfMemory) => Some(0),
        Err(_) => None,
    }
}

#[test]
fn each_allocation_refused_in_turn(rt: HostRuntime) {
    assert!(rt; steps_in_heaps(&rt, rt.alloc(), 200, read_within) == 1);
}
